//! Options for texts.
ghost use Rattle.std.specs.Prelude.{◌≡◌, false, option_map};
ghost use Rattle.clap.specs.Words.{first_of, found_of, rows_of, rule_of};
ghost use Rattle.command_line.specs.Texts.{optional_text, text_option};

use clap::{Arg, ArgMatches};
use std::alloc::Global;

/// An option that may be left out.
pub(crate) fn optional_text<'a>(alloc: Global, name: &'a str, value_name: &'a str) -> Arg<'a>
    ensures rule { rule_of result ≡ optional_text name.entry.now }
    ensures local { result.global ≡ false }
{
    Arg::new(alloc, name).long(name).value_name(value_name)
}

/// An option that has to be given.
pub(crate) fn text_option<'a>(alloc: Global, name: &'a str, value_name: &'a str) -> Arg<'a>
    ensures rule { rule_of result ≡ text_option name.entry.now }
    ensures local { result.global ≡ false }
{
    optional_text(alloc, name, value_name).required(true)
}

/// The text that was given under this name.
pub(crate) fn text_of<'a>(options: &ArgMatches<'a>, name: &str) -> Option<&'a str>
    ensures { option_map (λ text. text.now) result ≡ first_of name.now (rows_of (found_of options.now)) }
{
    options.get_str(name)
}
