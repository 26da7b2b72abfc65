//! Options without a value.
ghost use Rattle.std.specs.Prelude.{◌≡◌, Some, false};
ghost use Rattle.clap.specs.Words.{found_of, one_of, rows_of, rule_of};
ghost use Rattle.command_line.specs.Flags.{flag, IsFlagOf};

use clap::{Arg, ArgAction, ArgMatches};
use std::alloc::Global;

/// A flag of this name.
pub(crate) fn flag<'a>(alloc: Global, name: &'a str) -> Arg<'a>
    ensures rule { rule_of result ≡ flag name.entry.now }
    ensures local { result.global ≡ false }
{
    Arg::new(alloc, name).long(name).action(ArgAction::SetTrue)
}

/// Whether the flag of this name was given.
pub(crate) fn flag_of(options: &ArgMatches<'_>, name: &str) -> bool
    ensures { IsFlagOf (one_of name.now (rows_of (found_of options.now))) result }
{
    options.get_flag(name)
}
