//! Options for numbers.
ghost use Rattle.std.specs.Prelude.{◌≡◌, ◌≤◌, ℕ, false, IfOk, IfSome, IfNone};
ghost use Rattle.clap.specs.Words.{app_of, first_of, found_of, rows_of, rule_of, with_rule};
ghost use Rattle.clap.specs.declared.builder.command.Command.TheViews.{out-Command as fields_of};
ghost use Rattle.command_line.specs.Numbers.{number_option, optional_number, IsNumber, IsNumberOf};

use clap::builder::ValueParser;
use clap::{Arg, ArgMatches, Command};
use std::alloc::{AllocError, Global};

/// The command with an option more.
pub(crate) fn with_option<'a>(
    command: Command<'a>,
    option: Arg<'a>,
) -> Result<Command<'a>, AllocError>
    requires local { option.global ≡ false }
    ensures app { IfOk result (λ c. app_of c ≡ with_rule (app_of command.entry) (rule_of option.entry)) }
    ensures local { IfOk result (λ c.
        (fields_of c).has_globals ≡ (fields_of command.entry).has_globals) }
{
    command.arg(option)
}

/// An option for a number within these bounds.
pub(crate) fn number_option<'a>(
    alloc: Global,
    name: &'a str,
    value_name: &'a str,
    least: u64,
    most: u64,
    default: &'a str,
) -> Arg<'a>
    ensures rule { rule_of result ≡ number_option name.entry.now least most default.entry.now }
    ensures local { result.global ≡ false }
{
    optional_number(alloc, name, value_name, least, most).default_value(default)
}

/// An option for a number within these bounds, which has no default.
pub(crate) fn optional_number<'a>(
    alloc: Global,
    name: &'a str,
    value_name: &'a str,
    least: u64,
    most: u64,
) -> Arg<'a>
    ensures rule { rule_of result ≡ optional_number name.entry.now least most }
    ensures local { result.global ≡ false }
{
    Arg::new(alloc, name)
        .long(name)
        .value_name(value_name)
        .value_parser(ValueParser::unsigned(least, most))
}

/// The number that was given under this name, or else the default; nothing where it is out of these
/// bounds.
pub(crate) fn number_of(
    options: &ArgMatches<'_>,
    name: &str,
    default: u64,
    least: u64,
    most: u64,
) -> Option<u64>
    requires within { (least ≤ default) × (default ≤ most) }
    ensures number { IfSome result
        (IsNumberOf (first_of name.now (rows_of (found_of options.now))) default) }
    ensures within { IfSome result (λ number. (least ≤ number) × (number ≤ most)) }
    ensures no_number { IfNone result ((number : ℕ)
        → IsNumberOf (first_of name.now (rows_of (found_of options.now))) default number
        → least ≤ number → number ≤ most → ⊥) }
{
    let Some(text) = options.get_str(name) else {
        return Some(default);
    };
    number_in(text, least, most)
}

/// The number that a text says; nothing where it says none, or one out of these bounds.
pub(crate) fn number_in(text: &str, least: u64, most: u64) -> Option<u64>
    ensures number { IfSome result (IsNumber text.now) }
    ensures within { IfSome result (λ number. (least ≤ number) × (number ≤ most)) }
    ensures no_number { IfNone result ((number : ℕ)
        → IsNumber text.now number → least ≤ number → number ≤ most → ⊥) }
{
    let Ok(number) = text.parse::<u64>() else {
        return None;
    };
    if number < least || most < number {
        return None;
    }
    Some(number)
}
