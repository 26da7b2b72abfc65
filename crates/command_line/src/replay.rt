//! The command line of `replay`.
ghost use Rattle.std.specs.Prelude.{◌≡◌, ◌⊎◌, [], ◌∷◌, map, true, false, codes, IfOk, IfErr};
ghost use Rattle.clap.specs.Kinds.{IsAmong};
ghost use Rattle.clap.specs.Words.{app_of, fault_of, new_app};
ghost use Rattle.clap.specs.declared.error.kind.ErrorKind.TheVariants.{DisplayVersion};
ghost use Rattle.clap.specs.declared.builder.command.Command.TheViews.{out-Command as fields_of};
ghost use Rattle.command_line.specs.Faults.{asks_version};
ghost use Rattle.command_line.specs.Replay.{replay, base, IsRunOf};

use crate::faults::{ArgumentsFault, NOT_TEXT, fault, refuse};
use crate::flags::{flag, flag_of};
use crate::lines::{program, with_subcommand};
use crate::numbers::with_option;
use clap::Command;
use std::alloc::{AllocError, Global};
use std::convert::AsStr;

/// What the arguments of a command line ask for.
#[derive(Clone, Copy, Debug, PartialEq, Eq)]
pub enum Run {
    /// Tells whether standard input is the dump of a legal history.
    Check,
    /// Writes the first line of the next history's dump, if standard input is the dump of a legal one.
    Base {
        /// Whether its update number is raised, as after an end that may have lost numbers that were shown.
        raised: bool,
    },
}

/// The command line as `clap` takes it.
fn command<'a>(alloc: Global) -> Result<Command<'a>, AllocError>
    ensures app { IfOk result (λ c. app_of c ≡ replay) }
    ensures local { IfOk result (λ c. (fields_of c).has_globals ≡ false) }
    ensures subcommand { IfOk result (λ c. (fields_of c).subcommand_required ≡ true) }
{
    let replay = program(
        alloc,
        "replay",
        "An audit of the histories of a document store",
    );
    let replay = with_subcommand(replay, check(alloc))?;
    let replay = with_subcommand(replay, base(alloc)?)?;
    Ok(replay)
}

fn check<'a>(alloc: Global) -> Command<'a>
    ensures app { app_of result ≡ new_app (codes "check") }
    ensures local { (fields_of result).has_globals ≡ false }
{
    Command::new(alloc, "check").about(
        "Tells whether standard input is the dump of a legal history",
    )
}

fn base<'a>(alloc: Global) -> Result<Command<'a>, AllocError>
    ensures app { IfOk result (λ c. app_of c ≡ base) }
    ensures local { IfOk result (λ c. (fields_of c).has_globals ≡ false) }
{
    let raised = flag(alloc, "raised").help(
        "Raises its update number by 16777216, as a start does after an end that may have lost numbers that were shown",
    );
    let base = Command::new(alloc, "base").about(
        "Writes the first line of the next history's dump, if standard input is the dump of a legal one",
    );
    with_option(base, raised)
}

/// Why arguments that are not all UTF-8 name no run: the text that `clap` has for them.
pub fn refuse_bytes(alloc: Global) -> ArgumentsFault
    ensures { asks_version result ≡ false }
{
    refuse(alloc, command(alloc), NOT_TEXT)
}

/// The run that the arguments ask for. The first of them is the program's name, as in
/// `std::env::args`.
///
/// # Errors
///
/// [`ArgumentsFault::Refused`] where the arguments name no run, with the text that says so,
/// [`ArgumentsFault::Version`] where they ask for the version, and [`ArgumentsFault::Memory`] where
/// memory was refused.
pub fn read_arguments<S: AsStr>(alloc: Global, arguments: &[S]) -> Result<Run, ArgumentsFault>
    // The run has the name of the subcommand in the arguments, and its option is there where they give it.
    ensures run { IfOk result (IsRunOf (map S.text arguments.now)) }

    // Arguments are refused exactly where `clap` finds a fault in them, but for memory.
    ensures faultless { IfOk result (λ _. fault_of replay (map S.text arguments.now) ≡ []) }
    ensures faulty { IfErr result (λ fault. fault_of replay (map S.text arguments.now) ≡ []
        → fault ≡ ArgumentsFault.Memory) }

    // They ask for the version exactly where `clap` finds that they do, but for memory.
    ensures version { IfErr result (λ fault. asks_version fault ≡ true
        → IsAmong DisplayVersion (fault_of replay (map S.text arguments.now))) }
    ensures version_asked { fault_of replay (map S.text arguments.now) ≡ DisplayVersion ∷ []
        → IfErr result (λ fault. (fault ≡ ArgumentsFault.Memory) ⊎ (asks_version fault ≡ true)) }
{
    let matches = match command(alloc)?.try_get_matches_from(arguments) {
        Ok(matches) => matches,
        Err(error) => return Err(fault(alloc, &error)),
    };
    let (name, options) = matches.subcommand().unwrap();
    match name {
        "check" => Ok(Run::Check),
        "base" => Ok(Run::Base {
            raised: flag_of(options, "raised"),
        }),
        _ => unreachable!(),
    }
}
