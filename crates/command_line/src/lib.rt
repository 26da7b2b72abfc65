//! The command lines of the programs: that of `couchd`, and in [`replay`] that of `replay`.
#![tactic(auto)]

ghost use Rattle.std.specs.Prelude.{◌≡◌, ◌⊎◌, [], ◌∷◌, map, true, false, IfOk, IfErr, codes};
ghost use Rattle.clap.specs.Kinds.{IsAmong};
ghost use Rattle.clap.specs.Words.{app_of, fault_of, new_app};
ghost use Rattle.clap.specs.declared.error.kind.ErrorKind.TheVariants.{DisplayVersion};
ghost use Rattle.clap.specs.declared.builder.command.Command.TheViews.{out-Command as fields_of};
ghost use Rattle.command_line.specs.Couchd.{couchd, IsRunOf, NamesNoRun};
ghost use Rattle.command_line.specs.Faults.{asks_version};

mod arguments;
mod browsers;
mod doc_ids;
mod faults;
mod flags;
mod journal;
mod lines;
mod listed;
mod numbers;
mod origins;
mod places;
mod repair;
pub mod replay;
mod replicate;
mod serving;
mod texts;
mod version;

pub use arguments::given_arguments;
pub use browsers::{Allowed, BrowserOptions};
use clap::Command;
pub use faults::ArgumentsFault;
use faults::{GivenFault, NOT_TEXT, fault, refuse};
pub use journal::{JournalOptions, SyncPolicy};
use lines::{program, with_subcommand};
pub use repair::Repairing;
use repair::{repair, repairing_of};
pub use replicate::Replicating;
use replicate::{replicate, replicating_of};
pub use serving::Serving;
use serving::{serve, serving_of};
use std::alloc::{AllocError, Global};
use std::convert::AsStr;
pub use version::VERSION;

/// What the arguments of a command line ask for.
#[derive(Debug, Drop, PartialEq, Eq)]
pub enum Run {
    /// Serves standard input to standard output, with one session.
    Once,
    /// Serves standard input with one session, and writes the dump of its history at the end.
    Dump,
    /// Serves connections on a port of 127.0.0.1.
    Serve(Serving),
    /// Brings the changes of one database to another.
    Replicate(Replicating),
    /// Makes a server start from a folder whose newest file is damaged.
    Repair(Repairing),
}

/// The command line as `clap` takes it.
fn couchd<'a>(alloc: Global) -> Result<Command<'a>, AllocError>
    ensures app { IfOk result (λ c. app_of c ≡ couchd) }
    ensures local { IfOk result (λ c. (fields_of c).has_globals ≡ false) }
    ensures subcommand { IfOk result (λ c. (fields_of c).subcommand_required ≡ true) }
{
    let couchd = program(alloc, "couchd", "A replicating document store");
    let couchd = with_subcommand(couchd, once(alloc))?;
    let couchd = with_subcommand(couchd, dump(alloc))?;
    let couchd = with_subcommand(couchd, serve(alloc)?)?;
    let couchd = with_subcommand(couchd, replicate(alloc)?)?;
    let couchd = with_subcommand(couchd, repair(alloc)?)?;
    Ok(couchd)
}

fn once<'a>(alloc: Global) -> Command<'a>
    ensures app { app_of result ≡ new_app (codes "once") }
    ensures local { (fields_of result).has_globals ≡ false }
{
    Command::new(alloc, "once").about("Serves standard input to standard output")
}

fn dump<'a>(alloc: Global) -> Command<'a>
    ensures app { app_of result ≡ new_app (codes "dump") }
    ensures local { (fields_of result).has_globals ≡ false }
{
    Command::new(alloc, "dump").about(
        "Serves standard input, and writes the dump of its history at the end",
    )
}

/// Why arguments that are not all UTF-8 name no run: the text that `clap` has for them.
pub fn refuse_bytes(alloc: Global) -> ArgumentsFault
    ensures { asks_version result ≡ false }
{
    refuse(alloc, couchd(alloc), NOT_TEXT)
}

/// The run that the arguments ask for. The first of them is the program's name, as in
/// `std::env::args`.
///
/// # Errors
///
/// [`ArgumentsFault::Refused`] where the arguments name no run, with the text that says so,
/// [`ArgumentsFault::Version`] where they ask for the version, and [`ArgumentsFault::Memory`] where
/// memory was refused.
pub fn read_arguments<S: AsStr>(alloc: Global, arguments: &[S]) -> Result<Run, ArgumentsFault>
    // The run has the name of the subcommand in the arguments, and each of its options is the one
    // that they give, or else the default.
    ensures run { IfOk result (IsRunOf (map S.text arguments.now)) }

    // Arguments are refused exactly where `clap` finds a fault in them or they name no run, but for
    // memory.
    ensures faultless { IfOk result (λ _. fault_of couchd (map S.text arguments.now) ≡ []) }
    ensures faulty { IfErr result (λ fault. fault_of couchd (map S.text arguments.now) ≡ []
        → (fault ≡ ArgumentsFault.Memory) ⊎ NamesNoRun (map S.text arguments.now)) }

    // They ask for the version exactly where `clap` finds that they do, but for memory.
    ensures version { IfErr result (λ fault. asks_version fault ≡ true
        → IsAmong DisplayVersion (fault_of couchd (map S.text arguments.now))) }
    ensures version_asked { fault_of couchd (map S.text arguments.now) ≡ DisplayVersion ∷ []
        → IfErr result (λ fault. (fault ≡ ArgumentsFault.Memory) ⊎ (asks_version fault ≡ true)) }
{
    let matches = match couchd(alloc)?.try_get_matches_from(arguments) {
        Ok(matches) => matches,
        Err(error) => return Err(fault(alloc, &error)),
    };
    let (name, options) = matches.subcommand().unwrap();
    match name {
        "once" => Ok(Run::Once),
        "dump" => Ok(Run::Dump),
        "serve" => match serving_of(alloc, options) {
            Ok(serving) => Ok(Run::Serve(serving)),
            Err(GivenFault::Refused(reason)) => Err(refuse(alloc, couchd(alloc), reason)),
            Err(GivenFault::Memory) => Err(ArgumentsFault::Memory),
        },
        "replicate" => match replicating_of(alloc, options) {
            Ok(replicating) => Ok(Run::Replicate(replicating)),
            Err(GivenFault::Refused(reason)) => Err(refuse(alloc, couchd(alloc), reason)),
            Err(GivenFault::Memory) => Err(ArgumentsFault::Memory),
        },
        "repair" => match repairing_of(alloc, options) {
            Ok(repairing) => Ok(Run::Repair(repairing)),
            Err(GivenFault::Refused(reason)) => Err(refuse(alloc, couchd(alloc), reason)),
            Err(GivenFault::Memory) => Err(ArgumentsFault::Memory),
        },
        _ => unreachable!(),
    }
}
