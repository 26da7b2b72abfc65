//! Why arguments name no run.
ghost use Rattle.std.specs.Prelude.{◌≡◌, ◌⊎◌, true, false};
ghost use Rattle.clap.specs.Words.{kind_of};
ghost use Rattle.clap.specs.declared.error.kind.ErrorKind.TheVariants.{DisplayVersion, OutOfMemory};
ghost use Rattle.command_line.specs.declared.faults.ArgumentsFault.TheVariants.{Memory as NoMemory};
ghost use Rattle.command_line.specs.declared.faults.GivenFault.TheVariants.{Memory};
ghost use Rattle.command_line.specs.Faults.{asks_version};

use clap::Command;
use clap::error::ErrorKind;
use std::alloc::{AllocError, Global};
use std::io::{Eprint, Print};
use std::process::ExitCode;
use thiserror::Error;

/// Why arguments name no run.
#[derive(Debug, Drop, Error)]
pub enum ArgumentsFault {
    /// Memory was refused.
    #[error("out of memory")]
    Memory,
    /// They ask for the version: `clap`'s line with the name of the program and its version.
    #[error("{0}")]
    Version(String),
    /// They can't be parsed, or ask for help: `clap`'s text for the user.
    #[error("{0}")]
    Refused(String),
}

impl ArgumentsFault {
    /// Says why the arguments name no run, and answers the exit status: the version on standard
    /// output with 0, or 1 where that can't be written; on standard error why they can't be parsed,
    /// with the status that is given here; and 1 where memory was refused.
    pub fn tell<P: Print + Eprint>(self, rt: &P, unreadable: u8) -> ExitCode {
        match self {
            ArgumentsFault::Version(text) => match print!(rt; "{text}") {
                Ok(()) => ExitCode::SUCCESS,
                Err(_) => ExitCode::FAILURE,
            },
            ArgumentsFault::Refused(text) => {
                let _printed = eprint!(rt; "{text}");
                ExitCode::from(unreadable)
            }
            ArgumentsFault::Memory => ExitCode::FAILURE,
        }
    }
}

impl From<AllocError> for ArgumentsFault {
    ghost from_gives = { λ _ fault. fault ≡ NoMemory };

    fn from(_error: AllocError) -> ArgumentsFault {
        ArgumentsFault::Memory
    }
}

/// Why the arguments of a subcommand name no run.
#[derive(Clone, Copy)]
pub(crate) enum GivenFault {
    /// Memory was refused.
    Memory,
    /// One of them can't be taken: what is said of the first.
    Refused(&'static str),
}

impl From<AllocError> for GivenFault {
    ghost from_gives = { λ _ fault. fault ≡ Memory };

    fn from(_refused: AllocError) -> GivenFault {
        GivenFault::Memory
    }
}

/// What `clap` says of arguments that are not UTF-8.
pub(crate) const NOT_TEXT: &str = "invalid UTF-8 was detected in one or more arguments";

/// What is said of a number that is out of its range. `clap` refuses each such number before.
pub(crate) const OUT_OF_RANGE: &str = "a number is out of its range";

/// What is said of an option of the journal where no folder was given.
pub(crate) const NO_FOLDER: &str =
    "'--sync', '--keep' and '--read-only' are for a journal, and go with '--data'";

/// What is said where no folder is given that is repaired.
pub(crate) const NO_DATA: &str = "there is no folder to repair";

/// What is said of a time of a sync that is none.
pub(crate) const NO_SYNC: &str = "the journal is synced 'always', each 'second' or 'never'";

/// What is said of more workers than sessions beside the journal's.
pub(crate) const NO_SESSION: &str = "with '--data' there are at most 63 workers";

/// What is said of a source or a target that names no place.
pub(crate) const NO_PLACE: &str =
    "'--source' and '--target' are HOST:PORT, http://HOST:PORT or http://HOST:PORT/db";

/// What is said of a source or a target that is reached by https.
pub(crate) const NO_HTTPS: &str =
    "'--source' and '--target' are reached by http alone: for https, name a proxy that speaks it";

/// What is said of a source or a target with a user.
pub(crate) const NO_USER: &str =
    "'--source' and '--target' have no user: name a proxy that adds the user";

/// What is said of a source or a target with another path than that of the database.
pub(crate) const NO_PATH: &str =
    "'--source' and '--target' have no path but /db: for another one, name a proxy that adds it";

/// What is said of a source that is the target.
pub(crate) const ONE_PLACE: &str = "'--source' and '--target' are one place";

/// What is said of an id that is none.
pub(crate) const NO_ID: &str = "the id has not 1 to 512 bytes, or begins with '_'";

/// What is said of a list of documents that is none.
pub(crate) const NO_DOC_IDS: &str =
    "the list of documents has an id that is no text of 1 to 512 bytes";

/// What is said of a list of origins that has a part that is none.
pub(crate) const NO_ORIGIN: &str =
    "'--origins' is '*', or origins as a browser writes them: https://app.example,http://localhost:8080";

/// What is said of a list of names of hosts that has a part that is none.
pub(crate) const NO_HOST: &str =
    "'--hosts' is '*', or names of hosts without a scheme and a port: db.example,couch.example";

/// The fault that a parse ends with.
pub(crate) fn fault(alloc: Global, error: &clap::Error) -> ArgumentsFault
    ensures memory { kind_of error.now ≡ OutOfMemory → result ≡ ArgumentsFault.Memory }
    ensures version { kind_of error.now ≡ DisplayVersion
        → (result ≡ ArgumentsFault.Memory) ⊎ (asks_version result ≡ true) }
    ensures version_only { asks_version result ≡ true → kind_of error.now ≡ DisplayVersion }
{
    let kind = error.kind();
    if kind == ErrorKind::OutOfMemory {
        return ArgumentsFault::Memory;
    }
    let Ok(text) = format!(in alloc; "{error}") else {
        return ArgumentsFault::Memory;
    };
    if kind == ErrorKind::DisplayVersion {
        return ArgumentsFault::Version(text);
    }
    ArgumentsFault::Refused(text)
}

/// A refusal of the arguments of this command line, for this reason.
pub(crate) fn refuse<'a>(
    alloc: Global,
    command: Result<Command<'a>, AllocError>,
    reason: &'a str,
) -> ArgumentsFault
    ensures { asks_version result ≡ false }
{
    match text_of(alloc, command, reason) {
        Ok(text) => ArgumentsFault::Refused(text),
        Err(_) => ArgumentsFault::Memory,
    }
}

/// `clap`'s text of a value that is refused for this reason.
fn text_of<'a>(
    alloc: Global,
    command: Result<Command<'a>, AllocError>,
    reason: &'a str,
) -> Result<String, AllocError> {
    let error = command?.error(ErrorKind::ValueValidation, reason)?;
    format!(in alloc; "{error}")
}
