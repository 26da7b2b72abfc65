//! Why no epoch begins.
ghost use Rattle.std.specs.Prelude.{◌≡◌, MatchResult, Ok};
ghost use Rattle.journal.specs.Starting.{IsOfFiles};

use replay_cli::Verdict;
use std::alloc::{AllocError, Global};
use std::io;
use thiserror::Error;

/// Why no epoch begins.
#[derive(Debug, Drop, Error)]
pub enum StartFault {
    /// A line of the newest file isn't that of the next entry of a legal history.
    #[error("{epoch:010}.dump: {verdict}")]
    Judged {
        /// The number of its epoch.
        epoch: u64,
        /// What `replay check` says of the file up to that line.
        verdict: Verdict,
    },
    /// The update number or the purge number of a database is above 4611686018427387904, so no epoch can begin from it.
    #[error("no successor")]
    NumbersTooLarge,
    /// 9999999999 epochs have a file.
    #[error("no epoch has a number above 9999999999")]
    LastEpoch,
    /// An operation on the folder failed.
    #[error("{0}")]
    Failed(io::Error),
    /// An operation on a file in it failed.
    #[error("{name}: {error}")]
    File {
        /// The name of the file.
        name: String,
        /// Why it failed.
        error: io::Error,
    },
    /// A new file could not be written.
    #[error("a new file could not be written")]
    Unwritten,
    /// Memory was refused.
    #[error("out of memory")]
    Memory,
}

impl From<io::Error> for StartFault {
    ghost use Rattle.std.specs.Prelude.{◌≡◌};
    ghost use Rattle.journal.specs.declared.start_fault.StartFault.TheVariants.{Failed};

    ghost from_gives = { λ error fault. fault ≡ Failed error };

    fn from(error: io::Error) -> StartFault {
        StartFault::Failed(error)
    }
}

impl From<AllocError> for StartFault {
    ghost use Rattle.std.specs.Prelude.{◌≡◌};
    ghost use Rattle.journal.specs.declared.start_fault.StartFault.TheVariants.{Memory};

    ghost from_gives = { λ _ fault. fault ≡ Memory };

    fn from(_refused: AllocError) -> StartFault {
        StartFault::Memory
    }
}

/// What an operation on the file of this name answered.
pub(crate) fn of_file<T: Drop>(
    alloc: Global,
    name: &str,
    outcome: io::Result<T>,
) -> Result<T, StartFault>
    ensures { MatchResult result (λ value. outcome ≡ Ok value) IsOfFiles }
{
    match outcome {
        Ok(value) => Ok(value),
        Err(error) => Err(StartFault::File {
            name: String::from_str(alloc, name)?,
            error,
        }),
    }
}
