//! What is left of an epoch whose file was read.
ghost use Rattle.std.specs.Prelude.{◌≡◌};
ghost use Rattle.std.specs.Coded.{Coded-set};
ghost use Rattle.journal.specs.Held.{begun};

use replay_cli::Verdict;
use snapshots::Version;
use std::alloc::AllocError;
use std::io;
use thiserror::Error;

/// What lies behind the lines of a text that were taken.
#[derive(Clone, Copy, Debug, PartialEq, Eq)]
pub enum End {
    /// Nothing.
    Whole,
    /// A last line that has no line feed.
    Cut,
    /// A line that isn't that of the next entry, behind all that was synced.
    Torn,
}

/// When the next epoch raises the update number, since numbers may have been shown that the text doesn't have.
#[derive(Clone, Copy, Debug, PartialEq, Eq)]
pub enum Raise {
    /// Never: all that was shown was synced.
    Never,
    /// Where anything lies behind the lines that are taken: all that was shown was appended, and the system still runs.
    IfTorn,
    /// Always, but where the text is a first line alone: then nothing was shown that was not synced.
    BehindEntries,
    /// Always. An epoch doesn't go on in its file then.
    Always,
}

/// What is left of an epoch whose file was read.
#[derive(Drop)]
pub struct Restored {
    /// What the database begins with: the base of the next epoch, or of the same one where that goes on, and no entries.
    pub version: Version,
    /// How many entries were taken.
    pub places: u64,
    /// How many bytes were taken: the first line and those of the entries.
    pub taken: u64,
    /// What lies behind them.
    pub end: End,
    /// Whether the update number of the next epoch is raised, by [`RAISE`](replay_cli::RAISE).
    pub raised: bool,
    /// Whether the same epoch goes on in its file, which has its first line and nothing else.
    pub goes_on: bool,
    ghost empty: { version ≡ begun version.base } by { Coded-set version-code version (begun version.base) },
}

/// Why nothing begins from a file.
#[derive(Debug, Drop, Error)]
pub enum Unrestored {
    /// Memory was refused.
    #[error("out of memory")]
    Memory,
    /// A read failed.
    #[error("{0}")]
    Read(io::Error),
    /// The first line is none, or a line that was synced isn't that of the next entry of a legal history.
    #[error("{verdict}")]
    Judged {
        /// What `replay check` says of the text up to the end of that line.
        verdict: Verdict,
        /// The byte at which the line begins, from 0.
        at: u64,
    },
    /// The update number or the purge number of the next epoch would be above 4611686018427387904.
    #[error("no successor")]
    NumbersTooLarge,
}

impl From<AllocError> for Unrestored {
    ghost use Rattle.std.specs.Prelude.{◌≡◌};
    ghost use Rattle.journal.specs.declared.restored.Unrestored.TheVariants.{Memory};

    ghost from_gives = { λ _ fault. fault ≡ Memory };

    fn from(_refused: AllocError) -> Unrestored {
        Unrestored::Memory
    }
}

impl From<io::Error> for Unrestored {
    ghost use Rattle.std.specs.Prelude.{◌≡◌};
    ghost use Rattle.journal.specs.declared.restored.Unrestored.TheVariants.{Read};

    ghost from_gives = { λ error fault. fault ≡ Read error };

    fn from(error: io::Error) -> Unrestored {
        Unrestored::Read(error)
    }
}
