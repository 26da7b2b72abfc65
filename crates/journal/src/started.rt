//! What a server starts with.
ghost use Rattle.std.specs.Prelude.{◌≡◌};
ghost use Rattle.std.specs.Coded.{Coded-set};
ghost use Rattle.std.proofs.Props.{props};
ghost use Rattle.journal.specs.Held.{begun, HoldsDump};

use crate::disk_file::DiskFile;
use crate::journal::Journal;
use crate::mark::Mark;
use crate::start_fault::StartFault;
use snapshots::Version;

/// What a start does in the folder.
#[derive(Clone, Copy, Debug, PartialEq, Eq)]
pub enum Access {
    /// It makes the file of the epoch that begins.
    ReadWrite {
        /// Whether the server will show only what is kept.
        shows_kept: bool,
    },
    /// It writes nothing.
    ReadOnly,
}

/// An epoch that begins, with its journal.
#[derive(Drop)]
pub struct Begun {
    /// What the database begins with: its base, and no entries.
    pub version: Version,
    /// The journal of the epoch: with its first line, or with no file, where that could not be made or nothing is written.
    pub journal: Journal<DiskFile>,
    /// The number of the epoch, from 1.
    pub epoch: u64,
    ghost empty: { version ≡ begun version.base } by { Coded-set version-code version (begun version.base) },
    ghost held: { HoldsDump journal (begun version.base) } by { Prim.hlevel props },
}

/// What is dropped of a file: all behind the last line that was taken. No sync covered it.
#[derive(Clone, Copy)]
pub struct Dropped {
    /// The place of the last entry that was taken.
    pub place: u64,
    /// How many bytes are dropped.
    pub bytes: u64,
    /// Whether whole lines are among them, and not only a last one that was cut.
    pub torn: bool,
}

/// What a server starts with.
#[derive(Drop)]
pub struct Started {
    /// The epoch that begins.
    pub begun: Begun,
    /// Why its journal has no file yet, where that could not be made: a [`rewrite`](crate::Folder::rewrite) makes it.
    pub unwritten: Option<StartFault>,
    /// The epoch whose file was read: the newest, where there is one.
    pub read: Option<u64>,
    /// What the mark said of that file.
    pub mark: Option<Mark>,
    /// An epoch above it of which the mark is, whose file is missing.
    pub ahead: Option<u64>,
    /// How many entries were read of it.
    pub places: u64,
    /// What of it is dropped.
    pub dropped: Option<Dropped>,
    /// How many bytes it lacks of those that the mark says were synced.
    pub missing: u64,
    /// Whether update numbers go on above all that an earlier server showed, since some of them may be lost.
    pub raised: bool,
}
