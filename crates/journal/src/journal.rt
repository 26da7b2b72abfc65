//! The journal of one epoch.
ghost use Rattle.std.specs.Prelude.{◌≡◌, ◌≤◌, [], length, true, false, Err, IfOk, IfSome, MatchResult, OnOk};
ghost use Rattle.streams.specs.Counts.{CountRose};
ghost use Rattle.model.specs.History.{Chronicle, Extends};
ghost use Rattle.journal.specs.Files.{TakesAll};
ghost use Rattle.journal.specs.Held.{begun, HoldsDump, BeginsDump};
ghost use Rattle.history_dump.specs.Dump.{first_line};
ghost use Rattle.journal.specs.Appending.{lines_above, IsBegun, AppendsAll, FailsToAppend, Covers, FailsToCover};
ghost use Rattle.journal.specs.declared.fault.JournalFault.TheVariants as fault;

use crate::appended::Appended;
use crate::disk_file::DiskFile;
use crate::fault::JournalFault;
use crate::lines::lines_above;
use crate::mark_file::MarkFile;
use history_dump::first_line;
use snapshots::Version;
use std::alloc::{AllocError, Global};
use std::marker::Model;
use streams::Failed;

/// The journal of one epoch: a file that is its dump, to which the lines of new entries are appended. Contracts see the
/// bytes of the file where they are known, and how far it has come.
///
/// Once a write or a sync has failed it is broken: nothing more is written, since what the file ends with is then not known.
pub struct Journal<F: Appended> {
    file: F,
    place: u64,
    synced: u64,
    broken: bool,
}

impl<F: Appended> Drop for Journal<F> {
    fn drop(self) {
        let Journal {
            file: _,
            place: _,
            synced: _,
            broken: _,
        } = self;
    }
}

impl<F: Appended> Model for Journal<F> {
    ghost use Rattle.journal.specs.Kept.{Kept};

    ghost Value = { Kept };

    ghost view = { λ j. record { taken = F.taken j.file; covered = F.covered j.file; failed = F.failed j.file; place = j.place; synced = j.synced; broken = j.broken } };
}

impl<F: Appended> Journal<F> {
    /// A journal over a file that has the first line of its epoch's dump, and nothing else.
    pub fn resume(file: F) -> Journal<F>
        ensures { result ≡ record { taken = F.taken file; covered = F.covered file; failed = F.failed file; place = 0; synced = 0; broken = false } }
    {
        Journal {
            file,
            place: 0,
            synced: 0,
            broken: false,
        }
    }

    /// A journal over an empty file, which gets the first line of the dump of the version's history, synced. It is broken
    /// where the write or the sync failed.
    ///
    /// # Errors
    ///
    /// Memory was refused.
    pub fn begin(alloc: Global, file: F, version: &Version) -> Result<Journal<F>, AllocError>
        ensures begun { IfOk result (IsBegun (F.taken file) (F.failed file) (first_line version.now.base)) }
        ensures told { IfOk result (λ j. j.broken ≡ false → F.told j.taken) }
        ensures held { IfSome (F.taken file) (λ text. text ≡ [])
            → IfOk result (λ j. j.broken ≡ false → HoldsDump j (begun version.now.base)) }
    {
        let line = first_line(alloc, version)?;
        Ok(begin_with(file, line.as_bytes()))
    }

    /// Appends the lines of all entries of the version that it doesn't have yet, in order and in one write.
    ///
    /// # Errors
    ///
    /// [`JournalFault::Memory`] where memory was refused: nothing was appended, and it may be tried again.
    /// [`JournalFault::Failed`] where the write failed, or one failed before.
    pub fn append(&mut self, alloc: Global, version: &Version) -> Result<(), JournalFault>
        requires place { self.old.place ≤ length version.now.entries }
        ensures appended { OnOk result (AppendsAll self.old self.new
            (lines_above self.old.place version.now.entries) (length version.now.entries)) }
        ensures memory { result ≡ Err fault.Memory → self.new ≡ self.old }
        ensures failed { result ≡ Err fault.Failed → FailsToAppend self.old self.new
            (lines_above self.old.place version.now.entries) }
        ensures held { (h : Chronicle) → HoldsDump self.old h → Extends version.now h
            → OnOk result (HoldsDump self.new version.now) }
        ensures begins { (h : Chronicle) → HoldsDump self.old h → Extends version.now h
            → BeginsDump self.new version.now }
        ensures said { OnOk result (F.said self.new.taken) }
        ensures broken { self.old.broken ≡ true → result ≡ Err fault.Failed }
    {
        self.append_above(alloc, version)
    }

    /// Appends the lines of the entries above its place.
    fn append_above(&mut self, alloc: Global, version: &Version) -> Result<(), JournalFault>
        requires place { self.old.place ≤ length version.now.entries }
        ensures appended { OnOk result (AppendsAll self.old self.new
            (lines_above self.old.place version.now.entries) (length version.now.entries)) }
        ensures memory { result ≡ Err fault.Memory → self.new ≡ self.old }
        ensures failed { result ≡ Err fault.Failed → FailsToAppend self.old self.new
            (lines_above self.old.place version.now.entries) }
        ensures said { OnOk result (F.said self.new.taken) }
        ensures broken { self.old.broken ≡ true → result ≡ Err fault.Failed }
    {
        if self.is_broken() {
            return Err(JournalFault::Failed);
        }
        let text = lines_above(alloc, version, self.place)?;
        let Ok(()) = self.file.append(text.as_bytes()) else {
            self.broken = true;
            return Err(JournalFault::Failed);
        };
        self.place = version.place();
        Ok(())
    }

    /// Makes durable all that was appended, and answers the place up to which it is.
    ///
    /// # Errors
    ///
    /// [`JournalFault::Failed`] where the sync failed, or something failed before.
    pub fn sync(&mut self) -> Result<u64, JournalFault>
        ensures covered { IfOk result (Covers self.old self.new) }
        ensures told { OnOk result (F.told self.old.taken) }
        ensures failed { result ≡ Err fault.Failed → FailsToCover self.old self.new }
        ensures memory { result ≡ Err fault.Memory → ⊥ }
        ensures broken { self.old.broken ≡ true → result ≡ Err fault.Failed }
        ensures held { (h : Chronicle) → HoldsDump self.old h → OnOk result (HoldsDump self.new h) }
        ensures begins { (h : Chronicle) → BeginsDump self.old h → BeginsDump self.new h }
    {
        self.sync_file()
    }

    /// Syncs the file.
    fn sync_file(&mut self) -> Result<u64, JournalFault>
        ensures taken { self.new.taken ≡ self.old.taken }
        ensures covered { IfOk result (Covers self.old self.new) }
        ensures told { OnOk result (F.told self.old.taken) }
        ensures failed { result ≡ Err fault.Failed → FailsToCover self.old self.new }
        ensures memory { result ≡ Err fault.Memory → ⊥ }
        ensures broken { self.old.broken ≡ true → result ≡ Err fault.Failed }
    {
        if self.broken {
            return Err(JournalFault::Failed);
        }
        let Ok(()) = self.file.sync() else {
            self.broken = true;
            return Err(JournalFault::Failed);
        };
        self.synced = self.place;
        Ok(self.place)
    }

    /// How many entries it has appended.
    pub fn place(&self) -> u64
        ensures { result ≡ self.now.place }
    {
        self.place
    }

    /// How many of them are covered by a sync.
    pub fn synced(&self) -> u64
        ensures { result ≡ self.now.synced }
    {
        self.synced
    }

    /// Whether a write or a sync has failed.
    pub fn is_broken(&self) -> bool
        ensures { result ≡ self.now.broken }
    {
        self.broken
    }

    /// The file, of a journal that is given up.
    pub fn into_file(self) -> F
        ensures taken { F.taken result ≡ self.taken }
        ensures covered { F.covered result ≡ self.covered }
        ensures failed { F.failed result ≡ self.failed }
    {
        let Journal {
            file,
            place: _,
            synced: _,
            broken: _,
        } = self;
        file
    }

    /// The file.
    pub fn file(&self) -> &F
        ensures taken { F.taken result.now ≡ self.now.taken }
        ensures covered { F.covered result.now ≡ self.now.covered }
        ensures failed { F.failed result.now ≡ self.now.failed }
    {
        &self.file
    }
}

impl Journal<DiskFile> {
    /// The same journal, whose mark is said from now on.
    pub(crate) fn marked(self, mark: Option<MarkFile>) -> Journal<DiskFile>
        ensures { result ≡ self }
    {
        let Journal {
            file,
            place,
            synced,
            broken,
        } = self;
        Journal {
            file: file.marked(mark),
            place,
            synced,
            broken,
        }
    }
}

/// A journal over a file that gets this first line, synced.
pub(crate) fn begin_with<F: Appended>(mut file: F, line: &[u8]) -> Journal<F>
    ensures begun { IsBegun (F.taken file) (F.failed file) line.now result }
    ensures told { result.broken ≡ false → F.told result.taken }
{
    let Ok(()) = put_synced(&mut file, line) else {
        return Journal {
            file,
            place: 0,
            synced: 0,
            broken: true,
        };
    };
    Journal::resume(file)
}

/// Appends a line, and makes it durable.
fn put_synced<F: Appended>(file: &mut F, line: &[u8]) -> Result<(), Failed>
    ensures taken { OnOk result (TakesAll (F.taken file.old) (F.taken file.new) line.now) }
    ensures covered { OnOk result (F.covered file.new ≡ F.taken file.new) }
    ensures told { OnOk result (F.told (F.taken file.new)) }
    ensures failures { MatchResult result (λ _. F.failed file.new ≡ F.failed file.old) (λ _. CountRose (F.failed file.old) (F.failed file.new)) }
{
    file.append(line)?;
    file.sync()
}
