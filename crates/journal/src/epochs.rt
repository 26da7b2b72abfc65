//! The files of epochs: which one a server goes on from, and how the next one begins.
ghost use Rattle.std.specs.Prelude.{◌≡◌, ◌≤◌, ◌<◌, ℕ, false, suc, List, Some, None, Ok, Err, IfErr, IfOk, IfSome, MatchBool, MatchOption, MatchResult, drop, filter, max, nat_le, reverse};
ghost use Rattle.model.specs.History.{now, successor};
ghost use Rattle.journal.specs.Held.{begun};
ghost use Rattle.journal.specs.Marks.{raise_by, synced_by};
ghost use Rattle.journal.specs.Refusing.{IsEndedBy, IsExhausted};
ghost use Rattle.journal.specs.Replaying.{AreTooLarge};
ghost use Rattle.journal.specs.Restoring.{IsRestored};
ghost use Rattle.journal.specs.Names.{last_epoch};
ghost use Rattle.journal.specs.Starting.{AreNumbersTooLarge, IsBegunAfter, IsDamaged, IsDroppedOf, IsNewest, IsOfFiles, IsStarted, IsUnwritten};
ghost use Rattle.journal.specs.Kept.{Kept};
ghost use Rattle.journal.specs.declared.restored.Unrestored.TheVariants as unrestored;
ghost use Rattle.journal.specs.declared.start_fault.StartFault.TheVariants as start;

use crate::disk_file::DiskFile;
use crate::folder::Folder;
use crate::journal::Journal;
use crate::lock::remove_left;
use crate::mark::{Mark, ahead_of, mark_for, raise_by, synced_by};
use crate::mark_file::found_mark;
use crate::names::{LAST_EPOCH, epoch_name};
use crate::reading::restore;
use crate::restored::{End, Raise, Restored, Unrestored};
use crate::start_fault::{StartFault, of_file};
use crate::started::{Access, Begun, Dropped, Started};
use replay_cli::Verdict;
use snapshots::Version;
use std::alloc::{AllocError, Global};
use std::fs::{self, File};
use std::io::{self, BufReader, ErrorKind};
use std::rt::Files;

/// The name of the file that has the mark.
pub(crate) const MARK: &str = "mark";

/// An epoch that begins, and why its journal has no file yet, where that could not be made.
#[derive(Drop)]
struct Opened {
    begun: Begun,
    unwritten: Option<StartFault>,
}

/// What was read of the file of an epoch, and how many bytes that has.
#[derive(Drop)]
pub(crate) struct FileRead {
    pub(crate) left: Restored,
    pub(crate) len: u64,
}

impl Folder {
    /// Reads the newest file, and begins the next epoch over the last database of its history; or goes on in it, where it has
    /// its first line and no more; or begins the first epoch, where there is no file. Numbers are raised unless the mark says
    /// that nothing that was shown is lost.
    ///
    /// No file of an epoch that is there changes, whatever comes. Unless nothing is to be written, the one that was read is synced.
    /// Where the file of the epoch that begins can't be made, as on a full disk, its journal has none, and why is answered.
    ///
    /// # Errors
    ///
    /// The newest file has a line that is no next entry and that was synced, or ends with too large numbers; memory was refused,
    /// or an operation on the file that is read failed.
    pub fn start<R: Files<File = File> + AllocGlobal + Clone + Drop>(
        &self,
        rt: &R,
        access: Access,
    ) -> Result<Started, StartFault>
        ensures started { IfOk result IsStarted }
        ensures unwritten { IfOk result (λ s. IfSome s.unwritten (IsUnwritten access)) }
        ensures judged { (epoch : ℕ) (verdict : Verdict) → result ≡ Err (start.Judged epoch verdict) → IsDamaged verdict }
        ensures too_large { result ≡ Err start.NumbersTooLarge → AreNumbersTooLarge }
    {
        let epochs = self.epochs(rt)?;
        let found = self.mark(rt)?;
        let Some(newest) = newest(&epochs) else {
            let Opened { begun, unwritten } = self.open_next(
                rt,
                1,
                Version::empty(self.alloc),
                access,
            )?;
            return Ok(Started {
                begun,
                unwritten,
                read: None,
                mark: None,
                ahead: ahead_of(found, 0),
                places: 0,
                dropped: None,
                missing: 0,
                raised: false,
            });
        };
        let file = self.read(rt, newest, mark_for(found, newest), access)?;
        self.go_on_after(rt, newest, found, file, access)
    }

    /// Begins what comes after the file of this epoch, which was read, and over which this mark was found.
    fn go_on_after<R: Files<File = File> + AllocGlobal>(
        &self,
        rt: &R,
        read: u64,
        found: Option<Mark>,
        file: FileRead,
        access: Access,
    ) -> Result<Started, StartFault>
        ensures after { IfOk result (IsBegunAfter read found file.len file.left) }
        ensures unwritten { IfOk result (λ s. IfSome s.unwritten (IsUnwritten access)) }
        ensures judged { (epoch : ℕ) (verdict : Verdict) → result ≡ Err (start.Judged epoch verdict) → ⊥ }
        ensures too_large { result ≡ Err start.NumbersTooLarge → ⊥ }
    {
        let FileRead { left, len } = file;
        let mark = mark_for(found, read);
        let places = left.places;
        let raised = left.raised;
        let dropped = dropped_of(len, &left);
        let Opened { begun, unwritten } = self.go_on(rt, read, left, len, access)?;
        Ok(Started {
            begun,
            unwritten,
            read: Some(read),
            mark,
            ahead: ahead_of(found, read),
            places,
            dropped,
            missing: synced_by(mark).saturating_sub(len),
            raised,
        })
    }

    /// Begins the epoch after this one, over the last database of a version, in which no session has called.
    ///
    /// # Errors
    ///
    /// The numbers of that database are too large, or there is no number for the epoch; memory was refused, or a file
    /// operation failed.
    pub fn succeed<R: Files<File = File> + AllocGlobal>(
        &self,
        rt: &R,
        epoch: u64,
        last: &Version,
        shows_kept: bool,
    ) -> Result<Begun, StartFault>
        ensures begun { IfOk result (λ b. b.version ≡ begun (Some (successor (now last.now)))) }
        ensures epoch { IfOk result (λ b. b.epoch ≡ suc epoch) }
        ensures too_large { result ≡ Err start.NumbersTooLarge → AreTooLarge (now last.now) }
        ensures last { result ≡ Err start.LastEpoch → last_epoch ≤ epoch }
        ensures judged { (at : ℕ) (verdict : Verdict) → result ≡ Err (start.Judged at verdict) → ⊥ }
    {
        if !last.has_successor() {
            return Err(StartFault::NumbersTooLarge);
        }
        let Some(next) = after(epoch) else {
            return Err(StartFault::LastEpoch);
        };
        let version = last.successor()?;
        self.begin(rt, next, version, shows_kept)
    }

    /// Removes the files of all epochs up to this one but the newest `count`, at least one of them, from the oldest on, and
    /// answers how many went.
    ///
    /// # Errors
    ///
    /// A file operation failed, or memory was refused. The oldest may be gone then.
    pub fn remove_old<R: Files<File = File> + AllocGlobal + Clone + Drop>(
        &self,
        rt: &R,
        epoch: u64,
        count: u64,
    ) -> io::Result<u64> {
        let epochs = self.epochs(rt)?;
        let old = old_epochs(self.alloc, &epochs, epoch, count)?;
        for epoch in old.iter().rev() {
            let name = epoch_name(self.alloc, *epoch)?;
            fs::remove_file(rt, self.path_of(name.as_str())?.as_str())?;
        }
        self.sync()?;
        Ok(old.len() as u64)
    }

    /// What is left of an epoch, whose file is synced unless nothing is to be written.
    fn read<R: Files<File = File> + AllocGlobal>(
        &self,
        rt: &R,
        epoch: u64,
        mark: Option<Mark>,
        access: Access,
    ) -> Result<FileRead, StartFault>
        ensures restored { IfOk result (λ r. (text : List ℕ)
            × IsRestored text (synced_by mark) (raise_by mark self.now.boot r.len) r.left) }
        ensures judged { (at : ℕ) (verdict : Verdict) → result ≡ Err (start.Judged at verdict)
            → (at ≡ epoch) × IsDamaged verdict }
        ensures too_large { result ≡ Err start.NumbersTooLarge → AreNumbersTooLarge }
        ensures last { result ≡ Err start.LastEpoch → ⊥ }
    {
        let name = epoch_name(self.alloc, epoch)?;
        let path = self.path_of(name.as_str())?;
        let file = of_file(self.alloc, name.as_str(), open_plain(rt, path.as_str()))?;
        let len = of_file(self.alloc, name.as_str(), length_of(&file))?;
        let raise = raise_by(mark, &self.boot, len);
        match restore_file(self.alloc, &file, synced_by(mark), raise) {
            Ok(left) => {
                of_file(self.alloc, name.as_str(), sync_as(&file, access))?;
                Ok(FileRead { left, len })
            }
            Err(fault) => Err(of_epoch(epoch, name, fault)),
        }
    }

    /// The epoch that begins after what is left of this one, whose file has so many bytes.
    fn go_on<R: Files<File = File> + AllocGlobal>(
        &self,
        rt: &R,
        epoch: u64,
        left: Restored,
        len: u64,
        access: Access,
    ) -> Result<Opened, StartFault>
        ensures version { IfOk result (λ o. o.begun.version ≡ left.version) }
        ensures epoch { IfOk result (λ o. MatchBool left.goes_on (o.begun.epoch ≡ epoch) (o.begun.epoch ≡ suc epoch)) }
        ensures unwritten { IfOk result (λ o. IfSome o.unwritten (IsUnwritten access)) }
        ensures too_large { result ≡ Err start.NumbersTooLarge → ⊥ }
        ensures last { result ≡ Err start.LastEpoch → last_epoch ≤ epoch }
        ensures judged { (at : ℕ) (verdict : Verdict) → result ≡ Err (start.Judged at verdict) → ⊥ }
    {
        let Restored {
            version,
            goes_on,
            ..
        } = left;
        if goes_on {
            return self.open_again(rt, epoch, version, len, access);
        }
        let Some(next) = after(epoch) else {
            return Err(StartFault::LastEpoch);
        };
        self.open_next(rt, next, version, access)
    }

    /// The epoch that begins with this version in a file of its own.
    fn open_next<R: Files<File = File> + AllocGlobal>(
        &self,
        rt: &R,
        epoch: u64,
        version: Version,
        access: Access,
    ) -> Result<Opened, StartFault>
        requires { version ≡ begun version.base }
        ensures version { IfOk result (λ o. o.begun.version ≡ version) }
        ensures epoch { IfOk result (λ o. o.begun.epoch ≡ epoch) }
        ensures unwritten { IfOk result (λ o. IfSome o.unwritten (IsUnwritten access)) }
        ensures memory { IfErr result (λ fault. fault ≡ start.Memory) }
    {
        match access {
            Access::ReadOnly => Ok(begun_without(version, epoch, None)),
            Access::ReadWrite { shows_kept } => {
                let made = self.make(rt, epoch, &version, shows_kept);
                begun_with(version, epoch, made)
            }
        }
    }

    /// The epoch that goes on with this version in its file, which has a first line of so many bytes.
    fn open_again<R: Files<File = File> + AllocGlobal>(
        &self,
        rt: &R,
        epoch: u64,
        version: Version,
        len: u64,
        access: Access,
    ) -> Result<Opened, StartFault>
        requires { version ≡ begun version.base }
        ensures version { IfOk result (λ o. o.begun.version ≡ version) }
        ensures epoch { IfOk result (λ o. o.begun.epoch ≡ epoch) }
        ensures unwritten { IfOk result (λ o. IfSome o.unwritten (IsUnwritten access)) }
        ensures memory { IfErr result (λ fault. fault ≡ start.Memory) }
    {
        match access {
            Access::ReadOnly => Ok(begun_without(version, epoch, None)),
            Access::ReadWrite { shows_kept } => {
                let resumed = self.resume(rt, epoch, len, shows_kept);
                begun_with(version, epoch, resumed)
            }
        }
    }

    /// The mark that is found.
    pub(crate) fn mark<R: Files<File = File>>(&self, rt: &R) -> Result<Option<Mark>, AllocError> {
        let path = self.path_of(MARK)?;
        Ok(found_mark(rt, path.as_str()))
    }

    /// Removes the mark, durably.
    pub(crate) fn remove_mark<R: Files<File = File>>(&self, rt: &R) -> Result<(), StartFault>
        ensures { IfErr result IsOfFiles }
    {
        let path = self.path_of(MARK)?;
        of_file(self.alloc, MARK, remove_left(rt, path.as_str()))?;
        self.sync()?;
        Ok(())
    }
}

/// The epoch that begins with this version and with what was made of its file: where that failed, with none, unless memory was
/// refused.
fn begun_with(
    version: Version,
    epoch: u64,
    made: Result<Journal<DiskFile>, StartFault>,
) -> Result<Opened, StartFault>
    requires begins { version ≡ begun version.base }
    requires journal { IfOk made (λ j. (j.place ≡ 0) × (j.synced ≡ 0) × (j.broken ≡ false)) }
    requires fault { IfErr made IsOfFiles }
    ensures version { IfOk result (λ o. o.begun.version ≡ version) }
    ensures epoch { IfOk result (λ o. o.begun.epoch ≡ epoch) }
    ensures written { (journal : Kept) → made ≡ Ok journal → IfOk result (λ o. o.unwritten ≡ None) }
    ensures unwritten { (fault : StartFault) → made ≡ Err fault
        → MatchResult result (λ o. o.unwritten ≡ Some fault) (λ _. fault ≡ start.Memory) }
    ensures of_files { IfOk result (λ o. IfSome o.unwritten IsOfFiles) }
    ensures memory { IfErr result (λ fault. fault ≡ start.Memory) }
{
    match made {
        Ok(journal) => Ok(Opened {
            begun: Begun {
                version,
                journal,
                epoch,
            },
            unwritten: None,
        }),
        Err(StartFault::Memory) => Err(StartFault::Memory),
        Err(fault) => Ok(begun_without(version, epoch, Some(fault))),
    }
}

/// The epoch that begins with this version, and with no file.
fn begun_without(version: Version, epoch: u64, fault: Option<StartFault>) -> Opened
    requires begins { version ≡ begun version.base }
    ensures version { result.begun.version ≡ version }
    ensures epoch { result.begun.epoch ≡ epoch }
    ensures fault { result.unwritten ≡ fault }
{
    Opened {
        begun: Begun {
            version,
            journal: Journal::resume(DiskFile::missing()),
            epoch,
        },
        unwritten: fault,
    }
}

/// Makes durable what is in a file, unless nothing is to be written.
fn sync_as(file: &File, access: Access) -> io::Result<()> {
    match access {
        Access::ReadWrite { .. } => file.sync_all(),
        Access::ReadOnly => Ok(()),
    }
}

/// The newest of these epochs.
fn newest(epochs: &[u64]) -> Option<u64>
    ensures { IsNewest epochs.now result }
{
    epochs.iter().copied().max()
}

/// Opens a file for reading, if it is a plain one: no other kind is waited for.
pub(crate) fn open_plain<R: Files<File = File>>(rt: &R, path: &str) -> io::Result<File> {
    if !fs::metadata(rt, path)?.is_file() {
        return Err(io::Error::new(ErrorKind::InvalidInput, "not a plain file"));
    }
    fs::open(rt, path)
}

/// How many bytes a file has.
pub(crate) fn length_of(file: &File) -> io::Result<u64> {
    Ok(file.metadata()?.len())
}

/// What is left of a file, of which so many bytes were synced.
pub(crate) fn restore_file(
    alloc: Global,
    file: &File,
    synced: u64,
    raise: Raise,
) -> Result<Restored, Unrestored>
    ensures restored { IfOk result (λ r. (text : List ℕ) × IsRestored text synced raise r) }
    ensures judged { (verdict : Verdict) (at : ℕ) → result ≡ Err (unrestored.Judged verdict at)
        → (text : List ℕ) × IsEndedBy synced verdict at text }
    ensures too_large { result ≡ Err unrestored.NumbersTooLarge → (text : List ℕ) × IsExhausted synced raise text }
{
    let mut reader = BufReader::new(alloc, file)?;
    restore(alloc, &mut reader, synced, raise)
}

/// Of epochs that rise, all up to this one but the newest `count`, at least one of them, from the newest on.
fn old_epochs(alloc: Global, epochs: &[u64], epoch: u64, count: u64) -> Result<Vec<u64>, AllocError>
    ensures { IfOk result (λ old. old.items ≡ drop (max count 1) (filter (λ found. nat_le found epoch) (reverse epochs.now))) }
{
    let kept = count.max(1) as usize;
    epochs
        .iter()
        .rev()
        .copied()
        .filter(|found| *found <= epoch)
        .skip(kept)
        .collect(alloc)
}

/// The number of the next epoch, if there is one.
fn after(epoch: u64) -> Option<u64>
    ensures { MatchOption result (last_epoch ≤ epoch) (λ next. next ≡ suc epoch) }
{
    if epoch >= LAST_EPOCH {
        return None;
    }
    Some(epoch + 1)
}

/// What is dropped of a file of this length, of which this is left.
fn dropped_of(len: u64, left: &Restored) -> Option<Dropped>
    ensures { IsDroppedOf len left.now result }
{
    if len <= left.taken {
        return None;
    }
    Some(Dropped {
        place: left.places,
        bytes: len - left.taken,
        torn: left.end == End::Torn,
    })
}

/// Why nothing begins from the file of this epoch.
pub(crate) fn of_epoch(epoch: u64, name: String, fault: Unrestored) -> StartFault
    ensures judged { (at : ℕ) (verdict : Verdict) → result ≡ start.Judged at verdict
        → (at ≡ epoch) × ((place : ℕ) × (fault ≡ unrestored.Judged verdict place)) }
    ensures too_large { result ≡ start.NumbersTooLarge → fault ≡ unrestored.NumbersTooLarge }
    ensures last { result ≡ start.LastEpoch → ⊥ }
{
    match fault {
        Unrestored::Memory => StartFault::Memory,
        Unrestored::Read(error) => StartFault::File { name, error },
        Unrestored::Judged { verdict, at: _ } => StartFault::Judged { epoch, verdict },
        Unrestored::NumbersTooLarge => StartFault::NumbersTooLarge,
    }
}
