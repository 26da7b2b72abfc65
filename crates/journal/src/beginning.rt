//! The files of epochs that begin, that are gone on with, or that are written anew.
ghost use Rattle.std.specs.Prelude.{◌≡◌, Ok, false, IfErr, IfOk};
ghost use Rattle.journal.specs.Held.{HoldsDump, begun, begun as begun_from};
ghost use Rattle.journal.specs.Starting.{IsOfFiles};

use crate::disk_file::DiskFile;
use crate::epochs::{MARK, open_plain};
use crate::fault::JournalFault;
use crate::folder::Folder;
use crate::journal::{Journal, begin_with};
use crate::lock::remove_left;
use crate::mark_file::MarkFile;
use crate::names::epoch_name;
use crate::start_fault::{StartFault, of_file};
use crate::started::Begun;
use snapshots::Version;
use std::alloc::{AllocError, Global};
use std::fs::{self, File};
use std::io::{self, BufRead, BufReader, ErrorKind};
use std::rt::Files;

/// The names and the paths of an epoch's file, and of one that is written beside it.
#[derive(Drop)]
struct Names {
    name: String,
    path: String,
    new_name: String,
    new_path: String,
}

impl Folder {
    /// The journal of an epoch that goes on in its file, which has a first line of so many bytes, synced. That the file has its name,
    /// and that no earlier mark of this epoch is left, is made durable first.
    pub(crate) fn resume<R: Files<File = File> + AllocGlobal>(
        &self,
        rt: &R,
        epoch: u64,
        len: u64,
        shows_kept: bool,
    ) -> Result<Journal<DiskFile>, StartFault>
        ensures journal { IfOk result (λ j. (j.place ≡ 0) × (j.synced ≡ 0) × (j.broken ≡ false)) }
        ensures fault { IfErr result IsOfFiles }
    {
        let mark = self.path_of(MARK)?;
        of_file(self.alloc, MARK, remove_left(rt, mark.as_str()))?;
        self.sync()?;
        let name = epoch_name(self.alloc, epoch)?;
        let path = self.path_of(name.as_str())?;
        let file = of_file(
            self.alloc,
            name.as_str(),
            DiskFile::go_on(rt, path.as_str(), len),
        )?;
        let mark = self.new_mark(rt, epoch, shows_kept);
        Ok(Journal::resume(file.marked(mark)))
    }

    /// Makes the file of an epoch that begins with this version: written beside, synced, and then named.
    pub(crate) fn begin<R: Files<File = File> + AllocGlobal>(
        &self,
        rt: &R,
        epoch: u64,
        version: Version,
        shows_kept: bool,
    ) -> Result<Begun, StartFault>
        requires { version ≡ begun version.base }
        ensures version { IfOk result (λ b. b.version ≡ version) }
        ensures epoch { IfOk result (λ b. b.epoch ≡ epoch) }
        ensures fault { IfErr result IsOfFiles }
    {
        let journal = self.make(rt, epoch, &version, shows_kept)?;
        Ok(Begun {
            version,
            journal,
            epoch,
        })
    }

    /// The journal of an epoch that begins with this version, whose file is made: written beside, synced, and then named.
    pub(crate) fn make<R: Files<File = File>>(
        &self,
        rt: &R,
        epoch: u64,
        version: &Version,
        shows_kept: bool,
    ) -> Result<Journal<DiskFile>, StartFault>
        ensures journal { IfOk result (λ j. (j.place ≡ 0) × (j.synced ≡ 0) × (j.broken ≡ false)) }
        ensures fault { IfErr result IsOfFiles }
    {
        let names = self.names_of(epoch)?;
        let written = self.first_line(rt, &names, version);
        let journal = self.named(rt, &names, written)?;
        let file = journal
            .into_file()
            .marked(self.new_mark(rt, epoch, shows_kept));
        Ok(Journal::resume(file))
    }

    /// Writes the file of an epoch anew: its first line, as the file that is there has it, if there is one, and the lines of all
    /// entries of this version. It is written beside, synced, and then named.
    ///
    /// # Errors
    ///
    /// Memory was refused, or a file operation failed.
    pub fn rewrite<R: Files<File = File> + AllocGlobal>(
        &self,
        rt: &R,
        epoch: u64,
        version: &Version,
        shows_kept: bool,
    ) -> Result<Journal<DiskFile>, StartFault>
        ensures held { IfOk result (λ j. HoldsDump j version.now) }
        ensures synced { IfOk result (λ j. j.synced ≡ j.place) }
        ensures fault { IfErr result IsOfFiles }
    {
        let names = self.names_of(epoch)?;
        let written = self.all_lines(rt, &names, version);
        let journal = self.named(rt, &names, written)?;
        Ok(journal.marked(self.new_mark(rt, epoch, shows_kept)))
    }

    /// The names of an epoch's file, and of the one that is written beside it.
    fn names_of(&self, epoch: u64) -> Result<Names, AllocError> {
        let name = epoch_name(self.alloc, epoch)?;
        let path = self.path_of(name.as_str())?;
        let new_name = format!(in self.alloc; "{name}.new")?;
        let new_path = self.path_of(new_name.as_str())?;
        Ok(Names {
            name,
            path,
            new_name,
            new_path,
        })
    }

    /// A new file beside, in place of one that was left.
    fn beside<R: Files<File = File>>(&self, rt: &R, names: &Names) -> Result<DiskFile, StartFault>
        ensures fault { IfErr result IsOfFiles }
    {
        let name = names.new_name.as_str();
        let path = names.new_path.as_str();
        of_file(self.alloc, name, remove_left(rt, path))?;
        of_file(self.alloc, name, DiskFile::create(rt, path))
    }

    /// A journal in a new file beside, with the first line of an epoch that begins with this version, synced.
    fn first_line<R: Files<File = File>>(
        &self,
        rt: &R,
        names: &Names,
        version: &Version,
    ) -> Result<Journal<DiskFile>, StartFault>
        ensures held { IfOk result (λ j. j.broken ≡ false → HoldsDump j (begun version.now.base)) }
        ensures fault { IfErr result IsOfFiles }
    {
        let file = self.beside(rt, names)?;
        let journal = Journal::begin(self.alloc, file, version)?;
        Ok(journal)
    }

    /// A journal in a new file beside, with the first line of the epoch, and the lines of all entries of this version, synced. It is
    /// broken where a write or the sync failed.
    fn all_lines<R: Files<File = File>>(
        &self,
        rt: &R,
        names: &Names,
        version: &Version,
    ) -> Result<Journal<DiskFile>, StartFault>
        ensures held { IfOk result (λ j. j.broken ≡ false → HoldsDump j version.now × (j.synced ≡ j.place)) }
        ensures fault { IfErr result IsOfFiles }
    {
        if !fs::exists(rt, names.path.as_str())? {
            let journal = self.first_line(rt, names, version)?;
            return with_all(self.alloc, journal, version);
        }
        let line = of_file(
            self.alloc,
            names.name.as_str(),
            read_first_line(rt, self.alloc, names.path.as_str()),
        )?;
        let file = self.beside(rt, names)?;
        let journal = begin_with(file, line.as_slice());
        with_all(self.alloc, journal, version)
    }

    /// Gives the file that was written beside its name, durably. One that could not be written whole, or named, is removed.
    fn named<R: Files<File = File>>(
        &self,
        rt: &R,
        names: &Names,
        written: Result<Journal<DiskFile>, StartFault>,
    ) -> Result<Journal<DiskFile>, StartFault>
        requires fault { IfErr written IsOfFiles }
        ensures same { IfOk result (λ j. (written ≡ Ok j) × (j.broken ≡ false)) }
        ensures fault { IfErr result IsOfFiles }
    {
        match self.name_whole(rt, names, written) {
            Ok(journal) => {
                self.sync()?;
                Ok(journal)
            }
            Err(fault) => {
                let _removed = remove_left(rt, names.new_path.as_str());
                Err(fault)
            }
        }
    }

    /// Renames the file that was written beside, where all of it is.
    fn name_whole<R: Files<File = File>>(
        &self,
        rt: &R,
        names: &Names,
        written: Result<Journal<DiskFile>, StartFault>,
    ) -> Result<Journal<DiskFile>, StartFault>
        requires fault { IfErr written IsOfFiles }
        ensures same { IfOk result (λ j. (written ≡ Ok j) × (j.broken ≡ false)) }
        ensures fault { IfErr result IsOfFiles }
    {
        let journal = written?;
        if journal.is_broken() {
            return Err(unwritten(self.alloc, names.new_name.as_str(), journal));
        }
        let renamed = fs::rename(rt, names.new_path.as_str(), names.path.as_str());
        of_file(self.alloc, names.name.as_str(), renamed)?;
        Ok(journal)
    }

    /// A new file for the mark of this epoch, in place of the one that is there. Where it can't be made, there is none.
    fn new_mark<R: Files<File = File>>(
        &self,
        rt: &R,
        epoch: u64,
        shows_kept: bool,
    ) -> Option<MarkFile> {
        let Ok(path) = self.path_of(MARK) else {
            return None;
        };
        let _removed = remove_left(rt, path.as_str());
        MarkFile::create(rt, self.alloc, path.as_str(), epoch, shows_kept, self.boot)
    }
}

/// A journal of an epoch that begins, to which the lines of all entries of a version are appended, synced. It is broken where a
/// write or the sync failed, or it was.
fn with_all(
    alloc: Global,
    begun: Journal<DiskFile>,
    version: &Version,
) -> Result<Journal<DiskFile>, StartFault>
    requires held { begun.broken ≡ false → HoldsDump begun (begun_from version.now.base) }
    ensures held { IfOk result (λ j. j.broken ≡ false → HoldsDump j version.now × (j.synced ≡ j.place)) }
    ensures fault { IfErr result IsOfFiles }
{
    let mut journal = begun;
    if journal.is_broken() {
        return Ok(journal);
    }
    match journal.append(alloc, version) {
        Ok(()) => {}
        Err(JournalFault::Memory) => return Err(StartFault::Memory),
        Err(JournalFault::Failed) => return Ok(journal),
    }
    let _synced = journal.sync();
    Ok(journal)
}

/// The first line of a file, with its line feed.
fn read_first_line<R: Files<File = File>>(
    rt: &R,
    alloc: Global,
    path: &str,
) -> io::Result<Vec<u8>> {
    let file = open_plain(rt, path)?;
    let mut reader = BufReader::new(alloc, &file)?;
    let mut line = Vec::new(alloc);
    reader.read_until(b'\n', &mut line)?;
    if line.last() != Some(&b'\n') {
        return Err(io::Error::from(ErrorKind::UnexpectedEof));
    }
    Ok(line)
}

/// Why a journal's file, which has this name, could not be written.
fn unwritten(alloc: Global, name: &str, journal: Journal<DiskFile>) -> StartFault
    ensures { IsOfFiles result }
{
    let Some(error) = journal.into_file().into_error() else {
        return StartFault::Unwritten;
    };
    match String::from_str(alloc, name) {
        Ok(name) => StartFault::File { name, error },
        Err(_) => StartFault::Memory,
    }
}
