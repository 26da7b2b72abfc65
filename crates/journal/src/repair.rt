//! What makes a folder start again whose newest file is damaged: the damaged end of it is moved to a file beside.
ghost use Rattle.std.specs.Prelude.{◌≡◌};
ghost use Rattle.journal.specs.Repairing.{refused_place};

use crate::epochs::{length_of, of_epoch, open_plain, restore_file};
use crate::folder::Folder;
use crate::lock::remove_left;
use crate::mark::{mark_for, synced_by};
use crate::names::epoch_name;
use crate::restored::{Raise, Unrestored};
use crate::start_fault::{StartFault, of_file};
use replay_cli::Verdict;
use std::alloc::AllocError;
use std::fs::{self, File, OpenOptions};
use std::io::{self, ErrorKind, Read, Seek, SeekFrom, Write};
use std::rt::Files;

/// How many bytes are copied at a time.
const PIECE: usize = 16 * 1024;

/// What was cut from the file of an epoch, and is in one beside it that ends in `.cut` in place of `.dump`.
#[derive(Clone, Copy, Debug, PartialEq, Eq)]
pub struct Cut {
    /// The number of the epoch.
    pub epoch: u64,
    /// The place of the first entry that was cut, or 0 where the whole file was.
    pub place: u64,
    /// How many bytes were cut.
    pub bytes: u64,
}

/// What a repair did, and where the history then ends.
#[derive(Debug, Drop)]
pub struct Repaired {
    /// What was cut, from the newest file on; nothing where a server would have started.
    pub cuts: Vec<Cut>,
    /// The epoch from which a server goes on; none where no file is left.
    pub epoch: Option<u64>,
    /// The last place of its history.
    pub places: u64,
}

impl Folder {
    /// Makes a server start from this folder. Where a start would refuse the newest file, the lines from the refused one on are moved
    /// to a file of their own, and where that is the first one, the whole file is, and the file before is looked at. The mark is
    /// removed then, so the next start raises the numbers.
    ///
    /// # Errors
    ///
    /// A history ends with too large numbers; memory was refused, or a file operation failed, as where what would be cut has been cut
    /// before into a file that is there.
    pub fn repair<R: Files<File = File> + AllocGlobal + Clone + Drop>(
        &self,
        rt: &R,
    ) -> Result<Repaired, StartFault> {
        let epochs = self.epochs(rt)?;
        let mut cuts = Vec::new(self.alloc);
        for epoch in epochs.iter().rev() {
            if let Some(places) = self.repair_file(rt, *epoch, &mut cuts)? {
                return Ok(Repaired {
                    cuts,
                    epoch: Some(*epoch),
                    places,
                });
            }
        }
        Ok(Repaired {
            cuts,
            epoch: None,
            places: 0,
        })
    }

    /// Cuts what is damaged from the file of an epoch, and answers the last place that is left of it, if a line is.
    fn repair_file<R: Files<File = File> + AllocGlobal>(
        &self,
        rt: &R,
        epoch: u64,
        cuts: &mut Vec<Cut>,
    ) -> Result<Option<u64>, StartFault> {
        let name = epoch_name(self.alloc, epoch)?;
        let path = self.path_of(name.as_str())?;
        let mut file = of_file(self.alloc, name.as_str(), open_plain(rt, path.as_str()))?;
        let len = of_file(self.alloc, name.as_str(), length_of(&file))?;
        let mark = mark_for(self.mark(rt)?, epoch);
        match restore_file(self.alloc, &file, synced_by(mark), Raise::Never) {
            Ok(left) => Ok(Some(left.places)),
            Err(Unrestored::Judged { verdict, at }) => {
                let cut = Cut {
                    epoch,
                    place: refused_place(verdict),
                    bytes: len.saturating_sub(at),
                };
                let Ok(()) = cuts.push(cut) else {
                    return Err(StartFault::Memory);
                };
                if cut.place == 0 {
                    self.move_away(rt, epoch, path.as_str())?;
                    self.remove_mark(rt)?;
                    return Ok(None);
                }
                self.cut_off(rt, epoch, path.as_str(), &mut file, at)?;
                self.remove_mark(rt)?;
                Ok(Some(cut.place - 1))
            }
            Err(fault) => Err(of_epoch(epoch, name, fault)),
        }
    }

    /// Gives the whole file of an epoch the name of what is cut.
    fn move_away<R: Files<File = File> + AllocGlobal>(
        &self,
        rt: &R,
        epoch: u64,
        path: &str,
    ) -> Result<(), StartFault> {
        let name = cut_name(self, epoch)?;
        let cut = self.path_of(name.as_str())?;
        of_file(self.alloc, name.as_str(), refuse_there(rt, cut.as_str()))?;
        of_file(
            self.alloc,
            name.as_str(),
            fs::rename(rt, path, cut.as_str()),
        )?;
        self.sync()?;
        Ok(())
    }

    /// Copies the file of an epoch from this byte on to a file of its own, and then cuts it there. Both are synced.
    fn cut_off<R: Files<File = File> + AllocGlobal>(
        &self,
        rt: &R,
        epoch: u64,
        path: &str,
        file: &mut File,
        at: u64,
    ) -> Result<(), StartFault> {
        let name = cut_name(self, epoch)?;
        let cut = self.path_of(name.as_str())?;
        let beside = format!(in self.alloc; "{cut}.new")?;
        of_file(self.alloc, name.as_str(), refuse_there(rt, cut.as_str()))?;
        of_file(
            self.alloc,
            name.as_str(),
            copy_from(rt, file, at, beside.as_str()),
        )?;
        of_file(
            self.alloc,
            name.as_str(),
            fs::rename(rt, beside.as_str(), cut.as_str()),
        )?;
        self.sync()?;
        let name = epoch_name(self.alloc, epoch)?;
        of_file(self.alloc, name.as_str(), cut_at(rt, path, at))
    }
}

/// The name of what is cut from the file of an epoch.
fn cut_name(folder: &Folder, epoch: u64) -> Result<String, AllocError> {
    format!(in folder.alloc; "{epoch:010}.cut")
}

/// Fails where something has this path.
fn refuse_there<R: Files<File = File>>(rt: &R, path: &str) -> io::Result<()> {
    match fs::symlink_metadata(rt, path) {
        Ok(_) => Err(io::Error::from(ErrorKind::AlreadyExists)),
        Err(error) if error.kind() == ErrorKind::NotFound => Ok(()),
        Err(error) => Err(error),
    }
}

/// Copies a file from this byte on to a new one, which is synced.
fn copy_from<R: Files<File = File>>(
    rt: &R,
    file: &mut File,
    at: u64,
    path: &str,
) -> io::Result<()> {
    remove_left(rt, path)?;
    file.seek(SeekFrom::Start(at))?;
    let mut how = OpenOptions::new();
    how.write(true).create_new(true);
    let mut copy = how.open(rt, path)?;
    let mut piece = [0u8; PIECE];
    for _ in 0..u64::MAX {
        let len = file.read(&mut piece)?;
        if len == 0 {
            break;
        }
        copy.write_all(&piece[..len])?;
    }
    copy.sync_all()
}

/// Cuts a file at this byte, durably.
fn cut_at<R: Files<File = File>>(rt: &R, path: &str, at: u64) -> io::Result<()> {
    let mut how = OpenOptions::new();
    how.write(true);
    let file = how.open(rt, path)?;
    file.set_len(at)?;
    file.sync_all()
}

/// The place of the entry whose line is refused, or 0 for the first line.
fn refused_place(verdict: Verdict) -> u64
    ensures { result ≡ refused_place verdict }
{
    match verdict {
        Verdict::Legal(_) => 0,
        Verdict::WrongAt(place) => place,
        Verdict::UnreadableLine(number) => number.saturating_sub(1),
    }
}
