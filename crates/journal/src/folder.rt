//! The folder of a journal, which one server has at a time.
use crate::boot::{BootId, read_boot_id};
use crate::lock::{lock_folder, said_port, say_port, unsay_port};
use crate::names::epoch_of;
use std::alloc::{AllocError, Global};
use std::fs::{self, DirBuilder, File};
use std::io::{self, ErrorKind};
use std::os::unix::fs::DirBuilderExt;
use std::rt::Files;
use thiserror::Error;

/// The rights of a folder that is made: its owner's alone.
const OWNERS: u32 = 0o700;

/// Why a folder isn't opened.
#[derive(Debug, Drop, Error)]
pub enum FolderFault {
    /// Another server has it, which listens on this port.
    #[error("another server has it, on port {port}")]
    InUse {
        /// The port that the lock says.
        port: u16,
    },
    /// Another server has it, or a repair, and the lock says no port.
    #[error("another server has it")]
    InUseBySome,
    /// An operation on the folder failed.
    #[error("{0}")]
    Failed(#[from] io::Error),
    /// An operation on a file in it failed.
    #[error("{name}: {error}")]
    File {
        /// The name of the file.
        name: &'static str,
        /// Why it failed.
        error: io::Error,
    },
    /// Memory was refused.
    #[error("out of memory")]
    Memory(#[from(alloc)] AllocError),
}

/// The folder of a journal. As long as this lives, no other server opens it.
///
/// What is locked is the folder itself, so no file that is changed or removed lets a second server in. The system gives the
/// lock back when the process ends, however that comes. The file `lock` in it only says the port, for people.
#[derive(Drop)]
pub struct Folder {
    pub(crate) alloc: Global,
    pub(crate) path: String,
    pub(crate) boot: BootId,
    held: File,
    left_by: Option<u16>,
    unsaid: Option<FolderFault>,
}

impl Folder {
    /// Opens the folder, which is made if there is none, for a server that listens on this port. That it can't say the port, as on a
    /// full disk, doesn't matter.
    ///
    /// # Errors
    ///
    /// Another server has it, memory was refused, or a file operation failed.
    pub fn open<R: Files<File = File> + AllocGlobal>(
        rt: &R,
        path: &str,
        port: u16,
    ) -> Result<Folder, FolderFault> {
        make_folders(rt, path)?;
        let folder = Folder::lock(rt, path)?;
        let unsaid = say_port(rt, path, port).err();
        Ok(Folder { unsaid, ..folder })
    }

    /// Locks a folder that is there, and says no port.
    ///
    /// # Errors
    ///
    /// It isn't there, another server has it, memory was refused, or a file operation failed.
    pub fn lock<R: Files<File = File> + AllocGlobal>(
        rt: &R,
        path: &str,
    ) -> Result<Folder, FolderFault> {
        let alloc = rt.alloc();
        let held = lock_folder(rt, path)?;
        let left_by = said_port(rt, path)?;
        let path = String::from_str(alloc, path)?;
        Ok(Folder {
            alloc,
            path,
            boot: read_boot_id(rt),
            held,
            left_by,
            unsaid: None,
        })
    }

    /// Gives the folder up at an orderly end: from then on it says no port.
    ///
    /// # Errors
    ///
    /// Memory was refused, or the file that says the port could not be removed. The lock is given back in any case.
    pub fn close<R: Files<File = File> + AllocGlobal>(self, rt: &R) -> Result<(), FolderFault> {
        unsay_port(rt, self.path.as_str())
    }

    /// The port of a server that had the folder and ended without giving it up.
    pub fn left_by(&self) -> Option<u16> {
        self.left_by
    }

    /// Why it can't say the port of its server.
    pub fn unsaid(&self) -> Option<&FolderFault> {
        self.unsaid.as_ref()
    }

    /// The path of a file in it.
    pub(crate) fn path_of(&self, name: &str) -> Result<String, AllocError> {
        let folder = self.path.as_str();
        format!(in self.alloc; "{folder}/{name}")
    }

    /// The numbers of the epochs that have a file, rising. A name that is no text is none of them.
    pub(crate) fn epochs<R: Files<File = File> + AllocGlobal + Clone + Drop>(
        &self,
        rt: &R,
    ) -> io::Result<Vec<u64>> {
        let mut epochs = Vec::new(self.alloc);
        for entry in fs::read_dir(rt, self.path.as_str())? {
            match entry {
                Ok(entry) => {
                    if let Some(epoch) = epoch_of(entry.file_name()) {
                        epochs.push(epoch)?;
                    }
                }
                Err(error) if error.kind() == ErrorKind::InvalidFilename => {}
                Err(error) => return Err(error),
            }
        }
        epochs.sort_unstable();
        Ok(epochs)
    }

    /// Makes durable which files are in it.
    pub(crate) fn sync(&self) -> io::Result<()> {
        self.held.sync_all()
    }
}

/// Makes the folder, and each one above it, where there is none, and makes durable that it is in the one above.
fn make_folders<R: Files<File = File> + AllocGlobal>(
    rt: &R,
    path: &str,
) -> Result<(), FolderFault> {
    for end in 1..path.len() {
        if let Some((above, rest)) = path.split_at_checked(end)
            && rest.starts_with('/')
            && !above.ends_with('/')
        {
            make_folder(rt, above)?;
        }
    }
    make_folder(rt, path)
}

/// Makes one folder, where there is none. That of one that was there is durable is tried too, since what made it may have been
/// killed before it was.
fn make_folder<R: Files<File = File> + AllocGlobal>(rt: &R, path: &str) -> Result<(), FolderFault> {
    let above = format!(in rt.alloc(); "{path}/..")?;
    if fs::exists(rt, path)? {
        let _synced = sync_folder(rt, above.as_str());
        return Ok(());
    }
    let mut how = DirBuilder::new();
    how.mode(OWNERS);
    match how.create(rt, path) {
        Err(error) if error.kind() != ErrorKind::AlreadyExists => Err(FolderFault::Failed(error)),
        _ => Ok(sync_folder(rt, above.as_str())?),
    }
}

/// Makes durable which files are in a folder.
fn sync_folder<R: Files<File = File>>(rt: &R, path: &str) -> io::Result<()> {
    fs::open(rt, path)?.sync_all()
}
