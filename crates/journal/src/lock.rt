//! The lock of a folder, and the file in it that says which port its server listens on.

use crate::folder::FolderFault;
use std::alloc::Global;
use std::fs::{self, File, OpenOptions, TryLockError};
use std::io::{self, ErrorKind, Read, Write};
use std::rt::Files;
use std::str;

/// The name of the file that says the port.
const LOCK: &str = "lock";

/// The name under which it is written.
const NEW_LOCK: &str = "lock.new";

/// The most bytes of it that are read.
const MOST: usize = 16;

/// The folder, opened and locked.
pub(crate) fn lock_folder<R: Files<File = File> + AllocGlobal>(
    rt: &R,
    path: &str,
) -> Result<File, FolderFault> {
    if !fs::metadata(rt, path)?.is_dir() {
        return Err(FolderFault::Failed(io::Error::from(ErrorKind::NotADirectory)));
    }
    let folder = fs::open(rt, path)?;
    match folder.try_lock() {
        Ok(()) => Ok(folder),
        Err(TryLockError::WouldBlock) => Err(in_use(said_port(rt, path)?)),
        Err(TryLockError::Error(error)) => Err(FolderFault::Failed(error)),
    }
}

/// Another server has the folder, which said this port.
fn in_use(port: Option<u16>) -> FolderFault {
    match port {
        Some(port) => FolderFault::InUse { port },
        None => FolderFault::InUseBySome,
    }
}

/// The port that the file says. None where it is no plain file, or has anything but a number.
pub(crate) fn said_port<R: Files<File = File> + AllocGlobal>(
    rt: &R,
    folder: &str,
) -> Result<Option<u16>, FolderFault> {
    let path = format!(in rt.alloc(); "{folder}/{LOCK}")?;
    let Ok(about) = fs::symlink_metadata(rt, path.as_str()) else {
        return Ok(None);
    };
    if !about.is_file() || about.len() > MOST as u64 {
        return Ok(None);
    }
    let Ok(mut file) = fs::open(rt, path.as_str()) else {
        return Ok(None);
    };
    Ok(port_in(&mut file))
}

/// The port that a file says.
fn port_in(file: &mut File) -> Option<u16> {
    let mut bytes = [0u8; MOST];
    let Ok(len) = file.read(&mut bytes) else {
        return None;
    };
    let Ok(text) = str::from_utf8(&bytes[..len]) else {
        return None;
    };
    text.trim_end().parse().ok()
}

/// Makes the file say this port. A new one is written beside and renamed, so nothing that is there is opened or followed.
pub(crate) fn say_port<R: Files<File = File> + AllocGlobal>(
    rt: &R,
    folder: &str,
    port: u16,
) -> Result<(), FolderFault> {
    let alloc = rt.alloc();
    let path = format!(in alloc; "{folder}/{LOCK}")?;
    let beside = format!(in alloc; "{folder}/{NEW_LOCK}")?;
    match write_port(rt, alloc, beside.as_str(), port) {
        Ok(()) => {}
        Err(error) => return Err(of_file(NEW_LOCK, error)),
    }
    match fs::rename(rt, beside.as_str(), path.as_str()) {
        Ok(()) => Ok(()),
        Err(error) => Err(of_file(LOCK, error)),
    }
}

/// Writes the port to a new file, in place of one that was left.
fn write_port<R: Files<File = File>>(
    rt: &R,
    alloc: Global,
    path: &str,
    port: u16,
) -> io::Result<()> {
    remove_left(rt, path)?;
    let text = format!(in alloc; "{port}\n")?;
    let mut how = OpenOptions::new();
    how.write(true).create_new(true);
    how.open(rt, path)?.write_all(text.as_bytes())
}

/// Removes the file, if it is there.
pub(crate) fn unsay_port<R: Files<File = File> + AllocGlobal>(
    rt: &R,
    folder: &str,
) -> Result<(), FolderFault> {
    let path = format!(in rt.alloc(); "{folder}/{LOCK}")?;
    match remove_left(rt, path.as_str()) {
        Ok(()) => Ok(()),
        Err(error) => Err(of_file(LOCK, error)),
    }
}

/// A fault of the file of this name.
fn of_file(name: &'static str, error: io::Error) -> FolderFault {
    FolderFault::File { name, error }
}

/// Removes a file that may be there.
pub(crate) fn remove_left<R: Files<File = File>>(rt: &R, path: &str) -> io::Result<()> {
    match fs::remove_file(rt, path) {
        Err(error) if error.kind() != ErrorKind::NotFound => Err(error),
        _ => Ok(()),
    }
}
