//! The file of a folder that has the mark.

use crate::boot::BootId;
use crate::mark::{MARK, Mark, mark_text, read_mark};
use std::alloc::Global;
use std::fs::{self, File, OpenOptions};
use std::io::Read;
use std::os::unix::fs::FileExt;
use std::rt::Files;

/// The file that says how far that of an epoch was synced. It is never synced but where it is emptied, and what fails on it is no
/// failure: any bytes in it are harmless.
#[derive(Drop)]
pub(crate) struct MarkFile {
    alloc: Global,
    file: File,
    epoch: u64,
    shows_kept: bool,
    boot: BootId,
}

impl MarkFile {
    /// A new file, with no mark yet.
    pub(crate) fn create<R: Files<File = File>>(
        rt: &R,
        alloc: Global,
        path: &str,
        epoch: u64,
        shows_kept: bool,
        boot: BootId,
    ) -> Option<MarkFile> {
        let mut how = OpenOptions::new();
        how.write(true).create_new(true);
        let Ok(file) = how.open(rt, path) else {
            return None;
        };
        Some(MarkFile {
            alloc,
            file,
            epoch,
            shows_kept,
            boot,
        })
    }

    /// Says that so many bytes are synced.
    pub(crate) fn say(&self, synced: u64) {
        let mark = Mark {
            epoch: self.epoch,
            synced,
            shows_kept: self.shows_kept,
            boot: self.boot,
        };
        if let Ok(text) = mark_text(self.alloc, &mark) {
            let _written = self.file.write_all_at(text.as_slice(), 0);
        }
    }

    /// Says nothing any more, also after an end of the system.
    pub(crate) fn unsay(&self) {
        let _emptied = self.file.set_len(0);
        let _synced = self.file.sync_data();
    }
}

/// The mark in a file. None where it is no plain file, or has anything else.
pub(crate) fn found_mark<R: Files<File = File>>(rt: &R, path: &str) -> Option<Mark> {
    let Ok(about) = fs::symlink_metadata(rt, path) else {
        return None;
    };
    if !about.is_file() || about.len() != MARK as u64 {
        return None;
    }
    let Ok(mut file) = fs::open(rt, path) else {
        return None;
    };
    let mut text = [0u8; MARK];
    let Ok(()) = file.read_exact(&mut text) else {
        return None;
    };
    read_mark(&text)
}
