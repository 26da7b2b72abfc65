//! A file of the system as what a journal is appended to.
ghost use Rattle.std.specs.Prelude.{◌≡◌, None, IfOk, true, option_copied};
ghost use Rattle.std.specs.Fs.{asks_append};
ghost use Rattle.streams.specs.Counts.{CountRose};

use crate::appended::Appended;
use crate::mark_file::MarkFile;
use std::fs::{File, OpenOptions};
use std::io::{self, ErrorKind, Write};
use std::os::unix::fs::MetadataExt;
use std::rt::Files;
use streams::Failed;

/// A file of the system that was opened for appending, with how many bytes it has and how many of them are synced. Where it could
/// not be made, each append and each sync fails.
///
/// What a disk keeps of it is known to no contract: that a write reaches the end of the file, and that a sync makes durable all
/// that is in it, is trusted of the system.
#[derive(Drop)]
pub struct DiskFile {
    file: Option<File>,
    written: u64,
    synced: u64,
    mark: Option<MarkFile>,
    failures: u64,
    error: Option<io::Error>,
}

impl DiskFile {
    /// A new file, which is empty, opened for appending.
    ///
    /// # Errors
    ///
    /// A file has this name, or the operation failed.
    pub(crate) fn create<R: Files<File = File>>(rt: &R, path: &str) -> io::Result<DiskFile>
        ensures written { IfOk result (λ f. f.written ≡ 0) }
        ensures synced { IfOk result (λ f. f.synced ≡ 0) }
        ensures failures { IfOk result (λ f. f.failures ≡ 0) }
    {
        let mut how = OpenOptions::new();
        how.append(true).create_new(true);
        DiskFile::opened(rt, &how, path, 0)
    }

    /// A file that could not be made.
    pub(crate) fn missing() -> DiskFile
        ensures written { result.written ≡ 0 }
        ensures synced { result.synced ≡ 0 }
        ensures failures { result.failures ≡ 0 }
    {
        DiskFile {
            file: None,
            written: 0,
            synced: 0,
            mark: None,
            failures: 0,
            error: None,
        }
    }

    /// A file that has so many bytes, all of them synced, opened for appending.
    ///
    /// # Errors
    ///
    /// The operation failed.
    pub(crate) fn go_on<R: Files<File = File>>(rt: &R, path: &str, len: u64) -> io::Result<DiskFile>
        ensures written { IfOk result (λ f. f.written ≡ len) }
        ensures synced { IfOk result (λ f. f.synced ≡ len) }
        ensures failures { IfOk result (λ f. f.failures ≡ 0) }
    {
        let mut how = OpenOptions::new();
        how.append(true);
        DiskFile::opened(rt, &how, path, len)
    }

    /// A file opened so, for appending, that has so many bytes, all of them synced.
    fn opened<R: Files<File = File>>(
        rt: &R,
        how: &OpenOptions,
        path: &str,
        len: u64,
    ) -> io::Result<DiskFile>
        requires appends { asks_append how.now ≡ true }
        ensures written { IfOk result (λ f. f.written ≡ len) }
        ensures synced { IfOk result (λ f. f.synced ≡ len) }
        ensures failures { IfOk result (λ f. f.failures ≡ 0) }
    {
        let file = how.open(rt, path)?;
        Ok(DiskFile {
            file: Some(file),
            written: len,
            synced: len,
            mark: None,
            failures: 0,
            error: None,
        })
    }

    /// The same file, whose mark is said from now on.
    pub(crate) fn marked(self, mark: Option<MarkFile>) -> DiskFile
        ensures written { result.written ≡ self.written }
        ensures synced { result.synced ≡ self.synced }
        ensures failures { result.failures ≡ self.failures }
    {
        if let Some(mark) = &mark {
            mark.say(self.synced);
        }
        DiskFile { mark, ..self }
    }

    /// Why the last write or sync that failed did.
    pub fn error(&self) -> Option<&io::Error>
        ensures { option_copied result ≡ self.now.error }
    {
        self.error.as_ref()
    }

    /// The same, of a file that is given up.
    pub(crate) fn into_error(self) -> Option<io::Error>
        ensures { result ≡ self.error }
    {
        self.error
    }
}

/// Counts a failure, and keeps its reason. The mark says nothing any more.
fn fail(file: &mut DiskFile, error: io::Error) -> Failed
    ensures failures { CountRose file.old.failures file.new.failures }
    ensures written { file.new.written ≡ file.old.written }
    ensures synced { file.new.synced ≡ file.old.synced }
{
    file.failures = file.failures.saturating_add(1);
    file.error = Some(error);
    if let Some(mark) = &file.mark {
        mark.unsay();
    }
    Failed
}

/// Why nothing is written where there is no file.
fn no_file() -> io::Error {
    io::Error::from(ErrorKind::NotFound)
}

/// Writes all the bytes to a file, where there is one.
fn write_to(file: &mut Option<File>, bytes: &[u8]) -> io::Result<()> {
    match file {
        Some(file) => file.write_all(bytes),
        None => Err(no_file()),
    }
}

/// Syncs a file, where there is one. Of one that no folder has any more, nothing is durable.
fn sync_named(file: &Option<File>) -> io::Result<()> {
    let Some(file) = file else {
        return Err(no_file());
    };
    file.sync_data()?;
    match file.metadata() {
        Ok(about) if about.nlink() == 0 => Err(io::Error::from(ErrorKind::NotFound)),
        _ => Ok(()),
    }
}

impl Appended for DiskFile {
    ghost use Rattle.std.specs.Prelude.{None, ⊤};

    ghost taken = { λ f. None };

    ghost covered = { λ f. None };

    ghost size = { λ f. f.written };

    ghost synced_size = { λ f. f.synced };

    ghost failed = { λ f. f.failures };

    ghost told = { λ _. ⊤ };

    ghost said = { λ _. ⊤ };

    fn append(&mut self, bytes: &[u8]) -> Result<(), Failed> {
        if bytes.is_empty() {
            return Ok(());
        }
        let Some(written) = self.written.checked_add(bytes.len() as u64) else {
            return Err(fail(self, io::Error::from(ErrorKind::FileTooLarge)));
        };
        match write_to(&mut self.file, bytes) {
            Ok(()) => {
                self.written = written;
                Ok(())
            }
            Err(error) => Err(fail(self, error)),
        }
    }

    /// Where all of it is synced already, nothing is done.
    fn sync(&mut self) -> Result<(), Failed> {
        if self.file.is_some() && self.synced == self.written {
            return Ok(());
        }
        match sync_named(&self.file) {
            Ok(()) => {
                self.synced = self.written;
                if let Some(mark) = &self.mark {
                    mark.say(self.synced);
                }
                Ok(())
            }
            Err(error) => Err(fail(self, error)),
        }
    }

    ghost counted = { λ f. tt };

    ghost counted_synced = { λ f. tt };
}
