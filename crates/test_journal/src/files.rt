//! The files of a folder.

use crate::appends::versions_of;
use crate::restores::bytes_of;
use history_dump::first_line;
use journal::{Access, Begun, Folder, Started};
use std::alloc::Global;
use std::test::Fail;

/// What a start does that may write.
const WRITES: Access = Access::ReadWrite { shows_kept: false };

/// What a server that listens on this port would start with.
pub(crate) fn started(rt: &HostRuntime, folder: &str, port: &str) -> Result<String, Fail> {
    let alloc = rt.alloc();
    let folder = match Folder::open(rt, folder, port.parse()?) {
        Ok(folder) => folder,
        Err(fault) => return Ok(format!(in alloc; "{fault}")?),
    };
    match folder.start(rt, WRITES) {
        Ok(started) => started_told(alloc, &folder, &started),
        Err(fault) => Ok(format!(in alloc; "{fault}")?),
    }
}

/// Which epoch begins, from what, and what was read.
fn started_told(alloc: Global, folder: &Folder, started: &Started) -> Result<String, Fail> {
    let epoch = started.begun.epoch;
    let places = started.places;
    let (place, bytes, torn) = match started.dropped {
        Some(dropped) => (dropped.place, dropped.bytes, dropped.torn),
        None => (0, 0, false),
    };
    let raised = started.raised;
    let missing = started.missing;
    let left_by = folder.left_by().unwrap_or(0);
    let line = first_line(alloc, &started.begun.version)?;
    let line = line.as_str().trim_end();
    Ok(format!(in alloc;
        "{epoch} {places} {place} {bytes} {torn} {missing} {raised} {left_by} {line}"
    )?)
}

/// Starts, writes the entries of a dump whose text is here as hex digits, syncs, and begins the next epoch.
pub(crate) fn written(rt: &HostRuntime, folder: &str, dump: &str) -> Result<String, Fail> {
    let alloc = rt.alloc();
    let versions = versions_of(alloc, bytes_of(alloc, dump)?.as_slice())?;
    let Ok(folder) = Folder::open(rt, folder, 5984) else {
        return Err("the folder is not opened".into());
    };
    let Ok(started) = folder.start(rt, WRITES) else {
        return Err("nothing starts".into());
    };
    let Started { begun, .. } = started;
    let Begun {
        version: _,
        mut journal,
        epoch,
    } = begun;
    let Some(last) = versions.last() else {
        return Err("no dump".into());
    };
    if last.place() < journal.place() {
        return Err("an earlier place".into());
    }
    let Ok(()) = journal.append(alloc, last) else {
        return Err("nothing is appended".into());
    };
    let Ok(place) = journal.sync() else {
        return Err("nothing is synced".into());
    };
    let Ok(next) = folder.succeed(rt, epoch, last, false) else {
        return Err("no epoch begins".into());
    };
    let next = next.epoch;
    Ok(format!(in alloc; "{place} {next}")?)
}

/// Removes all but the newest files.
pub(crate) fn kept(
    rt: &HostRuntime,
    folder: &str,
    epoch: &str,
    count: &str,
) -> Result<String, Fail> {
    let alloc = rt.alloc();
    let Ok(folder) = Folder::open(rt, folder, 5984) else {
        return Err("the folder is not opened".into());
    };
    let removed = folder.remove_old(rt, epoch.parse()?, count.parse()?)?;
    Ok(format!(in alloc; "{removed}")?)
}
