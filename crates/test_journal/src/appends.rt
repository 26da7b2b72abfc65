//! What a journal does to a file that fails where it is told to.

use crate::restores::bytes_of;
use history_dump::read_first_line;
use history_json::read_line;
use journal::scripted::{ScriptedFile, Step};
use journal::{Journal, JournalFault};
use snapshots::Version;
use std::alloc::Global;
use std::test::Fail;

/// What the calls come to, over the history of a dump whose text is here as hex digits. A call is `aN`, which appends up to
/// place N, or `s`, which syncs; a step of the file is `g`, or `fN`, which fails after N bytes.
pub(crate) fn appended(
    alloc: Global,
    dump: &str,
    calls: &str,
    script: &str,
) -> Result<String, Fail> {
    let versions = versions_of(alloc, bytes_of(alloc, dump)?.as_slice())?;
    let steps = steps_of(alloc, script)?;
    let file = ScriptedFile::new(alloc, steps.as_slice());
    let mut text = String::new(alloc);
    let Some(first) = versions.first() else {
        return Err("no dump".into());
    };
    let mut journal = Journal::begin(alloc, file, first)?;
    call_all(&mut text, alloc, &mut journal, &versions, calls)?;
    put_end(&mut text, alloc, &journal)?;
    Ok(text)
}

/// The version at each place of the history of a dump, from 0 on.
pub(crate) fn versions_of(alloc: Global, dump: &[u8]) -> Result<Vec<Version>, Fail> {
    let mut versions: Vec<Version> = Vec::new(alloc);
    for line in dump.split_inclusive(|byte| *byte == b'\n') {
        let next = match versions.last() {
            None => read_first_line(alloc, line)?,
            Some(version) => after(alloc, version, line)?,
        };
        let Some(next) = next else {
            return Err("no dump".into());
        };
        versions.push(next)?;
    }
    Ok(versions)
}

/// The version after the entry of a line.
fn after(alloc: Global, version: &Version, line: &[u8]) -> Result<Option<Version>, Fail> {
    let Some(text) = line.strip_suffix(b"\n") else {
        return Ok(None);
    };
    let Some(entry) = read_line(alloc, text)? else {
        return Ok(None);
    };
    if entry.seat.call() != version.next_call(entry.seat.session()) || version.place() >= 1000 {
        return Ok(None);
    }
    Ok(Some(version.act(entry.seat, &entry.command)?))
}

/// The steps of a script.
fn steps_of(alloc: Global, script: &str) -> Result<Vec<Step>, Fail> {
    let mut steps = Vec::new(alloc);
    for word in script.split(' ') {
        match word.strip_prefix('f') {
            Some(count) => steps.push(Step::FailAfter(count.parse()?))?,
            None => steps.push(Step::Good)?,
        }
    }
    Ok(steps)
}

/// Makes all calls, and writes what each answers.
fn call_all(
    text: &mut String,
    alloc: Global,
    journal: &mut Journal<ScriptedFile<'_>>,
    versions: &[Version],
    calls: &str,
) -> Result<(), Fail> {
    for call in calls.split(' ') {
        match call.strip_prefix('a') {
            Some(place) => append_to(text, alloc, journal, versions, place.parse()?)?,
            None => sync_now(text, alloc, journal)?,
        }
    }
    Ok(())
}

/// Appends up to a place.
fn append_to(
    text: &mut String,
    alloc: Global,
    journal: &mut Journal<ScriptedFile<'_>>,
    versions: &[Version],
    place: usize,
) -> Result<(), Fail> {
    let Some(version) = versions.get(place) else {
        return Err("no such place".into());
    };
    if version.place() < journal.place() {
        return Err("an earlier place".into());
    }
    match journal.append(alloc, version) {
        Ok(()) => text.push_str("appended ")?,
        Err(fault) => put_fault(text, fault)?,
    }
    Ok(())
}

/// Syncs.
fn sync_now(
    text: &mut String,
    alloc: Global,
    journal: &mut Journal<ScriptedFile<'_>>,
) -> Result<(), Fail> {
    match journal.sync() {
        Ok(place) => text.push_str(format!(in alloc; "synced {place} ")?.as_str())?,
        Err(fault) => put_fault(text, fault)?,
    }
    Ok(())
}

fn put_fault(text: &mut String, fault: JournalFault) -> Result<(), Fail> {
    match fault {
        JournalFault::Memory => text.push_str("memory ")?,
        JournalFault::Failed => text.push_str("failed ")?,
    }
    Ok(())
}

/// How far the journal has come, and what its file has.
fn put_end(
    text: &mut String,
    alloc: Global,
    journal: &Journal<ScriptedFile<'_>>,
) -> Result<(), Fail> {
    let place = journal.place();
    let synced = journal.synced();
    let broken = journal.is_broken();
    let file = journal.file();
    let failures = file.failures();
    let taken = hex::encode(alloc, file.taken())?;
    let covered = hex::encode(alloc, file.covered())?;
    let line = format!(in alloc; "{place} {synced} {broken} {failures} {taken} {covered}")?;
    text.push_str(line.as_str())?;
    Ok(())
}
