//! What a database begins with, of the text of a file.

use history_dump::first_line;
use journal::{End, Raise, Restored, Unrestored, restore};
use std::alloc::Global;
use std::test::Fail;

/// What a text, as hex digits, leaves, of which so many bytes are synced, where numbers are raised by this word.
pub(crate) fn restored(
    alloc: Global,
    synced: &str,
    raise: &str,
    text: &str,
) -> Result<String, Fail> {
    let bytes = bytes_of(alloc, text)?;
    match restore(
        alloc,
        &mut bytes.as_slice(),
        synced.parse()?,
        raise_of(raise)?,
    ) {
        Ok(restored) => restored_told(alloc, &restored),
        Err(fault) => fault_told(alloc, &fault),
    }
}

/// When numbers are raised, by its word.
fn raise_of(word: &str) -> Result<Raise, Fail> {
    match word {
        "never" => Ok(Raise::Never),
        "torn" => Ok(Raise::IfTorn),
        "entries" => Ok(Raise::BehindEntries),
        "always" => Ok(Raise::Always),
        _ => Err("no such word".into()),
    }
}

/// The bytes of a text of hex digits.
pub(crate) fn bytes_of(alloc: Global, text: &str) -> Result<Vec<u8>, Fail> {
    let Ok(bytes) = hex::decode(alloc, text) else {
        return Err("no hex digits".into());
    };
    Ok(bytes)
}

/// How many entries and bytes were taken, what is behind them, whether numbers are raised and the epoch goes on, and the first
/// line of what begins.
fn restored_told(alloc: Global, restored: &Restored) -> Result<String, Fail> {
    let places = restored.places;
    let taken = restored.taken;
    let end = end_told(restored.end);
    let raised = restored.raised;
    let goes_on = restored.goes_on;
    let line = first_line(alloc, &restored.version)?;
    let line = line.as_str().trim_end();
    Ok(format!(in alloc; "{places} {taken} {end} {raised} {goes_on} {line}")?)
}

/// What is behind the lines that were taken.
fn end_told(end: End) -> &'static str {
    match end {
        End::Whole => "whole",
        End::Cut => "cut",
        End::Torn => "torn",
    }
}

/// Why nothing begins.
fn fault_told(alloc: Global, fault: &Unrestored) -> Result<String, Fail> {
    match fault {
        Unrestored::Judged { verdict, at } => Ok(format!(in alloc; "{verdict} from {at}")?),
        _ => Ok(format!(in alloc; "{fault}")?),
    }
}
