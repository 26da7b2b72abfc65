//! The history of a dump.
ghost use Rattle.std.specs.Prelude.{◌≡◌, ◌↔◌, ◌<◌, ◌≤◌, ◌+◌, ◌++◌, ◌∷◌, [], List, length, All, Some, IfOk, IfErr};
ghost use Rattle.std.specs.List.{AllZip};
ghost use Rattle.model.specs.Command as model;
ghost use Rattle.model.specs.History.{Chronicle};
ghost use Rattle.history_json.specs.Line.{IsLine};
ghost use Rattle.history_dump.specs.Dump.{entry_line};
ghost use Rattle.replay_cli.specs.Lines.{lines};
ghost use Rattle.replay_cli.specs.Places.{last_place};
ghost use Rattle.replay_cli.specs.Readable.{IsFirstUnreadable};
ghost use Rattle.replay_cli.specs.Reading.{IsRead};
ghost use Rattle.replay_cli.specs.Verdicts.{IsDump, IsUnreadable, begun_with};

use crate::lines::cut_line;
use commands::Entry;
use history_dump::read_first_line;
use history_json::read_line;
use snapshots::Version;
use std::alloc::{AllocError, Global};

/// The last place of a history.
const LAST_PLACE: u64 = 4_294_967_295;

/// The version that a dump's history begins with, and its entries, or else the number of the first unreadable line.
pub(crate) fn read_dump(
    alloc: Global,
    dump: &[u8],
) -> Result<Result<(Version, Vec<Entry>), u64>, AllocError>
    ensures begun { IfOk result (λ read. IfOk read (λ r. r.0 ≡ begun_with r.0.base [])) }
    ensures dump { IfOk result (λ read. IfOk read (λ r. IsDump dump.now (begun_with r.0.base r.1.items))) }
    ensures only { IfOk result (λ read. IfOk read (λ r. (other : Chronicle)
        → IsDump dump.now other → other ≡ begun_with r.0.base r.1.items)) }
    ensures unreadable { IfOk result (λ read. IfErr read (IsUnreadable dump.now)) }
{
    let (first, rest) = cut_line(dump);
    let Some(begun) = read_first_line(alloc, first)? else {
        return Ok(Err(1));
    };
    match read_entries(alloc, rest)? {
        Ok(entries) => Ok(Ok((begun, entries))),
        Err(number) => Ok(Err(number)),
    }
}

/// The entries of these lines, which follow the first one, or else the number of the first
/// unreadable line.
fn read_entries(alloc: Global, text: &[u8]) -> Result<Result<Vec<Entry>, u64>, AllocError>
    ensures read { IfOk result (λ read. IfOk read (λ entries. AllZip IsRead (lines text.now) entries.items)) }
    ensures places { IfOk result (λ read. IfOk read (λ entries. length entries.items ≤ last_place)) }
    ensures unreadable { IfOk result (λ read. IfErr read (IsFirstUnreadable 2 (lines text.now))) }
{
    let mut entries = Vec::new(alloc);
    let mut rest = text;
    while !rest.is_empty() {
        let (line, more) = cut_line(rest);
        let Some(entry) = read_entry(alloc, line, entries.len() as u64)? else {
            return Ok(Err(entries.len() as u64 + 2));
        };
        entries.push(entry)?;
        rest = more;
    }
    Ok(Ok(entries))
}

/// The entry of a line that has so many entries before it. There is none where the line doesn't end in a line feed, is that of no
/// entry, or where a history has no place left for it.
///
/// # Errors
///
/// Memory was refused.
pub fn read_entry(alloc: Global, line: &[u8], before: u64) -> Result<Option<Entry>, AllocError>
    ensures { IfOk result (λ found. (entry : model.Entry) → (found ≡ Some entry)
        ↔ ((before < last_place) × IsLine entry × (line.now ≡ entry_line entry))) }
{
    if before >= LAST_PLACE {
        return Ok(None);
    }
    let Some((last, text)) = line.split_last() else {
        return Ok(None);
    };
    if *last != b'\n' {
        return Ok(None);
    }
    read_line(alloc, text)
}
