//! The lines of a piece of a history.
ghost use Rattle.std.specs.Prelude.{◌≡◌, ◌≤◌, ◌++◌, length, IfOk, OnOk, string_bytes};
ghost use Rattle.history_dump.specs.Dump.{entry_line};
ghost use Rattle.journal.specs.Appending.{lines_above};

use commands::Entry;
use history_json::put_line;
use snapshots::Version;
use std::alloc::{AllocError, Global};

/// The lines of the entries of a version above a place, in order, each with its line feed.
pub(crate) fn lines_above(
    alloc: Global,
    version: &Version,
    place: u64,
) -> Result<String, AllocError>
    requires { place ≤ length version.now.entries }
    ensures { IfOk result (λ text. string_bytes text ≡ lines_above place version.now.entries) }
{
    let mut text = String::new(alloc);
    for before in place..version.place() {
        let Some(entry) = version.entry(before + 1) else {
            unreachable!();
        };
        put_entry(&mut text, alloc, entry)?;
    }
    Ok(text)
}

/// Writes the line of an entry, with its line feed.
fn put_entry(text: &mut String, alloc: Global, entry: &Entry) -> Result<(), AllocError>
    ensures { OnOk result (string_bytes text.new ≡ string_bytes text.old ++ entry_line entry.now) }
{
    put_line(text, alloc, entry)?;
    text.push_str("\n")
}
