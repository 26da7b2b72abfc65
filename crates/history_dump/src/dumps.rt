//! The text of a history.
ghost use Rattle.std.specs.Prelude.{◌≡◌, ◌++◌, IfOk, OnOk, string_bytes};
ghost use Rattle.std.specs.List.{flat_map};
ghost use Rattle.history_dump.specs.Dump.{dump_text, entry_line};

use crate::first::first_line;
use commands::Entry;
use history_json::put_line;
use snapshots::Version;
use std::alloc::{AllocError, Global};

/// The dump of a version's history: the first line, and the line of each entry from place 1 on.
pub fn dump_version(alloc: Global, version: &Version) -> Result<Vec<u8>, AllocError>
    ensures text { IfOk result (λ text. text.items ≡ dump_text version.now) }
{
    let mut text = first_line(alloc, version)?;
    put_entries(&mut text, alloc, version)?;
    Ok(text.into_bytes())
}

/// Writes the line of each entry.
fn put_entries(text: &mut String, alloc: Global, version: &Version) -> Result<(), AllocError>
    ensures { OnOk result (string_bytes text.new
        ≡ string_bytes text.old ++ flat_map entry_line version.now.entries) }
{
    for before in 0..version.place() {
        let Some(entry) = version.entry(before + 1) else {
            unreachable!();
        };
        put_entry(text, alloc, entry)?;
    }
    Ok(())
}

/// Writes the line of an entry, with its line feed.
fn put_entry(text: &mut String, alloc: Global, entry: &Entry) -> Result<(), AllocError>
    ensures { OnOk result (string_bytes text.new ≡ string_bytes text.old ++ entry_line entry.now) }
{
    put_line(text, alloc, entry)?;
    text.push_str("\n")
}
