//! The first line of a dump, which says what its history begins from.
ghost use Rattle.std.specs.Prelude.{◌≡◌, ◌↔◌, ◌++◌, ℕ, List, [], Some, IfOk, IfSome, IsTrue, OnOk, codes, option_copied, option_map, string_bytes};
ghost use Rattle.model.specs.Database as model;
ghost use Rattle.model.specs.History.{Chronicle, IsBase};
ghost use Rattle.base_json.specs.Base.{base_text};
ghost use Rattle.history_dump.specs.Dump.{first_line, first_text, BeginsAt, IsFirst};

use base_json::{put_base, read_base};
use snapshots::{Database, Version};
use std::alloc::{AllocError, Global};

/// The first line of a first epoch, without its line feed.
const FIRST_EPOCH: &str = "{\"couch_history\":1}";

/// The first line of the dump of a version's history, with its line feed.
pub fn first_line(alloc: Global, version: &Version) -> Result<String, AllocError>
    ensures { IfOk result (λ text. string_bytes text ≡ first_line version.now.base) }
{
    let mut text = String::new(alloc);
    put_first(&mut text, alloc, version.base())?;
    text.push_str("\n")?;
    Ok(text)
}

/// Writes a first line that names this base, or none, without its line feed.
fn put_first(text: &mut String, alloc: Global, base: Option<&Database>) -> Result<(), AllocError>
    ensures { OnOk result (string_bytes text.new ≡ string_bytes text.old ++ first_text (option_copied base.entry)) }
{
    match base {
        None => text.push_str(FIRST_EPOCH),
        Some(base) => put_base(text, alloc, base),
    }
}

/// The version of no entries over what a first line names: nothing where the bytes are not exactly such a line.
pub fn read_first_line(alloc: Global, line: &[u8]) -> Result<Option<Version>, AllocError>
    ensures { (v : Chronicle) → IfOk result (λ found. (found ≡ Some v) ↔ BeginsAt line.now v) }
{
    let Some(version) = begun_by(alloc, line)? else {
        return Ok(None);
    };
    let text = first_line(alloc, &version)?;
    if is_text(line, text.as_str()) {
        return Ok(Some(version));
    }
    Ok(None)
}

/// What a line may begin, read leniently.
fn begun_by(alloc: Global, line: &[u8]) -> Result<Option<Version>, AllocError>
    ensures within { IfOk result (λ found. IfSome found (λ v. (v.entries ≡ []) × IsFirst v.base)) }
    ensures found { (v : Chronicle) → BeginsAt line.now v → IfOk result (λ found. found ≡ Some v) }
{
    let Some(text) = without_feed(line) else {
        return Ok(None);
    };
    if is_text(text, FIRST_EPOCH) {
        return Ok(Some(Version::empty(alloc)));
    }
    begun_over(alloc, text)
}

/// What the text of a later epoch's first line may begin, read leniently.
fn begun_over(alloc: Global, text: &[u8]) -> Result<Option<Version>, AllocError>
    ensures within { IfOk result (λ found. IfSome found (λ v. (v.entries ≡ []) × IsFirst v.base)) }
    ensures found { (base : model.Database) → IsBase base → text.now ≡ base_text base
        → IfOk result (λ found. found ≡ Some (record { base = Some base; entries = [] })) }
{
    let Some(parts) = read_base(alloc, text)? else {
        return Ok(None);
    };
    Version::from_parts(alloc, parts)
}

/// A line without its last byte, if it has one.
fn without_feed(line: &[u8]) -> Option<&[u8]>
    ensures { (text : List ℕ) → line.now ≡ text ++ codes "\n" → option_map (λ t. t.now) result ≡ Some text }
{
    let Some((_feed, text)) = line.split_last() else {
        return None;
    };
    Some(text)
}

/// Whether the bytes are those of the text.
fn is_text(bytes: &[u8], text: &str) -> bool
    ensures { IsTrue result ↔ (bytes.now ≡ text.now) }
{
    bytes == text.as_bytes()
}
