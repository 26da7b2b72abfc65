//! Versions of many documents with the same revisions.
ghost use Rattle.std.specs.Prelude.{IfSome};
ghost use Rattle.model.specs.History.{Extends};

use commands::{Command, Edit, MAX_PLACES, Seat};
use document_id::DocId;
use json_profile::{Body, MAX_NESTING, read};
use revision_id::RevId;
use snapshots::Version;
use std::alloc::Global;
use std::ops::Range;
use std::sync::Arc;

/// How many documents a command writes.
pub(crate) const BULK: u32 = 1000;

/// How many revisions each document has.
pub(crate) const REVISIONS: u32 = 10;

const BODY: &str = "{\"kind\":\"note\",\"number\":1,\"text\":\"a small document\"}";

/// An odd factor, by which the ids come in an order that looks random.
const SCATTER: u64 = 0x9e37_79b9_7f4a_7c15;

/// A version of so many thousand documents, if memory is not refused.
pub(crate) fn written(alloc: Global, thousands: u32) -> Option<Version> {
    let mut version = Version::empty(alloc);
    for generation in 0..REVISIONS {
        version = with_revision(alloc, version, thousands, generation)?;
    }
    Some(version)
}

/// With a revision more of each document, over that of the generation.
fn with_revision(
    alloc: Global,
    version: Version,
    thousands: u32,
    generation: u32,
) -> Option<Version> {
    let mut version = version;
    for bulk in 0..thousands {
        let first = bulk.saturating_mul(BULK);
        version = with_edits(
            alloc,
            &version,
            first..first.saturating_add(BULK),
            generation,
        )?;
    }
    Some(version)
}

/// The version after an edit of each of these documents, over its revision of the generation.
pub(crate) fn with_edits(
    alloc: Global,
    version: &Version,
    numbers: Range<u32>,
    generation: u32,
) -> Option<Version>
    ensures extends { IfSome result (λ v. Extends v version.now) }
{
    if version.place() >= u64::from(MAX_PLACES) {
        return None;
    }
    let seat = Seat::new(0, version.next_call(0))?;
    let command = edits(alloc, numbers, revision(alloc, generation)?)?;
    let Ok(edited) = version.act(seat, &command) else {
        return None;
    };
    Some(edited)
}

/// The revision of that generation, which all documents share, or none before the first.
fn revision(alloc: Global, generation: u32) -> Option<Option<RevId>> {
    let mut revision = None;
    for _ in 0..generation {
        revision = Some(child(alloc, revision)?);
    }
    Some(revision)
}

/// The revision over that one.
fn child(alloc: Global, parent: Option<RevId>) -> Option<RevId> {
    let body = body(alloc)?;
    RevId::child(alloc, parent.as_ref(), false, &body).ok()
}

fn edits(alloc: Global, numbers: Range<u32>, named: Option<RevId>) -> Option<Command> {
    let mut edits = Vec::new(alloc);
    for number in numbers {
        edits.push(edit(alloc, number, named)?).ok()?;
    }
    Command::edits(edits)
}

fn edit(alloc: Global, number: u32, named: Option<RevId>) -> Option<Edit> {
    Some(Edit {
        id: id_of(alloc, number)?,
        named,
        deleted: false,
        body: Arc::new(alloc, body(alloc)?).ok()?,
    })
}

fn id_of(alloc: Global, number: u32) -> Option<DocId> {
    let scattered = u64::from(number).wrapping_mul(SCATTER);
    let text = format!(in alloc; "note-{scattered}").ok()?;
    DocId::new(alloc, text.as_str()).ok()
}

fn body(alloc: Global) -> Option<Body> {
    let json = read(alloc, BODY.as_bytes(), MAX_NESTING).ok()?;
    json.object_without_specials(alloc).ok()
}
