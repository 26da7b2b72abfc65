//! Sessions over one opened database.
ghost use Rattle.std.specs.Prelude.{◌≡◌, false, IfSome};
ghost use Rattle.model.specs.World.{is_compact};

mod epochs;
mod held;
mod pair;
mod shares;
mod soak;
mod wait;

use commands::{Command, Edit, Limits, ReplyKind};
use document_id::DocId;
use json_profile::Body;
use model::Refusal;
use revision_id::RevId;
use std::alloc::Global;
use std::sync::Arc;

/// The revision of a document's first edit, with the body `{}`.
const FIRST: &str = "1-b7a5841aeb59f1be5d0e27b640827094";

/// Ids of documents.
const DOCUMENTS: [&str; 20] = [
    "a", "b", "c", "d", "e", "f", "g", "h", "i", "j", "k", "l", "m", "n", "o", "p", "q", "r", "s",
    "t",
];

/// Of two sessions.
const LIMITS: Limits = Limits {
    sessions: 2,
    queue: 4,
    gather: 4,
    slice: 1,
    slack: 0,
    tries: 1,
    max_places: 100,
};

/// The first edit of the document of an id, with the body `{}`.
fn put(alloc: Global, id: &str) -> Option<Command>
    ensures { IfSome result (λ command. is_compact command ≡ false) }
{
    edit(alloc, DocId::new(alloc, id).ok()?, None)
}

/// An edit over the revision that is named, with the body `{}`.
fn edit(alloc: Global, id: DocId, named: Option<RevId>) -> Option<Command>
    ensures { IfSome result (λ command. is_compact command ≡ false) }
{
    let edit = Edit {
        id,
        named,
        deleted: false,
        body: Arc::new(alloc, Body::empty(alloc)).ok()?,
    };
    Some(Command::edit(edit))
}

/// What a command of one write is answered: its revision, or why it is refused.
fn answer(reply: &ReplyKind) -> Option<Result<RevId, Refusal>> {
    let ReplyKind::Wrote(writes) = reply else {
        return None;
    };
    Some(*writes.as_slice().first()?)
}
