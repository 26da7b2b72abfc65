//! The ids of documents, as requests name them.
ghost use Rattle.document_json.specs.Identity.{id_named};
ghost use Rattle.document_json.specs.Steps.{Decides};

use crate::fault::{Fault, Reason};
use document_id::{DocId, IdFault};
use std::alloc::Global;

/// The id of this text, of 1 to 512 bytes of which the first is no `_`.
///
/// # Errors
///
/// Another text is refused by [`Reason::Id`], and memory may be refused.
pub fn read_id(alloc: Global, text: &str) -> Result<DocId, Fault>
    ensures { Decides result (id_named text.now) }
{
    if matches!(text.as_bytes(), [b'_', ..]) {
        return Err(Fault::Refused(Reason::Id));
    }
    match DocId::new(alloc, text) {
        Ok(id) => Ok(id),
        Err(IdFault::Length) => Err(Fault::Refused(Reason::Id)),
        Err(IdFault::Memory) => Err(Fault::Memory),
    }
}
