//! Documents that no bulk can hold.
ghost use Rattle.std.specs.Prelude.{◌≡◌, IfOk, option_map};
ghost use Rattle.replicator_run.specs.Large.{large_in};

use commands::Merge;
use document_id::DocId;
use document_json::merge_text;
use std::alloc::{AllocError, Global};

/// The most bytes of a bulk that a server takes.
const MAX_BULK: usize = 1_048_576;

/// The bytes of a bulk around its only document.
const AROUND: usize = 29;

/// The document that is too large for a bulk of its own, if that is what these are, and the length
/// of its text.
#[tactic(auto, using(crate::proofs::BulkLengths::bulk_length))]
pub(crate) fn large_in(
    alloc: Global,
    documents: &[Merge],
) -> Result<Option<(&DocId, usize)>, AllocError>
    ensures { IfOk result (λ found. option_map (λ large. (large.0.now, large.1)) found
        ≡ large_in documents.now) }
{
    let [document] = documents else {
        return Ok(None);
    };
    let text = merge_text(alloc, document)?;
    if text.len() <= MAX_BULK - AROUND {
        return Ok(None);
    }
    Ok(Some((document.id(), text.len())))
}
