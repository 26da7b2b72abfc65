//! How many documents go at once.
ghost use Rattle.std.specs.Prelude.{◌≡◌, ◌<◌, IfOk, length, max};
ghost use Rattle.replicator.specs.Bulk.{IsBulkLen};

use commands::Merge;
use document_json::merge_len;
use std::alloc::{AllocError, Global};

/// The most bytes of a bulk of more than one document.
const MAX_BULK: usize = 1_048_576;

/// The bytes of a bulk round its documents, less the comma that the first of them has not.
const AROUND: usize = 28;

/// How many of the documents go at once: as many as keep the text within the limit, and at least
/// one.
pub(crate) fn bulk_len(alloc: Global, documents: &[Merge]) -> Result<usize, AllocError>
    requires { 0 < length documents.now }
    ensures { IfOk result (λ n. IsBulkLen documents.now n) }
{
    let mut len = 0;
    let mut size = AROUND;
    for document in documents {
        let text = merge_len(alloc, document)?;
        if text >= MAX_BULK - size {
            return Ok(at_least_one(len));
        }
        size += text + 1;
        len += 1;
    }
    Ok(len)
}

fn at_least_one(len: usize) -> usize
    ensures { result ≡ max len 1 }
{
    if len == 0 { 1 } else { len }
}
