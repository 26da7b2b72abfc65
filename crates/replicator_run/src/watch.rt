//! Who learns how far a replication has come, and what keeps it from going on.

use crate::asked::{Asked, End};
use document_id::DocId;

/// Who learns how far a replication has come, while it runs, and what keeps it from going on.
pub trait Watch {
    /// This is asked of an end next.
    fn asks(&self, end: End, asked: Asked);

    /// The source gave changes up to this number, and says how many are behind them.
    fn changes(&self, last_seq: u64, pending: u64);

    /// So many documents have passed an end: the source gave them, or the target took them.
    fn passed(&self, end: End, documents: u64);

    /// The target gave no answer that can be read to a bulk of this document alone, whose text has so
    /// many bytes, more than a bulk can hold.
    fn large_document(&self, id: &DocId, len: usize);

    /// The target gave no answer that can be read about the leaves of changes, which are so many that one
    /// request may not hold them; this document has the most of them.
    fn many_leaves(&self, id: &DocId, leaves: usize, all: usize);

    /// A document is skipped, since no bulk can hold its text, which has so many bytes.
    fn skipped_document(&self, id: &DocId, len: usize);

    /// A document is skipped, since it has so many leaves, more than one request can hold.
    fn skipped_leaves(&self, id: &DocId, leaves: usize);

    /// Changes were asked for after this number, and the source ends before it, at the other one.
    fn past_end(&self, since: u64, last_seq: u64);
}
