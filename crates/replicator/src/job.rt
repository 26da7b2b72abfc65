//! What a worker is to do.

use document_id::{DocId, DocIds};

/// What a worker is to do, however far it has come.
#[derive(Drop)]
pub(crate) struct Job {
    /// The id of the checkpoints.
    pub(crate) id: DocId,
    /// How many changes are asked for at once.
    pub(crate) batch: u64,
    /// The documents whose changes are brought, where not all are.
    pub(crate) ids: Option<DocIds>,
}
