//! What is kept of revisions.

/// What is kept of a revision.
///
/// CouchDB: `GET /{db}/{docid}`, "revs_info".
#[derive(Clone, Copy, Debug, PartialEq, Eq)]
pub enum Status {
    /// Its body.
    Available,
    /// Its body, as that of a deletion.
    IsDeleted,
    /// Its identity alone.
    NoBody,
}
