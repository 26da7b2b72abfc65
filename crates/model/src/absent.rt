//! Why no document is found.

/// Why no document is found: an answer, not a failure.
///
/// CouchDB: `GET /{db}/{docid}`, 404 Not Found.
#[derive(Clone, Copy, Debug, PartialEq, Eq)]
pub enum Absent {
    /// No such document or revision is known, or its body is not kept: it was never written, or was purged, stemmed or stripped.
    IsMissing,
    /// The document is deleted.
    WasDeleted,
}
