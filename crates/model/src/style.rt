//! The two styles of the changes feed.

/// What a change lists.
///
/// CouchDB: `GET /{db}/_changes`, "style".
#[derive(Clone, Copy, Debug, PartialEq, Eq)]
pub enum Style {
    /// The winner alone.
    MainOnly,
    /// All leaves.
    AllDocs,
}
