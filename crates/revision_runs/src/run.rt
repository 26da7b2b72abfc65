//! A run.

use revision_id::RevId;

/// A longest chain of revisions of which all but the lowest have one child. It is known by its top, the oldest of them.
#[derive(Clone, Copy, Drop)]
pub struct Run {
    /// The fork that the top is a child of. Of a top with no known parent nothing.
    pub fork: Option<RevId>,
    /// The youngest revision, which is a leaf or a fork.
    pub bottom: RevId,
    /// The least generation of a leaf at or below the bottom.
    pub low: u32,
}
