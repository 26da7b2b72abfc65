//! How far a feed of changes has come.

use document_id::DocIds;
use model::Style;

/// How far a feed of changes has come, and which rows it has.
pub struct Following {
    /// The update number of the last row that was given, or the one that the feed begins after.
    pub cursor: u64,
    pub style: Style,
    /// The documents that are followed, where it is not all of them.
    pub ids: Option<DocIds>,
}

impl Drop for Following {
    fn drop(self) {
        let Following {
            cursor: _,
            style: _,
            ids: _,
        } = self;
    }
}
