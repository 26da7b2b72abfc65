//! Which changes are asked for, and how they are given.

use document_id::DocIds;
use model::Style;

/// Which changes are asked for, and how they are given.
#[derive(Drop)]
pub struct ChangesAsked {
    pub since: Since,
    /// The most rows, where there is a limit.
    pub limit: Option<u64>,
    pub style: Style,
    pub feed: Feed,
    /// The documents, where it is not all of them.
    pub ids: Option<DocIds>,
}

/// The update number after which changes are asked for.
#[derive(Clone, Copy, Debug, PartialEq, Eq)]
pub enum Since {
    Number(u64),
    /// The one that the database has.
    Now,
}

/// How changes are given.
#[derive(Clone, Copy, Debug, PartialEq, Eq)]
pub enum Feed {
    /// Those that there are.
    Normal,
    /// Those that there are, and where there are none the next ones.
    LongPoll,
    /// One after another, as they come.
    Continuous,
}
