//! What a case has a session do.

/// One of the two revisions that a document of a case has.
#[derive(Clone, Copy)]
pub(crate) enum Generation {
    First,
    Second,
}

/// An act of a session. The id of a document is a letter.
#[derive(Clone, Copy)]
pub(crate) enum Act {
    /// Puts a new document with the body `{}`.
    Put(char),
    /// Writes the body `{"n":1}` over the first revision.
    Edit(char),
    /// Purges the first revision.
    Purge(char),
    /// Puts so many new documents by one command.
    PutMany(usize),
    /// Purges so many of these by one command.
    PurgeMany(usize),
    /// Has the log keep so many purges.
    KeepPurges(u32),
    Compact,
    /// Sees what is published.
    Look,
    /// Looks for a revision and its body in what was seen.
    Find(char, Generation),
}
