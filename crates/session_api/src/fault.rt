//! Calls that have no answer.

/// Why a call has no answer, though memory was there. It left no entry, but for [`Unavailable::Lost`] and
/// [`Unavailable::Journal`].
#[derive(Clone, Copy, Debug, PartialEq, Eq)]
pub enum Unavailable {
    /// The queue of commands was full.
    Busy,
    /// The session is lost: the call that lost it may have an entry, and each later call is answered so.
    Lost,
    /// The history has as many entries as it has room for.
    Full,
    /// A compaction did not catch up with the edits.
    Behind,
    /// More was purged beside a compaction than the log of purges keeps.
    Overrun,
    /// The session could not enter what is published, or a share of it was refused.
    Entry,
    /// The journal of the history failed: an entry of the call, if there is one, may be lost when the server
    /// ends.
    Journal,
}

/// Why a call has no answer.
#[derive(Clone, Copy, Debug, PartialEq, Eq)]
pub enum CallFault {
    /// Memory was refused. The call left no entry.
    Memory,
    /// The call has no answer for this reason. It left no entry, but for two reasons. With [`Unavailable::Lost`] one of
    /// the call that lost the session may be there, which the session never sees. With [`Unavailable::Journal`] one of the
    /// call may be there, which the session sees, and which the journal may not have kept.
    Unavailable(Unavailable),
}
