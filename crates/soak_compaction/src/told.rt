//! What an act is answered.

use crate::act::Generation;
use sessions::Fault;

/// What a receipt says.
#[derive(Clone, Copy)]
pub(crate) enum Replied {
    Wrote,
    /// One edit at least was refused.
    Refused,
    Purged(u64),
    Done,
}

/// What there is of a revision.
#[derive(Clone, Copy)]
pub(crate) enum Kept {
    Unknown,
    WithoutBody,
    WithBody,
}

/// What there is of a database.
#[derive(Clone, Copy)]
pub(crate) struct Content {
    /// How many entries its history has.
    pub(crate) place: u64,
    pub(crate) update_seq: u64,
    pub(crate) purge_seq: u64,
    pub(crate) documents: u64,
}

/// What an act is answered.
#[derive(Clone, Copy)]
pub(crate) enum Told {
    /// A receipt, for the entry that the session sees at its place.
    Receipt {
        call: u64,
        place: u64,
        reply: Replied,
    },
    /// A receipt for another entry than the session sees there.
    Untold {
        place: u64,
    },
    Fault(Fault),
    Content(Content),
    Kept(char, Generation, Kept),
    /// How many entries the sessions met at.
    Met {
        place: u64,
    },
    /// Memory was refused before the call.
    Nothing,
}

/// What an act of a session was answered.
#[derive(Clone, Copy)]
pub(crate) struct Line {
    pub(crate) session: usize,
    pub(crate) told: Told,
}
