//! Calls that were answered.

use commands::{Command, Reply, Seat};
use queries::{Answer, Query};

/// A call that was answered.
#[derive(Drop)]
pub enum Completed {
    /// A command, its place in the history and its reply.
    Wrote {
        seat: Seat,
        command: Command,
        place: u64,
        reply: Reply,
    },
    /// A query, the place of the version that the session saw, and its answer.
    Asked {
        session: u16,
        query: Query,
        place: u64,
        answer: Answer,
    },
}
