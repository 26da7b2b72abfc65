//! What can happen to a machine.

use commands::Command;
use queries::Query;

/// What can happen to a machine. One whose condition fails, or whose session there is not, does
/// nothing.
#[derive(Drop)]
pub enum Event {
    /// The session's command, which is no compaction, joins the jobs that wait.
    Ask(u16, Command),
    /// At most so many of the jobs that wait become the batch.
    Take(u64),
    /// The batch's entries go last in the history, in its order.
    Put,
    /// The batch's jobs are dropped.
    GiveUp,
    /// The session sees the last version.
    Look(u16),
    /// The session reads at the version that it saw last.
    Read(u16, Query),
    /// The session starts a compaction.
    Start(u16),
    /// The compaction strips its next records, so many.
    Slice(u64),
    /// The compaction takes over at most so many documents that were touched since.
    CatchUp(u64),
    /// The compaction's end: one entry, where little enough is left to take over.
    Swap,
    /// The compaction ends without an entry.
    Abort,
}
