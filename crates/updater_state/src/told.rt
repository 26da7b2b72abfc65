//! The outcome of a session's last job.

use crate::naming::Opening;
use crate::outcome::Outcome;
use job_queue::TakenCount;

/// The outcome of a session's last job. It may reach the session without the updater's lock. Only the session's
/// [`Caller`](crate::Caller) reads it, which counts the entry that it learns of.
#[derive(Drop)]
pub struct Told<J: Opening> {
    /// What became of the job.
    pub(crate) outcome: Outcome<J>,
    /// How many of the session's jobs were taken from the queue.
    pub(crate) taken_count: TakenCount<J>,
}
