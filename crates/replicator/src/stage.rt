//! How far a worker has come.

use crate::checkpoint::Checkpoint;
use crate::ends::Ends;
use crate::pass::Pass;
use queries::ChangesPage;

/// How far a worker has come.
#[derive(Drop)]
pub(crate) enum Stage {
    /// Nothing is read yet.
    Unread,
    /// The source's checkpoint is read.
    SourceRead(Option<Checkpoint>),
    /// Both ends' checkpoints are known.
    Ready(Ends),
    /// The source gave changes.
    Paged(Ends, ChangesPage),
    /// The target reported what it lacks of them.
    Passing(Pass),
}
