//! How a replication goes on.

/// How a replication goes on after a step.
#[derive(Clone, Copy, Debug, PartialEq, Eq)]
pub enum Progress {
    /// There is more to do.
    Going,
    /// Both ends have a checkpoint at this update number of the source.
    Checkpoint(u64),
    /// There are no more changes. The next step begins anew.
    Done,
}
