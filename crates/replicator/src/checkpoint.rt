//! How far a replication had come.

/// How far a replication had come, as the local document of one end reports.
#[derive(Clone, Copy, Debug, PartialEq, Eq)]
pub struct Checkpoint {
    /// The number of the local document's revision, from 1.
    pub counter: u32,
    /// The update number of the source up to which the target has all.
    pub last_seq: u64,
}
