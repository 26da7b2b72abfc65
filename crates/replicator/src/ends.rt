//! What a worker knows of the two ends.

/// Where changes are asked from, and which local documents there are.
#[derive(Clone, Copy, Debug, PartialEq, Eq)]
pub(crate) struct Ends {
    /// The update number of the source after which changes are asked for.
    pub(crate) since: u64,
    /// The number of the revision of the source's checkpoint, if there is one.
    pub(crate) source: Option<u32>,
    /// The number of the revision of the target's checkpoint, if there is one.
    pub(crate) target: Option<u32>,
}
