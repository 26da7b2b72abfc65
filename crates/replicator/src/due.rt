//! What a pass has to do.

/// What a pass has to do next.
#[derive(Clone, Copy, Debug, PartialEq, Eq)]
pub(crate) enum Due {
    /// Revisions that the target lacks are asked for.
    Open,
    /// Documents are sent.
    Send,
    /// The target's checkpoint is written.
    MarkTarget,
    /// The source's checkpoint is written.
    MarkSource,
}
