//! How a connection goes on.

/// How a connection goes on.
#[derive(Clone, Copy, Debug, PartialEq, Eq)]
pub enum State {
    /// Each request so far was written, and its response was read.
    Open,
    /// A write or a read failed, or the input ended inside a response.
    Failed,
    /// A response can't be read, or memory for it was refused.
    Unreadable,
}
