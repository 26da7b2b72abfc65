//! How long a peer may take.

use std::time::Duration;

/// How long a connection waits for its peer.
#[derive(Clone, Copy, Debug, PartialEq, Eq)]
pub struct Pace {
    /// For the first byte of a request. After it, a connection ends as where its peer closes it.
    pub idle: Duration,
    /// For the rest of a request that has begun, and until a text that is written is taken: each in all,
    /// however slowly its bytes move. After it, the read or the write fails.
    pub patience: Duration,
}

/// For so many seconds after a flag was set by which a connection ends, the rest of its last request is waited for, and the
/// rest of a text that is written.
pub(crate) const GRACE_SECONDS: u64 = 1;
