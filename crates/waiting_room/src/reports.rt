//! What an operator is to know of connections that are not accepted.

use std::io;

/// Hears why connections are not accepted. Each may come often.
pub trait Reports {
    /// A connection can't be accepted.
    fn accept_failed(&self, error: &io::Error);

    /// As many clients as may be are connected, and no more are accepted until one of them leaves.
    fn full(&self, clients: u32);

    /// Connections can't be waited for any longer, and the workers end.
    fn failed(&self, error: &io::Error);
}
