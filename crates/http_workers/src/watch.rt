//! What a server says while it serves.

use request_log::Lines;
use std::io;

/// Hears what an operator is to know of a server, and writes the lines of requests that are logged.
pub trait Watch: Lines {
    /// So many workers serve, fewer than were asked for: threads or memory were refused. None serve where memory for
    /// the database or the routes was, and the server ends.
    fn few_workers(&self, serving: u64, asked: u64);

    /// A connection can't be accepted. This is said once a second at most.
    fn accept_failed(&self, error: &io::Error);

    /// So many clients are connected, as many as may be, and no more are accepted until one of them leaves. This is said once a
    /// second at most.
    fn clients_full(&self, clients: u32);

    /// No thread can be made that keeps the connections that wait: each holds a worker.
    fn no_event_loop(&self);

    /// Connections can't be waited for any longer, and the workers end.
    fn event_loop_failed(&self, error: &io::Error);

    /// Memory for what a worker keeps is refused, and asked for again. This is said once a second at most.
    fn no_memory(&self);

    /// So many of the places of a history are taken, nine tenths of them or more. This is said once.
    fn history_filling(&self, taken: u64, places: u64);

    /// All of the places of a history are taken. This is said once.
    fn history_full(&self, places: u64);
}
