//! How these databases are served.

use http_front::{Lines, MAX_PLACES, Pace, Terms, Watch, Workers};
use std::alloc::Global;
use std::io::{self, ErrorKind};
use std::thread::Threads;
use std::time::Duration;

/// How many workers serve.
const WORKERS: u16 = 2;

/// How many seconds a client is waited for.
const SECONDS: u64 = 300;

/// Each worker serves one connection, and waits long for its client.
pub(crate) fn terms() -> Terms<'static> {
    Terms {
        connections: 1,
        clients: 2,
        pace: Pace {
            idle: Duration::from_secs(SECONDS),
            patience: Duration::from_secs(SECONDS),
        },
        log: false,
        places: MAX_PLACES as u64,
        policy: None,
    }
}

/// Nobody hears what a server says.
pub(crate) struct Unheard;

impl Lines for Unheard {
    fn write_line(&self, _line: &str) {}
}

impl Watch for Unheard {
    fn few_workers(&self, _serving: u64, _asked: u64) {}

    fn accept_failed(&self, _error: &io::Error) {}

    fn clients_full(&self, _clients: u32) {}

    fn no_event_loop(&self) {}

    fn event_loop_failed(&self, _error: &io::Error) {}

    fn no_memory(&self) {}

    fn history_filling(&self, _taken: u64, _places: u64) {}

    fn history_full(&self, _places: u64) {}
}

/// The workers that serve.
pub(crate) fn workers<'w, R: Threads>(
    rt: &R,
    alloc: Global,
    unheard: &'w Unheard,
) -> io::Result<Workers<'w, Unheard>> {
    match Workers::new(rt, alloc, WORKERS, unheard) {
        Some(workers) => Ok(workers),
        None => Err(io::Error::from(ErrorKind::OutOfMemory)),
    }
}
