//! Faults of a server that its operator hears of.

use crate::watch::Watch;
use request_log::OncePerSecond;
use std::io;
use std::time::Clock;

/// Faults that may come often, each kind of which is said once a second at most.
#[derive(Drop)]
pub(crate) struct Faults {
    accept: OncePerSecond,
    memory: OncePerSecond,
    full: OncePerSecond,
}

impl Faults {
    /// None was said yet.
    pub(crate) fn new() -> Faults {
        Faults {
            accept: OncePerSecond::new(),
            memory: OncePerSecond::new(),
            full: OncePerSecond::new(),
        }
    }

    /// A connection can't be accepted.
    pub(crate) fn accept_failed<R: Clock, V: Watch>(
        &self,
        clock: &R,
        watch: &V,
        error: &io::Error,
    ) {
        if self.accept.passes(clock) {
            watch.accept_failed(error);
        }
    }

    /// Memory for what a worker keeps is refused.
    pub(crate) fn no_memory<R: Clock, V: Watch>(&self, clock: &R, watch: &V) {
        if self.memory.passes(clock) {
            watch.no_memory();
        }
    }

    /// No more clients are accepted.
    pub(crate) fn clients_full<R: Clock, V: Watch>(&self, clock: &R, watch: &V, clients: u32) {
        if self.full.passes(clock) {
            watch.clients_full(clients);
        }
    }
}
