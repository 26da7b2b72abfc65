//! A count that threads share.

use std::sync::atomic::{AtomicU64, Ordering};

/// How often it happened.
#[derive(Drop)]
pub(crate) struct Count {
    times: AtomicU64,
}

impl Count {
    pub(crate) fn new() -> Count {
        Count {
            times: AtomicU64::new(0),
        }
    }

    /// Once more.
    pub(crate) fn add(&self) {
        let _times = self.next();
    }

    /// Once more, and how often it has happened then.
    pub(crate) fn next(&self) -> u64 {
        self.times.fetch_add(1, Ordering::SeqCst).saturating_add(1)
    }

    pub(crate) fn get(&self) -> u64 {
        self.times.load(Ordering::SeqCst)
    }
}
