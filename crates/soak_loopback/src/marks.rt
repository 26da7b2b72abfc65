//! What threads tell one another.

use std::sync::atomic::{AtomicU64, Ordering};
use std::thread;
use std::time::{Clock, Duration};

/// How often a wait looks, once a millisecond.
pub(crate) const TURNS: u32 = 10_000;

/// How often something has happened.
#[derive(Drop)]
pub(crate) struct Mark {
    times: AtomicU64,
}

impl Mark {
    fn new() -> Mark {
        Mark {
            times: AtomicU64::new(0),
        }
    }

    /// Counts once more, and answers how often it had happened before.
    pub(crate) fn count(&self) -> u64 {
        self.times.fetch_add(1, Ordering::SeqCst)
    }

    pub(crate) fn times(&self) -> u64 {
        self.times.load(Ordering::SeqCst)
    }
}

/// What the threads of a case tell one another.
#[derive(Drop)]
pub(crate) struct Marks {
    /// A write is held.
    pub(crate) held: Mark,
    /// The write that is held may go on.
    pub(crate) released: Mark,
    /// A follower took what there was.
    pub(crate) followed: Mark,
    /// A write had a receipt.
    pub(crate) written: Mark,
    /// A writer has done all its writes.
    pub(crate) done: Mark,
    /// A wait ended without what it waited for.
    pub(crate) late: Mark,
}

impl Marks {
    pub(crate) fn new() -> Marks {
        Marks {
            held: Mark::new(),
            released: Mark::new(),
            followed: Mark::new(),
            written: Mark::new(),
            done: Mark::new(),
            late: Mark::new(),
        }
    }

    /// Waits until it has happened more often than so many times.
    pub(crate) fn wait(&self, clock: &impl Clock, mark: &Mark, times: u64) {
        for _turn in 0..TURNS {
            if mark.times() > times {
                return;
            }
            pause(clock);
        }
        self.late.count();
    }
}

/// Leaves the others a millisecond.
pub(crate) fn pause(clock: &impl Clock) {
    thread::sleep(clock, Duration::from_millis(1));
}
