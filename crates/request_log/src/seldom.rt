//! What is said once a second at most.

use std::sync::atomic::{AtomicU64, Ordering};
use std::time::{Clock, Duration, SystemTime};

/// Lets one of many pass in each second. Threads share it.
#[derive(Drop)]
pub struct OncePerSecond {
    // the last second in which one passed
    last: AtomicU64,
}

impl OncePerSecond {
    /// None has passed.
    pub fn new() -> OncePerSecond {
        OncePerSecond {
            last: AtomicU64::new(0),
        }
    }

    /// Whether this one passes: the first of its second, where the clock can be read.
    pub fn passes<R: Clock>(&self, clock: &R) -> bool {
        let Ok(now) = SystemTime::now(clock) else {
            return false;
        };
        let Ok(since) = now.duration_since(SystemTime::UNIX_EPOCH) else {
            return false;
        };
        self.passes_in(since)
    }

    /// The same so long after 1970.
    fn passes_in(&self, since: Duration) -> bool {
        let second = since.as_secs();
        self.last.swap(second, Ordering::SeqCst) != second
    }
}
