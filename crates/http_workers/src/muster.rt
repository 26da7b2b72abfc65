//! How many of the workers that were asked for there are.

use crate::buffers::Buffers;
use crate::watch::Watch;
use crate::workers::Workers;
use std::alloc::Global;
use std::sync::Wait;
use std::sync::atomic::{AtomicU64, Ordering};
use std::thread;
use std::time::{Clock, Duration};

/// How many milliseconds lie between two looks for workers that get ready.
const LOOK_MILLISECONDS: u64 = 1;

/// After so many looks at which no further worker was ready, no other is waited for.
const QUIET_LOOKS: u64 = 1000;

/// The workers that started, and those that are ready, of those that were asked for.
#[derive(Drop)]
pub(crate) struct Muster {
    asked: u64,
    started: AtomicU64,
    ready: AtomicU64,
}

impl Muster {
    /// None of so many has started yet.
    pub(crate) fn new(asked: u64) -> Muster {
        Muster {
            asked,
            started: AtomicU64::new(0),
            ready: AtomicU64::new(0),
        }
    }

    /// Gets a worker ready: it takes its buffers. Where memory is refused, it is waited for. The first worker
    /// that starts waits for the others, and says how many are ready where some are missing.
    pub(crate) fn get_ready<R: Wait + Clock, V: Watch>(
        &self,
        rt: &R,
        alloc: Global,
        workers: &Workers<'_, V>,
    ) -> Buffers {
        let is_first = self.started.fetch_add(1, Ordering::SeqCst) == 0;
        let taken = workers.buffers(alloc);
        if taken.is_ok() {
            self.ready.fetch_add(1, Ordering::SeqCst);
        }
        if is_first {
            self.report(rt, workers);
        }
        match taken {
            Ok(buffers) => buffers,
            Err(_) => workers.wait_for_buffers(rt, alloc),
        }
    }

    /// Waits for the workers, and says how many are ready where some are missing.
    fn report<R: Clock, V: Watch>(&self, clock: &R, workers: &Workers<'_, V>) {
        let ready = self.wait_for_all(clock);
        if ready < self.asked {
            workers.report(ready, self.asked);
        }
    }

    /// Waits until all are ready, or for a while no further one was, and answers how many are.
    fn wait_for_all<R: Clock>(&self, clock: &R) -> u64 {
        let mut ready = self.ready.load(Ordering::SeqCst);
        let mut quiet = 0;
        for _ in 0..QUIET_LOOKS.saturating_mul(self.asked) {
            if ready >= self.asked || quiet >= QUIET_LOOKS {
                return ready;
            }
            thread::sleep(clock, Duration::from_millis(LOOK_MILLISECONDS));
            let now = self.ready.load(Ordering::SeqCst);
            quiet = if now == ready {
                quiet.saturating_add(1)
            } else {
                0
            };
            ready = now;
        }
        ready
    }
}
