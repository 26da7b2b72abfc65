//! What the threads of a run count.

use crate::tests::held::plan::{Plan, is_right};
use sessions::{Fault, Receipt};
use std::sync::atomic::{AtomicU64, Ordering};
use std::thread;
use std::time::{Clock, Duration};

/// How often a wait looks, once a millisecond.
const TURNS: u32 = 10_000;

/// What was counted by all threads.
#[derive(Drop)]
pub(crate) struct Tally {
    pub(crate) held: AtomicU64,
    pub(crate) pushed: AtomicU64,
    pub(crate) told: AtomicU64,
    /// Of each place of the first publication, 2 to its power; of the second one, and of the third.
    first: AtomicU64,
    second: AtomicU64,
    third: AtomicU64,
    pub(crate) seen: AtomicU64,
    pub(crate) full: AtomicU64,
    busy: AtomicU64,
    /// How many waits ended without what they waited for.
    late: AtomicU64,
    pub(crate) failed: AtomicU64,
}

/// What a tally comes to: the sums over the places of three publications, the places seen by looks, and
/// how many faults and late waits there were.
#[derive(Debug, Clone, Copy, PartialEq, Eq)]
pub(crate) struct Sums {
    pub(crate) first: u64,
    pub(crate) second: u64,
    pub(crate) third: u64,
    pub(crate) seen: u64,
    pub(crate) full: u64,
    pub(crate) busy: u64,
    pub(crate) late: u64,
    pub(crate) failed: u64,
}

pub(crate) fn add(count: &AtomicU64, number: u64) {
    count.fetch_add(number, Ordering::SeqCst);
}

fn load(count: &AtomicU64) -> u64 {
    count.load(Ordering::SeqCst)
}

/// 2 to the power of a place.
fn power_of_two(place: u64) -> Option<u64> {
    1u64.checked_shl(u32::try_from(place).ok()?)
}

/// Waits for so many turns until the count is there, and says whether it is.
fn comes(clock: &impl Clock, count: &AtomicU64, wanted: u64) -> bool {
    for _ in 0..TURNS {
        if load(count) >= wanted {
            return true;
        }
        thread::sleep(clock, Duration::from_millis(1));
    }
    false
}

impl Tally {
    pub(crate) fn new() -> Tally {
        Tally {
            held: AtomicU64::new(0),
            pushed: AtomicU64::new(0),
            told: AtomicU64::new(0),
            first: AtomicU64::new(0),
            second: AtomicU64::new(0),
            third: AtomicU64::new(0),
            seen: AtomicU64::new(0),
            full: AtomicU64::new(0),
            busy: AtomicU64::new(0),
            late: AtomicU64::new(0),
            failed: AtomicU64::new(0),
        }
    }

    pub(crate) fn sums(&self) -> Sums {
        Sums {
            first: load(&self.first),
            second: load(&self.second),
            third: load(&self.third),
            seen: load(&self.seen),
            full: load(&self.full),
            busy: load(&self.busy),
            late: load(&self.late),
            failed: load(&self.failed),
        }
    }

    /// Waits until the count is there. A wait that ends without it is late.
    pub(crate) fn wait_for(&self, clock: &impl Clock, count: &AtomicU64, wanted: u64) {
        if !comes(clock, count, wanted) {
            add(&self.late, 1);
        }
    }

    /// Counts a receipt or a fault of a session.
    pub(crate) fn count(&self, plan: &Plan, index: usize, told: Result<Receipt, Fault>) {
        match told {
            Ok(receipt) => self.count_receipt(plan, index, &receipt),
            Err(Fault::Full) => add(&self.full, 1),
            Err(Fault::Busy) => {
                add(&self.busy, 1);
                add(&self.told, 1);
            }
            Err(_fault) => add(&self.failed, 1),
        }
    }

    fn count_receipt(&self, plan: &Plan, index: usize, receipt: &Receipt) {
        if !is_right(plan, index, receipt) {
            return add(&self.failed, 1);
        }
        self.count_place(receipt.place, receipt.publication);
    }

    fn count_place(&self, place: u64, publication: u64) {
        let Some(power) = power_of_two(place) else {
            return add(&self.failed, 1);
        };
        match publication {
            1 => add(&self.first, power),
            2 => add(&self.second, power),
            3 => add(&self.third, power),
            _ => add(&self.failed, 1),
        }
    }
}

/// Of a run that counted nothing.
pub(crate) const NOTHING: Sums = Sums {
    first: 0,
    second: 0,
    third: 0,
    seen: 0,
    full: 0,
    busy: 0,
    late: 0,
    failed: 0,
};
