//! How many sessions share a sync.
use std::sync::atomic::AtomicU64;
use std::sync::atomic::Ordering::SeqCst;
use std::thread;

/// So often others are let run before a sync, while fewer sessions wait for it than are expected.
const YIELDS: u32 = 1000;

/// Counts the sessions that wait for a sync, so that one waits for those that the last one answered: they write again meanwhile.
/// A session that is alone waits for nobody.
#[derive(Drop)]
pub(crate) struct Gathering {
    /// How many waits for a sync have begun.
    begun: AtomicU64,
    /// How many of them the syncs so far cover.
    covered: AtomicU64,
    /// How many the last sync covered.
    group: AtomicU64,
    /// How many the next one is expected to cover.
    expected: AtomicU64,
}

impl Gathering {
    /// Nobody waits.
    pub(crate) fn new() -> Gathering {
        Gathering {
            begun: AtomicU64::new(0),
            covered: AtomicU64::new(0),
            group: AtomicU64::new(0),
            expected: AtomicU64::new(0),
        }
    }

    /// Says that a session waits whose entries are in the history.
    pub(crate) fn begin_wait(&self) {
        self.begun.fetch_add(1, SeqCst);
    }

    /// How many wait that no sync has covered.
    fn uncovered(&self) -> u64 {
        let covered = self.covered.load(SeqCst);
        self.begun.load(SeqCst).saturating_sub(covered)
    }

    /// Lets others run for a while, until as many sessions wait as are expected. By one at a time, before a sync, which then
    /// covers all that wait.
    pub(crate) fn gather(&self) {
        let expected = self.expected.load(SeqCst);
        for _ in 0..YIELDS {
            if self.uncovered() >= expected {
                break;
            }
            thread::yield_now();
        }
        let begun = self.begun.load(SeqCst);
        let covered = self.covered.swap(begun, SeqCst);
        self.group.store(begun.saturating_sub(covered), SeqCst);
    }

    /// Expects those whom the sync covered that has ended, and those who wait since it began.
    pub(crate) fn expect_all(&self) {
        let group = self.group.load(SeqCst);
        self.expected
            .store(group.saturating_add(self.uncovered()), SeqCst);
    }
}
