//! Up to which place of a history a journal has its entries, and what may be shown of it.
ghost use Rattle.std.specs.Prelude.{◌≡◌, ◌⊎◌, length, true, IfOk, Err};
ghost use mathlib.Core.List.{IsPrefix};
ghost use Rattle.session_api.specs.Known.{update_seq_of};
ghost use Rattle.durable_calls.specs.Kept.{IsShown};
ghost use Rattle.durable_calls.specs.declared.kept_place.NotShown.TheVariants as not_shown;

use crate::gathering::Gathering;
use crate::keeping::{FailureOf, Progress};
use crate::passes::{Pass, Passes};
use session_api::Viewer;
use std::hint::spin_loop;
use std::sync::atomic::Ordering::SeqCst;
use std::sync::atomic::{AtomicBool, AtomicIn, AtomicU64};
use std::sync::{Mutex, Wait};
use std::time::Duration;

/// The low bits of a count, by which those that sleep know it.
const LOW: u64 = 0xffff_ffff;

/// So often it is looked whether a pass of somebody else has ended, before the session sleeps until it has.
const LOOKS: u32 = 200;

/// So long a session sleeps after a pass that was refused.
const PAUSE_MILLISECONDS: u64 = 10;

/// After so many passes that were refused, one after another, a wait ends.
const MOST_REFUSED: u32 = 100;

/// Why what a session has seen may not be shown.
#[derive(Clone, Copy, Debug, PartialEq, Eq)]
pub enum NotShown {
    /// A write or a sync of the journal failed, or there is nobody who keeps it.
    Failed,
    /// For about a second the lines of new entries could not be made.
    Refused,
}

/// What those who keep a journal and the sessions say to one another. They share it by reference.
pub struct KeptPlace<G: Progress> {
    /// How far the journal has come.
    progress: Mutex<G>,
    /// The numbers of it, which are looked at before it is locked.
    appended: AtomicU64,
    kept: AtomicU64,
    limit: AtomicU64,
    failed: AtomicIn<FailureOf<G>>,
    /// How many passes have ended.
    ends: AtomicU64,
    /// How many sessions sleep until a pass ends, or are about to.
    sleepers: AtomicU64,
    /// The sessions that share a sync.
    gathering: Gathering,
    /// How often a session asked for the keeper.
    asked: AtomicU64,
    /// Whether there is a keeper.
    begun: AtomicBool,
    /// Whether the epoch ends, since its history is full and the next one is ready.
    over: AtomicBool,
    /// Whether no more entries come.
    ended: AtomicBool,
}

impl<G: Progress> Drop for KeptPlace<G> {
    fn drop(self) {
        let KeptPlace {
            progress: _,
            appended: _,
            kept: _,
            limit: _,
            failed: _,
            ends: _,
            sleepers: _,
            gathering: _,
            asked: _,
            begun: _,
            over: _,
            ended: _,
        } = self;
    }
}

impl<G: Progress> KeptPlace<G> {
    /// Of a journal that has come so far.
    pub fn new(progress: &G) -> KeptPlace<G> {
        KeptPlace {
            progress: Mutex::new(progress.again()),
            appended: AtomicU64::new(progress.appended()),
            kept: AtomicU64::new(progress.kept()),
            limit: AtomicU64::new(progress.limit()),
            failed: AtomicIn::new(0),
            ends: AtomicU64::new(0),
            sleepers: AtomicU64::new(0),
            gathering: Gathering::new(),
            asked: AtomicU64::new(0),
            begun: AtomicBool::new(false),
            over: AtomicBool::new(false),
            ended: AtomicBool::new(false),
        }
    }

    /// Says that there is a keeper. By itself.
    pub fn begin(&self) {
        self.begun.store(true, SeqCst);
        self.end_pass();
    }

    /// Waits at most so long for the keeper, and answers whether there is one.
    pub fn wait_for_keeper<X: Wait>(&self, rt: &X, patience: Duration) -> bool {
        let ended = self.ends.load(SeqCst);
        if !self.begun.load(SeqCst) {
            self.sleepers.fetch_add(1, SeqCst);
            self.ends.park_timeout(rt, (ended & LOW) as u32, patience);
            self.sleepers.fetch_sub(1, SeqCst);
        }
        self.begun.load(SeqCst)
    }

    /// Says how far the journal has come. In a pass.
    pub fn say<X: Wait>(&self, rt: &X, progress: &G) {
        *self.progress.lock(rt) = progress.again();
        self.appended.store(progress.appended(), SeqCst);
        self.kept.store(progress.kept(), SeqCst);
        self.limit.store(progress.limit(), SeqCst);
    }

    /// Says how far the journal has come by a sync. In a pass, behind it.
    pub fn say_synced<X: Wait>(&self, rt: &X, progress: &G) {
        self.say(rt, progress);
        self.gathering.expect_all();
    }

    /// Waits a while for sessions that are expected to share the sync of the pass. In a pass, before it.
    pub fn gather(&self) {
        self.gathering.gather();
    }

    /// Says that the journal has failed, to all that wait and to each write until it is mended.
    pub fn fail(&self)
        requires failed { G.has_failed }
    {
        self.failed.store(1, SeqCst);
        self.end_pass();
    }

    /// Says that the journal is whole again: it was written anew. By the keeper.
    pub fn mend(&self) {
        self.failed.store(0, SeqCst);
    }

    /// Says that a pass has ended, after the next one can begin. The system is called only where a session sleeps.
    pub fn end_pass(&self) {
        self.ends.fetch_add(1, SeqCst);
        if self.sleepers.load(SeqCst) > 0 {
            self.ends.wake_all();
        }
    }

    /// Whether the journal has failed.
    pub fn has_failed(&self) -> bool
        ensures failed { result ≡ true → G.has_failed }
    {
        self.failed.load(SeqCst) > 0
    }

    /// Waits until all that the session has seen may be shown, and learns how far the journal has come then. Passes are made here,
    /// unless somebody else makes one. Where enough is known already, nobody is asked.
    ///
    /// # Errors
    ///
    /// [`NotShown::Failed`] where the journal has failed, and [`NotShown::Refused`] where passes were refused for about a
    /// second.
    pub fn wait_for<S: Viewer, X: Wait, P: Passes<X>>(
        &self,
        rt: &X,
        passes: &P,
        session: &S,
        known: &mut G,
        awaits: bool,
    ) -> Result<(), NotShown>
        ensures shown { IfOk result (λ _. IsShown G.is_appended G.is_kept G.is_limit awaits
            (length (S.known session.now).seen) (update_seq_of (S.known session.now)) (G.journaled known.new)) }
        ensures learns { IsPrefix (G.journaled known.old) (G.journaled known.new) }
        ensures failed { result ≡ Err not_shown.Failed → G.has_failed }
    {
        let number = session.update_seq();
        let place = session.place();
        if known.covers(place, number, awaits) {
            return Ok(());
        }
        if !self.covers(place, number, awaits) {
            if awaits {
                self.gathering.begin_wait();
            }
            self.wait_by_passes(rt, passes, place, number, awaits)?;
        }
        self.learn(rt, known, place, number, awaits)
    }

    /// Waits until all that the session has seen may be shown, as long as that takes, or until the journal has failed. It learns how
    /// far the journal has come then.
    pub fn wait_until_shown<S: Viewer, X: Wait, P: Passes<X>>(
        &self,
        rt: &X,
        passes: &P,
        session: &S,
        known: &mut G,
        awaits: bool,
    )
        ensures shown { IsShown G.is_appended G.is_kept G.is_limit awaits
            (length (S.known session.now).seen) (update_seq_of (S.known session.now)) (G.journaled known.new) ⊎ G.has_failed }
        ensures learns { IsPrefix (G.journaled known.old) (G.journaled known.new) }
    {
        for _ in rt.forever() {
            match self.wait_for(rt, passes, session, known, awaits) {
                Ok(()) => return,
                Err(NotShown::Failed) => return,
                Err(NotShown::Refused) => {}
            }
        }
        unreachable!()
    }

    /// Learns how far the journal has come, which is far enough for what has so many entries and this update number to be shown.
    fn learn<X: Wait>(
        &self,
        rt: &X,
        known: &mut G,
        place: u64,
        number: u64,
        awaits: bool,
    ) -> Result<(), NotShown>
        ensures shown { IfOk result (λ _. IsShown G.is_appended G.is_kept G.is_limit awaits place number (G.journaled known.new)) }
        ensures learns { IsPrefix (G.journaled known.old) (G.journaled known.new) }
        ensures failed { result ≡ Err not_shown.Failed → G.has_failed }
    {
        known.learn(&self.progress.lock(rt));
        if !known.covers(place, number, awaits) {
            return Err(NotShown::Refused);
        }
        Ok(())
    }

    /// Makes passes, or waits for those of others, until what has so many entries and this update number may be shown.
    fn wait_by_passes<X: Wait, P: Passes<X>>(
        &self,
        rt: &X,
        passes: &P,
        place: u64,
        number: u64,
        awaits: bool,
    ) -> Result<(), NotShown>
        ensures failed { result ≡ Err not_shown.Failed → G.has_failed }
    {
        let mut refused = 0u32;
        for _ in rt.forever() {
            let ended = self.ends.load(SeqCst);
            if self.covers(place, number, awaits) {
                return Ok(());
            }
            if self.has_failed() {
                return Err(NotShown::Failed);
            }
            let syncs = awaits || self.limit.load(SeqCst) < number;
            match passes.try_pass(rt, syncs) {
                Pass::Made => {}
                Pass::Busy => self.wait_for_end(rt, ended),
                Pass::Refused => {
                    refused = refused.saturating_add(1);
                    if refused > MOST_REFUSED {
                        return Err(NotShown::Refused);
                    }
                    self.pause(rt);
                }
            }
        }
        unreachable!()
    }

    /// Whether the numbers say that what has so many entries and this update number may be shown.
    fn covers(&self, place: u64, number: u64, awaits: bool) -> bool {
        let appended = self.appended.load(SeqCst);
        let limit = self.limit.load(SeqCst);
        if appended < place || limit < number {
            return false;
        }
        !awaits || self.kept.load(SeqCst) >= place
    }

    /// Looks for a while whether a pass has ended since so many had, and then sleeps until one has.
    fn wait_for_end<X: Wait>(&self, rt: &X, ended: u64) {
        for _ in 0..LOOKS {
            if self.ends.load(SeqCst) != ended {
                return;
            }
            spin_loop();
        }
        self.sleepers.fetch_add(1, SeqCst);
        self.ends.park(rt, (ended & LOW) as u32);
        self.sleepers.fetch_sub(1, SeqCst);
    }

    /// Sleeps for a while, at most until another pass ends.
    fn pause<X: Wait>(&self, rt: &X) {
        let ended = self.ends.load(SeqCst);
        self.sleepers.fetch_add(1, SeqCst);
        self.ends.park_timeout(
            rt,
            (ended & LOW) as u32,
            Duration::from_millis(PAUSE_MILLISECONDS),
        );
        self.sleepers.fetch_sub(1, SeqCst);
    }

    /// How often the keeper was asked for.
    pub fn asked(&self) -> u64 {
        self.asked.load(SeqCst)
    }

    /// Asks for the keeper.
    pub fn ask(&self) {
        self.asked.fetch_add(1, SeqCst);
        self.asked.wake_one();
    }

    /// Sleeps until the keeper is asked for, unless it was since this was the count, or until the pause ends.
    pub fn sleep_until_asked<X: Wait>(&self, rt: &X, asked: u64, pause: Duration) {
        self.asked.park_timeout(rt, (asked & LOW) as u32, pause);
    }

    /// Says that the epoch ends, since its history is full and the next one is ready. By the keeper.
    pub fn finish(&self) {
        self.over.store(true, SeqCst);
    }

    /// Whether the epoch ends.
    pub fn is_over(&self) -> bool {
        self.over.load(SeqCst)
    }

    /// The flag by which sessions are served until the epoch ends.
    pub fn over(&self) -> &AtomicBool {
        &self.over
    }

    /// Says that no more entries come, so that the keeper may end.
    pub fn end(&self) {
        self.ended.store(true, SeqCst);
        self.ask();
    }

    /// Whether no more entries come.
    pub fn has_ended(&self) -> bool {
        self.ended.load(SeqCst)
    }
}
