//! The keeper of a journal, who does what time brings.
ghost use Rattle.std.specs.Prelude.{◌≡◌, ◌⊎◌, ◌-◌, true, nat_le, Some, None};
ghost use Rattle.std.specs.Time.{instant_nanos};
ghost use Rattle.journal_front.specs.Server.{sync_nanoseconds};

use crate::epochs::Epochs;
use crate::journaled::Journaled;
use crate::naming::Keeping;
use crate::notices::Notices;
use crate::retry::Retry;
use crate::service::Service;
use durable_calls::KeptPlace;
use journal::Appended;
use std::sync::Wait;
use std::time::{Clock, Duration, Instant};

/// So long the keeper sleeps between its passes, unless it is asked for one.
const PAUSE_MILLISECONDS: u64 = 100;

/// So long after a sync the time of the next one has come, where there is one each second: a pause of the keeper may follow.
const SYNC_MILLISECONDS: u64 = 900;

/// What became of a turn of the keeper.
#[derive(Clone, Copy, Debug, PartialEq, Eq)]
pub(crate) enum Turn {
    /// There is nothing more to do now.
    Done,
    /// The disk refused what was tried.
    Refused,
    /// The next epoch has begun, and this one is over.
    Over,
}

/// What a keeper does, one time after another.
pub(crate) trait Upkeep<R, F: Appended, N: Keeping, L: Notices<F>, E: Epochs<F>> {
    /// A pass of the keeper, for which it waits. With `tries` a broken journal is written anew, or where the history is full the
    /// next epoch begins, and this one ends.
    fn keep(
        &self,
        rt: &R,
        service: &Service<'_, L>,
        epochs: &mut E,
        syncs: bool,
        tries: bool,
    ) -> Turn;
}

/// Makes passes of the journal until no more entries come: it syncs as the policy says, writes the journal anew once it is broken,
/// and where the history is full begins the next epoch, and ends this one. What the disk refuses is tried again.
pub(crate) fn keep<
    R: Wait + Clock,
    P: Upkeep<R, F, N, L, E>,
    F: Appended,
    N: Keeping,
    L: Notices<F>,
    E: Epochs<F>,
>(rt: &R, service: &Service<'_, L>, pen: &P, place: &KeptPlace<Journaled<N>>, epochs: &mut E) {
    let mut synced = Instant::now(rt).ok();
    let mut retry = Retry::new();
    place.begin();
    for _ in rt.forever() {
        let asked = place.asked();
        let last = place.has_ended();
        let time = Instant::now(rt).ok();
        let syncs = service.policy.is_due(last, has_come(synced, time));
        if syncs {
            synced = time;
        }
        let tries = last || retry.is_due(time);
        match pen.keep(rt, service, epochs, syncs, tries) {
            Turn::Over => return,
            Turn::Refused => retry = retry.later(Instant::now(rt).ok()),
            Turn::Done if tries => retry = Retry::new(),
            Turn::Done => {}
        }
        if last {
            return;
        }
        place.sleep_until_asked(rt, asked, Duration::from_millis(PAUSE_MILLISECONDS));
    }
    unreachable!()
}

/// Whether the time of a sync has come, after one at the first time. It has where the clock can't be read.
fn has_come(synced: Option<Instant>, time: Option<Instant>) -> bool
    ensures come { (before here : Instant) → synced ≡ Some before → time ≡ Some here
        → result ≡ nat_le sync_nanoseconds (instant_nanos here - instant_nanos before) }
    ensures unknown { (synced ≡ None) ⊎ (time ≡ None) → result ≡ true }
{
    match (synced, time) {
        (Some(before), Some(here)) => {
            here.duration_since(before) >= Duration::from_millis(SYNC_MILLISECONDS)
        }
        _ => true,
    }
}
