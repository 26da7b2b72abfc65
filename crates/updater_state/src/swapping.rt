//! The end of a compaction: its copy is swapped in.
ghost use Rattle.std.specs.Prelude.{◌≡◌, ◌≢◌, ◌↔◌, ◌+◌, ◌<◌, ◌≤◌, [], ◌∷◌, true, false, Err, length, IfOk, OnErr, OnOk};
ghost use Rattle.model.specs.Command.{Done};
ghost use Rattle.model.specs.Database.{calls_of};
ghost use Rattle.model.specs.History.{now, replay, Extends, base_of};
ghost use Rattle.model.specs.Compaction.{touched};
ghost use Rattle.model.specs.PurgeLog.{is_overrun};
ghost use Rattle.version_log.specs.Histories.{newest};
ghost use Rattle.updater_state.specs.Callers.{after_swapping};
ghost use Rattle.updater_state.specs.State.{published_with};
ghost use Rattle.updater_state.specs.Swaps.{HasPlace, Swaps, IsSwap, latest_of, compaction_of, may_swap, is_past, behind_by};
ghost use Rattle.updater_state.specs.declared.fault.SwapFault.TheVariants.{Full, Behind, Overrun, Memory};

use crate::answer::{Answer, Filled};
use crate::caller::Caller;
use crate::fault::SwapFault;
use crate::locked::Core;
use crate::naming::Opening;
use crate::publication::put_in_place;
use commands::{Command, Job, Reply, ReplyKind, Seat};
use compactor::Compaction;
use std::alloc::{AllocError, Global};
use std::sync::{Arc, Wait};
use updater::may_join;
use version_log::{Book, Naming, Published};

/// Publishes the version with the copy, or nothing. The log's step is the last: what grows, grew before
/// it. The answer is what was published, and once more with the compaction's entry.
fn publish_copy<J: Naming>(
    alloc: Global,
    book: &Book<J>,
    current: &Published<J>,
    copy: &mut Compaction,
    seat: Seat,
    slack: u64,
) -> Result<(Published<J>, Answer<J>), SwapFault>
    requires sliced { copy.old.left ≡ 0 }
    requires follows { Extends (record { base = J.base; entries = newest current.now }) copy.old.seen }
    requires next { seat.call ≡ calls_of (replay (base_of J.base) (newest current.now)) seat.session + 1 }
    requires room { length (newest current.now) < 4294967295 }
    ensures found { IfOk result (λ p. p.0 ≡ published_with J.base current.now (compaction_of seat ∷ [])) }
    ensures answer { IfOk result (λ p. p.1 ≡ record { published = p.0; place = length (newest current.now) + 1; reply = Done }) }
    ensures overrun { (result ≡ Err Overrun) ↔ (is_overrun (replay (base_of J.base) (newest current.now)).purges copy.old.marks.purge ≡ true) }
    ensures behind { (result ≡ Err Behind) ↔ ((is_overrun (replay (base_of J.base) (newest current.now)).purges copy.old.marks.purge ≡ false)
        × (slack < length (touched (replay (base_of J.base) (newest current.now)) copy.old.marks))) }
    ensures room_left { result ≢ Err Full }
    ensures visits { copy.new.visited ≤ slack }
    ensures copy { copy.new ≡ record copy.old { visited = copy.new.visited } }
{
    let latest = current.version();
    let version = copy.finish(latest, seat, slack)?;
    let Ok(shared) = Arc::new(alloc, version) else {
        return Err(SwapFault::Memory);
    };
    let again = Arc::try_clone(&shared)?;
    let place = shared.place();
    let mut front = current.front().again();
    if !front.publish(book, &shared) {
        return Err(SwapFault::Memory);
    }
    let found = Published::new(shared, front.again());
    let answered = Published::new(again, front);
    let _recalled = answered.publication();
    Ok((
        found,
        Answer::new(answered, place, Reply::new(ReplyKind::Done)),
    ))
}

impl<R: Wait + Drop, J: Opening> Core<R, J> {
    /// Whether a compaction of this seat may be swapped in: it is its session's next call, and no job of
    /// the batch is of the session.
    pub fn may_swap(&self, seat: Seat) -> bool
        ensures { result ≡ may_swap J.base self.now seat }
    {
        let job = Job {
            seat,
            command: Command::compact(),
        };
        may_join(self.current.version(), self.batch.as_slice(), &job)
    }

    /// Swaps the copy of a compaction in: the history gains one entry of that seat, with one publication.
    /// The copy takes over what was touched since, which is at most the configuration's slack. Where no place is left, the
    /// copy is behind or overrun, or memory is refused, all stays as it was.
    ///
    /// All that grows, grows before the entry is added. The caller counts the entry, or that the copy was behind.
    pub fn swap(
        &mut self,
        caller: &mut Caller<J>,
        copy: &mut Compaction,
        seat: Seat,
    ) -> Result<Answer<J>, SwapFault>
        requires sliced { copy.old.left ≡ 0 }
        requires follows { Extends (latest_of J.base self.old) copy.old.seen }
        requires next { may_swap J.base self.old seat ≡ true }
        requires next_call { seat.call ≡ caller.old.entered + 1 }
        ensures swaps { OnOk result (Swaps J.base J.config copy.old seat self.old self.new) }
        ensures answer { IfOk result (λ answer. answer ≡ record { published = self.new.published; place = length (newest self.old.published) + 1; reply = Done }) }
        ensures kept { OnErr result (self.new ≡ self.old) }
        ensures counted { caller.new ≡ after_swapping caller.old result }
        ensures event { result ≢ Err Memory → IsSwap J.base J.config copy.old seat.session self.old self.new }
        ensures full { (result ≡ Err Full) ↔ (J.config.max_places ≤ length (newest self.old.published)) }
        ensures overrun { (result ≡ Err Overrun) ↔ (HasPlace J.config.max_places self.old × (is_past J.base copy.old self.old ≡ true)) }
        ensures behind { (result ≡ Err Behind) ↔ (HasPlace J.config.max_places self.old × (is_past J.base copy.old self.old ≡ false)
            × (J.config.slack < behind_by J.base copy.old self.old)) }
        ensures visits { result ≢ Err Full → copy.new.visited ≤ J.config.slack }
        ensures no_visits { result ≡ Err Full → copy.new ≡ copy.old }
        ensures copy { copy.new ≡ record copy.old { visited = copy.new.visited } }
    {
        if self.room() == 0 {
            return Err(SwapFault::Full);
        }
        match publish_copy(
            self.alloc,
            &self.book,
            &self.current,
            copy,
            seat,
            self.slack as u64,
        ) {
            Ok((found, answer)) => {
                put_in_place(&mut self.current, found);
                caller.count_entry(seat.call());
                Ok(answer)
            }
            Err(fault) => {
                caller.count_fault(fault);
                Err(fault)
            }
        }
    }

    /// The version that was published last, which has no place left.
    pub fn filled(&self) -> Result<Filled<J>, AllocError>
        requires full { J.config.max_places ≤ length (newest self.now.published) }
        ensures same { IfOk result (λ filled. filled ≡ self.now.published) }
    {
        let found = self.current.share()?;
        Ok(Filled::new(found))
    }
}
