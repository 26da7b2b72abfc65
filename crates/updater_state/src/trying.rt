//! How a try of a compaction ends under the lock.
ghost use Rattle.std.specs.Prelude.{◌≡◌, ◌⊎◌, ◌+◌, ◌≤◌, length};
ghost use Rattle.version_log.specs.Histories.{newest};
ghost use Rattle.updater_state.specs.Tries.{EndsTry, has_stood};
ghost use Rattle.updater_state.specs.Callers.{after_trying};

use crate::answer::{Answer, Filled};
use crate::caller::Caller;
use crate::fault::SwapFault;
use crate::locked::Core;
use crate::naming::Opening;
use commands::Seat;
use compactor::Compaction;
use std::sync::Wait;
use version_log::Published;

/// How a try of a compaction ends.
#[derive(Drop)]
pub enum Swapped<J: Opening> {
    /// Its entry is in the history.
    Stood(Answer<J>),
    /// Others wrote too much meanwhile.
    Behind,
    /// Others purged too much meanwhile.
    Overrun,
    /// Memory was refused.
    Memory,
    /// No place is left.
    Full(Filled<J>),
    /// The session has more calls than receipts.
    Lost,
}

impl<J: Opening> Swapped<J> {
    /// Whether the compaction has an entry.
    pub fn has_stood(&self) -> bool
        ensures { result ≡ has_stood self.now }
    {
        match self {
            Swapped::Stood(_) => true,
            Swapped::Behind
            | Swapped::Overrun
            | Swapped::Memory
            | Swapped::Full(_)
            | Swapped::Lost => false,
        }
    }
}

impl<R: Wait + Drop, J: Opening> Core<R, J> {
    /// Swaps the copy in and shows it, where what was published last goes on from what the session has seen, and the
    /// session has as many calls there as it has receipts. The caller counts the entry, or that the copy was behind.
    pub fn try_swap(
        &mut self,
        caller: &mut Caller<J>,
        seen: &Published<J>,
        copy: &mut Compaction,
        seat: Seat,
    ) -> Swapped<J>
        requires sliced { copy.old.left ≡ 0 }
        requires seen { copy.old.seen ≡ record { base = J.base; entries = newest seen.now } }
        requires next_call { seat.call ≡ caller.old.entered + 1 }
        ensures ends { EndsTry J.base J.config copy.old seat seen.now self.old self.new result }
        ensures counted { caller.new ≡ after_trying caller.old result }
        ensures copy { copy.new ≡ record copy.old { visited = copy.new.visited } }
    {
        if !seen.precedes(self.current()) {
            caller.count_behind();
            return Swapped::Behind;
        }
        if !self.may_swap(seat) {
            return Swapped::Lost;
        }
        match self.swap(caller, copy, seat) {
            Ok(answer) => shown(self, answer),
            Err(SwapFault::Full) => full(self),
            Err(SwapFault::Behind) => Swapped::Behind,
            Err(SwapFault::Overrun) => Swapped::Overrun,
            Err(SwapFault::Memory) => Swapped::Memory,
        }
    }
}

/// The entry is in the history. Where memory for showing it is refused, a later showing shows it.
fn shown<R: Wait + Drop, J: Opening>(core: &mut Core<R, J>, answer: Answer<J>) -> Swapped<J>
    ensures same { core.new ≡ core.old }
    ensures stood { result ≡ Swapped.Stood answer }
{
    let _shown = core.show();
    Swapped::Stood(answer)
}

/// No place is left.
fn full<R: Wait + Drop, J: Opening>(core: &Core<R, J>) -> Swapped<J>
    requires full { J.config.max_places ≤ length (newest core.now.published) }
    ensures full { (result ≡ Swapped.Full core.now.published) ⊎ (result ≡ Swapped.Memory) }
{
    match core.filled() {
        Ok(filled) => Swapped::Full(filled),
        Err(_) => Swapped::Memory,
    }
}
