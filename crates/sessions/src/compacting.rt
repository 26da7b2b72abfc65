//! How a session compacts.
ghost use Rattle.std.specs.Prelude.{◌≡◌, ◌+◌, length, true, false, Err, IfOk, IfErr, IfSome, IfNone, IsSome};
ghost use Rattle.model.specs.Command.{Compact};
ghost use Rattle.model.specs.History.{Extends};
ghost use Rattle.version_log.specs.Histories.{newest};
ghost use Rattle.updater_state.specs.Callers.{risen, after_trying};
ghost use Rattle.updater_state.specs.Tries.{has_stood};
ghost use Rattle.sessions.specs.Known.{seen, settled};
ghost use Rattle.sessions.specs.Calls.{Looks, Writes, next_seat};
ghost use Rattle.sessions.specs.Compactions.{Leaves, LeavesTry, OnlyLooks, after_try, entered_by, chronicle_of};
ghost use Rattle.sessions.specs.Answered.{AnswersTry};
ghost use Rattle.sessions.specs.Faults.{IsOfCompaction};
ghost use Rattle.sessions.specs.declared.fault.Fault.TheVariants as fault;

use crate::copying::{catch_up_all, slice_all};
use crate::fault::Fault;
use crate::receipt::Receipt;
use crate::session::Session;
use crate::shared::Shared;
use commands::{Command, Seat};
use compactor::Compaction;
use std::sync::Wait;
use updater_state::{Answer, Caller, Core, Gate, Opening, Point, Swapped};
use version_log::Published;

impl<R: Wait + Drop, J: Opening, G: Gate + Drop> Session<Core<R, J>, J, G> {
    /// Compacts the database, while others read and write. It makes a copy of what it sees, which
    /// catches up with what was written meanwhile, and waits for the updater's lock only to swap the
    /// copy in, as often as it may be tried: it is `Behind` after as many tries that were.
    ///
    /// After a fault but `Lost` it learned of no entry, and the next receipt has exactly the calls with a receipt.
    pub fn compact<W: Wait>(&mut self, rt: &W) -> Result<Receipt, Fault>
        ensures receipt { IfOk result (λ receipt. Writes J.base self.old Compact receipt self.new) }
        ensures refused { IfErr result IsOfCompaction }
        ensures memory { result ≡ Err fault.Memory → OnlyLooks J.base self.old self.new }
        ensures behind { result ≡ Err fault.Behind → OnlyLooks J.base self.old self.new }
        ensures tried { result ≡ Err fault.Behind → self.new.tried ≡ risen self.old.tried J.config.tries }
        ensures overrun { result ≡ Err fault.Overrun → OnlyLooks J.base self.old self.new }
        ensures entry_refused { result ≡ Err fault.EntryRefused → OnlyLooks J.base self.old self.new }
        ensures full { result ≡ Err fault.Full → OnlyLooks J.base self.old self.new }
        ensures when_full { result ≡ Err fault.Full → length (seen self.new) ≡ J.config.max_places }
        ensures lost { result ≡ Err fault.Lost → Looks J.base (record self.old { tried = self.new.tried; entered = self.new.entered; lost = true }) self.new }
        ensures for_ever { self.old.lost ≡ true → result ≡ Err fault.Lost }
        ensures for_ever_same { self.old.lost ≡ true → self.new ≡ self.old }
        ensures pushes { self.new.pushes ≡ self.old.pushes }
    {
        let _recalled = self.place();
        if self.lost {
            return Err(Fault::Lost);
        }
        self.refresh()?;
        self.compact_seen(rt)
    }

    /// Compacts what was seen.
    fn compact_seen<W: Wait>(&mut self, rt: &W) -> Result<Receipt, Fault>
        requires known { self.old.lost ≡ false }
        ensures receipt { IfOk result (λ receipt. Writes J.base self.old Compact receipt self.new) }
        ensures fault { IfErr result (λ e. Leaves J.base J.config e self.old self.new) }
        ensures pushes { self.new.pushes ≡ self.old.pushes }
    {
        let _recalled = self.place();
        let mut copy = Compaction::start(self.alloc, self.version())?;
        self.compact_with(rt, &mut copy)
    }

    /// Makes the copy and has it swapped in, as often as that may be tried.
    fn compact_with<W: Wait>(&mut self, rt: &W, copy: &mut Compaction) -> Result<Receipt, Fault>
        requires known { self.old.lost ≡ false }
        requires follows { Extends (chronicle_of J.base self.old) copy.old.seen }
        ensures receipt { IfOk result (λ receipt. Writes J.base self.old Compact receipt self.new) }
        ensures fault { IfErr result (λ e. Leaves J.base J.config e self.old self.new) }
        ensures pushes { self.new.pushes ≡ self.old.pushes }
    {
        let _recalled = self.place();
        slice_all(&self.shared, self.number, copy)?;
        for _try in 0..self.shared.tries() {
            if let Some(receipt) = self.attempt(rt, copy)? {
                return Ok(receipt);
            }
        }
        Err(Fault::Behind)
    }

    /// Has the copy catch up with what is published now, and swaps it in; no receipt where others wrote
    /// too much meanwhile, and the session was behind once more.
    fn attempt<W: Wait>(&mut self, rt: &W, copy: &mut Compaction) -> Result<Option<Receipt>, Fault>
        requires known { self.old.lost ≡ false }
        requires sliced { copy.old.left ≡ 0 }
        requires follows { Extends (chronicle_of J.base self.old) copy.old.seen }
        ensures receipt { IfOk result (λ found. IfSome found (λ receipt. Writes J.base self.old Compact receipt self.new)) }
        ensures behind { IfOk result (λ found. IfNone found (Looks J.base (record self.old { tried = risen self.old.tried 1 }) self.new)) }
        ensures sliced { IfOk result (λ found. IfNone found (copy.new.left ≡ 0)) }
        ensures follows { IfOk result (λ found. IfNone found (Extends (chronicle_of J.base self.new) copy.new.seen)) }
        ensures fault { IfErr result (λ e. LeavesTry J.base J.config e self.old self.new) }
        ensures pushes { self.new.pushes ≡ self.old.pushes }
    {
        let _recalled = self.place();
        self.refresh()?;
        self.swap_seen(rt, copy)
    }

    /// Has the copy catch up with what was seen, and swaps it in.
    fn swap_seen<W: Wait>(
        &mut self,
        rt: &W,
        copy: &mut Compaction,
    ) -> Result<Option<Receipt>, Fault>
        requires known { self.old.lost ≡ false }
        requires sliced { copy.old.left ≡ 0 }
        requires follows { Extends (chronicle_of J.base self.old) copy.old.seen }
        ensures receipt { IfOk result (λ found. IfSome found (λ receipt. Writes J.base self.old Compact receipt self.new)) }
        ensures behind { IfOk result (λ found. IfNone found (self.new ≡ record self.old { tried = risen self.old.tried 1 })) }
        ensures sliced { IfOk result (λ found. IfNone found (copy.new.left ≡ 0)) }
        ensures follows { IfOk result (λ found. IfNone found (copy.new.seen ≡ chronicle_of J.base self.new)) }
        ensures fault { IfErr result (λ e. LeavesTry J.base J.config e self.old self.new) }
        ensures pushes { self.new.pushes ≡ self.old.pushes }
    {
        let _recalled = self.place();
        catch_up_all(&self.shared, copy, self.latest.version())?;
        self.shared.gate.at(Point::CaughtUp, self.number);
        let seat = self.seat();
        let swapped = self.try_swap(rt, copy, seat);
        self.settle_swap(swapped, seat)
    }

    /// Takes the lock and tries to swap the copy in, which has seen what the session has seen. Where the compaction has
    /// an entry, the session is lost until it has a receipt.
    fn try_swap<W: Wait>(&mut self, rt: &W, copy: &mut Compaction, seat: Seat) -> Swapped<J>
        requires known { self.old.lost ≡ false }
        requires sliced { copy.old.left ≡ 0 }
        requires seen { copy.old.seen ≡ chronicle_of J.base self.old }
        requires seat { seat ≡ next_seat self.old }
        ensures counted { self.new ≡ after_try self.old result }
        ensures copy { copy.new ≡ record copy.old { visited = copy.new.visited } }
    {
        let _recalled = self.place();
        let swapped = swap(rt, &self.shared, &mut self.caller, &self.latest, copy, seat);
        self.lost = swapped.has_stood();
        swapped
    }
}

/// Takes the lock and tries to swap the copy in, which has seen what the session has seen.
fn swap<R: Wait + Drop, J: Opening, G: Gate + Drop, W: Wait>(
    rt: &W,
    shared: &Shared<Core<R, J>, J, G>,
    caller: &mut Caller<J>,
    seen: &Published<J>,
    copy: &mut Compaction,
    seat: Seat,
) -> Swapped<J>
    requires sliced { copy.old.left ≡ 0 }
    requires seen { copy.old.seen ≡ record { base = J.base; entries = newest seen.now } }
    requires next_call { seat.call ≡ caller.old.entered + 1 }
    ensures counted { caller.new ≡ after_trying caller.old result }
    ensures copy { copy.new ≡ record copy.old { visited = copy.new.visited } }
{
    let mut core = shared.core.lock(rt);
    shared.gate.at(Point::Finishing, seat.session());
    core.try_swap(caller, seen, copy, seat)
}

impl<C: Drop, J: Opening, G: Drop> Session<C, J, G> {
    /// What became of a try.
    fn settle_swap(&mut self, swapped: Swapped<J>, seat: Seat) -> Result<Option<Receipt>, Fault>
        requires seat { seat ≡ next_seat self.old }
        requires entered { self.old.entered ≡ entered_by (length self.old.receipts) swapped }
        requires lost { self.old.lost ≡ has_stood swapped }
        ensures answers { AnswersTry swapped result }
        ensures receipt { IfOk result (λ found. IfSome found (λ receipt. Writes J.base (settled self.old) Compact receipt self.new)) }
        ensures behind { IfOk result (λ found. IfNone found (self.new ≡ settled self.old)) }
        ensures fault { IfErr result (λ e. LeavesTry J.base J.config e (settled self.old) self.new) }
        ensures pushes { self.new.pushes ≡ self.old.pushes }
    {
        let _recalled = self.place();
        match swapped {
            Swapped::Stood(answer) => self.receive_swap(answer, seat),
            Swapped::Behind => Ok(None),
            Swapped::Overrun => Err(Fault::Overrun),
            Swapped::Memory => Err(Fault::Memory),
            Swapped::Full(filled) => Err(self.receive_full(filled)),
            Swapped::Lost => Err(self.lose()),
        }
    }

    /// The compaction has an entry.
    fn receive_swap(&mut self, answer: Answer<J>, seat: Seat) -> Result<Option<Receipt>, Fault>
        requires seat { seat ≡ next_seat self.old }
        requires entered { self.old.entered ≡ length self.old.receipts + 1 }
        ensures receipt { IfOk result (λ found. IfSome found (λ receipt. Writes J.base (settled self.old) Compact receipt self.new)) }
        ensures some { IfOk result IsSome }
        ensures lost { IfErr result (λ e. e ≡ fault.Lost) }
        ensures lost_same { IfErr result (λ _. self.new ≡ record self.old { lost = true }) }
        ensures pushes { self.new.pushes ≡ self.old.pushes }
    {
        let _recalled = self.place();
        let receipt = self.receive(answer, &Command::compact(), seat)?;
        Ok(Some(receipt))
    }
}
