//! How a session writes.
ghost use Rattle.std.specs.Prelude.{◌≡◌, ◌⊎◌, ◌+◌, ◌<◌, ◌≤◌, ◌^◌, length, true, false, Err, IfOk, IfErr, IfSome, IfNone, IsTrue};
ghost use mathlib.Core.List.{IsPrefix};
ghost use Rattle.model.specs.History.{of_session};
ghost use Rattle.model.specs.World.{is_compact};
ghost use Rattle.version_log.specs.Histories.{newest, Grows};
ghost use Rattle.updater_state.specs.Callers.{entered_with};
ghost use Rattle.updater_state.specs.Outcomes.{has_entry};
ghost use Rattle.sessions.specs.Known.{seen, settled};
ghost use Rattle.sessions.specs.Answered.{Answers};
ghost use Rattle.sessions.specs.Calls.{Looks, Writes, IsTold, next_seat};
ghost use Rattle.sessions.specs.Faults.{IsOfWrite, IsOfOutcome};
ghost use Rattle.sessions.specs.declared.fault.Fault.TheVariants as fault;

use crate::ahead::prepare;
use crate::fault::Fault;
use crate::receipt::Receipt;
use crate::session::{Session, calls_of};
use crate::shared::Shared;
use commands::{Command, Copied, Job, Seat};
use snapshots::Version;
use std::alloc::Global;
use std::sync::Wait;
use std::thread;
use updater_state::{Answer, Core, Filled, Gate, Opening, Outcome, OutcomeKind, Point, Told};
use version_log::Published;

/// How often a session that waits for its outcome looks for it and yields, before it sleeps.
const YIELDS: u32 = 1_000;

impl<R: Wait + Drop, J: Opening, G: Gate + Drop> Session<Core<R, J>, J, G> {
    /// Writes a command, which is no compaction. It waits until another session has published it, or
    /// until it has the updater's lock, under which it publishes batches of jobs until its own is answered.
    ///
    /// After a fault but `Lost` it learned of no entry, and the next receipt has exactly the calls with a receipt.
    pub fn write<W: Wait>(&mut self, rt: &W, command: Command) -> Result<Receipt, Fault>
        requires edits { is_compact command ≡ false }
        ensures receipt { IfOk result (λ receipt. Writes J.base self.old command receipt self.new) }
        ensures refused { IfErr result IsOfWrite }
        ensures memory { result ≡ Err fault.Memory → self.new ≡ record self.old { pushes = self.new.pushes } }
        ensures busy { result ≡ Err fault.Busy → self.new ≡ self.old }
        ensures when_busy { result ≡ Err fault.Busy → (J.capacity < J.sessions) ⊎ (2 ^ 62 ≤ self.old.pushes) }
        ensures full { result ≡ Err fault.Full → Looks J.base (record self.old { pushes = self.new.pushes }) self.new }
        ensures when_full { result ≡ Err fault.Full → length (seen self.new) ≡ J.config.max_places }
        ensures lost { result ≡ Err fault.Lost → self.new ≡ record self.old { pushes = self.new.pushes; entered = self.new.entered; lost = true } }
        ensures for_ever { self.old.lost ≡ true → result ≡ Err fault.Lost }
        ensures for_ever_same { self.old.lost ≡ true → self.new ≡ self.old }
        ensures pushes { self.new.pushes ≤ self.old.pushes + 1 }
    {
        if self.lost {
            return Err(Fault::Lost);
        }
        let _recalled = self.place();
        let Ok(asked) = command.copy(self.alloc) else {
            return Err(Fault::Memory);
        };
        let seat = self.seat();
        if !self.ask(rt, Job { seat, command }) {
            return Err(Fault::Busy);
        }
        let Some(outcome) = self.wait_for_outcome(rt, &asked, seat) else {
            return Err(Fault::Lost);
        };
        self.settle(outcome, &asked, seat)
    }

    /// Pushes the job, and says whether there was room. Until there is an outcome, the session is lost.
    fn ask<W: Wait>(&mut self, rt: &W, job: Job) -> bool
        requires known { self.old.lost ≡ false }
        requires own { job.seat.session ≡ self.old.number }
        ensures pushed { IsTrue result → self.new ≡ record self.old { pushes = self.old.pushes + 1; lost = true } }
        ensures kept { result ≡ false → self.new ≡ self.old }
        ensures busy { result ≡ false → (J.capacity < J.sessions) ⊎ (2 ^ 62 ≤ self.old.pushes) }
    {
        if self.caller.push(rt, &self.shared.queue, job).is_err() {
            return false;
        }
        self.lost = true;
        true
    }

    /// Waits until the session learns what became of its job. Where that has an entry, the session is lost until it
    /// has a receipt.
    fn wait_for_outcome<W: Wait>(
        &mut self,
        rt: &W,
        asked: &Command,
        seat: Seat,
    ) -> Option<Outcome<J>>
        requires seat { seat ≡ next_seat self.old }
        requires receipts { self.old.entered ≡ length self.old.receipts }
        ensures some { IfSome result (λ outcome. self.new ≡ record self.old { entered = entered_with self.old.entered outcome; lost = has_entry outcome }) }
        ensures none { IfNone result (self.new ≡ record self.old { lost = true }) }
    {
        self.lost = true;
        self.shared.gate.at(Point::Pushed, self.number);
        let told = await_told(
            rt,
            self.alloc,
            &self.shared,
            self.number,
            self.latest.version(),
            asked,
        )?;
        let outcome = self.caller.learn(&self.shared.queue, told, seat.call())?;
        self.lost = outcome.has_entry();
        Some(outcome)
    }
}

/// Waits until the session learns what became of its job: from the holder of the lock, in its mailbox, or by itself,
/// where it gets the lock. Where it doesn't at once, it prepares for the updater's work; then it yields for a while,
/// and then it sleeps until it gets the lock.
fn await_told<R: Wait + Drop, J: Opening, G: Gate + Drop, W: Wait>(
    rt: &W,
    alloc: Global,
    shared: &Shared<Core<R, J>, J, G>,
    session: u16,
    seen: &Version,
    asked: &Command,
) -> Option<Told<J>> {
    for turn in 0..=YIELDS {
        if let Some(told) = shared.mailboxes.take(session) {
            return Some(told);
        }
        if let Some(mut core) = shared.core.try_lock() {
            return serve(rt, shared, &mut core, session);
        }
        match turn {
            0 => prepare(alloc, seen, asked),
            _ => thread::yield_now(),
        }
    }
    let mut core = shared.core.lock(rt);
    serve(rt, shared, &mut core, session)
}

/// Does the updater's work until the session's outcome is known, unless it was before, and notifies the others.
fn serve<R: Wait + Drop, J: Opening, G: Gate + Drop, W: Wait>(
    rt: &W,
    shared: &Shared<Core<R, J>, J, G>,
    core: &mut Core<R, J>,
    session: u16,
) -> Option<Told<J>> {
    if let Some(told) = shared.mailboxes.take(session) {
        return Some(told);
    }
    let limits = shared.config.limits();
    let told = core.serve(rt, &shared.queue, &shared.gate, session, limits.queue);
    shared
        .mailboxes
        .leave_all(rt, &shared.queue, core, limits.sessions);
    told
}

impl<C: Drop, J: Opening, G: Drop> Session<C, J, G> {
    /// The seat of the next call.
    pub(crate) fn seat(&self) -> Seat
        ensures { result ≡ next_seat self.now }
    {
        let _recalled = self.latest.version().place();
        let Some(seat) = Seat::new(self.number, self.calls + 1) else {
            unreachable!()
        };
        seat
    }

    /// What became of the call, by what became of its job.
    fn settle(&mut self, outcome: Outcome<J>, asked: &Command, seat: Seat) -> Result<Receipt, Fault>
        requires seat { seat ≡ next_seat self.old }
        requires entered { self.old.entered ≡ entered_with (length self.old.receipts) outcome }
        requires lost { self.old.lost ≡ has_entry outcome }
        ensures answers { Answers outcome result }
        ensures receipt { IfOk result (λ receipt. Writes J.base (settled self.old) asked.now receipt self.new) }
        ensures refused { IfErr result IsOfOutcome }
        ensures memory { result ≡ Err fault.Memory → self.new ≡ settled self.old }
        ensures full { result ≡ Err fault.Full → Looks J.base (settled self.old) self.new }
        ensures when_full { result ≡ Err fault.Full → length (seen self.new) ≡ J.config.max_places }
        ensures lost { result ≡ Err fault.Lost → self.new ≡ record self.old { lost = true } }
        ensures pushes { self.new.pushes ≡ self.old.pushes }
    {
        match outcome.into_kind() {
            OutcomeKind::Stood(answer) => self.receive(answer, asked, seat),
            OutcomeKind::Full(filled) => Err(self.receive_full(filled)),
            OutcomeKind::Memory => Err(Fault::Memory),
            OutcomeKind::Dropped => Err(self.lose()),
        }
    }

    /// The call has an entry: a receipt, where that is this session's next call, as it was asked. Else the session is lost.
    pub(crate) fn receive(
        &mut self,
        answer: Answer<J>,
        asked: &Command,
        seat: Seat,
    ) -> Result<Receipt, Fault>
        requires seat { seat ≡ next_seat self.old }
        requires entered { self.old.entered ≡ length self.old.receipts + 1 }
        ensures receipt { IfOk result (λ receipt. Writes J.base (settled self.old) asked.now receipt self.new) }
        ensures lost { IfErr result (λ e. e ≡ fault.Lost) }
        ensures lost_same { IfErr result (λ _. self.new ≡ record self.old { lost = true }) }
        ensures pushes { self.new.pushes ≡ self.old.pushes }
    {
        let (found, place, reply) = answer.into_parts();
        let publication = found.publication();
        if !self.latest.precedes(&found) {
            return Err(self.lose());
        }
        let _recalled = found.version().place();
        if !is_told(found.version(), place, seat, asked) {
            return Err(self.lose());
        }
        self.keep(found, seat.call());
        Ok(Receipt {
            place,
            seat,
            reply,
            publication,
        })
    }

    /// The history has no place left.
    pub(crate) fn receive_full(&mut self, filled: Filled<J>) -> Fault
        ensures fault { (result ≡ fault.Full) ⊎ (result ≡ fault.Lost) }
        ensures full { result ≡ fault.Full → Looks J.base self.old self.new }
        ensures when_full { result ≡ fault.Full → length (seen self.new) ≡ J.config.max_places }
        ensures lost { result ≡ fault.Lost → self.new ≡ record self.old { lost = true } }
        ensures pushes { self.new.pushes ≡ self.old.pushes }
    {
        let found = filled.into_found();
        let _recalled = found.publication();
        if !self.latest.precedes(&found) || !self.has_own(&found) {
            return self.lose();
        }
        self.see(found);
        Fault::Full
    }

    /// What was found has been seen, with a receipt for each of the session's entries in it, the one that it learned of
    /// among them: it is lost no more.
    fn keep(&mut self, found: Published<J>, calls: u64)
        requires later { IsPrefix self.old.published found }
        requires grows { Grows J.base found }
        requires calls { calls ≡ length (of_session self.old.number (newest found)) }
        requires entered { self.old.entered ≡ length self.old.receipts + 1 }
        requires one { calls ≡ self.old.entered }
        ensures { self.new ≡ record self.old { published = found; receipts = of_session self.old.number (newest found); lost = false } }
    {
        self.calls = calls;
        self.lost = false;
        self.looked = None;
        self.receipted = found.front().again();
        self.latest = found;
    }

    /// What became of a call is not known.
    pub(crate) fn lose(&mut self) -> Fault
        ensures fault { result ≡ fault.Lost }
        ensures lost { self.new ≡ record self.old { lost = true } }
    {
        self.lost = true;
        Fault::Lost
    }
}

/// Whether the entry at the place is what was asked, as the last call of its session.
fn is_told(version: &Version, place: u64, seat: Seat, asked: &Command) -> bool
    ensures { IsTrue result → IsTold version.now.entries place seat asked.now }
{
    let Some(entry) = version.entry(place) else {
        return false;
    };
    if entry.seat.session() != seat.session() || entry.seat.call() != seat.call() {
        return false;
    }
    if !entry.command.is_same(asked) {
        return false;
    }
    calls_of(version, seat.session()) == seat.call()
}
