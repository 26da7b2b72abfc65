//! A session as the updater serves it.
ghost use Rattle.std.specs.Prelude.{◌≡◌, ◌↔◌, ◌⊎◌, ◌+◌, ◌<◌, ◌≤◌, ◌^◌, MatchResult, IfSome, IfNone, IsSome};
ghost use Rattle.updater_state.specs.Callers.{entered_with, with_entry, with_behind, after_fault};

use crate::fault::SwapFault;
use crate::naming::Opening;
use crate::outcome::Outcome;
use crate::told::Told;
use commands::Job;
use job_queue::{Producer, Queue};
use std::marker::Model;
use std::sync::Wait;

/// A session as the updater serves it: its end of the queue, how many entries of its calls it has learned of, and how
/// often its compactions were behind. Nothing learns of an entry without counting it here, and no count ever falls: a
/// session that has fewer receipts than this shows it.
pub struct Caller<J: Opening> {
    producer: Producer<J>,
    entered: u64,
    behind: u64,
}

impl<J: Opening> Drop for Caller<J> {
    fn drop(self) {
        let Caller {
            producer: _,
            entered: _,
            behind: _,
        } = self;
    }
}

impl<J: Opening> Model for Caller<J> {
    ghost use Rattle.std.specs.Coded.{codes};
    ghost use Rattle.model.specs.JsonCode.{coded_members};
    ghost use Rattle.updater_state.specs.Callers.{CallerView};

    ghost Value = { CallerView };

    ghost coded = { Prim.hlevel (codes, coded_members) };

    ghost view = { λ c. record { turn = c.producer; entered = c.entered; behind = c.behind } };
}

impl<J: Opening> Caller<J> {
    /// A session that has learned of no entry yet.
    pub fn new(producer: Producer<J>) -> Caller<J>
        ensures { result ≡ record { turn = producer; entered = 0; behind = 0 } }
    {
        Caller {
            producer,
            entered: 0,
            behind: 0,
        }
    }

    /// How many jobs the session pushed.
    pub fn pushed(&self) -> u64
        ensures { result ≡ self.now.turn.pushed }
    {
        self.producer.pushed()
    }

    /// How many entries of its calls the session has learned of.
    pub fn entered(&self) -> u64
        ensures { result ≡ self.now.entered }
    {
        self.entered
    }

    /// How often its compactions were behind, up to 2^64 - 1.
    pub fn behind(&self) -> u64
        ensures { result ≡ self.now.behind }
    {
        self.behind
    }

    /// Pushes a job, where all earlier ones are known to be taken. It is refused only where there are more
    /// sessions than the queue holds, or after 2^62 jobs.
    pub fn push<R: Wait>(&mut self, rt: &R, queue: &Queue<J>, job: Job) -> Result<(), Job>
        requires own { job.seat.session ≡ self.old.turn.number }
        requires turn { self.old.turn.gone ≡ self.old.turn.pushed }
        ensures pushed { MatchResult result (λ _. self.new ≡ record self.old { turn = record self.old.turn { pushed = self.old.turn.pushed + 1 } })
            (λ same. (same ≡ job) × (self.new ≡ self.old) × ((J.capacity < J.sessions) ⊎ (2 ^ 62 ≤ self.old.turn.pushed))) }
    {
        self.producer.push(rt, queue, job)
    }

    /// Learns what became of its last job, which was the call of this number. There is no answer where what is told is
    /// about an older job, or about another session.
    pub fn learn(&mut self, queue: &Queue<J>, told: Told<J>, call: u64) -> Option<Outcome<J>>
        requires next { call ≡ self.old.entered + 1 }
        ensures outcome { IfSome result (λ outcome. outcome ≡ told.outcome) }
        ensures last { IsSome result ↔ (told.taken_count.number ≡ self.old.turn.number) × (told.taken_count.gone ≡ self.old.turn.pushed) }
        ensures some { IfSome result (λ outcome. self.new ≡ record self.old { turn = self.new.turn; entered = entered_with self.old.entered outcome }) }
        ensures none { IfNone result (self.new ≡ record self.old { turn = self.new.turn }) }
        ensures turn { self.new.turn ≡ record self.old.turn { gone = self.new.turn.gone } }
        ensures heard { IfSome result (λ _. self.new.turn.gone ≡ self.new.turn.pushed) }
    {
        let Told {
            outcome,
            taken_count,
        } = told;
        if !self.producer.hear(queue, taken_count) {
            return None;
        }
        if !outcome.has_entry() {
            return Some(outcome);
        }
        self.entered = call;
        Some(outcome)
    }

    /// It has learned of the entry of its call of this number.
    pub(crate) fn count_entry(&mut self, call: u64)
        requires next { call ≡ self.old.entered + 1 }
        ensures { self.new ≡ with_entry self.old }
    {
        self.entered = call;
    }

    /// Its copy was not swapped in. Where that was behind, it counts.
    pub(crate) fn count_fault(&mut self, fault: SwapFault)
        ensures { self.new ≡ after_fault self.old fault }
    {
        match fault {
            SwapFault::Behind => self.count_behind(),
            SwapFault::Full | SwapFault::Overrun | SwapFault::Memory => {}
        }
    }

    /// Its compaction was behind.
    pub(crate) fn count_behind(&mut self)
        ensures { self.new ≡ with_behind self.old }
    {
        self.behind = self.behind.saturating_add(1);
    }
}
