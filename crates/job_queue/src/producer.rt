//! A session's end of the queue.
ghost use Rattle.std.specs.Prelude.{◌≡◌, ◌≢◌, ◌↔◌, ◌⊎◌, ◌+◌, ◌<◌, ◌≤◌, ◌^◌, [], IsTrue, MatchResult};

use crate::queue::{Queue, Queued};
use crate::rule::{Hand, hear, push};
use crate::taken_count::TakenCount;
use commands::Job;
use crossbeam_queue::Pass;
use std::marker::{Model, PhantomData};
use std::sync::Wait;

/// The most jobs that a session pushes.
const MAX_PUSHED: u64 = 1 << 62;

/// A session's pass of the queue `J`. Contracts see its number, how many jobs it pushed, and how many of them
/// it knows to be taken.
pub struct Producer<J: Queued> {
    pub(crate) pass: Pass<Job, Hand>,
    pub(crate) number: u16,
    pub(crate) pushed: u64,
    pub(crate) of: PhantomData<J>,
}

impl<J: Queued> Drop for Producer<J> {
    fn drop(self) {
        let Producer {
            pass: _,
            number: _,
            pushed: _,
            of: _,
        } = self;
    }
}

impl<J: Queued> Model for Producer<J> {
    ghost use Rattle.std.specs.Prelude.{◌≡◌, []};
    ghost use Rattle.crossbeam_queue.specs.Passes.{view as known};
    ghost use Rattle.job_queue.specs.Turns.{Turn, pusher};

    ghost Value = { Turn };

    ghost view = { λ t. record { number = t.number; pushed = t.pushed; gone = (known t.pass).gone } };

    ghost invariant = { λ t. (t.pass.table_id ≡ J.table) × (t.pass.me.1 ≡ []) × (known t.pass ≡ pusher t.number t.pushed (known t.pass).gone J.sessions) };
}

impl<J: Queued> Producer<J> {
    /// The session's number.
    pub fn number(&self) -> u16
        ensures { result ≡ self.now.number }
    {
        self.number
    }

    /// How many jobs it pushed.
    pub fn pushed(&self) -> u64
        ensures { result ≡ self.now.pushed }
    {
        self.pushed
    }

    /// Pushes a job, where all earlier ones are known to be taken. It is refused only where there are more
    /// sessions than the queue holds, or after 2^62 jobs.
    pub fn push<R: Wait>(&mut self, rt: &R, queue: &Queue<J>, job: Job) -> Result<(), Job>
        requires own { job.seat.session ≡ self.old.number }
        requires turn { self.old.gone ≡ self.old.pushed }
        ensures pushed { MatchResult result (λ _. self.new ≡ record self.old { pushed = self.old.pushed + 1 }) (λ same. (same ≡ job) × (self.new ≡ self.old) × ((J.capacity < J.sessions) ⊎ (2 ^ 62 ≤ self.old.pushed))) }
    {
        if self.pushed >= MAX_PUSHED {
            return Err(job);
        }
        push(rt, &queue.jobs, &mut self.pass, self.pushed, job)?;
        self.pushed += 1;
        Ok(())
    }

    /// Hears how many of the session's jobs were taken, and answers whether these are all that it pushed.
    /// TakenCount for another session changes nothing, and the answer is no.
    pub fn hear(&mut self, queue: &Queue<J>, word: TakenCount<J>) -> bool
        ensures heard { self.new ≡ record self.old { gone = self.new.gone } }
        ensures own { word.number ≡ self.old.number → self.new.gone ≡ word.gone }
        ensures other { word.number ≢ self.old.number → self.new ≡ self.old }
        ensures all { IsTrue result ↔ (word.number ≡ self.old.number) × (word.gone ≡ self.old.pushed) }
        ensures gone { IsTrue result → self.new.gone ≡ self.new.pushed }
    {
        let TakenCount {
            pass,
            number,
            gone,
            of: _,
        } = word;
        if number != self.number {
            return false;
        }
        hear(
            &queue.jobs,
            &mut self.pass,
            self.pushed,
            self.number as u64,
            pass,
        );
        gone == self.pushed
    }
}
