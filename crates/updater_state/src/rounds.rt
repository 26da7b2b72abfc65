//! Rounds of the updater: a batch is popped, and published or given up.
ghost use Rattle.std.specs.Prelude.{◌≡◌, ◌+◌, ◌<◌, ◌≤◌, false, All, None, Some, length, IfSome, MatchBool, vec_len, vec_capacity};
ghost use Rattle.model.specs.History.{now};
ghost use Rattle.version_log.specs.Histories.{newest};
ghost use Rattle.job_queue.specs.Turns.{count};
ghost use Rattle.updater.specs.Batches.{MayFollow};
ghost use Rattle.updater_state.specs.Outcomes.{outcome_of};
ghost use Rattle.updater_state.specs.State.{after_taking, batch_after, outcomes_after, Goes, Pops, Serves, Takes};

use crate::gate::{Gate, Point};
use crate::locked::Core;
use crate::naming::Opening;
use crate::outcome::{Outcome, OutcomeKind};
use crate::outcomes::{Outcomes, tell};
use crate::told::Told;
use commands::Job;
use job_queue::Queue;
use snapshots::Version;
use std::sync::Wait;
use updater::may_join;

/// A popped job goes last in the batch, or is dropped.
fn take_in<J: Opening>(
    version: &Version,
    batch: &mut Vec<Job>,
    outcomes: &mut Outcomes<J>,
    job: Job,
)
    requires follow { MayFollow (now version.now) batch.old.items }
    requires room { vec_len batch.old < vec_capacity batch.old }
    ensures batch { batch.new.items ≡ batch_after (now version.now) batch.old.items job }
    ensures outcomes { outcomes.new.items ≡ outcomes_after (now version.now) batch.old.items job outcomes.old.items }
    ensures follow { MayFollow (now version.now) batch.new.items }
    ensures capacity { vec_capacity batch.new ≡ vec_capacity batch.old }
{
    let session = job.seat.session();
    if may_join(version, batch.as_slice(), &job) {
        batch.push_reserved(job);
        return;
    }
    tell(outcomes, session, Outcome::new(OutcomeKind::Dropped));
}

/// A session's job was popped. It takes no memory: a session that is not noted finds its outcome under the lock.
fn note_due<J: Opening>(due: &mut Vec<u16>, session: u16)
    requires known { session < J.config.sessions }
    requires sessions { All (λ s. s < J.config.sessions) due.old.items }
    ensures sessions { All (λ s. s < J.config.sessions) due.new.items }
{
    if due.len() < due.capacity() {
        due.push_reserved(session);
    }
}

impl<R: Wait + Drop, J: Opening> Core<R, J> {
    /// Pops the job that waits longest: it goes last in the batch, or is dropped exactly where it is not
    /// its session's next call or the session has a job in the batch. It answers whether a job was
    /// popped, and pops none where the batch has as many as it may.
    pub fn pop<W: Wait>(&mut self, rt: &W, queue: &Queue<J>) -> bool
        ensures { MatchBool result (Pops J.base J.config self.old self.new) (self.new ≡ self.old) }
    {
        if self.batch.len() >= self.gather as usize {
            return false;
        }
        let Some(job) = self.consumer.pop(rt, queue) else {
            return false;
        };
        note_due::<J>(&mut self.due, job.seat.session());
        take_in(
            self.current.version(),
            &mut self.batch,
            &mut self.outcomes,
            job,
        );
        true
    }

    /// How many jobs the next batch may have: those past the last place are batches of their own.
    fn most(&self) -> u64
        ensures few { result ≤ J.config.gather }
        ensures within { length (newest self.now.published) < J.config.max_places → length (newest self.now.published) + result ≤ J.config.max_places }
    {
        match self.room() {
            0 => self.gather as u64,
            room => room.min(self.gather as u64),
        }
    }

    /// Pops a batch.
    fn gather<W: Wait>(&mut self, rt: &W, queue: &Queue<J>)
        ensures { Goes J.base J.config self.old self.new }
    {
        for _ in 0..self.most() {
            if !self.pop(rt, queue) {
                return;
            }
        }
    }

    /// Pops a batch, and publishes it or gives it up.
    fn round<W: Wait, G: Gate>(&mut self, rt: &W, queue: &Queue<J>, gate: &G, session: u16)
        ensures { Goes J.base J.config self.old self.new }
    {
        self.gather(rt, queue);
        if self.batch.is_empty() {
            return;
        }
        gate.at(Point::Popped, session);
        let Ok(()) = self.put() else {
            self.give_up();
            return;
        };
        let _shown = self.show();
    }

    fn has_outcome(&self, session: u16) -> bool
        ensures { result ≡ false → outcome_of self.now.outcomes session ≡ None }
    {
        match self.outcomes.get(session as usize) {
            Some(outcome) => outcome.is_some(),
            None => false,
        }
    }

    /// Says to a session what became of its last popped job, where that is known and was not yet said.
    /// A session with no producer gets nothing.
    pub fn tell(&mut self, queue: &Queue<J>, session: u16) -> Option<Told<J>>
        ensures taken { self.new ≡ after_taking self.old session }
        ensures outcome { IfSome result (λ told. outcome_of self.old.outcomes session ≡ Some told.outcome) }
        ensures taken_count { IfSome result (λ told. told.taken_count ≡ record { number = session; gone = count session self.new.popped }) }
    {
        if !self.has_outcome(session) {
            return None;
        }
        let outcome = self.take_outcome(session);
        let taken_count = self.consumer.taken_count(queue, session)?;
        Some(Told {
            outcome: outcome?,
            taken_count,
        })
    }

    /// Forgets and returns a session whose job was popped, which may have an outcome. `None` where none is noted.
    pub fn next_due(&mut self) -> Option<u16>
        ensures same { self.new ≡ self.old }
        ensures known { IfSome result (λ session. session < J.config.sessions) }
    {
        self.due.pop()
    }

    /// Does rounds, at most so many, until the outcome of the last job of a session is known. Returns the outcome and how many of
    /// the session's jobs were taken, or nothing if it isn't known after the last round.
    pub fn serve<W: Wait, G: Gate>(
        &mut self,
        rt: &W,
        queue: &Queue<J>,
        gate: &G,
        session: u16,
        most: u16,
    ) -> Option<Told<J>>
        ensures goes { Serves J.base J.config session self.old self.new }
        ensures own { IfSome result (λ told. Takes J.base J.config session self.old self.new told.outcome) }
        ensures taken_count { IfSome result (λ told. told.taken_count ≡ record { number = session; gone = count session self.new.popped }) }
    {
        for _ in 0..most {
            if self.has_outcome(session) {
                break;
            }
            self.round(rt, queue, gate, session);
        }
        self.tell(queue, session)
    }
}
