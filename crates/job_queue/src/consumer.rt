//! The updater's end of the queue.
ghost use Rattle.std.specs.Prelude.{◌≡◌, ◌↔◌, ◌+◌, ◌<◌, ◌≤◌, [], ◌∷◌, ◌++◌, length, IfOk, OnErr, IfSome, IsSome, MatchOption};
ghost use Rattle.crossbeam_queue.specs.Passes.{view as known};
ghost use Rattle.job_queue.specs.Turns.{count, updater};

use crate::producer::Producer;
use crate::queue::{Queue, Queued};
use crate::rule::{Hand, pop, seat, word};
use crate::taken_count::TakenCount;
use commands::Job;
use crossbeam_queue::Pass;
use std::alloc::{AllocError, Global};
use std::marker::{Model, PhantomData};
use std::sync::Wait;

/// The updater of the queue `J`. Contracts see what it took, and how many tickets it made.
pub struct Consumer<J: Queued> {
    pass: Pass<Job, Hand>,
    /// How many jobs were taken.
    total: u64,
    /// How many of each session.
    popped: Vec<u64>,
    of: PhantomData<J>,
}

impl<J: Queued> Drop for Consumer<J> {
    fn drop(self) {
        let Consumer {
            pass: _,
            total: _,
            popped: _,
            of: _,
        } = self;
    }
}

impl<J: Queued> Model for Consumer<J> {
    ghost use Rattle.std.specs.Prelude.{◌≡◌, ◌<◌, ℕ, [], length, slice_index_or};
    ghost use Rattle.std.specs.Coded.{codes};
    ghost use Rattle.model.specs.JsonCode.{coded_members};
    ghost use Rattle.crossbeam_queue.specs.Passes.{view as known};
    ghost use Rattle.job_queue.specs.Turns.{Counter, count, updater};

    ghost Value = { Counter };

    ghost coded = { Prim.hlevel (codes, coded_members) };

    ghost view = { λ c. record { taken = (known c.pass).taken; made = length c.popped.items } };

    ghost invariant = { λ c. (c.pass.table_id ≡ J.table) × (c.pass.me.1 ≡ []) × (known c.pass ≡ updater (known c.pass).taken (length c.popped.items) J.sessions)
        × (c.total ≡ length (known c.pass).taken) × ((s d : ℕ) → s < length c.popped.items → slice_index_or c.popped.items s d ≡ count s (known c.pass).taken) };
}

impl<J: Queued> Consumer<J> {
    pub(crate) fn new(alloc: Global, pass: Pass<Job, Hand>) -> Consumer<J>
        requires { (pass.table_id ≡ J.table) × (pass.me.1 ≡ []) × (known pass ≡ updater [] 0 J.sessions) }
        ensures { (result.taken ≡ []) × (result.made ≡ 0) }
    {
        Consumer {
            pass,
            total: 0,
            popped: Vec::new(alloc),
            of: PhantomData,
        }
    }

    /// The next session's producer. All are made before the first job is taken.
    pub fn producer(&mut self, queue: &Queue<J>) -> Result<Producer<J>, AllocError>
        requires { (self.old.taken ≡ []) × (self.old.made < J.sessions) × (self.old.made < 64) }
        ensures producer { IfOk result (λ t. (t ≡ record { number = self.old.made; pushed = 0; gone = 0 }) × (self.new ≡ record self.old { made = self.old.made + 1 })) }
        ensures kept { OnErr result (self.new ≡ self.old) }
    {
        let made = self.popped.len();
        self.popped.push(0)?;
        let pass = seat(&queue.jobs, &mut self.pass, made as u64);
        Ok(Producer {
            pass,
            number: made as u16,
            pushed: 0,
            of: PhantomData,
        })
    }

    /// Takes the job that waits longest.
    pub fn pop<R: Wait>(&mut self, rt: &R, queue: &Queue<J>) -> Option<Job>
        ensures taken { MatchOption result (self.new ≡ self.old) (λ job. (self.new ≡ record self.old { taken = self.old.taken ++ job ∷ [] }) × (job.seat.session < self.old.made)) }
    {
        if self.total == u64::MAX {
            return None;
        }
        let job = pop(rt, &queue.jobs, &mut self.pass)?;
        self.total += 1;
        self.popped[job.seat.session() as usize] += 1;
        Some(job)
    }

    /// How many of a session's jobs were taken; none for a session with no producer.
    pub fn taken_count(&mut self, queue: &Queue<J>, session: u16) -> Option<TakenCount<J>>
        ensures same { self.new ≡ self.old }
        ensures taken { IfSome result (λ w. w ≡ record { number = session; gone = count session self.old.taken }) }
        ensures made { IsSome result ↔ (session < self.old.made) }
    {
        let gone = *self.popped.get(session as usize)?;
        let pass = word(&queue.jobs, &mut self.pass);
        Some(TakenCount {
            pass,
            number: session,
            gone,
            of: PhantomData,
        })
    }
}
