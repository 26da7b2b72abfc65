//! The queue: opened, and under its name.
ghost use Rattle.std.specs.Prelude.{◌≡◌, [], ◌<◌, IfOk};
ghost use Rattle.crossbeam_queue.specs.Passes.{view as known, IsPassOf, ruled_capacity};
ghost use Rattle.job_queue.specs.Turns.{updater};

use crate::consumer::Consumer;
use crate::rule::{Hand, Jobs, open, widen};
use commands::Job;
use crossbeam_queue::Pass;
use std::alloc::{AllocError, Global};
use std::marker::{Brand, Model, PhantomData};

/// Which queue it is, how many jobs it holds, and how many sessions it is for. The caller of the whole
/// program's run picks it.
pub trait Queued {
    ghost use Rattle.std.specs.Prelude.{ℕ};
    ghost use Rattle.atomic_table.specs.Seated.{TableId};

    ghost table: { TableId };

    ghost capacity: { ℕ };

    ghost sessions: { ℕ };
}

impl Queued for Brand {
    ghost use Rattle.job_queue.specs.Turns.{no_table};

    ghost table = { no_table };

    ghost capacity = { 0 };

    ghost sessions = { 0 };
}

/// An empty queue, which has no name yet. Contracts see which it is, its places, and its sessions.
pub struct Opened {
    alloc: Global,
    jobs: Jobs,
    pass: Pass<Job, Hand>,
    sessions: u16,
}

impl Model for Opened {
    ghost use Rattle.std.specs.Prelude.{◌≡◌, []};
    ghost use Rattle.atomic_table.specs.Seated.{TableId};
    ghost use Rattle.crossbeam_queue.specs.Passes.{view as known, IsPassOf, ruled_capacity};
    ghost use Rattle.job_queue.specs.Turns.{Places, updater, coded_places};

    ghost Value = { Places };

    ghost coded = { coded_places };

    ghost view = { λ o. record { table = o.jobs.table.shared.table_id; capacity = ruled_capacity o.jobs; sessions = o.sessions } };

    ghost invariant = { λ o. IsPassOf o.jobs o.pass × (known o.pass ≡ updater [] 0 o.sessions) };
}

impl Opened {
    /// A queue of so many places, for so many sessions.
    pub fn new(alloc: Global, capacity: u16, sessions: u16) -> Result<Opened, AllocError>
        requires { 0 < capacity }
        ensures { IfOk result (λ o. (o.capacity ≡ capacity) × (o.sessions ≡ sessions)) }
    {
        let (jobs, mut pass) = open(alloc, capacity as usize)?;
        for number in 0..sessions {
            widen(&jobs, &mut pass, number as u64);
        }
        Ok(Opened {
            alloc,
            jobs,
            pass,
            sessions,
        })
    }

    /// The queue under its name, and the pass of its updater.
    pub fn named<J: Queued>(self) -> (Queue<J>, Consumer<J>)
        requires { (self.table ≡ J.table) × (self.capacity ≡ J.capacity) × (self.sessions ≡ J.sessions) }
        ensures { (result.1.taken ≡ []) × (result.1.made ≡ 0) }
    {
        let Opened {
            alloc,
            jobs,
            pass,
            sessions: _,
        } = self;
        (
            Queue {
                jobs,
                of: PhantomData,
            },
            Consumer::new(alloc, pass),
        )
    }
}

/// The queue `J`.
pub struct Queue<J: Queued> {
    pub(crate) jobs: Jobs,
    of: PhantomData<J>,
    pub(crate) ghost table_is: { jobs.table.shared.table_id ≡ J.table },
    pub(crate) ghost capacity_is: { ruled_capacity jobs ≡ J.capacity },
}

impl<J: Queued> Drop for Queue<J> {
    fn drop(self) {
        let Queue { jobs: _, of: _ } = self;
    }
}
