//! How many jobs of a session were taken, for a session that is away from the queue.

use crate::queue::Queued;
use crate::rule::Hand;
use commands::Job;
use crossbeam_queue::Pass;
use std::marker::{Model, PhantomData};

/// How many jobs of a session were taken from the queue `J`. Contracts see for which session it is,
/// and how many.
#[derive(Drop)]
pub struct TakenCount<J: Queued> {
    pub(crate) pass: Pass<Job, Hand>,
    pub(crate) number: u16,
    pub(crate) gone: u64,
    pub(crate) of: PhantomData<J>,
}

impl<J: Queued> Model for TakenCount<J> {
    ghost use Rattle.std.specs.Prelude.{◌≡◌, []};
    ghost use Rattle.crossbeam_queue.specs.Passes.{view as known};
    ghost use Rattle.job_queue.specs.Turns.{Gone, count, note};

    ghost Value = { Gone };

    ghost view = { λ w. record { number = w.number; gone = w.gone } };

    ghost invariant = { λ w. (w.pass.table_id ≡ J.table) × (w.pass.me.1 ≡ []) × (known w.pass ≡ note (known w.pass).taken) × (w.gone ≡ count w.number (known w.pass).taken) };
}
