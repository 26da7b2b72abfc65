//! The worker.
ghost use Rattle.std.specs.Prelude.{◌≡◌, ◌↔◌, ◌<◌, ◌≤◌, Option, None, Some, IsSome, IfSome, IsTrue, IsFalse};
ghost use Rattle.replicator.specs.Run.{CountsEither, Ends, Exchange, Exchanges, GoesOn, IsRun, IsStep};
ghost use Rattle.replicator.specs.Stage.{Passing, Unread};
ghost use Rattle.replicator.specs.Stages.{learned_of, stage_of};

use crate::due::Due;
use crate::fault::PeerFault;
use crate::job::Job;
use crate::pass::Pass;
use crate::peer::Peer;
use crate::progress::Progress;
use crate::stage::Stage;
use crate::stages::{
    ask_changes, ask_difference, mark_source, mark_target, open, read_source, read_target, send,
};
use document_id::{DocId, DocIds};
use std::alloc::Global;
use std::marker::Model;
use std::mem::replace;

/// The most changes that are asked for at once.
pub const MAX_BATCH: u64 = 100;

/// Brings the changes of a source to a target. Clauses see what it knows.
pub struct Worker {
    job: Job,
    stage: Stage,
}

impl Drop for Worker {
    fn drop(self) {
        let Worker { job: _, stage: _ } = self;
    }
}

impl Model for Worker {
    ghost use Rattle.std.specs.Coded.{codes};
    ghost use Rattle.model.specs.JsonCode.{coded_members};
    ghost use Rattle.replicator.specs.Stage.{Known};
    ghost use Rattle.replicator.specs.Stages.{stage_of};

    ghost Value = { Known };

    ghost coded = { Prim.hlevel (codes, coded_members) };

    ghost view = { λ w. record { job = w.job; stage = stage_of w.stage } };
}

impl Worker {
    /// A worker whose checkpoints have this id, and which asks for so many changes at once, 1 to
    /// [`MAX_BATCH`]; nothing for another number.
    ///
    /// The id is to belong to this source and this target alone, in this direction: the first changes that
    /// are asked for are decided by whatever checkpoints are under it.
    pub fn new(id: DocId, batch: u64) -> Option<Worker>
        ensures in_range { IsSome result ↔ ((0 < batch) × (batch ≤ 100)) }
        ensures unread { IfSome result (λ worker. worker
            ≡ record { job = record { id = id; batch = batch; ids = None }; stage = Unread }) }
    {
        Worker::of(Job {
            id,
            batch,
            ids: None,
        })
    }

    /// A worker for these documents alone, and else as [`Worker::new`] makes one. It sends no other
    /// document, whatever its ends answer.
    ///
    /// The id is to belong to this source, this target and this list of ids alone: a checkpoint reports
    /// how far the documents of the list have come, and a worker with another list under the same id
    /// would begin there too, past older changes of its documents.
    ///
    /// # Sources
    /// CouchDB: `POST /_replicate`, `doc_ids`.
    pub fn filtered(id: DocId, batch: u64, ids: DocIds) -> Option<Worker>
        ensures in_range { IsSome result ↔ ((0 < batch) × (batch ≤ 100)) }
        ensures unread { IfSome result (λ worker. worker
            ≡ record { job = record { id = id; batch = batch; ids = Some ids }; stage = Unread }) }
    {
        Worker::of(Job {
            id,
            batch,
            ids: Some(ids),
        })
    }

    /// A worker that has asked nothing; nothing for a batch that is out of its range.
    fn of(job: Job) -> Option<Worker>
        ensures in_range { IsSome result ↔ ((0 < job.batch) × (job.batch ≤ 100)) }
        ensures unread { IfSome result (λ worker. worker ≡ record { job = job; stage = Unread }) }
    {
        if job.batch == 0 || job.batch > MAX_BATCH {
            return None;
        }
        Some(Worker {
            job,
            stage: Stage::Unread,
        })
    }

    /// Makes one call on one of the ends.
    ///
    /// # Errors
    ///
    /// [`PeerFault::Failed`] where the end that was called failed, [`PeerFault::Unreadable`] where its
    /// answer can't be read, [`PeerFault::Refused`] where it refused a document or its checkpoint. Memory
    /// may be refused, before the call or after it. The next step begins anew, by the checkpoints.
    pub fn step<S: Peer, T: Peer>(
        &mut self,
        alloc: Global,
        source: &mut S,
        target: &mut T,
    ) -> Result<Progress, PeerFault>
        ensures steps { (exchange : Option Exchange) × IsStep S.goes T.goes
            (record { worker = self.old; source = source.old; target = target.old })
            (record { exchange = exchange; result = result })
            (record { worker = self.new; source = source.new; target = target.new }) }
        ensures failures { CountsEither result (S.failed_calls source.old) (T.failed_calls target.old)
            (S.failed_calls source.new) (T.failed_calls target.new) }
    {
        let stage = replace(&mut self.stage, Stage::Unread);
        match advance(alloc, &self.job, stage, source, target) {
            Ok((stage, progress)) => {
                self.stage = stage;
                Ok(progress)
            }
            Err(fault) => Err(fault),
        }
    }

    /// Makes at most so many steps, until there are no more changes or a step has a fault, and answers
    /// what the last one reported; of no step [`Progress::Going`].
    ///
    /// # Errors
    ///
    /// As those of [`Worker::step`].
    pub fn run<S: Peer, T: Peer>(
        &mut self,
        alloc: Global,
        source: &mut S,
        target: &mut T,
        steps: u64,
    ) -> Result<Progress, PeerFault>
        ensures runs { IsRun S.goes T.goes
            (record { worker = self.old; source = source.old; target = target.old })
            steps result
            (record { worker = self.new; source = source.new; target = target.new }) }
        ensures failures { CountsEither result (S.failed_calls source.old) (T.failed_calls target.old)
            (S.failed_calls source.new) (T.failed_calls target.new) }
    {
        let mut last = Ok(Progress::Going);
        for _step in 0..steps {
            let told = self.step(alloc, source, target);
            if ends(&told) {
                return told;
            }
            last = told;
        }
        last
    }
}

/// Whether the replication ends with a step that reports this.
fn ends(told: &Result<Progress, PeerFault>) -> bool
    ensures ends { IsTrue result → Ends told.now }
    ensures goes_on { IsFalse result → GoesOn told.now }
{
    match told {
        Ok(Progress::Going) => false,
        Ok(Progress::Checkpoint(_)) => false,
        Ok(Progress::Done) => true,
        Err(_) => true,
    }
}

/// Does what is due at a stage.
fn advance<S: Peer, T: Peer>(
    alloc: Global,
    job: &Job,
    stage: Stage,
    source: &mut S,
    target: &mut T,
) -> Result<(Stage, Progress), PeerFault>
    ensures exchanges { (exchange : Option Exchange) × Exchanges S.goes T.goes job.now (stage_of stage)
        source.old target.old source.new target.new exchange (learned_of result) }
    ensures failures { CountsEither result (S.failed_calls source.old) (T.failed_calls target.old)
        (S.failed_calls source.new) (T.failed_calls target.new) }
{
    match stage {
        Stage::Unread => read_source(alloc, job, source),
        Stage::SourceRead(of_source) => read_target(alloc, job, of_source, target),
        Stage::Ready(ends) => ask_changes(alloc, job, ends, source),
        Stage::Paged(ends, page) => ask_difference(alloc, job, ends, page, target),
        Stage::Passing(pass) => pass_on(alloc, job, pass, source, target),
    }
}

/// Does what is due in a pass.
fn pass_on<S: Peer, T: Peer>(
    alloc: Global,
    job: &Job,
    pass: Pass,
    source: &mut S,
    target: &mut T,
) -> Result<(Stage, Progress), PeerFault>
    ensures exchanges { (exchange : Option Exchange) × Exchanges S.goes T.goes job.now (Passing pass)
        source.old target.old source.new target.new exchange (learned_of result) }
    ensures failures { CountsEither result (S.failed_calls source.old) (T.failed_calls target.old)
        (S.failed_calls source.new) (T.failed_calls target.new) }
{
    match pass.due() {
        Due::Open => open(alloc, job, pass, source),
        Due::Send => send(alloc, job, pass, target),
        Due::MarkTarget => mark_target(alloc, job, pass, target),
        Due::MarkSource => mark_source(alloc, job, &pass, source),
    }
}
