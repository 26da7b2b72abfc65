//! The runs of a case.

use crate::case::{Case, Script, Second};
use crate::documents::{Documents, Ids};
use crate::end::End;
use crate::flaw::Flawed;
use crate::print::{print_documents, print_end, print_leaves, print_told};
use document_id::{DocId, DocIds};
use replicator::{MAX_BATCH, Peer, PeerFault, Progress, Worker};
use std::alloc::{AllocError, Global};
use std::io;

/// How a run ended, and what was asked of the ends.
#[derive(Clone, Copy)]
pub(crate) struct Told {
    pub(crate) ended: Result<Progress, PeerFault>,
    /// After which number the source was first asked for changes.
    pub(crate) since: Option<u64>,
    /// How many bulks the target was sent.
    pub(crate) bulks: u64,
    pub(crate) source_failures: u64,
    pub(crate) target_failures: u64,
}

/// Runs a replication and then, where the case has it, a second one between ends with no flaw, and
/// prints what each came to.
pub(crate) fn tell_runs<S: End + Drop, T: End + Drop>(
    rt: &impl Print,
    alloc: Global,
    case: Case,
    ids: &Ids,
    source: S,
    target: T,
) -> io::Result<()> {
    let script = case.script();
    let mut source = Flawed::new(source, script.source);
    let mut target = Flawed::new(target, script.target);
    let mut worker = new_worker(alloc, script.documents, ids)?;
    println!(rt; "{}:", script.name)?;
    let documents = script.documents;
    let first = tell_run(
        rt,
        alloc,
        documents,
        ids,
        &mut worker,
        &mut source,
        &mut target,
    )?;
    let Some(worker) = second_worker(alloc, script, first, worker, ids)? else {
        return Ok(());
    };
    let (source, target) = (source.mended(), target.mended());
    tell_last(rt, alloc, script.documents, ids, worker, source, target)
}

fn tell_last<S: End + Drop, T: End + Drop>(
    rt: &impl Print,
    alloc: Global,
    documents: Documents,
    ids: &Ids,
    mut worker: Worker,
    mut source: Flawed<S>,
    mut target: Flawed<T>,
) -> io::Result<()> {
    let _last = tell_run(
        rt,
        alloc,
        documents,
        ids,
        &mut worker,
        &mut source,
        &mut target,
    )?;
    Ok(())
}

/// The worker of the second run, if there is to be one after the first.
fn second_worker(
    alloc: Global,
    script: Script,
    first: Told,
    worker: Worker,
    ids: &Ids,
) -> Result<Option<Worker>, AllocError> {
    match script.second {
        Second::SameWorker => Ok(Some(worker)),
        Second::NewWorker => Ok(Some(new_worker(alloc, script.documents, ids)?)),
        Second::IfRefusedMemory if first.ended == Err(PeerFault::Memory) => {
            Ok(Some(new_worker(alloc, script.documents, ids)?))
        }
        Second::IfRefusedMemory => Ok(None),
    }
}

/// A worker for all documents, or for the one that is to be brought alone.
pub(crate) fn new_worker(
    alloc: Global,
    documents: Documents,
    ids: &Ids,
) -> Result<Worker, AllocError> {
    let checkpoint = ids.checkpoint.share()?;
    match documents {
        Documents::Conflict => Ok(worker_for_all(checkpoint)),
        Documents::Three => Ok(worker_for(checkpoint, ids.listed(alloc)?)),
    }
}

fn worker_for_all(checkpoint: DocId) -> Worker {
    let Some(worker) = Worker::new(checkpoint, MAX_BATCH) else {
        unreachable!()
    };
    worker
}

fn worker_for(checkpoint: DocId, listed: DocIds) -> Worker {
    let Some(worker) = Worker::filtered(checkpoint, MAX_BATCH, listed) else {
        unreachable!()
    };
    worker
}

/// Runs the worker until it ends, and prints what that came to.
fn tell_run<S: End, T: End>(
    rt: &impl Print,
    alloc: Global,
    documents: Documents,
    ids: &Ids,
    worker: &mut Worker,
    source: &mut Flawed<S>,
    target: &mut Flawed<T>,
) -> io::Result<Told> {
    let told = run(alloc, worker, source, target);
    print_told(rt, told)?;
    print_end(rt, "source", ids, source.peer().version())?;
    print_end(rt, "target", ids, target.peer().version())?;
    print_leaves(rt, "target", ids, target.peer().version())?;
    print_documents(rt, documents, target.peer().version())?;
    Ok(told)
}

/// Runs the worker until it ends.
pub(crate) fn run<S: Peer, T: Peer>(
    alloc: Global,
    worker: &mut Worker,
    source: &mut Flawed<S>,
    target: &mut Flawed<T>,
) -> Told {
    let ended = worker.run(alloc, source, target, u64::MAX);
    Told {
        ended,
        since: source.since(),
        bulks: target.bulks(),
        source_failures: source.failures(),
        target_failures: target.failures(),
    }
}
