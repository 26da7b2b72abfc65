//! A replication from its beginning to its end.
ghost use Rattle.std.specs.Prelude.{◌≡◌, true, false, List, Option, None, Some, string_bytes};
ghost use Rattle.model.specs.Command.{Id};
ghost use Rattle.replicator_run.specs.Reopened.{fresh_end, GoesOver};
ghost use Rattle.replicator_run.specs.Report.{Replicates, RunsBetween, fresh, report_of};

use crate::asked::End;
use crate::counted::Counted;
use crate::reopened::{Opens, Reached, Reopened};
use crate::report::Report;
use crate::skipping::Skipping;
use crate::watch::Watch;
use document_id::{DocId, DocIds};
use replicator::{MAX_BATCH, Peer, PeerFault, Progress, Worker};
use std::alloc::Global;
use streams::{Sink, Source};

/// Brings the changes of a source to a target, those of some documents alone where they are named, with
/// checkpoints of this id, and reports how far it has come and what keeps it from going on. Documents that no
/// request can hold are skipped, where that is asked for. It ends where there are no more changes, or at the first fault.
pub(crate) fn replicate<S: Peer + Drop, T: Peer + Drop, W: Watch + Copy + Drop>(
    alloc: Global,
    id: DocId,
    ids: Option<DocIds>,
    skips: bool,
    source: S,
    target: T,
    watch: W,
) -> Report
    ensures { Replicates skips S.goes T.goes S.failed_calls T.failed_calls id ids source target result }
{
    let worker = worker_of(id, ids);
    let source = Counted::new(source, End::Source, watch);
    let target = Counted::new(target, End::Target, watch);
    if skips {
        return run_skipping(alloc, worker, source, target, watch);
    }
    run_whole(alloc, worker, source, target)
}

/// Runs a worker between two ends.
fn run_whole<S: Peer + Drop, T: Peer + Drop, W: Watch + Drop>(
    alloc: Global,
    worker: Worker,
    source: Counted<S, W>,
    target: Counted<T, W>,
) -> Report
    ensures { (id : Id) (ids : Option (List Id)) → worker ≡ fresh id ids
        → RunsBetween false S.goes T.goes S.failed_calls T.failed_calls id ids source target result }
{
    let mut worker = worker;
    let mut source = source;
    let mut target = target;
    let ended = worker.run(alloc, &mut source, &mut target, u64::MAX);
    report(ended, &source, &target)
}

/// Runs a worker between two ends, of which each skips the documents that no request can hold.
fn run_skipping<S: Peer + Drop, T: Peer + Drop, W: Watch + Copy + Drop>(
    alloc: Global,
    worker: Worker,
    source: Counted<S, W>,
    target: Counted<T, W>,
    watch: W,
) -> Report
    ensures { (id : Id) (ids : Option (List Id)) → worker ≡ fresh id ids
        → RunsBetween true S.goes T.goes S.failed_calls T.failed_calls id ids source target result }
{
    let mut worker = worker;
    let mut source = Skipping::new(source, watch);
    let mut target = Skipping::new(target, watch);
    let ended = worker.run(alloc, &mut source, &mut target, u64::MAX);
    report(ended, &source.into_inner(), &target.into_inner())
}

/// What came of a run that ended so.
fn report<S: Peer, T: Peer, W: Watch>(
    ended: Result<Progress, PeerFault>,
    source: &Counted<S, W>,
    target: &Counted<T, W>,
) -> Report
    ensures { result ≡ report_of S.failed_calls T.failed_calls ended source.now target.now }
{
    Report {
        documents_read: source.passed(),
        documents_written: target.passed(),
        ended,
        source_failures: source.failures(),
        target_failures: target.failures(),
    }
}

/// A worker that has asked nothing, for these documents or for all.
fn worker_of(id: DocId, ids: Option<DocIds>) -> Worker
    ensures { result ≡ fresh id ids }
{
    match ids {
        Some(ids) => worker_for_some(id, ids),
        None => worker_for_all(id),
    }
}

fn worker_for_some(id: DocId, ids: DocIds) -> Worker
    ensures { result ≡ fresh id (Some ids) }
{
    let Some(worker) = Worker::filtered(id, MAX_BATCH, ids) else {
        unreachable!()
    };
    worker
}

fn worker_for_all(id: DocId) -> Worker
    ensures { result ≡ fresh id None }
{
    let Some(worker) = Worker::new(id, MAX_BATCH) else {
        unreachable!()
    };
    worker
}

/// Brings the changes of one database to another, those of some documents alone where they are named.
/// Each database is reached over one connection after another: requests go to a connection's sink, and answers
/// come from its source. A call that fails is asked again over the next one, as often as one is opened.
///
/// Where documents are skipped, those that no request can hold are left out and reported: one whose bulk has more
/// than 1,048,576 bytes, and one with more than 22,700 leaves. Each checkpoint says so then.
///
/// The id is to belong to this source, this target, these documents and whether others are skipped alone, as that of a
/// [`Worker`].
pub fn run_replication<
    A: Source + Drop,
    B: Sink + Drop,
    S: Opens<A, B> + Drop,
    C: Source + Drop,
    D: Sink + Drop,
    T: Opens<C, D> + Drop,
    W: Watch + Copy + Drop,
>(
    alloc: Global,
    id: DocId,
    ids: Option<DocIds>,
    skips: bool,
    source: Reached<A, B, S>,
    target: Reached<C, D, T>,
    watch: W,
) -> Report
    ensures { Replicates skips GoesOver GoesOver (λ e. e.failed_calls) (λ e. e.failed_calls) id ids
        (fresh_end (record { host = string_bytes source.host; skips = skips }) (A.left source.reader) (A.failed_reads source.reader) (B.taken source.writer) (B.failed_writes source.writer))
        (fresh_end (record { host = string_bytes target.host; skips = skips }) (C.left target.reader) (C.failed_reads target.reader) (D.taken target.writer) (D.failed_writes target.writer))
        result }
{
    let source = Reopened::new(alloc, source, skips);
    let target = Reopened::new(alloc, target, skips);
    replicate(alloc, id, ids, skips, source, target, watch)
}
