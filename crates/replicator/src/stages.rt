//! What a worker does at each stage: one call of one end.
ghost use Rattle.std.specs.Prelude.{◌≡◌, true, false};
ghost use Rattle.replicator.specs.declared.due.Due.TheVariants as due;
ghost use Rattle.replicator.specs.Call as call;
ghost use Rattle.replicator.specs.Call.{CountsFailed, OnlyReads};
ghost use Rattle.replicator.specs.Due.{Source, Target};
ghost use Rattle.replicator.specs.Passing.{IsDuePart};
ghost use Rattle.replicator.specs.Run.{Called};
ghost use Rattle.replicator.specs.Stage as stage;
ghost use Rattle.replicator.specs.Stages.{learned_of};

use crate::asking::asked_of;
use crate::checkpoint::Checkpoint;
use crate::ends::Ends;
use crate::fault::PeerFault;
use crate::job::Job;
use crate::pass::Pass;
use crate::peer::{Opened, Peer};
use crate::progress::Progress;
use crate::readable::{is_readable_difference, is_readable_opened, is_readable_page};
use crate::stage::Stage;
use document_id::DocId;
use queries::ChangesPage;
use revision_id::RevId;
use std::alloc::Global;

/// Reads the source's checkpoint.
pub(crate) fn read_source<S: Peer>(
    alloc: Global,
    job: &Job,
    source: &mut S,
) -> Result<(Stage, Progress), PeerFault>
    ensures called { Called S.goes source.old source.new job.now stage.Unread Source (learned_of result) }
    ensures failures { CountsFailed (S.failed_calls source.old) (S.failed_calls source.new) result }
{
    let checkpoint = source.local_get(alloc, &job.id)?;
    Ok((Stage::SourceRead(checkpoint), Progress::Going))
}

/// Reads the target's checkpoint.
pub(crate) fn read_target<T: Peer>(
    alloc: Global,
    job: &Job,
    of_source: Option<Checkpoint>,
    target: &mut T,
) -> Result<(Stage, Progress), PeerFault>
    ensures called { Called T.goes target.old target.new job.now (stage.SourceRead of_source) Target (learned_of result) }
    ensures failures { CountsFailed (T.failed_calls target.old) (T.failed_calls target.new) result }
{
    let of_target = target.local_get(alloc, &job.id)?;
    let ends = ends_of(of_source, of_target);
    Ok((Stage::Ready(ends), Progress::Going))
}

/// Where a replication starts.
fn ends_of(source: Option<Checkpoint>, target: Option<Checkpoint>) -> Ends
    ensures { result ≡ stage.ends_of source target }
{
    Ends {
        since: start_of(source, target),
        source: counter_of(source),
        target: counter_of(target),
    }
}

fn start_of(source: Option<Checkpoint>, target: Option<Checkpoint>) -> u64
    ensures { result ≡ stage.start_of source target }
{
    match (source, target) {
        (Some(source), Some(target)) => source.last_seq.min(target.last_seq),
        _ => 0,
    }
}

fn counter_of(checkpoint: Option<Checkpoint>) -> Option<u32>
    ensures { result ≡ stage.counter_of checkpoint }
{
    checkpoint.map(|checkpoint| checkpoint.counter)
}

/// Asks the source for changes.
pub(crate) fn ask_changes<S: Peer>(
    alloc: Global,
    job: &Job,
    ends: Ends,
    source: &mut S,
) -> Result<(Stage, Progress), PeerFault>
    ensures called { Called S.goes source.old source.new job.now (stage.Ready ends) Source (learned_of result) }
    ensures failures { CountsFailed (S.failed_calls source.old) (S.failed_calls source.new) result }
{
    let page = changes_after(alloc, job, ends.since, source)?;
    if !is_readable_page(&job.ids, ends.since, job.batch, &page) {
        return Err(PeerFault::Unreadable);
    }
    if page.rows.is_empty() {
        return Ok((Stage::Unread, Progress::Done));
    }
    Ok((Stage::Paged(ends, page), Progress::Going))
}

/// The changes of the job's documents after a number.
fn changes_after<S: Peer>(
    alloc: Global,
    job: &Job,
    since: u64,
    source: &mut S,
) -> Result<ChangesPage, PeerFault>
    ensures goes { S.goes source.old (call.Changes job.now.ids since job.now.batch result) source.new }
    ensures failures { CountsFailed (S.failed_calls source.old) (S.failed_calls source.new) result }
    ensures reads { OnlyReads result }
{
    match &job.ids {
        Some(ids) => source.changes_of(alloc, ids, since, job.batch),
        None => source.changes(alloc, since, job.batch),
    }
}

/// Asks the target what it lacks of the changes.
pub(crate) fn ask_difference<T: Peer>(
    alloc: Global,
    job: &Job,
    ends: Ends,
    page: ChangesPage,
    target: &mut T,
) -> Result<(Stage, Progress), PeerFault>
    ensures called { Called T.goes target.old target.new job.now (stage.Paged ends page) Target (learned_of result) }
    ensures failures { CountsFailed (T.failed_calls target.old) (T.failed_calls target.new) result }
{
    let asked = asked_of(alloc, &page.rows)?;
    let differences = target.diff(alloc, &asked)?;
    if !is_readable_difference(&asked, &differences) {
        return Err(PeerFault::Unreadable);
    }
    let pass = Pass::new(alloc, ends, page, differences)?;
    Ok((Stage::Passing(pass), Progress::Going))
}

/// Asks the source for revisions that the target lacks.
pub(crate) fn open<S: Peer>(
    alloc: Global,
    job: &Job,
    pass: Pass,
    source: &mut S,
) -> Result<(Stage, Progress), PeerFault>
    requires { IsDuePart due.Open pass }
    ensures called { Called S.goes source.old source.new job.now (stage.Passing pass) Source (learned_of result) }
    ensures failures { CountsFailed (S.failed_calls source.old) (S.failed_calls source.new) result }
{
    let asked = pass.next_asked(alloc)?;
    let opened = open_next(alloc, &pass, &asked.id, &asked.revisions, source)?;
    if !is_readable_opened(&asked.id, &asked.revisions, &opened) {
        return Err(PeerFault::Unreadable);
    }
    let pass = pass.with_opened(&asked, opened)?;
    Ok((Stage::Passing(pass), Progress::Going))
}

/// Asks the source for revisions, after it has said which come next in the pass.
fn open_next<S: Peer>(
    alloc: Global,
    pass: &Pass,
    id: &DocId,
    revs: &[RevId],
    source: &mut S,
) -> Result<Opened, PeerFault>
    requires { IsDuePart due.Open pass.now }
    ensures goes { S.goes source.old (call.OpenRevs id.now revs.now result) source.new }
    ensures failures { CountsFailed (S.failed_calls source.old) (S.failed_calls source.new) result }
    ensures reads { OnlyReads result }
{
    source.expect(alloc, pass.rest());
    source.open_revs(alloc, id, revs)
}

/// Sends documents to the target.
pub(crate) fn send<T: Peer>(
    alloc: Global,
    job: &Job,
    pass: Pass,
    target: &mut T,
) -> Result<(Stage, Progress), PeerFault>
    requires { IsDuePart due.Send pass }
    ensures called { Called T.goes target.old target.new job.now (stage.Passing pass) Target (learned_of result) }
    ensures failures { CountsFailed (T.failed_calls target.old) (T.failed_calls target.new) result }
{
    let documents = pass.next_sent(alloc)?;
    let len = documents.len();
    target.bulk(alloc, documents)?;
    let pass = pass.with_taken(len);
    Ok((Stage::Passing(pass), Progress::Going))
}

/// Writes the target's checkpoint.
pub(crate) fn mark_target<T: Peer>(
    alloc: Global,
    job: &Job,
    pass: Pass,
    target: &mut T,
) -> Result<(Stage, Progress), PeerFault>
    requires { IsDuePart due.MarkTarget pass }
    ensures called { Called T.goes target.old target.new job.now (stage.Passing pass) Target (learned_of result) }
    ensures failures { CountsFailed (T.failed_calls target.old) (T.failed_calls target.new) result }
{
    let named = pass.ends().target;
    let counter = target.local_put(alloc, &job.id, named, pass.last_seq())?;
    let pass = pass.with_mark(counter);
    Ok((Stage::Passing(pass), Progress::Going))
}

/// Writes the source's checkpoint.
pub(crate) fn mark_source<S: Peer>(
    alloc: Global,
    job: &Job,
    pass: &Pass,
    source: &mut S,
) -> Result<(Stage, Progress), PeerFault>
    requires { IsDuePart due.MarkSource pass.now }
    ensures called { Called S.goes source.old source.new job.now (stage.Passing pass.now) Source (learned_of result) }
    ensures failures { CountsFailed (S.failed_calls source.old) (S.failed_calls source.new) result }
{
    let ends = pass.ends();
    let last_seq = pass.last_seq();
    let counter = source.local_put(alloc, &job.id, ends.source, last_seq)?;
    let ends = Ends {
        since: last_seq,
        source: Some(counter),
        target: ends.target,
    };
    Ok((Stage::Ready(ends), Progress::Checkpoint(last_seq)))
}
