//! One publication: a batch is applied to what was published last, and the history that it makes is published.
ghost use Rattle.std.specs.Prelude.{◌≡◌, ◌+◌, ◌<◌, ◌≤◌, List, Option, All, length, IfOk};
ghost use Rattle.model.specs.History.{replay, base_of};
ghost use Rattle.version_log.specs.Histories.{newest};
ghost use Rattle.updater.specs.Batches.{MayFollow};
ghost use Rattle.updater_state.specs.Outcomes.{Fate, all_stand};
ghost use Rattle.updater_state.specs.Drafts.{all_drafts_stand, IsPublished};
ghost use Rattle.updater_state.specs.State.{entries_after, published_with};

use crate::draft::{Draft, draft_all_after};
use commands::Job;
use core::mem::replace;
use std::alloc::{AllocError, Global};
use std::sync::Arc;
use updater::apply_batch;
use version_log::{Book, Naming, Published};

/// Publishes the jobs, or nothing, with the drafts of the new entries. The log's step is the last: what grows, grew
/// before it.
pub(crate) fn publish<J: Naming>(
    alloc: Global,
    book: &Book<J>,
    current: &Published<J>,
    jobs: &[Job],
    drafts: &mut Vec<Draft>,
) -> Result<Published<J>, AllocError>
    requires next { MayFollow (replay (base_of J.base) (newest current.now)) jobs.now }
    requires some { 0 < length jobs.now }
    requires room { length (newest current.now) + length jobs.now ≤ 4294967295 }
    ensures found { IfOk result (λ found. found ≡ published_with J.base current.now jobs.now) }
    ensures drafts { IfOk result (λ found. (outcomes : List (Option Fate)) → all_drafts_stand found outcomes drafts.new.items ≡ all_stand found (length (newest current.now)) outcomes (entries_after J.base current.now jobs.now)) }
    ensures published { IfOk result (λ found. All (IsPublished J.base found) drafts.new.items) }
{
    let _recalled = current.publication();
    let latest = current.version();
    let version = apply_batch(latest, jobs)?;
    let shared = Arc::new(alloc, version)?;
    draft_all_after(alloc, &shared, latest.place(), drafts)?;
    let mut front = current.front().again();
    if !front.publish(book, &shared) {
        return Err(AllocError);
    }
    Ok(Published::new(shared, front))
}

/// What was published is the version that was published last.
pub(crate) fn put_in_place<J: Naming>(current: &mut Published<J>, found: Published<J>)
    ensures { current.new ≡ found }
{
    let _older = replace(current, found);
}
