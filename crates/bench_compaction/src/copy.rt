//! A copy that is made by slices, catches up, and takes the place of the records.
ghost use Rattle.std.specs.Prelude.{◌≡◌, IfSome};
ghost use Rattle.model.specs.History.{Extends};

use crate::documents::{BULK, REVISIONS, with_edits, written};
use crate::steps::tell;
use commands::{MAX_PLACES, Seat};
use compactor::Compaction;
use snapshots::Version;
use std::alloc::Global;

/// The records of each slice and each catch-up, and the most of the end.
const SLICE: u64 = BULK as u64;

/// The documents that are edited before the copy catches up, and before its end.
const EDITED: u32 = 2 * BULK;

const EDITED_LAST: u32 = 100;

/// The session that compacts.
const COMPACTING: u16 = 1;

/// Writes so many thousand documents, and compacts them.
pub(crate) fn run(rt: &HostRuntime, thousands: u32) -> Option<()> {
    let version = written(rt.alloc(), thousands)?;
    let finished = compacted(rt, &version);
    drop(version);
    let_go(rt, finished)
}

/// Reports that the version before is let go, and lets the new one go.
fn let_go(rt: &HostRuntime, finished: Option<Version>) -> Option<()> {
    let finished = finished?;
    let told = tell(rt, "let-go", 0, 0);
    drop(finished);
    told
}

/// The version after a compaction, beside which documents are edited.
fn compacted(rt: &HostRuntime, version: &Version) -> Option<Version> {
    tell(rt, "written", 0, 0)?;
    let mut copy = started(rt.alloc(), version)?;
    let finished = sliced(rt, &mut copy, version);
    drop(copy);
    finished
}

/// The same, from a copy that is started.
fn sliced(rt: &HostRuntime, copy: &mut Compaction, version: &Version) -> Option<Version>
    requires { Extends version.now copy.old.seen }
{
    tell(rt, "started", copy.left(), copy.visited())?;
    slice_all(rt, copy, version)?;
    edited(rt, copy, version)
}

/// The same, from a copy whose slices are made.
fn edited(rt: &HostRuntime, copy: &mut Compaction, version: &Version) -> Option<Version>
    requires { Extends version.now copy.old.seen }
{
    let edited = with_edits(rt.alloc(), version, 0..EDITED, REVISIONS)?;
    let finished = caught_up(rt, copy, &edited);
    drop(edited);
    finished
}

/// The same, after the first edits.
fn caught_up(rt: &HostRuntime, copy: &mut Compaction, version: &Version) -> Option<Version>
    requires { Extends version.now copy.old.seen }
{
    tell(rt, "edited", 0, 0)?;
    catch_up(rt, copy, version)?;
    catch_up(rt, copy, version)?;
    edited_last(rt, copy, version)
}

/// The same, from a copy that has caught up.
fn edited_last(rt: &HostRuntime, copy: &mut Compaction, version: &Version) -> Option<Version>
    requires { Extends version.now copy.old.seen }
{
    let last = EDITED.saturating_add(EDITED_LAST);
    let edited = with_edits(rt.alloc(), version, EDITED..last, REVISIONS)?;
    let finished = finish(rt, copy, &edited);
    drop(edited);
    finished
}

/// The same, after the last edits.
#[tactic(auto, using(crate::proofs::Following::follows_extended))]
fn finish(rt: &HostRuntime, copy: &mut Compaction, version: &Version) -> Option<Version>
    requires { Extends version.now copy.old.seen }
{
    tell(rt, "edited-last", 0, 0)?;
    if copy.left() > 0 || version.place() >= u64::from(MAX_PLACES) {
        return None;
    }
    let seat = Seat::new(COMPACTING, version.next_call(COMPACTING))?;
    let Ok(finished) = copy.finish(version, seat, SLICE) else {
        return None;
    };
    tell(rt, "finished", 0, copy.visited())?;
    Some(finished)
}

/// A copy of the version, which has seen no more than that.
fn started(alloc: Global, version: &Version) -> Option<Compaction>
    ensures { IfSome result (λ copy. Extends version.now copy.seen) }
{
    let Ok(copy) = Compaction::start(alloc, version) else {
        return None;
    };
    Some(copy)
}

/// Makes all slices, and reports each.
fn slice_all(rt: &HostRuntime, copy: &mut Compaction, version: &Version) -> Option<()>
    requires { Extends version.now copy.old.seen }
    ensures { Extends version.now copy.new.seen }
{
    for _slice in 0..copy.left().div_ceil(SLICE) {
        let left = copy.slice(SLICE).ok()?;
        tell(rt, "sliced", left, copy.visited())?;
    }
    Some(())
}

/// Takes over what was edited first, and reports it.
#[tactic(auto, using(crate::proofs::Following::follows_extended))]
fn catch_up(rt: &HostRuntime, copy: &mut Compaction, version: &Version) -> Option<()>
    requires { Extends version.now copy.old.seen }
    ensures { Extends version.now copy.new.seen }
{
    if copy.left() > 0 {
        return None;
    }
    let left = copy.catch_up(version, SLICE).ok()?;
    tell(rt, "caught-up", left, copy.visited())
}
