//! The way up from a fork of which the nearest leaf has changed.
ghost use Rattle.std.specs.Prelude.{◌≡◌, Some, None, IfOk};
ghost use Rattle.model.specs.Map.{put};
ghost use Rattle.model.specs.Tree.{Tree, IsForest};
ghost use Rattle.revision_runs.specs.TreeRuns.{AreRuns, AreRunsBut, IsOlder};

use crate::known::{nearest_of, run_of, top_of};
use crate::run::Run;
use crate::runs::Runs;
use revision_id::RevId;
use std::alloc::AllocError;

/// Runs of which all but that which ends at a fork have the least generation of a leaf below, and that fork, if there is one.
#[derive(Drop)]
struct Climb {
    runs: Runs,
    next: Option<RevId>,
}

/// The runs of a tree, where only that which ends at this fork, if there is one, had not the least generation of a leaf below it.
/// Goes up from fork to fork while that changes.
pub(crate) fn settled(runs: Runs, fork: Option<RevId>) -> Result<Runs, AllocError>
    requires { (t : Tree) × IsForest t × AreRunsBut t fork runs }
    ensures { (t : Tree) → IsForest t → AreRunsBut t fork runs → IfOk result (λ m. AreRuns t m) }
{
    let mut climb = Climb { runs, next: fork };
    while let Some(fork) = climb.next {
        climb = step(climb.runs, fork)?;
    }
    Ok(climb.runs)
}

/// The same, once this run is in the place of that with its top.
pub(crate) fn settled_with(
    runs: Runs,
    top: RevId,
    run: Run,
    fork: Option<RevId>,
) -> Result<Runs, AllocError>
    requires { (t : Tree) × IsForest t × AreRunsBut t fork (put runs top run) }
    ensures { (t : Tree) → IsForest t → AreRunsBut t fork (put runs top run) → IfOk result (λ m. AreRuns t m) }
{
    let changed = runs.with(top, run)?;
    settled(changed, fork)
}

/// Gives the run that ends at a fork what is least under it. The next fork is that above, where this changed.
fn step(runs: Runs, fork: RevId) -> Result<Climb, AllocError>
    requires { (t : Tree) × IsForest t × AreRunsBut t (Some fork) runs }
    ensures runs { (t : Tree) → IsForest t → AreRunsBut t (Some fork) runs → IfOk result (λ s. AreRunsBut t s.next s.runs) }
    ensures older { IfOk result (λ s. IsOlder fork s.next) }
{
    let nearest = nearest_of(&runs, fork);
    let child = run_of(&runs, nearest);
    let top = top_of(&runs, fork);
    let run = run_of(&runs, top);
    if run.low == child.low {
        return Ok(Climb { runs, next: None });
    }
    let lower = Run {
        fork: run.fork,
        bottom: run.bottom,
        low: child.low,
    };
    let after = runs.with(top, lower)?;
    Ok(Climb {
        runs: after,
        next: run.fork,
    })
}
