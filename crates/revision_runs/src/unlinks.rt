//! The runs of a tree in which a child of a fork becomes a root.
ghost use Rattle.std.specs.Prelude.{◌≡◌, IfOk};
ghost use Rattle.model.specs.Tree.{Tree, IsForest};
ghost use Rattle.revision_runs.specs.Changes.{AreBefore, IsJoin, IsUnlinked};
ghost use Rattle.revision_runs.specs.TreeRuns.{AreRuns, IsOneChild};

use crate::climb::settled_with;
use crate::known::{nearest_of, run_of, top_of};
use crate::run::Run;
use crate::runs::Runs;
use revision_id::RevId;
use std::alloc::AllocError;

/// Where this child of a fork became a root.
pub fn unlinked(runs: Runs, child: RevId, fork: RevId) -> Result<Runs, AllocError>
    requires { (t : Tree) × (u : Tree) × AreBefore t u runs × IsUnlinked t u child fork × IsOneChild t fork child }
    ensures { (t u : Tree) → AreBefore t u runs → IsUnlinked t u child fork → IsOneChild t fork child → IfOk result (λ m. AreRuns u m) }
{
    let run = run_of(&runs, child);
    let lone = Run {
        fork: None,
        bottom: run.bottom,
        low: run.low,
    };
    let freed = runs.with(child, lone)?;
    let nearest = nearest_of(&freed, fork);
    let left = run_of(&freed, nearest);
    let others = freed.without(nearest)?;
    let Some(_other) = others.nearest_under(fork) else {
        return joined(others, fork, left);
    };
    settled_with(others, nearest, left, Some(fork))
}

/// Where the run that ends at a fork goes on with the one that is left under it, which isn't among the runs.
fn joined(runs: Runs, fork: RevId, left: Run) -> Result<Runs, AllocError>
    requires { (u : Tree) × IsForest u × IsJoin u runs fork left }
    ensures { (u : Tree) → IsForest u → IsJoin u runs fork left → IfOk result (λ m. AreRuns u m) }
{
    let top = top_of(&runs, fork);
    let above = run_of(&runs, top);
    let whole = Run {
        fork: above.fork,
        bottom: left.bottom,
        low: left.low,
    };
    settled_with(runs, top, whole, above.fork)
}
