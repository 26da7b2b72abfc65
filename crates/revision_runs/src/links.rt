//! The runs of a tree in which a root becomes the child of another revision.
ghost use Rattle.std.specs.Prelude.{◌≡◌, true, IfOk};
ghost use Rattle.model.specs.Revision.{Rev};
ghost use Rattle.model.specs.Tree.{Tree, is_leaf};
ghost use Rattle.revision_runs.specs.Changes.{AreBefore, IsInside, IsLinked};
ghost use Rattle.revision_runs.specs.Runs.{HangsUnder};
ghost use Rattle.revision_runs.specs.TreeRuns.{AreRuns};

use crate::climb::settled_with;
use crate::known::{run_of, top_of};
use crate::run::Run;
use crate::runs::Runs;
use revision_id::RevId;
use std::alloc::AllocError;

/// Where the root became the child of a leaf.
pub fn linked_to_leaf(runs: Runs, root: RevId, leaf: RevId) -> Result<Runs, AllocError>
    requires { (t : Tree) × (u : Tree) × AreBefore t u runs × IsLinked t u root leaf × (is_leaf t leaf ≡ true) }
    ensures { (t u : Tree) → AreBefore t u runs → IsLinked t u root leaf → is_leaf t leaf ≡ true → IfOk result (λ m. AreRuns u m) }
{
    let below = run_of(&runs, root);
    let top = top_of(&runs, leaf);
    let above = run_of(&runs, top);
    let joined = Run {
        fork: above.fork,
        bottom: below.bottom,
        low: below.low,
    };
    let others = runs.without(root)?;
    settled_with(others, top, joined, above.fork)
}

/// Where the root became the child of a fork.
pub fn linked_to_fork(runs: Runs, root: RevId, fork: RevId) -> Result<Runs, AllocError>
    requires { (t : Tree) × (u : Tree) × AreBefore t u runs × IsLinked t u root fork × (top : Rev) × HangsUnder runs fork top }
    ensures { (t u : Tree) (top : Rev) → AreBefore t u runs → IsLinked t u root fork → HangsUnder runs fork top → IfOk result (λ m. AreRuns u m) }
{
    let below = run_of(&runs, root);
    let hung = Run {
        fork: Some(fork),
        bottom: below.bottom,
        low: below.low,
    };
    settled_with(runs, root, hung, Some(fork))
}

/// Where the root became the second child of a revision, which has one other and is in the run of this top.
pub fn linked_inside(
    runs: Runs,
    root: RevId,
    parent: RevId,
    child: RevId,
    top: RevId,
) -> Result<Runs, AllocError>
    requires { (t : Tree) × (u : Tree) × AreBefore t u runs × IsLinked t u root parent × IsInside t runs parent child top }
    ensures { (t u : Tree) → AreBefore t u runs → IsLinked t u root parent → IsInside t runs parent child top → IfOk result (λ m. AreRuns u m) }
{
    let below = run_of(&runs, root);
    let run = run_of(&runs, top);
    let lower = Run {
        fork: Some(parent),
        bottom: run.bottom,
        low: run.low,
    };
    let hung = Run {
        fork: Some(parent),
        bottom: below.bottom,
        low: below.low,
    };
    let upper = Run {
        fork: run.fork,
        bottom: parent,
        low: run.low,
    };
    let with_lower = runs.with(child, lower)?;
    let with_hung = with_lower.with(root, hung)?;
    settled_with(with_hung, top, upper, Some(parent))
}
