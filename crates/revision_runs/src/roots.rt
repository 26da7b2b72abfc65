//! The runs of a tree with one root more, with one less, and without all of a root's run.
ghost use Rattle.std.specs.Prelude.{◌≡◌, IfOk};
ghost use Rattle.model.specs.Revision.{Rev};
ghost use Rattle.model.specs.Tree.{Tree};
ghost use Rattle.revision_runs.specs.Changes.{AreBefore, IsCleared, IsDropped, IsExtended, IsLoneRun, IsRooted};
ghost use Rattle.revision_runs.specs.TreeRuns.{AreRuns, IsOnlyChild};

use crate::known::run_of;
use crate::run::Run;
use crate::runs::Runs;
use revision_id::RevId;
use std::alloc::AllocError;

/// With a new revision that has no parent and no child.
pub fn rooted(runs: Runs, root: RevId) -> Result<Runs, AllocError>
    ensures { (t u : Tree) → AreBefore t u runs → IsRooted t u root → IfOk result (λ m. AreRuns u m) }
{
    let lone = Run {
        fork: None,
        bottom: root,
        low: root.generation(),
    };
    let grown = runs.with(root, lone)?;
    Ok(grown)
}

/// With a new revision as the parent of a root.
pub fn extended(runs: Runs, root: RevId, parent: RevId) -> Result<Runs, AllocError>
    requires { (t : Tree) × (u : Tree) × AreBefore t u runs × IsExtended t u root parent }
    ensures { (t u : Tree) → AreBefore t u runs → IsExtended t u root parent → IfOk result (λ m. AreRuns u m) }
{
    let run = run_of(&runs, root);
    let others = runs.without(root)?;
    let higher = Run {
        fork: None,
        bottom: run.bottom,
        low: run.low,
    };
    let grown = others.with(parent, higher)?;
    Ok(grown)
}

/// Without a root that has this one child.
pub fn dropped(runs: Runs, root: RevId, child: RevId) -> Result<Runs, AllocError>
    requires { (t : Tree) × (u : Tree) × AreBefore t u runs × IsDropped t u root × IsOnlyChild t root child }
    ensures { (t u : Tree) → AreBefore t u runs → IsDropped t u root → IsOnlyChild t root child → IfOk result (λ m. AreRuns u m) }
{
    let run = run_of(&runs, root);
    let others = runs.without(root)?;
    let lower = Run {
        fork: None,
        bottom: run.bottom,
        low: run.low,
    };
    let left = others.with(child, lower)?;
    Ok(left)
}

/// Without the run of a root, which ends at a leaf and goes whole.
pub fn cleared(runs: Runs, root: RevId) -> Result<Runs, AllocError>
    ensures { (t u : Tree) (leaf : Rev) → AreBefore t u runs → IsCleared t u leaf → IsLoneRun runs leaf root → IfOk result (λ m. AreRuns u m) }
{
    let left = runs.without(root)?;
    Ok(left)
}
