//! The runs of a tree in which a root becomes the child of a known revision.
ghost use Rattle.std.specs.Prelude.{◌≡◌, ℕ, true, Some, None, IfOk};
ghost use Rattle.model.specs.Map.{get};
ghost use Rattle.model.specs.Revision.{Rev};
ghost use Rattle.model.specs.Tree.{Tree, IsForest, is_at, knows, parent_of};
ghost use Rattle.revision_runs.specs.Changes.{AreBefore, IsLinked, IsPartOf};
ghost use Rattle.revision_runs.specs.TreeRuns.{AreRuns, IsOnlyChild, IsWay};
ghost use Rattle.revision_runs.specs.declared.run.Run as declared;
ghost use Rattle.revision_tree.specs.Nodes.{tree_of};
ghost use Rattle.revision_tree.specs.Rows.{nodes_of, IsRows};

use crate::growth::has_parent;
use crate::rows::Rows;
use crate::search::parent_in;
use revision_id::RevId;
use revision_runs::{Run, Runs, linked_inside, linked_to_fork, linked_to_leaf};
use std::alloc::AllocError;

/// Where a root became the child of a known revision. Among the rows is each parent that the tree has.
pub(crate) fn linked(
    rows: &Rows,
    runs: Runs,
    root: RevId,
    parent: RevId,
) -> Result<Runs, AllocError>
    requires rows { IsRows rows.now }
    requires linked { (t : Tree) × (u : Tree) × AreBefore t u runs × IsLinked t u root parent × (knows t parent ≡ true) × IsPartOf t (tree_of (nodes_of rows.now)) }
    ensures { (t u : Tree) → AreBefore t u runs → IsLinked t u root parent → knows t parent ≡ true → IsPartOf t (tree_of (nodes_of rows.now)) → IfOk result (λ m. AreRuns u m) }
{
    if let Some(_nearest) = runs.nearest_under(parent) {
        return linked_to_fork(runs, root, parent);
    }
    if let Some(_top) = runs.ending_at(parent) {
        return linked_to_leaf(runs, root, parent);
    }
    let top = top_above(rows, &runs, parent);
    let run = run_at(&runs, top);
    let child = child_below(rows, run.bottom, parent);
    linked_inside(runs, root, parent, child, top)
}

/// The run with this top, which is there.
pub(crate) fn run_at(runs: &Runs, top: RevId) -> Run
    requires { (run : declared.Run) × (get runs.now top ≡ Some run) }
    ensures { get runs.now top ≡ Some result }
{
    let Some(run) = runs.get(top) else {
        unreachable!();
    };
    run
}

/// The top of the run that a known revision is in.
fn top_above(rows: &Rows, runs: &Runs, rev: RevId) -> RevId
    requires rows { IsRows rows.now }
    requires runs { (t : Tree) × IsForest t × AreRuns t runs.now × (knows t rev ≡ true) × IsPartOf t (tree_of (nodes_of rows.now)) }
    ensures way { (t : Tree) → IsForest t → AreRuns t runs.now → knows t rev ≡ true → IsPartOf t (tree_of (nodes_of rows.now)) → (n : ℕ) × IsWay t n rev result }
    ensures run { (run : declared.Run) × (get runs.now result ≡ Some run) }
{
    let mut top = rev;
    while runs.get(top).is_none() {
        top = parent_at(rows, top);
    }
    top
}

/// The only child of a revision, on the way up to it.
pub(crate) fn child_below(rows: &Rows, bottom: RevId, rev: RevId) -> RevId
    requires rows { IsRows rows.now }
    requires way { (t : Tree) × (child : Rev) × (n : ℕ) × IsForest t × IsOnlyChild t rev child × IsWay t n bottom child × IsPartOf t (tree_of (nodes_of rows.now)) }
    ensures { (t : Tree) (child : Rev) (n : ℕ) → IsForest t → IsOnlyChild t rev child → IsWay t n bottom child → IsPartOf t (tree_of (nodes_of rows.now)) → result ≡ child }
{
    let mut child = bottom;
    while !is_child(rows, child, rev) {
        child = parent_at(rows, child);
    }
    child
}

/// Whether this is the known parent.
fn is_child(rows: &Rows, rev: RevId, parent: RevId) -> bool
    requires { IsRows rows.now }
    ensures { result ≡ is_at (parent_of (tree_of (nodes_of rows.now)) rev) parent }
{
    has_parent(parent_in(rows, rev), parent)
}

/// The parent that is known to be there.
fn parent_at(rows: &Rows, rev: RevId) -> RevId
    requires rows { IsRows rows.now }
    requires parent { (p : Rev) × (parent_of (tree_of (nodes_of rows.now)) rev ≡ Some p) }
    ensures { parent_of (tree_of (nodes_of rows.now)) rev ≡ Some result }
{
    let Some(parent) = parent_in(rows, rev) else {
        unreachable!();
    };
    parent
}
