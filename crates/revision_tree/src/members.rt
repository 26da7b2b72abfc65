//! The runs and the leaves of a tree with a path.
ghost use Rattle.std.specs.Prelude.{◌≡◌, ◌||◌, [], ◌∷◌, Bool, true, Some, IfOk};
ghost use Rattle.model.specs.Body.{Body as BodyText};
ghost use Rattle.model.specs.Revision.{Rev, same_rev};
ghost use Rattle.model.specs.Tree.{Tree, IsForest};
ghost use Rattle.model.specs.TreeChange.{IsPath, agrees as is_agreed, grafted as grafting};
ghost use Rattle.revision_runs.specs.Changes.{AreBefore, IsNext, IsPartOf};
ghost use Rattle.revision_runs.specs.TreeRuns.{AreRuns};
ghost use Rattle.revision_tree.specs.Nodes.{tree_of};
ghost use Rattle.revision_tree.specs.Notes.{IsNoted};
ghost use Rattle.revision_tree.specs.Ranks.{AreLeaves, AreLeft};
ghost use Rattle.revision_tree.specs.Rows.{nodes_of, IsRows};

use crate::growth::has_parent;
use crate::links::linked;
use crate::noted::Noted;
use crate::rank::Rank;
use crate::rows::Rows;
use crate::tree::RevTree;
use cow_index::CowMap;
use revision_id::RevId;
use revision_runs::{Runs, extended, rooted};
use std::alloc::AllocError;

/// The runs and the leaves once a path is grafted onto a tree that has these. The rows are those after the graft.
pub(crate) fn noted_with(
    tree: &RevTree,
    noted: Noted,
    rows: &Rows,
    path: &[RevId],
    deleted: bool,
) -> Result<Noted, AllocError>
    requires tree { IsForest tree.now }
    requires rows { IsRows rows.now }
    requires path { IsPath path.now }
    requires agrees { is_agreed tree.now path.now ≡ true }
    requires noted { IsNoted tree.now noted }
    requires grown { (body : BodyText) × (tree_of (nodes_of rows.now) ≡ grafting path.now body deleted tree.now) }
    ensures { (body : BodyText) → tree_of (nodes_of rows.now) ≡ grafting path.now body deleted tree.now → IfOk result (λ n. IsNoted (grafting path.now body deleted tree.now) n) }
{
    let Noted { runs, leaves } = noted;
    let grown = runs_with(tree, rows, runs, path)?;
    let left = leaves_with(tree, leaves, path, deleted)?;
    Ok(Noted {
        runs: grown,
        leaves: left,
    })
}

/// Member by member, newest first.
fn runs_with(tree: &RevTree, rows: &Rows, runs: Runs, path: &[RevId]) -> Result<Runs, AllocError>
    requires tree { IsForest tree.now }
    requires rows { IsRows rows.now }
    requires path { IsPath path.now }
    requires agrees { is_agreed tree.now path.now ≡ true }
    requires runs { AreRuns tree.now runs }
    requires grown { (body : BodyText) × (deleted : Bool) × (tree_of (nodes_of rows.now) ≡ grafting path.now body deleted tree.now) }
    ensures { (body : BodyText) (deleted : Bool) → tree_of (nodes_of rows.now) ≡ grafting path.now body deleted tree.now → IfOk result (λ m. AreRuns (grafting path.now body deleted tree.now) m) }
{
    let [newest, ..] = path else {
        return Ok(runs);
    };
    let mut grown = with_newest(tree, runs, *newest)?;
    for place in 1..path.len() {
        grown = with_next(tree, rows, grown, path[place - 1], path[place])?;
    }
    Ok(grown)
}

/// With the newest member, where it is new.
fn with_newest(tree: &RevTree, runs: Runs, newest: RevId) -> Result<Runs, AllocError>
    requires tree { IsForest tree.now }
    requires path { IsPath (newest ∷ []) }
    requires runs { AreRuns tree.now runs }
    ensures { (body : BodyText) (deleted : Bool) → IfOk result (λ m. AreRuns (grafting (newest ∷ []) body deleted tree.now) m) }
{
    if tree.knows(newest) {
        return Ok(runs);
    }
    rooted(runs, newest)
}

/// With a member as the parent of the one before it, which is a root until then, unless it is known as its child.
fn with_next(
    tree: &RevTree,
    rows: &Rows,
    runs: Runs,
    child: RevId,
    parent: RevId,
) -> Result<Runs, AllocError>
    requires rows { IsRows rows.now }
    requires next { (t : Tree) × (u : Tree) × AreBefore t u runs × IsNext tree.now t u child parent × IsPartOf t (tree_of (nodes_of rows.now)) }
    ensures { (t u : Tree) → AreBefore t u runs → IsNext tree.now t u child parent → IsPartOf t (tree_of (nodes_of rows.now)) → IfOk result (λ m. AreRuns u m) }
{
    if !tree.knows(parent) {
        return extended(runs, child, parent);
    }
    if has_parent(tree.parent_of(child), parent) {
        return Ok(runs);
    }
    linked(rows, runs, child, parent)
}

/// The newest is a leaf where it is new, and the older members are none.
fn leaves_with(
    tree: &RevTree,
    leaves: CowMap<Rank, ()>,
    path: &[RevId],
    deleted: bool,
) -> Result<CowMap<Rank, ()>, AllocError>
    requires tree { IsForest tree.now }
    requires path { IsPath path.now }
    requires agrees { is_agreed tree.now path.now ≡ true }
    requires leaves { AreLeaves tree.now leaves.entries }
    ensures { (body : BodyText) → IfOk result (λ m. AreLeaves (grafting path.now body deleted tree.now) m.entries) }
{
    let [newest, older @ ..] = path else {
        return Ok(leaves);
    };
    let mut left = leaves;
    for rev in older {
        left = without_leaf(tree, left, *rev)?;
    }
    if tree.knows(*newest) {
        return Ok(left);
    }
    let rank = Rank {
        deleted,
        rev: *newest,
    };
    left.into_with(rank, ())
}

/// Without a revision, where it is a leaf of the tree.
fn without_leaf(
    tree: &RevTree,
    leaves: CowMap<Rank, ()>,
    rev: RevId,
) -> Result<CowMap<Rank, ()>, AllocError>
    ensures { (gone : Rev → Bool) → AreLeft tree.now gone leaves.entries → IfOk result (λ m. AreLeft tree.now (λ q. gone q || same_rev q rev) m.entries) }
{
    if !tree.is_leaf(rev) {
        return Ok(leaves);
    }
    let rank = Rank {
        deleted: tree.is_deleted(rev),
        rev,
    };
    leaves.into_without(&rank)
}
