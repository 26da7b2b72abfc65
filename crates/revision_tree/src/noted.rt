//! The runs and the leaves of a tree.
ghost use Rattle.std.specs.Prelude.{◌≡◌, ◌<◌, ◌+◌, ◌++◌, ◌∷◌, [], List, None, Some, IfOk, IfSome};
ghost use Rattle.model.specs.Map.{get};
ghost use Rattle.model.specs.Revision.{Rev};
ghost use Rattle.model.specs.Tree.{Tree};
ghost use Rattle.revision_runs.specs.TreeRuns.{AreRuns};
ghost use Rattle.revision_runs.specs.declared.run.Run as declared;
ghost use Rattle.revision_tree.specs.declared.node.Node as declared_node;
ghost use Rattle.revision_tree.specs.Nodes.{tree_of};
ghost use Rattle.revision_tree.specs.Notes.{IsNoted};
ghost use Rattle.revision_tree.specs.Ranks.{AreLeaves, AreOuter};
ghost use Rattle.revision_tree.specs.Rows.{nodes_of, IsRows};
ghost use Rattle.revision_tree.specs.Stems.{IsDueAt, IsNodeStep};

use crate::links::{linked, run_at};
use crate::node::Node;
use crate::rank::Rank;
use crate::rows::Rows;
use crate::walk::Nodes;
use cow_index::CowMap;
use revision_id::RevId;
use revision_runs::{Runs, rooted};
use std::alloc::{AllocError, Global};

/// The runs of a tree, and its leaves in the winner's order. Those that are made from others share what they can.
#[derive(Drop)]
pub(crate) struct Noted {
    pub(crate) runs: Runs,
    pub(crate) leaves: CowMap<Rank, ()>,
}

impl Noted {
    /// The same, which take no memory, but are refused at the largest count of owners.
    pub(crate) fn share(&self) -> Result<Noted, AllocError>
        ensures { (t : Tree) → IsNoted t self.now → IfOk result (λ n. IsNoted t n) }
    {
        let runs = self.runs.share()?;
        let leaves = self.leaves.share()?;
        Ok(Noted { runs, leaves })
    }
}

/// A top that is so many steps or more above the nearest leaf.
pub(crate) fn due_top(runs: &Runs, limit: u32) -> Option<RevId>
    requires { 0 < limit }
    ensures some { IfSome result (λ top. IsDueAt limit runs.now top) }
    ensures none { result ≡ None → (top : Rev) (run : declared.Run) → get runs.now top ≡ Some run → run.low < top.generation + limit }
{
    let Some(top) = runs.deepest() else {
        return None;
    };
    let run = run_at(runs, top);
    if run.low.saturating_sub(top.generation()) < limit {
        return None;
    }
    Some(top)
}

/// The runs and the leaves of a tree, from all its nodes.
pub(crate) fn noted_of(alloc: Global, rows: &Rows) -> Result<Noted, AllocError>
    requires { IsRows rows.now }
    ensures { IfOk result (λ n. IsNoted (tree_of (nodes_of rows.now)) n) }
{
    let runs = runs_of(alloc, rows)?;
    let leaves = leaves_of(alloc, rows)?;
    Ok(Noted { runs, leaves })
}

fn runs_of(alloc: Global, rows: &Rows) -> Result<Runs, AllocError>
    requires { IsRows rows.now }
    ensures { IfOk result (λ m. AreRuns (tree_of (nodes_of rows.now)) m) }
{
    let mut runs = Runs::new(alloc);
    for node in Nodes::all(rows) {
        runs = with_node(rows, runs, node)?;
    }
    Ok(runs)
}

/// The runs of a tree with the next revision, of which no child is known yet.
fn with_node(rows: &Rows, runs: Runs, node: &Node) -> Result<Runs, AllocError>
    requires rows { IsRows rows.now }
    requires step { (t : Tree) × (u : Tree) × AreRuns t runs × IsNodeStep (tree_of (nodes_of rows.now)) t u node.now }
    ensures { (t u : Tree) → AreRuns t runs → IsNodeStep (tree_of (nodes_of rows.now)) t u node.now → IfOk result (λ m. AreRuns u m) }
{
    let grown = rooted(runs, node.rev)?;
    let Some(parent) = node.parent else {
        return Ok(grown);
    };
    linked(rows, grown, node.rev, parent)
}

fn leaves_of(alloc: Global, rows: &Rows) -> Result<CowMap<Rank, ()>, AllocError>
    requires { IsRows rows.now }
    ensures { IfOk result (λ m. AreLeaves (tree_of (nodes_of rows.now)) m.entries) }
{
    let mut leaves = CowMap::new(alloc);
    for node in Nodes::all(rows) {
        leaves = with_leaf(leaves, node)?;
    }
    Ok(leaves)
}

/// With a revision, where it is the parent of none.
fn with_leaf(leaves: CowMap<Rank, ()>, node: &Node) -> Result<CowMap<Rank, ()>, AllocError>
    ensures { (ns : List declared_node.Node) → AreOuter ns leaves.entries → IfOk result (λ m. AreOuter (ns ++ node.now ∷ []) m.entries) }
{
    if node.inner {
        return Ok(leaves);
    }
    let rank = Rank {
        deleted: node.deleted,
        rev: node.rev,
    };
    leaves.into_with(rank, ())
}
