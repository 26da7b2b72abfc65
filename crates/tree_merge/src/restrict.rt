//! A tree with some of its revisions.
ghost use Rattle.std.specs.Prelude.{◌≡◌, ℕ, true, IfOk, IfSome, Some, None, [], ◌∷◌, ◌++◌, length, map, nat_lt, option_and_then, if◌then◌else◌};
ghost use Rattle.model.specs.Map.{entries, refine_list};
ghost use Rattle.model.specs.Revision.{Rev, revs};
ghost use Rattle.model.specs.Tree.{IsTree, IsInRange, knows};
ghost use Rattle.model.specs.TreeChange.{restrict};
ghost use Rattle.revision_tree.specs.Nodes.{IsListOf, entry_of, entries_of, tree_of};
ghost use Rattle.tree_merge.specs.Reach.{is_reached, kept_of};

use crate::reach::marks;
use revision_id::RevId;
use revision_tree::{Node, RevTree, place_among};
use std::alloc::{AllocError, Global};

/// The revisions fewer than `limit` steps above some leaf that isn't named.
pub(crate) fn restricted(
    alloc: Global,
    tree: &RevTree,
    named: &[RevId],
    limit: u32,
) -> Result<Vec<Node>, AllocError>
    ensures kept { IfOk result (λ nodes. entries_of nodes.items ≡ entries (restrict (is_reached limit named.now tree.now) tree.now)) }
    ensures tree { IfOk result (λ _. IsTree tree.now) }
    ensures range { IfOk result (λ _. IsInRange tree.now) }
{
    let nodes = tree.listed(alloc)?;
    let marks = marks(alloc, tree, &nodes, named, limit)?;
    let kept = kept(alloc, &nodes, &marks)?;
    Ok(kept)
}

/// The marked revisions, each with its parent where that is marked.
fn kept(alloc: Global, nodes: &[Node], marks: &[u32]) -> Result<Vec<Node>, AllocError>
    requires listed { IsListOf nodes.now (tree_of nodes.now) }
    requires long { length marks.now ≡ length nodes.now }
    ensures { IfOk result (λ kept. (g : Rev → ℕ) → marks.now ≡ map (λ e. g e.0) (entries_of nodes.now) → entries_of kept.items ≡ entries (restrict (λ r. nat_lt 0 (g r)) (tree_of nodes.now))) }
{
    let mut kept = Vec::new(alloc);
    for node in nodes {
        keep(nodes, marks, &mut kept, node)?;
    }
    Ok(kept)
}

/// Shares a revision where it is marked.
fn keep(nodes: &[Node], marks: &[u32], kept: &mut Vec<Node>, node: &Node) -> Result<(), AllocError>
    requires listed { IsListOf nodes.now (tree_of nodes.now) }
    requires long { length marks.now ≡ length nodes.now }
    requires known { knows (tree_of nodes.now) node.now.rev ≡ true }
    requires parent { IfSome node.now.parent (λ p. knows (tree_of nodes.now) p ≡ true) }
    ensures { IfOk result (λ _. (g : Rev → ℕ) → marks.now ≡ map (λ e. g e.0) (entries_of nodes.now)
        → entries_of kept.new.items ≡ entries_of kept.old.items ++ refine_list revs (kept_of (λ r. nat_lt 0 (g r))) (entry_of node.now ∷ [])) }
{
    if !is_marked(nodes, marks, node.rev) {
        return Ok(());
    }
    let parent = kept_parent(nodes, marks, node.parent);
    let node = node.share()?;
    kept.push(Node::new(node.rev, parent, node.deleted, node.body))?;
    Ok(())
}

fn kept_parent(nodes: &[Node], marks: &[u32], parent: Option<RevId>) -> Option<RevId>
    requires listed { IsListOf nodes.now (tree_of nodes.now) }
    requires long { length marks.now ≡ length nodes.now }
    requires known { IfSome parent (λ p. knows (tree_of nodes.now) p ≡ true) }
    ensures { (g : Rev → ℕ) → marks.now ≡ map (λ e. g e.0) (entries_of nodes.now) → result ≡ option_and_then (λ p. if nat_lt 0 (g p) then Some p else None) parent }
{
    let Some(parent) = parent else {
        return None;
    };
    if !is_marked(nodes, marks, parent) {
        return None;
    }
    Some(parent)
}

fn is_marked(nodes: &[Node], marks: &[u32], rev: RevId) -> bool
    requires listed { IsListOf nodes.now (tree_of nodes.now) }
    requires long { length marks.now ≡ length nodes.now }
    requires known { knows (tree_of nodes.now) rev ≡ true }
    ensures { (g : Rev → ℕ) → marks.now ≡ map (λ e. g e.0) (entries_of nodes.now) → result ≡ nat_lt 0 (g rev) }
{
    match place_among(nodes, rev) {
        Some(place) => marks[place] > 0,
        None => false,
    }
}
