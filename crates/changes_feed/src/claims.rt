//! Which leaves descend from which revisions.
ghost use Rattle.std.specs.Prelude.{◌≡◌, ◌<◌, ◌==◌, ℕ, true, IfOk, All, length, map, filter, take, slice_index_or};
ghost use Rattle.model.specs.Revision.{Rev, same_rev};
ghost use Rattle.model.specs.Tree.{knows, leaves as ranked, revs_of};
ghost use Rattle.revision_tree.specs.declared.node.Node.{Node};
ghost use Rattle.revision_tree.specs.Nodes.{IsListOf, tree_of};
ghost use Rattle.changes_feed.specs.Latest.{first_above, first_place};

use revision_id::RevId;
use revision_tree::{Node, RevTree, place_among};
use std::alloc::{AllocError, Global};

/// The leaves in the winner's order, each with the place of the first of these revisions that it descends from, itself
/// among them, and with their count where there is none. Goes along the tree once.
pub(crate) fn claimed_leaves(
    alloc: Global,
    tree: &RevTree,
    revs: &[RevId],
) -> Result<Vec<(RevId, usize)>, AllocError>
    ensures { IfOk result (λ claimed. claimed.items ≡ map (λ l. (l, first_above revs.now tree.now l)) (revs_of (ranked tree.now))) }
{
    let nodes = tree.listed(alloc)?;
    let firsts = firsts(alloc, &nodes, revs)?;
    let leaves = tree.leaves(alloc)?;
    let placed = with_places(alloc, &nodes, &firsts, &leaves)?;
    Ok(placed)
}

/// The leaves that have this place.
pub(crate) fn claimed_by(
    alloc: Global,
    leaves: &[(RevId, usize)],
    place: usize,
) -> Result<Vec<RevId>, AllocError>
    ensures { IfOk result (λ revs. revs.items ≡ map (λ l. l.0) (filter (λ l. l.1 == place) leaves.now)) }
{
    leaves
        .iter()
        .filter(|leaf| leaf.1 == place)
        .map(|leaf| leaf.0)
        .collect(alloc)
}

/// Of each node the place of the first of the revisions that it descends from.
fn firsts(alloc: Global, nodes: &[Node], revs: &[RevId]) -> Result<Vec<usize>, AllocError>
    requires { IsListOf nodes.now (tree_of nodes.now) }
    ensures { IfOk result (λ firsts. firsts.items ≡ map (λ n. first_above revs.now (tree_of nodes.now) n.rev) nodes.now) }
{
    let mut firsts = Vec::with_capacity(alloc, nodes.len())?;
    for place in 0..nodes.len() {
        let first = first_at(nodes, &firsts, revs, place);
        firsts.push(first)?;
    }
    Ok(firsts)
}

/// The same of one node, where those before it have theirs: its parent comes before it.
fn first_at(nodes: &[Node], firsts: &[usize], revs: &[RevId], place: usize) -> usize
    requires listed { IsListOf nodes.now (tree_of nodes.now) }
    requires place { place < length nodes.now }
    requires before { firsts.now ≡ map (λ n. first_above revs.now (tree_of nodes.now) n.rev) (take place nodes.now) }
    ensures { (n : Node) → result ≡ first_above revs.now (tree_of nodes.now) (slice_index_or nodes.now place n).rev }
{
    let node = &nodes[place];
    let own = place_in(revs, node.rev);
    let Some(parent) = node.parent else {
        return own;
    };
    let Some(above) = place_among(nodes, parent) else {
        return own;
    };
    own.min(firsts[above])
}

/// The place where a revision is named first, and the length where it isn't named.
fn place_in(revs: &[RevId], rev: RevId) -> usize
    ensures { result ≡ first_place (λ a. same_rev a rev) revs.now }
{
    for place in 0..revs.len() {
        if revs[place] == rev {
            return place;
        }
    }
    revs.len()
}

/// Each leaf with what its node has.
fn with_places(
    alloc: Global,
    nodes: &[Node],
    firsts: &[usize],
    leaves: &[RevId],
) -> Result<Vec<(RevId, usize)>, AllocError>
    requires listed { IsListOf nodes.now (tree_of nodes.now) }
    requires long { length firsts.now ≡ length nodes.now }
    requires known { All (λ l. knows (tree_of nodes.now) l ≡ true) leaves.now }
    ensures { IfOk result (λ placed. (g : Rev → ℕ) → firsts.now ≡ map (λ n. g n.rev) nodes.now → placed.items ≡ map (λ l. (l, g l)) leaves.now) }
{
    let mut placed = Vec::with_capacity(alloc, leaves.len())?;
    for leaf in leaves {
        let first = first_of(nodes, firsts, *leaf);
        placed.push((*leaf, first))?;
    }
    Ok(placed)
}

/// What the node of a known revision has.
fn first_of(nodes: &[Node], firsts: &[usize], rev: RevId) -> usize
    requires listed { IsListOf nodes.now (tree_of nodes.now) }
    requires long { length firsts.now ≡ length nodes.now }
    requires known { knows (tree_of nodes.now) rev ≡ true }
    ensures { (g : Rev → ℕ) → firsts.now ≡ map (λ n. g n.rev) nodes.now → result ≡ g rev }
{
    match place_among(nodes, rev) {
        Some(place) => firsts[place],
        None => 0,
    }
}
