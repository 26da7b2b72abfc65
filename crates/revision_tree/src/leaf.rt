//! The leaves of a tree in the winner's order.
ghost use Rattle.std.specs.Prelude.{◌≡◌, T, true, false, Some, IfOk, All, ◌++◌, map, filter, reverse, option_map};
ghost use Rattle.std.specs.FinMap.Entries.{is_sorted};
ghost use Rattle.std.specs.List.{find};
ghost use Rattle.model.specs.Revision.{Rev};
ghost use Rattle.model.specs.Tree.{Tree, IsTree, leaves as ranked, winner as winning, revs_of};
ghost use Rattle.revision_tree.specs.Nodes.{is_wanted, tree_of};
ghost use Rattle.revision_tree.specs.Ranks.{AreLeaves, rank_cmp};
ghost use Rattle.revision_tree.specs.Rows.{IsRows, joined, lists_of, nodes_of};

use crate::node::Node;
use crate::noted::Noted;
use crate::rows::Rows;
use revision_id::RevId;
use std::alloc::{AllocError, Global};
use std::sync::Arc;

/// A revision that is the parent of none.
#[derive(Debug, Clone, Copy, PartialEq, Eq, Drop)]
pub struct Leaf {
    pub deleted: bool,
    pub rev: RevId,
}

/// Whether no node but the last is a leaf.
pub(crate) fn has_one_leaf(nodes: &[Node]) -> bool
    ensures { result ≡ true → (newest : Rev) × All (λ n. n.inner ≡ false → n.rev ≡ newest) nodes.now }
{
    let [older @ .., _newest] = nodes else {
        return false;
    };
    are_inner(older)
}

fn are_inner(nodes: &[Node]) -> bool
    ensures { result ≡ true → All (λ n. n.inner ≡ true) nodes.now }
{
    for node in nodes {
        if !node.inner {
            return false;
        }
    }
    true
}

pub(crate) fn winner_of(rows: &Rows) -> Leaf
    requires { IsRows rows.now }
    ensures { winning (tree_of (nodes_of rows.now)) ≡ Some (record { deleted = result.deleted; rev = result.rev }) }
{
    if let Some(live) = greatest(rows, false) {
        return live;
    }
    match greatest(rows, true) {
        Some(leaf) => leaf,
        None => unreachable!(),
    }
}

/// The greatest leaf with this flag.
fn greatest(rows: &Rows, deleted: bool) -> Option<Leaf>
    ensures { result ≡ option_map (λ n. record { deleted = n.deleted; rev = n.rev }) (find (is_wanted deleted) (reverse (nodes_of rows.now))) }
{
    if let Some(leaf) = greatest_among(&rows.last, deleted) {
        return Some(leaf);
    }
    greatest_in(&rows.older, deleted)
}

/// The greatest leaf with this flag in the pieces.
fn greatest_in(pieces: &[Arc<Vec<Node>>], deleted: bool) -> Option<Leaf>
    ensures { result ≡ option_map (λ n. record { deleted = n.deleted; rev = n.rev }) (find (is_wanted deleted) (reverse (joined (lists_of pieces.now)))) }
{
    for place in (0..pieces.len()).rev() {
        if let Some(leaf) = greatest_among(&pieces[place], deleted) {
            return Some(leaf);
        }
    }
    None
}

fn greatest_among(nodes: &[Node], deleted: bool) -> Option<Leaf>
    ensures { result ≡ option_map (λ n. record { deleted = n.deleted; rev = n.rev }) (find (is_wanted deleted) (reverse nodes.now)) }
{
    nodes
        .iter()
        .rev()
        .find(|node| !node.inner && node.deleted == deleted)
        .map(|node| Leaf {
            deleted: node.deleted,
            rev: node.rev,
        })
}

pub(crate) fn leaves_of(alloc: Global, rows: &Rows) -> Result<Vec<RevId>, AllocError>
    requires { IsRows rows.now }
    ensures { IfOk result (λ revs. revs.items ≡ revs_of (ranked (tree_of (nodes_of rows.now)))) }
{
    let mut leaves = Vec::new(alloc);
    add_marked(alloc, &mut leaves, rows, false)?;
    add_marked(alloc, &mut leaves, rows, true)?;
    Ok(leaves)
}

/// Adds the leaves with this flag, the greatest first.
fn add_marked(
    alloc: Global,
    leaves: &mut Vec<RevId>,
    rows: &Rows,
    deleted: bool,
) -> Result<(), AllocError>
    ensures { IfOk result (λ _. leaves.new.items ≡ leaves.old.items ++ map (λ n. n.rev) (filter (is_wanted deleted) (reverse (nodes_of rows.now)))) }
{
    add_among(alloc, leaves, &rows.last, deleted)?;
    for place in (0..rows.older.len()).rev() {
        add_among(alloc, leaves, &rows.older[place], deleted)?;
    }
    Ok(())
}

fn add_among(
    alloc: Global,
    leaves: &mut Vec<RevId>,
    nodes: &[Node],
    deleted: bool,
) -> Result<(), AllocError>
    ensures { IfOk result (λ _. leaves.new.items ≡ leaves.old.items ++ map (λ n. n.rev) (filter (is_wanted deleted) (reverse nodes.now))) }
{
    let more = marked(alloc, nodes, deleted)?;
    leaves.extend_from_slice(&more)
}

/// The leaves with this flag, the greatest first.
fn marked(alloc: Global, nodes: &[Node], deleted: bool) -> Result<Vec<RevId>, AllocError>
    ensures { IfOk result (λ revs. revs.items ≡ map (λ n. n.rev) (filter (is_wanted deleted) (reverse nodes.now))) }
{
    nodes
        .iter()
        .rev()
        .filter(|node| !node.inner && node.deleted == deleted)
        .map(|node| node.rev)
        .collect(alloc)
}

/// The first of the leaves that are noted.
pub(crate) fn first_of(noted: &Noted) -> Leaf
    requires { (t : Tree) × IsTree t × AreLeaves t noted.now.leaves.entries }
    ensures { (t : Tree) → AreLeaves t noted.now.leaves.entries → winning t ≡ Some (record { deleted = result.deleted; rev = result.rev }) }
{
    let mut leaves = noted.leaves.iter();
    let Some((rank, _)) = leaves.next() else {
        unreachable!();
    };
    Leaf {
        deleted: rank.deleted,
        rev: rank.rev,
    }
}

/// The leaves that are noted.
pub(crate) fn all_of(alloc: Global, noted: &Noted) -> Result<Vec<RevId>, AllocError>
    ensures revs { IfOk result (λ revs. revs.items ≡ map (λ e. e.0.rev) noted.now.leaves.entries) }
    ensures ordered { T (is_sorted rank_cmp noted.now.leaves.entries) }
{
    let mut revs = Vec::new(alloc);
    for (rank, _) in noted.leaves.iter() {
        revs.push(rank.rev)?;
    }
    Ok(revs)
}
