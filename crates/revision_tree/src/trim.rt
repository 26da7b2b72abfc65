//! Nodes without one revision.
ghost use Rattle.std.specs.Prelude.{◌≡◌, ◌<◌, ◌∷◌, ◌++◌, [], true, false, IfOk, All, length};
ghost use Rattle.std.specs.List.{filter_map};
ghost use Rattle.model.specs.Revision.{same_rev};
ghost use Rattle.revision_tree.specs.Nodes.{IsSorted, row_of, rows_of};
ghost use Rattle.revision_tree.specs.Rows.{items_of, joined, lists_of, nodes_of, AreFilled, IsRows};
ghost use Rattle.revision_tree.specs.Trimmed.{row_apart, row_without, IsChildOnly, IsPart};

use crate::node::Node;
use crate::rows::Rows;
use revision_id::RevId;
use std::alloc::{AllocError, Global};
use std::sync::Arc;

/// The nodes without a revision that has one child, which is then one with no known parent. Shares the pieces in which neither
/// can be.
pub(crate) fn without(
    alloc: Global,
    rows: &Rows,
    rev: RevId,
    child: RevId,
) -> Result<Rows, AllocError>
    requires rows { IsRows rows.now }
    requires child { All (IsChildOnly rev child) (nodes_of rows.now) }
    ensures rows { IfOk result (λ r. rows_of (nodes_of r) ≡ filter_map (row_without rev) (rows_of (nodes_of rows.now))) }
    ensures filled { IfOk result (λ r. AreFilled (lists_of r.older.items)) }
{
    let older = pieces_without(alloc, &rows.older, rev, child)?;
    let last = nodes_without(alloc, &rows.last, rev)?;
    Ok(Rows { older, last })
}

fn pieces_without(
    alloc: Global,
    pieces: &[Arc<Vec<Node>>],
    rev: RevId,
    child: RevId,
) -> Result<Vec<Arc<Vec<Node>>>, AllocError>
    requires filled { AreFilled (lists_of pieces.now) }
    requires parts { All (IsPart rev child) (lists_of pieces.now) }
    ensures rows { IfOk result (λ left. rows_of (joined (lists_of left.items)) ≡ filter_map (row_without rev) (rows_of (joined (lists_of pieces.now)))) }
    ensures filled { IfOk result (λ left. AreFilled (lists_of left.items)) }
{
    let mut left = Vec::with_capacity(alloc, pieces.len())?;
    for piece in pieces {
        add_piece(alloc, &mut left, piece, rev, child)?;
    }
    Ok(left)
}

/// Adds what is left of a piece.
fn add_piece(
    alloc: Global,
    left: &mut Vec<Arc<Vec<Node>>>,
    piece: &Arc<Vec<Node>>,
    rev: RevId,
    child: RevId,
) -> Result<(), AllocError>
    requires some { 0 < length (items_of piece.now) }
    requires part { IsPart rev child (items_of piece.now) }
    ensures rows { IfOk result (λ _. rows_of (joined (lists_of left.new.items)) ≡ rows_of (joined (lists_of left.old.items)) ++ filter_map (row_without rev) (rows_of (items_of piece.now))) }
    ensures filled { AreFilled (lists_of left.old.items) → IfOk result (λ _. AreFilled (lists_of left.new.items)) }
{
    if stays(piece, rev, child) {
        left.push(Arc::try_clone(piece)?)?;
        return Ok(());
    }
    let nodes = nodes_without(alloc, piece, rev)?;
    if nodes.is_empty() {
        return Ok(());
    }
    left.push(Arc::new(alloc, nodes)?)?;
    Ok(())
}

/// Whether neither the revision nor its child can be among the nodes: then they stay as they are.
fn stays(nodes: &[Node], rev: RevId, child: RevId) -> bool
    requires { IsPart rev child nodes.now }
    ensures { result ≡ true → filter_map (row_without rev) (rows_of nodes.now) ≡ rows_of nodes.now }
{
    if !is_apart(nodes, rev) {
        return false;
    }
    is_apart(nodes, child)
}

/// Whether a revision is below the first node or above the last.
fn is_apart(nodes: &[Node], rev: RevId) -> bool
    requires { IsSorted nodes.now }
    ensures { result ≡ true → All (λ n. same_rev rev n.rev ≡ false) nodes.now }
{
    let [first, ..] = nodes else {
        return true;
    };
    if rev.cmp(&first.rev).is_lt() {
        return true;
    }
    is_above(nodes, rev)
}

/// Whether a revision is above the last node.
fn is_above(nodes: &[Node], rev: RevId) -> bool
    requires { IsSorted nodes.now }
    ensures { result ≡ true → All (λ n. same_rev rev n.rev ≡ false) nodes.now }
{
    let [.., last] = nodes else {
        return true;
    };
    last.rev.cmp(&rev).is_lt()
}

fn nodes_without(alloc: Global, nodes: &[Node], rev: RevId) -> Result<Vec<Node>, AllocError>
    ensures { IfOk result (λ left. rows_of left.items ≡ filter_map (row_without rev) (rows_of nodes.now)) }
{
    let mut left = Vec::with_capacity(alloc, nodes.len())?;
    for node in nodes {
        add_node(&mut left, node, rev)?;
    }
    Ok(left)
}

/// Adds a node of another revision.
fn add_node(left: &mut Vec<Node>, node: &Node, rev: RevId) -> Result<(), AllocError>
    ensures { IfOk result (λ _. rows_of left.new.items ≡ rows_of left.old.items ++ filter_map (row_without rev) (row_of node.now ∷ [])) }
{
    if node.rev == rev {
        return Ok(());
    }
    left.push(apart(node.share()?, rev))?;
    Ok(())
}

/// With its parent where that is another revision.
fn apart(node: Node, rev: RevId) -> Node
    ensures { row_of result ≡ row_apart rev (row_of node) }
{
    let Some(parent) = node.parent else {
        return node;
    };
    if parent == rev {
        return Node {
            rev: node.rev,
            parent: None,
            deleted: node.deleted,
            body: node.body,
            inner: node.inner,
        };
    }
    node
}
