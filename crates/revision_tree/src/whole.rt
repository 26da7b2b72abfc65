//! All nodes of a tree, as a list and from one.
ghost use Rattle.std.specs.Prelude.{◌≡◌, ◌≤◌, true, ◌++◌, ◌∷◌, [], List, IfOk, length, min};
ghost use Rattle.revision_tree.specs.declared.node.Node.{Node};
ghost use Rattle.model.specs.Revision.{Rev};
ghost use Rattle.model.specs.Tree.{knows};
ghost use Rattle.revision_tree.specs.Nodes.{rows_of, tree_of};
ghost use Rattle.revision_tree.specs.Rows.{lists_of, nodes_of, AreFilled, IsRows};

use crate::node::Node;
use crate::rows::{MOST, Rows};
use revision_id::RevId;
use std::alloc::{AllocError, Global};
use std::mem;
use std::sync::Arc;

/// The revision of the first node.
pub(crate) fn first(rows: &Rows) -> RevId
    requires { IsRows rows.now }
    ensures known { knows (tree_of (nodes_of rows.now)) result ≡ true }
    ensures oldest { (r : Rev) → knows (tree_of (nodes_of rows.now)) r ≡ true → result.generation ≤ r.generation }
{
    let [node, ..] = first_piece(rows) else {
        unreachable!()
    };
    node.rev
}

/// The nodes that are kept with the first.
fn first_piece(rows: &Rows) -> &[Node]
    requires { AreFilled (lists_of rows.now.older.items) }
    ensures parts { (after : List Node) × (nodes_of rows.now ≡ result.now ++ after) }
    ensures none { result.now ≡ [] → nodes_of rows.now ≡ [] }
{
    if rows.older.is_empty() {
        return &rows.last;
    }
    &rows.older[0]
}

/// The revision of the last node.
pub(crate) fn last(rows: &Rows) -> RevId
    requires { IsRows rows.now }
    ensures known { knows (tree_of (nodes_of rows.now)) result ≡ true }
    ensures newest { (r : Rev) → knows (tree_of (nodes_of rows.now)) r ≡ true → r.generation ≤ result.generation }
{
    let [.., node] = last_piece(rows) else {
        unreachable!()
    };
    node.rev
}

/// The nodes that are kept with the last.
fn last_piece(rows: &Rows) -> &[Node]
    requires { AreFilled (lists_of rows.now.older.items) }
    ensures parts { (before : List Node) × (nodes_of rows.now ≡ before ++ result.now) }
    ensures none { result.now ≡ [] → nodes_of rows.now ≡ [] }
{
    if rows.older.is_empty() {
        return &rows.last;
    }
    if rows.last.is_empty() {
        return &rows.older[rows.older.len() - 1];
    }
    &rows.last
}

/// How many nodes there are, up to the greatest number.
pub(crate) fn count(rows: &Rows) -> usize
    ensures { result ≡ min (length (nodes_of rows.now)) usize.MAX }
{
    let mut count = rows.last.len();
    for piece in &rows.older {
        count = count.saturating_add(piece.len());
    }
    count
}

/// All nodes again in one list.
pub(crate) fn all(alloc: Global, rows: &Rows) -> Result<Vec<Node>, AllocError>
    ensures { IfOk result (λ nodes. rows_of nodes.items ≡ rows_of (nodes_of rows.now)) }
{
    let mut nodes = Vec::with_capacity(alloc, count(rows))?;
    for piece in &rows.older {
        add_all(&mut nodes, piece)?;
    }
    add_all(&mut nodes, &rows.last)?;
    Ok(nodes)
}

fn add_all(nodes: &mut Vec<Node>, others: &[Node]) -> Result<(), AllocError>
    ensures { IfOk result (λ _. rows_of nodes.new.items ≡ rows_of nodes.old.items ++ rows_of others.now) }
{
    for node in others {
        nodes.push(node.share()?)?;
    }
    Ok(())
}

/// The nodes in pieces.
pub(crate) fn pieces_of(alloc: Global, nodes: Vec<Node>) -> Result<Rows, AllocError>
    ensures nodes { IfOk result (λ r. nodes_of r ≡ nodes.items) }
    ensures filled { IfOk result (λ r. AreFilled (lists_of r.older.items)) }
{
    let mut rows = Rows::with_room(alloc, nodes.len())?;
    for node in nodes {
        push(alloc, &mut rows, node)?;
    }
    Ok(rows)
}

/// Puts a node behind the others.
fn push(alloc: Global, rows: &mut Rows, node: Node) -> Result<(), AllocError>
    ensures nodes { IfOk result (λ _. nodes_of rows.new ≡ nodes_of rows.old ++ node ∷ []) }
    ensures filled { AreFilled (lists_of rows.old.older.items) → IfOk result (λ _. AreFilled (lists_of rows.new.older.items)) }
{
    if rows.last.len() >= MOST {
        let next = Vec::with_capacity(alloc, MOST)?;
        let full = mem::replace(&mut rows.last, next);
        rows.older.push(Arc::new(alloc, full)?)?;
    }
    rows.last.push(node)?;
    Ok(())
}
