//! Nodes put in their places.
ghost use Rattle.std.specs.Prelude.{◌≡◌, ◌<◌, ◌++◌, [], suc, IfOk, length, take, drop, slice_index_or};
ghost use Rattle.std.specs.FinMap.Entries.{put as put_entry};
ghost use Rattle.model.specs.Revision.{rev_cmp};
ghost use Rattle.revision_tree.specs.Nodes.{IsSorted, row_of, rows_of};
ghost use Rattle.revision_tree.specs.declared.rows.TheConstants.{MOST};
ghost use Rattle.revision_tree.specs.Rows.{lists_of, nodes_of, AreFilled, joined};

use crate::node::Node;
use crate::place::piece_for;
use crate::rows::{MOST, Rows, copied};
use std::alloc::{AllocError, Global};
use std::sync::Arc;

/// Puts a node in its place, or in the place of the one of its revision.
pub(crate) fn put(alloc: Global, rows: &mut Rows, node: Node) -> Result<(), AllocError>
    requires sorted { IsSorted (nodes_of rows.old) }
    requires filled { AreFilled (lists_of rows.old.older.items) }
    ensures put { IfOk result (λ _. rows_of (nodes_of rows.new) ≡ put_entry rev_cmp node.rev (row_of node).1 (rows_of (nodes_of rows.old))) }
    ensures filled { IfOk result (λ _. AreFilled (lists_of rows.new.older.items)) }
{
    let place = piece_for(rows, node.rev);
    if place < rows.older.len() {
        return put_older(alloc, &mut rows.older, place, node);
    }
    put_among(&mut rows.last, node)?;
    settle(alloc, &mut rows.older, &mut rows.last)
}

/// Puts a node among ascending ones.
fn put_among(nodes: &mut Vec<Node>, node: Node) -> Result<(), AllocError>
    requires { IsSorted nodes.old.items }
    ensures { IfOk result (λ _. rows_of nodes.new.items ≡ put_entry rev_cmp node.rev (row_of node).1 (rows_of nodes.old.items)) }
{
    match nodes.binary_search_by(|other| other.rev.cmp(&node.rev)) {
        Ok(place) => nodes[place] = node,
        Err(place) => nodes.insert(place, node)?,
    }
    Ok(())
}

/// Makes a piece of the first nodes of those that are too many.
fn settle(
    alloc: Global,
    older: &mut Vec<Arc<Vec<Node>>>,
    last: &mut Vec<Node>,
) -> Result<(), AllocError>
    ensures nodes { IfOk result (λ _. joined (lists_of older.new.items) ++ last.new.items ≡ joined (lists_of older.old.items) ++ last.old.items) }
    ensures filled { AreFilled (lists_of older.old.items) → IfOk result (λ _. AreFilled (lists_of older.new.items)) }
{
    if last.len() <= MOST {
        return Ok(());
    }
    let newest = last.split_off(MOST)?;
    let piece = std::mem::replace(last, newest);
    older.push(Arc::new(alloc, piece)?)?;
    Ok(())
}

/// Puts a node into a copy of a piece.
fn put_older(
    alloc: Global,
    older: &mut Vec<Arc<Vec<Node>>>,
    place: usize,
    node: Node,
) -> Result<(), AllocError>
    requires place { place < length older.old.items }
    requires sorted { IsSorted (slice_index_or (lists_of older.old.items) place []) }
    ensures put { IfOk result (λ _. rows_of (joined (lists_of older.new.items)) ≡ rows_of (joined (take place (lists_of older.old.items)))
        ++ (put_entry rev_cmp node.rev (row_of node).1 (rows_of (slice_index_or (lists_of older.old.items) place [])) ++ rows_of (joined (drop (suc place) (lists_of older.old.items))))) }
    ensures filled { AreFilled (lists_of older.old.items) → IfOk result (λ _. AreFilled (lists_of older.new.items)) }
{
    let mut nodes = copied(alloc, &older[place])?;
    put_among(&mut nodes, node)?;
    replace(alloc, older, place, nodes)
}

/// Puts nodes in the place of a piece.
fn replace(
    alloc: Global,
    older: &mut Vec<Arc<Vec<Node>>>,
    place: usize,
    nodes: Vec<Node>,
) -> Result<(), AllocError>
    requires place { place < length older.old.items }
    requires some { 0 < length nodes.items }
    ensures nodes { IfOk result (λ _. joined (lists_of older.new.items) ≡ joined (take place (lists_of older.old.items)) ++ (nodes.items ++ joined (drop (suc place) (lists_of older.old.items)))) }
    ensures filled { AreFilled (lists_of older.old.items) → IfOk result (λ _. AreFilled (lists_of older.new.items)) }
{
    if nodes.len() > MOST {
        return part(alloc, older, place, nodes);
    }
    older[place] = Arc::new(alloc, nodes)?;
    Ok(())
}

/// Puts two pieces in the place of one that grew too long.
fn part(
    alloc: Global,
    older: &mut Vec<Arc<Vec<Node>>>,
    place: usize,
    nodes: Vec<Node>,
) -> Result<(), AllocError>
    requires place { place < length older.old.items }
    requires long { MOST < length nodes.items }
    ensures nodes { IfOk result (λ _. joined (lists_of older.new.items) ≡ joined (take place (lists_of older.old.items)) ++ (nodes.items ++ joined (drop (suc place) (lists_of older.old.items)))) }
    ensures filled { AreFilled (lists_of older.old.items) → IfOk result (λ _. AreFilled (lists_of older.new.items)) }
{
    let mut nodes = nodes;
    let upper = nodes.split_off(MOST / 2)?;
    let upper = Arc::new(alloc, upper)?;
    let lower = Arc::new(alloc, nodes)?;
    older.insert(place + 1, upper)?;
    older[place] = lower;
    Ok(())
}
