//! Nodes without the oldest.
ghost use Rattle.std.specs.Prelude.{◌≡◌, ◌<◌, [], ◌∷◌, ◌++◌, true, Some, IfOk, All, length};
ghost use Rattle.std.specs.List.{filter_map};
ghost use Rattle.revision_tree.specs.Nodes.{row_of, rows_of};
ghost use Rattle.revision_tree.specs.Rows.{items_of, joined, lists_of, nodes_of, AreFilled, IsRows};
ghost use Rattle.revision_tree.specs.Shortened.{cut_row, row_above, IsRising};

use crate::node::Node;
use crate::rows::Rows;
use std::alloc::{AllocError, Global};
use std::sync::Arc;

/// The nodes above a generation, each with its parent where that is above it too. Shares the pieces that begin far enough above it.
pub(crate) fn above(alloc: Global, rows: Rows, generation: u32) -> Result<Rows, AllocError>
    requires { IsRows rows }
    ensures rows { IfOk result (λ r. rows_of (nodes_of r) ≡ filter_map (row_above generation) (rows_of (nodes_of rows))) }
    ensures filled { IfOk result (λ r. AreFilled (lists_of r.older.items)) }
{
    let Rows { older, last } = rows;
    let older = pieces_above(alloc, &older, generation)?;
    let last = last_above(alloc, last, generation)?;
    Ok(Rows { older, last })
}

fn pieces_above(
    alloc: Global,
    pieces: &[Arc<Vec<Node>>],
    generation: u32,
) -> Result<Vec<Arc<Vec<Node>>>, AllocError>
    requires filled { AreFilled (lists_of pieces.now) }
    requires rising { All IsRising (lists_of pieces.now) }
    ensures rows { IfOk result (λ above. rows_of (joined (lists_of above.items)) ≡ filter_map (row_above generation) (rows_of (joined (lists_of pieces.now)))) }
    ensures filled { IfOk result (λ above. AreFilled (lists_of above.items)) }
{
    let mut above = Vec::with_capacity(alloc, pieces.len())?;
    for piece in pieces {
        add_piece(alloc, &mut above, piece, generation)?;
    }
    Ok(above)
}

/// Adds what a piece has above a generation.
fn add_piece(
    alloc: Global,
    above: &mut Vec<Arc<Vec<Node>>>,
    piece: &Arc<Vec<Node>>,
    generation: u32,
) -> Result<(), AllocError>
    requires some { 0 < length (items_of piece.now) }
    requires rising { IsRising (items_of piece.now) }
    ensures rows { IfOk result (λ _. rows_of (joined (lists_of above.new.items)) ≡ rows_of (joined (lists_of above.old.items)) ++ filter_map (row_above generation) (rows_of (items_of piece.now))) }
    ensures filled { AreFilled (lists_of above.old.items) → IfOk result (λ _. AreFilled (lists_of above.new.items)) }
{
    if begin_above(piece, generation) {
        above.push(Arc::try_clone(piece)?)?;
        return Ok(());
    }
    let nodes = nodes_above(alloc, piece, generation)?;
    if nodes.is_empty() {
        return Ok(());
    }
    above.push(Arc::new(alloc, nodes)?)?;
    Ok(())
}

fn last_above(alloc: Global, last: Vec<Node>, generation: u32) -> Result<Vec<Node>, AllocError>
    requires { IsRising last.items }
    ensures { IfOk result (λ above. rows_of above.items ≡ filter_map (row_above generation) (rows_of last.items)) }
{
    if begin_above(&last, generation) {
        return Ok(last);
    }
    nodes_above(alloc, &last, generation)
}

/// Whether the first node is more than one generation above: then all stay as they are, and their parents are above too.
fn begin_above(nodes: &[Node], generation: u32) -> bool
    requires { IsRising nodes.now }
    ensures { result ≡ true → filter_map (row_above generation) (rows_of nodes.now) ≡ rows_of nodes.now }
{
    let [first, ..] = nodes else {
        return true;
    };
    first.rev.generation().saturating_sub(generation) > 1
}

fn nodes_above(alloc: Global, nodes: &[Node], generation: u32) -> Result<Vec<Node>, AllocError>
    ensures { IfOk result (λ above. rows_of above.items ≡ filter_map (row_above generation) (rows_of nodes.now)) }
{
    let mut above = Vec::with_capacity(alloc, nodes.len())?;
    for node in nodes {
        add_node(&mut above, node, generation)?;
    }
    Ok(above)
}

/// Adds a node where it is above a generation.
fn add_node(above: &mut Vec<Node>, node: &Node, generation: u32) -> Result<(), AllocError>
    ensures { IfOk result (λ _. rows_of above.new.items ≡ rows_of above.old.items ++ filter_map (row_above generation) (row_of node.now ∷ [])) }
{
    if node.rev.generation() <= generation {
        return Ok(());
    }
    above.push(cut(node.share()?, generation))?;
    Ok(())
}

/// With its parent where that is above a generation.
fn cut(node: Node, generation: u32) -> Node
    ensures { row_of result ≡ cut_row generation (row_of node) }
{
    let Some(parent) = node.parent else {
        return node;
    };
    if parent.generation() > generation {
        return node;
    }
    Node {
        rev: node.rev,
        parent: None,
        deleted: node.deleted,
        body: node.body,
        inner: node.inner,
    }
}
