//! Nodes without the bodies of those that are parents.
ghost use Rattle.std.specs.Prelude.{◌≡◌, true, IfOk, map};
ghost use Rattle.revision_tree.specs.Nodes.{row_of, rows_of};
ghost use Rattle.revision_tree.specs.Rows.{items_of, joined, lists_of, nodes_of, AreFilled};
ghost use Rattle.revision_tree.specs.Bared.{bare_row};

use crate::node::Node;
use crate::rows::Rows;
use std::alloc::{AllocError, Global};
use std::sync::Arc;

/// Shares the pieces in which no parent has a body.
pub(crate) fn stripped(alloc: Global, rows: &Rows) -> Result<Rows, AllocError>
    requires { AreFilled (lists_of rows.now.older.items) }
    ensures rows { IfOk result (λ r. rows_of (nodes_of r) ≡ map bare_row (rows_of (nodes_of rows.now))) }
    ensures filled { IfOk result (λ r. AreFilled (lists_of r.older.items)) }
{
    Ok(Rows {
        older: bare_pieces(alloc, &rows.older)?,
        last: bared(alloc, &rows.last)?,
    })
}

fn bare_pieces(alloc: Global, pieces: &[Arc<Vec<Node>>]) -> Result<Vec<Arc<Vec<Node>>>, AllocError>
    ensures { IfOk result (λ bare. map rows_of (lists_of bare.items) ≡ map (λ ns. map bare_row (rows_of ns)) (lists_of pieces.now)) }
{
    let mut bare = Vec::with_capacity(alloc, pieces.len())?;
    for piece in pieces {
        bare.push(bare_piece(alloc, piece)?)?;
    }
    Ok(bare)
}

fn bare_piece(alloc: Global, piece: &Arc<Vec<Node>>) -> Result<Arc<Vec<Node>>, AllocError>
    ensures { IfOk result (λ bare. rows_of (items_of bare) ≡ map bare_row (rows_of (items_of piece.now))) }
{
    if are_bare(piece) {
        return Arc::try_clone(piece);
    }
    let nodes = bared(alloc, piece)?;
    Ok(Arc::new(alloc, nodes)?)
}

/// Whether no parent has a body.
fn are_bare(nodes: &[Node]) -> bool
    ensures { result ≡ true → map bare_row (rows_of nodes.now) ≡ rows_of nodes.now }
{
    for node in nodes {
        if node.inner && node.body.is_some() {
            return false;
        }
    }
    true
}

fn bared(alloc: Global, nodes: &[Node]) -> Result<Vec<Node>, AllocError>
    ensures { IfOk result (λ bare. rows_of bare.items ≡ map bare_row (rows_of nodes.now)) }
{
    let mut bare = Vec::with_capacity(alloc, nodes.len())?;
    for node in nodes {
        bare.push(bare_node(node)?)?;
    }
    Ok(bare)
}

fn bare_node(node: &Node) -> Result<Node, AllocError>
    ensures { IfOk result (λ bare. row_of bare ≡ bare_row (row_of node.now)) }
{
    if !node.inner {
        return node.share();
    }
    Ok(Node {
        rev: node.rev,
        parent: node.parent,
        deleted: node.deleted,
        body: None,
        inner: true,
    })
}
