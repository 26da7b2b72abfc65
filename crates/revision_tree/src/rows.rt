//! The revisions of a tree in ascending order, of which trees may share all but the newest.
ghost use Rattle.std.specs.Prelude.{◌≡◌, ◌<◌, [], IfOk, All, length, map};
ghost use Rattle.revision_tree.specs.Nodes.{row_of, rows_of};
ghost use Rattle.revision_tree.specs.Rows.{items_of, lists_of, nodes_of, AreFilled};

use crate::node::Node;
use std::alloc::{AllocError, Global};
use std::sync::Arc;

/// The most nodes that are kept together, in a piece: a write copies the nodes of the piece that it changes, and raises one
/// count of owners for each other piece.
pub(crate) const MOST: usize = 64;

/// Nodes in ascending order.
#[derive(Drop)]
pub(crate) struct Rows {
    /// The older ones, in pieces that other trees may hold too. None of these is empty.
    pub(crate) older: Vec<Arc<Vec<Node>>>,
    pub(crate) last: Vec<Node>,
}

impl Rows {
    /// No nodes, with room for so many of them, up to one more than are kept together: a piece is split when that one is in it.
    pub(crate) fn with_room(alloc: Global, nodes: usize) -> Result<Rows, AllocError>
        ensures nodes { IfOk result (λ r. nodes_of r ≡ []) }
        ensures filled { IfOk result (λ r. AreFilled (lists_of r.older.items)) }
    {
        Ok(Rows {
            older: Vec::new(alloc),
            last: Vec::with_capacity(alloc, nodes.min(MOST + 1))?,
        })
    }

    /// The same nodes, with room for one more.
    pub(crate) fn share(&self, alloc: Global) -> Result<Rows, AllocError>
        ensures nodes { IfOk result (λ r. rows_of (nodes_of r) ≡ rows_of (nodes_of self.now)) }
        ensures filled { AreFilled (lists_of self.now.older.items) → IfOk result (λ r. AreFilled (lists_of r.older.items)) }
    {
        Ok(Rows {
            older: shared(alloc, &self.older)?,
            last: copied(alloc, &self.last)?,
        })
    }
}

/// Pieces with one more owner each.
fn shared(alloc: Global, pieces: &[Arc<Vec<Node>>]) -> Result<Vec<Arc<Vec<Node>>>, AllocError>
    ensures { IfOk result (λ same. lists_of same.items ≡ lists_of pieces.now) }
{
    if pieces.is_empty() {
        return Ok(Vec::new(alloc));
    }
    let mut same = Vec::with_capacity(alloc, pieces.len())?;
    for piece in pieces {
        same.push(Arc::try_clone(piece)?)?;
    }
    Ok(same)
}

/// The same nodes again, with room for one more.
pub(crate) fn copied(alloc: Global, nodes: &[Node]) -> Result<Vec<Node>, AllocError>
    ensures { IfOk result (λ same. rows_of same.items ≡ rows_of nodes.now) }
{
    let mut same = Vec::with_capacity(alloc, nodes.len().saturating_add(1))?;
    for node in nodes {
        same.push(node.share()?)?;
    }
    Ok(same)
}
