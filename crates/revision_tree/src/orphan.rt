//! Nodes of which one loses its parent.
ghost use Rattle.std.specs.Prelude.{◌≡◌, true, IfOk, is_some};
ghost use Rattle.std.specs.FinMap.Entries.{find, put as put_entry};
ghost use Rattle.model.specs.Revision.{rev_cmp};
ghost use Rattle.revision_tree.specs.Growth.{seen_in};
ghost use Rattle.revision_tree.specs.Nodes.{IsSorted, row_of, rows_of};
ghost use Rattle.revision_tree.specs.Orphans.{with_no_parent};
ghost use Rattle.revision_tree.specs.Rows.{lists_of, nodes_of, AreFilled};

use crate::node::Node;
use crate::put::put;
use crate::rows::Rows;
use crate::search::among;
use revision_id::RevId;
use std::alloc::{AllocError, Global};

/// The same nodes, of which one has no parent.
pub(crate) fn without_parent(alloc: Global, rows: Rows, rev: RevId) -> Result<Rows, AllocError>
    requires sorted { IsSorted (nodes_of rows) }
    requires filled { AreFilled (lists_of rows.older.items) }
    requires known { is_some (find rev_cmp rev (rows_of (nodes_of rows))) ≡ true }
    ensures rows { IfOk result (λ r. rows_of (nodes_of r) ≡ put_entry rev_cmp rev (with_no_parent (seen_in (rows_of (nodes_of rows)) rev)) (rows_of (nodes_of rows))) }
    ensures filled { IfOk result (λ r. AreFilled (lists_of r.older.items)) }
{
    let Some(node) = among(&rows, rev) else {
        unreachable!();
    };
    let orphan = orphan(node)?;
    let mut rows = rows;
    put(alloc, &mut rows, orphan)?;
    Ok(rows)
}

/// The same again with no parent.
fn orphan(node: &Node) -> Result<Node, AllocError>
    ensures { IfOk result (λ n. row_of n ≡ (node.now.rev, with_no_parent (row_of node.now).1)) }
{
    let same = node.share()?;
    Ok(Node {
        rev: same.rev,
        parent: None,
        deleted: same.deleted,
        body: same.body,
        inner: same.inner,
    })
}
