//! Where a revision is among the pieces that nodes are kept in.
ghost use Rattle.std.specs.Prelude.{◌≡◌, ◌<◌, ◌≤◌, ◌-◌, IfSome, Contains, true, false, length, slice_index_or};
ghost use Rattle.std.specs.FinMap.Entries.{find};
ghost use Rattle.model.specs.Revision.{rev_cmp};
ghost use Rattle.revision_tree.specs.Nodes.{IsSorted, rows_of};
ghost use Rattle.revision_tree.specs.Rows.{Piece, items_of, lists_of, nodes_of, starts_by, AreFilled, IsPlaceFor};

use crate::node::Node;
use crate::rows::Rows;
use revision_id::RevId;
use std::sync::Arc;

/// The piece that a revision is in, or would be put into: the count of the older ones for the last.
pub(crate) fn piece_for(rows: &Rows, rev: RevId) -> usize
    requires sorted { IsSorted (nodes_of rows.now) }
    requires filled { AreFilled (lists_of rows.now.older.items) }
    ensures { IsPlaceFor rows.now rev result }
{
    if starts_at(&rows.last, rev) {
        return rows.older.len();
    }
    starting(&rows.older, rev).saturating_sub(1)
}

/// Whether the first node is not above the revision.
fn starts_at(nodes: &[Node], rev: RevId) -> bool
    ensures { result ≡ starts_by rev nodes.now }
{
    let [first, ..] = nodes else {
        return false;
    };
    !rev.cmp(&first.rev).is_lt()
}

/// How many pieces start at or below the revision.
fn starting(pieces: &[Arc<Vec<Node>>], rev: RevId) -> usize
    ensures bound { result ≤ length pieces.now }
    ensures below { (p : Piece) → 0 < result → starts_by rev (items_of (slice_index_or pieces.now (result - 1) p)) ≡ true }
    ensures above { (p : Piece) → result < length pieces.now → starts_by rev (items_of (slice_index_or pieces.now result p)) ≡ false }
{
    let mut low = 0;
    let mut high = pieces.len();
    while low < high {
        let middle = low + (high - low) / 2;
        if starts_at(&pieces[middle], rev) {
            low = middle + 1;
        } else {
            high = middle;
        }
    }
    low
}

/// The nodes of the one piece that a revision can be in.
pub(crate) fn piece_of(rows: &Rows, rev: RevId) -> &[Node]
    requires sorted { IsSorted (nodes_of rows.now) }
    requires filled { AreFilled (lists_of rows.now.older.items) }
    ensures sorted { IsSorted result.now }
    ensures found { find rev_cmp rev (rows_of (nodes_of rows.now)) ≡ find rev_cmp rev (rows_of result.now) }
    ensures listed { (n : Node) → Contains result.now n → Contains (nodes_of rows.now) n }
{
    let place = piece_for(rows, rev);
    if place < rows.older.len() {
        return &rows.older[place];
    }
    &rows.last
}
