//! Look-ups among the nodes, which ascend.
ghost use Rattle.std.specs.Prelude.{◌≡◌, ◌<◌, true, Some, IsTrue, IfOk, IfSome, length, slice_index_or, is_some, Contains, option_map, option_and_then};
ghost use Rattle.model.specs.Map.{get};
ghost use Rattle.model.specs.Tree.{knows, ancestors, has_child, parent_of};
ghost use Rattle.std.specs.FinMap.Entries.{find};
ghost use Rattle.model.specs.Revision.{rev_cmp};
ghost use Rattle.revision_tree.specs.Nodes.{IsSorted, IsPlaceOf, entry_of, row_of, rows_of, tree_of};
ghost use Rattle.revision_tree.specs.Rows.{AreFilled, IsRows, lists_of, nodes_of};

use crate::growth::has_parent;
use crate::node::Node;
use crate::place::{piece_for, piece_of};
use crate::rows::Rows;
use revision_id::RevId;
use std::alloc::{AllocError, Global};

/// The place of a revision among nodes, which ascend.
pub fn place_among(nodes: &[Node], rev: RevId) -> Option<usize>
    requires { IsSorted nodes.now }
    ensures known { is_some result ≡ knows (tree_of nodes.now) rev }
    ensures place { IfSome result (λ i. IsPlaceOf nodes.now rev i) }
{
    if let Some(place) = place_by_generation(nodes, rev) {
        return Some(place);
    }
    nodes.binary_search_by(|node| node.rev.cmp(&rev)).ok()
}

/// The place of a revision that is as many places as generations above the oldest, as each is in a history with no
/// conflicts, and as a common parent of conflicts does.
fn place_by_generation(nodes: &[Node], rev: RevId) -> Option<usize>
    ensures { IfSome result (λ i. IsPlaceOf nodes.now rev i) }
{
    let [oldest, ..] = nodes else {
        return None;
    };
    let place = rev.generation().saturating_sub(oldest.rev.generation()) as usize;
    if place >= nodes.len() {
        return None;
    }
    if nodes[place].rev == rev {
        return Some(place);
    }
    None
}

/// The node of a revision among all of them.
pub(crate) fn among(rows: &Rows, rev: RevId) -> Option<&Node>
    requires sorted { IsSorted (nodes_of rows.now) }
    requires filled { AreFilled (lists_of rows.now.older.items) }
    ensures found { option_map (λ n. (row_of n.now).1) result ≡ find rev_cmp rev (rows_of (nodes_of rows.now)) }
    ensures listed { IfSome result (λ n. Contains (nodes_of rows.now) n.now) }
    ensures rev { IfSome result (λ n. n.now.rev ≡ rev) }
{
    let piece = piece_of(rows, rev);
    let Some(place) = place_among(piece, rev) else {
        return None;
    };
    Some(&piece[place])
}

pub(crate) fn node_of(rows: &Rows, rev: RevId) -> Option<&Node>
    requires { IsRows rows.now }
    ensures found { option_map (λ n. (entry_of n.now).1) result ≡ get (tree_of (nodes_of rows.now)) rev }
    ensures inner { IfSome result (λ n. n.now.inner ≡ has_child (tree_of (nodes_of rows.now)) rev) }
{
    among(rows, rev)
}

pub(crate) fn parent_in(rows: &Rows, rev: RevId) -> Option<RevId>
    requires { IsRows rows.now }
    ensures { result ≡ parent_of (tree_of (nodes_of rows.now)) rev }
{
    node_of(rows, rev)?.parent
}

/// A child of a revision, if one is found.
pub(crate) fn child_of(rows: &Rows, rev: RevId) -> Option<RevId>
    requires { IsRows rows.now }
    ensures { IfSome result (λ child. parent_of (tree_of (nodes_of rows.now)) child ≡ Some rev) }
{
    let Some(child) = child_from(rows, rev) else {
        return None;
    };
    if has_parent(parent_in(rows, child), rev) {
        return Some(child);
    }
    None
}

/// The most pieces in which a child is looked for.
const MOST_PIECES: usize = 16;

/// The same, looked for among the next revisions, of its generation and the next.
fn child_from(rows: &Rows, rev: RevId) -> Option<RevId>
    requires { IsRows rows.now }
{
    let begin = piece_for(rows, rev);
    for place in begin..rows.older.len() {
        if place - begin >= MOST_PIECES {
            return None;
        }
        let piece = &rows.older[place];
        if begins_beyond(piece, rev) {
            return None;
        }
        if let Some(child) = child_among(piece, rev) {
            return Some(child);
        }
    }
    child_among(&rows.last, rev)
}

/// Whether the first node is more than one generation below a revision.
fn begins_beyond(nodes: &[Node], rev: RevId) -> bool {
    let [first, ..] = nodes else {
        return false;
    };
    first.rev.generation().saturating_sub(rev.generation()) > 1
}

fn child_among(nodes: &[Node], rev: RevId) -> Option<RevId> {
    for node in nodes {
        if has_parent(node.parent, rev) {
            return Some(node.rev);
        }
    }
    None
}

/// A known revision and the known ones above it, newest first.
pub(crate) fn path_from(alloc: Global, rows: &Rows, rev: RevId) -> Result<Vec<RevId>, AllocError>
    requires rows { IsRows rows.now }
    requires known { knows (tree_of (nodes_of rows.now)) rev ≡ true }
    ensures { IfOk result (λ path. path.items ≡ ancestors (tree_of (nodes_of rows.now)) (Some rev)) }
{
    let mut path = Vec::new(alloc);
    let mut next = Some(rev);
    while let Some(rev) = next {
        path.push(rev)?;
        next = parent_in(rows, rev);
    }
    Ok(path)
}
