//! Paths grafted onto trees.
ghost use Rattle.std.specs.Prelude.{◌≡◌, true, false, Bool, Option, Some, IfOk};
ghost use Rattle.std.specs.Arc.{arc_value};
ghost use Rattle.std.specs.FinMap.Entries.{find, put as put_entry};
ghost use Rattle.model.specs.Body.{Body as BodyText};
ghost use Rattle.model.specs.Map.{entries};
ghost use Rattle.model.specs.Revision.{rev_cmp};
ghost use Rattle.model.specs.Tree.{is_at};
ghost use Rattle.model.specs.TreeChange.{IsPath, linked_to, given, unseen};
ghost use Rattle.revision_tree.specs.Nodes.{IsSorted, row_of, rows_of, tree_of};
ghost use Rattle.revision_tree.specs.Rows.{AreFilled, lists_of, nodes_of};
ghost use Rattle.revision_tree.specs.Growth.{AreGround, AreLinked, IsRest, as_newest, as_parent, grown, seen_in};

use crate::node::Node;
use crate::put::put;
use crate::rows::Rows;
use crate::search::among;
use json_profile::Body;
use revision_id::RevId;
use std::alloc::{AllocError, Global};
use std::sync::Arc;

/// Adds the members of a path, newest first, each next one the parent of the one before, and the body and the flag for the
/// newest where it has no body.
pub(crate) fn grow(
    alloc: Global,
    rows: &mut Rows,
    path: &[RevId],
    body: Arc<Body>,
    deleted: bool,
) -> Result<(), AllocError>
    requires path { IsPath path.now }
    requires ground { AreGround (nodes_of rows.old) }
    requires filled { AreFilled (lists_of rows.old.older.items) }
    ensures grown { IfOk result (λ _. rows_of (nodes_of rows.new) ≡ entries (grown path.now (arc_value body) deleted (tree_of (nodes_of rows.old)))) }
    ensures filled { IfOk result (λ _. AreFilled (lists_of rows.new.older.items)) }
{
    let [newest, older @ ..] = path else {
        return Ok(());
    };
    link(alloc, rows, older)?;
    add_newest(alloc, rows, *newest, older, body, deleted)
}

/// Adds members of a path, each of which is the parent of another.
fn link(alloc: Global, rows: &mut Rows, older: &[RevId]) -> Result<(), AllocError>
    requires path { IsRest older.now }
    requires ground { AreGround (nodes_of rows.old) }
    requires filled { AreFilled (lists_of rows.old.older.items) }
    ensures linked { IfOk result (λ _. AreLinked older.now (tree_of (nodes_of rows.old)) (nodes_of rows.new)) }
    ensures filled { IfOk result (λ _. AreFilled (lists_of rows.new.older.items)) }
{
    for place in (0..older.len()).rev() {
        add_parent(alloc, rows, older[place], &older[place + 1..])?;
    }
    Ok(())
}

/// Adds a member that is the parent of another.
fn add_parent(alloc: Global, rows: &mut Rows, rev: RevId, older: &[RevId]) -> Result<(), AllocError>
    requires sorted { IsSorted (nodes_of rows.old) }
    requires filled { AreFilled (lists_of rows.old.older.items) }
    ensures put { IfOk result (λ _. rows_of (nodes_of rows.new) ≡ put_entry rev_cmp rev (as_parent older.now (seen_in (rows_of (nodes_of rows.old)) rev)) (rows_of (nodes_of rows.old))) }
    ensures filled { IfOk result (λ _. AreFilled (lists_of rows.new.older.items)) }
{
    if is_parent(rows, rev, older) {
        return Ok(());
    }
    let node = linked(member(rows, rev)?, older);
    put(alloc, rows, marked(node))
}

/// Adds the newest member.
fn add_newest(
    alloc: Global,
    rows: &mut Rows,
    rev: RevId,
    older: &[RevId],
    body: Arc<Body>,
    deleted: bool,
) -> Result<(), AllocError>
    requires sorted { IsSorted (nodes_of rows.old) }
    requires filled { AreFilled (lists_of rows.old.older.items) }
    ensures put { IfOk result (λ _. rows_of (nodes_of rows.new) ≡ put_entry rev_cmp rev (as_newest older.now (arc_value body) deleted (seen_in (rows_of (nodes_of rows.old)) rev)) (rows_of (nodes_of rows.old))) }
    ensures filled { IfOk result (λ _. AreFilled (lists_of rows.new.older.items)) }
{
    let node = linked(member(rows, rev)?, older);
    put(alloc, rows, filled(node, body, deleted))
}

/// Whether a member is known as a parent, with the next one as its own.
fn is_parent(rows: &Rows, rev: RevId, older: &[RevId]) -> bool
    requires sorted { IsSorted (nodes_of rows.now) }
    requires filled { AreFilled (lists_of rows.now.older.items) }
    ensures { result ≡ true → find rev_cmp rev (rows_of (nodes_of rows.now)) ≡ Some (as_parent older.now (seen_in (rows_of (nodes_of rows.now)) rev)) }
{
    let Some(node) = among(rows, rev) else {
        return false;
    };
    node.inner && has_next(node.parent, older)
}

fn has_next(parent: Option<RevId>, older: &[RevId]) -> bool
    ensures { result ≡ true → (deleted : Bool) (body : Option BodyText) → linked_to older.now (record { parent = parent; deleted = deleted; body = body }) ≡ record { parent = parent; deleted = deleted; body = body } }
{
    let [next, ..] = older else {
        return true;
    };
    has_parent(parent, *next)
}

pub(crate) fn has_parent(parent: Option<RevId>, next: RevId) -> bool
    ensures { result ≡ is_at parent next }
{
    let Some(parent) = parent else {
        return false;
    };
    parent == next
}

/// The node of a revision, or one of which nothing is known.
fn member(rows: &Rows, rev: RevId) -> Result<Node, AllocError>
    requires sorted { IsSorted (nodes_of rows.now) }
    requires filled { AreFilled (lists_of rows.now.older.items) }
    ensures { IfOk result (λ node. row_of node ≡ (rev, seen_in (rows_of (nodes_of rows.now)) rev)) }
{
    let Some(node) = among(rows, rev) else {
        return Ok(unseen_node(rev));
    };
    node.share()
}

/// A node of which nothing is known.
fn unseen_node(rev: RevId) -> Node
    ensures { row_of result ≡ (rev, (unseen, false)) }
{
    Node {
        rev,
        parent: None,
        deleted: false,
        body: None,
        inner: false,
    }
}

/// With the mark of a parent.
fn marked(node: Node) -> Node
    ensures { row_of result ≡ (node.rev, ((row_of node).1.0, true)) }
{
    Node {
        rev: node.rev,
        parent: node.parent,
        deleted: node.deleted,
        body: node.body,
        inner: true,
    }
}

/// With the next member as its parent.
fn linked(node: Node, older: &[RevId]) -> Node
    ensures { row_of result ≡ (node.rev, (linked_to older.now (row_of node).1.0, node.inner)) }
{
    let Some(next) = older.first() else {
        return node;
    };
    Node {
        rev: node.rev,
        parent: Some(*next),
        deleted: node.deleted,
        body: node.body,
        inner: node.inner,
    }
}

/// With the body and the flag, where it has no body.
fn filled(node: Node, body: Arc<Body>, deleted: bool) -> Node
    ensures { row_of result ≡ (node.rev, (given (arc_value body) deleted (row_of node).1.0, node.inner)) }
{
    if node.body.is_some() {
        return node;
    }
    Node {
        rev: node.rev,
        parent: node.parent,
        deleted,
        body: Some(body),
        inner: node.inner,
    }
}
