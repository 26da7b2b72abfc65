//! The revisions of a document, as the text of a base writes them.
ghost use Rattle.std.specs.Prelude.{◌≡◌, ◌++◌, List, Option, All, map, option_copied, option_map, Some, IfOk, IfSome, OnOk, string_bytes};
ghost use Rattle.serde_json.specs.Data.{array, boolean, object};
ghost use Rattle.serde_json.specs.View.{items_of};
ghost use Rattle.serde_json.specs.Written.{compact_text};
ghost use Rattle.model.specs.Revision.{Rev, IsRev};
ghost use Rattle.model.specs.Tree.{Tree, Revision, IsTree, IsInRange};
ghost use Rattle.document_json.specs.Written.{rev_data};
ghost use Rattle.revision_tree.specs.Nodes.{entries_of, entry_of};
ghost use Rattle.base_json.specs.Base.{IsKnown, revision_data, tree_data};
ghost use Rattle.base_json.specs.Fronts.{parent_front};

use crate::each::{ListItem, read_each};
use document_json::put_comma;
use history_json::{LineValue, body_in, put_body};
use json_profile::{Body, Json};
use revision_id::RevId;
use revision_tree::{Node, RevTree};
use std::alloc::{AllocError, Global};

/// Writes the revisions, rising.
pub(crate) fn put_tree(text: &mut String, alloc: Global, tree: &RevTree) -> Result<(), AllocError>
    ensures { OnOk result (string_bytes text.new ≡ string_bytes text.old ++ compact_text (tree_data tree.now)) }
{
    text.push_str("[")?;
    let mut later = false;
    for node in tree.nodes() {
        put_comma(text, later)?;
        put_node(text, alloc, node)?;
        later = true;
    }
    text.push_str("]")
}

/// Writes a revision.
fn put_node(text: &mut String, alloc: Global, node: &Node) -> Result<(), AllocError>
    ensures { OnOk result (string_bytes text.new
        ≡ string_bytes text.old ++ compact_text (revision_data (entry_of node.now))) }
{
    put_revision(
        text,
        alloc,
        &node.rev,
        node.parent.as_ref(),
        node.deleted,
        node.body.as_deref(),
    )
}

/// Writes a revision of these parts.
fn put_revision(
    text: &mut String,
    alloc: Global,
    rev: &RevId,
    parent: Option<&RevId>,
    deleted: bool,
    body: Option<&Body>,
) -> Result<(), AllocError>
    ensures { OnOk result (string_bytes text.new ≡ string_bytes text.old ++ compact_text (revision_data
        (rev.now, record { parent = option_copied parent.entry; deleted = deleted; body = option_copied body.entry }))) }
{
    put_body(text, body)?;
    write!(text, "\"deleted\":{deleted},")?;
    put_parent(text, alloc, parent)?;
    text.push_str("\"rev\":")?;
    rev.put(text, alloc)?;
    text.push_str("}")
}

/// Writes the parent, where one is known.
fn put_parent(text: &mut String, alloc: Global, parent: Option<&RevId>) -> Result<(), AllocError>
    ensures { OnOk result (string_bytes text.new ≡ string_bytes text.old ++ parent_front (option_copied parent.entry)) }
{
    match parent {
        Some(parent) => put_known_parent(text, alloc, parent),
        None => Ok(()),
    }
}

/// Writes a parent.
fn put_known_parent(text: &mut String, alloc: Global, parent: &RevId) -> Result<(), AllocError>
    ensures { OnOk result (string_bytes text.new ≡ string_bytes text.old ++ parent_front (Some parent.now)) }
{
    text.push_str("\"parent\":")?;
    parent.put(text, alloc)?;
    text.push_str(",")
}

/// The tree of the revisions that a list is of, if it has one.
pub(crate) fn read_tree(alloc: Global, value: Json) -> Result<Option<RevTree>, AllocError>
    ensures { IfOk result (λ found. (tree : Tree) → IsTree tree → IsInRange tree → value ≡ tree_data tree
        → found ≡ Some tree) }
{
    let Some(nodes) = read_each::<Node>(alloc, value)? else {
        return Ok(None);
    };
    RevTree::from_list(alloc, nodes)
}

impl ListItem for Node {
    ghost Shown = { Rev × Revision };

    ghost shown = { entry_of };

    ghost data_of = { revision_data };

    ghost is_within = { IsKnown };

    fn read_item(alloc: Global, value: Json) -> Result<Option<Node>, AllocError> {
        let Some(mut members) = value.into_object() else {
            return Ok(None);
        };
        let body = members.take("body");
        let parent = members.take("parent");
        let Some(deleted) = members.take("deleted") else {
            return Ok(None);
        };
        let Some(rev) = members.take("rev") else {
            return Ok(None);
        };
        node_of(alloc, rev, parent, deleted, body)
    }
}

/// The revision of these values.
fn node_of(
    alloc: Global,
    rev: Json,
    parent: Option<Json>,
    deleted: Json,
    body: Option<Json>,
) -> Result<Option<Node>, AllocError>
    ensures { IfOk result (λ found. (known : Rev × Revision) → IsKnown known → rev ≡ rev_data known.0
        → parent ≡ option_map rev_data known.1.parent → deleted ≡ boolean known.1.deleted
        → body ≡ option_map object known.1.body → option_map entry_of found ≡ Some known) }
{
    let Some(deleted) = deleted.as_bool() else {
        return Ok(None);
    };
    let Some(rev) = RevId::read(alloc, rev)? else {
        return Ok(None);
    };
    let Some(parent) = parent_in(alloc, parent)? else {
        return Ok(None);
    };
    let Some(body) = body_in(alloc, body)? else {
        return Ok(None);
    };
    Ok(Some(Node::new(rev, parent, deleted, body)))
}

/// The parent, if what is there is one.
fn parent_in(alloc: Global, parent: Option<Json>) -> Result<Option<Option<RevId>>, AllocError>
    ensures { IfOk result (λ found. (of : Option Rev) → IfSome of IsRev → parent ≡ option_map rev_data of
        → found ≡ Some of) }
{
    let Some(parent) = parent else {
        return Ok(Some(None));
    };
    match RevId::read(alloc, parent)? {
        Some(parent) => Ok(Some(Some(parent))),
        None => Ok(None),
    }
}
