//! Whether a list of nodes is that of a tree.
ghost use Rattle.std.specs.Arc.{arc_value};
ghost use Rattle.std.specs.Prelude.{◌≡◌, ◌↔◌, ◌+◌, ◌||◌, All, Contains, IfSome, IsTrue, is_some, option_map};
ghost use Rattle.model.specs.Body.{IsBody};
ghost use Rattle.model.specs.Tree.{IsTree, Tree, has_child, knows};
ghost use Rattle.revision_tree.specs.Decided.{HasItsParent, IsNode, IsRooted};
ghost use Rattle.revision_tree.specs.Nodes.{IsListOf, IsNodes, IsSorted, entries_of, tree_of};
ghost use Rattle.revision_tree.specs.declared.node.Node as declared;

use crate::marks::mark;
use crate::node::Node;
use crate::search::place_among;
use revision_id::RevId;

/// Marks the nodes that are parents of others, and returns whether the nodes are all that a tree has.
pub(crate) fn mark_tree(nodes: &mut [Node]) -> bool
    ensures entries { entries_of nodes.new ≡ entries_of nodes.old }
    ensures nodes { IsTrue result → IsNodes nodes.new }
    ensures tree { (t : Tree) → IsListOf nodes.old t → IsTrue result }
{
    if !ascend(nodes) {
        return false;
    }
    mark(nodes);
    recall_all(nodes);
    are_rooted(nodes)
}

/// Whether each revision is below the next one.
fn ascend(nodes: &[Node]) -> bool
    ensures { IsTrue result ↔ IsSorted nodes.now }
{
    let Some((first, rest)) = nodes.split_first() else {
        return true;
    };
    let mut last = first;
    for node in rest {
        if last.rev >= node.rev {
            return false;
        }
        last = node;
    }
    true
}

/// Whether there are nodes, each with its parent among them, and with a body where it is the parent of none.
fn are_rooted(nodes: &[Node]) -> bool
    requires sorted { IsSorted nodes.now }
    requires inner { (n : declared.Node) → Contains nodes.now n → n.inner ≡ has_child (tree_of nodes.now) n.rev }
    requires ranges { All IsNode nodes.now }
    ensures { IsTrue result ↔ IsTree (tree_of nodes.now) }
{
    for node in nodes {
        if !is_rooted(nodes, node) {
            return false;
        }
    }
    !nodes.is_empty()
}

fn is_rooted(nodes: &[Node], node: &Node) -> bool
    requires { IsSorted nodes.now }
    ensures { IsTrue result ↔ IsRooted (tree_of nodes.now) node.now }
{
    if !has_its_parent(nodes, node) {
        return false;
    }
    has_its_body(node)
}

/// Whether its parent, where it has one, is known and one generation older.
fn has_its_parent(nodes: &[Node], node: &Node) -> bool
    requires { IsSorted nodes.now }
    ensures { IsTrue result ↔ HasItsParent (tree_of nodes.now) node.now }
{
    let Some(parent) = node.parent else {
        return true;
    };
    if !is_next(parent, node.rev) {
        return false;
    }
    is_among(nodes, parent)
}

/// Whether the revision is one generation younger.
fn is_next(parent: RevId, rev: RevId) -> bool
    ensures { IsTrue result ↔ (rev.generation ≡ parent.generation + 1) }
{
    let (older, newer) = (parent.generation(), rev.generation());
    older < newer && newer - older == 1
}

fn is_among(nodes: &[Node], rev: RevId) -> bool
    requires { IsSorted nodes.now }
    ensures { result ≡ knows (tree_of nodes.now) rev }
{
    place_among(nodes, rev).is_some()
}

/// Whether it has a body, or is marked as the parent of another.
fn has_its_body(node: &Node) -> bool
    ensures { result ≡ (node.now.inner || is_some node.now.body) }
{
    node.inner || node.body.is_some()
}

/// Recalls the ranges that all nodes keep: for the contract alone, since a list says nothing of what the types of its items
/// keep.
fn recall_all(nodes: &[Node])
    ensures { All IsNode nodes.now }
{
    for node in nodes {
        recall_one(node);
    }
}

fn recall_one(node: &Node)
    ensures { IsNode node.now }
{
    let _recalled = node.rev.generation();
    read_body(node);
}

fn read_body(node: &Node)
    ensures { IfSome (option_map arc_value node.now.body) IsBody }
{
    let Some(body) = &node.body else {
        return;
    };
    let _recalled = body.text();
}
