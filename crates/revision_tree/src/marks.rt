//! Which nodes are parents of others.
ghost use Rattle.std.specs.Prelude.{◌≡◌, map};
ghost use Rattle.revision_tree.specs.Nodes.{IsSorted, entries_of, marked_by, with_mark, without_mark};

use crate::node::Node;
use crate::search::place_among;
use revision_id::RevId;

/// Marks the nodes that are parents of others, and no others.
pub(crate) fn mark(nodes: &mut [Node])
    requires { IsSorted nodes.old }
    ensures { nodes.new ≡ marked_by (entries_of nodes.old) nodes.old }
{
    clear(nodes);
    for place in 0..nodes.len() {
        let parent = nodes[place].parent;
        mark_one(nodes, parent);
    }
}

fn clear(nodes: &mut [Node])
    ensures { nodes.new ≡ map without_mark nodes.old }
{
    for node in nodes.iter_mut() {
        node.inner = false;
    }
}

fn mark_one(nodes: &mut [Node], parent: Option<RevId>)
    requires { IsSorted nodes.old }
    ensures { nodes.new ≡ map (with_mark parent) nodes.old }
{
    let Some(parent) = parent else {
        return;
    };
    if let Some(place) = place_among(nodes, parent) {
        nodes[place].inner = true;
    }
}
