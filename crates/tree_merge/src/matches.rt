//! Whether two trees are one.
ghost use Rattle.std.specs.Prelude.{◌≡◌, true, false, option_map};
ghost use Rattle.std.specs.Arc.{arc_value};
ghost use Rattle.std.specs.Option.{option_eq};
ghost use Rattle.model.specs.Body.{same_body};
ghost use Rattle.model.specs.Database.{same_tree, same_entry};
ghost use Rattle.revision_tree.specs.Nodes.{entry_of};

use json_profile::Body;
use revision_id::RevId;
use revision_tree::{Node, RevTree};
use std::sync::Arc;

/// Whether the first tree has a revision that the second has not, or a body for it: then they are not the same. Costs a few
/// look-ups, and takes no memory.
pub fn has_alone(one: &RevTree, other: &RevTree, rev: RevId) -> bool
    ensures { result ≡ true → same_tree one.now other.now ≡ false }
{
    if knows_alone(one, other, rev) {
        return true;
    }
    keeps_alone(one, other, rev)
}

fn knows_alone(one: &RevTree, other: &RevTree, rev: RevId) -> bool
    ensures { result ≡ true → same_tree one.now other.now ≡ false }
{
    one.knows(rev) && !other.knows(rev)
}

/// Whether the first alone has a body for it.
fn keeps_alone(one: &RevTree, other: &RevTree, rev: RevId) -> bool
    ensures { result ≡ true → same_tree one.now other.now ≡ false }
{
    one.body_of(rev).is_some() && other.body_of(rev).is_none()
}

/// Whether the two have the same revisions, parents, flags and bodies. Takes no memory.
pub fn is_same(one: &RevTree, other: &RevTree) -> bool
    ensures { result ≡ same_tree one.now other.now }
{
    if one.count() != other.count() {
        return false;
    }
    let mut mine = one.nodes();
    let mut theirs = other.nodes();
    while let Some(node) = mine.next() {
        let Some(other) = theirs.next() else {
            return false;
        };
        if !is_same_node(node, other) {
            return false;
        }
    }
    theirs.next().is_none()
}

fn is_same_node(one: &Node, other: &Node) -> bool
    ensures { result ≡ same_entry (entry_of one.now) (entry_of other.now) }
{
    one.rev == other.rev
        && (one.parent == other.parent
            && one.deleted == other.deleted
            && is_same_body(&one.body, &other.body))
}

fn is_same_body(one: &Option<Arc<Body>>, other: &Option<Arc<Body>>) -> bool
    ensures { result ≡ option_eq same_body (option_map arc_value one.now) (option_map arc_value other.now) }
{
    let Some(one) = one else {
        return other.is_none();
    };
    let Some(other) = other else {
        return false;
    };
    one.is_same(other)
}
