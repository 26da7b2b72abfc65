//! Whether a tree has what a path brings.
ghost use Rattle.std.specs.Prelude.{◌≡◌, true, Bool, Some, Ok};
ghost use Rattle.model.specs.Body.{Body as BodyText};
ghost use Rattle.model.specs.Edit.{with_path as writing};
ghost use Rattle.model.specs.Tree.{is_at};
ghost use Rattle.model.specs.TreeChange.{IsPath};
ghost use Rattle.tree_merge.specs.Links.{IsLinked};

use revision_id::RevId;
use revision_tree::RevTree;

/// Whether a write of the path, with any body and flag, leaves the tree as it is: the path is known with its parents, the
/// newest has a body, and no revision can lie too deep. Costs a look-up for each member, and takes no memory. Where it is
/// false, such a write may still leave the tree as it is, if it adds no more than a stem takes away.
pub fn is_written(tree: &RevTree, limit: u32, path: &[RevId]) -> bool
    requires { IsPath path.now }
    ensures { result ≡ true → (body : BodyText) (deleted : Bool) → writing limit (Some tree.now) path.now body deleted ≡ Ok tree.now }
{
    let [newest, ..] = path else {
        return false;
    };
    if tree.body_of(*newest).is_none() {
        return false;
    }
    if !has_links(tree, path) {
        return false;
    }
    let _recalled = tree.oldest();
    tree.is_stem(limit)
}

/// Whether each next member is the parent of the one before.
pub(crate) fn has_links(tree: &RevTree, path: &[RevId]) -> bool
    ensures { result ≡ true → IsLinked tree.now path.now }
{
    for place in 1..path.len() {
        if !is_parent(tree.parent_of(path[place - 1]), path[place]) {
            return false;
        }
    }
    true
}

fn is_parent(parent: Option<RevId>, next: RevId) -> bool
    ensures { result ≡ is_at parent next }
{
    let Some(parent) = parent else {
        return false;
    };
    parent == next
}
