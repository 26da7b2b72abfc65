//! The leaves that a cut takes.
ghost use Rattle.std.specs.Prelude.{◌≡◌, [], ◌∷◌, ◌++◌, not, ◌&&◌, if◌then◌else◌, IfOk};
ghost use Rattle.model.specs.Tree.{is_leaf as is_known_leaf, among};
ghost use Rattle.model.specs.TreeChange.{removed_leaves as removed};
ghost use Rattle.tree_merge.specs.Seen.{AreSeen};

use revision_id::RevId;
use revision_tree::RevTree;
use std::alloc::{AllocError, Global};
use std::collections::BTreeSet;

/// The named leaves, each once, in the order in which they are first named.
pub fn removed_leaves(
    alloc: Global,
    tree: &RevTree,
    named: &[RevId],
) -> Result<Vec<RevId>, AllocError>
    ensures { IfOk result (λ revs. revs.items ≡ removed named.now tree.now) }
{
    let mut seen = BTreeSet::new(alloc);
    let mut leaves = Vec::new(alloc);
    for rev in named {
        add(tree, &mut leaves, &mut seen, *rev)?;
    }
    Ok(leaves)
}

/// Adds a leaf that isn't there, and notes it.
fn add(
    tree: &RevTree,
    leaves: &mut Vec<RevId>,
    seen: &mut BTreeSet<RevId>,
    rev: RevId,
) -> Result<(), AllocError>
    requires { AreSeen seen.old leaves.old.items }
    ensures leaves { IfOk result (λ _. leaves.new.items ≡ (if is_known_leaf tree.now rev && not (among leaves.old.items rev) then leaves.old.items ++ rev ∷ [] else leaves.old.items)) }
    ensures seen { IfOk result (λ _. AreSeen seen.new leaves.new.items) }
{
    if !tree.is_leaf(rev) {
        return Ok(());
    }
    let added = seen.insert(rev)?;
    if !added {
        return Ok(());
    }
    leaves.push(rev)?;
    Ok(())
}
