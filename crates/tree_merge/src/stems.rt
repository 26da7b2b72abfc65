//! Stems and cuts.
ghost use Rattle.std.specs.Prelude.{◌≡◌, ◌<◌, true, false, IfOk};
ghost use Rattle.model.specs.Revision.{Rev};
ghost use Rattle.model.specs.Tree.{IsTree, among, is_leaf as is_known_leaf};
ghost use Rattle.model.specs.TreeChange.{stem as stemming, cut};

use crate::restrict::restricted;
use revision_id::RevId;
use revision_tree::RevTree;
use std::alloc::{AllocError, Global};

/// A limit of steps that keeps all: no path is longer than its newest generation says.
const NO_LIMIT: u32 = u32::MAX;

/// The revisions fewer than `limit` steps above some leaf.
pub fn stem(alloc: Global, tree: &RevTree, limit: u32) -> Result<RevTree, AllocError>
    requires { 0 < limit }
    ensures { IfOk result (λ t. t ≡ stemming limit tree.now) }
{
    let nodes = restricted(alloc, tree, &[], limit)?;
    let stem = RevTree::from_nodes(alloc, nodes)?;
    Ok(stem)
}

/// The same of a tree that a path was grafted onto. Where the tree before was its own stem, no more of it is too far above the
/// leaves than the path has members, and the others aren't looked at.
pub(crate) fn settled(
    alloc: Global,
    before: Option<&RevTree>,
    grafted: RevTree,
    limit: u32,
) -> Result<RevTree, AllocError>
    requires { 0 < limit }
    ensures { IfOk result (λ t. t ≡ stemming limit grafted) }
{
    if let Some(before) = before {
        if !before.is_stem(limit) {
            return stem(alloc, &grafted, limit);
        }
    }
    grafted.stemmed(alloc, limit)
}

/// What is left where the named leaves go, and nothing where no leaf stays.
pub fn cut_leaves(
    alloc: Global,
    tree: &RevTree,
    named: &[RevId],
) -> Result<Option<RevTree>, AllocError>
    ensures { IfOk result (λ left. left ≡ cut named.now tree.now) }
{
    if !has_leaf(tree, named) {
        let same = tree.share(alloc)?;
        return Ok(Some(same));
    }
    let nodes = restricted(alloc, tree, named, NO_LIMIT)?;
    if nodes.is_empty() {
        return Ok(None);
    }
    let left = RevTree::from_nodes(alloc, nodes)?;
    Ok(Some(left))
}

/// Whether one of the named revisions is a leaf.
fn has_leaf(tree: &RevTree, named: &[RevId]) -> bool
    ensures tree { IsTree tree.now }
    ensures none { result ≡ false → (r : Rev) → is_known_leaf tree.now r ≡ true → among named.now r ≡ false }
{
    let _recalled = tree.oldest();
    for rev in named {
        if tree.is_leaf(*rev) {
            return true;
        }
    }
    false
}
