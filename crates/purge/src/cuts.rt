//! The purge of one document.
ghost use Rattle.std.specs.Prelude.{◌≡◌, IfOk};
ghost use Rattle.model.specs.TreeChange.{cut, removed_leaves as removed};

use revision_id::RevId;
use revision_tree::RevTree;
use std::alloc::{AllocError, Global};
use tree_merge::{cut_leaves, removed_leaves};

/// The leaves that go, each once, in the order in which they are first named, and the tree that is
/// left, where a leaf stays.
pub fn cut_document(
    alloc: Global,
    tree: &RevTree,
    named: &[RevId],
) -> Result<(Vec<RevId>, Option<RevTree>), AllocError>
    ensures removed { IfOk result (λ r. r.0.items ≡ removed named.now tree.now) }
    ensures left { IfOk result (λ r. r.1 ≡ cut named.now tree.now) }
{
    let removed = removed_leaves(alloc, tree, named)?;
    let left = cut_leaves(alloc, tree, named)?;
    Ok((removed, left))
}
