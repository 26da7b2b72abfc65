//! The leaves of a document, as answers list them.
ghost use Rattle.std.specs.Prelude.{◌≡◌, IfOk, filter, nat_lt};
ghost use Rattle.changes_feed.specs.Lacking.{ancestors_of};
ghost use Rattle.model.specs.Documents.{latest_of as latest_in};

use crate::claims::{claimed_by, claimed_leaves};
use crate::once::in_order;
use revision_id::RevId;
use revision_tree::RevTree;
use std::alloc::{AllocError, Global};

/// The leaves that descend from a revision, in the winner's order; of a leaf itself alone, which takes
/// no walk over the others.
pub(crate) fn latest_of(alloc: Global, tree: &RevTree, rev: RevId) -> Result<Vec<RevId>, AllocError>
    ensures { IfOk result (λ revs. revs.items ≡ latest_in tree.now rev) }
{
    // Its revisions make a tree.
    let _recalled = tree.oldest();
    if tree.is_leaf(rev) {
        return Vec::from_slice(alloc, &[rev]);
    }
    claimed_by(alloc, &claimed_leaves(alloc, tree, &[rev])?, 0)
}

/// The leaves of a generation below `generation`, in rising order.
pub(crate) fn leaves_below(
    alloc: Global,
    tree: &RevTree,
    generation: u32,
) -> Result<Vec<RevId>, AllocError>
    ensures { IfOk result (λ revs. revs.items ≡ ancestors_of generation tree.now) }
{
    in_order(alloc, below(alloc, &tree.leaves(alloc)?, generation)?)
}

fn below(alloc: Global, revs: &[RevId], generation: u32) -> Result<Vec<RevId>, AllocError>
    ensures { IfOk result (λ lower. lower.items ≡ filter (λ r. nat_lt r.generation generation) revs.now) }
{
    revs.iter()
        .filter(|rev| rev.generation() < generation)
        .copied()
        .collect(alloc)
}
