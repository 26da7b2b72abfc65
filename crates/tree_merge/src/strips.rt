//! Strips.
ghost use Rattle.std.specs.Prelude.{◌≡◌, IfOk};
ghost use Rattle.model.specs.TreeChange.{strip as stripping};

use revision_tree::RevTree;
use std::alloc::{AllocError, Global};

/// The tree with the bodies of its leaves alone.
pub fn strip(alloc: Global, tree: &RevTree) -> Result<RevTree, AllocError>
    ensures { IfOk result (λ t. t ≡ stripping tree.now) }
{
    tree.stripped(alloc)
}
