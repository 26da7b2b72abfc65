//! What a write of a path leaves.
ghost use Rattle.std.specs.Prelude.{◌≡◌, ◌↔◌, ◌<◌, Ok, Err, IfOk, option_copied};
ghost use Rattle.std.specs.Arc.{arc_value};
ghost use Rattle.model.specs.declared.refusal.Refusal.TheVariants.{BadHistory};
ghost use Rattle.model.specs.Edit.{with_path as writing};
ghost use Rattle.model.specs.TreeChange.{IsPath};
ghost use Rattle.tree_merge.specs.declared.fault.MergeFault.TheVariants.{Contradiction};

use crate::fault::MergeFault;
use crate::grafts::graft;
use crate::stems::settled;
use json_profile::Body;
use revision_id::RevId;
use revision_tree::RevTree;
use std::alloc::Global;
use std::sync::Arc;

/// The tree with the path grafted, and then stemmed where a revision can lie too deep.
pub fn with_path(
    alloc: Global,
    tree: Option<&RevTree>,
    limit: u32,
    path: &[RevId],
    body: Arc<Body>,
    deleted: bool,
) -> Result<RevTree, MergeFault>
    requires path { IsPath path.now }
    requires limit { 0 < limit }
    ensures written { IfOk result (λ t. writing limit (option_copied tree.entry) path.now (arc_value body) deleted ≡ Ok t) }
    ensures refused { (result ≡ Err Contradiction) ↔ (writing limit (option_copied tree.entry) path.now (arc_value body) deleted ≡ Err BadHistory) }
{
    let grafted = graft(alloc, tree, path, body, deleted)?;
    if grafted.is_stem(limit) {
        return Ok(grafted);
    }
    let stem = settled(alloc, tree, grafted, limit)?;
    Ok(stem)
}
