//! Grafts of paths.
ghost use Rattle.std.specs.Prelude.{◌≡◌, ◌↔◌, Some, None, IfOk, All, unwrap_or, option_copied};
ghost use Rattle.std.specs.Arc.{arc_value};
ghost use Rattle.model.specs.Map.{empty};
ghost use Rattle.model.specs.Body.{IsBody};
ghost use Rattle.model.specs.Revision.{IsRev};
ghost use Rattle.model.specs.TreeChange.{IsPath, fits as is_fit, agrees as is_agreed, graft as grafting};
ghost use Rattle.tree_merge.specs.declared.fault.MergeFault.TheVariants.{Contradiction};

use crate::fault::MergeFault;
use json_profile::Body;
use revision_id::RevId;
use revision_tree::RevTree;
use std::alloc::Global;
use std::sync::Arc;

/// The tree with the path's members, each next one the parent of the one before, and with the body and the flag for the
/// newest where it has no body. The path is newest first, and the tree is empty where none is given.
pub fn graft(
    alloc: Global,
    tree: Option<&RevTree>,
    path: &[RevId],
    body: Arc<Body>,
    deleted: bool,
) -> Result<RevTree, MergeFault>
    requires { IsPath path.now }
    ensures grafted { IfOk result (λ t. grafting path.now (arc_value body) deleted (unwrap_or (option_copied tree.entry) empty) ≡ Some t) }
    ensures refused { (result ≡ Err Contradiction) ↔ (grafting path.now (arc_value body) deleted (unwrap_or (option_copied tree.entry) empty) ≡ None) }
{
    if !agrees(tree, path) {
        return Err(MergeFault::Contradiction);
    }
    recall_revisions(path);
    recall_body(&body);
    let grafted = RevTree::grafted(alloc, tree, path, body, deleted)?;
    Ok(grafted)
}

fn agrees(tree: Option<&RevTree>, path: &[RevId]) -> bool
    ensures { result ≡ is_agreed (unwrap_or (option_copied tree.entry) empty) path.now }
{
    let Some(tree) = tree else {
        return true;
    };
    agrees_with(tree, path)
}

fn agrees_with(tree: &RevTree, path: &[RevId]) -> bool
    ensures { result ≡ is_agreed tree.now path.now }
{
    for place in 1..path.len() {
        if !fits(tree.parent_of(path[place - 1]), path[place]) {
            return false;
        }
    }
    true
}

fn fits(parent: Option<RevId>, next: RevId) -> bool
    ensures { result ≡ is_fit parent next }
{
    let Some(parent) = parent else {
        return true;
    };
    parent == next
}

/// Recalls that each is a revision that a text can say.
fn recall_revisions(path: &[RevId])
    ensures { All IsRev path.now }
{
    for rev in path {
        let _recalled = rev.generation();
    }
}

/// Recalls that it is a body that a document can have.
fn recall_body(body: &Body)
    ensures { IsBody body.now }
{
    let _recalled = body.text();
}
