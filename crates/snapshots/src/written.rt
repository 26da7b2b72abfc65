//! What an edit or a merge makes of a document's tree.
ghost use Rattle.std.specs.Prelude.{◌≡◌, ◌∷◌, ◌<◌, ◌+◌, length, IfOk, None, Some, Ok, option_copied};
ghost use Rattle.std.specs.Arc.{arc_value};
ghost use Rattle.model.specs.Revision.{generation_after};
ghost use Rattle.model.specs.TreeChange.{IsPath};
ghost use Rattle.commands.specs.Merge.{newest_of};
ghost use Rattle.model.specs.Edit.{parent_path, parent_for as parent_in, over_winner as over_leaf, with_path as tree_with, written as written_at, child_written as child_in, edited as edited_in, merged as merged_in};

use commands::{Edit, Merge};
use json_profile::Body;
use model::Refusal;
use revision_id::{RevFault, RevId};
use revision_tree::{Leaf, RevTree};
use std::alloc::{AllocError, Global};
use std::marker::Model;
use std::sync::Arc;
use tree_merge::{MergeFault, with_path};

/// The revision that was made, and the tree with it.
#[derive(Drop)]
pub(crate) struct Written {
    pub(crate) rev: RevId,
    pub(crate) tree: RevTree,
}

impl Model for Written {
    ghost use Rattle.model.specs.Edit.{Written};
    ghost use Rattle.snapshots.specs.Codes.{coded_written};

    ghost Value = { Written };

    ghost coded = { coded_written };

    ghost view = { λ w. record { rev = w.rev; tree = w.tree } };
}

/// An edit, refused or written, of the document that has this tree.
#[tactic(auto, unfolding(model::specs::Edit::edited))]
pub(crate) fn edited(
    alloc: Global,
    limit: u32,
    tree: Option<&RevTree>,
    edit: &Edit,
) -> Result<Result<Written, Refusal>, AllocError>
    requires { 0 < limit }
    ensures { IfOk result (λ w. w ≡ edited_in limit (option_copied tree.entry) edit.now) }
{
    match parent_for(tree, edit.named, edit.deleted) {
        Ok(parent) => child_written(alloc, limit, tree, edit, parent),
        Err(refusal) => Ok(Err(refusal)),
    }
}

/// A merge, refused or written, of the document that has this tree.
#[tactic(auto, unfolding(model::specs::Edit::merged))]
pub(crate) fn merged(
    alloc: Global,
    limit: u32,
    tree: Option<&RevTree>,
    merge: &Merge,
) -> Result<Result<Written, Refusal>, AllocError>
    requires { 0 < limit }
    ensures { IfOk result (λ w. w ≡ merged_in limit (option_copied tree.entry) merge.now) }
{
    let path = merge.path();
    path_written(alloc, limit, tree, path, merge.body(), merge.deleted())
}

/// The revision that an edit is over, or why it is refused.
fn parent_for(
    tree: Option<&RevTree>,
    named: Option<RevId>,
    deleted: bool,
) -> Result<Option<RevId>, Refusal>
    ensures { result ≡ parent_in (option_copied tree.entry) named deleted }
{
    let Some(tree) = tree else {
        return parent_of_first(named, deleted);
    };
    match named {
        None => over_winner(tree.winner(), deleted),
        Some(rev) => {
            if tree.is_leaf(rev) {
                Ok(Some(rev))
            } else {
                Err(Refusal::Conflict)
            }
        }
    }
}

fn parent_of_first(named: Option<RevId>, deleted: bool) -> Result<Option<RevId>, Refusal>
    ensures { result ≡ parent_in None named deleted }
{
    if deleted {
        return Err(Refusal::Missing);
    }
    match named {
        None => Ok(None),
        Some(_) => Err(Refusal::Conflict),
    }
}

fn over_winner(winner: Leaf, deleted: bool) -> Result<Option<RevId>, Refusal>
    ensures { result ≡ over_leaf (Some (record { deleted = winner.deleted; rev = winner.rev })) deleted }
{
    if !winner.deleted {
        return Err(Refusal::Conflict);
    }
    if deleted {
        return Err(Refusal::Deleted);
    }
    Ok(Some(winner.rev))
}

fn child_written(
    alloc: Global,
    limit: u32,
    tree: Option<&RevTree>,
    edit: &Edit,
    parent: Option<RevId>,
) -> Result<Result<Written, Refusal>, AllocError>
    requires { 0 < limit }
    ensures { IfOk result (λ w. w ≡ child_in limit (option_copied tree.entry) edit.now (Ok parent)) }
{
    match RevId::child(alloc, parent.as_ref(), edit.deleted, &edit.body) {
        Ok(rev) => {
            let _recalled = rev.generation();
            child_placed(alloc, limit, tree, edit, parent, rev)
        }
        Err(RevFault::LastGeneration) => Ok(Err(Refusal::GenerationLimit)),
        Err(RevFault::Memory) => Err(AllocError),
        Err(RevFault::Malformed) => unreachable!(),
    }
}

fn child_placed(
    alloc: Global,
    limit: u32,
    tree: Option<&RevTree>,
    edit: &Edit,
    parent: Option<RevId>,
    rev: RevId,
) -> Result<Result<Written, Refusal>, AllocError>
    requires limit { 0 < limit }
    requires generation { rev.generation ≡ generation_after parent }
    ensures { IfOk result (λ w. w ≡ written_at rev
        (tree_with limit (option_copied tree.entry) (rev ∷ parent_path parent) edit.now.body edit.now.deleted)) }
{
    let length = path_length(parent.as_ref());
    let newest = [rev, parent.unwrap_or(rev)];
    path_written(
        alloc,
        limit,
        tree,
        &newest[..length],
        &edit.body,
        edit.deleted,
    )
}

/// How many revisions there are in the path of a child.
fn path_length(parent: Option<&RevId>) -> usize
    ensures { result ≡ length (parent_path (option_copied parent.entry)) + 1 }
{
    match parent {
        None => 1,
        Some(_) => 2,
    }
}

/// The newest revision of the path, and the tree with the path.
fn path_written(
    alloc: Global,
    limit: u32,
    tree: Option<&RevTree>,
    path: &[RevId],
    body: &Arc<Body>,
    deleted: bool,
) -> Result<Result<Written, Refusal>, AllocError>
    requires limit { 0 < limit }
    requires path { IsPath path.now }
    ensures { IfOk result (λ w. w ≡ written_at (newest_of path.now)
        (tree_with limit (option_copied tree.entry) path.now (arc_value body.now) deleted)) }
{
    let rev = path[0];
    match with_path(alloc, tree, limit, path, body.clone()?, deleted) {
        Ok(tree) => Ok(Ok(Written { rev, tree })),
        Err(MergeFault::Contradiction) => Ok(Err(Refusal::BadHistory)),
        Err(MergeFault::Memory) => Err(AllocError),
    }
}
