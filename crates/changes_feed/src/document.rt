//! A document as it is shown: a revision, and what else was asked for.
ghost use Rattle.std.specs.Prelude.{◌≡◌, IfOk, [], Some, None, option_map, if◌then◌else◌};
ghost use Rattle.std.specs.Arc.{arc_value};
ghost use Rattle.changes_feed.specs.Shown.{listed_leaves, listed_path, others_with, statuses_of};
ghost use Rattle.model.specs.Documents.{document as document_of, status_of, stored as stored_in};

use document_id::DocId;
use json_profile::Body;
use model::Status;
use queries::{Document, Options};
use revision_id::RevId;
use revision_tree::RevTree;
use std::alloc::{AllocError, Global};
use std::sync::Arc;

/// A revision with what was asked for, where its body is there. The body is shared.
pub(crate) fn stored(
    alloc: Global,
    id: &DocId,
    tree: &RevTree,
    options: &Options,
    rev: RevId,
) -> Result<Option<Document>, AllocError>
    ensures { IfOk result (λ shown. shown ≡ stored_in id.now tree.now options.now rev) }
{
    let Some(body) = tree.body_of(rev) else {
        return Ok(None);
    };
    Ok(Some(document(alloc, id, tree, options, rev, body)?))
}

fn document(
    alloc: Global,
    id: &DocId,
    tree: &RevTree,
    options: &Options,
    rev: RevId,
    body: &Arc<Body>,
) -> Result<Document, AllocError>
    ensures { IfOk result (λ shown. shown ≡ document_of id.now tree.now options.now rev (arc_value body.now)) }
{
    let path = path_of(alloc, tree, options, rev)?;
    let revs_info = revs_info(alloc, tree, &path, options.revs_info)?;
    let leaves = leaves_of(alloc, tree, options)?;
    Ok(Document {
        id: id.share()?,
        rev,
        deleted: tree.is_deleted(rev),
        body: Arc::try_clone(body)?,
        revisions: options.revs.then_some(path),
        revs_info,
        conflicts: conflicts(alloc, tree, &leaves, false, options.conflicts)?,
        deleted_conflicts: conflicts(alloc, tree, &leaves, true, options.deleted_conflicts)?,
    })
}

/// The known path, where the revisions or their states were asked for.
fn path_of(
    alloc: Global,
    tree: &RevTree,
    options: &Options,
    rev: RevId,
) -> Result<Vec<RevId>, AllocError>
    ensures { IfOk result (λ path. path.items ≡ listed_path options.now tree.now rev) }
{
    if !options.revs && !options.revs_info {
        return Ok(Vec::new(alloc));
    }
    tree.path_of(alloc, rev)
}

/// Each revision with what is kept of it, where this was asked for.
fn revs_info(
    alloc: Global,
    tree: &RevTree,
    path: &[RevId],
    wanted: bool,
) -> Result<Option<Vec<(RevId, Status)>>, AllocError>
    ensures { IfOk result (λ info. option_map (λ v. v.items) info
        ≡ (if wanted then Some (statuses_of tree.now path.now) else None)) }
{
    if !wanted {
        return Ok(None);
    }
    Ok(Some(statuses(alloc, tree, path)?))
}

fn statuses(
    alloc: Global,
    tree: &RevTree,
    path: &[RevId],
) -> Result<Vec<(RevId, Status)>, AllocError>
    ensures { IfOk result (λ info. info.items ≡ statuses_of tree.now path.now) }
{
    path.iter()
        .map(|known| (*known, status(tree, *known)))
        .collect(alloc)
}

fn status(tree: &RevTree, rev: RevId) -> Status
    ensures { result ≡ status_of tree.now rev }
{
    if tree.body_of(rev).is_none() {
        return Status::NoBody;
    }
    if tree.is_deleted(rev) {
        return Status::IsDeleted;
    }
    Status::Available
}

/// The leaves, where conflicts were asked for.
pub(crate) fn leaves_of(
    alloc: Global,
    tree: &RevTree,
    options: &Options,
) -> Result<Vec<RevId>, AllocError>
    ensures { IfOk result (λ revs. revs.items ≡ listed_leaves options.now tree.now) }
{
    if !options.conflicts && !options.deleted_conflicts {
        return Ok(Vec::new(alloc));
    }
    tree.leaves(alloc)
}

/// The leaves other than the first that are deleted, or those that are not, where they were asked
/// for.
pub(crate) fn conflicts(
    alloc: Global,
    tree: &RevTree,
    leaves: &[RevId],
    deleted: bool,
    wanted: bool,
) -> Result<Vec<RevId>, AllocError>
    ensures { IfOk result (λ revs. revs.items ≡ (if wanted then others_with deleted tree.now leaves.now else [])) }
{
    if !wanted {
        return Ok(Vec::new(alloc));
    }
    others(alloc, tree, leaves, deleted)
}

fn others(
    alloc: Global,
    tree: &RevTree,
    leaves: &[RevId],
    deleted: bool,
) -> Result<Vec<RevId>, AllocError>
    ensures { IfOk result (λ revs. revs.items ≡ others_with deleted tree.now leaves.now) }
{
    leaves
        .iter()
        .skip(1)
        .filter(|rev| tree.is_deleted(**rev) == deleted)
        .copied()
        .collect(alloc)
}
