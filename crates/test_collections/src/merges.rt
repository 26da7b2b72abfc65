//! Revisions and paths of them, read from words, and the trees that they make.
ghost use Rattle.std.specs.Prelude.{◌<◌};

use commands::Merge;
use document_id::DocId;
use json_profile::Body;
use revision_id::RevId;
use revision_tree::RevTree;
use std::alloc::Global;
use std::sync::Arc;
use std::test::Fail;
use tree_merge::{MergeFault, graft, with_path};

/// The revisions of these words.
pub(crate) fn revisions(alloc: Global, words: &[&str]) -> Result<Vec<RevId>, Fail> {
    let mut revisions = Vec::new(alloc);
    for word in words {
        revisions.push(RevId::parse(word)?)?;
    }
    Ok(revisions)
}

/// A path of revisions, newest first, with an empty body.
pub(crate) fn path(alloc: Global, words: &[&str], deleted: bool) -> Result<Merge, Fail> {
    let path = revisions(alloc, words)?;
    let id = DocId::new(alloc, "d")?;
    let body = Arc::new(alloc, Body::empty(alloc))?;
    Ok(Merge::new(id, path, deleted, body).ok_or("a path")?)
}

/// The tree with the path.
pub(crate) fn grafted(
    alloc: Global,
    tree: Option<&RevTree>,
    merge: &Merge,
) -> Result<RevTree, MergeFault> {
    let body = merge.body().clone()?;
    graft(alloc, tree, merge.path(), body, merge.deleted())
}

/// The tree with the path, stemmed.
pub(crate) fn written(
    alloc: Global,
    tree: Option<&RevTree>,
    limit: u32,
    merge: &Merge,
) -> Result<RevTree, MergeFault>
    requires { 0 < limit }
{
    let body = merge.body().clone()?;
    with_path(alloc, tree, limit, merge.path(), body, merge.deleted())
}
