//! What replication brings.
ghost use Rattle.std.specs.Prelude.{◌≡◌, ◌∷◌, ◌↔◌, All, IsTrue, IsSome, IfOk, IfSome};
ghost use Rattle.std.specs.Arc.{arc_value};
ghost use Rattle.model.specs.Command.{IsMerge};
ghost use Rattle.model.specs.Revision.{IsRev};
ghost use Rattle.model.specs.TreeChange.{IsPath};
ghost use Rattle.commands.specs.Merge.{merge_of};

use crate::copied::Copied;
use document_id::DocId;
use json_profile::Body;
use revision_id::RevId;
use std::alloc::{AllocError, Global};
use std::marker::Model;
use std::sync::Arc;

/// A revision from another replica, with what is known of its ancestors.
pub struct Merge {
    id: DocId,
    path: Vec<RevId>,
    deleted: bool,
    body: Arc<Body>,
}

impl Drop for Merge {
    fn drop(self) {
        let Merge {
            id: _,
            path: _,
            deleted: _,
            body: _,
        } = self;
    }
}

impl Model for Merge {
    ghost use Rattle.std.specs.Arc.{arc_value};
    ghost use Rattle.model.specs.Command.{Merge, IsMerge};
    ghost use Rattle.model.specs.TreeChange.{IsPath};
    ghost use Rattle.commands.specs.Merge.{merge_of};
    ghost use Rattle.std.specs.Coded.{codes};
    ghost use Rattle.model.specs.JsonCode.{coded_members};

    ghost Value = { Merge };

    ghost coded = { Prim.hlevel (codes, coded_members) };

    ghost view = { λ m. merge_of m.id m.path.items m.deleted (arc_value m.body) };

    ghost invariant = { λ m. IsPath m.path.items × IsMerge (merge_of m.id m.path.items m.deleted (arc_value m.body)) };
}

impl Merge {
    /// A merge of a path of revisions, newest first, each one generation older than the one before.
    /// No merge where the path is empty or its generations don't fall by one.
    pub fn new(id: DocId, path: Vec<RevId>, deleted: bool, body: Arc<Body>) -> Option<Merge>
        ensures is_path { IsSome result ↔ IsPath path.items }
        ensures merge { IfSome result (λ merge. merge ≡ merge_of id path.items deleted (arc_value body)) }
    {
        if !is_path(&path) {
            return None;
        }
        let _recalled = id.as_str();
        let _recalled = body.text();
        Some(Merge {
            id,
            path,
            deleted,
            body,
        })
    }

    /// The document's id.
    pub fn id(&self) -> &DocId
        ensures id { result.now ≡ self.now.id }
    {
        &self.id
    }

    /// The revision and its ancestors, newest first.
    pub fn path(&self) -> &[RevId]
        ensures path { result.now ≡ self.now.newest ∷ self.now.older }
        ensures is_path { IsPath result.now }
        ensures is_merge { IsMerge self.now }
    {
        &self.path
    }

    /// Whether the revision is a deletion.
    pub fn deleted(&self) -> bool
        ensures deleted { result ≡ self.now.deleted }
    {
        self.deleted
    }

    /// The members of the revision.
    pub fn body(&self) -> &Arc<Body>
        ensures body { arc_value result.now ≡ self.now.body }
    {
        &self.body
    }
}

impl Copied for Merge {
    fn copy(&self, alloc: Global) -> Result<Merge, AllocError> {
        Ok(Merge {
            id: self.id.share()?,
            path: Vec::from_slice(alloc, &self.path)?,
            deleted: self.deleted,
            body: self.body.clone()?,
        })
    }
}

/// Whether there is a revision, and each is one generation older than the one before.
fn is_path(path: &[RevId]) -> bool
    ensures is_path { IsTrue result ↔ IsPath path.now }
    ensures are_revs { IsTrue result → All IsRev path.now }
{
    let Some((newest, older)) = path.split_first() else {
        return false;
    };
    let mut newer = *newest;
    for rev in older {
        if newer.generation() - 1 != rev.generation() {
            return false;
        }
        newer = *rev;
    }
    newer.generation() > 0
}

/// Recalls the limits that all merges keep: for the contract alone, since a list
/// says nothing of what the types of its items keep.
pub(crate) fn recall_all_merges(merges: &[Merge])
    ensures are_merges { All IsMerge merges.now }
{
    for merge in merges {
        let _recalled = merge.path();
    }
}
