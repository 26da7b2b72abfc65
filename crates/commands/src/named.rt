//! Documents with some of their revisions, as `_revs_diff` and `_purge` name them.
ghost use Rattle.std.specs.Prelude.{◌≡◌, ◌↔◌, T, All, IsTrue, IsSome, IfOk, IfSome};
ghost use Rattle.std.specs.FinMap.Entries.{is_sorted};
ghost use Rattle.model.specs.Command.{names, NamesRevs};
ghost use Rattle.model.specs.Revision.{IsRev};
ghost use Rattle.model.specs.Map.{entries};

use crate::copied::{Copied, copy_all};
use document_id::DocId;
use revision_id::RevId;
use std::alloc::{AllocError, Global};
use std::marker::Model;

/// A document, and revisions of it.
pub struct AskedRevisions {
    pub id: DocId,
    pub revisions: Vec<RevId>,
}

impl Drop for AskedRevisions {
    fn drop(self) {
        let AskedRevisions {
            id: _,
            revisions: _,
        } = self;
    }
}

impl Model for AskedRevisions {
    ghost use Rattle.std.specs.Prelude.{List};
    ghost use Rattle.model.specs.Command.{Id};
    ghost use Rattle.model.specs.Revision.{Rev};

    ghost Value = { Id × List Rev };

    ghost view = { λ a. (a.id, a.revisions.items) };
}

impl AskedRevisions {
    /// Recalls the ranges that the id and the revisions keep.
    fn recall_ranges(&self)
        ensures in_range { NamesRevs self.now }
    {
        let _recalled = self.id.as_str();
        recall_all_revisions(&self.revisions);
    }
}

/// Revisions of each document, in the byte order of the ids, each of which is there once.
pub struct NamedRevisions {
    documents: Vec<AskedRevisions>,
    ghost rising: { T (is_sorted names.cmp documents.items) },
}

impl Drop for NamedRevisions {
    fn drop(self) {
        let NamedRevisions { documents: _ } = self;
    }
}

impl Model for NamedRevisions {
    ghost use Rattle.std.specs.Prelude.{List};
    ghost use Rattle.model.specs.Command.{names};
    ghost use Rattle.model.specs.Map.{Map};
    ghost use Rattle.model.specs.Revision.{Rev};

    ghost Value = { Map names (List Rev) };

    ghost view = { λ n. record { list = n.documents.items; sorted = n.rising } };
}

impl NamedRevisions {
    /// These revisions, where the ids rise strictly.
    pub fn new(documents: Vec<AskedRevisions>) -> Option<NamedRevisions>
        ensures rising { IsSome result ↔ T (is_sorted names.cmp documents.items) }
        ensures entries { IfSome result (λ named. entries named ≡ documents.items) }
    {
        if !ids_rise(&documents) {
            return None;
        }
        Some(NamedRevisions { documents })
    }

    /// Each document with its revisions, in the order of the ids.
    pub fn documents(&self) -> &[AskedRevisions]
        ensures entries { result.now ≡ entries self.now }
    {
        &self.documents
    }
}

impl Copied for AskedRevisions {
    fn copy(&self, alloc: Global) -> Result<AskedRevisions, AllocError> {
        Ok(AskedRevisions {
            id: self.id.share()?,
            revisions: Vec::from_slice(alloc, &self.revisions)?,
        })
    }
}

impl Copied for NamedRevisions {
    fn copy(&self, alloc: Global) -> Result<NamedRevisions, AllocError> {
        let documents = copy_all(alloc, &self.documents)?;
        Ok(NamedRevisions { documents })
    }
}

/// Recalls the ranges that all ids and revisions keep: for the contract alone, since a list
/// says nothing of what the types of its items keep.
pub(crate) fn recall_all_named(documents: &[AskedRevisions])
    ensures in_range { All NamesRevs documents.now }
{
    for document in documents {
        document.recall_ranges();
    }
}

/// Recalls the ranges that all revisions keep: for the contract alone, since a list
/// says nothing of what the types of its items keep.
fn recall_all_revisions(revisions: &[RevId])
    ensures in_range { All IsRev revisions.now }
{
    for rev in revisions {
        let _recalled = rev.generation();
    }
}

/// Whether each id is below the next.
fn ids_rise(documents: &[AskedRevisions]) -> bool
    ensures { IsTrue result ↔ T (is_sorted names.cmp documents.now) }
{
    let Some((first, rest)) = documents.split_first() else {
        return true;
    };
    let mut last = first;
    for document in rest {
        if last.id >= document.id {
            return false;
        }
        last = document;
    }
    true
}
