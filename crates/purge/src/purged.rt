//! A purge as it is kept.
ghost use Rattle.std.specs.Prelude.{◌≡◌, ◌↔◌, ℕ, All, IfOk, IsTrue};
ghost use Rattle.model.specs.PurgeLog.{IsPurgeInfo};
ghost use Rattle.model.specs.Revision.{IsRev};
ghost use Rattle.purge.specs.Log.{info_of};

use document_id::DocId;
use revision_id::RevId;
use std::alloc::{AllocError, Global};
use std::marker::Model;

/// A document that was purged, and the leaves that it lost.
pub struct Purged {
    id: DocId,
    leaves: Vec<RevId>,
}

impl Drop for Purged {
    fn drop(self) {
        let Purged { id: _, leaves: _ } = self;
    }
}

impl Model for Purged {
    ghost use Rattle.std.specs.Prelude.{List};
    ghost use Rattle.model.specs.Command.{Id};
    ghost use Rattle.model.specs.Revision.{Rev};

    ghost Value = { Id × List Rev };

    ghost view = { λ p. (p.id, p.leaves.items) };
}

impl Purged {
    /// The purge of these leaves of the document.
    pub fn new(id: DocId, leaves: Vec<RevId>) -> Purged
        ensures { result ≡ (id, leaves.items) }
    {
        Purged { id, leaves }
    }

    /// The same purge, in memory of its own.
    pub(crate) fn copy(&self, alloc: Global) -> Result<Purged, AllocError>
        ensures { IfOk result (λ p. p ≡ self.now) }
    {
        let leaves = Vec::from_slice(alloc, &self.leaves)?;
        Ok(Purged::new(self.id.share()?, leaves))
    }

    /// The id that the document had.
    pub fn id(&self) -> &DocId
        ensures { result.now ≡ self.now.0 }
    {
        &self.id
    }

    /// The leaves that the document lost, in the order in which they were named.
    pub fn leaves(&self) -> &[RevId]
        ensures { result.now ≡ self.now.1 }
    {
        &self.leaves
    }

    /// Whether it is one that a log can keep: the document lost a leaf. The id and the revisions are read for the contract
    /// alone.
    pub(crate) fn lost_leaves(&self) -> bool
        ensures { (seq : ℕ) → IsTrue result ↔ IsPurgeInfo (info_of (seq, self.now)) }
    {
        let _recalled = self.id.as_str();
        recall_all(&self.leaves);
        !self.leaves.is_empty()
    }
}

/// Recalls the ranges that all revisions keep: for the contract alone, since a list says nothing of what the types of its
/// items keep.
fn recall_all(revs: &[RevId])
    ensures { All IsRev revs.now }
{
    for rev in revs {
        let _recalled = rev.generation();
    }
}
