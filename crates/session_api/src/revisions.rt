//! Revisions of a document, of which each is made when it is looked at.
ghost use Rattle.std.specs.Prelude.{◌≡◌, [], List, Result, IfOk};
ghost use Rattle.model.specs.Query as model;
ghost use Rattle.model.specs.Revision.{Rev};
ghost use Rattle.session_api.specs.Revisions.{listed_with};

use queries::Document;
use revision_id::RevId;
use std::alloc::{AllocError, Global};

/// Revisions of a document that a query asks for, of which each is made when it is looked at. So they take little memory
/// where their documents would take much.
pub trait Revisions {
    /// The revisions that are shown, in their order.
    ghost shown: { Self → List Rev };

    /// A revision as a document, or its name where its body is not there.
    ghost document: { Self → Rev → Result model.Document Rev };

    /// The conflicts that each document lists.
    ghost listed: { Self → List Rev };

    /// The deleted conflicts that each document lists.
    ghost listed_deleted: { Self → List Rev };

    /// The revisions that are shown, in their order.
    fn revs(&self) -> &[RevId]
        ensures revs { result.now ≡ shown self.now };

    /// The conflicts that each document lists.
    fn conflicts(&self) -> &[RevId]
        ensures conflicts { result.now ≡ listed self.now };

    /// The deleted conflicts that each document lists.
    fn deleted_conflicts(&self) -> &[RevId]
        ensures deleted_conflicts { result.now ≡ listed_deleted self.now };

    /// A revision as a document, or its name where its body is not there.
    fn opened(&self, alloc: Global, rev: RevId) -> Result<Result<Document, RevId>, AllocError>
        ensures opened { IfOk result (λ answer. answer ≡ document self.now rev) };

    /// The same, of which a document lists no conflicts.
    fn unlisted(&self, alloc: Global, rev: RevId) -> Result<Result<Document, RevId>, AllocError>
        ensures listed { IfOk result (λ answer. listed_with (listed self.now) (listed_deleted self.now) answer
            ≡ document self.now rev) }
        ensures none { IfOk result (λ answer. IfOk answer (λ d. (d.conflicts ≡ []) × (d.deleted_conflicts ≡ []))) };
}
