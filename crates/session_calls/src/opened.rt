//! Revisions of a document that a session has seen.
ghost use Rattle.std.specs.Prelude.{◌≡◌, IfOk, option_map};
ghost use Rattle.changes_feed.specs.Opening.{conflicts_of, deleted_conflicts_of};
ghost use Rattle.model.specs.Documents.{opened_at};
ghost use Rattle.model.specs.History.{now};
ghost use Rattle.model.specs.Query.{Opened as Shown};
ghost use Rattle.session_api.specs.Revisions.{known_opened, opened_by};

use changes_feed::Opening;
use queries::{Document, Query};
use revision_id::RevId;
use session_api::Revisions;
use snapshots::Version;
use std::alloc::{AllocError, Global};

/// Revisions of a document that a session has seen, which share the document's.
pub struct Opened {
    pub opening: Opening,
}

impl Drop for Opened {
    fn drop(self) {
        let Opened { opening: _ } = self;
    }
}

impl Opened {
    /// The revisions that a query for them asks for, where the document is known.
    pub fn of(alloc: Global, version: &Version, query: &Query) -> Result<Option<Opened>, AllocError>
        ensures opened { IfOk result (λ found. option_map (λ o. Shown (opened_by
            (opened_at o.opening.id o.opening.tree o.opening.options) o.opening.revs)) found
            ≡ known_opened (now version.now) query.now) }
    {
        let Some(opening) = Opening::of(alloc, version, query)? else {
            return Ok(None);
        };
        Ok(Some(Opened { opening }))
    }
}

impl Revisions for Opened {
    ghost shown = { λ o. o.opening.revs };

    ghost document = { λ o rev. opened_at o.opening.id o.opening.tree o.opening.options rev };

    ghost listed = { λ o. conflicts_of o.opening.options o.opening.tree };

    ghost listed_deleted = { λ o. deleted_conflicts_of o.opening.options o.opening.tree };

    fn revs(&self) -> &[RevId] {
        self.opening.revs()
    }

    fn conflicts(&self) -> &[RevId] {
        self.opening.conflicts()
    }

    fn deleted_conflicts(&self) -> &[RevId] {
        self.opening.deleted_conflicts()
    }

    fn opened(&self, alloc: Global, rev: RevId) -> Result<Result<Document, RevId>, AllocError> {
        self.opening.opened(alloc, rev)
    }

    fn unlisted(&self, alloc: Global, rev: RevId) -> Result<Result<Document, RevId>, AllocError> {
        self.opening.unlisted(alloc, rev)
    }
}
