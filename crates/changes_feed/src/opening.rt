//! The revisions of a document that are asked for, of which each is made when it is looked at.
ghost use Rattle.std.specs.Prelude.{◌≡◌, [], IfOk, option_copied, option_map};
ghost use Rattle.model.specs.Documents.{asked_of as asked_in, opened_at as opened_as};
ghost use Rattle.model.specs.History.{now};
ghost use Rattle.model.specs.Query.{Opened};
ghost use Rattle.changes_feed.specs.Opening.{conflicts_of, deleted_conflicts_of, known_opened, listed_with, listing, opened_by, unlisted};

use crate::answered::listed;
use crate::document::{conflicts, leaves_of};
use crate::opened::{asked_of, opened_at};
use document_id::DocId;
use queries::{Document, Options, Query, QueryKind};
use revision_id::RevId;
use revision_tree::RevTree;
use snapshots::Version;
use std::alloc::{AllocError, Global};
use std::marker::Model;

/// The revisions of a document that are asked for. It shares the document's revisions, and has one list of conflicts for
/// all that it shows, so it takes little memory where what it shows would take much.
pub struct Opening {
    id: DocId,
    tree: RevTree,
    options: Options,
    revs: Vec<RevId>,
    conflicts: Vec<RevId>,
    deleted_conflicts: Vec<RevId>,
}

impl Drop for Opening {
    fn drop(self) {
        let Opening {
            id: _,
            tree: _,
            options: _,
            revs: _,
            conflicts: _,
            deleted_conflicts: _,
        } = self;
    }
}

impl Model for Opening {
    ghost use Rattle.std.specs.Prelude.{◌≡◌};
    ghost use Rattle.std.specs.Coded.{codes};
    ghost use Rattle.model.specs.JsonCode.{coded_members};
    ghost use Rattle.changes_feed.specs.Opening.{Opening, conflicts_of, deleted_conflicts_of};

    ghost Value = { Opening };

    ghost coded = { Prim.hlevel (codes, coded_members) };

    ghost view = { λ o. record { id = o.id; tree = o.tree; options = o.options; revs = o.revs.items } };

    ghost invariant = { λ o. (o.conflicts.items ≡ conflicts_of o.options o.tree) × (o.deleted_conflicts.items ≡ deleted_conflicts_of o.options o.tree) };
}

impl Opening {
    /// All leaves of a document, or the revisions listed, where a query asks for them and the document is known.
    pub fn of(
        alloc: Global,
        version: &Version,
        query: &Query,
    ) -> Result<Option<Opening>, AllocError>
        ensures opened { IfOk result (λ found. option_map (λ o. Opened (opened_by o)) found
            ≡ known_opened (now version.now) query.now) }
    {
        let QueryKind::OpenRevs { id, asked, options } = query.kind() else {
            return Ok(None);
        };
        let Some(record) = version.database().documents().get(id) else {
            return Ok(None);
        };
        let opening = Opening::new(alloc, id, record.tree(), listed(asked), options)?;
        Ok(Some(opening))
    }

    /// All leaves of a document with these revisions, or those listed.
    fn new(
        alloc: Global,
        id: &DocId,
        tree: &RevTree,
        asked: Option<&[RevId]>,
        options: &Options,
    ) -> Result<Opening, AllocError>
        ensures { IfOk result (λ o. o ≡ record {
          id = id.now;
          tree = tree.now;
          options = options.now;
          revs = asked_in tree.now options.now (option_copied asked.entry);
        }) }
    {
        let leaves = leaves_of(alloc, tree, options)?;
        Ok(Opening {
            id: id.share()?,
            tree: tree.share(alloc)?,
            options: *options,
            revs: asked_of(alloc, tree, asked, options)?,
            conflicts: conflicts(alloc, tree, &leaves, false, options.conflicts)?,
            deleted_conflicts: conflicts(alloc, tree, &leaves, true, options.deleted_conflicts)?,
        })
    }

    /// The revisions that are shown, in their order.
    pub fn revs(&self) -> &[RevId]
        ensures revs { result.now ≡ self.now.revs }
    {
        &self.revs
    }

    /// The conflicts that each document lists.
    pub fn conflicts(&self) -> &[RevId]
        ensures conflicts { result.now ≡ conflicts_of self.now.options self.now.tree }
    {
        &self.conflicts
    }

    /// The deleted conflicts that each document lists.
    pub fn deleted_conflicts(&self) -> &[RevId]
        ensures deleted_conflicts { result.now ≡ deleted_conflicts_of self.now.options self.now.tree }
    {
        &self.deleted_conflicts
    }

    /// A revision as a document, or its name where its body is not there.
    pub fn opened(&self, alloc: Global, rev: RevId) -> Result<Result<Document, RevId>, AllocError>
        ensures opened { IfOk result (λ answer. answer ≡ opened_as self.now.id self.now.tree self.now.options rev) }
    {
        match self.unlisted(alloc, rev)? {
            Ok(document) => Ok(Ok(self.listed(alloc, document)?)),
            Err(rev) => Ok(Err(rev)),
        }
    }

    /// The same, of which a document lists no conflicts.
    pub fn unlisted(&self, alloc: Global, rev: RevId) -> Result<Result<Document, RevId>, AllocError>
        ensures opened { IfOk result (λ answer. answer
            ≡ opened_as self.now.id self.now.tree (unlisted self.now.options) rev) }
        ensures listed { IfOk result (λ answer. listed_with (conflicts_of self.now.options self.now.tree)
            (deleted_conflicts_of self.now.options self.now.tree) answer
            ≡ opened_as self.now.id self.now.tree self.now.options rev) }
        ensures none { IfOk result (λ answer. IfOk answer (λ d. (d.conflicts ≡ []) × (d.deleted_conflicts ≡ []))) }
    {
        let options = unlisted(&self.options);
        opened_at(alloc, &self.id, &self.tree, &options, rev)
    }

    /// A document with the lists of conflicts.
    fn listed(&self, alloc: Global, document: Document) -> Result<Document, AllocError>
        ensures { IfOk result (λ listed. listed ≡ listing (conflicts_of self.now.options self.now.tree)
            (deleted_conflicts_of self.now.options self.now.tree) document) }
    {
        Ok(Document {
            conflicts: Vec::from_slice(alloc, &self.conflicts)?,
            deleted_conflicts: Vec::from_slice(alloc, &self.deleted_conflicts)?,
            ..document
        })
    }
}

/// The same without lists of conflicts.
fn unlisted(options: &Options) -> Options
    ensures { result ≡ unlisted options.now }
{
    Options {
        conflicts: false,
        deleted_conflicts: false,
        ..*options
    }
}
