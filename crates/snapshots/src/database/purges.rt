//! Purges of documents, each logged.
ghost use Rattle.std.specs.Prelude.{◌≡◌, ◌<◌, ◌+◌, length, IfOk};
ghost use Rattle.model.specs.Map.{entries};
ghost use Rattle.model.specs.Database as model;
ghost use Rattle.model.specs.Database.{removed_of, after_purge, after_purges, purge_reply};
ghost use Rattle.model.specs.PurgeLog.{logged};
ghost use Rattle.snapshots.specs.Replaced.{replaced_at};

use crate::database::Database;
use crate::record::Record;
use crate::records::{Records, Replaced};
use commands::{AskedRevisions, NamedRevisions};
use document_id::DocId;
use purge::cut_document;
use revision_id::RevId;
use revision_tree::RevTree;
use std::alloc::AllocError;
use std::mem;

impl Database {
    /// One document after another, in the byte order of the ids.
    pub(super) fn purge_all(&mut self, named: &NamedRevisions) -> Result<NamedRevisions, AllocError>
        requires room { self.old.update_seq + length (entries named.now) < u64.MAX }
        requires log_room { self.old.purges.purge_seq + length (entries named.now) < u64.MAX }
        ensures reply { IfOk result (λ removed. removed ≡ purge_reply self.old named.now) }
        ensures after { IfOk result (λ _. self.new ≡ after_purges self.old (entries named.now)) }
    {
        let documents = named.documents();
        let mut removed = Vec::with_capacity(self.alloc, documents.len())?;
        for document in documents {
            let revisions = self.purge(&document.id, &document.revisions)?;
            removed.push(AskedRevisions {
                id: document.id.share()?,
                revisions,
            })?;
        }
        let Some(removed) = NamedRevisions::new(removed) else {
            unreachable!()
        };
        Ok(removed)
    }

    fn log(&mut self, id: &DocId, leaves: &[RevId]) -> Result<(), AllocError>
        requires { self.old.purges.purge_seq + 1 < u64.MAX }
        ensures { IfOk result (λ _. self.new ≡ record self.old { purges = logged self.old.purges id.now leaves.now }) }
    {
        let leaves = Vec::from_slice(self.alloc, leaves)?;
        self.purges = self.purges.add(id, leaves)?;
        Ok(())
    }

    /// Gives the document the tree that is left, or removes it.
    fn leave(
        &mut self,
        id: &DocId,
        left: Option<RevTree>,
        replaced: Option<Replaced>,
    ) -> Result<(), AllocError>
        requires room { self.old.update_seq + 1 < u64.MAX }
        requires replaced { replaced ≡ replaced_at self.old.docs id.now }
        ensures { IfOk result (λ _. self.new ≡ model.leave self.old id.now left) }
    {
        match left {
            Some(tree) => self.update(id, tree, replaced),
            None => self.remove(id),
        }
    }

    /// Removes the document. Where memory is refused, no documents are left.
    fn remove(&mut self, id: &DocId) -> Result<(), AllocError>
        ensures { IfOk result (λ _. self.new ≡ model.without_document self.old id.now) }
    {
        let documents = mem::replace(&mut self.documents, Records::new(self.alloc));
        self.documents = documents.remove(id)?;
        Ok(())
    }

    /// Removes the named leaves for good, and answers those that there were.
    fn purge(&mut self, id: &DocId, named: &[RevId]) -> Result<Vec<RevId>, AllocError>
        requires room { self.old.update_seq + 1 < u64.MAX }
        requires log_room { self.old.purges.purge_seq + 1 < u64.MAX }
        ensures removed { IfOk result (λ revs. revs.items ≡ removed_of self.old id.now named.now) }
        ensures after { IfOk result (λ _. self.new ≡ after_purge self.old (id.now, named.now)) }
    {
        let held = self.documents.get(id);
        let Some(tree) = held.map(Record::tree) else {
            return Ok(Vec::new(self.alloc));
        };
        let (removed, left) = cut_document(self.alloc, tree, named)?;
        let replaced = held.map(Replaced::of);
        if removed.is_empty() {
            return Ok(removed);
        }
        self.log(id, &removed)?;
        self.leave(id, left, replaced)?;
        Ok(removed)
    }
}
