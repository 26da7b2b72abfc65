//! An end that counts the documents that pass it, and reports what keeps a replication from going on.
ghost use Rattle.std.specs.Prelude.{◌≡◌, ◌≤◌, length};
ghost use Rattle.replicator.specs.Wanted.{given_in, given_of};
ghost use Rattle.replicator_run.specs.Counted.{Counts, and_more};

use crate::asked::{Asked, End};
use crate::large::large_in;
use crate::many::MAX_OF_MORE;
use crate::watch::Watch;
use commands::{AskedRevisions, Merge, NamedRevisions};
use document_id::{DocId, DocIds};
use queries::{ChangesPage, Differences};
use replicator::{Checkpoint, Opened, Peer, PeerFault};
use revision_id::RevId;
use std::alloc::Global;
use std::marker::Model;

/// An end, and how many documents it gave or took. It reports what is asked of it and what has passed, where it ends
/// before the number after which changes are asked for, and of a document that no bulk can hold, or whose leaves no
/// request can.
#[derive(Drop)]
pub(crate) struct Counted<P, W> {
    peer: P,
    name: End,
    passed: u64,
    watch: W,
}

impl<P, W> Model for Counted<P, W> {
    ghost use Rattle.replicator_run.specs.Counted.{Counted};

    ghost Value = { Counted P };

    ghost view = { λ c. record { end = c.peer; passed = c.passed } };
}

impl<P: Peer, W: Watch> Counted<P, W> {
    /// An end that no document has passed.
    pub(crate) fn new(peer: P, name: End, watch: W) -> Counted<P, W>
        ensures { result ≡ record { end = peer; passed = 0 } }
    {
        Counted {
            peer,
            name,
            passed: 0,
            watch,
        }
    }

    /// How many documents have passed, or 2^64 - 1 where more have.
    pub(crate) fn passed(&self) -> u64
        ensures { result ≡ self.now.passed }
    {
        self.passed
    }

    /// Counts documents that passed.
    fn count(&mut self, documents: usize)
        ensures end { self.new.end ≡ self.old.end }
        ensures passed { self.new.passed ≡ and_more self.old.passed documents }
    {
        self.passed = self.passed.saturating_add(documents as u64);
        self.watch.passed(self.name, self.passed);
    }
}

/// How many documents are given.
fn given(revisions: &[Result<Merge, RevId>]) -> usize
    ensures { result ≡ length (given_in revisions.now) }
{
    let mut given = 0;
    for revision in revisions {
        given += documents_in(revision);
    }
    given
}

fn documents_in(revision: &Result<Merge, RevId>) -> usize
    ensures documents { result ≡ length (given_of revision.now) }
    ensures one { result ≤ 1 }
{
    match revision {
        Ok(_) => 1,
        Err(_) => 0,
    }
}

/// Reports a page of changes, and where they end before the number after which they were asked for.
fn tell_page<W: Watch>(watch: &W, since: u64, page: &ChangesPage) {
    if page.last_seq < since {
        watch.past_end(since, page.last_seq);
    }
    watch.changes(page.last_seq, page.pending);
}

/// Reports of a document that no bulk can hold, where the answer to its bulk can't be read.
fn tell_large<W: Watch>(watch: &W, alloc: Global, documents: &[Merge], fault: PeerFault) {
    let PeerFault::Unreadable = fault else {
        return;
    };
    let Ok(Some((id, len))) = large_in(alloc, documents) else {
        return;
    };
    watch.large_document(id, len);
}

/// Reports of the document with the most leaves, where the answer about so many of them can't be read that one
/// request may not hold them.
fn tell_many<W: Watch>(watch: &W, asked: &[AskedRevisions], fault: PeerFault) {
    let PeerFault::Unreadable = fault else {
        return;
    };
    let Some(first) = asked.first() else {
        return;
    };
    let mut most = first;
    let mut all: usize = 0;
    for document in asked {
        let leaves = document.revisions.len();
        all = all.saturating_add(leaves);
        if leaves > most.revisions.len() {
            most = document;
        }
    }
    if all > MAX_OF_MORE {
        watch.many_leaves(&most.id, most.revisions.len(), all);
    }
}

impl<P: Peer, W: Watch> Peer for Counted<P, W> {
    ghost goes = { Counts P.goes };

    ghost failed_calls = { λ c. P.failed_calls c.end };

    fn changes(&mut self, alloc: Global, since: u64, limit: u64) -> Result<ChangesPage, PeerFault> {
        self.watch.asks(self.name, Asked::Changes);
        match self.peer.changes(alloc, since, limit) {
            Ok(page) => {
                tell_page(&self.watch, since, &page);
                Ok(page)
            }
            Err(fault) => Err(fault),
        }
    }

    fn changes_of(
        &mut self,
        alloc: Global,
        ids: &DocIds,
        since: u64,
        limit: u64,
    ) -> Result<ChangesPage, PeerFault> {
        self.watch.asks(self.name, Asked::Changes);
        match self.peer.changes_of(alloc, ids, since, limit) {
            Ok(page) => {
                tell_page(&self.watch, since, &page);
                Ok(page)
            }
            Err(fault) => Err(fault),
        }
    }

    fn diff(&mut self, alloc: Global, asked: &NamedRevisions) -> Result<Differences, PeerFault> {
        self.watch.asks(self.name, Asked::Differences);
        match self.peer.diff(alloc, asked) {
            Ok(differences) => Ok(differences),
            Err(fault) => {
                tell_many(&self.watch, asked.documents(), fault);
                Err(fault)
            }
        }
    }

    fn expect(&mut self, alloc: Global, wanted: &[(DocId, RevId)]) {
        self.watch.asks(self.name, Asked::Revisions);
        self.peer.expect(alloc, wanted);
    }

    fn open_revs(
        &mut self,
        alloc: Global,
        id: &DocId,
        revs: &[RevId],
    ) -> Result<Opened, PeerFault> {
        self.watch.asks(self.name, Asked::Revisions);
        match self.peer.open_revs(alloc, id, revs) {
            Ok(opened) => {
                self.count(given(&opened.revisions));
                Ok(opened)
            }
            Err(fault) => Err(fault),
        }
    }

    fn bulk(&mut self, alloc: Global, documents: &[Merge]) -> Result<(), PeerFault> {
        self.watch.asks(self.name, Asked::Bulk);
        match self.peer.bulk(alloc, documents) {
            Ok(()) => {
                self.count(documents.len());
                Ok(())
            }
            Err(fault) => {
                tell_large(&self.watch, alloc, documents, fault);
                Err(fault)
            }
        }
    }

    fn local_get(&mut self, alloc: Global, id: &DocId) -> Result<Option<Checkpoint>, PeerFault> {
        self.watch.asks(self.name, Asked::Checkpoint);
        self.peer.local_get(alloc, id)
    }

    fn local_put(
        &mut self,
        alloc: Global,
        id: &DocId,
        named: Option<u32>,
        last_seq: u64,
    ) -> Result<u32, PeerFault> {
        self.watch.asks(self.name, Asked::NewCheckpoint);
        self.peer.local_put(alloc, id, named, last_seq)
    }

    fn failures(&self) -> u64 {
        self.peer.failures()
    }
}
