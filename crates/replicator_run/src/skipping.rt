//! An end without the documents that no request can hold.
ghost use Rattle.std.specs.Prelude.{◌≡◌};
ghost use Rattle.replicator_run.specs.Skipped.{Skips};

use crate::large::large_in;
use crate::many::asked_of;
use crate::watch::Watch;
use commands::{Merge, NamedRevisions};
use document_id::{DocId, DocIds};
use queries::{ChangesPage, Differences};
use replicator::{Checkpoint, Opened, Peer, PeerFault};
use revision_id::RevId;
use std::alloc::Global;
use std::marker::Model;

/// An end that skips the documents that no request can hold, and reports each: it isn't asked to take one
/// that no bulk can hold, which counts as taken, and names no leaf of one that has too many. Clauses see the
/// end.
#[derive(Drop)]
pub(crate) struct Skipping<P, W> {
    peer: P,
    watch: W,
}

impl<P, W> Model for Skipping<P, W> {
    ghost Value = { P };

    ghost view = { λ s. s.peer };
}

impl<P: Drop, W: Drop> Skipping<P, W> {
    /// The end, which skips documents.
    pub(crate) fn new(peer: P, watch: W) -> Skipping<P, W>
        ensures { result ≡ peer }
    {
        Skipping { peer, watch }
    }

    /// The end.
    pub(crate) fn into_inner(self) -> P
        ensures { result ≡ self }
    {
        let Skipping { peer, watch: _ } = self;
        peer
    }
}

impl<P: Peer, W: Watch> Peer for Skipping<P, W> {
    ghost goes = { Skips P.goes };

    ghost failed_calls = { λ s. P.failed_calls s };

    fn changes(&mut self, alloc: Global, since: u64, limit: u64) -> Result<ChangesPage, PeerFault> {
        match self.peer.changes(alloc, since, limit) {
            Ok(page) => Ok(asked_of(&self.watch, page)),
            Err(fault) => Err(fault),
        }
    }

    fn changes_of(
        &mut self,
        alloc: Global,
        ids: &DocIds,
        since: u64,
        limit: u64,
    ) -> Result<ChangesPage, PeerFault> {
        match self.peer.changes_of(alloc, ids, since, limit) {
            Ok(page) => Ok(asked_of(&self.watch, page)),
            Err(fault) => Err(fault),
        }
    }

    fn diff(&mut self, alloc: Global, asked: &NamedRevisions) -> Result<Differences, PeerFault> {
        self.peer.diff(alloc, asked)
    }

    fn expect(&mut self, alloc: Global, wanted: &[(DocId, RevId)]) {
        self.peer.expect(alloc, wanted);
    }

    fn open_revs(
        &mut self,
        alloc: Global,
        id: &DocId,
        revs: &[RevId],
    ) -> Result<Opened, PeerFault> {
        self.peer.open_revs(alloc, id, revs)
    }

    fn bulk(&mut self, alloc: Global, documents: &[Merge]) -> Result<(), PeerFault> {
        match large_in(alloc, documents) {
            Ok(Some((id, len))) => {
                self.watch.skipped_document(id, len);
                Ok(())
            }
            Ok(None) => self.peer.bulk(alloc, documents),
            Err(_) => Err(PeerFault::Memory),
        }
    }

    fn local_get(&mut self, alloc: Global, id: &DocId) -> Result<Option<Checkpoint>, PeerFault> {
        self.peer.local_get(alloc, id)
    }

    fn local_put(
        &mut self,
        alloc: Global,
        id: &DocId,
        named: Option<u32>,
        last_seq: u64,
    ) -> Result<u32, PeerFault> {
        self.peer.local_put(alloc, id, named, last_seq)
    }

    fn failures(&self) -> u64 {
        self.peer.failures()
    }
}
