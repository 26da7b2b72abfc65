//! A database that is reached over one connection after another.
ghost use Rattle.std.specs.Prelude.{◌≡◌, ◌↔◌, Err, IsFalse, IsTrue, string_bytes};
ghost use Rattle.replicator.specs.declared.fault.PeerFault.TheVariants.{Failed};
ghost use Rattle.replicator.specs.Call.{CountsFailed};
ghost use Rattle.replicator_run.specs.Reopened.{fresh_end, GoesOver, IsNew};

use commands::{Merge, NamedRevisions};
use document_id::{DocId, DocIds};
use queries::{ChangesPage, Differences};
use replicator::{Checkpoint, Opened, Peer, PeerFault};
use replicator_http::{HttpPeer, State};
use revision_id::RevId;
use std::alloc::Global;
use std::marker::Model;
use streams::{Sink, Source};

/// Opens connections to a database, one after another.
pub trait Opens<R, W> {
    /// A connection on which nothing has been asked: what is read of it, and what is written to it. Nothing
    /// where none is to be had any more.
    fn open(&mut self) -> Option<(R, W)>;

    /// A call failed since the database can't serve it now (503).
    fn unavailable(&mut self);
}

/// A database that was reached at a host, by a connection on which nothing has been asked, and what opens the next
/// ones.
#[derive(Drop)]
pub struct Reached<R, W, O> {
    pub host: String,
    pub reader: R,
    pub writer: W,
    pub opener: O,
}

/// A database that is reached over one connection after another. A call that fails is asked again over a new
/// connection, once, if it comes to the same when it is asked twice: the write of a checkpoint doesn't.
pub(crate) struct Reopened<R: Source, W: Sink, O> {
    peer: HttpPeer<R, W>,
    opener: O,
    failures: u64,
}

impl<R: Source + Drop, W: Sink + Drop, O: Drop> Drop for Reopened<R, W, O> {
    fn drop(self) {
        let Reopened {
            peer: _,
            opener: _,
            failures: _,
        } = self;
    }
}

impl<R: Source, W: Sink, O> Model for Reopened<R, W, O> {
    ghost use Rattle.replicator_run.specs.Reopened.{Reopened};

    ghost Value = { Reopened };

    ghost view = { λ p. record { connection = p.peer; failed_calls = p.failures } };
}

impl<R: Source + Drop, W: Sink + Drop, O: Opens<R, W>> Reopened<R, W, O> {
    /// A database that was reached. Its checkpoints say so where documents are skipped.
    pub(crate) fn new(alloc: Global, reached: Reached<R, W, O>, skips: bool) -> Reopened<R, W, O>
        ensures { result ≡ fresh_end (record { host = string_bytes reached.host; skips = skips }) (R.left reached.reader) (R.failed_reads reached.reader) (W.taken reached.writer) (W.failed_writes reached.writer) }
    {
        let Reached {
            host,
            reader,
            writer,
            opener,
        } = reached;
        Reopened {
            peer: HttpPeer::new(alloc, host, skips, reader, writer),
            opener,
            failures: 0,
        }
    }

    /// Opens a new connection in place of the one that failed, and says whether there is one. There is none where the
    /// opener has none, or memory is refused.
    fn reopen(&mut self, alloc: Global) -> bool
        ensures opened { IsTrue result → IsNew self.old.connection.terms self.new.connection }
        ensures gone { IsFalse result → self.new.connection ≡ self.old.connection }
        ensures failures { self.new.failed_calls ≡ self.old.failed_calls }
    {
        let Ok(host) = String::from_str(alloc, self.peer.host()) else {
            return false;
        };
        let Some((reader, writer)) = self.opener.open() else {
            return false;
        };
        let skips = self.peer.skips();
        self.peer = HttpPeer::new(alloc, host, skips, reader, writer);
        true
    }

    /// Counts a call that failed, if this is its answer. Where the connection goes on then, the database couldn't serve it.
    fn counted<T>(&mut self, answer: Result<T, PeerFault>) -> Result<T, PeerFault>
        ensures connection { self.new.connection ≡ self.old.connection }
        ensures count { CountsFailed self.old.failed_calls self.new.failed_calls result }
        ensures answer { result ≡ answer }
    {
        match answer {
            Ok(found) => Ok(found),
            Err(PeerFault::Failed) => {
                if let State::Open = self.peer.state() {
                    self.opener.unavailable();
                }
                self.failures = self.failures.saturating_add(1);
                Err(PeerFault::Failed)
            }
            Err(PeerFault::Unreadable) => Err(PeerFault::Unreadable),
            Err(PeerFault::Memory) => Err(PeerFault::Memory),
            Err(PeerFault::Refused) => Err(PeerFault::Refused),
        }
    }
}

/// Whether a call failed.
fn has_failed<T>(answer: &Result<T, PeerFault>) -> bool
    ensures { IsTrue result ↔ answer.now ≡ Err Failed }
{
    matches!(answer, Err(PeerFault::Failed))
}

impl<R: Source + Drop, W: Sink + Drop, O: Opens<R, W>> Peer for Reopened<R, W, O> {
    ghost goes = { GoesOver };

    ghost failed_calls = { λ p. p.failed_calls };

    fn changes(&mut self, alloc: Global, since: u64, limit: u64) -> Result<ChangesPage, PeerFault> {
        let answer = self.peer.changes(alloc, since, limit);
        if !has_failed(&answer) {
            return self.counted(answer);
        }
        if !self.reopen(alloc) {
            return self.counted(answer);
        }
        let again = self.peer.changes(alloc, since, limit);
        self.counted(again)
    }

    fn changes_of(
        &mut self,
        alloc: Global,
        ids: &DocIds,
        since: u64,
        limit: u64,
    ) -> Result<ChangesPage, PeerFault> {
        let answer = self.peer.changes_of(alloc, ids, since, limit);
        if !has_failed(&answer) {
            return self.counted(answer);
        }
        if !self.reopen(alloc) {
            return self.counted(answer);
        }
        let again = self.peer.changes_of(alloc, ids, since, limit);
        self.counted(again)
    }

    fn diff(&mut self, alloc: Global, asked: &NamedRevisions) -> Result<Differences, PeerFault> {
        let answer = self.peer.diff(alloc, asked);
        if !has_failed(&answer) {
            return self.counted(answer);
        }
        if !self.reopen(alloc) {
            return self.counted(answer);
        }
        let again = self.peer.diff(alloc, asked);
        self.counted(again)
    }

    fn expect(&mut self, alloc: Global, wanted: &[(DocId, RevId)]) {
        self.peer.expect(alloc, wanted);
    }

    fn open_revs(
        &mut self,
        alloc: Global,
        id: &DocId,
        revs: &[RevId],
    ) -> Result<Opened, PeerFault> {
        let answer = self.peer.open_revs(alloc, id, revs);
        if !has_failed(&answer) {
            return self.counted(answer);
        }
        if !self.reopen(alloc) {
            return self.counted(answer);
        }
        let again = self.peer.open_revs(alloc, id, revs);
        self.counted(again)
    }

    fn bulk(&mut self, alloc: Global, documents: &[Merge]) -> Result<(), PeerFault> {
        let answer = self.peer.bulk(alloc, documents);
        if !has_failed(&answer) {
            return self.counted(answer);
        }
        if !self.reopen(alloc) {
            return self.counted(answer);
        }
        let again = self.peer.bulk(alloc, documents);
        self.counted(again)
    }

    fn local_get(&mut self, alloc: Global, id: &DocId) -> Result<Option<Checkpoint>, PeerFault> {
        let answer = self.peer.local_get(alloc, id);
        if !has_failed(&answer) {
            return self.counted(answer);
        }
        if !self.reopen(alloc) {
            return self.counted(answer);
        }
        let again = self.peer.local_get(alloc, id);
        self.counted(again)
    }

    fn local_put(
        &mut self,
        alloc: Global,
        id: &DocId,
        named: Option<u32>,
        last_seq: u64,
    ) -> Result<u32, PeerFault> {
        let answer = self.peer.local_put(alloc, id, named, last_seq);
        self.counted(answer)
    }

    fn failures(&self) -> u64 {
        self.failures
    }
}
