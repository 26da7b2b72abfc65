//! Ends that fail or lie.
ghost use Rattle.std.specs.Prelude.{◌≡◌, ⊤, Err};
ghost use Rattle.replicator.specs.Call.{CountsFailed, OnlyReads};

use commands::{Merge, NamedRevisions};
use document_id::{DocId, DocIds};
use queries::{ChangesPage, Differences};
use replicator::{Checkpoint, Opened, Peer, PeerFault};
use revision_id::RevId;
use std::alloc::{AllocError, Global};

/// How an end strays from what its database answers.
#[derive(Clone, Copy)]
pub(crate) enum Flaw {
    None,
    /// It takes each bulk, and says that it failed.
    FailsAfterBulk,
    /// It takes no checkpoint, and says that it failed.
    FailsAtCheckpoint,
    /// It gives no document for the revision of this text.
    LeavesOut(&'static str),
    /// It takes no bulk, and says that a document was refused.
    RefusesBulk,
}

/// An end with a flaw.
#[derive(Drop)]
pub(crate) struct Flawed<P> {
    peer: P,
    flaw: Flaw,
    failures: u64,
    bulks: u64,
    sent: u64,
    since: Option<u64>,
}

impl<P> Flawed<P> {
    /// An end of which nothing was asked.
    pub(crate) fn new(peer: P, flaw: Flaw) -> Flawed<P> {
        Flawed {
            peer,
            flaw,
            failures: 0,
            bulks: 0,
            sent: 0,
            since: None,
        }
    }

    /// The end with no flaw, of which nothing was asked.
    pub(crate) fn mended(self) -> Flawed<P> {
        Flawed::new(self.into_peer(), Flaw::None)
    }

    /// The end itself.
    pub(crate) fn into_peer(self) -> P {
        let Flawed { peer, .. } = self;
        peer
    }

    pub(crate) fn peer(&self) -> &P {
        &self.peer
    }

    /// How many bulks it was sent.
    pub(crate) fn bulks(&self) -> u64 {
        self.bulks
    }

    /// How many documents it was sent.
    pub(crate) fn sent(&self) -> u64 {
        self.sent
    }

    /// After which number it was first asked for changes.
    pub(crate) fn since(&self) -> Option<u64> {
        self.since
    }

    /// Counts a failure.
    fn noted(&mut self, fault: PeerFault) -> PeerFault
        ensures failures { CountsFailed {A = ⊤} self.old.failures self.new.failures (Err result) }
        ensures fault { result ≡ fault }
    {
        if let PeerFault::Failed = fault {
            self.failures = self.failures.saturating_add(1);
        }
        fault
    }
}

impl<P: Peer> Flawed<P> {
    /// What it gives for revisions of a document.
    fn give(&mut self, alloc: Global, id: &DocId, revs: &[RevId]) -> Result<Opened, PeerFault>
        ensures failures { self.new.failures ≡ self.old.failures }
        ensures reads { OnlyReads result }
    {
        match self.flaw {
            Flaw::LeavesOut(revision) => open_without(&mut self.peer, alloc, id, revs, revision),
            _ => self.peer.open_revs(alloc, id, revs),
        }
    }

    /// Takes documents, or not.
    fn take(&mut self, alloc: Global, documents: &[Merge]) -> Result<(), PeerFault>
        ensures failures { self.new.failures ≡ self.old.failures }
    {
        match self.flaw {
            Flaw::RefusesBulk => Err(PeerFault::Refused),
            Flaw::FailsAfterBulk => {
                self.peer.bulk(alloc, documents)?;
                Err(PeerFault::Failed)
            }
            _ => self.peer.bulk(alloc, documents),
        }
    }

    /// Takes a checkpoint, or not.
    fn mark(
        &mut self,
        alloc: Global,
        id: &DocId,
        named: Option<u32>,
        last_seq: u64,
    ) -> Result<u32, PeerFault>
        ensures failures { self.new.failures ≡ self.old.failures }
    {
        match self.flaw {
            Flaw::FailsAtCheckpoint => Err(PeerFault::Failed),
            _ => self.peer.local_put(alloc, id, named, last_seq),
        }
    }
}

/// What an end gives for the revisions but the one of this text.
fn open_without<P: Peer>(
    peer: &mut P,
    alloc: Global,
    id: &DocId,
    revs: &[RevId],
    left_out: &str,
) -> Result<Opened, PeerFault>
    ensures reads { OnlyReads result }
{
    let Ok(left_out) = RevId::parse(left_out) else {
        return Err(PeerFault::Unreadable);
    };
    let others = without(alloc, revs, left_out)?;
    peer.open_revs(alloc, id, others.as_slice())
}

fn without(alloc: Global, revs: &[RevId], left_out: RevId) -> Result<Vec<RevId>, AllocError> {
    revs.iter()
        .copied()
        .filter(|rev| *rev != left_out)
        .collect(alloc)
}

impl<P: Peer> Peer for Flawed<P> {
    ghost goes = { λ _ _ _. ⊤ };

    ghost failed_calls = { λ p. p.failures };

    fn changes(&mut self, alloc: Global, since: u64, limit: u64) -> Result<ChangesPage, PeerFault> {
        self.since = self.since.or(Some(since));
        match self.peer.changes(alloc, since, limit) {
            Ok(page) => Ok(page),
            Err(fault) => Err(self.noted(fault)),
        }
    }

    fn changes_of(
        &mut self,
        alloc: Global,
        ids: &DocIds,
        since: u64,
        limit: u64,
    ) -> Result<ChangesPage, PeerFault> {
        self.since = self.since.or(Some(since));
        match self.peer.changes_of(alloc, ids, since, limit) {
            Ok(page) => Ok(page),
            Err(fault) => Err(self.noted(fault)),
        }
    }

    fn diff(&mut self, alloc: Global, asked: &NamedRevisions) -> Result<Differences, PeerFault> {
        match self.peer.diff(alloc, asked) {
            Ok(differences) => Ok(differences),
            Err(fault) => Err(self.noted(fault)),
        }
    }

    fn open_revs(
        &mut self,
        alloc: Global,
        id: &DocId,
        revs: &[RevId],
    ) -> Result<Opened, PeerFault> {
        match self.give(alloc, id, revs) {
            Ok(opened) => Ok(opened),
            Err(fault) => Err(self.noted(fault)),
        }
    }

    fn bulk(&mut self, alloc: Global, documents: &[Merge]) -> Result<(), PeerFault> {
        self.bulks = self.bulks.saturating_add(1);
        self.sent = self.sent.saturating_add(documents.len() as u64);
        match self.take(alloc, documents) {
            Ok(()) => Ok(()),
            Err(fault) => Err(self.noted(fault)),
        }
    }

    fn local_get(&mut self, alloc: Global, id: &DocId) -> Result<Option<Checkpoint>, PeerFault> {
        match self.peer.local_get(alloc, id) {
            Ok(checkpoint) => Ok(checkpoint),
            Err(fault) => Err(self.noted(fault)),
        }
    }

    fn local_put(
        &mut self,
        alloc: Global,
        id: &DocId,
        named: Option<u32>,
        last_seq: u64,
    ) -> Result<u32, PeerFault> {
        match self.mark(alloc, id, named, last_seq) {
            Ok(counter) => Ok(counter),
            Err(fault) => Err(self.noted(fault)),
        }
    }

    fn failures(&self) -> u64 {
        self.failures
    }
}
