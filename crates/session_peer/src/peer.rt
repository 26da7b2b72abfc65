//! A session as one end of a replication.
ghost use Rattle.std.specs.Prelude.{◌≡◌, ⊤, Ok, Err, IfOk, IfErr, OnOk};
ghost use Rattle.model.specs.Command as model;
ghost use Rattle.session_api.specs.SessionCall as session_call;
ghost use Rattle.session_api.specs.Learns.{Makes};
ghost use Rattle.session_api.specs.Known.{HasEntryAt};
ghost use Rattle.replicator.specs.Call.{CountsFailed};
ghost use Rattle.session_peer.specs.Goes.{Goes, LookFails, WriteFails, fault_of};

use crate::checkpoints::checkpoint_of;
use crate::shown::revisions;
use crate::written::{are_taken, bulk_of, counter_in, put_of};
use commands::{Command, Merge, NamedRevisions, Reply};
use document_id::{DocId, DocIds};
use model::Style;
use queries::{ChangesPage, Differences};
use replicator::{Checkpoint, Opened, Peer, PeerFault};
use revision_id::RevId;
use session_api::{CallFault, Replica, Viewer};
use std::alloc::Global;
use std::marker::Model;

/// A session as one end of a replication. Its calls that wait do so by the context `X`. Contracts see
/// the session, and how many calls have failed.
pub struct SessionPeer<'c, X, S: Viewer> {
    session: S,
    context: &'c X,
    failures: u64,
}

impl<X, S: Viewer + Drop> Drop for SessionPeer<'_, X, S> {
    fn drop(self) {
        let SessionPeer {
            session: _,
            context: _,
            failures: _,
        } = self;
    }
}

impl<'c, X, S: Viewer> Model for SessionPeer<'c, X, S> {
    ghost use Rattle.session_peer.specs.End.{End};

    ghost Value = { End S };

    ghost view = { λ p. record { session = p.session; failures = p.failures } };
}

impl<'c, X, S: Viewer> SessionPeer<'c, X, S> {
    /// An end of which no call has failed.
    pub fn new(session: S, context: &'c X) -> SessionPeer<'c, X, S>
        ensures end { result ≡ record { session = session; failures = 0 } }
    {
        SessionPeer {
            session,
            context,
            failures: 0,
        }
    }

    /// The session.
    pub fn session(&self) -> &S
        ensures session { result.now ≡ self.now.session }
    {
        &self.session
    }

    /// Sees what is there now.
    fn look(&mut self) -> Result<(), PeerFault>
        ensures looked { OnOk result
            (Makes S.goes S.known self.old.session (session_call.Refreshed (Ok tt)) self.new.session) }
        ensures fault { IfErr result (λ f.
            LookFails S.goes S.known self.old.session f self.new.session) }
        ensures failures { CountsFailed self.old.failures self.new.failures result }
    {
        match self.session.refresh() {
            Ok(()) => Ok(()),
            Err(fault) => Err(self.fail(fault)),
        }
    }

    /// Counts a failure, unless memory was refused.
    fn fail(&mut self, fault: CallFault) -> PeerFault
        ensures session { self.new.session ≡ self.old.session }
        ensures failures { CountsFailed {A = ⊤} self.old.failures self.new.failures (Err result) }
        ensures fault { result ≡ fault_of fault }
    {
        match fault {
            CallFault::Memory => PeerFault::Memory,
            CallFault::Unavailable(_) => {
                self.failures = self.failures.saturating_add(1);
                PeerFault::Failed
            }
        }
    }

    /// The reply that the history has at a place.
    fn reply_at(&self, place: u64) -> &Reply
        requires { (entry : model.Entry) × HasEntryAt (S.known self.now.session) place entry }
        ensures { (entry : model.Entry) → HasEntryAt (S.known self.now.session) place entry
            → result.now ≡ entry.reply }
    {
        let _recalled = self.session.place();
        let Some(entry) = self.session.entry(place) else {
            unreachable!()
        };
        &entry.reply
    }
}

impl<'c, X, S: Replica<X>> SessionPeer<'c, X, S> {
    /// Writes a command, and answers the place of its entry.
    fn write(&mut self, command: Command) -> Result<u64, PeerFault>
        ensures written { IfOk result (λ place. Makes S.goes S.known self.old.session
            (session_call.Wrote command (Ok place)) self.new.session) }
        ensures fault { IfErr result (λ f.
            WriteFails S.goes S.known self.old.session command f self.new.session) }
        ensures failures { CountsFailed self.old.failures self.new.failures result }
    {
        match self.session.write(self.context, command) {
            Ok(place) => Ok(place),
            Err(refused) => Err(self.fail(refused)),
        }
    }
}

impl<'c, X, S: Replica<X>> Peer for SessionPeer<'c, X, S> {
    ghost goes = { λ old call new. Goes S.goes S.known old.session call new.session };

    ghost failed_calls = { λ p. p.failures };

    fn changes(&mut self, alloc: Global, since: u64, limit: u64) -> Result<ChangesPage, PeerFault> {
        self.look()?;
        let seen = &self.session;
        Ok(seen.changes(alloc, since, Some(limit), Style::AllDocs, &None)?)
    }

    fn changes_of(
        &mut self,
        alloc: Global,
        ids: &DocIds,
        since: u64,
        limit: u64,
    ) -> Result<ChangesPage, PeerFault> {
        self.look()?;
        let ids = Some(ids.share()?);
        let seen = &self.session;
        Ok(seen.changes(alloc, since, Some(limit), Style::AllDocs, &ids)?)
    }

    fn diff(&mut self, alloc: Global, asked: &NamedRevisions) -> Result<Differences, PeerFault> {
        self.look()?;
        Ok(self.session.revs_diff(alloc, asked)?)
    }

    fn open_revs(
        &mut self,
        alloc: Global,
        id: &DocId,
        revs: &[RevId],
    ) -> Result<Opened, PeerFault> {
        self.look()?;
        Ok(revisions::<X, S>(alloc, &self.session, id, revs)?)
    }

    fn bulk(&mut self, alloc: Global, documents: &[Merge]) -> Result<(), PeerFault> {
        let _recalled = self.session.place();
        let command = bulk_of(alloc, documents)?;
        let place = self.write(command)?;
        if !are_taken(self.reply_at(place)) {
            return Err(PeerFault::Refused);
        }
        Ok(())
    }

    fn local_get(&mut self, alloc: Global, id: &DocId) -> Result<Option<Checkpoint>, PeerFault> {
        self.look()?;
        let Some((counter, body)) = self.session.local(id)? else {
            return Ok(None);
        };
        let Some(checkpoint) = checkpoint_of(alloc, counter, &body)? else {
            return Err(PeerFault::Unreadable);
        };
        Ok(Some(checkpoint))
    }

    fn local_put(
        &mut self,
        alloc: Global,
        id: &DocId,
        named: Option<u32>,
        last_seq: u64,
    ) -> Result<u32, PeerFault> {
        let _recalled = self.session.place();
        let command = put_of(alloc, id, named, last_seq)?;
        let place = self.write(command)?;
        match counter_in(self.reply_at(place)) {
            Some(counter) => Ok(counter),
            None => Err(PeerFault::Refused),
        }
    }

    fn failures(&self) -> u64 {
        self.failures
    }
}
