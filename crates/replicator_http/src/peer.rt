//! A database that is reached over a connection.
ghost use Rattle.std.specs.Prelude.{◌≡◌, ℕ, ◌≤◌, List, ◌++◌, All, drop, length, string_bytes, Err, OnErr, OnOk, IsTrue};
ghost use Rattle.std.specs.List.{concat};
ghost use Rattle.http_client.specs.Front.{IsResponseAt, response_at};
ghost use Rattle.replicator.specs.Call.{CountsFailed};
ghost use Rattle.replicator.specs.declared.fault.PeerFault.TheVariants as peer_fault;
ghost use Rattle.streams.specs.Counts.{CountRose};
ghost use Rattle.replicator_http.specs.Ahead.{AsksRevisions, IsNext, IsWithin};
ghost use Rattle.replicator_http.specs.Asked.{HasWritten, Reads, after, fault_of};
ghost use Rattle.replicator_http.specs.Connection.{Connection, IsCut, fresh_connection, state_after};
ghost use Rattle.replicator_http.specs.Goes.{Goes};
ghost use Rattle.replicator_http.specs.declared.state.State.TheVariants as state;

use crate::ahead::Ahead;
use crate::requests::{
    Apart, bulk_request, changes_request, diff_request, filtered_changes_request,
    local_get_request, local_put_request, open_revs_request,
};
use crate::state::State;
use crate::told::{
    bulk_told, checkpoint_told, counter_told, differences_told, opened_told, page_told,
};
use commands::{Merge, NamedRevisions};
use document_id::{DocId, DocIds};
use http_client::{Incoming, ResponseFault, ResponseSpans};
use queries::{ChangesPage, Differences};
use replicator::{Checkpoint, Opened, Peer, PeerFault};
use revision_id::RevId;
use std::alloc::Global;
use std::marker::Model;
use streams::{Failed, Sink, Source, write_all, write_both};

/// A database that is reached over a connection: its requests go to a sink, and its responses come
/// from a source. They answer the requests in their order, so bytes that come behind a response belong
/// to the next one.
///
/// Requests for revisions that the worker said it asks for next are written ahead, at most a hundred and
/// 16,384 bytes of them. Where something else is asked, the responses to them are read and dropped first.
///
/// A call that is answered with status 503, since the other end can't serve it now, is [`PeerFault::Failed`]; the
/// connection goes on.
///
/// The connection is given up where a request was not written whole, or its response was not read. From
/// then on nothing is written and nothing read, and each call that has the memory for its request is
/// [`PeerFault::Failed`] after a write or a read that failed or an input that ended inside a response,
/// and else [`PeerFault::Unreadable`].
pub struct HttpPeer<R: Source, W: Sink> {
    reader: R,
    writer: W,
    incoming: Incoming,
    ahead: Ahead,
    state: State,
    failures: u64,
    host: String,
    skips: bool,
}

impl<R: Source + Drop, W: Sink + Drop> Drop for HttpPeer<R, W> {
    fn drop(self) {
        let HttpPeer {
            reader: _,
            writer: _,
            incoming: _,
            ahead: _,
            state: _,
            failures: _,
            host: _,
            skips: _,
        } = self;
    }
}

impl<R: Source, W: Sink> Model for HttpPeer<R, W> {
    ghost use Rattle.std.specs.Prelude.{string_bytes};
    ghost use Rattle.replicator_http.specs.Connection.{Connection};

    ghost Value = { Connection };

    ghost view = { λ p. record {
      left = R.left p.reader;
      failed_reads = R.failed_reads p.reader;
      taken = W.taken p.writer;
      failed_writes = W.failed_writes p.writer;
      come = p.incoming;
      ahead = p.ahead;
      state = p.state;
      failed_calls = p.failures;
      terms = record { host = string_bytes p.host; skips = p.skips };
    } };
}

impl<R: Source, W: Sink> HttpPeer<R, W> {
    /// A peer of this host, over a connection on which nothing has been asked. The checkpoints that it writes say
    /// so where the replication skips documents that can't be brought.
    pub fn new(alloc: Global, host: String, skips: bool, reader: R, writer: W) -> HttpPeer<R, W>
        ensures { result ≡ fresh_connection (record { host = string_bytes host; skips = skips }) (R.left reader) (R.failed_reads reader) (W.taken writer) (W.failed_writes writer) }
    {
        HttpPeer {
            reader,
            writer,
            incoming: Incoming::new(alloc),
            ahead: Ahead::new(alloc),
            state: State::Open,
            failures: 0,
            host,
            skips,
        }
    }

    /// The source and the sink. What has come and was not taken is lost.
    pub fn into_parts(self) -> (R, W)
        ensures left { R.left result.0 ≡ self.left }
        ensures failed_reads { R.failed_reads result.0 ≡ self.failed_reads }
        ensures taken { W.taken result.1 ≡ self.taken }
        ensures failed_writes { W.failed_writes result.1 ≡ self.failed_writes }
    {
        let HttpPeer {
            reader,
            writer,
            incoming: _,
            ahead: _,
            state: _,
            failures: _,
            host: _,
            skips: _,
        } = self;
        (reader, writer)
    }

    /// The host that requests name.
    pub fn host(&self) -> &str
        ensures { result.now ≡ self.now.terms.host }
    {
        self.host.as_str()
    }

    /// Whether checkpoints say that documents are skipped.
    pub fn skips(&self) -> bool
        ensures { result ≡ self.now.terms.skips }
    {
        self.skips
    }

    /// How the connection goes on.
    pub fn state(&self) -> State
        ensures { result ≡ self.now.state }
    {
        self.state
    }

    /// How many requests are ahead.
    pub(crate) fn ahead_len(&self) -> usize
        ensures { result ≡ length self.now.ahead }
    {
        self.ahead.len()
    }

    /// Whether this is the next of the requests that are ahead.
    pub(crate) fn is_next(&self, request: &str) -> bool
        ensures { IsTrue result → IsNext request.now self.now }
    {
        self.ahead.is_next(request)
    }

    /// Whether so few requests are ahead that more are written.
    fn is_low(&self) -> bool {
        self.ahead.is_low()
    }

    /// The next request is no longer ahead.
    pub(crate) fn pop(&mut self)
        ensures { self.new ≡ record self.old { ahead = drop 1 self.old.ahead } }
    {
        self.ahead.pop();
    }

    /// Adds requests to the host for the first of these revisions that aren't asked for yet to those that are ahead, and
    /// answers their text, which is to be written.
    pub(crate) fn add_ahead(&mut self, alloc: Global, wanted: &[(DocId, RevId)]) -> Vec<u8>
        ensures adds { (more : List (List ℕ)) × (self.new ≡ record self.old { ahead = self.old.ahead ++ more })
            × All (AsksRevisions self.old.terms.host) more × (result.items ≡ concat more) }
        ensures within { IsWithin self.new.ahead }
    {
        let mut text = Vec::new(alloc);
        self.ahead.add(alloc, self.host.as_str(), wanted, &mut text);
        text
    }

    /// Writes bytes. The connection is given up where they aren't written whole.
    pub(crate) fn write(&mut self, bytes: &[u8]) -> Result<(), Failed>
        requires { self.old.state ≡ state.Open }
        ensures written { OnOk result (HasWritten bytes.now self.old self.new) }
        ensures cut { OnErr result (IsCut bytes.now self.old self.new) }
        ensures failures { self.new.failed_calls ≡ self.old.failed_calls }
    {
        let Ok(()) = write_all(&mut self.writer, bytes) else {
            self.state = State::Failed;
            return Err(Failed);
        };
        Ok(())
    }

    /// Writes a request, its body behind its head. The connection is given up where it isn't written whole.
    pub(crate) fn write_apart(&mut self, request: &Apart) -> Result<(), Failed>
        requires { self.old.state ≡ state.Open }
        ensures written { OnOk result (HasWritten request.now self.old self.new) }
        ensures cut { OnErr result (IsCut request.now self.old self.new) }
        ensures failures { self.new.failed_calls ≡ self.old.failed_calls }
    {
        let (head, body) = (request.head.as_str(), request.body.as_str());
        let Ok(()) = write_both(&mut self.writer, head, body) else {
            self.state = State::Failed;
            return Err(Failed);
        };
        Ok(())
    }

    /// Reads until a whole response has come. The connection is given up where none has.
    pub(crate) fn read(&mut self) -> Result<ResponseSpans, ResponseFault>
        requires { self.old.state ≡ state.Open }
        ensures reads { Reads self.old self.new result }
        ensures failures { self.new.failed_calls ≡ self.old.failed_calls }
    {
        match self.incoming.read_response(&mut self.reader) {
            Ok(spans) => Ok(spans),
            Err(fault) => {
                self.state = state_after(fault);
                Err(fault)
            }
        }
    }

    /// Counts a failure.
    pub(crate) fn fail(&mut self) -> PeerFault
        ensures rest { self.new ≡ record self.old { failed_calls = self.new.failed_calls } }
        ensures count { CountRose self.old.failed_calls self.new.failed_calls }
        ensures failed { result ≡ peer_fault.Failed }
    {
        self.failures = self.failures.saturating_add(1);
        PeerFault::Failed
    }

    /// Why there is no response, as a peer answers it; a failure is counted.
    pub(crate) fn fault(&mut self, fault: ResponseFault) -> PeerFault
        ensures rest { self.new ≡ record self.old { failed_calls = self.new.failed_calls } }
        ensures fault { result ≡ fault_of fault }
        ensures count { CountsFailed {A = ℕ} self.old.failed_calls self.new.failed_calls (Err result) }
    {
        match fault {
            ResponseFault::Ended | ResponseFault::ReadFailed => self.fail(),
            ResponseFault::Unreadable => PeerFault::Unreadable,
            ResponseFault::Memory => PeerFault::Memory,
        }
    }

    /// The body of the response that has come.
    fn body(&self, response: ResponseSpans) -> &[u8]
        requires { IsResponseAt self.now.come response }
        ensures { result.now ≡ (response_at self.now.come response).body }
    {
        response.body(self.incoming.bytes())
    }

    /// Takes the response away. The bytes behind it stay.
    pub(crate) fn take(&mut self, response: ResponseSpans)
        requires { IsResponseAt self.old.come response }
        ensures { self.new ≡ after self.old response }
    {
        self.incoming.take(response.taken());
    }

    /// Takes the response away, of which this was told, and counts a failure where it says so.
    fn take_told<T>(
        &mut self,
        response: ResponseSpans,
        told: Result<T, PeerFault>,
    ) -> Result<T, PeerFault>
        requires { IsResponseAt self.old.come response }
        ensures told { result ≡ told }
        ensures rest { self.new ≡ record (after self.old response) { failed_calls = self.new.failed_calls } }
        ensures failures { CountsFailed self.old.failed_calls self.new.failed_calls result }
    {
        self.take(response);
        match told {
            Ok(read) => Ok(read),
            Err(PeerFault::Failed) => Err(self.fail()),
            Err(PeerFault::Unreadable) => Err(PeerFault::Unreadable),
            Err(PeerFault::Memory) => Err(PeerFault::Memory),
            Err(PeerFault::Refused) => Err(PeerFault::Refused),
        }
    }
}

/// How a connection goes on after a response that was not read.
fn state_after(fault: ResponseFault) -> State
    ensures { result ≡ state_after fault }
{
    match fault {
        ResponseFault::Ended | ResponseFault::ReadFailed => State::Failed,
        ResponseFault::Unreadable | ResponseFault::Memory => State::Unreadable,
    }
}

impl<R: Source, W: Sink> Peer for HttpPeer<R, W> {
    ghost goes = { Goes };

    ghost failed_calls = { λ p. p.failed_calls };

    fn changes(&mut self, alloc: Global, since: u64, limit: u64) -> Result<ChangesPage, PeerFault> {
        let request = changes_request(alloc, self.host(), since, limit)?;
        let response = self.ask(request.as_str())?;
        let page = page_told(alloc, response.status, self.body(response));
        self.take_told(response, page)
    }

    /// One request has the whole list. A server that takes no body so large refuses it, which is
    /// [`PeerFault::Unreadable`].
    fn changes_of(
        &mut self,
        alloc: Global,
        ids: &DocIds,
        since: u64,
        limit: u64,
    ) -> Result<ChangesPage, PeerFault> {
        let request = filtered_changes_request(alloc, self.host(), ids, since, limit)?;
        let response = self.ask(request.as_str())?;
        let page = page_told(alloc, response.status, self.body(response));
        self.take_told(response, page)
    }

    fn diff(&mut self, alloc: Global, asked: &NamedRevisions) -> Result<Differences, PeerFault> {
        let request = diff_request(alloc, self.host(), asked)?;
        let response = self.ask(request.as_str())?;
        let differences = differences_told(alloc, response.status, self.body(response));
        self.take_told(response, differences)
    }

    fn expect(&mut self, alloc: Global, wanted: &[(DocId, RevId)]) {
        if self.is_low() {
            self.write_ahead(alloc, wanted);
        }
    }

    fn open_revs(
        &mut self,
        alloc: Global,
        id: &DocId,
        revs: &[RevId],
    ) -> Result<Opened, PeerFault> {
        let request = open_revs_request(alloc, self.host(), id, revs)?;
        let response = self.ask(request.as_str())?;
        let opened = opened_told(alloc, response.status, self.body(response));
        self.take_told(response, opened)
    }

    fn bulk(&mut self, alloc: Global, documents: &[Merge]) -> Result<(), PeerFault> {
        let request = bulk_request(alloc, self.host(), documents)?;
        let response = self.ask_apart(&request)?;
        let taken = bulk_told(alloc, response.status, self.body(response));
        self.take_told(response, taken)
    }

    fn local_get(&mut self, alloc: Global, id: &DocId) -> Result<Option<Checkpoint>, PeerFault> {
        let request = local_get_request(alloc, self.host(), id)?;
        let response = self.ask(request.as_str())?;
        let checkpoint = checkpoint_told(alloc, response.status, self.body(response));
        self.take_told(response, checkpoint)
    }

    fn local_put(
        &mut self,
        alloc: Global,
        id: &DocId,
        named: Option<u32>,
        last_seq: u64,
    ) -> Result<u32, PeerFault> {
        let request = local_put_request(alloc, self.host(), self.skips(), id, named, last_seq)?;
        let response = self.ask(request.as_str())?;
        let counter = counter_told(alloc, response.status, self.body(response));
        self.take_told(response, counter)
    }

    fn failures(&self) -> u64 {
        self.failures
    }
}
