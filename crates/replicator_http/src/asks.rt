//! How a request is asked, and what is written ahead.
ghost use Rattle.std.specs.Prelude.{◌≡◌, ◌<◌, List, [], drop, length, IfErr, IfOk, OnErr, OnOk};
ghost use Rattle.std.specs.List.{FoldsTo};
ghost use Rattle.replicator.specs.Call.{CountsFailed};
ghost use Rattle.replicator_http.specs.Ahead.{AfterEvents, Event, Happens};
ghost use Rattle.replicator_http.specs.Asked.{Fails, HasCome, IsPut, IsTurnOf};
ghost use Rattle.replicator_http.specs.Connection.{IsCut};
ghost use Rattle.replicator_http.specs.declared.state.State.TheVariants as state;

use crate::peer::HttpPeer;
use crate::requests::Apart;
use crate::state::State;
use document_id::DocId;
use http_client::ResponseSpans;
use replicator::PeerFault;
use revision_id::RevId;
use std::alloc::Global;
use streams::{Failed, Sink, Source};

impl<R: Source, W: Sink> HttpPeer<R, W> {
    /// Writes a request unless it was written ahead, and reads until a whole response has come, unless the
    /// connection is given up. The responses to other requests that were written ahead are dropped.
    pub(crate) fn ask(&mut self, request: &str) -> Result<ResponseSpans, PeerFault>
        ensures come { IfOk result (λ spans. AfterEvents self.old (λ mid. HasCome request.now mid self.new spans)) }
        ensures fault { IfErr result (λ why. AfterEvents self.old (λ mid. Fails request.now mid self.new why)) }
        ensures failures { CountsFailed self.old.failed_calls self.new.failed_calls result }
    {
        self.make_way(request);
        self.ask_now(request)
    }

    /// Writes a request, its body behind its head, and reads until a whole response has come, unless the
    /// connection is given up. The responses to requests that were written ahead are dropped.
    pub(crate) fn ask_apart(&mut self, request: &Apart) -> Result<ResponseSpans, PeerFault>
        ensures come { IfOk result (λ spans. AfterEvents self.old (λ mid. HasCome request.now mid self.new spans)) }
        ensures fault { IfErr result (λ why. AfterEvents self.old (λ mid. Fails request.now mid self.new why)) }
        ensures failures { CountsFailed self.old.failed_calls self.new.failed_calls result }
    {
        let len = self.ahead_len();
        self.drop_ahead(len);
        self.ask_apart_now(request)
    }

    /// Writes a request, its body behind its head, where none is ahead, and reads until a whole response has
    /// come, unless the connection is given up.
    fn ask_apart_now(&mut self, request: &Apart) -> Result<ResponseSpans, PeerFault>
        requires { self.old.state ≡ state.Open → self.old.ahead ≡ [] }
        ensures come { IfOk result (HasCome request.now self.old self.new) }
        ensures fault { IfErr result (Fails request.now self.old self.new) }
        ensures failures { CountsFailed self.old.failed_calls self.new.failed_calls result }
    {
        match self.state() {
            State::Open => self.exchange_apart(request),
            State::Failed => Err(self.fail()),
            State::Unreadable => Err(PeerFault::Unreadable),
        }
    }

    /// Writes a request, its body behind its head, and reads until a whole response has come. The connection is
    /// given up where none has.
    fn exchange_apart(&mut self, request: &Apart) -> Result<ResponseSpans, PeerFault>
        requires is_open { self.old.state ≡ state.Open }
        requires none { self.old.ahead ≡ [] }
        ensures come { IfOk result (HasCome request.now self.old self.new) }
        ensures fault { IfErr result (Fails request.now self.old self.new) }
        ensures failures { CountsFailed self.old.failed_calls self.new.failed_calls result }
    {
        let Ok(()) = self.write_apart(request) else {
            return Err(self.fail());
        };
        match self.read() {
            Ok(spans) => Ok(spans),
            Err(fault) => Err(self.fault(fault)),
        }
    }

    /// Drops the responses to all requests that were written ahead, unless this is the next of them.
    fn make_way(&mut self, request: &str)
        ensures happens { (events : List Event) × FoldsTo Happens self.old events self.new }
        ensures turn { self.new.state ≡ state.Open → IsTurnOf request.now self.new.ahead }
        ensures failures { self.new.failed_calls ≡ self.old.failed_calls }
    {
        if self.is_next(request) {
            return;
        }
        let len = self.ahead_len();
        self.drop_ahead(len);
    }

    /// Writes a request that has its turn, unless it was written ahead, and reads until a whole response has
    /// come, unless the connection is given up.
    fn ask_now(&mut self, request: &str) -> Result<ResponseSpans, PeerFault>
        requires { self.old.state ≡ state.Open → IsTurnOf request.now self.old.ahead }
        ensures come { IfOk result (HasCome request.now self.old self.new) }
        ensures fault { IfErr result (Fails request.now self.old self.new) }
        ensures failures { CountsFailed self.old.failed_calls self.new.failed_calls result }
    {
        match self.state() {
            State::Open => self.exchange(request),
            State::Failed => Err(self.fail()),
            State::Unreadable => Err(PeerFault::Unreadable),
        }
    }

    /// Writes a request unless it was written ahead, and reads until a whole response has come. The
    /// connection is given up where none has.
    fn exchange(&mut self, request: &str) -> Result<ResponseSpans, PeerFault>
        requires is_open { self.old.state ≡ state.Open }
        requires turn { IsTurnOf request.now self.old.ahead }
        ensures come { IfOk result (HasCome request.now self.old self.new) }
        ensures fault { IfErr result (Fails request.now self.old self.new) }
        ensures failures { CountsFailed self.old.failed_calls self.new.failed_calls result }
    {
        let Ok(()) = self.put(request) else {
            return Err(self.fail());
        };
        match self.read() {
            Ok(spans) => Ok(spans),
            Err(fault) => Err(self.fault(fault)),
        }
    }

    /// Writes a request, unless it is the next that was written ahead. The connection is given up where it
    /// isn't written whole.
    fn put(&mut self, request: &str) -> Result<(), Failed>
        requires is_open { self.old.state ≡ state.Open }
        requires turn { IsTurnOf request.now self.old.ahead }
        ensures put { OnOk result (IsPut request.now self.old self.new) }
        ensures cut { OnErr result ((self.old.ahead ≡ []) × IsCut request.now self.old self.new) }
        ensures failures { self.new.failed_calls ≡ self.old.failed_calls }
    {
        if self.ahead_len() > 0 {
            self.pop();
            return Ok(());
        }
        self.write(request.as_bytes())
    }

    /// Drops the responses to all requests that were written ahead, which are so many. The connection is given
    /// up where one of them has none.
    fn drop_ahead(&mut self, len: usize)
        requires { len ≡ length self.old.ahead }
        ensures happens { (events : List Event) × FoldsTo Happens self.old events self.new }
        ensures none { self.new.state ≡ state.Open → self.new.ahead ≡ [] }
        ensures failures { self.new.failed_calls ≡ self.old.failed_calls }
    {
        for _dropped in 0..len {
            let State::Open = self.state() else {
                return;
            };
            self.drop_next();
        }
    }

    /// Drops the response to the next request that was written ahead. The connection is given up where it
    /// has none.
    fn drop_next(&mut self)
        requires is_open { self.old.state ≡ state.Open }
        requires some { 0 < length self.old.ahead }
        ensures happens { (event : Event) × Happens self.old event self.new }
        ensures ahead { self.new.ahead ≡ drop 1 self.old.ahead }
        ensures failures { self.new.failed_calls ≡ self.old.failed_calls }
    {
        self.pop();
        match self.read() {
            Ok(spans) => self.take(spans),
            Err(_) => {}
        }
    }

    /// Writes requests ahead for the first of these revisions that aren't asked for yet, as many as there
    /// are room and memory for. The connection is given up where they aren't written whole.
    pub(crate) fn write_ahead(&mut self, alloc: Global, wanted: &[(DocId, RevId)])
        ensures happens { (events : List Event) × FoldsTo Happens self.old events self.new }
        ensures failures { self.new.failed_calls ≡ self.old.failed_calls }
    {
        let State::Open = self.state() else {
            return;
        };
        let text = self.add_ahead(alloc, wanted);
        let _written = self.write(text.as_slice());
    }
}
