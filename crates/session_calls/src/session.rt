//! A session that shares its database with other threads.
ghost use Rattle.std.specs.Prelude.{◌≡◌};
ghost use Rattle.session_api.specs.Known.{history_of};
ghost use Rattle.session_calls.specs.Sessions.{Goes, known_of};

use crate::calls::{compact, edit, look, wait_for};
use crate::following::next_rows;
use crate::opened::Opened;
use changes_feed::{answer, changes, changes_among, count_wanted, local_get, open_revs, revs_diff};
use commands::{Command, Entry, NamedRevisions};
use document_id::{DocId, DocIds};
use json_profile::Body;
use model::Style;
use queries::{Answer, ChangesPage, Differences, Document, Options, Query, Row};
use revision_id::RevId;
use session_api::{CallFault, Calls, Following, Replica, Viewer};
use sessions::Session;
use snapshots::Version;
use std::alloc::{AllocError, Global};
use std::marker::Model;
use std::sync::{Arc, Wait};
use std::time::Clock;
use updater_state::{Core, Gate, Opening};

/// A session that shares its database with other threads. Contracts see what a [`Session`] knows.
pub struct SharedSession<C: Drop, J: Opening, G: Drop> {
    session: Session<C, J, G>,
}

impl<C: Drop, J: Opening, G: Drop> Drop for SharedSession<C, J, G> {
    fn drop(self) {
        let SharedSession { session: _ } = self;
    }
}

impl<C: Drop, J: Opening, G: Drop> Model for SharedSession<C, J, G> {
    ghost use Rattle.std.specs.Coded.{codes};
    ghost use Rattle.model.specs.JsonCode.{coded_members};
    ghost use Rattle.sessions.specs.Known.{Known};

    ghost Value = { Known };

    ghost coded = { Prim.hlevel (codes, coded_members) };

    ghost view = { λ s. s.session };
}

impl<C: Drop, J: Opening, G: Drop> SharedSession<C, J, G> {
    /// A session as `session_api` has it.
    pub fn new(session: Session<C, J, G>) -> SharedSession<C, J, G>
        ensures session { result ≡ session }
    {
        SharedSession { session }
    }

    /// The session.
    pub fn into_session(self) -> Session<C, J, G>
        ensures session { result ≡ self }
    {
        let SharedSession { session } = self;
        session
    }

    /// The version that was seen.
    pub fn seen(&self) -> &Version
        ensures seen { result.now ≡ history_of (known_of J.base J.config J.sessions J.capacity self.now) }
    {
        self.session.version()
    }
}

impl<C: Drop, J: Opening, G: Drop> Viewer for SharedSession<C, J, G> {
    type Opened = Opened;

    ghost known = { λ s. known_of J.base J.config J.sessions J.capacity s };

    ghost goes = { λ old call new. Goes J.base J.config J.sessions J.capacity old call new };

    fn place(&self) -> u64 {
        let _recalled = self.seen().place();
        self.session.place()
    }

    fn entry(&self, place: u64) -> Option<&Entry> {
        self.seen().entry(place)
    }

    fn answer(&self, alloc: Global, query: &Query) -> Result<Answer, AllocError> {
        answer(alloc, self.seen(), query)
    }

    fn open_revs(&self, alloc: Global, query: &Query) -> Result<Option<Opened>, AllocError> {
        Opened::of(alloc, self.seen(), query)
    }

    fn update_seq(&self) -> u64 {
        self.seen().database().documents().update_seq()
    }

    fn count_changes(&self, since: u64, ids: &Option<DocIds>) -> u64 {
        count_wanted(self.seen(), since, ids)
    }

    fn next_rows(
        &self,
        alloc: Global,
        following: &mut Following,
        limit: u64,
    ) -> Result<Vec<Row>, AllocError> {
        next_rows(alloc, self.seen(), following, limit)
    }

    fn refresh(&mut self) -> Result<(), CallFault> {
        look(&mut self.session)
    }
}

impl<R: Wait + Drop, J: Opening, G: Gate + Drop, X: Wait + Clock> Calls<X>
    for SharedSession<Core<R, J>, J, G> {
    fn write(&mut self, context: &X, command: Command) -> Result<u64, CallFault> {
        if command.is_compaction() {
            return compact(&mut self.session, context);
        }
        edit(&mut self.session, context, command)
    }

    fn wait_past(&mut self, context: &X, seq: u64, turns: u64) -> Result<bool, CallFault> {
        wait_for(&mut self.session, context, seq, turns)
    }
}

impl<R: Wait + Drop, J: Opening, G: Gate + Drop, X: Wait + Clock> Replica<X>
    for SharedSession<Core<R, J>, J, G> {
    fn changes(
        &self,
        alloc: Global,
        since: u64,
        limit: Option<u64>,
        style: Style,
        ids: &Option<DocIds>,
    ) -> Result<ChangesPage, AllocError> {
        match ids {
            Some(ids) => changes_among(alloc, self.seen(), since, limit, style, ids),
            None => changes(alloc, self.seen(), since, limit, style),
        }
    }

    fn revs_diff(&self, alloc: Global, asked: &NamedRevisions) -> Result<Differences, AllocError> {
        revs_diff(alloc, self.seen(), asked)
    }

    fn documents(
        &self,
        alloc: Global,
        id: &DocId,
        revs: &[RevId],
        options: &Options,
    ) -> Result<Vec<Result<Document, RevId>>, AllocError> {
        open_revs(alloc, self.seen(), id, Some(revs), options)
    }

    fn local(&self, id: &DocId) -> Result<Option<(u32, Arc<Body>)>, AllocError> {
        local_get(self.seen(), id)
    }
}
