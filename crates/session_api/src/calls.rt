//! What is asked of a session.
ghost use Rattle.std.specs.Prelude.{◌≡◌, length, take, IfOk, OnErr, option_copied, option_map};
ghost use Rattle.model.specs.Answers.{answer_to};
ghost use Rattle.model.specs.Changes.{changed_since, last_seq_of, rows_since, wanted_by};
ghost use Rattle.model.specs.Database.{IsDatabase};
ghost use Rattle.model.specs.History.{IsLegal, base_of, now};
ghost use Rattle.model.specs.Query.{Opened as Opening};
ghost use Rattle.session_api.specs.Known.{Known, entry_at, history_of, update_seq_of};
ghost use Rattle.session_api.specs.Learns.{Learns};
ghost use Rattle.session_api.specs.Revisions.{known_opened, opened_by};
ghost use Rattle.session_api.specs.SessionCall as call;
ghost use Rattle.session_api.specs.SessionCall.{SessionCall};

use crate::fault::CallFault;
use crate::following::Following;
use crate::revisions::Revisions;
use commands::{Command, Entry};
use document_id::DocIds;
use queries::{Answer, Query, Row};
use std::alloc::{AllocError, Global};

/// Sees the history of a database grow, and answers queries over what it has seen.
///
/// A call that changes the session is described by two relations. `goes` is the session's own: code that knows no more of it
/// can't claim a call that it didn't make, nor another answer. `Learns` says what is known then, whatever it is.
pub trait Viewer {
    /// Revisions of a document, of which each is made when it is looked at.
    type Opened: Revisions + Drop;

    /// What it knows.
    ghost known: { Self → Known };

    /// It goes from one state to another by this call with its answer.
    ghost goes: { Self → SessionCall → Self → Type 0 };

    /// The number of entries that were seen.
    fn place(&self) -> u64
        ensures place { result ≡ length (known self.now).seen }
        ensures legal { IsLegal (base_of (known self.now).base) (known self.now).seen }
        ensures database { IsDatabase (now (history_of (known self.now))) };

    /// The entry at a place, from 1, if that was seen.
    fn entry(&self, place: u64) -> Option<&Entry>
        ensures entry { option_copied result ≡ entry_at (known self.now) place };

    /// What is answered to a query over what was seen.
    fn answer(&self, alloc: Global, query: &Query) -> Result<Answer, AllocError>
        ensures answer { IfOk result (λ answer. answer ≡ answer_to (now (history_of (known self.now))) query.now) };

    /// The revisions that a query for them asks for, where the document is known.
    fn open_revs(&self, alloc: Global, query: &Query) -> Result<Option<Self::Opened>, AllocError>
        ensures opened { IfOk result (λ found. option_map (λ o. Opening (opened_by (Self.Opened.document o) (Self.Opened.shown o))) found
            ≡ known_opened (now (history_of (known self.now))) query.now) };

    /// The update number of what was seen.
    fn update_seq(&self) -> u64
        ensures number { result ≡ update_seq_of (known self.now) };

    /// How many documents, of all or of some, have changed above a number. It takes no memory.
    fn count_changes(&self, since: u64, ids: &Option<DocIds>) -> u64
        ensures count { result ≡ length (changed_since (wanted_by ids.now) (now (history_of (known self.now))) since) };

    /// The next rows of a feed: the first `limit` that were seen above its cursor, all where there are fewer. The cursor goes to
    /// the last of them, and stays where memory is refused.
    fn next_rows(
        &self,
        alloc: Global,
        following: &mut Following,
        limit: u64,
    ) -> Result<Vec<Row>, AllocError>
        ensures rows { IfOk result (λ rows. rows.items ≡ take limit
            (rows_since (wanted_by following.old.ids) (now (history_of (known self.now))) following.old.cursor following.old.style)) }
        ensures cursor { IfOk result (λ rows. following.new
            ≡ record following.old { cursor = last_seq_of following.old.cursor rows.items }) }
        ensures err { OnErr result (following.new ≡ following.old) };

    /// Sees what is there now. It waits for nobody and takes no memory.
    ///
    /// # Errors
    ///
    /// [`CallFault::Unavailable`] where the session is lost or can't enter to read. It then sees what it
    /// saw.
    fn refresh(&mut self) -> Result<(), CallFault>
        ensures goes { goes self.old (call.Refreshed result) self.new }
        ensures learns { Learns (known self.old) (call.Refreshed result) (known self.new) };
}

/// A session of a database, whose calls that wait do so by the context `X`.
pub trait Calls<X>: Viewer {
    /// Writes a command, or compacts, and answers the place of its entry.
    ///
    /// # Errors
    ///
    /// After each but [`Unavailable::Lost`](crate::Unavailable::Lost) and [`Unavailable::Journal`](crate::Unavailable::Journal)
    /// the call left no entry. After the first it may be there, the session never sees it, and all later calls answer the same.
    /// After the second it may be there, and the session sees it.
    fn write(&mut self, context: &X, command: Command) -> Result<u64, CallFault>
        ensures goes { Self.goes self.old (call.Wrote command result) self.new }
        ensures learns { Learns (Self.known self.old) (call.Wrote command result) (Self.known self.new) };

    /// Looks at most `turns` times, and once where that is 0, until what was seen has an update
    /// number above `seq`, and says whether it has. It takes no memory. Calls of one turn, one after
    /// another, last as long as one call of as many turns.
    ///
    /// # Errors
    ///
    /// As [`refresh`](Viewer::refresh), at the first look that is refused, or
    /// [`Unavailable::Full`](crate::Unavailable::Full) where the history is full and its epoch ends.
    fn wait_past(&mut self, context: &X, seq: u64, turns: u64) -> Result<bool, CallFault>
        ensures goes { Self.goes self.old (call.Waited seq turns result) self.new }
        ensures learns { Learns (Self.known self.old) (call.Waited seq turns result) (Self.known self.new) };
}
