//! Queries, and their answers.
ghost use Rattle.std.specs.Prelude.{◌≡◌, List, length, Ok, Some, IfOk, IfSome, IsSome};
ghost use Rattle.http_framing.specs.Request as framing;
ghost use Rattle.http_request.specs.Decide.{decide};
ghost use Rattle.http_response.specs.Measured.{HasLen, IsLong};
ghost use Rattle.http_response.specs.Pieces.{IsListed};
ghost use Rattle.http_response.specs.Texts.{answer_text};
ghost use Rattle.http_response.specs.Told.{answer_told};
ghost use Rattle.http_response.specs.declared.memory.MemoryFor.TheVariants as memory_for;
ghost use Rattle.model.specs.History.{now};
ghost use Rattle.model.specs.Answers.{answer_to};
ghost use Rattle.model.specs.Query as model;
ghost use Rattle.model.specs.Query.{Changes};
ghost use Rattle.session_api.specs.SessionCall.{SessionCall};
ghost use Rattle.http_turns.specs.CallsOfRequest.{HasPolled, HasWaited};
ghost use Rattle.session_api.specs.Known.{history_of};
ghost use Rattle.http_turns.specs.ChangesWanted.{since_at};
ghost use Rattle.http_turns.specs.ResponseText.{after_closing};
ghost use Rattle.http_turns.specs.Replies.{AnswersLongBy, Replies, RepliesWith};
ghost use Rattle.session_api.specs.Revisions.{opened_by};
ghost use Rattle.http_turns.specs.Sent.{SendsDue};

use crate::failing::fail;
use crate::reserve::Reserve;
use crate::response::{Long, Reply, Sent, connection_after};
use crate::setting::Setting;
use crate::waiting::{has_changes, wait_for_changes};
use http_request::{Asked, ChangesAsked, Extent, Feed, Since};
use http_response::{Connection, MemoryFor, Pieces, Response, long_len, long_opening_len};
use queries::{Answer, Query, QueryKind};
use session_api::{CallFault, Calls, Revisions, Viewer};
use std::alloc::AllocError;

/// So many revisions are looked up as a whole before their text is made.
const FEW: usize = 16;

/// Looks, and answers a query by what is seen then.
pub(crate) fn read<X, S: Calls<X>>(
    session: &mut S,
    setting: &Setting<'_, X>,
    query: &Query,
    closes: bool,
) -> Reply<S::Opened>
    ensures { (request : framing.Request) → decide request ≡ Ok (Asked.Query query.now)
        → request.closes ≡ closes
        → Replies S.goes S.known setting.now request session.old result session.new }
{
    match session.refresh() {
        Ok(()) => reply_seen(session, &setting.reserve, query, closes),
        Err(fault) => Reply::Sent(fail(session, fault, closes)),
    }
}

/// Answers a query by what has been seen, in pieces where the answer is long.
fn reply_seen<S: Viewer>(
    session: &S,
    reserve: &Reserve,
    query: &Query,
    closes: bool,
) -> Reply<S::Opened>
    ensures { RepliesWith (length (S.known session.now).seen) closes query.now
        (answer_to (now (history_of (S.known session.now))) query.now) result }
{
    let place = session.place();
    match long_opening(session, reserve, query) {
        Ok(Some((opening, len))) => reply_opening(reserve, place, opening, len, closes),
        Ok(None) => reply_made(session, reserve, query, closes),
        Err(_) => Reply::Sent(Sent::no_memory(place, Extent::Whole, MemoryFor::Call)),
    }
}

/// The revisions that a query asks for, where these are many and their text is long, with its length.
fn long_opening<S: Viewer>(
    session: &S,
    reserve: &Reserve,
    query: &Query,
) -> Result<Option<(S::Opened, usize)>, AllocError>
    ensures { IfOk result (λ found. IfSome found (λ long.
        AnswersLongBy query.now (answer_to (now (history_of (S.known session.now))) query.now)
        (opened_by (S.Opened.document long.0) (S.Opened.shown long.0)) long.1)) }
{
    let found = reserve.retried(|| session.open_revs(reserve.alloc(), query))?;
    let Some(opening) = found else {
        return Ok(None);
    };
    if opening.revs().len() <= FEW {
        return Ok(None);
    }
    let Some(len) = long_opening_len(reserve.alloc(), query, &opening)? else {
        return Ok(None);
    };
    Ok(Some((opening, len)))
}

/// Gives revisions at this place, in pieces.
fn reply_opening<O: Revisions + Drop>(
    reserve: &Reserve,
    place: u64,
    opening: O,
    len: usize,
    closes: bool,
) -> Reply<O>
    ensures { (query : model.Query) (answer : model.Answer)
        → AnswersLongBy query answer (opened_by (O.document opening) (O.shown opening)) len
        → RepliesWith place closes query answer result }
{
    match Pieces::opening(
        reserve.alloc(),
        place,
        connection_after(closes),
        opening,
        len,
    ) {
        Ok(pieces) => Reply::Long(Long { pieces, closes }),
        Err(_) => Reply::Sent(Sent::no_memory(place, Extent::Whole, MemoryFor::Call)),
    }
}

/// Answers a query by what has been seen, which is found as a whole.
fn reply_made<S: Viewer>(
    session: &S,
    reserve: &Reserve,
    query: &Query,
    closes: bool,
) -> Reply<S::Opened>
    ensures { RepliesWith (length (S.known session.now).seen) closes query.now
        (answer_to (now (history_of (S.known session.now))) query.now) result }
{
    let place = session.place();
    let Ok(found) = answer_seen(session, reserve, query) else {
        return Reply::Sent(Sent::no_memory(place, Extent::Whole, MemoryFor::Call));
    };
    reply_by_length(reserve, place, query, found, closes)
}

/// Gives an answer at this place, in pieces where it is long.
fn reply_by_length<O: Revisions + Drop>(
    reserve: &Reserve,
    place: u64,
    query: &Query,
    found: Answer,
    closes: bool,
) -> Reply<O>
    requires { IsSome (answer_told query.now found) }
    ensures { RepliesWith place closes query.now found result }
{
    match long_len(reserve.alloc(), query, &found) {
        Ok(Some(len)) => reply_in_pieces(reserve, place, found, len, closes),
        Ok(None) => Reply::Sent(sent_with(reserve, place, query, &found, closes)),
        Err(_) => Reply::Sent(Sent::no_memory(place, Extent::Whole, MemoryFor::Call)),
    }
}

/// Gives an answer with a list at this place, in pieces.
fn reply_in_pieces<O: Revisions + Drop>(
    reserve: &Reserve,
    place: u64,
    found: Answer,
    len: usize,
    closes: bool,
) -> Reply<O>
    requires listed { IsListed found }
    ensures { (query : model.Query) → IsLong query found → HasLen query found len
        → RepliesWith place closes query found result }
{
    match Pieces::new(reserve.alloc(), place, connection_after(closes), found, len) {
        Ok(pieces) => Reply::Long(Long { pieces, closes }),
        Err(_) => Reply::Sent(Sent::no_memory(place, Extent::Whole, MemoryFor::Call)),
    }
}

/// Gives an answer at this place, at once.
fn sent_with(reserve: &Reserve, place: u64, query: &Query, found: &Answer, closes: bool) -> Sent
    requires { IsSome (answer_told query.now found.now) }
    ensures { SendsDue (answer_text place (after_closing closes) query.now found.now) closes place
        memory_for.Call result }
{
    let response = answer_with(reserve, place, connection_after(closes), query, found);
    Sent::made(response, closes, place, MemoryFor::Call)
}

/// Answers which changes there are.
pub(crate) fn read_changes<X, S: Calls<X>>(
    session: &mut S,
    setting: &Setting<'_, X>,
    changes: ChangesAsked,
    closes: bool,
) -> Reply<S::Opened>
    requires { changes.feed ≡ Feed.Normal }
    ensures { (request : framing.Request) → decide request ≡ Ok (Asked.Changes changes)
        → request.closes ≡ closes
        → Replies S.goes S.known setting.now request session.old result session.new }
{
    match session.refresh() {
        Ok(()) => {
            let since = since_seen(session, changes.since);
            read_since(session, &setting.reserve, since, changes, closes)
        }
        Err(fault) => Reply::Sent(fail(session, fault, closes)),
    }
}

/// Answers which changes there are, and where there are none waits for some.
pub(crate) fn poll_changes<X, S: Calls<X>>(
    session: &mut S,
    setting: &Setting<'_, X>,
    changes: ChangesAsked,
    closes: bool,
) -> Reply<S::Opened>
    requires { changes.feed ≡ Feed.LongPoll }
    ensures { (request : framing.Request) → decide request ≡ Ok (Asked.Changes changes)
        → request.closes ≡ closes
        → Replies S.goes S.known setting.now request session.old result session.new }
{
    match poll(session, setting, &changes) {
        Ok(since) => read_since(session, &setting.reserve, since, changes, closes),
        Err(fault) => Reply::Sent(fail(session, fault, closes)),
    }
}

/// Looks, and where there are no changes waits for some. It answers the number above which they are asked for.
fn poll<X, S: Calls<X>>(
    session: &mut S,
    setting: &Setting<'_, X>,
    changes: &ChangesAsked,
) -> Result<u64, CallFault>
    ensures { (calls : List SessionCall) × HasPolled S.goes S.known setting.now changes.now session.old calls session.new result }
{
    match session.refresh() {
        Ok(()) => wait_where_none(session, setting, changes),
        Err(fault) => Err(fault),
    }
}

/// Waits for changes, where none have been seen. It answers the number above which they are asked for.
fn wait_where_none<X, S: Calls<X>>(
    session: &mut S,
    setting: &Setting<'_, X>,
    changes: &ChangesAsked,
) -> Result<u64, CallFault>
    ensures { (waits : List SessionCall) × HasWaited S.goes S.known setting.now changes.now session.old waits session.new result }
{
    let since = since_seen(session, changes.since);
    if has_changes(session, since, &changes.ids) {
        return Ok(since);
    }
    match wait_for_changes(session, setting, since, since, &changes.ids) {
        Ok(_came) => Ok(since),
        Err(fault) => Err(fault),
    }
}

/// The update number above which changes are asked for, at what has been seen.
pub(crate) fn since_seen<S: Viewer>(session: &S, since: Since) -> u64
    ensures { result ≡ since_at (now (history_of (S.known session.now))) since }
{
    match since {
        Since::Number(since) => since,
        Since::Now => session.update_seq(),
    }
}

/// Answers which of the changes that are asked for have been seen above `since`.
fn read_since<S: Viewer>(
    session: &S,
    reserve: &Reserve,
    since: u64,
    changes: ChangesAsked,
    closes: bool,
) -> Reply<S::Opened>
    ensures { let query = Changes since changes.limit changes.style changes.ids in
        RepliesWith (length (S.known session.now).seen) closes query
        (answer_to (now (history_of (S.known session.now))) query) result }
{
    let query = changes_query(since, changes);
    reply_made(session, reserve, &query, closes)
}

/// The query for the changes that are asked for, above `since`.
fn changes_query(since: u64, changes: ChangesAsked) -> Query
    ensures { result ≡ Changes since changes.limit changes.style changes.ids }
{
    let ChangesAsked {
        since: _,
        limit,
        style,
        feed: _,
        ids,
    } = changes;
    Query::new(QueryKind::Changes {
        since,
        limit,
        style,
        ids,
    })
}

/// The answer to a query by what has been seen.
fn answer_seen<S: Viewer>(
    session: &S,
    reserve: &Reserve,
    query: &Query,
) -> Result<Answer, AllocError>
    ensures answer { IfOk result (λ answer. answer
        ≡ answer_to (now (history_of (S.known session.now))) query.now) }
{
    reserve.retried(|| session.answer(reserve.alloc(), query))
}

/// The response with an answer to a query.
fn answer_with(
    reserve: &Reserve,
    place: u64,
    connection: Connection,
    query: &Query,
    found: &Answer,
) -> Result<Response, AllocError>
    requires { IsSome (answer_told query.now found.now) }
    ensures { IfOk result (λ response. Some response
        ≡ answer_text place connection query.now found.now) }
{
    let response = response_to(reserve, place, connection, query, found)?;
    let Some(response) = response else {
        unreachable!()
    };
    Ok(response)
}

/// The response to a query, where such queries are answered so.
fn response_to(
    reserve: &Reserve,
    place: u64,
    connection: Connection,
    query: &Query,
    found: &Answer,
) -> Result<Option<Response>, AllocError>
    ensures text { IfOk result (λ response. response ≡ answer_text place connection query.now found.now) }
{
    reserve.retried(|| http_response::answer(reserve.alloc(), place, connection, query, found))
}
