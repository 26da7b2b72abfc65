//! Feeds that go on as changes come.
ghost use Rattle.std.specs.Prelude.{◌≡◌, ◌<◌, ◌≤◌, ◌++◌, ℕ, List, length, true, is_ok, Ok, IfOk};
ghost use Rattle.http_framing.specs.Request as framing;
ghost use Rattle.http_request.specs.Decide.{decide};
ghost use Rattle.http_response.specs.Feed.{feed_head_text, feed_last_text};
ghost use Rattle.streams.specs.Counts.{CountsFailure};
ghost use Rattle.streams.specs.Writes.{Writes};
ghost use Rattle.model.specs.History.{now};
ghost use Rattle.session_api.specs.SessionCall.{SessionCall};
ghost use Rattle.http_turns.specs.Feed.{Piece, GivesPiece, feed_start, rows_at};
ghost use Rattle.http_turns.specs.FeedCalls.{HasMore};
ghost use Rattle.session_api.specs.Known.{history_of};
ghost use Rattle.http_turns.specs.FeedWritten.{GivesNext, GoesOn, WritesTurn};

use crate::failing::fail;
use crate::progress::{AT_ONCE, Progress, write_rows};
use crate::reading::since_seen;
use crate::response::send;
use crate::setting::Setting;
use crate::waiting::wait_for_changes;
use http_request::{Asked, ChangesAsked, Feed};
use http_response::{feed_head, feed_last};
use queries::Row;
use session_api::{CallFault, Calls, Following, Viewer};
use std::alloc::{AllocError, Global};
use streams::{Failed, Sink, write_next};

/// Gives the rows of a feed as they come, and answers whether the connection closes behind them.
pub(crate) fn follow<X, S: Calls<X>, W: Sink>(
    session: &mut S,
    setting: &Setting<'_, X>,
    changes: ChangesAsked,
    closes: bool,
    writer: &mut W,
) -> Result<bool, Failed>
    requires { changes.feed ≡ Feed.Continuous }
    ensures turn { (request : framing.Request) → decide request ≡ Ok (Asked.Changes changes)
        → request.closes ≡ closes
        → WritesTurn S.goes S.known setting.now session.old session.new request result
        (W.taken writer.old) (W.taken writer.new) }
    ensures failures { CountsFailure (W.failed_writes writer.old)
        (W.failed_writes writer.new) result }
{
    match session.refresh() {
        Ok(()) => follow_seen(session, setting, changes, writer),
        Err(fault) => {
            let sent = fail(session, fault, closes);
            send(writer, &sent)
        }
    }
}

/// Gives the rows of a feed that begins with what has been seen.
fn follow_seen<X, S: Calls<X>, W: Sink>(
    session: &mut S,
    setting: &Setting<'_, X>,
    changes: ChangesAsked,
    writer: &mut W,
) -> Result<bool, Failed>
    ensures goes_on { (text : List ℕ)
        × GoesOn S.goes S.known setting.now session.old session.new
        (feed_start (now (history_of (S.known session.old))) changes) (is_ok result) text
        × Writes (W.taken writer.old) (W.taken writer.new) result
        (feed_head_text (length (S.known session.old).seen) ++ text) }
    ensures closes { IfOk result (λ closes. closes ≡ true) }
    ensures failures { CountsFailure (W.failed_writes writer.old)
        (W.failed_writes writer.new) result }
{
    let since = since_seen(session, changes.since);
    let start = Progress::new(since, changes);
    let head = feed_head(session.place());
    let Ok(()) = write_next(writer, head.as_bytes()) else {
        return Err(Failed);
    };
    go_on(session, setting, start, writer)
}

/// Gives rows as long as some are to be given and come, and then the last line. There is none after
/// a fault.
fn go_on<X, S: Calls<X>, W: Sink>(
    session: &mut S,
    setting: &Setting<'_, X>,
    start: Progress,
    writer: &mut W,
) -> Result<bool, Failed>
    ensures goes_on { (text : List ℕ)
        × GoesOn S.goes S.known setting.now session.old session.new start (is_ok result) text
        × Writes (W.taken writer.old) (W.taken writer.new) result text }
    ensures closes { IfOk result (λ closes. closes ≡ true) }
    ensures failures { CountsFailure (W.failed_writes writer.old)
        (W.failed_writes writer.new) result }
{
    let mut progress = start;
    let _recalled = session.place();
    for _turn in 0..u64::MAX {
        let Ok(given) = give(session, setting.alloc, &mut progress, writer) else {
            return Err(Failed);
        };
        let Some(pending) = given else {
            return Ok(true);
        };
        if progress.left == 0 {
            return finish(writer, &progress, pending);
        }
        match has_more(session, setting, &progress, pending) {
            Ok(true) => {}
            Ok(false) => return finish(writer, &progress, pending),
            Err(_) => return Ok(true),
        }
    }
    Ok(true)
}

/// Whether there is more to look at: rows that are left, or changes that come within the wait.
fn has_more<X, S: Calls<X>>(
    session: &mut S,
    setting: &Setting<'_, X>,
    progress: &Progress,
    pending: u64,
) -> Result<bool, CallFault>
    requires some { 0 < progress.now.left }
    requires counts { pending ≡ length (rows_at (S.known session.old)
        (length (S.known session.old).seen) progress.now.following) }
    ensures { (waits : List SessionCall) × HasMore S.goes S.known setting.now progress.now session.old waits
        session.new result }
{
    if pending > 0 {
        return Ok(true);
    }
    let seen = session.update_seq();
    let following = &progress.following;
    wait_for_changes(session, setting, seen, following.cursor, &following.ids)
}

/// Writes the next rows of what has been seen, and answers how many are left. Where memory is refused, it writes
/// some of them or none, and answers nothing.
fn give<S: Viewer, W: Sink>(
    session: &S,
    alloc: Global,
    progress: &mut Progress,
    writer: &mut W,
) -> Result<Option<u64>, Failed>
    ensures gives { GivesNext (S.known session.now) progress.old progress.new result
        (W.taken writer.old) (W.taken writer.new) }
    ensures failures { CountsFailure (W.failed_writes writer.old)
        (W.failed_writes writer.new) result }
{
    let Ok(rows) = next_rows(session, alloc, progress) else {
        return Ok(None);
    };
    let Ok(whole) = write_rows(alloc, writer, &rows) else {
        return Err(Failed);
    };
    if !whole {
        return Ok(None);
    }
    Ok(Some(pending(session, &progress.following)))
}

/// How many rows of what has been seen are above the cursor.
fn pending<S: Viewer>(session: &S, following: &Following) -> u64
    ensures { result ≡ length (rows_at (S.known session.now) (length (S.known session.now).seen) following.now) }
{
    session.count_changes(following.cursor, &following.ids)
}

/// The next rows of what has been seen.
fn next_rows<S: Viewer>(
    session: &S,
    alloc: Global,
    progress: &mut Progress,
) -> Result<Vec<Row>, AllocError>
    ensures { IfOk result (λ rows. (piece : Piece)
        × GivesPiece (S.known session.now) progress.old piece progress.new
        × (piece.place ≡ length (S.known session.now).seen)
        × (piece.rows ≡ rows.items)) }
{
    let most = most_found(progress);
    let rows = session.next_rows(alloc, &mut progress.following, most)?;
    progress.left -= rows.len() as u64;
    Ok(rows)
}

/// The most rows that are found at once: of all documents as many as are written at once, and of some documents all that
/// are still to give, since to find any takes a look at each of the documents.
fn most_found(progress: &Progress) -> u64
    ensures { result ≤ progress.now.left }
{
    match progress.following.ids {
        Some(_) => progress.left,
        None => progress.left.min(AT_ONCE as u64),
    }
}

/// Writes the last line, and answers that the connection closes behind it.
fn finish<W: Sink>(writer: &mut W, progress: &Progress, pending: u64) -> Result<bool, Failed>
    ensures written { Writes (W.taken writer.old) (W.taken writer.new) result
        (feed_last_text progress.now.following.cursor pending) }
    ensures closes { IfOk result (λ closes. closes ≡ true) }
    ensures failures { CountsFailure (W.failed_writes writer.old)
        (W.failed_writes writer.new) result }
{
    let line = feed_last(progress.following.cursor, pending);
    let Ok(()) = write_next(writer, line.as_bytes()) else {
        return Err(Failed);
    };
    Ok(true)
}
