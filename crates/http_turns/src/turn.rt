//! The turns of a session.
ghost use Rattle.std.specs.Prelude.{◌≡◌, ℕ, Ok, IfOk};
ghost use Rattle.http_framing.specs.Input.{Requested, Refused};
ghost use Rattle.http_framing.specs.Request as framing;
ghost use Rattle.http_request.specs.Decide.{decide};
ghost use Rattle.http_request.specs.Forms.{HasForm};
ghost use Rattle.http_turns.specs.SessionTurn.{Answers};
ghost use Rattle.http_turns.specs.Sent.{turn_of};
ghost use Rattle.http_turns.specs.Replies.{Replies};

use crate::reading::{poll_changes, read, read_changes};
use crate::response::{Reply, Sent, connection_after};
use crate::setting::Setting;
use crate::writing::write;
use http_framing::FramingFault;
use http_framing::request::Request;
use http_request::{Asked, ChangesAsked, Feed, Rejection, extent_of, read_request};
use http_response::{MemoryFor, closing, refused, welcome};
use session_api::{Calls, Viewer};
use std::alloc::AllocError;

/// Does what a request asks, and answers it.
pub(crate) fn respond<X, S: Calls<X>>(
    session: &mut S,
    setting: &Setting<'_, X>,
    request: &Request<'_>,
) -> Reply<S::Opened>
    ensures { Replies S.goes S.known setting.now request.now session.old result session.new }
{
    let place = session.place();
    let closes = request.closes();
    let extent = extent_of(request);
    setting.reserve.renew();
    match understand(setting, request) {
        Ok(Ok(asked)) => carry_out(session, setting, asked, closes),
        Ok(Err(refusal)) => {
            let response = refused(place, connection_after(closes), extent, refusal);
            Reply::Sent(Sent { response, closes })
        }
        Err(_) => Reply::Sent(Sent::no_memory(place, extent, MemoryFor::Call)),
    }
}

/// What a request asks, or why it is rejected. Only one that reads gets memory that is kept back: what others ask
/// may keep theirs.
fn understand<X>(
    setting: &Setting<'_, X>,
    request: &Request<'_>,
) -> Result<Result<Asked, Rejection>, AllocError>
    ensures decides { IfOk result (λ decided. decided ≡ decide request.now) }
{
    let Setting {
        routes,
        reserve,
        ..
    } = setting;
    if request.method() != "GET".as_bytes() {
        return read_request(reserve.alloc(), routes, request);
    }
    reserve.retried(|| read_request(reserve.alloc(), routes, request))
}

/// Does what is asked, and answers it.
fn carry_out<X, S: Calls<X>>(
    session: &mut S,
    setting: &Setting<'_, X>,
    asked: Asked,
    closes: bool,
) -> Reply<S::Opened>
    requires { HasForm asked }
    ensures { (request : framing.Request) → decide request ≡ Ok asked
        → request.closes ≡ closes
        → Replies S.goes S.known setting.now request session.old result session.new }
{
    match asked {
        Asked::Command(form, command) => {
            Reply::Sent(write(session, setting, form, command, closes))
        }
        Asked::Query(query) => read(session, setting, &query, closes),
        Asked::Changes(changes) => tell_changes(session, setting, changes, closes),
        Asked::Welcome => {
            let response = welcome(session.place(), connection_after(closes));
            Reply::Sent(Sent { response, closes })
        }
    }
}

/// Answers which changes there are, unless they are to be given as they come.
fn tell_changes<X, S: Calls<X>>(
    session: &mut S,
    setting: &Setting<'_, X>,
    changes: ChangesAsked,
    closes: bool,
) -> Reply<S::Opened>
    ensures { (request : framing.Request) → decide request ≡ Ok (Asked.Changes changes)
        → request.closes ≡ closes
        → Replies S.goes S.known setting.now request session.old result session.new }
{
    match changes.feed {
        Feed::Normal => read_changes(session, setting, changes, closes),
        Feed::LongPoll => poll_changes(session, setting, changes, closes),
        Feed::Continuous => Reply::Feed(changes),
    }
}

/// Answers bytes that are refused.
pub(crate) fn refuse<S: Viewer>(session: &S, fault: FramingFault) -> Sent
    ensures { (turns : ℕ) → Answers S.goes S.known turns session.now (turn_of (Refused fault) result) session.now }
{
    Sent {
        response: closing(session.place(), fault),
        closes: true,
    }
}
