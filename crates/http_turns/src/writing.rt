//! Commands, and their replies.
ghost use Rattle.std.specs.Prelude.{◌≡◌, Ok, Some, IfOk, IsSome};
ghost use Rattle.http_framing.specs.Input.{Requested};
ghost use Rattle.http_framing.specs.Request as framing;
ghost use Rattle.http_request.specs.Decide.{decide};
ghost use Rattle.http_request.specs.Forms.{IsFormOf};
ghost use Rattle.http_response.specs.Texts.{reply_text};
ghost use Rattle.http_response.specs.Told.{reply_told};
ghost use Rattle.http_response.specs.declared.memory.MemoryFor.TheVariants as memory_for;
ghost use Rattle.model.specs.Command as model;
ghost use Rattle.http_turns.specs.SessionTurn.{Answers};
ghost use Rattle.session_api.specs.Known.{HasEntryAt};
ghost use Rattle.http_turns.specs.ResponseText.{after_closing};
ghost use Rattle.http_turns.specs.Sent.{SendsDue, turn_of};

use crate::failing::fail;
use crate::response::{Sent, connection_after};
use crate::setting::Setting;
use commands::{Command, Entry};
use http_request::{Asked, Form};
use http_response::{Connection, MemoryFor, Response, reply};
use session_api::{Calls, Viewer};
use std::alloc::{AllocError, Global};

/// Writes a command, and reports the reply in this form.
pub(crate) fn write<X, S: Calls<X>>(
    session: &mut S,
    setting: &Setting<'_, X>,
    form: Form,
    command: Command,
    closes: bool,
) -> Sent
    requires { IsFormOf form command }
    ensures { (request : framing.Request) → decide request ≡ Ok (Asked.Command form command)
        → request.closes ≡ closes
        → Answers S.goes S.known setting.now session.old (turn_of (Requested request) result) session.new }
{
    match session.write(setting.context, command) {
        Ok(place) => tell_reply(session, setting.alloc, place, form, closes),
        Err(fault) => fail(session, fault, closes),
    }
}

/// Reports the reply that the history has at a place, in this form.
fn tell_reply<S: Viewer>(session: &S, alloc: Global, place: u64, form: Form, closes: bool) -> Sent
    requires { (entry : model.Entry) × IsFormOf form entry.command
        × HasEntryAt (S.known session.now) place entry }
    ensures { (entry : model.Entry) → HasEntryAt (S.known session.now) place entry
        → SendsDue (reply_text place (after_closing closes) form entry.command entry.reply)
        closes place memory_for.Reply result }
{
    let _recalled = session.place();
    let Some(entry) = session.entry(place) else {
        unreachable!()
    };
    let response = reply_of(alloc, place, connection_after(closes), form, entry);
    Sent::made(response, closes, place, MemoryFor::Reply)
}

/// The reply of an entry, whose command was asked for in this form.
fn reply_of(
    alloc: Global,
    place: u64,
    connection: Connection,
    form: Form,
    entry: &Entry,
) -> Result<Response, AllocError>
    requires { IsSome (reply_told form entry.now.command entry.now.reply) }
    ensures { IfOk result (λ response. Some response
        ≡ reply_text place connection form entry.now.command entry.now.reply) }
{
    let response = reply(alloc, place, connection, form, &entry.command, &entry.reply)?;
    let Some(response) = response else {
        unreachable!()
    };
    Ok(response)
}
