//! What became of a command.
ghost use Rattle.std.specs.Prelude.{◌≡◌, option_map, IfOk};
ghost use Rattle.commands.specs.Command.{command_of};
ghost use Rattle.commands.specs.Reply.{reply_of};
ghost use Rattle.http_response.specs.Response.{bytes_of};
ghost use Rattle.http_response.specs.Texts.{reply_text};
ghost use Rattle.http_response.specs.Told.{done, reply_told, told_edits, told_local, told_local_one, told_one, told_refused, told_single};

use crate::body::BodyText;
use crate::connection::Connection;
use crate::problem::{body_of_refusal, status_of};
use crate::response::Response;
use crate::status::StatusCode;
use api_json::{edits_text, local_written_text, merges_text, purged_text, written_text};
use commands::{Command, CommandKind, Edit, Reply, ReplyKind};
use document_id::DocId;
use http_request::Form;
use model::Refusal;
use revision_id::RevId;
use std::alloc::{AllocError, Global};

/// The response to a command in a form, where a request can ask for such a command in this form
/// and be replied so.
#[tactic(auto, unfolding(crate::specs::Texts::reply_text))]
pub fn reply(
    alloc: Global,
    place: u64,
    connection: Connection,
    form: Form,
    command: &Command,
    reply: &Reply,
) -> Result<Option<Response>, AllocError>
    ensures text { IfOk result (λ response. response ≡ reply_text place connection form command.now reply.now) }
{
    let Some((status, body)) = tell(alloc, form, command.kind(), reply.kind())? else {
        return Ok(None);
    };
    Ok(Some(Response::plain(status, place, connection, body)))
}

fn tell(
    alloc: Global,
    form: Form,
    command: &CommandKind,
    reply: &ReplyKind,
) -> Result<Option<(StatusCode, BodyText)>, AllocError>
    ensures { IfOk result (λ told. option_map (λ t. (t.0, bytes_of t.1)) told
        ≡ reply_told form (command_of command.now) (reply_of reply.now)) }
{
    match (form, command, reply) {
        (_, CommandKind::Edits(edits), ReplyKind::Wrote(outcomes)) => {
            tell_edits(alloc, form, edits.as_slice(), outcomes.as_slice())
        }
        (Form::Whole, CommandKind::Merges(merges), ReplyKind::Wrote(outcomes)) => {
            let refusals = merges_text(alloc, merges, outcomes.as_slice())?;
            Ok(Some((StatusCode::Created, BodyText::Made(refusals))))
        }
        (_, CommandKind::PutLocal { id, .. }, ReplyKind::WroteLocal(outcome)) => {
            tell_local(alloc, form, id, outcome)
        }
        (Form::Whole, CommandKind::Purge(_), ReplyKind::Purged { purge_seq, removed }) => {
            let purged = purged_text(alloc, *purge_seq, removed)?;
            Ok(Some((StatusCode::Created, BodyText::Made(purged))))
        }
        (Form::Whole, CommandKind::SetLimit(_), ReplyKind::Done) => {
            Ok(Some(tell_done(StatusCode::Ok)))
        }
        (Form::Whole, CommandKind::SetPurgedLimit(_), ReplyKind::Done) => {
            Ok(Some(tell_done(StatusCode::Ok)))
        }
        (Form::Whole, CommandKind::Compact, ReplyKind::Done) => {
            Ok(Some(tell_done(StatusCode::Accepted)))
        }
        _ => Ok(None),
    }
}

fn tell_done(status: StatusCode) -> (StatusCode, BodyText)
    ensures { (result.0, bytes_of result.1) ≡ done status }
{
    (status, BodyText::Fixed(r#"{"ok":true}"#))
}

fn tell_edits(
    alloc: Global,
    form: Form,
    edits: &[Edit],
    outcomes: &[Result<RevId, Refusal>],
) -> Result<Option<(StatusCode, BodyText)>, AllocError>
    ensures { IfOk result (λ told. option_map (λ t. (t.0, bytes_of t.1)) told
        ≡ told_edits form edits.now outcomes.now) }
{
    match form {
        Form::Put => tell_single(alloc, StatusCode::Created, edits, outcomes),
        Form::Delete => tell_single(alloc, StatusCode::Ok, edits, outcomes),
        Form::Whole => {
            let list = edits_text(alloc, edits, outcomes)?;
            Ok(Some((StatusCode::Created, BodyText::Made(list))))
        }
    }
}

/// Reports the one write that was asked for.
fn tell_single(
    alloc: Global,
    status: StatusCode,
    edits: &[Edit],
    outcomes: &[Result<RevId, Refusal>],
) -> Result<Option<(StatusCode, BodyText)>, AllocError>
    ensures { IfOk result (λ told. option_map (λ t. (t.0, bytes_of t.1)) told
        ≡ told_single status edits.now outcomes.now) }
{
    let [edit] = edits else {
        return Ok(None);
    };
    let [outcome] = outcomes else {
        return Ok(None);
    };
    Ok(Some(tell_one(alloc, status, &edit.id, outcome)?))
}

fn tell_one(
    alloc: Global,
    status: StatusCode,
    id: &DocId,
    outcome: &Result<RevId, Refusal>,
) -> Result<(StatusCode, BodyText), AllocError>
    ensures { IfOk result (λ told. (told.0, bytes_of told.1)
        ≡ told_one status id.now outcome.now) }
{
    match outcome {
        Ok(rev) => Ok((status, BodyText::Made(written_text(alloc, id, rev)?))),
        Err(refusal) => Ok(tell_refused(*refusal)),
    }
}

fn tell_refused(refusal: Refusal) -> (StatusCode, BodyText)
    ensures { (result.0, bytes_of result.1) ≡ told_refused refusal }
{
    let body = body_of_refusal(refusal);
    (status_of(refusal), BodyText::Fixed(body))
}

/// Reports of the write of a local document.
fn tell_local(
    alloc: Global,
    form: Form,
    id: &DocId,
    outcome: &Result<u32, Refusal>,
) -> Result<Option<(StatusCode, BodyText)>, AllocError>
    ensures { IfOk result (λ told. option_map (λ t. (t.0, bytes_of t.1)) told
        ≡ told_local form id.now outcome.now) }
{
    match form {
        Form::Put => Ok(Some(tell_local_one(alloc, StatusCode::Created, id, outcome)?)),
        Form::Delete => Ok(Some(tell_local_one(alloc, StatusCode::Ok, id, outcome)?)),
        Form::Whole => Ok(None),
    }
}

fn tell_local_one(
    alloc: Global,
    status: StatusCode,
    id: &DocId,
    outcome: &Result<u32, Refusal>,
) -> Result<(StatusCode, BodyText), AllocError>
    ensures { IfOk result (λ told. (told.0, bytes_of told.1)
        ≡ told_local_one status id.now outcome.now) }
{
    match outcome {
        Ok(counter) => {
            let text = local_written_text(alloc, id, *counter)?;
            Ok((status, BodyText::Made(text)))
        }
        Err(refusal) => Ok(tell_refused(*refusal)),
    }
}
