//! Replies, as lines write them.
ghost use Rattle.std.specs.Prelude.{◌≡◌, ◌++◌, List, Some, IfOk, IfSome, OnOk, string_bytes};
ghost use Rattle.serde_json.specs.Written.{compact_text};
ghost use Rattle.model.specs.Command as model;
ghost use Rattle.history_json.specs.Replies.{reply_data};

use crate::line_value::{put_list, read_list};
use crate::number::number_in;
use crate::outcome::{are_merged, local_outcome_in, put_local_outcome};
use crate::purge::read_named;
use api_json::purged_text;
use commands::{Command, CommandKind, Reply, ReplyKind, ShortList};
use json_profile::Json;
use model::Refusal;
use revision_id::RevId;
use std::alloc::{AllocError, Global};

/// Writes a reply.
pub(crate) fn put_reply(text: &mut String, alloc: Global, reply: &Reply) -> Result<(), AllocError>
    ensures { OnOk result (string_bytes text.new ≡ string_bytes text.old ++ compact_text (reply_data reply.now)) }
{
    match reply.kind() {
        ReplyKind::Wrote(outcomes) => put_list(text, alloc, outcomes.as_slice()),
        ReplyKind::WroteLocal(outcome) => put_local_outcome(text, *outcome),
        ReplyKind::Purged { purge_seq, removed } => {
            let purged = purged_text(alloc, *purge_seq, removed)?;
            text.push_str(purged.as_str())
        }
        ReplyKind::Done => text.push_str("true"),
    }
}

/// The reply that a value is, if it has the form of an answer to the command. Another value may be read
/// as one too: a line is written again and compared.
pub(crate) fn read_reply(
    alloc: Global,
    command: &Command,
    value: Json,
) -> Result<Option<Reply>, AllocError>
    ensures fits { IfOk result (λ found. IfSome found (model.FitsReply command.now)) }
    ensures found { IfOk result (λ found. (reply : model.Reply) → model.FitsReply command.now reply
        → value ≡ reply_data reply → found ≡ Some reply) }
{
    match command.kind() {
        CommandKind::Edits(_) => read_edited(alloc, value),
        CommandKind::Merges(_) => read_merged(alloc, value),
        CommandKind::PutLocal { .. } => Ok(read_local_written(&value)),
        CommandKind::Purge(_) => read_purged(alloc, value),
        CommandKind::SetLimit(_) => Ok(Some(Reply::new(ReplyKind::Done))),
        CommandKind::SetPurgedLimit(_) => Ok(Some(Reply::new(ReplyKind::Done))),
        CommandKind::Compact => Ok(Some(Reply::new(ReplyKind::Done))),
    }
}

/// What became of edits.
fn read_edited(alloc: Global, value: Json) -> Result<Option<Reply>, AllocError>
    ensures fits { IfOk result (λ found. IfSome found (λ reply. (edits : List model.Edit) → model.FitsReply (model.Edits edits) reply)) }
    ensures found { IfOk result (λ found. (edits : List model.Edit) (reply : model.Reply)
        → model.FitsReply (model.Edits edits) reply → value ≡ reply_data reply → found ≡ Some reply) }
{
    let Some(outcomes) = read_list::<Result<RevId, Refusal>>(alloc, value)? else {
        return Ok(None);
    };
    Ok(Some(Reply::new(ReplyKind::Wrote(ShortList::from_vec(outcomes)))))
}

/// What became of merges.
fn read_merged(alloc: Global, value: Json) -> Result<Option<Reply>, AllocError>
    ensures fits { IfOk result (λ found. IfSome found (λ reply. (merges : List model.Merge) → model.FitsReply (model.Merges merges) reply)) }
    ensures found { IfOk result (λ found. (merges : List model.Merge) (reply : model.Reply)
        → model.FitsReply (model.Merges merges) reply → value ≡ reply_data reply → found ≡ Some reply) }
{
    let Some(outcomes) = read_list::<Result<RevId, Refusal>>(alloc, value)? else {
        return Ok(None);
    };
    if !are_merged(&outcomes) {
        return Ok(None);
    }
    Ok(Some(Reply::new(ReplyKind::Wrote(ShortList::from_vec(outcomes)))))
}

/// What became of a write of a local document.
fn read_local_written(value: &Json) -> Option<Reply>
    ensures fits { IfSome result (λ reply. (id : model.Id) (named : _) (body : _) → model.FitsReply (model.PutLocal id named body) reply) }
    ensures found { (id : model.Id) (named : _) (body : _) (reply : model.Reply)
        → model.FitsReply (model.PutLocal id named body) reply → value.now ≡ reply_data reply → result ≡ Some reply }
{
    let outcome = local_outcome_in(value)?;
    Some(Reply::new(ReplyKind::WroteLocal(outcome)))
}

/// What a purge removed.
fn read_purged(alloc: Global, value: Json) -> Result<Option<Reply>, AllocError>
    ensures fits { IfOk result (λ found. IfSome found (λ reply. (named : _) → model.FitsReply (model.Purge named) reply)) }
    ensures found { IfOk result (λ found. (named : _) (reply : model.Reply)
        → model.FitsReply (model.Purge named) reply → value ≡ reply_data reply → found ≡ Some reply) }
{
    let Some(mut members) = value.into_object() else {
        return Ok(None);
    };
    let (Some(purge_seq), Some(removed)) = (members.take("purge_seq"), members.take("purged"))
    else {
        return Ok(None);
    };
    let Some(purge_seq) = number_in(&purge_seq) else {
        return Ok(None);
    };
    let Some(removed) = read_named(alloc, removed)? else {
        return Ok(None);
    };
    Ok(Some(Reply::new(ReplyKind::Purged { purge_seq, removed })))
}
