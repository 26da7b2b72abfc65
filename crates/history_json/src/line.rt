//! The line of an entry.
ghost use Rattle.std.specs.Prelude.{◌≡◌, ◌↔◌, ◌++◌, Some, IfOk, IfSome, OnOk, string_bytes};
ghost use Rattle.model.specs.Command as model;
ghost use Rattle.history_json.specs.Line.{IsLine, entry_data, line_text, seat_data};
ghost use Rattle.history_json.specs.Commands.{command_data};
ghost use Rattle.history_json.specs.Replies.{reply_data};

use crate::command::{put_command, read_command};
use crate::reply::{put_reply, read_reply};
use crate::seat::{put_seat, read_seat};
use commands::{Command, Entry, Reply, Seat};
use document_json::{Fault, read_json};
use json_profile::Json;
use std::alloc::{AllocError, Global};

/// Writes the line of an entry, without the line feed at its end.
///
/// # Errors
///
/// If memory is refused, what was in the text is still there, with perhaps a part of the line behind it.
pub fn put_line(text: &mut String, alloc: Global, entry: &Entry) -> Result<(), AllocError>
    ensures line { OnOk result (string_bytes text.new ≡ string_bytes text.old ++ line_text entry.now) }
{
    put_entry(text, alloc, &entry.command, &entry.reply, entry.seat)
}

/// Writes the line of an entry of these parts.
fn put_entry(
    text: &mut String,
    alloc: Global,
    command: &Command,
    reply: &Reply,
    seat: Seat,
) -> Result<(), AllocError>
    ensures { OnOk result (string_bytes text.new ≡ string_bytes text.old
        ++ line_text (record { seat = seat; command = command.now; reply = reply.now })) }
{
    text.push_str("{\"command\":")?;
    put_command(text, alloc, command)?;
    text.push_str(",\"reply\":")?;
    put_reply(text, alloc, reply)?;
    put_seat(text, seat)
}

/// The entry that a line is of: one exactly where the bytes are the line, without its line feed, of
/// an entry that keeps the limits.
pub fn read_line(alloc: Global, line: &[u8]) -> Result<Option<Entry>, AllocError>
    ensures entry { IfOk result (λ found. (entry : model.Entry)
        → (found ≡ Some entry) ↔ (IsLine entry × (line.now ≡ line_text entry))) }
{
    let Some(value) = value_of(alloc, line)? else {
        return Ok(None);
    };
    let Some(entry) = entry_of(alloc, value)? else {
        return Ok(None);
    };
    let mut text = String::with_capacity(alloc, line.len())?;
    put_line(&mut text, alloc, &entry)?;
    if text.as_bytes() != line {
        return Ok(None);
    }
    Ok(Some(entry))
}

/// The value of a text, where it may be a line.
fn value_of(alloc: Global, line: &[u8]) -> Result<Option<Json>, AllocError>
    ensures { IfOk result (λ found. (entry : model.Entry) → IsLine entry → line.now ≡ line_text entry
        → found ≡ Some (entry_data entry)) }
{
    match read_json(alloc, line) {
        Ok(value) => Ok(Some(value)),
        Err(Fault::Refused(_)) => Ok(None),
        Err(Fault::Memory) => Err(AllocError),
    }
}

/// The entry that a value may be of.
fn entry_of(alloc: Global, value: Json) -> Result<Option<Entry>, AllocError>
    ensures within { IfOk result (λ found. IfSome found IsLine) }
    ensures found { IfOk result (λ found. (entry : model.Entry) → IsLine entry → value ≡ entry_data entry
        → found ≡ Some entry) }
{
    let Some(mut members) = value.into_object() else {
        return Ok(None);
    };
    let (Some(command), Some(reply), Some(seat)) = (
        members.take("command"),
        members.take("reply"),
        members.take("seat"),
    ) else {
        return Ok(None);
    };
    read_entry(alloc, command, reply, seat)
}

/// The entry of these values.
fn read_entry(
    alloc: Global,
    command: Json,
    reply: Json,
    seat: Json,
) -> Result<Option<Entry>, AllocError>
    ensures within { IfOk result (λ found. IfSome found IsLine) }
    ensures found { IfOk result (λ found. (entry : model.Entry) → IsLine entry → command ≡ command_data entry.command
        → reply ≡ reply_data entry.reply → seat ≡ seat_data entry.seat → found ≡ Some entry) }
{
    let Some(command) = read_command(alloc, command)? else {
        return Ok(None);
    };
    let Some(reply) = read_reply(alloc, &command, reply)? else {
        return Ok(None);
    };
    let Some(seat) = read_seat(alloc, seat)? else {
        return Ok(None);
    };
    let _recalled = command.kind();
    Ok(Some(Entry {
        seat,
        command,
        reply,
    }))
}
