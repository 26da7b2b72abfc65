//! Commands, as lines write them.
ghost use Rattle.std.specs.Prelude.{◌≡◌, ◌++◌, true, Some, IfOk, OnOk, string_bytes};
ghost use Rattle.serde_json.specs.Data.{object};
ghost use Rattle.serde_json.specs.Written.{compact_text};
ghost use Rattle.model.specs.Command as model;
ghost use Rattle.history_json.specs.Commands.{command_data, is_setting};

use crate::bulk::{put_bulk, read_bulk};
use crate::compact::put_compaction;
use crate::limit::{put_limit, put_purged_limit, read_limit, read_purged_limit};
use crate::local::{put_local, read_local};
use crate::purge::{put_purge, read_purge};
use commands::{Command, CommandKind};
use json_profile::{Json, Object};
use std::alloc::{AllocError, Global};

/// Writes a command.
pub(crate) fn put_command(
    text: &mut String,
    alloc: Global,
    command: &Command,
) -> Result<(), AllocError>
    ensures { OnOk result (string_bytes text.new ≡ string_bytes text.old ++ compact_text (command_data command.now)) }
{
    match command.kind() {
        CommandKind::Edits(edits) => put_bulk(text, alloc, edits.as_slice(), true),
        CommandKind::Merges(merges) => put_bulk(text, alloc, merges, false),
        CommandKind::PutLocal { id, named, body } => {
            put_local(text, alloc, id, *named, body.as_deref())
        }
        CommandKind::Purge(named) => put_purge(text, alloc, named),
        CommandKind::SetLimit(limit) => put_limit(text, *limit),
        CommandKind::SetPurgedLimit(limit) => put_purged_limit(text, *limit),
        CommandKind::Compact => put_compaction(text),
    }
}

/// The command that a value is, if it is one. Another value may be read as a command too: a line is
/// written again and compared.
pub(crate) fn read_command(alloc: Global, value: Json) -> Result<Option<Command>, AllocError>
    ensures { IfOk result (λ found. (command : model.Command) → model.IsCommand command
        → value ≡ command_data command → found ≡ Some command) }
{
    let Some(mut members) = value.into_object() else {
        return Ok(None);
    };
    if let Some(writes) = members.take("bulk") {
        return read_bulk(alloc, writes, members.take("new_edits"));
    }
    if let Some(id) = members.take("local") {
        return read_local(alloc, id, members);
    }
    read_setting(alloc, members)
}

/// The command that is neither a bulk nor a write of a local document.
fn read_setting(alloc: Global, mut members: Object) -> Result<Option<Command>, AllocError>
    ensures { IfOk result (λ found. (command : model.Command) → model.IsCommand command → is_setting command ≡ true
        → object members ≡ command_data command → found ≡ Some command) }
{
    if let Some(named) = members.take("purge") {
        return read_purge(alloc, named);
    }
    if let Some(limit) = members.take("limit") {
        return Ok(read_limit(&limit));
    }
    if let Some(limit) = members.take("purged_limit") {
        return Ok(read_purged_limit(&limit));
    }
    Ok(Some(Command::compact()))
}
