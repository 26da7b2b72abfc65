//! Purges, and the documents that they name, as lines write them.
ghost use Rattle.std.specs.Prelude.{◌≡◌, ◌++◌, List, All, map, option_map, Some, IfOk, IfSome, OnOk, string_bytes};
ghost use Rattle.serde_json.specs.Written.{compact_text};
ghost use Rattle.model.specs.Command as model;
ghost use Rattle.model.specs.Map.{Map, entries};
ghost use Rattle.model.specs.Revision.{Rev};
ghost use Rattle.api_json.specs.Purge.{named_leaves, removed_data};
ghost use Rattle.api_json.specs.NamedRevisions.{member_pair};
ghost use Rattle.history_json.specs.Commands.{command_data};

use crate::line_value::read_list;
use crate::names::read_id;
use api_json::append_named_revisions;
use commands::{AskedRevisions, Command, NamedRevisions};
use json_profile::{Json, Member};
use revision_id::RevId;
use std::alloc::{AllocError, Global};

/// Writes a purge.
pub(crate) fn put_purge(
    text: &mut String,
    alloc: Global,
    named: &NamedRevisions,
) -> Result<(), AllocError>
    ensures { OnOk result (string_bytes text.new
        ≡ string_bytes text.old ++ compact_text (command_data (model.Purge named.now))) }
{
    let documents = append_named_revisions(alloc, String::new(alloc), named.documents())?;
    text.push_str("{\"purge\":")?;
    text.push_str(documents.as_str())?;
    text.push_str("}")
}

/// The purge of the documents that a value names.
pub(crate) fn read_purge(alloc: Global, value: Json) -> Result<Option<Command>, AllocError>
    ensures { IfOk result (λ found. (named : Map model.names (List Rev)) → model.IsCommand (model.Purge named)
        → value ≡ removed_data named → found ≡ Some (model.Purge named)) }
{
    let Some(named) = read_named(alloc, value)? else {
        return Ok(None);
    };
    Ok(Command::purge(named))
}

/// The documents that a value names, with some of their revisions.
pub(crate) fn read_named(alloc: Global, value: Json) -> Result<Option<NamedRevisions>, AllocError>
    ensures within { IfOk result (λ found. IfSome found (λ named. All model.NamesRevs (entries named))) }
    ensures found { IfOk result (λ found. (named : Map model.names (List Rev)) → All model.NamesRevs (entries named)
        → value ≡ removed_data named → found ≡ Some named) }
{
    let Some(object) = value.into_object() else {
        return Ok(None);
    };
    let members = object.into_members(alloc)?;
    let Some(documents) = read_documents(alloc, members)? else {
        return Ok(None);
    };
    Ok(NamedRevisions::new(documents))
}

/// The documents that the members name.
fn read_documents(
    alloc: Global,
    members: Vec<Member>,
) -> Result<Option<Vec<AskedRevisions>>, AllocError>
    ensures within { IfOk result (λ found. IfSome found (λ documents. All model.NamesRevs documents.items)) }
    ensures found { IfOk result (λ found. (documents : List (model.Id × List Rev)) → All model.NamesRevs documents
        → map member_pair members.items ≡ map named_leaves documents
        → option_map (λ list. list.items) found ≡ Some documents) }
{
    let mut documents = Vec::with_capacity(alloc, members.len())?;
    for member in members {
        let Some(document) = read_document(alloc, member)? else {
            return Ok(None);
        };
        documents.push(document)?;
    }
    Ok(Some(documents))
}

/// The document that a member names.
fn read_document(alloc: Global, member: Member) -> Result<Option<AskedRevisions>, AllocError>
    ensures within { IfOk result (λ found. IfSome found model.NamesRevs) }
    ensures found { IfOk result (λ found. (document : model.Id × List Rev) → model.NamesRevs document
        → member_pair member ≡ named_leaves document → found ≡ Some document) }
{
    let Member { name, value } = member;
    let Some(id) = read_id(alloc, name.as_str())? else {
        return Ok(None);
    };
    let Some(revisions) = read_list::<RevId>(alloc, value)? else {
        return Ok(None);
    };
    Ok(Some(AskedRevisions { id, revisions }))
}
