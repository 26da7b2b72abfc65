//! A purge, as a body and an answer write it.
ghost use Rattle.std.specs.Prelude.{◌≡◌, ◌++◌, map, IfOk, OnOk, string_bytes};
ghost use Rattle.serde_json.specs.Data.{member, no_members, object};
ghost use Rattle.serde_json.specs.Written.{compact_text};
ghost use Rattle.document_json.specs.MembersText.{Writes};
ghost use Rattle.api_json.specs.Objects.{members_from};
ghost use Rattle.document_json.specs.Steps.{Decides};
ghost use Rattle.api_json.specs.Purge.{named_leaves, purge_in, purge_of, purged_data};

use crate::named_revisions::read_named_revisions;
use crate::objects::append_object;
use commands::{AskedRevisions, Command, MAX_EDITS, NamedRevisions};
use document_json::{Fault, MembersText, Reason, revs_value};
use std::alloc::{AllocError, Global};

/// The command that removes the revisions that a body lists under the ids of documents.
///
/// # Errors
///
/// A body that is no JSON of the profile is refused as that, and then by the first of these that
/// some document gives: [`Reason::Shape`], [`Reason::Id`], [`Reason::Revision`]. More documents
/// than a command may name are refused by [`Reason::Shape`].
pub fn read_purge(alloc: Global, body: &[u8]) -> Result<Command, Fault>
    ensures { Decides result (purge_of body.now) }
{
    let named = read_named_revisions(alloc, body)?;
    match purge(named) {
        Some(command) => Ok(command),
        None => Err(Fault::Refused(Reason::Shape)),
    }
}

/// The purge of the revisions, unless they are of more documents than a command may name.
fn purge(named: NamedRevisions) -> Option<Command>
    ensures { result ≡ purge_in named }
{
    if named.documents().len() > MAX_EDITS {
        return None;
    }
    let Some(command) = Command::purge(named) else {
        unreachable!()
    };
    Some(command)
}

/// Writes a document and the leaves that were removed.
fn push_leaves(
    members: &mut MembersText,
    alloc: Global,
    document: &AskedRevisions,
) -> Result<(), AllocError>
    ensures { OnOk result (Writes members.old members.new
        (member (named_leaves document.now).0 (named_leaves document.now).1 no_members)) }
{
    let leaves = revs_value(alloc, &document.revisions)?;
    members.push(alloc, document.id.as_str(), &leaves)?;
    Ok(())
}

/// Writes documents behind a text, each with the revisions that are named of it.
pub fn append_named_revisions(
    alloc: Global,
    text: String,
    documents: &[AskedRevisions],
) -> Result<String, AllocError>
    ensures { IfOk result (λ longer. string_bytes longer
        ≡ string_bytes text ++ compact_text (object (members_from (map named_leaves documents.now)))) }
{
    append_object(text, documents, |members, document| {
        push_leaves(members, alloc, document)
    })
}

/// What a purge removed of each document that was asked for, with the purge number after it.
pub fn purged_text(
    alloc: Global,
    purge_seq: u64,
    removed: &NamedRevisions,
) -> Result<String, AllocError>
    ensures { IfOk result (λ text. string_bytes text ≡ compact_text (purged_data purge_seq removed.now)) }
{
    let front = format!(in alloc; "{{\"purge_seq\":{purge_seq},\"purged\":")?;
    let mut text = append_named_revisions(alloc, front, removed.documents())?;
    text.push_str("}")?;
    Ok(text)
}
