//! The revisions that are not known, as an answer writes them.
ghost use Rattle.std.specs.Prelude.{◌≡◌, map, IfOk, OnOk, string_bytes};
ghost use Rattle.serde_json.specs.Data.{member, no_members, object};
ghost use Rattle.serde_json.specs.View.{view};
ghost use Rattle.serde_json.specs.Written.{compact_text};
ghost use Rattle.document_json.specs.MembersText.{Writes};
ghost use Rattle.api_json.specs.Differences.{difference_data, differences_data, named_difference};
ghost use Rattle.api_json.specs.Objects.{members_from};

use crate::objects::append_object;
use document_id::DocId;
use document_json::{MembersText, revs_value};
use queries::{Difference, Differences};
use serde_json::{Value, json};
use std::alloc::{AllocError, Global};

/// The revisions of a document that are not known.
fn difference_value(alloc: Global, difference: &Difference) -> Result<Value, AllocError>
    ensures { IfOk result (λ value. view value ≡ difference_data difference.now) }
{
    let missing = revs_value(alloc, &difference.missing)?;
    if difference.possible_ancestors.is_empty() {
        return json!(in alloc; {"missing": missing});
    }
    let ancestors = revs_value(alloc, &difference.possible_ancestors)?;
    json!(in alloc; {"missing": missing, "possible_ancestors": ancestors})
}

/// Writes a document and what it lacks.
fn push_difference(
    members: &mut MembersText,
    alloc: Global,
    document: &(DocId, Difference),
) -> Result<(), AllocError>
    ensures { OnOk result (Writes members.old members.new
        (member (named_difference document.now).0 (named_difference document.now).1 no_members)) }
{
    let value = difference_value(alloc, &document.1)?;
    members.push(alloc, document.0.as_str(), &value)?;
    Ok(())
}

/// An object of documents with their differences.
fn object_text(alloc: Global, documents: &[(DocId, Difference)]) -> Result<String, AllocError>
    ensures { IfOk result (λ text. string_bytes text
        ≡ compact_text (object (members_from (map named_difference documents.now)))) }
{
    append_object(String::new(alloc), documents, |members, document| {
        push_difference(members, alloc, document)
    })
}

/// The documents that lack revisions.
pub fn differences_text(alloc: Global, differences: &Differences) -> Result<String, AllocError>
    ensures { IfOk result (λ text. string_bytes text
        ≡ compact_text (differences_data differences.now)) }
{
    object_text(alloc, differences.documents())
}
