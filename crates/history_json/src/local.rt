//! Writes of local documents, as lines write them.
ghost use Rattle.std.specs.Prelude.{◌≡◌, ◌++◌, ℕ, true, Option, Some, IfOk, IfSome, OnOk, option_copied, option_map, string_bytes};
ghost use Rattle.std.specs.Arc.{arc_value};
ghost use Rattle.serde_json.specs.Data.{Members, number, object, string, unsigned};
ghost use Rattle.serde_json.specs.Written.{compact_text, members_text};
ghost use Rattle.model.specs.Body.{IsBody};
ghost use Rattle.model.specs.Command as model;
ghost use Rattle.history_json.specs.Commands.{body_first, counter_member, put_local_data};
ghost use Rattle.history_json.specs.Fronts.{body_front};

use crate::bodies::read_body;
use crate::line_value::LineValue;
use crate::number::small_number_in;
use commands::Command;
use document_id::DocId;
use json_profile::{Body, Json, Object};
use std::alloc::{AllocError, Global};
use std::sync::Arc;

/// Writes a write of a local document.
pub(crate) fn put_local(
    text: &mut String,
    alloc: Global,
    id: &DocId,
    named: Option<u32>,
    body: Option<&Body>,
) -> Result<(), AllocError>
    ensures { OnOk result (string_bytes text.new
        ≡ string_bytes text.old ++ compact_text (put_local_data id.now named (option_copied body.entry))) }
{
    put_body(text, body)?;
    text.push_str("\"local\":")?;
    id.put(text, alloc)?;
    put_counter(text, named)
}

/// Writes the beginning, with the body where there is one.
pub fn put_body(text: &mut String, body: Option<&Body>) -> Result<(), AllocError>
    ensures { OnOk result (string_bytes text.new ≡ string_bytes text.old ++ body_front (option_copied body.entry)) }
{
    match body {
        Some(body) => {
            let body = body.text();
            write!(text, "{{\"body\":{body},")
        }
        None => text.push_str("{"),
    }
}

/// Writes the counter that is named, and the end.
fn put_counter(text: &mut String, named: Option<u32>) -> Result<(), AllocError>
    ensures { OnOk result (string_bytes text.new ≡ string_bytes text.old ++ members_text true (counter_member named)) }
{
    match named {
        Some(counter) => write!(text, ",\"rev\":{counter}}}"),
        None => text.push_str("}"),
    }
}

/// The write of the local document of this id that the other members say.
pub(crate) fn read_local(
    alloc: Global,
    id: Json,
    mut members: Object,
) -> Result<Option<Command>, AllocError>
    ensures { IfOk result (λ found. (i : model.Id) (named : Option ℕ) (body : Option Members)
        → model.IsCommand (model.PutLocal i named body) → id ≡ string i
        → members ≡ body_first body (counter_member named) → found ≡ Some (model.PutLocal i named body)) }
{
    let Some(id) = DocId::read(alloc, id)? else {
        return Ok(None);
    };
    let Some(named) = counter_in(members.take("rev")) else {
        return Ok(None);
    };
    let Some(body) = body_in(alloc, members.take("body"))? else {
        return Ok(None);
    };
    Ok(Command::put_local(id, named, body))
}

/// The counter that is named, if what is there is one.
fn counter_in(rev: Option<Json>) -> Option<Option<u32>>
    ensures { (named : Option ℕ) → IfSome named model.IsCounter
        → rev ≡ option_map (λ counter. number (unsigned counter)) named → result ≡ Some named }
{
    match rev {
        Some(rev) => {
            let counter = small_number_in(&rev)?;
            Some(Some(counter))
        }
        None => Some(None),
    }
}

/// The body, if what is there is one.
pub fn body_in(alloc: Global, body: Option<Json>) -> Result<Option<Option<Arc<Body>>>, AllocError>
    ensures { IfOk result (λ found. (of : Option Members) → IfSome of IsBody
        → body ≡ option_map object of → option_map (option_map arc_value) found ≡ Some of) }
{
    let Some(body) = body else {
        return Ok(Some(None));
    };
    match read_body(alloc, body)? {
        Some(body) => Ok(Some(Some(body))),
        None => Ok(None),
    }
}
