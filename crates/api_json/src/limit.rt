//! The limit of revisions, as a body and an answer write it.
ghost use Rattle.std.specs.Prelude.{◌≡◌, IfOk, IfSome, string_bytes};
ghost use Rattle.serde_json.specs.Data.{number, unsigned};
ghost use Rattle.serde_json.specs.Written.{compact_text};
ghost use Rattle.model.specs.Command.{IsLimit};
ghost use Rattle.api_json.specs.Limit.{limit_in, limit_of};
ghost use Rattle.document_json.specs.Steps.{Decides};

use document_json::{Fault, Reason, from_one, read_json, value_text};
use json_profile::Json;
use serde_json::Value;
use std::alloc::{AllocError, Global};

/// The limit that a value is.
fn find_limit(value: &Json) -> Option<u32>
    ensures limit { result ≡ limit_in value.now }
    ensures is_limit { IfSome result IsLimit }
{
    match value.value().as_u64() {
        Some(number) => from_one(number),
        None => None,
    }
}

/// The limit that a body writes, a number from 1 to 4294967295.
///
/// # Errors
///
/// A body that is no JSON of the profile is refused as that, another value by [`Reason::Shape`],
/// and memory may be refused.
pub fn read_limit(alloc: Global, body: &[u8]) -> Result<u32, Fault>
    ensures decides { Decides result (limit_of body.now) }
    ensures is_limit { IfOk result IsLimit }
{
    let value = read_json(alloc, body)?;
    match find_limit(&value) {
        Some(limit) => Ok(limit),
        None => Err(Fault::Refused(Reason::Shape)),
    }
}

/// The text of a number.
pub fn number_text(alloc: Global, limit: u32) -> Result<String, AllocError>
    ensures { IfOk result (λ text. string_bytes text ≡ compact_text (number (unsigned limit))) }
{
    let value = Value::from(limit);
    value_text(alloc, &value)
}
