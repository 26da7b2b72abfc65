//! JSON as text: the value of a body, and the texts of values.
ghost use Rattle.std.specs.Prelude.{◌≡◌, ◌++◌, false, IfOk, OnOk, string_bytes};
ghost use Rattle.std.specs.List.{list_all};
ghost use Rattle.json.specs.Print.{quoted};
ghost use Rattle.serde_json.specs.View.{view};
ghost use Rattle.serde_json.specs.Written.{comma_if, compact_text, has_float};
ghost use Rattle.document_json.specs.Steps.{Decides};
ghost use Rattle.document_json.specs.Text.{json_of, is_unescaped};

use crate::fault::{Fault, Reason};
use json_profile::{Json, MAX_NESTING, read};
use serde_json::Value;
use std::alloc::{AllocError, Global};

/// The quotes round a string.
pub(crate) const QUOTES: usize = 2;

/// The value of a body.
///
/// # Errors
///
/// A body that is no JSON is refused by [`Reason::Json`], one with a number that is no whole number of
/// `i64` by [`Reason::Number`], and one that nests too deep by [`Reason::Depth`].
pub fn read_json(alloc: Global, bytes: &[u8]) -> Result<Json, Fault>
    ensures { Decides result (json_of bytes.now) }
{
    Ok(read(alloc, bytes, MAX_NESTING)?)
}

/// The text of a value with no float.
pub fn value_text(alloc: Global, value: &Value) -> Result<String, AllocError>
    requires { has_float (view value.now) ≡ false }
    ensures { IfOk result (λ text. string_bytes text ≡ compact_text (view value.now)) }
{
    value.to_string(alloc)
}

/// Writes a comma, where something comes before.
pub fn put_comma(text: &mut String, later: bool) -> Result<(), AllocError>
    ensures { OnOk result (string_bytes text.new ≡ string_bytes text.old ++ comma_if later) }
{
    text.push_str(if later { "," } else { "" })
}

/// Writes a string with its quotes. One with nothing to escape is written as it stands, and takes
/// no memory of its own.
pub fn put_string(text: &mut String, alloc: Global, string: &str) -> Result<(), AllocError>
    ensures { OnOk result (string_bytes text.new ≡ string_bytes text.old ++ quoted string.now) }
{
    if !is_all_unescaped(string) {
        let value = Value::try_from_str(alloc, string)?;
        let written = value_text(alloc, &value)?;
        return text.push_str(written.as_str());
    }
    text.push_str("\"")?;
    text.push_str(string)?;
    text.push_str("\"")?;
    Ok(())
}

/// The text of a string with its quotes.
pub fn quoted_text(alloc: Global, string: &str) -> Result<String, AllocError>
    ensures { IfOk result (λ text. string_bytes text ≡ quoted string.now) }
{
    let room = string.len().saturating_add(QUOTES);
    let mut text = String::with_capacity(alloc, room)?;
    put_string(&mut text, alloc, string)?;
    Ok(text)
}

/// Whether no byte of a string is escaped.
pub(crate) fn is_all_unescaped(string: &str) -> bool
    ensures { result ≡ list_all is_unescaped string.now }
{
    string.as_bytes().iter().all(|byte| is_unescaped(*byte))
}

/// Whether JSON lets a byte be in a string.
fn is_unescaped(byte: u8) -> bool
    ensures { result ≡ is_unescaped byte }
{
    byte >= b' ' && byte != b'"' && byte != b'\\'
}
