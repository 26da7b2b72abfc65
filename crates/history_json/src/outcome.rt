//! What became of writes, as lines write it.
ghost use Rattle.std.specs.Prelude.{◌≡◌, ◌↔◌, ◌++◌, All, IsTrue, Some, IfSome, OnOk, string_bytes};
ghost use Rattle.serde_json.specs.Data.{string};
ghost use Rattle.serde_json.specs.Written.{compact_text};
ghost use Rattle.model.specs.Command.{FitsEdit, FitsMerge, FitsLocal};
ghost use Rattle.history_json.specs.Replies.{local_outcome_data, outcome_data, refusal_name};

use crate::line_value::LineValue;
use crate::names::read_rev;
use json_profile::Json;
use model::Refusal;
use revision_id::RevId;
use std::alloc::{AllocError, Global};

impl LineValue for Result<RevId, Refusal> {
    ghost data_of = { outcome_data };

    ghost is_within = { FitsEdit };

    fn put(&self, text: &mut String, alloc: Global) -> Result<(), AllocError> {
        match self {
            Ok(rev) => rev.put(text, alloc),
            Err(refusal) => put_refusal(text, *refusal),
        }
    }

    fn read(_alloc: Global, value: Json) -> Result<Option<Result<RevId, Refusal>>, AllocError> {
        let Some(text) = value.as_str() else {
            return Ok(None);
        };
        Ok(outcome_of(text))
    }
}

/// The outcome that a text says.
fn outcome_of(text: &str) -> Option<Result<RevId, Refusal>>
    ensures within { IfSome result FitsEdit }
    ensures found { (outcome : _) → FitsEdit outcome
        → string text.now ≡ outcome_data outcome → result ≡ Some outcome }
{
    if let Some(refusal) = refusal_named(text) {
        return Some(Err(refusal));
    }
    let rev = read_rev(text)?;
    Some(Ok(rev))
}

/// The name of a refusal in a line.
fn name_of(refusal: Refusal) -> &'static str
    ensures { result.now ≡ refusal_name refusal }
{
    match refusal {
        Refusal::Conflict => "E1",
        Refusal::BadHistory => "E2",
        Refusal::Missing => "E3",
        Refusal::Deleted => "E4",
        Refusal::GenerationLimit => "E5",
    }
}

/// The refusal of this name.
fn refusal_named(text: &str) -> Option<Refusal>
    ensures named { IfSome result (λ refusal. text.now ≡ refusal_name refusal) }
    ensures found { (refusal : _) → text.now ≡ refusal_name refusal → result ≡ Some refusal }
{
    match text {
        "E1" => Some(Refusal::Conflict),
        "E2" => Some(Refusal::BadHistory),
        "E3" => Some(Refusal::Missing),
        "E4" => Some(Refusal::Deleted),
        "E5" => Some(Refusal::GenerationLimit),
        _ => None,
    }
}

/// Writes a refusal.
fn put_refusal(text: &mut String, refusal: Refusal) -> Result<(), AllocError>
    ensures { OnOk result (string_bytes text.new ≡ string_bytes text.old ++ compact_text (string (refusal_name refusal))) }
{
    let name = name_of(refusal);
    write!(text, "\"{name}\"")
}

/// Whether no merge was refused for anything but its history.
pub(crate) fn are_merged(outcomes: &[Result<RevId, Refusal>]) -> bool
    requires { All FitsEdit outcomes.now }
    ensures { IsTrue result ↔ All FitsMerge outcomes.now }
{
    for outcome in outcomes {
        if !is_merged(outcome) {
            return false;
        }
    }
    true
}

/// Whether a merge can end so.
fn is_merged(outcome: &Result<RevId, Refusal>) -> bool
    requires { FitsEdit outcome.now }
    ensures { IsTrue result ↔ FitsMerge outcome.now }
{
    match outcome {
        Ok(_) => true,
        Err(refusal) => *refusal == Refusal::BadHistory,
    }
}

/// Writes what became of a write of a local document.
pub(crate) fn put_local_outcome(
    text: &mut String,
    outcome: Result<u32, Refusal>,
) -> Result<(), AllocError>
    ensures { OnOk result (string_bytes text.new ≡ string_bytes text.old ++ compact_text (local_outcome_data outcome)) }
{
    match outcome {
        Ok(counter) => write!(text, "{counter}"),
        Err(refusal) => put_refusal(text, refusal),
    }
}

/// What became of a write of a local document.
pub(crate) fn local_outcome_in(value: &Json) -> Option<Result<u32, Refusal>>
    ensures within { IfSome result FitsLocal }
    ensures found { (outcome : _) → FitsLocal outcome
        → value.now ≡ local_outcome_data outcome → result ≡ Some outcome }
{
    if let Some(number) = value.as_i64() {
        let counter = u32::try_from(number).ok()?;
        return Some(Ok(counter));
    }
    let refusal = refusal_named(value.as_str()?)?;
    if !refuses_locals(refusal) {
        return None;
    }
    Some(Err(refusal))
}

/// Whether a write of a local document can be refused so.
fn refuses_locals(refusal: Refusal) -> bool
    ensures { IsTrue result ↔ FitsLocal (Err refusal) }
{
    match refusal {
        Refusal::Conflict | Refusal::Missing | Refusal::GenerationLimit => true,
        Refusal::BadHistory | Refusal::Deleted => false,
    }
}
