//! What became of the writes of a bulk.
ghost use Rattle.std.specs.Prelude.{◌≡◌, ◌++◌, ℕ, List, [], ◌∷◌, false, IfOk, OnOk, string_bytes};
ghost use Rattle.serde_json.specs.Data.{Data, array};
ghost use Rattle.serde_json.specs.View.{items_of, view};
ghost use Rattle.serde_json.specs.Written.{compact_text, has_float};
ghost use Rattle.api_json.specs.Bulk.{edits_data, merges_data, outcome_data, problem_data, refusals_of, refused_data};
ghost use Rattle.api_json.specs.List.{IsListAfter};

use crate::list::ListText;
use crate::refusal::{error_of, reason_of};
use crate::reply::written_text;
use commands::{Edit, Merge};
use document_id::DocId;
use document_json::value_text;
use model::Refusal;
use revision_id::RevId;
use serde_json::{Value, json};
use std::alloc::{AllocError, Global};

/// The list of what became of each edit.
pub fn edits_text(
    alloc: Global,
    edits: &[Edit],
    outcomes: &[Result<RevId, Refusal>],
) -> Result<String, AllocError>
    ensures { IfOk result (λ text. string_bytes text
        ≡ compact_text (array (items_of (edits_data edits.now outcomes.now)))) }
{
    let mut list = ListText::after(String::new(alloc))?;
    for (edit, outcome) in edits.iter().zip(outcomes) {
        push_outcome(&mut list, alloc, &edit.id, outcome)?;
    }
    list.finish()
}

fn push_outcome(
    list: &mut ListText,
    alloc: Global,
    id: &DocId,
    outcome: &Result<RevId, Refusal>,
) -> Result<(), AllocError>
    ensures { OnOk result ((before : List ℕ) (items : List Data)
        → IsListAfter before list.old items
        → IsListAfter before list.new (items ++ outcome_data id.now outcome.now ∷ [])) }
{
    let item = outcome_text(alloc, id, outcome)?;
    list.push_text(item.as_str())?;
    Ok(())
}

fn outcome_text(
    alloc: Global,
    id: &DocId,
    outcome: &Result<RevId, Refusal>,
) -> Result<String, AllocError>
    ensures { IfOk result (λ text. string_bytes text ≡ compact_text (outcome_data id.now outcome.now)) }
{
    match outcome {
        Ok(rev) => written_text(alloc, id, rev),
        Err(refusal) => refused_text(alloc, id, *refusal),
    }
}

fn refused_text(alloc: Global, id: &DocId, refusal: Refusal) -> Result<String, AllocError>
    ensures { IfOk result (λ text. string_bytes text ≡ compact_text (refused_data id.now refusal)) }
{
    let refused = refused_value(alloc, id, refusal)?;
    value_text(alloc, &refused)
}

fn refused_value(alloc: Global, id: &DocId, refusal: Refusal) -> Result<Value, AllocError>
    ensures value { IfOk result (λ value. view value ≡ refused_data id.now refusal) }
    ensures plain { IfOk result (λ value. has_float (view value) ≡ false) }
{
    problem_value(alloc, error_of(refusal), id.as_str(), reason_of(refusal))
}

fn problem_value(alloc: Global, error: &str, id: &str, reason: &str) -> Result<Value, AllocError>
    ensures value { IfOk result (λ value. view value ≡ problem_data error.now id.now reason.now) }
    ensures plain { IfOk result (λ value. has_float (view value) ≡ false) }
{
    json!(in alloc; {"error": error, "id": id, "reason": reason})
}

/// The list of the merges that were refused.
pub fn merges_text(
    alloc: Global,
    merges: &[Merge],
    outcomes: &[Result<RevId, Refusal>],
) -> Result<String, AllocError>
    ensures { IfOk result (λ text. string_bytes text
        ≡ compact_text (array (items_of (merges_data merges.now outcomes.now)))) }
{
    let mut list = ListText::after(String::new(alloc))?;
    for (merge, outcome) in merges.iter().zip(outcomes) {
        push_refusal(&mut list, alloc, merge.id(), outcome)?;
    }
    list.finish()
}

/// Writes a refusal, and nothing of a write that was taken.
fn push_refusal(
    list: &mut ListText,
    alloc: Global,
    id: &DocId,
    outcome: &Result<RevId, Refusal>,
) -> Result<(), AllocError>
    ensures { OnOk result ((before : List ℕ) (items : List Data)
        → IsListAfter before list.old items
        → IsListAfter before list.new (items ++ refusals_of id.now outcome.now)) }
{
    let Err(refusal) = outcome else {
        return Ok(());
    };
    let item = refused_text(alloc, id, *refusal)?;
    list.push_text(item.as_str())?;
    Ok(())
}
