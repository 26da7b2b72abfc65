//! The revisions that were asked for, as an answer writes them.
ghost use Rattle.std.specs.Prelude.{◌≡◌, false, length, IfOk, string_bytes};
ghost use Rattle.serde_json.specs.View.{view};
ghost use Rattle.serde_json.specs.Written.{compact_text, has_float};
ghost use Rattle.api_json.specs.Opened.{all_opened_data, found_data, missing_data, opened_data};

use crate::list::append_list;
use document_json::{document_len, document_text, list_len, rev_len, sum_len, value_text};
use queries::Document;
use revision_id::RevId;
use serde_json::{Value, json};
use std::alloc::{AllocError, Global};

/// What `{"ok":}` writes round a document.
const ROUND_FOUND: usize = 7;

/// What `{"missing":}` writes round a revision.
const ROUND_MISSING: usize = 12;

/// A revision as a document, or its name where it is missing.
pub fn opened_text(alloc: Global, opened: &Result<Document, RevId>) -> Result<String, AllocError>
    ensures { IfOk result (λ text. string_bytes text ≡ compact_text (opened_data opened.now)) }
{
    match opened {
        Ok(document) => found_text(alloc, document),
        Err(rev) => missing_text(alloc, rev),
    }
}

fn found_text(alloc: Global, document: &Document) -> Result<String, AllocError>
    ensures { IfOk result (λ text. string_bytes text ≡ compact_text (found_data document.now)) }
{
    let document = document_text(alloc, document)?;
    format!(in alloc; "{{\"ok\":{document}}}")
}

fn missing_text(alloc: Global, rev: &RevId) -> Result<String, AllocError>
    ensures { IfOk result (λ text. string_bytes text ≡ compact_text (missing_data rev.now)) }
{
    let missing = missing_value(alloc, rev)?;
    value_text(alloc, &missing)
}

fn missing_value(alloc: Global, rev: &RevId) -> Result<Value, AllocError>
    ensures value { IfOk result (λ value. view value ≡ missing_data rev.now) }
    ensures plain { IfOk result (λ value. has_float (view value) ≡ false) }
{
    let rev = rev.text(alloc)?;
    json!(in alloc; {"missing": rev.as_str()})
}

/// The revisions that were asked for.
pub fn all_opened_text(
    alloc: Global,
    opened: &[Result<Document, RevId>],
) -> Result<String, AllocError>
    ensures { IfOk result (λ text. string_bytes text ≡ compact_text (all_opened_data opened.now)) }
{
    append_list(String::new(alloc), opened, |one| opened_text(alloc, one))
}

/// The length of a revision as it is written where it was asked for.
///
/// # Errors
///
/// As [`all_opened_len`].
pub fn opened_len(alloc: Global, opened: &Result<Document, RevId>) -> Result<usize, AllocError>
    ensures { IfOk result (λ len. len ≡ length (compact_text (opened_data opened.now))) }
{
    match opened {
        Ok(document) => found_len(alloc, document),
        Err(rev) => Ok(missing_len(rev)),
    }
}

fn found_len(alloc: Global, document: &Document) -> Result<usize, AllocError>
    ensures { IfOk result (λ len. len ≡ length (compact_text (found_data document.now))) }
{
    let own = document_len(alloc, document)?;
    sum_len(own, ROUND_FOUND)
}

fn missing_len(rev: &RevId) -> usize
    ensures { result ≡ length (compact_text (missing_data rev.now)) }
{
    rev_len(rev) + ROUND_MISSING
}

/// The length of the text of the revisions that were asked for.
///
/// # Errors
///
/// Out of memory, or no memory can hold such a text.
pub fn all_opened_len(
    alloc: Global,
    opened: &[Result<Document, RevId>],
) -> Result<usize, AllocError>
    ensures { IfOk result (λ len. len ≡ length (compact_text (all_opened_data opened.now))) }
{
    list_len(opened, |one| opened_len(alloc, one))
}
