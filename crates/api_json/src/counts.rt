//! How much the database holds, as an answer writes it.
ghost use Rattle.std.specs.Prelude.{◌≡◌, IfOk, string_bytes};
ghost use Rattle.serde_json.specs.View.{view};
ghost use Rattle.serde_json.specs.Written.{compact_text};
ghost use Rattle.api_json.specs.Counts.{counts_data};

use document_json::value_text;
use queries::Counts;
use serde_json::{Value, json};
use std::alloc::{AllocError, Global};

fn counts_value(alloc: Global, counts: &Counts) -> Result<Value, AllocError>
    ensures { IfOk result (λ value. view value ≡ counts_data counts.now) }
{
    json!(in alloc; {
        "db_name": "db",
        "doc_count": counts.doc_count,
        "doc_del_count": counts.doc_del_count,
        "purge_seq": counts.purge_seq,
        "update_seq": counts.update_seq,
    })
}

/// How much the database holds.
pub fn counts_text(alloc: Global, counts: &Counts) -> Result<String, AllocError>
    ensures { IfOk result (λ text. string_bytes text ≡ compact_text (counts_data counts.now)) }
{
    let value = counts_value(alloc, counts)?;
    value_text(alloc, &value)
}
