//! The documents of a base, as its text writes them.
ghost use Rattle.std.specs.Prelude.{◌≡◌, ◌++◌, List, All, map, option_map, Some, IfOk, OnOk, string_bytes};
ghost use Rattle.serde_json.specs.Data.{array, number, string, unsigned};
ghost use Rattle.serde_json.specs.View.{items_of};
ghost use Rattle.serde_json.specs.Written.{compact_text};
ghost use Rattle.model.specs.Command.{Id};
ghost use Rattle.model.specs.Database as model;
ghost use Rattle.model.specs.Map.{entries};
ghost use Rattle.base_json.specs.Base.{IsStored, record_data, tree_data};

use crate::each::ListItem;
use crate::revisions::{put_tree, read_tree};
use document_id::DocId;
use document_json::put_comma;
use history_json::{LineValue, number_in};
use json_profile::Json;
use snapshots::{Record, Records};
use std::alloc::{AllocError, Global};

/// Writes the documents in the order of their ids.
pub(crate) fn put_documents(
    text: &mut String,
    alloc: Global,
    documents: &Records,
) -> Result<(), AllocError>
    ensures { OnOk result (string_bytes text.new ≡ string_bytes text.old
        ++ compact_text (array (items_of (map record_data (entries documents.now.docs))))) }
{
    text.push_str("[")?;
    let mut later = false;
    for (id, stored) in documents.iter() {
        put_comma(text, later)?;
        put_document(text, alloc, id, stored.get())?;
        later = true;
    }
    text.push_str("]")
}

/// Writes one document.
fn put_document(
    text: &mut String,
    alloc: Global,
    id: &DocId,
    stored: &Record,
) -> Result<(), AllocError>
    ensures { OnOk result (string_bytes text.new
        ≡ string_bytes text.old ++ compact_text (record_data (id.now, stored.now))) }
{
    let seq = stored.seq();
    text.push_str("{\"id\":")?;
    id.put(text, alloc)?;
    text.push_str(",\"revs\":")?;
    put_tree(text, alloc, stored.tree())?;
    write!(text, ",\"seq\":{seq}}}")
}

impl ListItem for (DocId, Record) {
    ghost Shown = { Id × model.Record };

    ghost shown = { λ document. document };

    ghost data_of = { record_data };

    ghost is_within = { IsStored };

    fn read_item(alloc: Global, value: Json) -> Result<Option<(DocId, Record)>, AllocError> {
        let Some(mut members) = value.into_object() else {
            return Ok(None);
        };
        let Some(id) = members.take("id") else {
            return Ok(None);
        };
        let Some(tree) = members.take("revs") else {
            return Ok(None);
        };
        let Some(seq) = members.take("seq") else {
            return Ok(None);
        };
        document_of(alloc, id, tree, &seq)
    }
}

/// The document of these values.
fn document_of(
    alloc: Global,
    id: Json,
    tree: Json,
    seq: &Json,
) -> Result<Option<(DocId, Record)>, AllocError>
    ensures { IfOk result (λ found. (document : Id × model.Record) → IsStored document → id ≡ string document.0
        → tree ≡ tree_data document.1.tree → seq.now ≡ number (unsigned document.1.seq) → found ≡ Some document) }
{
    let Some(seq) = number_in(seq) else {
        return Ok(None);
    };
    let Some(id) = DocId::read(alloc, id)? else {
        return Ok(None);
    };
    let Some(tree) = read_tree(alloc, tree)? else {
        return Ok(None);
    };
    Ok(Some((id, Record::new(tree, seq))))
}
