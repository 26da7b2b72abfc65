//! A list that is written in pieces.
ghost use Rattle.std.specs.Prelude.{◌≡◌, ◌++◌, ℕ, List, map, IfOk, OnOk, string_bytes};
ghost use Rattle.serde_json.specs.Data.{Data, array};
ghost use Rattle.serde_json.specs.View.{items_of};
ghost use Rattle.serde_json.specs.Written.{comma_if, compact_text};
ghost use Rattle.streams.specs.Counts.{CountsFailure};
ghost use Rattle.streams.specs.Writes.{Writes};
ghost use Rattle.http_response.specs.Pieces.{CountsCut, Keeps};

use crate::pieces::{Cut, PIECE};
use document_json::put_comma;
use std::alloc::AllocError;
use streams::{Failed, Sink, write_all};

/// Room for the comma before an item, and for the bracket and what comes after the last.
const MARKS: usize = 64;

/// Writes a list, and a text after it, behind what is in the first piece: of each item the text that stands for it, which is
/// made then.
///
/// # Errors
///
/// A write failed, or an item's text was refused memory.
pub(crate) fn write_list<W: Sink, X, F: Fn(&X) -> Result<String, AllocError> + Drop>(
    writer: &mut W,
    first: String,
    items: &[X],
    after: &str,
    item_text: F,
) -> Result<(), Cut>
    requires callable { F.IsAlwaysCallable item_text }
    ensures written { (of : X → Data)
        → ((item : _) (told : _) → F.post item_text item told
        → IfOk told (λ t. string_bytes t ≡ compact_text (of item.now)))
        → Writes (W.taken writer.old) (W.taken writer.new) result
        (string_bytes first ++ (compact_text (array (items_of (map of items.now))) ++ after.now)) }
    ensures failures { CountsCut (W.failed_writes writer.old) (W.failed_writes writer.new) result }
{
    let mut piece = first;
    piece.push_str("[")?;
    let mut later = false;
    for item in items {
        let text = item_text(item)?;
        make_room(writer, &mut piece, text.len())?;
        put_item(&mut piece, text.as_str(), later)?;
        later = true;
    }
    piece.push_str("]")?;
    piece.push_str(after)?;
    write_all(writer, piece.as_bytes())?;
    Ok(())
}

/// Writes what is kept, unless an item of so many bytes fits behind it.
fn make_room<W: Sink>(writer: &mut W, piece: &mut String, item: usize) -> Result<(), Failed>
    ensures kept { (kept : List ℕ) × Keeps (W.taken writer.old) (W.taken writer.new) kept (string_bytes piece.old)
        × OnOk result (string_bytes piece.new ≡ kept) }
    ensures failures { CountsFailure (W.failed_writes writer.old) (W.failed_writes writer.new) result }
{
    let len = piece.len().saturating_add(item);
    if len <= PIECE - MARKS {
        return Ok(());
    }
    write_all(writer, piece.as_bytes())?;
    piece.clear();
    Ok(())
}

/// Puts one more item behind what is kept, with a comma where something comes before it.
fn put_item(piece: &mut String, item: &str, later: bool) -> Result<(), AllocError>
    ensures { OnOk result (string_bytes piece.new ≡ (string_bytes piece.old ++ comma_if later) ++ item.now) }
{
    put_comma(piece, later)?;
    piece.push_str(item)
}
