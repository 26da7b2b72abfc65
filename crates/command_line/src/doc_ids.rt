//! Lists of documents in arguments.
ghost use Rattle.std.specs.Prelude.{◌≡◌, IfOk, option_map, string_bytes};
ghost use Rattle.command_line.specs.DocIds.{has_id_length, id_of};

use percent_encoding::{DecodeError, percent_decode};
use std::alloc::{AllocError, Global};

/// The most bytes of an id.
const MAX_ID: usize = 512;

/// The id that a part of a list stands for; nothing where it stands for none.
pub(crate) fn id_of(alloc: Global, part: &str) -> Result<Option<String>, AllocError>
    ensures { IfOk result (λ id. option_map string_bytes id ≡ id_of part.now) }
{
    let text = match percent_decode(part.as_bytes()).decode_utf8(alloc) {
        Ok(text) => text,
        Err(DecodeError::Utf8(_)) => return Ok(None),
        Err(DecodeError::OutOfMemory) => return Err(AllocError),
    };
    if !has_id_length(text.as_str()) {
        return Ok(None);
    }
    Ok(Some(String::from_str(alloc, text.as_str())?))
}

/// Whether a text has as many bytes as an id.
fn has_id_length(text: &str) -> bool
    ensures { result ≡ has_id_length text.now }
{
    !text.is_empty() && text.len() <= MAX_ID
}
