//! The segments of a path.
ghost use Rattle.std.specs.Prelude.{◌≡◌, ◌≢◌, Some, None, Err, IfOk, IsOkAnd, All};
ghost use Rattle.std.specs.Cow.{cow_str_bytes};
ghost use Rattle.percent_encoding.specs.Cow.{IsBorrowedStr};
ghost use Rattle.percent_encoding.specs.Percent.{percent_sign};
ghost use Rattle.http_routing.specs.Target.{segment_text};

use percent_encoding::{DecodeError, percent_decode};
use std::alloc::{AllocError, Global};
use std::borrow::CowStr;

/// Why a segment gives no text.
#[derive(Clone, Copy, Debug, PartialEq, Eq)]
pub enum SegmentFault {
    /// Memory was refused.
    Memory,
    /// The decoded bytes are not UTF-8.
    NotText,
}

/// The text that a path segment stands for. One without escapes is lent, and takes no memory.
pub fn decode_segment(alloc: Global, segment: &str) -> Result<CowStr<'_>, SegmentFault>
    ensures ok { IfOk result (λ text. segment_text segment.now ≡ Some (cow_str_bytes text)) }
    ensures lent { All (λ byte. byte ≢ percent_sign) segment.now → IsOkAnd result IsBorrowedStr }
    ensures not_text { result ≡ Err SegmentFault.NotText → segment_text segment.now ≡ None }
{
    match percent_decode(segment.as_bytes()).decode_utf8(alloc) {
        Ok(text) => Ok(text),
        Err(DecodeError::Utf8(_)) => Err(SegmentFault::NotText),
        Err(DecodeError::OutOfMemory) => Err(SegmentFault::Memory),
    }
}
