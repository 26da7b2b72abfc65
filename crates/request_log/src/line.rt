//! The line of a request.
ghost use Rattle.std.specs.Prelude.{◌≡◌, ◌++◌, IfOk, OnOk, string_bytes, decimal};
ghost use Rattle.percent_encoding.specs.Percent.{percent_encode};
ghost use Rattle.request_log.specs.Line.{line_text, IsOneLine};
ghost use Rattle.request_log.specs.Written.{written};

use itoa::Buffer;
use percent_encoding::{AsciiSet, CONTROLS, ascii_set, percent_encode};
use std::alloc::{AllocError, Global};

/// What is escaped in a field, beside all bytes that are not ASCII: whatever could end the field or the
/// line.
const UNSAFE: AsciiSet = ascii_set!(CONTROLS.add(b' '));

/// A request, and how it was answered.
#[derive(Clone, Copy, Debug)]
pub struct Line<'a> {
    /// When that was, in UTC.
    pub time: &'a str,
    /// The number of the worker, from 1.
    pub worker: u64,
    /// The method, as it was sent.
    pub method: &'a [u8],
    /// The target, as it was sent.
    pub target: &'a [u8],
    /// The status.
    pub status: u64,
    /// The place that the response speaks of.
    pub place: u64,
    /// How many bytes of the response were written, head and body.
    pub bytes: u64,
    /// How many microseconds it took, from the whole request to the last byte that was written.
    pub microseconds: u64,
}

/// The fields in this order with a space between, and the end of a line. In the texts among them each
/// byte that is a space, a control or not ASCII is escaped as in a URL, so no request makes a field more, or
/// a line.
pub fn line_text(alloc: Global, line: Line<'_>) -> Result<String, AllocError>
    ensures text { IfOk result (λ text. string_bytes text ≡ line_text UNSAFE (written line.entry)) }
    ensures one_line { IfOk result (λ text. IsOneLine (string_bytes text)) }
{
    let mut text = String::new(alloc);
    push_text(&mut text, line.time.as_bytes(), " ")?;
    push_number(&mut text, line.worker, " ")?;
    push_text(&mut text, line.method, " ")?;
    push_text(&mut text, line.target, " ")?;
    push_number(&mut text, line.status, " ")?;
    push_number(&mut text, line.place, " ")?;
    push_number(&mut text, line.bytes, " ")?;
    push_number(&mut text, line.microseconds, "\n")?;
    Ok(text)
}

/// Writes a text as a field, and what is behind it.
fn push_text(line: &mut String, bytes: &[u8], behind: &str) -> Result<(), AllocError>
    ensures { OnOk result (string_bytes line.new
        ≡ string_bytes line.old ++ (percent_encode UNSAFE bytes.now ++ behind.now)) }
{
    percent_encode(bytes, UNSAFE).append_to(line)?;
    line.push_str(behind)
}

/// Writes a number as a field, and what is behind it.
fn push_number(line: &mut String, number: u64, behind: &str) -> Result<(), AllocError>
    ensures { OnOk result (string_bytes line.new ≡ string_bytes line.old ++ (decimal number ++ behind.now)) }
{
    let mut digits = Buffer::new();
    line.push_str(digits.format(number))?;
    line.push_str(behind)
}
