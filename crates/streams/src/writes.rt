//! Writing to a sink.
ghost use Rattle.std.specs.Prelude.{◌≡◌, ◌++◌, ◌+◌, ◌≤◌, length};
ghost use Rattle.streams.specs.Writes.{Writes};
ghost use Rattle.streams.specs.Counts.{CountsFailure};

use crate::traits::{Failed, Sink};
use arrayvec::ArrayString;

/// Room for a short response, whose copy costs less than a second write.
const JOINED_ROOM: usize = 1024;

/// Writes all the bytes.
///
/// # Errors
///
/// A write failed. A beginning of the bytes, not all, may have been written.
pub fn write_all<W: Sink>(writer: &mut W, bytes: &[u8]) -> Result<(), Failed>
    ensures written { Writes (W.taken writer.old) (W.taken writer.new) result bytes.now }
    ensures failures { CountsFailure (W.failed_writes writer.old)
        (W.failed_writes writer.new) result }
{
    let mut at = 0;
    while at < bytes.len() {
        at += writer.write(&bytes[at..])?;
    }
    Ok(())
}

/// Writes all the bytes as a next text.
///
/// # Errors
///
/// A write failed. A beginning of the bytes, not all, may have been written.
pub fn write_next<W: Sink>(writer: &mut W, bytes: &[u8]) -> Result<(), Failed>
    ensures written { Writes (W.taken writer.old) (W.taken writer.new) result bytes.now }
    ensures failures { CountsFailure (W.failed_writes writer.old)
        (W.failed_writes writer.new) result }
{
    writer.begins();
    write_all(writer, bytes)
}

/// Writes a head and what is behind it as one text: in one write where both are short, as most
/// responses are.
///
/// # Errors
///
/// A write failed. A beginning of the text, not all, may have been written.
pub fn write_both<W: Sink>(writer: &mut W, head: &str, body: &str) -> Result<(), Failed>
    ensures written { Writes (W.taken writer.old) (W.taken writer.new) result
        (head.now ++ body.now) }
    ensures failures { CountsFailure (W.failed_writes writer.old)
        (W.failed_writes writer.new) result }
{
    if head.len().saturating_add(body.len()) > JOINED_ROOM {
        return write_apart(writer, head.as_bytes(), body.as_bytes());
    }
    write_joined(writer, head, body)
}

/// Writes both as one text, for which there is room.
fn write_joined<W: Sink>(writer: &mut W, head: &str, body: &str) -> Result<(), Failed>
    requires { length head.now + length body.now ≤ 1024 }
    ensures written { Writes (W.taken writer.old) (W.taken writer.new) result
        (head.now ++ body.now) }
    ensures failures { CountsFailure (W.failed_writes writer.old)
        (W.failed_writes writer.new) result }
{
    let mut text = ArrayString::<JOINED_ROOM>::new();
    text.push_str(head);
    text.push_str(body);
    write_all(writer, text.as_str().as_bytes())
}

/// Writes a head, and then what is behind it.
fn write_apart<W: Sink>(writer: &mut W, head: &[u8], body: &[u8]) -> Result<(), Failed>
    ensures written { Writes (W.taken writer.old) (W.taken writer.new) result
        (head.now ++ body.now) }
    ensures failures { CountsFailure (W.failed_writes writer.old)
        (W.failed_writes writer.new) result }
{
    write_all(writer, head)?;
    write_all(writer, body)
}
