//! How a program's output ends.
ghost use Rattle.streams.specs.Ends.{Ends};

use crate::traits::{Failed, Sink};
use crate::writes::write_all;

/// The exit status where the write failed.
const FAILED: u8 = 1;

/// Writes what a program reports at its end, and answers this status, or 1 where the write failed.
pub fn end_with<W: Sink>(writer: &mut W, text: &[u8], status: u8) -> u8
    ensures { Ends (W.taken writer.old) (W.taken writer.new) (W.failed_writes writer.old)
        (W.failed_writes writer.new) text.now status result }
{
    match write_all(writer, text) {
        Ok(()) => status,
        Err(Failed) => FAILED,
    }
}
