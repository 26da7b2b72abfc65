//! The whole input of a program.
ghost use Rattle.std.specs.Prelude.{◌≡◌, ℕ, ◌<◌, List, ◌++◌, Ok, true, false, IfOk};
ghost use Rattle.std.specs.Io.KnownBytes.{Consumes, IsAtEnd};
ghost use Rattle.replay_cli.specs.Input.{CountsReads};

use std::alloc::{AllocError, Global};
use streams::{Failed, Source};

/// How many bytes are asked for at a time.
const PIECE: usize = 16_384;

/// Why not all of the input was read.
#[derive(Clone, Copy, Debug, PartialEq, Eq)]
pub(crate) enum InputFault {
    /// Memory was refused.
    Memory,
    /// A read failed.
    Failed,
}

/// Reads all that comes.
pub(crate) fn read_all<R: Source>(alloc: Global, reader: &mut R) -> Result<Vec<u8>, InputFault>
    ensures text { IfOk result (λ text. Consumes (R.left reader.old) (R.left reader.new) text.items) }
    ensures end { IfOk result (λ _. IsAtEnd (R.left reader.new)) }
    ensures failures { CountsReads (R.failed_reads reader.old) (R.failed_reads reader.new) result }
{
    let mut text = Vec::new(alloc);
    while read_more(reader, &mut text)? {}
    Ok(text)
}

/// Reads once, behind what was read, and answers whether anything came: nothing only at the end.
fn read_more<R: Source>(reader: &mut R, text: &mut Vec<u8>) -> Result<bool, InputFault>
    ensures piece { IfOk result (λ _. (piece : List ℕ) × (text.new.items ≡ text.old.items ++ piece)
        × Consumes (R.left reader.old) (R.left reader.new) piece) }
    ensures end { result ≡ Ok false → IsAtEnd (R.left reader.new) }
    ensures budget { result ≡ Ok true → R.budget reader.new < R.budget reader.old }
    ensures failures { CountsReads (R.failed_reads reader.old) (R.failed_reads reader.new) result }
{
    let mut piece = [0; PIECE];
    let Ok(len) = reader.read(&mut piece) else {
        return Err(InputFault::Failed);
    };
    let Ok(()) = text.extend_from_slice(&piece[..len]) else {
        return Err(InputFault::Memory);
    };
    Ok(len > 0)
}
