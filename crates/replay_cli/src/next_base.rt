//! What the program does with its standard streams where the base of a next epoch is asked for.
ghost use Rattle.std.specs.Prelude.{◌≡◌, ◌⊎◌, ◌↔◌, ℕ, List, Ok, Err, IfOk};
ghost use Rattle.std.specs.Io.KnownBytes.{Consumes, IsAtEnd};
ghost use Rattle.streams.specs.Streams.{streams_of};
ghost use Rattle.streams.specs.Ends.{Ends};
ghost use Rattle.replay_cli.specs.Input.{CountsReads};
ghost use Rattle.replay_cli.specs.RunBase.{RunsBase, Given, given_status, given_text};
ghost use Rattle.replay_cli.specs.Successors.{IsFollowedBy};

use crate::input::{InputFault, read_all};
use crate::run::{FAILED, NO_MEMORY, tell};
use crate::successor::{NoSuccessor, line_after};
use std::alloc::Global;
use streams::{Sink, Source, end_with};

/// The exit status where a line was written.
const FOLLOWS: u8 = 0;

/// The exit status where a number is too large for a next epoch.
const NO_SUCCESSOR: u8 = 6;

/// Reads a dump to its end, writes the first line of the dump of the epoch that follows, with its update number raised by
/// [`RAISE`](crate::RAISE) or not, and answers the exit status: 0, or 6 where a number is too large for that. Where the dump
/// is not that of a legal history, and where memory was refused, or a read or a write failed, it does as
/// [`run_check`](crate::run_check).
pub fn run_base<R: Source, W: Sink, A: AllocGlobal>(
    reader: &mut R,
    writer: &mut W,
    rt: &A,
    is_raised: bool,
) -> u8
    ensures { RunsBase is_raised
        (streams_of (R.left reader.old) (R.failed_reads reader.old) (W.taken writer.old) (W.failed_writes writer.old))
        (streams_of (R.left reader.new) (R.failed_reads reader.new) (W.taken writer.new) (W.failed_writes writer.new))
        result }
{
    match follow_input(rt.alloc(), reader, is_raised) {
        Ok(Ok(line)) => end_with(writer, &line, FOLLOWS),
        Ok(Err(NoSuccessor::NumbersTooLarge)) => {
            end_with(writer, "no successor\n".as_bytes(), NO_SUCCESSOR)
        }
        Ok(Err(NoSuccessor::Judged(verdict))) => tell(rt.alloc(), writer, verdict),
        Err(InputFault::Memory) => end_with(writer, "no memory\n".as_bytes(), NO_MEMORY),
        Err(InputFault::Failed) => FAILED,
    }
}

/// What follows all of the input.
fn follow_input<R: Source>(
    alloc: Global,
    reader: &mut R,
    is_raised: bool,
) -> Result<Result<Vec<u8>, NoSuccessor>, InputFault>
    ensures found { IfOk result (λ found. (text : List ℕ)
        × Consumes (R.left reader.old) (R.left reader.new) text × IsFollowedBy is_raised text found) }
    ensures end { IfOk result (λ _. IsAtEnd (R.left reader.new)) }
    ensures failures { CountsReads (R.failed_reads reader.old) (R.failed_reads reader.new) result }
{
    let text = read_all(alloc, reader)?;
    let Ok(found) = line_after(alloc, &text, is_raised) else {
        return Err(InputFault::Memory);
    };
    Ok(found)
}
