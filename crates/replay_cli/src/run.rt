//! What the program does with its standard streams.
ghost use Rattle.std.specs.Prelude.{◌≡◌, ◌⊎◌, ℕ, List, IfOk};
ghost use Rattle.std.specs.Io.KnownBytes.{Consumes, IsAtEnd};
ghost use Rattle.streams.specs.Streams.{streams_of};
ghost use Rattle.streams.specs.Ends.{Ends};
ghost use Rattle.replay_cli.specs.Verdicts.{IsVerdict};
ghost use Rattle.replay_cli.specs.Input.{CountsReads};
ghost use Rattle.replay_cli.specs.Run.{RunsCheck, Told, Judged, NoMemory, told_status, told_text, verdict_status};

use crate::audit::check;
use crate::input::{InputFault, read_all};
use crate::verdict::Verdict;
use std::alloc::Global;
use streams::{Sink, Source, end_with};

/// The exit status where a read failed.
pub(crate) const FAILED: u8 = 1;

/// The exit status where memory was refused.
pub(crate) const NO_MEMORY: u8 = 4;

/// Reads a dump to its end, writes one line that reports what it is, and answers the exit status: 0
/// for a legal history, 2 for a wrong entry, 3 for an unreadable line, 4 where memory was refused,
/// and 1 where a read or a write failed.
pub fn run_check<R: Source, W: Sink, A: AllocGlobal>(reader: &mut R, writer: &mut W, rt: &A) -> u8
    ensures { RunsCheck
        (streams_of (R.left reader.old) (R.failed_reads reader.old) (W.taken writer.old) (W.failed_writes writer.old))
        (streams_of (R.left reader.new) (R.failed_reads reader.new) (W.taken writer.new) (W.failed_writes writer.new))
        result }
{
    match check_input(rt.alloc(), reader) {
        Ok(verdict) => tell(rt.alloc(), writer, verdict),
        Err(InputFault::Memory) => end_with(writer, "no memory\n".as_bytes(), NO_MEMORY),
        Err(InputFault::Failed) => FAILED,
    }
}

/// The verdict on all of the input.
fn check_input<R: Source>(alloc: Global, reader: &mut R) -> Result<Verdict, InputFault>
    ensures verdict { IfOk result (λ verdict. (text : List ℕ)
        × Consumes (R.left reader.old) (R.left reader.new) text × IsVerdict text verdict) }
    ensures end { IfOk result (λ _. IsAtEnd (R.left reader.new)) }
    ensures failures { CountsReads (R.failed_reads reader.old) (R.failed_reads reader.new) result }
{
    let text = read_all(alloc, reader)?;
    let Ok(verdict) = check(alloc, &text) else {
        return Err(InputFault::Memory);
    };
    Ok(verdict)
}

/// Writes the line of a verdict, and answers the status.
pub(crate) fn tell<W: Sink>(alloc: Global, writer: &mut W, verdict: Verdict) -> u8
    ensures { (told : Told) × ((told ≡ Judged verdict) ⊎ (told ≡ NoMemory))
        × Ends (W.taken writer.old) (W.taken writer.new) (W.failed_writes writer.old)
        (W.failed_writes writer.new) (told_text told) (told_status told) result }
{
    let Ok(line) = format!(in alloc; "{verdict}\n") else {
        return end_with(writer, "no memory\n".as_bytes(), NO_MEMORY);
    };
    end_with(writer, line.as_bytes(), exit_status(verdict))
}

/// The status of a verdict that was reported.
fn exit_status(verdict: Verdict) -> u8
    ensures { result ≡ verdict_status verdict }
{
    match verdict {
        Verdict::Legal(_) => 0,
        Verdict::WrongAt(_) => 2,
        Verdict::UnreadableLine(_) => 3,
    }
}
