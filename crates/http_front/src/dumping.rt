//! What the program does with its standard streams where the history is asked for.
ghost use Rattle.std.specs.Prelude.{◌≡◌, None};
ghost use Rattle.streams.specs.Streams.{streams_of};
ghost use Rattle.history_lock.specs.Names.{IsNamed};
ghost use Rattle.http_front.specs.Opening.{program_config};
ghost use Rattle.http_front.specs.Dumping.{DumpsOnce, WritesDump};

use crate::dumps::dump;
use crate::nowhere::Nowhere;
use crate::once::{exit_status, serve_one};
use crate::opening::{MAX_PLACES, NOT_OPENED, server_config};
use history_lock::{Closed, Opened};
use std::alloc::Global;
use std::marker::Brand;
use std::sync::Wait;
use std::time::Clock;
use streams::{Sink, Source, end_with};
use updater_state::Opening;

/// The exit status where memory for the dump was refused.
const NO_MEMORY: u8 = 1;

/// Serves an empty database to one connection whose responses nobody reads, writes the dump of its
/// history at the end, and answers the exit status: 0, or 1 where a read or a write failed, or where
/// the database was not opened or memory was refused.
pub fn run_dump<R: Source, W: Sink, A: AllocGlobal + Wait + Clock>(
    reader: &mut R,
    writer: &mut W,
    rt: &A,
) -> u8
    ensures { DumpsOnce None
        (streams_of (R.left reader.old) (R.failed_reads reader.old) (W.taken writer.old) (W.failed_writes writer.old))
        (streams_of (R.left reader.new) (R.failed_reads reader.new) (W.taken writer.new) (W.failed_writes writer.new))
        result }
{
    let Ok(opened) = Opened::new(rt.alloc(), server_config(1, MAX_PLACES)) else {
        return NOT_OPENED;
    };
    dump_opened::<Brand, &A, R, W, A>(reader, writer, rt, rt, opened)
}

/// Serves a database of one session, writes its dump, and answers the exit status.
fn dump_opened<J: Opening, T: Wait + Drop, R: Source, W: Sink, A: AllocGlobal + Wait + Clock>(
    reader: &mut R,
    writer: &mut W,
    rt: &A,
    writer_rt: T,
    opened: Opened,
) -> u8
    requires named { IsNamed J.book J.base J.table J.capacity J.sessions J.config opened }
    requires config { opened.config ≡ program_config }
    ensures { DumpsOnce J.base
        (streams_of (R.left reader.old) (R.failed_reads reader.old) (W.taken writer.old) (W.failed_writes writer.old))
        (streams_of (R.left reader.new) (R.failed_reads reader.new) (W.taken writer.new) (W.failed_writes writer.new))
        result }
{
    let mut nowhere = Nowhere;
    let Some((ended, closed)) = serve_one::<J, T, R, Nowhere, A>(
        reader,
        &mut nowhere,
        rt,
        writer_rt,
        opened,
    ) else {
        return NOT_OPENED;
    };
    write_dump(rt.alloc(), writer, &closed, exit_status(ended.cause))
}

/// Writes the dump of what is left, and answers this status, or that of a failure.
fn write_dump<J: Opening, W: Sink>(
    alloc: Global,
    writer: &mut W,
    closed: &Closed<J>,
    status: u8,
) -> u8
    ensures { WritesDump (W.taken writer.old) (W.taken writer.new) (W.failed_writes writer.old)
        (W.failed_writes writer.new) (record { base = J.base; entries = closed.now.history }) status result }
{
    let Ok(text) = dump(alloc, closed) else {
        return NO_MEMORY;
    };
    end_with(writer, &text, status)
}
