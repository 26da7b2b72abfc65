//! What the program does with its standard streams.
ghost use Rattle.std.specs.Prelude.{◌≡◌, [], ◌∷◌, IfSome, IfNone, None};
ghost use Rattle.streams.specs.Streams.{streams_of};
ghost use Rattle.sessions.specs.Known.{fresh};
ghost use Rattle.history_lock.specs.Names.{IsNamed};
ghost use Rattle.http_front.specs.Once.{ServesDatabase, ServesOnce, exit_status};
ghost use Rattle.http_front.specs.Opening.{program_config};

use crate::opening::{MAX_PLACES, NOT_OPENED, server_config};
use crate::running::Running;
use history_lock::{Closed, Opened};
use http_connection::{Cause, Ended};
use http_turns::serve;
use session_api::Viewer;
use std::marker::Brand;
use std::sync::Wait;
use std::time::Clock;
use streams::{Sink, Source};
use updater_state::Opening;

/// Nobody else changes the database, so a wait for changes looks once.
const TURNS: u64 = 1;

/// The exit status after a connection that ended so.
pub(crate) fn exit_status(cause: Cause) -> u8
    ensures { result ≡ exit_status cause }
{
    match cause {
        Cause::AtEnd | Cause::InRequest | Cause::Closed => 0,
        Cause::ReadFault | Cause::WriteFault | Cause::Memory => 1,
    }
}

/// Serves an empty database to one connection, and answers the exit status: 0, or 1 where a read
/// or a write failed, or where nothing was read since the database was not opened or memory was
/// refused.
pub fn run_once<R: Source, W: Sink, A: AllocGlobal + Wait + Clock>(
    reader: &mut R,
    writer: &mut W,
    rt: &A,
) -> u8
    ensures { ServesOnce None
        (streams_of (R.left reader.old) (R.failed_reads reader.old) (W.taken writer.old) (W.failed_writes writer.old))
        (streams_of (R.left reader.new) (R.failed_reads reader.new) (W.taken writer.new) (W.failed_writes writer.new))
        result }
{
    let Ok(opened) = Opened::new(rt.alloc(), server_config(1, MAX_PLACES)) else {
        return NOT_OPENED;
    };
    once_opened::<Brand, &A, R, W, A>(reader, writer, rt, rt, opened)
}

/// Serves a database of one session, and answers the exit status.
fn once_opened<J: Opening, T: Wait + Drop, R: Source, W: Sink, A: AllocGlobal + Wait + Clock>(
    reader: &mut R,
    writer: &mut W,
    rt: &A,
    writer_rt: T,
    opened: Opened,
) -> u8
    requires named { IsNamed J.book J.base J.table J.capacity J.sessions J.config opened }
    requires config { opened.config ≡ program_config }
    ensures { ServesOnce J.base
        (streams_of (R.left reader.old) (R.failed_reads reader.old) (W.taken writer.old) (W.failed_writes writer.old))
        (streams_of (R.left reader.new) (R.failed_reads reader.new) (W.taken writer.new) (W.failed_writes writer.new))
        result }
{
    let Some((ended, _closed)) = serve_one::<J, T, R, W, A>(reader, writer, rt, writer_rt, opened)
    else {
        return NOT_OPENED;
    };
    exit_status(ended.cause)
}

/// Serves a database of one session, whose writer keeps a runtime of its own, to one connection, and
/// closes it. Nothing where it was not opened, or memory for the routes was refused: then nothing was
/// read.
pub(crate) fn serve_one<
    J: Opening,
    T: Wait + Drop,
    R: Source,
    W: Sink,
    A: AllocGlobal + Wait + Clock,
>(
    reader: &mut R,
    writer: &mut W,
    rt: &A,
    writer_rt: T,
    opened: Opened,
) -> Option<(Ended, Closed<J>)>
    requires named { IsNamed J.book J.base J.table J.capacity J.sessions J.config opened }
    requires config { opened.config ≡ program_config }
    ensures served { IfSome result (λ served. ServesDatabase J.base program_config
        (streams_of (R.left reader.old) (R.failed_reads reader.old) (W.taken writer.old) (W.failed_writes writer.old))
        (streams_of (R.left reader.new) (R.failed_reads reader.new) (W.taken writer.new) (W.failed_writes writer.new))
        served.0 served.1) }
    ensures same_reader { IfNone result (reader.new ≡ reader.old) }
    ensures same_writer { IfNone result (writer.new ≡ writer.old) }
{
    let Some((running, mut sessions)) = Running::<T, J, A>::start(
        rt.alloc(),
        writer_rt,
        opened,
        rt,
        TURNS,
    ) else {
        return None;
    };
    let Some(mut session) = sessions.pop() else {
        return None;
    };
    let ended = serve(rt.alloc(), reader, writer, &mut session, &running.setting);
    let _recalled = session.place();
    sessions.push_reserved(session);
    Some((ended, running.end(sessions, rt)))
}
