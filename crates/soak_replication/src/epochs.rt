//! Replications over the end of a history: one end is closed, and goes on as its successor.
ghost use Rattle.history_lock.specs.Names.{IsNamed};

use crate::databases::{config, new_database, session_of};
use crate::end::End;
use crate::stage::{Stage, tell_stage};
use history_lock::{Closed, Opened, open};
use session_api::Replica;
use session_calls::{SeesVersion, SharedSession};
use session_peer::SessionPeer;
use std::alloc::AllocError;
use std::io;
use std::marker::Brand;
use std::sync::Wait;
use std::time::Clock;
use updater_state::{NoGate, Opening};

/// The end that is closed. The other one stays open.
#[derive(Clone, Copy)]
enum Side {
    Source,
    Target,
}

/// Goes through a case for each end, and prints it.
pub(crate) fn tell_epochs<R: Wait + Clock + Print + AllocGlobal + Drop>(rt: &R) -> io::Result<()> {
    println!(rt; "the source goes on after the end of its history:")?;
    tell_side(rt, Side::Source)?;
    println!(rt; "the target goes on after the end of its history:")?;
    tell_side(rt, Side::Target)
}

fn tell_side<R: Wait + Clock + Print + AllocGlobal + Drop>(rt: &R, side: Side) -> io::Result<()> {
    let stays = new_database(rt.alloc())?;
    tell_beside::<Brand, &R, R>(rt, rt, side, stays)
}

/// Goes through a case with this database, which keeps a runtime of its own, as the end that stays open.
fn tell_beside<J: Opening, T: Wait + Drop, R: Wait + Clock + Print + AllocGlobal + Drop>(
    rt: &R,
    database_rt: T,
    side: Side,
    opened: Opened,
) -> io::Result<()>
    requires named { IsNamed J.book J.base J.table J.capacity J.sessions J.config opened }
{
    let session = session_of::<J, T>(database_rt, opened)?;
    tell_staying(rt, side, session)
}

/// Goes through a case with this session as the end that stays open.
fn tell_staying<R: Wait + Clock + Print + AllocGlobal + Drop, S: Replica<R> + SeesVersion + Drop>(
    rt: &R,
    side: Side,
    session: S,
) -> io::Result<()> {
    let first = new_database(rt.alloc())?;
    tell_first::<Brand, &R, R, _>(rt, rt, side, first, SessionPeer::new(session, rt))
}

/// Goes through both stages, the first with this database and the second with its successor. Each keeps a
/// runtime of its own.
fn tell_first<
    J: Opening,
    T: Wait + Drop,
    R: Wait + Clock + Print + AllocGlobal + Drop,
    P: End + Drop,
>(rt: &R, database_rt: T, side: Side, opened: Opened, stays: P) -> io::Result<()>
    requires named { IsNamed J.book J.base J.table J.capacity J.sessions J.config opened }
{
    let (closed, stays) = epoch::<J, T, R, P>(rt, database_rt, side, Stage::First, opened, stays)?;
    let next = Opened::after(rt.alloc(), config(), &closed)
        .ok()
        .ok_or(AllocError)?;
    tell_next::<Brand, &R, R, P>(rt, rt, side, next, stays)
}

/// Goes through the second stage with this database, which keeps a runtime of its own.
fn tell_next<
    J: Opening,
    T: Wait + Drop,
    R: Wait + Clock + Print + AllocGlobal + Drop,
    P: End + Drop,
>(rt: &R, database_rt: T, side: Side, opened: Opened, stays: P) -> io::Result<()>
    requires named { IsNamed J.book J.base J.table J.capacity J.sessions J.config opened }
{
    let _ended = epoch::<J, T, R, P>(rt, database_rt, side, Stage::Next, opened, stays)?;
    Ok(())
}

/// Goes through a stage with this database, which keeps a runtime of its own, and closes it. Its session
/// is dropped before. The end that stays open comes back.
fn epoch<J: Opening, T: Wait + Drop, R: Wait + Clock + Print + AllocGlobal + Drop, P: End + Drop>(
    rt: &R,
    database_rt: T,
    side: Side,
    stage: Stage,
    opened: Opened,
    stays: P,
) -> io::Result<(Closed<J>, P)>
    requires named { IsNamed J.book J.base J.table J.capacity J.sessions J.config opened }
{
    let Ok((master, mut sessions)) = open::<T, J, NoGate>(database_rt, opened, NoGate) else {
        return Err(AllocError.into());
    };
    let session = sessions.pop().ok_or(AllocError)?;
    let stays = tell_ends(rt, side, stage, SharedSession::new(session), stays)?;
    Ok((master.close(Vec::new(rt.alloc()), rt), stays))
}

/// Goes through a stage between the session of the end that is closed after it and the end that stays
/// open, which comes back.
fn tell_ends<X: Print + AllocGlobal, S: Replica<X> + SeesVersion + Drop, P: End + Drop>(
    rt: &X,
    side: Side,
    stage: Stage,
    session: S,
    stays: P,
) -> io::Result<P> {
    let closes = SessionPeer::new(session, rt);
    match side {
        Side::Source => {
            let (_closed, stays) = tell_stage(rt, rt.alloc(), stage, closes, stays)?;
            Ok(stays)
        }
        Side::Target => {
            let (stays, _closed) = tell_stage(rt, rt.alloc(), stage, stays, closes)?;
            Ok(stays)
        }
    }
}
