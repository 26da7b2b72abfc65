//! A database whose sessions work on threads.
ghost use Rattle.history_lock.specs.Names.{IsNamed};

use crate::ended::with_lost;
use crate::ends::Ends;
use crate::follow::follow_others;
use crate::full::serve_full;
use crate::held::serve_held;
use crate::hold::Hold;
use crate::marks::Marks;
use crate::worker::Worker;
use crate::write::WRITERS;
use commands::{Config, Limits};
use history_lock::{Opened, open};
use session_api::Calls;
use session_calls::{all_sessions, all_shared};
use std::alloc::Global;
use std::io;
use std::io::ErrorKind;
use std::marker::Brand;
use std::sync::{Arc, Wait};
use std::thread::Threads;
use std::time::Clock;
use updater_state::{Gate, Opening, Point};

/// What the sessions of a database do.
#[derive(Drop)]
pub(crate) enum Work {
    /// Two serve connections of which the first one's write is held.
    Held(Ends),
    /// Two serve connections to a history of one place.
    Full(Ends),
    /// One follows what the others write.
    Followed,
}

impl Work {
    fn sessions(&self) -> u16 {
        match self {
            Work::Held(_ends) => 2,
            Work::Full(_ends) => 2,
            Work::Followed => 1 + WRITERS,
        }
    }

    fn point(&self) -> Option<Point> {
        match self {
            Work::Held(_ends) => Some(Point::Popped),
            Work::Full(_ends) => None,
            Work::Followed => None,
        }
    }

    fn max_places(&self) -> u32 {
        match self {
            Work::Full(_ends) => 1,
            Work::Held(_ends) => 10_000,
            Work::Followed => 10_000,
        }
    }
}

/// Has the sessions of a new database do their work, and answers what is said of it.
pub(crate) fn with_sessions<R: AllocGlobal + Threads + Wait + Clock + Sync>(
    rt: &R,
    work: Work,
) -> io::Result<String> {
    let marks = Arc::new(rt.alloc(), Marks::new())?;
    let hold = Hold::new(rt, marks.clone()?, work.point());
    let Some(opened) = opened(rt.alloc(), work.sessions(), work.max_places()) else {
        return Err(io::Error::from(ErrorKind::OutOfMemory));
    };
    match worked::<Brand, &R, R, Hold<&R>>(rt, rt, work, &marks, hold, opened) {
        Some(told) => told,
        None => Err(io::Error::from(ErrorKind::OutOfMemory)),
    }
}

/// What a database of so many sessions and places is opened with.
fn opened(alloc: Global, sessions: u16, max_places: u32) -> Option<Opened> {
    let config = Config::new(Limits {
        sessions,
        queue: 4,
        gather: 4,
        slice: 16,
        slack: 16,
        tries: 8,
        max_places,
    })?;
    Opened::new(alloc, config).ok()
}

/// The work of the sessions of a database, which keeps a runtime of its own; nothing where it isn't opened.
fn worked<
    J: Opening + Send + Sync,
    T: Wait + Send + Drop,
    R: AllocGlobal + Threads + Wait + Clock + Sync,
    G: Gate + Send + Sync + Drop,
>(
    rt: &R,
    core_rt: T,
    work: Work,
    marks: &Marks,
    gate: G,
    opened: Opened,
) -> Option<io::Result<String>>
    requires named { IsNamed J.book J.base J.table J.capacity J.sessions J.config opened }
{
    let Ok((master, sessions)) = open::<T, J, G>(core_rt, opened, gate) else {
        return None;
    };
    let Ok(room) = Vec::with_capacity(rt.alloc(), sessions.len()) else {
        return None;
    };
    let Ok(mut sessions) = all_shared(rt.alloc(), sessions) else {
        return None;
    };
    let told = work_of(rt, work, marks, sessions.as_mut_slice());
    let closed = master.close(all_sessions(sessions, room), rt);
    Some(with_lost(told, closed.lost()))
}

fn work_of<R: AllocGlobal + Threads + Wait + Clock + Sync, S: Calls<R> + Worker<R> + Send>(
    rt: &R,
    work: Work,
    marks: &Marks,
    sessions: &mut [S],
) -> io::Result<String>
where
    S::Opened: Send,
{
    match work {
        Work::Held(ends) => serve_held(rt, ends, marks, sessions),
        Work::Full(ends) => serve_full(rt, ends, sessions),
        Work::Followed => follow_others(rt, marks, sessions),
    }
}
