//! A session that follows what others write.

use crate::marks::{Marks, TURNS, pause};
use crate::shown::Shown;
use crate::worker::Worker;
use crate::write::{WRITERS, write_all};
use session_api::Viewer;
use session_calls::SeesVersion;
use std::alloc::{AllocError, Global};
use std::io::ErrorKind;
use std::thread::Threads;
use std::time::Clock;
use std::{io, thread};

/// Has the first session follow what the others write.
pub(crate) fn follow_others<R: Threads + Sync, S: Worker<R> + Send>(
    rt: &R,
    marks: &Marks,
    sessions: &mut [S],
) -> io::Result<String> {
    let Some((first, others)) = sessions.split_first_mut() else {
        return Err(io::Error::from(ErrorKind::Other));
    };
    let (told, ()) = thread::join(
        rt,
        move || first.follow_others(rt, marks),
        || write_all(rt, marks, others),
    );
    told
}

/// Takes the rows of what the session sees, again and again, until the writers are done. It says whether
/// what was taken is what there is at the end.
pub(crate) fn follow<S: SeesVersion>(
    clock: &impl Clock,
    alloc: Global,
    marks: &Marks,
    session: &mut S,
) -> io::Result<String> {
    let mut shown = Shown::new(alloc);
    for _turn in 0..TURNS {
        let is_last = marks.done.times() >= u64::from(WRITERS);
        look(alloc, session, &mut shown)?;
        marks.followed.count();
        if is_last {
            return told(alloc, marks, session, &shown);
        }
        pause(clock);
    }
    marks.late.count();
    told(alloc, marks, session, &shown)
}

/// Takes the rows of what there is now.
fn look<S: SeesVersion>(alloc: Global, session: &mut S, shown: &mut Shown) -> io::Result<()> {
    if session.refresh().is_err() {
        return Err(io::Error::from(ErrorKind::Other));
    }
    shown.take(alloc, session.version())?;
    Ok(())
}

fn told<S: SeesVersion>(
    alloc: Global,
    marks: &Marks,
    session: &S,
    shown: &Shown,
) -> io::Result<String> {
    let ending = ending(alloc, session, shown)?;
    let text = format!(in alloc;
        "{} writes, {} rows followed: {ending}\n{} late\n",
        marks.written.times(),
        shown.len(),
        marks.late.times()
    )?;
    Ok(text)
}

fn ending<S: SeesVersion>(
    alloc: Global,
    session: &S,
    shown: &Shown,
) -> Result<&'static str, AllocError> {
    if shown.is_all_of(alloc, session.version())? {
        return Ok("those of the end");
    }
    Ok("others than those of the end")
}
