//! A run over the end of a history: a database is closed, and goes on as its successor.
ghost use Rattle.history_lock.specs.Names.{IsNamed};

use crate::run::Outcome;
use crate::work::{Told, write_twice};
use commands::Config;
use history_lock::{Closed, Opened, open};
use sessions::{Fault, Session};
use std::alloc::Global;
use std::marker::Brand;
use std::sync::Wait;
use updater_state::{Core, NoGate, Opening};

/// Has the one session of a database write a document, if memory is not refused before, and then the one session of
/// its successor, which is opened once more where it was refused.
pub(crate) fn run_on<R: Wait>(rt: &R, alloc: Global, config: Config) -> Option<Outcome> {
    let Ok(opened) = Opened::new(alloc, config) else {
        return None;
    };
    ended::<Brand, R>(rt, alloc, config, opened)
}

fn ended<J: Opening, R: Wait>(
    rt: &R,
    alloc: Global,
    config: Config,
    opened: Opened,
) -> Option<Outcome>
    requires named { IsNamed J.book J.base J.table J.capacity J.sessions J.config opened }
{
    let Ok((told, closed)) = epoch::<J, R>(rt, alloc, opened, "a") else {
        return None;
    };
    let [Some(Told::Receipt { .. }), None] = told? else {
        return None;
    };
    let fault = match successor(rt, alloc, config, &closed) {
        Ok(outcome) => return outcome,
        Err(fault) => fault,
    };
    let place = closed.version().place();
    let Ok(Some(outcome)) = successor(rt, alloc, config, &closed) else {
        return None;
    };
    let [first, _] = outcome.told;
    Some(Outcome {
        told: [Some(Told::Fault { fault, place }), first],
        entries: outcome.entries,
    })
}

/// What a successor comes to, whose session writes a document.
fn successor<J: Opening, R: Wait>(
    rt: &R,
    alloc: Global,
    config: Config,
    closed: &Closed<J>,
) -> Result<Option<Outcome>, Fault> {
    let Ok(next) = Opened::after(alloc, config, closed) else {
        return Err(Fault::Memory);
    };
    begun::<Brand, R>(rt, alloc, next)
}

fn begun<J: Opening, R: Wait>(
    rt: &R,
    alloc: Global,
    opened: Opened,
) -> Result<Option<Outcome>, Fault>
    requires named { IsNamed J.book J.base J.table J.capacity J.sessions J.config opened }
{
    let (told, closed) = epoch::<J, R>(rt, alloc, opened, "b")?;
    let Some(told) = told else {
        return Ok(None);
    };
    Ok(Some(Outcome {
        told,
        entries: closed.version().place(),
    }))
}

/// What the one session of a database is answered as it writes a document, and the end of its history.
fn epoch<J: Opening, R: Wait>(
    rt: &R,
    alloc: Global,
    opened: Opened,
    id: &str,
) -> Result<(Option<[Option<Told>; 2]>, Closed<J>), Fault>
    requires named { IsNamed J.book J.base J.table J.capacity J.sessions J.config opened }
{
    let (master, mut sessions) = open::<&R, J, NoGate>(rt, opened, NoGate)?;
    let told = written(rt, alloc, sessions.as_mut_slice(), id);
    let closed = master.close(sessions, rt);
    Ok((told, closed))
}

/// What the one session is answered as it writes a document, and once more where it had no receipt.
fn written<J: Opening, R: Wait>(
    rt: &R,
    alloc: Global,
    sessions: &mut [Session<Core<&R, J>, J, NoGate>],
    id: &str,
) -> Option<[Option<Told>; 2]> {
    write_twice(rt, alloc, sessions.first_mut()?, id)
}
