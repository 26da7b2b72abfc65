//! A run: a database is opened, its sessions work on threads, and it is closed.
ghost use Rattle.history_lock.specs.Names.{IsNamed};

use crate::case::Case;
use crate::hold::Hold;
use crate::notes::{Notes, Sample};
use crate::part::{meet, part};
use crate::replay::replayed;
use crate::soak::soak;
use commands::{Config, Limits};
use history_dump::dump_version;
use history_lock::{Closed, Opened, open};
use replay_cli::{Verdict, check};
use sessions::Session;
use snapshots::Version;
use std::alloc::Global;
use std::marker::Brand;
use std::sync::Wait;
use std::thread;
use std::thread::Threads;
use std::time::Clock;
use updater_state::{Core, Gate, Opening, Point};

/// Each session of a run has a thread of its own, as none has more.
const THREADS: usize = 16;

/// What the sessions of a run do.
#[derive(Clone, Copy)]
pub(crate) enum Work {
    Case(Case),
    Soak,
}

impl Work {
    /// Where session 0 is held.
    fn held(self) -> Option<Point> {
        match self {
            Work::Case(case) => case.script().held,
            Work::Soak => None,
        }
    }

    /// How often.
    fn times(self) -> u64 {
        match self {
            Work::Case(case) => case.script().acts.len() as u64,
            Work::Soak => 0,
        }
    }
}

/// How a database ended.
#[derive(Clone, Copy)]
pub(crate) struct Ending {
    /// How many entries its history has.
    pub(crate) place: u64,
    /// How many of them are of the first two sessions.
    pub(crate) calls: [u64; 2],
    /// How many sessions are lost.
    pub(crate) lost: usize,
    /// How many entries were answered the same in one thread.
    pub(crate) again: Option<u64>,
    /// What is said of its dump.
    pub(crate) audit: Option<Verdict>,
}

/// Does the work on a new database, if memory is not refused before.
pub(crate) fn run<R: Threads + Wait + Clock + Sync>(
    rt: &R,
    alloc: Global,
    limits: Limits,
    work: Work,
    notes: &Notes,
) -> Option<Ending> {
    let config = Config::new(limits)?;
    let Ok(opened) = Opened::new(alloc, config) else {
        return None;
    };
    worked::<Brand, _>(rt, alloc, work, notes, opened)
}

fn worked<J: Opening + Send + Sync, R: Threads + Wait + Clock + Sync>(
    rt: &R,
    alloc: Global,
    work: Work,
    notes: &Notes,
    opened: Opened,
) -> Option<Ending>
    requires named { IsNamed J.book J.base J.table J.capacity J.sessions J.config opened }
{
    let hold = Hold::new(rt, &notes.marks, work.held(), work.times());
    let Ok((master, mut sessions)) = open::<&R, J, Hold<'_, R>>(rt, opened, hold) else {
        return None;
    };
    all_work(rt, alloc, work, notes, sessions.as_mut_slice());
    let closed = master.close(sessions, rt);
    let audit = audited(alloc, &closed);
    Some(ended(rt, alloc, notes, closed.version(), closed.lost(), audit))
}

/// Has each session work on a thread of its own.
fn all_work<J: Opening + Send + Sync, R: Threads + Wait + Clock + Sync>(
    rt: &R,
    alloc: Global,
    work: Work,
    notes: &Notes,
    sessions: &mut [Session<Core<&R, J>, J, Hold<'_, R>>],
) {
    thread::for_each_mut(
        rt,
        sessions,
        THREADS,
        &|index, session| one_works(rt, alloc, work, notes, index, session),
    );
    meet_in(rt, alloc, work, notes, sessions);
}

/// Has one session do its part.
fn one_works<X: Wait + Clock, C: Wait + Drop, J: Opening, G: Gate + Drop>(
    rt: &X,
    alloc: Global,
    work: Work,
    notes: &Notes,
    index: usize,
    session: &mut Session<Core<C, J>, J, G>,
) {
    match work {
        Work::Case(case) => part(rt, alloc, case, notes, index, session),
        Work::Soak => soak(rt, alloc, notes, index, session),
    }
}

/// Has the sessions of a case meet.
fn meet_in<X: Wait, C: Wait + Drop, J: Opening, G: Gate + Drop>(
    rt: &X,
    alloc: Global,
    work: Work,
    notes: &Notes,
    sessions: &mut [Session<Core<C, J>, J, G>],
) {
    if let Work::Case(case) = work {
        meet(rt, alloc, case, notes, sessions);
    }
}

/// What an audit of its dump says of a closed history. Nothing where memory was refused.
fn audited<J: Opening>(alloc: Global, closed: &Closed<J>) -> Option<Verdict> {
    let text = dump_version(alloc, closed.version()).ok()?;
    check(alloc, text.as_slice()).ok()
}

fn ended(
    rt: &impl Wait,
    alloc: Global,
    notes: &Notes,
    last: &Version,
    lost: &[u16],
    audit: Option<Verdict>,
) -> Ending {
    let mut samples = notes.samples.lock(rt);
    let again = replayed_with(alloc, last, &mut *samples);
    Ending {
        place: last.place(),
        calls: [last.next_call(0) - 1, last.next_call(1) - 1],
        lost: lost.len(),
        again,
        audit,
    }
}

fn replayed_with(alloc: Global, last: &Version, samples: &mut Vec<Sample>) -> Option<u64> {
    samples.sort_by_key(|sample| sample.place).ok()?;
    replayed(alloc, last, samples.as_slice())
}
