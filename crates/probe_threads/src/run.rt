//! A run: a database is opened, its sessions work on threads, and it is closed.
ghost use Rattle.history_lock.specs.Names.{IsNamed};

use crate::epochs::run_on;
use crate::plan::{Plan, Work};
use crate::work::{Told, compact_twice, look_often, refresh_often, write, write_all, write_twice};
use history_lock::{Opened, open};
use sessions::Session;
use std::alloc::Global;
use std::marker::Brand;
use std::sync::Wait;
use std::sync::atomic::{AtomicU64, Ordering};
use std::thread;
use std::thread::Threads;
use updater_state::{Core, NoGate, Opening};

/// What a run comes to.
#[derive(Debug, Clone, Copy)]
pub(crate) struct Outcome {
    /// What a single write or compaction was answered, and what the next one was.
    pub(crate) told: [Option<Told>; 2],
    /// How many entries the history has.
    pub(crate) entries: u64,
}

/// Does what the plan says, if memory is not refused before, nor a call of many.
pub(crate) fn run<R: Threads + Wait + Sync>(rt: &R, alloc: Global, plan: Plan) -> Option<Outcome> {
    let Some(work) = plan.work else {
        return run_on(rt, alloc, plan.config);
    };
    let Ok(opened) = Opened::new(alloc, plan.config) else {
        return None;
    };
    worked::<Brand, _>(rt, alloc, opened, work)
}

fn worked<J: Opening + Send + Sync, R: Threads + Wait + Sync>(
    rt: &R,
    alloc: Global,
    opened: Opened,
    work: Work,
) -> Option<Outcome>
    requires named { IsNamed J.book J.base J.table J.capacity J.sessions J.config opened }
{
    let Ok((master, mut sessions)) = open::<&R, J, NoGate>(rt, opened, NoGate) else {
        return None;
    };
    let told = all_work(rt, alloc, sessions.as_mut_slice(), work);
    let closed = master.close(sessions, rt);
    Some(Outcome {
        told: told?,
        entries: closed.version().place(),
    })
}

/// Has each session do its part of the work, on a thread of its own where it is more than a write.
fn all_work<J: Opening + Send + Sync, R: Threads + Wait + Sync>(
    rt: &R,
    alloc: Global,
    sessions: &mut [Session<Core<&R, J>, J, NoGate>],
    work: Work,
) -> Option<[Option<Told>; 2]> {
    let first = sessions.first_mut()?;
    match work {
        Work::Write => return write_twice(rt, alloc, first, "a"),
        Work::Compact => return compact_twice(rt, alloc, first),
        Work::Looks(_) | Work::Refreshes(_) => {
            write(rt, alloc, first, "a")?;
        }
        Work::Writes { .. } => {}
    }
    let threads = sessions.len().max(1);
    let refused = AtomicU64::new(0);
    thread::for_each_mut(
        rt,
        sessions,
        threads,
        &|index, session| {
            if part_of(rt, alloc, session, index, work).is_none() {
                refused.fetch_add(1, Ordering::Relaxed);
            }
        },
    );
    if refused.load(Ordering::Relaxed) > 0 {
        return None;
    }
    Some([None, None])
}

/// Does the part of one session, unless a call of it is refused.
fn part_of<R: Wait, C: Wait + Drop, J: Opening>(
    rt: &R,
    alloc: Global,
    session: &mut Session<Core<C, J>, J, NoGate>,
    index: usize,
    work: Work,
) -> Option<()> {
    match work {
        Work::Write | Work::Compact => Some(()),
        Work::Looks(times) => look_often(session, times),
        Work::Refreshes(times) => refresh_often(session, times),
        Work::Writes { writers, times } if index < writers as usize => {
            write_all(rt, alloc, session, index, times)
        }
        Work::Writes { .. } => Some(()),
    }
}
