//! Writes that come while session 0 is held.
ghost use Rattle.std.specs.Prelude.{◌≡◌, false, IfSome};
ghost use Rattle.model.specs.World.{is_compact};
ghost use Rattle.history_lock.specs.Names.{IsNamed};

mod plan;
mod tally;

use crate::tests::{DOCUMENTS, LIMITS, put};
use commands::{Command, Config, Limits};
use history_lock::{Opened, open};
use plan::{Plan, pushed_before};
use sessions::Session;
use std::alloc::Global;
use std::marker::Brand;
use std::process::Abort;
use std::sync::Wait;
use std::test::*;
use std::thread;
use std::thread::Threads;
use std::time::Clock;
use tally::{NOTHING, Sums, Tally, add};
use updater_state::{Core, Gate, Opening, Point};

/// How many sessions write; those behind them look.
const WRITERS: usize = 5;

/// At most as many sessions are opened, so that each has a thread of its own.
const THREADS: usize = 6;

/// Holds session 0 at its point.
#[derive(Drop)]
struct Holds<'a, C: Clock> {
    clock: &'a C,
    plan: Plan,
    tally: &'a Tally,
}

impl<'a, C: Clock> Gate for Holds<'a, C> {
    fn at(&self, point: Point, session: u16) {
        if session != 0 {
            add(&self.tally.pushed, 1);
            return;
        }
        if point == self.plan.held {
            add(&self.tally.held, 1);
            self.tally
                .wait_for(self.clock, &self.tally.pushed, self.plan.pushed);
            self.tally
                .wait_for(self.clock, &self.tally.told, self.plan.told);
        }
    }
}

/// What each session does: session 0 writes, and while it is held others write, and then the last
/// one looks. Where the history is full at the end, session 0 compacts.
fn work<R: Wait + Clock, C: Wait + Drop, J: Opening, G: Gate + Drop>(
    rt: &R,
    alloc: Global,
    plan: &Plan,
    tally: &Tally,
    index: usize,
    session: &mut Session<Core<C, J>, J, G>,
) {
    if index > 0 {
        tally.wait_for(rt, &tally.held, 1);
    }
    if index >= WRITERS {
        tally.wait_for(rt, &tally.pushed, plan.pushed);
        look(tally, session);
        return;
    }
    if plan.in_order {
        tally.wait_for(rt, &tally.pushed, pushed_before(index));
    }
    write(rt, alloc, plan, tally, index, session);
    if index == 0 && plan.full > 0 {
        tally.wait_for(rt, &tally.full, plan.full);
        tally.count(plan, index, session.compact(rt));
    }
}

/// Writes a document of the session's own.
fn write<R: Wait, C: Wait + Drop, J: Opening, G: Gate + Drop>(
    rt: &R,
    alloc: Global,
    plan: &Plan,
    tally: &Tally,
    index: usize,
    session: &mut Session<Core<C, J>, J, G>,
) {
    match own_put(alloc, index) {
        Some(command) => tally.count(plan, index, session.write(rt, command)),
        None => add(&tally.failed, 1),
    }
}

/// The first edit of a session's own document.
fn own_put(alloc: Global, index: usize) -> Option<Command>
    ensures { IfSome result (λ command. is_compact command ≡ false) }
{
    put(alloc, DOCUMENTS.get(index)?)
}

fn look<C: Drop, J: Opening, G: Drop>(tally: &Tally, session: &mut Session<C, J, G>) {
    match session.look() {
        Ok(snapshot) => add(&tally.seen, snapshot.place()),
        Err(_fault) => add(&tally.failed, 1),
    }
    add(&tally.told, 1);
}

/// Has each session of the plan do its work in a thread of its own.
fn run<J: Opening + Send + Sync, R: Threads + Wait + Clock + Sync>(
    rt: &R,
    alloc: Global,
    plan: Plan,
    tally: &Tally,
    opened: Opened,
) -> Option<u64>
    requires named { IsNamed J.book J.base J.table J.capacity J.sessions J.config opened }
{
    let gate = Holds {
        clock: rt,
        plan,
        tally,
    };
    let Ok((master, mut sessions)) = open::<&R, J, Holds<'_, R>>(rt, opened, gate) else {
        return None;
    };
    thread::for_each_mut(
        rt,
        sessions.as_mut_slice(),
        THREADS,
        &|index, session| work(rt, alloc, &plan, tally, index, session),
    );
    Some(master.close(sessions, rt).version().place())
}

/// What the plan comes to, and how many entries there are at its end.
fn outcome<R: Threads + Wait + Clock + Sync>(
    rt: &R,
    alloc: Global,
    plan: Plan,
) -> Result<(Sums, u64), Fail> {
    let config = Config::new(plan.limits).ok_or("limits")?;
    let tally = Tally::new();
    let opened = Opened::new(alloc, config)?;
    let place = run::<Brand, _>(rt, alloc, plan, &tally, opened).ok_or("open")?;
    Ok((tally.sums(), place))
}

/// Five writers, of which four have pushed while session 0 holds its batch, and one that looks.
const GATHERED: Plan = Plan {
    limits: Limits {
        sessions: 6,
        ..LIMITS
    },
    held: Point::Popped,
    pushed: 4,
    told: 1,
    in_order: false,
    full: 0,
};

#[test]
fn waiting_writes_are_one_publication(rt: HostRuntime) -> Result<(), Fail> {
    let sums = Sums {
        first: 2,
        second: 60,
        ..NOTHING
    };
    assert_eq!(rt; outcome(&rt, rt.alloc(), GATHERED)?, (sums, 5));
    Ok(())
}

#[test]
fn a_batch_has_no_more_jobs_than_it_may(rt: HostRuntime) -> Result<(), Fail> {
    let plan = Plan {
        limits: Limits {
            gather: 3,
            ..GATHERED.limits
        },
        ..GATHERED
    };
    let sums = Sums {
        first: 2,
        second: 28,
        third: 32,
        ..NOTHING
    };
    assert_eq!(rt; outcome(&rt, rt.alloc(), plan)?, (sums, 5));
    Ok(())
}

#[test]
fn a_full_history_takes_no_more(rt: HostRuntime) -> Result<(), Fail> {
    let limits = Limits {
        sessions: 5,
        max_places: 3,
        ..LIMITS
    };
    let plan = Plan {
        limits,
        told: 0,
        in_order: true,
        full: 2,
        ..GATHERED
    };
    let sums = Sums {
        first: 2,
        second: 12,
        full: 3,
        ..NOTHING
    };
    assert_eq!(rt; outcome(&rt, rt.alloc(), plan)?, (sums, 3));
    Ok(())
}

#[test]
fn a_full_queue_is_busy(rt: HostRuntime) -> Result<(), Fail> {
    let plan = Plan {
        limits: Limits {
            sessions: 3,
            queue: 1,
            ..LIMITS
        },
        pushed: 1,
        in_order: true,
        ..GATHERED
    };
    let sums = Sums {
        first: 2,
        second: 4,
        busy: 1,
        ..NOTHING
    };
    assert_eq!(rt; outcome(&rt, rt.alloc(), plan)?, (sums, 2));
    Ok(())
}
