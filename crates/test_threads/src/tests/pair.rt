//! Sessions in one thread.
ghost use Rattle.history_lock.specs.Names.{IsNamed};

use crate::tests::{FIRST, LIMITS, answer, put};
use commands::{Config, Limits};
use history_lock::{Closed, Core, NoGate, Opened, Opening, Receipt, Session, open};
use model::Refusal;
use revision_id::RevId;
use snapshots::Version;
use std::alloc::Global;
use std::marker::Brand;
use std::process::Abort;
use std::sync::Wait;
use std::test::*;
use std::time::Clock;

/// What a receipt says of one write.
#[derive(Debug, Clone, Copy, PartialEq, Eq)]
struct Written {
    place: u64,
    publication: u64,
    answer: Option<Result<RevId, Refusal>>,
}

/// What the first receipt reported, how many entries two others saw after it that had met nobody, and
/// whether the second of them saw the update.
#[derive(Debug, Clone, Copy, PartialEq, Eq)]
struct Seen {
    receipt: Written,
    looked: u64,
    past: bool,
    waited: u64,
}

/// What the second receipt reported, and at how many entries a session refreshed, and two met, after it.
#[derive(Debug, Clone, Copy, PartialEq, Eq)]
struct Met {
    receipt: Written,
    refreshed: u64,
    met: u64,
}

/// How many entries the last version has, the session and the call of the first two, and how many
/// sessions are lost.
#[derive(Debug, Clone, Copy, PartialEq, Eq)]
struct End {
    place: u64,
    first: Option<(u16, u64)>,
    second: Option<(u16, u64)>,
    lost: usize,
}

#[test]
fn a_write_is_seen_by_others(rt: HostRuntime) -> Result<(), Fail> {
    let alloc = rt.alloc();
    let limits = Limits {
        sessions: 3,
        ..LIMITS
    };
    let config = Config::new(limits).ok_or("limits")?;
    writes_and_meets::<Brand, _>(&rt, alloc, Opened::new(alloc, config)?)
}

/// Has two sessions write one document and the others look, wait and refresh, and closes the database.
fn writes_and_meets<J: Opening, R: Wait + Clock + Abort>(
    rt: &R,
    alloc: Global,
    opened: Opened,
) -> Result<(), Fail>
    requires named { IsNamed J.book J.base J.table J.capacity J.sessions J.config opened }
{
    let Ok((master, mut sessions)) = open::<&R, J, NoGate>(rt, opened, NoGate) else {
        return Err(Fail::from("open"));
    };
    let told = told_to_all(rt, alloc, sessions.as_mut_slice());
    let closed = master.close(sessions, rt);
    let end = end_of(&closed);
    drop(closed);
    assert_eq!(rt; told, Some((expected_seen(), EXPECTED_MET)));
    assert_eq!(rt; end, EXPECTED_END);
    Ok(())
}

fn expected_seen() -> Seen {
    Seen {
        receipt: Written {
            place: 1,
            publication: 1,
            answer: RevId::parse(FIRST).ok().map(Ok),
        },
        looked: 1,
        past: true,
        waited: 1,
    }
}

const EXPECTED_MET: Met = Met {
    receipt: Written {
        place: 2,
        publication: 2,
        answer: Some(Err(Refusal::Conflict)),
    },
    refreshed: 2,
    met: 2,
};

const EXPECTED_END: End = End {
    place: 2,
    first: Some((0, 1)),
    second: Some((1, 1)),
    lost: 0,
};

/// Sessions 0 and 1 write one after the other, and all three see it.
fn told_to_all<J: Opening, R: Wait + Clock>(
    rt: &R,
    alloc: Global,
    sessions: &mut [Session<Core<&R, J>, J, NoGate>],
) -> Option<(Seen, Met)> {
    let (zero, others) = sessions.split_first_mut()?;
    let (one, others) = others.split_first_mut()?;
    let two = others.first_mut()?;
    let seen = seen_by_others(rt, alloc, zero, one, two)?;
    let met = meets(rt, alloc, zero, one, two)?;
    Some((seen, met))
}

/// Session 0 writes, session 1 looks, and session 2 waits for an update.
fn seen_by_others<R: Wait + Clock, C: Wait + Drop, J: Opening>(
    rt: &R,
    alloc: Global,
    zero: &mut Session<Core<C, J>, J, NoGate>,
    one: &mut Session<Core<C, J>, J, NoGate>,
    two: &mut Session<Core<C, J>, J, NoGate>,
) -> Option<Seen> {
    let receipt = told_by(&zero.write(rt, put(alloc, "a")?).ok()?);
    let looked = one.look().ok()?.place();
    let past = two.wait_past(rt, 0, 1).ok()?;
    Some(Seen {
        receipt,
        looked,
        past,
        waited: two.place(),
    })
}

/// Session 1 writes, session 2 refreshes, and sessions 0 and 1 meet.
fn meets<R: Wait, C: Wait + Drop, J: Opening>(
    rt: &R,
    alloc: Global,
    zero: &mut Session<Core<C, J>, J, NoGate>,
    one: &mut Session<Core<C, J>, J, NoGate>,
    two: &mut Session<Core<C, J>, J, NoGate>,
) -> Option<Met> {
    let receipt = told_by(&one.write(rt, put(alloc, "a")?).ok()?);
    two.refresh().ok()?;
    let met = zero.meet(one).ok()?;
    Some(Met {
        receipt,
        refreshed: two.place(),
        met,
    })
}

/// What a receipt reports.
fn told_by(receipt: &Receipt) -> Written {
    Written {
        place: receipt.place,
        publication: receipt.publication,
        answer: answer(receipt.reply.kind()),
    }
}

fn end_of<J: Opening>(closed: &Closed<J>) -> End {
    let last = closed.version();
    End {
        place: last.place(),
        first: seat_at(last, 1),
        second: seat_at(last, 2),
        lost: closed.lost().len(),
    }
}

/// The session and the call of the entry at a place.
fn seat_at(version: &Version, place: u64) -> Option<(u16, u64)> {
    let seat = version.entry(place)?.seat;
    Some((seat.session(), seat.call()))
}
