//! Waits of a session for an update that does not come.
ghost use Rattle.history_lock.specs.Names.{IsNamed};

use crate::tests::LIMITS;
use commands::{Config, Limits};
use history_lock::{Opened, open};
use sessions::Session;
use std::marker::Brand;
use std::process::Abort;
use std::sync::Wait;
use std::test::*;
use std::time::{Clock, Duration, Instant};
use updater_state::{Core, NoGate, Opening};

/// So many looks follow one another, of which the first is due at once, a thousand come after a yield, and the others
/// after a millisecond.
const LOOKS: u64 = 1_100;

/// So many milliseconds they last at least.
const LAST: u64 = 99;

#[test]
fn a_wait_lasts_as_long_turn_by_turn(rt: HostRuntime) -> Result<(), Fail> {
    let alloc = rt.alloc();
    let limits = Limits {
        sessions: 1,
        ..LIMITS
    };
    let config = Config::new(limits).ok_or("limits")?;
    waits_in_vain::<Brand, _>(&rt, Opened::new(alloc, config)?)
}

/// Has a session wait in vain, at once and turn by turn, and closes the database.
fn waits_in_vain<J: Opening, R: Wait + Clock + Abort>(rt: &R, opened: Opened) -> Result<(), Fail>
    requires named { IsNamed J.book J.base J.table J.capacity J.sessions J.config opened }
{
    let Ok((master, mut sessions)) = open::<&R, J, NoGate>(rt, opened, NoGate) else {
        return Err(Fail::from("open"));
    };
    let lasted = both_last(rt, sessions.as_mut_slice());
    let closed = master.close(sessions, rt);
    drop(closed);
    assert_eq!(rt; lasted, Some((true, true)));
    Ok(())
}

/// Whether a wait of so many looks lasts, and as many waits of one look each.
fn both_last<J: Opening, R: Wait + Clock>(
    rt: &R,
    sessions: &mut [Session<Core<&R, J>, J, NoGate>],
) -> Option<(bool, bool)> {
    let session = sessions.first_mut()?;
    let at_once = lasts(rt, session, 1, LOOKS)?;
    session.refresh().ok()?;
    let turn_by_turn = lasts(rt, session, LOOKS, 1)?;
    Some((at_once, turn_by_turn))
}

/// Whether so many waits, each of so many turns, find nothing and last.
fn lasts<J: Opening, R: Wait + Clock>(
    rt: &R,
    session: &mut Session<Core<&R, J>, J, NoGate>,
    waits: u64,
    turns: u64,
) -> Option<bool> {
    let start = Instant::now(rt).ok()?;
    for _wait in 0..waits {
        if session.wait_past(rt, 0, turns).ok()? {
            return Some(false);
        }
    }
    let lasted = start.elapsed(rt).ok()?;
    Some(lasted >= Duration::from_millis(LAST))
}
