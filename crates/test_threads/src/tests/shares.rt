//! A version on two threads.

use crate::tests::put;
use commands::{Command, MAX_PLACES, Seat};
use snapshots::Version;
use std::alloc::AllocError;
use std::test::Fail;
use std::thread;
use std::thread::Threads;

/// How many entries another thread sees, in a share of its own and in the version, and how many
/// this one sees meanwhile.
fn places<R: Threads>(rt: &R, version: &Version) -> Result<((u64, u64), u64), AllocError> {
    let share = version.share()?;
    Ok(thread::join(
        rt,
        move || (share.place(), version.place()),
        || version.place(),
    ))
}

/// The version after a command.
fn after(version: &Version, command: &Command) -> Result<Version, Fail> {
    let Some(seat) = Seat::new(0, version.next_call(0)) else {
        return Err("a seat".into());
    };
    if version.place() >= u64::from(MAX_PLACES) {
        return Err("room".into());
    }
    let acted = version.act(seat, command)?;
    Ok(acted)
}

#[test]
fn threads_share_a_version(rt: HostRuntime) -> Result<(), Fail> {
    let command = put(rt.alloc(), "a").ok_or("memory")?;
    let version = after(&Version::empty(rt.alloc()), &command)?;
    assert_eq!(rt; places(&rt, &version)?, ((1, 1), 1));
    Ok(())
}
