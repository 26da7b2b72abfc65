//! Rows of commands beside two compactions that are made by slices, in one epoch or in several.
ghost use Rattle.std.specs.Prelude.{◌≡◌, IfOk};
ghost use Rattle.model.specs.History.{Extends, Follows};

use crate::changes::after;
use crate::epochs::reopened;
use crate::replies::{push_content, push_last_reply};
use commands::Seat;
use compactor::{Compaction, CopyFault};
use snapshots::Version;
use std::alloc::{AllocError, Global};
use std::test::Fail;

/// What comes of each step, and what is at the end. The commands in front of `|` come before both compactions start,
/// and the steps after it.
pub(crate) fn told(alloc: Global, row: &str) -> Result<String, Fail> {
    let Some((commands, steps)) = row.split_once('|') else {
        return Err("a bar".into());
    };
    let mut text = String::new(alloc);
    let version = written(alloc, commands, &mut text)?;
    with_first(alloc, version, steps, &mut text)?;
    Ok(text)
}

/// The version after these commands, whose replies are reported.
pub(crate) fn written(alloc: Global, commands: &str, text: &mut String) -> Result<Version, Fail> {
    let mut version = Version::empty(alloc);
    for command in commands.split(';') {
        let mut piece = String::new(alloc);
        version = with_command(alloc, &version, command, &mut piece)?;
        write!(text, "{};", piece.trim())?;
    }
    Ok(version)
}

/// The version after a command, which is reported.
fn with_command(
    alloc: Global,
    version: &Version,
    command: &str,
    text: &mut String,
) -> Result<Version, Fail>
    ensures { IfOk result (λ v. Extends v version.now) }
{
    let words: Vec<&str> = command.split_whitespace().collect(alloc)?;
    let next = after(alloc, version, words.as_slice())?;
    push_last_reply(text, &next)?;
    Ok(next)
}

/// A compaction of the version.
#[tactic(auto, using(crate::proofs::Order::follows_itself))]
fn started(alloc: Global, version: &Version) -> Result<Compaction, Fail>
    ensures { IfOk result (λ copy. Follows version.now copy.seen) }
{
    let copy = Compaction::start(alloc, version)?;
    Ok(copy)
}

/// Makes all steps, where both compactions are yet to be started.
fn with_first(alloc: Global, version: Version, steps: &str, text: &mut String) -> Result<(), Fail> {
    let mut first = started(alloc, &version)?;
    let made = with_second(alloc, version, &mut first, steps, text);
    drop(first);
    made
}

/// The same, where the second is yet to be started.
fn with_second(
    alloc: Global,
    version: Version,
    first: &mut Compaction,
    steps: &str,
    text: &mut String,
) -> Result<(), Fail>
    requires { Follows version first.old.seen }
{
    let mut second = started(alloc, &version)?;
    let made = make_all(alloc, version, first, &mut second, steps, text);
    drop(second);
    made
}

/// Makes all steps, and says what is there then.
fn make_all(
    alloc: Global,
    version: Version,
    first: &mut Compaction,
    second: &mut Compaction,
    steps: &str,
    text: &mut String,
) -> Result<(), Fail>
    requires first { Follows version first.old.seen }
    requires second { Follows version second.old.seen }
{
    let mut version = version;
    for step in steps.split(';') {
        let mut piece = String::new(alloc);
        version = made(alloc, &version, first, second, step, &mut piece)?;
        write!(text, "{};", piece.trim())?;
    }
    push_content(text, &version)?;
    Ok(())
}

/// The version after a step.
#[tactic(auto, using(crate::proofs::Order::follows_on, crate::proofs::Order::follows_reopened))]
fn made(
    alloc: Global,
    version: &Version,
    first: &mut Compaction,
    second: &mut Compaction,
    step: &str,
    text: &mut String,
) -> Result<Version, Fail>
    requires first { Follows version.now first.old.seen }
    requires second { Follows version.now second.old.seen }
    ensures first { IfOk result (λ v. Follows v first.new.seen) }
    ensures second { IfOk result (λ v. Follows v second.new.seen) }
{
    let words: Vec<&str> = step.split_whitespace().collect(alloc)?;
    match words.as_slice() {
        ["first", deed, n] => {
            let next = done(first, version, 1, deed, n.parse::<u64>()?, text)?;
            Ok(next)
        }
        ["second", deed, n] => {
            let next = done(second, version, 2, deed, n.parse::<u64>()?, text)?;
            Ok(next)
        }
        ["reopen"] => {
            let next = reopened(version, text)?;
            Ok(next)
        }
        _ => {
            let next = with_command(alloc, version, step, text)?;
            Ok(next)
        }
    }
}

/// The version after what is done with a compaction.
#[tactic(auto, using(crate::proofs::Order::follows_kept))]
fn done(
    copy: &mut Compaction,
    version: &Version,
    session: u16,
    deed: &str,
    n: u64,
    text: &mut String,
) -> Result<Version, Fail>
    requires { Follows version.now copy.old.seen }
    ensures extends { IfOk result (λ v. Extends v version.now) }
    ensures follows { Follows version.now copy.new.seen }
{
    match deed {
        "slice" => slice(copy, version, n, text),
        "catch_up" => catch_up(copy, version, n, text),
        "finish" => finish(copy, version, session, n, text),
        _ => Err("a step".into()),
    }
}

/// The version, as it is, after a slice.
fn slice(
    copy: &mut Compaction,
    version: &Version,
    n: u64,
    text: &mut String,
) -> Result<Version, Fail>
    ensures same { IfOk result (λ v. v ≡ version.now) }
    ensures kept { copy.new.seen ≡ copy.old.seen }
{
    let left = copy.slice(n);
    push_left(text, left, copy.visited())?;
    let same = version.share()?;
    Ok(same)
}

/// The version, as it is, after a catching up.
fn catch_up(
    copy: &mut Compaction,
    version: &Version,
    n: u64,
    text: &mut String,
) -> Result<Version, Fail>
    requires { Follows version.now copy.old.seen }
    ensures same { IfOk result (λ v. v ≡ version.now) }
    ensures follows { Follows version.now copy.new.seen }
{
    tell_catch_up(copy, version, n, text)?;
    let same = version.share()?;
    Ok(same)
}

#[tactic(auto, using(crate::proofs::Order::follows_itself, crate::proofs::Order::follows_kept))]
fn tell_catch_up(
    copy: &mut Compaction,
    version: &Version,
    n: u64,
    text: &mut String,
) -> Result<(), Fail>
    requires { Follows version.now copy.old.seen }
    ensures { Follows version.now copy.new.seen }
{
    if copy.left() > 0 {
        return Err("all are sliced".into());
    }
    match copy.catch_up(version, n) {
        Ok(left) => Ok(push_left(text, Ok(left), copy.visited())?),
        Err(fault) => Ok(push_fault(text, fault)?),
    }
}

/// The version with one compaction more, or as it is where there is a fault.
fn finish(
    copy: &mut Compaction,
    version: &Version,
    session: u16,
    slack: u64,
    text: &mut String,
) -> Result<Version, Fail>
    requires { Follows version.now copy.old.seen }
    ensures kept { copy.new.seen ≡ copy.old.seen }
    ensures extends { IfOk result (λ v. Extends v version.now) }
{
    if copy.left() > 0 || version.place() >= 1000 {
        return Err("all are sliced, and few places".into());
    }
    let Some(seat) = Seat::new(session, version.next_call(session)) else {
        return Err("a session".into());
    };
    match copy.finish(version, seat, slack) {
        Ok(finished) => {
            write!(
                text,
                "place {}, {} visited",
                finished.place(),
                copy.visited()
            )?;
            Ok(finished)
        }
        Err(fault) => {
            push_fault(text, fault)?;
            let same = version.share()?;
            Ok(same)
        }
    }
}

/// How many are left, or the fault, and how many records were looked up.
fn push_left(
    text: &mut String,
    left: Result<u64, CopyFault>,
    visited: u64,
) -> Result<(), AllocError> {
    match left {
        Ok(left) => write!(text, "{left} left, {visited} visited"),
        Err(fault) => push_fault(text, fault),
    }
}

fn push_fault(text: &mut String, fault: CopyFault) -> Result<(), AllocError> {
    text.push_str(match fault {
        CopyFault::Behind => "behind",
        CopyFault::Overrun => "overrun",
        CopyFault::Memory => "memory",
    })
}
