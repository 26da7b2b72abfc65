//! Rows of what happens to sessions, an updater and a compactor, one event after another, in a first epoch or a later one.

use crate::answers::push_answer;
use crate::changes::command;
use crate::copies::written;
use crate::questions::query;
use crate::replies::{push_content, push_reply};
use commands::{Config, Limits};
use machine::{Completed, Event, Machine, Record, run, run_after};
use queries::Query;
use snapshots::Version;
use std::alloc::{AllocError, Global};
use std::test::Fail;

/// The calls that the events complete, how many entries there are then, and what is in it.
pub(crate) fn told(alloc: Global, row: &str) -> Result<String, Fail> {
    let events = events(alloc, row)?;
    let record = run(alloc, config()?, &events)?;
    let mut text = String::new(alloc);
    push_record(&mut text, &record)?;
    Ok(text)
}

/// What the commands in front of `|` are answered; and of a world of the epoch after them the same, by the events behind it.
pub(crate) fn told_after(alloc: Global, row: &str) -> Result<String, Fail> {
    let Some((commands, row)) = row.split_once('|') else {
        return Err("a bar".into());
    };
    let mut text = String::new(alloc);
    let version = written(alloc, commands, &mut text)?;
    let events = events(alloc, row)?;
    let record = happened_after(alloc, &version, &events)?;
    push_record(&mut text, &record)?;
    Ok(text)
}

/// What the events make of a machine of the epoch after this version.
fn happened_after(alloc: Global, version: &Version, events: &[Event]) -> Result<Record, Fail> {
    if !version.has_successor() {
        return Err("no successor".into());
    }
    let record = run_after(alloc, config()?, version, events)?;
    Ok(record)
}

/// The same as [`told`], one event after another. An event that is refused memory is reported, and happens then.
pub(crate) fn told_by_steps(alloc: Global, row: &str) -> Result<String, Fail> {
    let events = events(alloc, row)?;
    let machine = Machine::new(alloc, config()?)?;
    let mut text = String::new(alloc);
    push_steps(&mut text, machine, &events)?;
    Ok(text)
}

/// The same as [`told_after`], one event after another, as by [`told_by_steps`].
pub(crate) fn told_after_by_steps(alloc: Global, row: &str) -> Result<String, Fail> {
    let Some((commands, row)) = row.split_once('|') else {
        return Err("a bar".into());
    };
    let mut text = String::new(alloc);
    let version = written(alloc, commands, &mut text)?;
    let events = events(alloc, row)?;
    if !version.has_successor() {
        return Err("no successor".into());
    }
    let machine = Machine::after(alloc, config()?, &version)?;
    push_steps(&mut text, machine, &events)?;
    Ok(text)
}

/// What the events make of a machine. One that is refused memory is reported, and happens then.
fn push_steps(text: &mut String, machine: Machine, events: &[Event]) -> Result<(), Fail> {
    let mut machine = machine;
    for event in events {
        if machine.step(event).is_err() {
            text.push_str("out of memory;")?;
            machine.step(event)?;
        }
    }
    push_record(text, &machine.into_record())?;
    Ok(())
}

/// Three sessions, of whose jobs four may wait, and no slack.
fn config() -> Result<Config, Fail> {
    let limits = Limits {
        sessions: 3,
        queue: 4,
        gather: 4,
        slice: 4096,
        slack: 0,
        tries: 1,
        max_places: 100,
    };
    Ok(Config::new(limits).ok_or("limits")?)
}

fn events(alloc: Global, row: &str) -> Result<Vec<Event>, Fail> {
    let mut events = Vec::new(alloc);
    for statement in row.split(';') {
        let words: Vec<&str> = statement.split_whitespace().collect(alloc)?;
        events.push(event(alloc, words.as_slice())?)?;
    }
    Ok(events)
}

fn event(alloc: Global, words: &[&str]) -> Result<Event, Fail> {
    match words {
        ["ask", session, words @ ..] => Ok(Event::Ask(
            session.parse::<u16>()?,
            command(alloc, words)?,
        )),
        ["take", n] => Ok(Event::Take(n.parse::<u64>()?)),
        ["put"] => Ok(Event::Put),
        ["give_up"] => Ok(Event::GiveUp),
        ["look", session] => Ok(Event::Look(session.parse::<u16>()?)),
        ["read", session, words @ ..] => Ok(Event::Read(
            session.parse::<u16>()?,
            Query::new(query(alloc, words)?),
        )),
        ["start", session] => Ok(Event::Start(session.parse::<u16>()?)),
        ["slice", n] => Ok(Event::Slice(n.parse::<u64>()?)),
        ["catch_up", n] => Ok(Event::CatchUp(n.parse::<u64>()?)),
        ["swap"] => Ok(Event::Swap),
        ["abort"] => Ok(Event::Abort),
        _ => Err("an event".into()),
    }
}

fn push_record(text: &mut String, record: &Record) -> Result<(), AllocError> {
    for call in &record.completed {
        push_call(text, call)?;
    }
    write!(text, "place {};", record.version.place())?;
    push_content(text, &record.version)
}

/// A session, and of a write the number of its call; the place, and the reply or the answer.
fn push_call(text: &mut String, call: &Completed) -> Result<(), AllocError> {
    match call {
        Completed::Wrote {
            seat,
            place,
            reply,
            ..
        } => {
            write!(text, "{} {} at {place}", seat.session(), seat.call())?;
            push_reply(text, reply)?;
        }
        Completed::Asked {
            session,
            place,
            answer,
            ..
        } => {
            write!(text, "{session} at {place} ")?;
            push_answer(text, answer)?;
        }
    }
    text.push(';')
}
