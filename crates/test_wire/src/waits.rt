//! How long the two ends of a socket wait.

use crate::ticks::{Event, Step, Ticks, TimedScript};
use sockets::{Pace, TimedReader, TimedWriter, drain};
use std::alloc::Global;
use std::sync::atomic::AtomicBool;
use std::test::Fail;
use std::time::Duration;
use streams::{Failed, Sink, Source};

/// So many bytes are read or written at once at most.
const ROOM: usize = 16;

/// Reads from a socket of this script, and reports how many bytes each read gives and when, and how many reads
/// failed. Behind how long the first byte and the rest of a request are waited for stands when a flag is set by
/// which the input ends, or `-` for no flag.
pub(crate) fn reads_told(
    alloc: Global,
    pace: &str,
    script: &str,
    calls: &str,
) -> Result<String, Fail> {
    let words: Vec<&str> = pace.split(' ').collect(alloc)?;
    let [idle, patience, flag_at] = words.as_slice() else {
        return Err("a pace".into());
    };
    let pace = Pace {
        idle: millis(idle)?,
        patience: millis(patience)?,
    };
    let steps = steps(alloc, script)?;
    let flag = AtomicBool::new(false);
    let ticks = Ticks::new(&flag, time_of(flag_at)?);
    let over = if *flag_at == "-" { None } else { Some(&flag) };
    let socket = TimedScript::new(&ticks, steps.as_slice());
    let mut reader = TimedReader::new(socket, &ticks, pace, over);
    let mut text = String::new(alloc);
    for call in calls.split(',') {
        match call {
            "next" => reader.awaits(false),
            "begun" => reader.awaits(true),
            len => {
                let len = len.parse::<usize>()?.min(ROOM);
                let answer = reader.read(&mut [0; ROOM][..len]);
                push_moved(&mut text, &ticks, answer)?;
            }
        }
    }
    write!(text, "{}", reader.failures())?;
    Ok(text)
}

/// Writes to a socket of this script, and reports how many bytes each write takes and when, and how many writes
/// failed. Behind how long a text is waited for stands when the flag is set.
pub(crate) fn writes_told(
    alloc: Global,
    patience: &str,
    script: &str,
    calls: &str,
) -> Result<String, Fail> {
    let (patience, flag_at) = patience.split_once(' ').ok_or("a patience")?;
    let steps = steps(alloc, script)?;
    let flag = AtomicBool::new(false);
    let ticks = Ticks::new(&flag, time_of(flag_at)?);
    let over = if flag_at == "-" { None } else { Some(&flag) };
    let socket = TimedScript::new(&ticks, steps.as_slice());
    let mut writer = TimedWriter::new(socket, &ticks, millis(patience)?, over);
    let mut text = String::new(alloc);
    for call in calls.split(',') {
        match call {
            "begin" => writer.begins(),
            len => {
                let len = len.parse::<usize>()?.clamp(1, ROOM);
                let answer = writer.write(&[0; ROOM][..len]);
                push_moved(&mut text, &ticks, answer)?;
            }
        }
    }
    write!(text, "{}", Sink::failures(&writer))?;
    Ok(text)
}

/// Reads what a client still sends by this script, and reports when that ends, and how many bytes were not read. In front
/// stands when the flag is set.
pub(crate) fn drain_told(alloc: Global, flag_at: &str, script: &str) -> Result<String, Fail> {
    let steps = steps(alloc, script)?;
    let flag = AtomicBool::new(false);
    let ticks = Ticks::new(&flag, time_of(flag_at)?);
    let over = if flag_at == "-" { None } else { Some(&flag) };
    let mut socket = TimedScript::new(&ticks, steps.as_slice());
    drain(&mut socket, &ticks, over);
    Ok(format!(in alloc; "{} {}", ticks.now(), socket.unmoved())?)
}

/// How many bytes a call moved, or that it failed, and when.
fn push_moved(
    text: &mut String,
    ticks: &Ticks<'_>,
    answer: Result<usize, Failed>,
) -> Result<(), Fail> {
    match answer {
        Ok(len) => write!(text, "{len}@{} ", ticks.now())?,
        Err(Failed) => write!(text, "failed@{} ", ticks.now())?,
    }
    Ok(())
}

/// The steps that a word lists, with `,` between: the time in milliseconds, `:` and how many bytes, `end` or `fail`.
fn steps(alloc: Global, word: &str) -> Result<Vec<Step>, Fail> {
    let mut steps = Vec::new(alloc);
    for step in word.split(',') {
        let (at, event) = step.split_once(':').ok_or("a step")?;
        steps.push(Step {
            at: at.parse::<u64>()?,
            event: event_of(event)?,
        })?;
    }
    Ok(steps)
}

fn event_of(word: &str) -> Result<Event, Fail> {
    match word {
        "end" => Ok(Event::End),
        "fail" => Ok(Event::Fail),
        len => Ok(Event::Bytes(len.parse::<usize>()?)),
    }
}

/// When a flag is set, or never where there is none.
fn time_of(word: &str) -> Result<u64, Fail> {
    if word == "-" {
        return Ok(u64::MAX);
    }
    Ok(word.parse::<u64>()?)
}

fn millis(word: &str) -> Result<Duration, Fail> {
    Ok(Duration::from_millis(word.parse::<u64>()?))
}
