//! A compaction of many documents by slices, for the program in `benches/bench_compaction.py`.
//!
//! `bench_compaction N` writes N thousand documents of 10 revisions each, copies them by slices of
//! 1,000, and lets the copy catch up with later writes and take their place. After each step it
//! prints a line, and goes on when it has read a byte. The status is 1 where memory was refused or
//! nothing can be read, and 2 for other arguments.
#![tactic(auto)]

mod copy;
mod documents;
mod steps;

use std::process::ExitCode;
use std::{env, io};

/// The status of a run that was refused memory, or asked to end.
const ENDED: u8 = 1;

const UNREADABLE_WORDS: u8 = 2;

fn run(rt: &HostRuntime, words: &[String]) -> u8 {
    let [_, thousands] = words else {
        return UNREADABLE_WORDS;
    };
    let Ok(thousands) = thousands.parse::<u32>() else {
        return UNREADABLE_WORDS;
    };
    match copy::run(rt, thousands) {
        Some(()) => 0,
        None => ENDED,
    }
}

fn main(rt: HostRuntime) -> io::Result<ExitCode> {
    let words: Vec<String> = env::args(&rt)?.collect(rt.alloc())?;
    Ok(ExitCode::from(run(&rt, words.as_slice())))
}
