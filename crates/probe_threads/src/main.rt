//! Runs of sessions on threads, whose times and requests for memory are taken from outside.
//!
//! `probe_threads write` has the one session of a database write a document, and once more where it had no
//! receipt; it prints what each write was answered. `probe_threads successor` has it do so, closes the database,
//! opens its successor, once more where that was refused, and has the session of that do so too; it prints what
//! that was answered. `probe_threads compact` has a session write three documents and compact, slice by slice, and
//! once more where it had no receipt. `probe_threads looks THREADS TIMES` has as many threads look so often each at
//! a document, each time with a snapshot of its own, and `probe_threads refreshes THREADS TIMES` without.
//! `probe_threads writes SESSIONS GATHER TIMES` has as many threads, none of which is the program's first, write so
//! many documents each, of which so many may be one publication. The last line is how many entries the history
//! has in the end. The status is 1 where memory was refused before a session wrote or compacted, or one of many
//! calls was refused, and 2 for other arguments.
#![tactic(auto)]

mod epochs;
mod plan;
mod run;
mod work;

use crate::run::{Outcome, run};
use crate::work::Told;
use std::process::ExitCode;
use std::{env, io};

/// The status of a run that was refused memory, or one of many calls.
const REFUSED: u8 = 1;

const UNREADABLE_WORDS: u8 = 2;

/// Prints what a write or a compaction was answered.
fn print(rt: &HostRuntime, told: Told) -> io::Result<()> {
    match told {
        Told::Receipt { call, place } => println!(rt; "call {call} place {place}"),
        Told::Fault { fault, place } => println!(rt; "{fault}, place {place}"),
    }
}

fn print_all(rt: &HostRuntime, outcome: Outcome) -> io::Result<()> {
    for told in outcome.told.into_iter().flatten() {
        print(rt, told)?;
    }
    println!(rt; "{}", outcome.entries)
}

fn main(rt: HostRuntime) -> io::Result<ExitCode> {
    let words: Vec<String> = env::args(&rt)?.collect(rt.alloc())?;
    let Some(plan) = plan::read(words.as_slice()) else {
        return Ok(ExitCode::from(UNREADABLE_WORDS));
    };
    let Some(outcome) = run(&rt, rt.alloc(), plan) else {
        return Ok(ExitCode::from(REFUSED));
    };
    print_all(&rt, outcome)?;
    Ok(ExitCode::SUCCESS)
}
