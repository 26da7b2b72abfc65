//! Reads of a whole version, whose requests for memory the tests count and refuse from outside.
//!
//! `probe_store written N` makes a version of N documents; `probe_store read N` then reads it in each
//! way, and prints what it finds. The status is 1 where memory was refused, and 2 for other arguments.
#![tactic(auto)]

mod reads;
mod store;

use std::process::ExitCode;
use std::{env, io};

/// The status of a run that was refused memory.
const REFUSED: u8 = 1;

const UNREADABLE_WORDS: u8 = 2;

fn run_written(rt: &HostRuntime, documents: u64) -> u8 {
    match store::written(rt.alloc(), documents) {
        Some(_) => 0,
        None => REFUSED,
    }
}

fn run_read(rt: &HostRuntime, documents: u64) -> io::Result<u8> {
    let Some(version) = store::written(rt.alloc(), documents) else {
        return Ok(REFUSED);
    };
    reads::print_all(rt, &version)?;
    Ok(0)
}

fn run(rt: &HostRuntime, words: &[String]) -> io::Result<u8> {
    let [_, name, documents] = words else {
        return Ok(UNREADABLE_WORDS);
    };
    let Ok(documents) = documents.parse::<u64>() else {
        return Ok(UNREADABLE_WORDS);
    };
    match name.as_str() {
        "written" => Ok(run_written(rt, documents)),
        "read" => run_read(rt, documents),
        _ => Ok(UNREADABLE_WORDS),
    }
}

fn main(rt: HostRuntime) -> io::Result<ExitCode> {
    let words: Vec<String> = env::args(&rt)?.collect(rt.alloc())?;
    Ok(ExitCode::from(run(&rt, words.as_slice())?))
}
