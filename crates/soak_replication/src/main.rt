//! Replications between sessions of two databases, of which an end may fail or lie.
//!
//! Without arguments the program goes through the cases. In each a source has a document with two leaves, or
//! three documents of which one is to be brought; a target is empty, and a worker brings the one to the
//! other. Then comes a second run, between ends that do as they should. Of each run is printed how it
//! ended, and what both databases then have.
//! After these come two cases in which an end is closed after the first run, and opened again as its
//! successor. More is written at the source, and a new worker goes on from the checkpoints.
//! `soak_replication replicate` makes one replication, and one more by a new worker where memory was
//! refused. The status is 1 where memory was refused outside of a replication, and 2 for other arguments.
#![tactic(auto)]

mod case;
mod databases;
mod documents;
mod end;
mod epochs;
mod flaw;
mod print;
mod run;
mod stage;

use crate::case::{CASES, Case};
use crate::databases::tell_case;
use crate::epochs::tell_epochs;
use std::process::ExitCode;
use std::sync::Wait;
use std::time::Clock;
use std::{env, io};

const UNREADABLE_WORDS: u8 = 2;

fn tell_all<R: Wait + Clock + Print + AllocGlobal + Drop>(rt: &R) -> io::Result<()> {
    for case in CASES {
        tell_case(rt, case)?;
    }
    tell_epochs(rt)
}

fn main(rt: HostRuntime) -> io::Result<ExitCode> {
    let words: Vec<String> = env::args(&rt)?.collect(rt.alloc())?;
    match words.as_slice() {
        [_] => tell_all(&rt)?,
        [_, word] if word.as_str() == "replicate" => tell_case(&rt, Case::Retried)?,
        _ => return Ok(ExitCode::from(UNREADABLE_WORDS)),
    }
    Ok(ExitCode::SUCCESS)
}
