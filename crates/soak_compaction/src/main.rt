//! Compactions that are held while others write, and a soak.
//!
//! The program takes no arguments. In each case two sessions do what it says, on threads: while session 0 is
//! held within its compaction, session 1 does its part. They meet, session 1 does the rest, and the
//! database is closed; each act is a line, and the end of the database is one. Then comes the soak, in
//! which many sessions write, purge, compact and read at once. Each history is acted again in one thread,
//! and its dump is audited. The status is 1 where memory was refused.
#![tactic(auto)]

mod act;
mod caller;
mod case;
mod command;
mod content;
mod count;
mod hold;
mod notes;
mod part;
mod print;
mod replay;
mod run;
mod soak;
mod told;

use crate::case::{CASES, Case};
use crate::notes::Notes;
use crate::print::{print_case, print_soak};
use crate::run::{Work, run};
use crate::soak::LIMITS;
use std::io;
use std::process::ExitCode;
use std::sync::Wait;
use std::thread::Threads;
use std::time::Clock;

/// The status of a run that was refused memory.
const REFUSED: u8 = 1;

/// Does what the case says, and prints it. Nothing where memory was refused.
fn tell_case<R: Threads + Wait + Clock + Print + AllocGlobal + Sync>(
    rt: &R,
    case: Case,
) -> io::Result<Option<()>> {
    let notes = Notes::new(rt.alloc());
    let Some(ending) = run(
        rt,
        rt.alloc(),
        case.script().limits,
        Work::Case(case),
        &notes,
    ) else {
        return Ok(None);
    };
    print_case(rt, case, &notes, ending)?;
    Ok(Some(()))
}

/// Has many sessions work at once, and prints what that came to. Nothing where memory was refused.
fn tell_soak<R: Threads + Wait + Clock + Print + AllocGlobal + Sync>(
    rt: &R,
) -> io::Result<Option<()>> {
    let notes = Notes::new(rt.alloc());
    let Some(ending) = run(rt, rt.alloc(), LIMITS, Work::Soak, &notes) else {
        return Ok(None);
    };
    print_soak(rt, &notes, ending)?;
    Ok(Some(()))
}

fn main(rt: HostRuntime) -> io::Result<ExitCode> {
    for case in CASES {
        if tell_case(&rt, case)?.is_none() {
            return Ok(ExitCode::from(REFUSED));
        }
    }
    match tell_soak(&rt)? {
        Some(()) => Ok(ExitCode::SUCCESS),
        None => Ok(ExitCode::from(REFUSED)),
    }
}
