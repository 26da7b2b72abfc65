//! Does what each row of its input says to an empty database, and prints what comes of it.
//!
//! A row begins with its kind: `database` has commands, queries and a follower, `copies` commands beside two
//! compactions that are made by slices, and `world` events of sessions, an updater and a compactor. Statements are
//! with `;` between. `epochs` and `epoch_copies` are such rows in which `reopen` goes on over the end of a history, and
//! `epoch_world` is a world of the epoch after some commands. `tests/rows` has the rows and what they must print.
//! `steps` is a world, and `epoch_steps` one of the epoch after some commands, whose events happen once more if they are refused memory:
//! `tests/test_allocations.py` refuses it.
#![tactic(auto)]

mod answers;
mod changes;
mod copies;
mod databases;
mod epochs;
mod questions;
mod reads;
mod replies;
mod worlds;

use std::alloc::Global;
use std::test::Fail;

/// What comes of a row.
fn told(alloc: Global, row: &str) -> Result<String, Fail> {
    let Some((kind, statements)) = row.split_once(' ') else {
        return Err("a kind and statements".into());
    };
    match kind {
        "database" | "epochs" => databases::told(alloc, statements),
        "copies" | "epoch_copies" => copies::told(alloc, statements),
        "world" => worlds::told(alloc, statements),
        "epoch_world" => worlds::told_after(alloc, statements),
        "steps" => worlds::told_by_steps(alloc, statements),
        "epoch_steps" => worlds::told_after_by_steps(alloc, statements),
        _ => Err("a kind of row".into()),
    }
}

fn main(rt: HostRuntime) -> Result<(), Fail> {
    for line in rt.lines(rt.alloc()) {
        let text = told(rt.alloc(), line?.as_str())?;
        println!(rt; "{text}")?;
    }
    Ok(())
}
