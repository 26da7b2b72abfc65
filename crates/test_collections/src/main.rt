//! Does what each row of its input says to an empty map, list, tree or set of runs, and prints what comes of it.
//!
//! A row begins with its kind: `map` has calls of the shared map, `list` calls of the shared list, `tree` changes of a
//! document's revisions, and `runs` calls of their runs. Statements are with `;` between. `tests/rows` has the rows and what they must print.
#![tactic(auto)]

mod lists;
mod maps;
mod merges;
mod runs;
mod trees;

use std::alloc::Global;
use std::test::Fail;

/// What comes of a row.
fn told(alloc: Global, row: &str) -> Result<String, Fail> {
    let Some((kind, statements)) = row.split_once(' ') else {
        return Err("a kind and statements".into());
    };
    match kind {
        "map" => maps::told(alloc, statements),
        "list" => lists::told(alloc, statements),
        "runs" => runs::told(alloc, statements),
        "tree" => trees::told(alloc, statements),
        _ => Err("a kind of row".into()),
    }
}

fn main(rt: HostRuntime) -> Result<(), Fail> {
    for line in rt.lines(rt.alloc()) {
        let text = told(rt.alloc(), line?.as_str())?;
        println!(rt; "{text}")?;
    }
    Ok(())
}
