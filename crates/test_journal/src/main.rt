//! Reports what a journal makes of each row of its input, a text for each. A row is words with `|` between, and the first says
//! what is asked. At a line that is no row the run ends, with status 1.
#![tactic(auto)]

mod appends;
mod files;
mod restores;

use std::alloc::Global;
use std::test::Fail;

/// What a row of these words prints.
fn told(rt: &HostRuntime, words: &[&str]) -> Result<String, Fail> {
    let alloc = rt.alloc();
    match words {
        ["restore", synced, raise, text] => restores::restored(alloc, synced, raise, text),
        ["append", dump, calls, script] => appends::appended(alloc, dump, calls, script),
        ["start", folder, port] => files::started(rt, folder, port),
        ["write", folder, dump] => files::written(rt, folder, dump),
        ["keep", folder, epoch, count] => files::kept(rt, folder, epoch, count),
        _ => Err("no such row".into()),
    }
}

/// What a row prints.
fn row_told(rt: &HostRuntime, row: &str) -> Result<String, Fail> {
    let words: Vec<&str> = row.split('|').collect(rt.alloc())?;
    told(rt, words.as_slice())
}

fn main(rt: HostRuntime) -> Result<(), Fail> {
    for row in rt.lines(rt.alloc()) {
        let text = row_told(&rt, row?.as_str())?;
        println!(rt; "{text}")?;
    }
    Ok(())
}
