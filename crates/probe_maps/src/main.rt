//! Whole runs on the shared map, whose requests for memory the tests count and refuse from outside.
//!
//! `probe_maps map N M` inserts N keys and removes the first M; `probe_maps kept M N` keeps the map after
//! M of N insertions, and removes all keys from the last. The status is 1 where memory was refused,
//! and 2 for other arguments.
#![tactic(auto)]

mod map;

use cow_index::CowMap;
use std::process::ExitCode;
use std::{env, io};

/// The status of a run that was refused memory.
const REFUSED: u8 = 1;

const UNREADABLE_WORDS: u8 = 2;

/// Prints the length and the height of the map that is left, the nodes that all calls reported, and how
/// many calls reported too many.
fn run_map(rt: &HostRuntime, inserted: u64, removed: u64) -> io::Result<u8> {
    let mut nodes = map::Nodes::default();
    let Ok(map) = map::added(CowMap::new(rt.alloc()), 0..inserted, &mut nodes) else {
        return Ok(REFUSED);
    };
    let Ok(map) = map::removed(map, 0..removed, &mut nodes) else {
        return Ok(REFUSED);
    };
    println!(rt;
        "{} {} {} {}",
        map.len(),
        map.height(),
        nodes.made,
        nodes.calls_above
    )?;
    Ok(0)
}

/// Prints how many keys are left of the map after all calls, and then the keys of the kept one.
fn run_kept(rt: &HostRuntime, first: u64, all: u64) -> io::Result<u8> {
    let Ok((kept, left)) = map::kept(rt.alloc(), first, all) else {
        return Ok(REFUSED);
    };
    println!(rt; "{left}")?;
    for (key, _) in kept.iter() {
        println!(rt; "{key}")?;
    }
    Ok(0)
}

fn number(word: &str) -> Option<u64> {
    word.parse::<u64>().ok()
}

fn run(rt: &HostRuntime, words: &[String]) -> io::Result<u8> {
    let [_, name, first, second] = words else {
        return Ok(UNREADABLE_WORDS);
    };
    let (Some(first), Some(second)) = (number(first), number(second)) else {
        return Ok(UNREADABLE_WORDS);
    };
    match name.as_str() {
        "map" => run_map(rt, first, second),
        "kept" => run_kept(rt, first, second),
        _ => Ok(UNREADABLE_WORDS),
    }
}

fn main(rt: HostRuntime) -> io::Result<ExitCode> {
    let words: Vec<String> = env::args(&rt)?.collect(rt.alloc())?;
    Ok(ExitCode::from(run(&rt, words.as_slice())?))
}
