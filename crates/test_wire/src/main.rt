//! Reports what the libraries of texts, limits and connections make of each row of its input, a text for
//! each. A row is words with `|` between, and the first says what is asked. At a line that is no row the
//! run ends, with status 1.
#![tactic(auto)]

mod arguments;
mod calls;
mod histories;
mod limits;
mod pages;
mod peers;
mod responses;
mod scripts;
mod services;
mod ticks;
mod waits;

use std::alloc::Global;
use std::test::Fail;

/// What a row of these words prints.
fn told(alloc: Global, words: &[&str]) -> Result<String, Fail> {
    match words {
        ["line", line] => histories::line_told(alloc, line),
        ["commands", lines @ ..] => histories::commands_told(alloc, lines),
        ["reply", place, form, command, reply] => {
            responses::reply_told(alloc, place, form, command, reply)
        }
        ["answer", query] => responses::answer_told(alloc, query),
        ["response", place, name] => responses::response_told(alloc, place, name),
        ["feed", place] => responses::feed_head_told(alloc, place),
        ["feed_end", last_seq, pending] => responses::feed_last_told(alloc, last_seq, pending),
        ["config", numbers @ ..] => limits::config_told(alloc, numbers),
        ["workers", batch] => limits::workers_told(alloc, batch),
        ["seat", session, call] => limits::seat_told(alloc, session, call),
        ["arguments", arguments @ ..] => arguments::arguments_told(alloc, arguments),
        ["digest", text] => limits::digest_told(alloc, text),
        ["serve", reading, writing, input] => services::served(alloc, reading, writing, input),
        ["read", reading, input] => peers::responses_read(alloc, reading, input),
        ["reads", pace, script, calls] => waits::reads_told(alloc, pace, script, calls),
        ["writes", patience, script, calls] => waits::writes_told(alloc, patience, script, calls),
        ["drain", flag_at, script] => waits::drain_told(alloc, flag_at, script),
        ["guard", origins, hosts, writing, input] => {
            pages::guarded(alloc, origins, hosts, writing, input)
        }
        ["cuts", input] => peers::responses_however_cut(alloc, input),
        ["calls", reading, writing, input, calls @ ..] => {
            calls::calls_told(alloc, reading, writing, input, calls)
        }
        _ => Err("no such row".into()),
    }
}

/// What a row prints.
fn row_told(alloc: Global, row: &str) -> Result<String, Fail> {
    let words: Vec<&str> = row.split('|').collect(alloc)?;
    told(alloc, words.as_slice())
}

fn main(rt: HostRuntime) -> Result<(), Fail> {
    for row in rt.lines(rt.alloc()) {
        let text = row_told(rt.alloc(), row?.as_str())?;
        println!(rt; "{text}")?;
    }
    Ok(())
}
