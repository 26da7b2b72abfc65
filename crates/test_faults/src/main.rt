//! What connections are answered where calls have no answer.
//!
//! The program takes no arguments. For each reason it serves a session whose calls are refused for that reason wherever it may be
//! theirs, and is out of memory where an edit or a compaction can't be refused for it: a read, a wait for changes, an edit and a
//! compaction, each over a connection of its own. It prints each response, how many requests were answered, and why the connection
//! ended.
#![tactic(auto)]

mod refusing;
mod served;

use session_api::Unavailable;
use std::alloc::Global;
use std::test::Fail;

const REASONS: [Unavailable; 7] = [
    Unavailable::Busy,
    Unavailable::Lost,
    Unavailable::Full,
    Unavailable::Behind,
    Unavailable::Overrun,
    Unavailable::Entry,
    Unavailable::Journal,
];

const REQUESTS: [&str; 4] = [
    "GET /db/a HTTP/1.1\r\n\r\n",
    "GET /db/_changes?feed=longpoll&since=1 HTTP/1.1\r\n\r\n",
    "PUT /db/b HTTP/1.1\r\nContent-Length: 2\r\n\r\n{}",
    "POST /db/_compact HTTP/1.1\r\n\r\n",
];

/// What connections are answered where calls are refused for this reason.
fn told(alloc: Global, why: Unavailable) -> Result<String, Fail> {
    let mut text = format!(in alloc; "{why:?}:\n")?;
    for request in REQUESTS {
        served::tell(&mut text, alloc, why, request)?;
    }
    Ok(text)
}

fn main(rt: HostRuntime) -> Result<(), Fail> {
    for why in REASONS {
        let text = told(rt.alloc(), why)?;
        println!(rt; "{text}")?;
    }
    Ok(())
}
