//! A feed that goes on while another connection writes.

use crate::client::Client;
use crate::ended::with_status;
use crate::ends::{Clients, Ends};
use crate::terms::{Unheard, terms};
use http_front::{MAX_PLACES, run_server};
use std::alloc::Global;
use std::sync::Wait;
use std::thread::Threads;
use std::time::Clock;
use std::{io, thread};

/// What gives three rows as they come.
const FEED: &str = "/db/_changes?feed=continuous&limit=3";

/// The documents that are written, and the last one's second revision.
const TARGETS: [&str; 3] = [
    "/db/a",
    "/db/b",
    "/db/a?rev=1-b7a5841aeb59f1be5d0e27b640827094",
];

/// Serves two connections, and reports what the clients were answered.
pub(crate) fn told<R: AllocGlobal + Threads + Wait + Clock + Sync>(
    rt: &R,
    ends: Ends,
) -> io::Result<String> {
    let Ends { entrance, clients } = ends;
    let (told, status) = thread::join(
        rt,
        move || read_beside_writes(rt.alloc(), clients),
        || run_server(&entrance, 2, MAX_PLACES, terms(), &Unheard, rt),
    );
    with_status(told, status)
}

/// Reads a line of the feed after each write, and then the last line.
fn read_beside_writes(alloc: Global, clients: Clients) -> io::Result<String> {
    let mut follower = Client::new(alloc, &clients.first)?;
    let mut writer = Client::new(alloc, &clients.second)?;
    let mut told = String::new(alloc);
    follower.send("GET", FEED, "")?;
    follower.tell_head(&mut told, "GET", FEED)?;
    for target in TARGETS {
        writer.ask(&mut told, "PUT", target, "{}")?;
        follower.tell_line(&mut told)?;
    }
    follower.tell_line(&mut told)?;
    if follower.is_closed()? {
        told.push_str("closed\n")?;
    }
    Ok(told)
}
