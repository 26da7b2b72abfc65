//! A history that takes no more.

use crate::client::Client;
use crate::ends::{Clients, Ends};
use crate::terms::{Unheard, terms, workers};
use http_front::{Setting, listen};
use session_api::Calls;
use std::alloc::Global;
use std::sync::Wait;
use std::thread::Threads;
use std::time::Clock;
use std::{io, thread};

/// Nobody waits for changes.
const TURNS: u64 = 1;

/// Serves two connections, of which one writes until the history is full.
pub(crate) fn serve_full<R: AllocGlobal + Threads + Wait + Clock + Sync, S: Calls<R> + Send>(
    rt: &R,
    ends: Ends,
    sessions: &mut [S],
) -> io::Result<String>
where
    S::Opened: Send,
{
    let Ends { entrance, clients } = ends;
    let setting = Setting::new(rt.alloc(), rt, TURNS)?;
    let workers = workers(rt, rt.alloc(), &Unheard)?;
    let (told, ()) = thread::join(
        rt,
        move || write_twice(rt.alloc(), clients),
        || listen(rt, &entrance, sessions, terms(), None, &setting, &workers),
    );
    told
}

/// Writes two documents by the first connection, and reads by the second one what there is.
fn write_twice(alloc: Global, clients: Clients) -> io::Result<String> {
    let mut writer = Client::new(alloc, &clients.first)?;
    let mut reader = Client::new(alloc, &clients.second)?;
    let mut told = String::new(alloc);
    writer.ask(&mut told, "PUT", "/db/a", "{}")?;
    writer.ask(&mut told, "PUT", "/db/b", "{}")?;
    reader.ask(&mut told, "GET", "/db", "")?;
    Ok(told)
}
