//! A read beside a write that is held.

use crate::client::Client;
use crate::ends::{Clients, Ends};
use crate::marks::Marks;
use crate::terms::{Unheard, terms, workers};
use http_front::{Setting, listen};
use session_api::Calls;
use std::alloc::Global;
use std::sync::Wait;
use std::thread::Threads;
use std::time::Clock;
use std::{io, thread};

/// So often a wait for changes looks.
const TURNS: u64 = 1000;

/// Serves two connections, whose client reads by one while the write of the other is held.
pub(crate) fn serve_held<R: AllocGlobal + Threads + Wait + Clock + Sync, S: Calls<R> + Send>(
    rt: &R,
    ends: Ends,
    marks: &Marks,
    sessions: &mut [S],
) -> io::Result<String>
where
    S::Opened: Send,
{
    let Ends { entrance, clients } = ends;
    let setting = Setting::new(rt.alloc(), rt, TURNS)?;
    let workers = workers(rt, rt.alloc(), &Unheard)?;
    let (told, ()) = thread::join(
        rt,
        move || read_beside_write(rt, rt.alloc(), marks, clients),
        || listen(rt, &entrance, sessions, terms(), None, &setting, &workers),
    );
    told
}

/// Writes by the first connection, and reads by the second one while the write is held. Then that one waits for a change, and
/// none comes.
fn read_beside_write(
    clock: &impl Clock,
    alloc: Global,
    marks: &Marks,
    clients: Clients,
) -> io::Result<String> {
    let mut writer = Client::new(alloc, &clients.first)?;
    let mut reader = Client::new(alloc, &clients.second)?;
    let mut told = String::new(alloc);
    writer.send("PUT", "/db/a", "{}")?;
    marks.wait(clock, &marks.held, 0);
    reader.ask(&mut told, "GET", "/db", "")?;
    marks.released.count();
    writer.tell_response(&mut told, "PUT", "/db/a")?;
    reader.ask(&mut told, "GET", "/db/_changes?feed=longpoll&since=1", "")?;
    let late = format!(in alloc; "{} late\n", marks.late.times())?;
    told.push_str(late.as_str())?;
    Ok(told)
}
