//! What the program does with a listener.
ghost use Rattle.std.specs.Prelude.{◌≡◌, ◌≤◌, IsTrue, None};
ghost use Rattle.history_lock.specs.Names.{IsNamed};
ghost use Rattle.http_front.specs.Opening.{server_config};
ghost use Rattle.http_front.specs.Server.{ServesListener, ServesSessions, server_status, server_turns};

use crate::opening::{NOT_OPENED, server_config};
use crate::running::Running;
use commands::Config;
use history_lock::Opened;
use http_workers::{Entrance, Terms, Watch, Workers, listen};
use std::marker::Brand;
use std::sync::Wait;
use std::thread::Threads;
use std::time::Clock;
use updater_state::Opening;

/// So often a wait for changes looks, which is about two minutes.
pub const SERVER_TURNS: u64 = 100_000;

/// The exit status after the last connection.
const SERVED: u8 = 0;

/// Serves an empty database, whose history may have so many entries, to the connections of an entrance, by so many
/// workers (1 to 64), each with a session of its own, on these terms ([`listen`]). It says so where fewer serve than were asked for, or none.
/// The answer is the exit status: 0 after the last connection, or 1 where no database was opened, memory for the
/// routes was refused, or no worker can start besides the caller's.
pub fn run_server<A: AllocGlobal + Threads + Wait + Clock + Sync, V: Watch + Sync>(
    entrance: &Entrance,
    workers: u16,
    max_places: u32,
    terms: Terms<'_>,
    watch: &V,
    rt: &A,
) -> u8
    requires workers { (1 ≤ workers) × (workers ≤ 64) }
    requires places { 1 ≤ max_places }
    ensures { ServesListener None workers max_places terms.entry.connections result }
{
    let config = server_config(workers, max_places);
    let asked = workers as u64;
    let Some(workers) = Workers::new(rt, rt.alloc(), workers, watch) else {
        return server_status(false);
    };
    let served = serve_empty(entrance, config, terms, &workers, rt);
    if !served {
        watch.few_workers(0, asked);
    }
    server_status(served)
}

/// The exit status of a server that served, or whose database was not opened.
fn server_status(served: bool) -> u8
    ensures { result ≡ server_status served }
{
    if served { SERVED } else { NOT_OPENED }
}

/// Serves an empty database with these numbers, and answers whether it was opened.
fn serve_empty<A: AllocGlobal + Threads + Wait + Clock + Sync, V: Watch + Sync>(
    entrance: &Entrance,
    config: Config,
    terms: Terms<'_>,
    workers: &Workers<'_, V>,
    rt: &A,
) -> bool
    ensures { IsTrue result → ServesSessions None config server_turns terms.entry.connections }
{
    let Ok(opened) = Opened::new(rt.alloc(), config) else {
        return false;
    };
    serve_all::<Brand, &A, A, V>(entrance, config, terms, workers, rt, rt, opened)
}

/// Serves a database that was opened with these numbers, whose writer keeps a runtime of its own, and answers whether
/// it was opened.
#[tactic(auto, unfolding(crate::specs::Server::server_turns))]
fn serve_all<
    J: Opening + Send + Sync,
    R: Wait + Drop + Send,
    A: AllocGlobal + Threads + Wait + Clock + Sync,
    V: Watch + Sync,
>(
    entrance: &Entrance,
    config: Config,
    terms: Terms<'_>,
    workers: &Workers<'_, V>,
    rt: &A,
    writer_rt: R,
    opened: Opened,
) -> bool
    requires named { IsNamed J.book J.base J.table J.capacity J.sessions J.config opened }
    requires config { opened.config ≡ config }
    ensures { IsTrue result → ServesSessions J.base config server_turns terms.entry.connections }
{
    let Some((running, mut sessions)) = Running::<R, J, A>::start(
        rt.alloc(),
        writer_rt,
        opened,
        rt,
        SERVER_TURNS,
    ) else {
        return false;
    };
    listen(
        rt,
        entrance,
        sessions.as_mut_slice(),
        terms,
        None,
        &running.setting,
        workers,
    );
    let _closed = running.end(sessions, rt);
    true
}
