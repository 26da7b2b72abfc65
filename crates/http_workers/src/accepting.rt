//! Workers that accept connections, and have each until it ends.
ghost use Rattle.std.specs.Prelude.{◌≡◌};
ghost use Rattle.http_connection.specs.declared.outcome.Ended.{Ended};
ghost use Rattle.http_workers.specs.Worker.{Serves, ServesUntil, most_connections};

use crate::buffers::Buffers;
use crate::listening::{Shared, Terms};
use crate::noticing::{Noticing, serve_noticed};
use crate::watch::Watch;
use http_connection::{Cause, Ended};
use http_turns::Setting;
use session_api::Calls;
use sockets::{Pace, TimedReader, TimedWriter, hang_up, is_set};
use std::net::{TcpListener, TcpStream};
use std::sync::Wait;
use std::sync::atomic::AtomicBool;
use std::time::Clock;

/// Serves connections that a worker of its own accepts by a session.
pub(crate) fn accept_by_one<R: Wait + Clock, X, S: Calls<X>, V: Watch>(
    rt: &R,
    index: usize,
    session: &mut S,
    terms: Terms<'_>,
    over: Option<&AtomicBool>,
    setting: &Setting<'_, X>,
    shared: &Shared<'_, '_, V>,
)
    ensures { ServesUntil S.goes S.known setting.now over.entry terms.entry.connections session.old session.new }
{
    let workers = shared.workers;
    let mut buffers = shared.muster.get_ready(rt, setting.alloc(), workers);
    let noticing = workers.noticing(rt, shared.history, terms, index);
    work(
        &noticing,
        shared.entrance.listener(),
        &mut buffers,
        session,
        terms,
        over,
        setting,
    );
    workers.give_back(buffers);
}

/// Serves connections of one session.
fn work<R: Clock, X, S: Calls<X>, V: Watch>(
    noticing: &Noticing<'_, R, V>,
    listener: &TcpListener,
    buffers: &mut Buffers,
    session: &mut S,
    terms: Terms<'_>,
    over: Option<&AtomicBool>,
    setting: &Setting<'_, X>,
)
    ensures { ServesUntil S.goes S.known setting.now over.entry terms.entry.connections session.old session.new }
{
    for _ in 0..most_of(terms.connections) {
        if is_set(over) {
            return;
        }
        match listener.accept() {
            Ok((socket, _peer)) => {
                serve_socket(
                    noticing, buffers, &socket, session, terms.pace, over, setting,
                );
            }
            Err(error) => noticing.rest(&error),
        }
    }
}

/// The most connections, where 0 stands for no end.
#[tactic(auto, unfolding(crate::specs::Worker::no_end))]
fn most_of(connections: u32) -> u64
    ensures { result ≡ most_connections connections }
{
    if connections == 0 {
        return u64::MAX;
    }
    connections as u64
}

/// Serves one connection, whose client is given up in time, and which ends once the flag is set.
fn serve_socket<R: Clock, X, S: Calls<X>, V: Watch>(
    noticing: &Noticing<'_, R, V>,
    buffers: &mut Buffers,
    socket: &TcpStream,
    session: &mut S,
    pace: Pace,
    over: Option<&AtomicBool>,
    setting: &Setting<'_, X>,
) -> Ended
    ensures { (ended : Ended) × Serves S.goes S.known setting.now session.old ended session.new }
{
    let clock = noticing.clock;
    let _nodelay = socket.set_nodelay(true);
    let mut reader = TimedReader::new(socket, clock, pace, over);
    let writer = TimedWriter::new(socket, clock, pace.patience, over);
    let ended = serve_noticed(
        &mut buffers.window,
        &mut reader,
        writer,
        session,
        setting,
        noticing,
    );
    if ended.cause == Cause::Closed || is_set(over) {
        // A request that was refused is still in the window.
        hang_up(socket, clock, buffers.window.bytes().is_empty(), over);
    }
    ended
}
