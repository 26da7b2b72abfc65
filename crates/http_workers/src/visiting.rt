//! Workers that take connections as requests come on them.
ghost use Rattle.std.specs.Prelude.{◌≡◌, ◌<◌, ◌≤◌, ⊤, true, false, length, Option, Result};
ghost use Rattle.http_connection.specs.declared.outcome.Ended.{Ended};
ghost use Rattle.http_workers.specs.Worker.{CatchesUp, EachVisits, Serves, ServesVisits, ServesWhole, Visits, place_of};
ghost use Rattle.session_api.specs.declared.fault.CallFault.{CallFault};

use crate::accepting::accept_by_one;
use crate::buffers::Buffers;
use crate::listening::{Shared, Terms};
use crate::noticing::{Noticing, serve_noticed};
use crate::serving::Serving;
use crate::watch::Watch;
use crate::workers::Refusals;
use http_connection::Cause;
use http_turns::Setting;
use session_api::{Calls, Viewer};
use sockets::{Pace, TimedReader, TimedWriter, hang_up, is_set};
use std::alloc::Global;
use std::net::TcpStream;
use std::sync::Wait;
use std::sync::atomic::AtomicBool;
use std::thread;
use std::thread::Threads;
use std::time::{Clock, Duration};
use waiting_room::{Connection, Entrance, EventLoop, Terms as Keeping, WaitingRoom};

/// So many milliseconds a worker waits for a next request of its client, while no other connection waits for a worker: a
/// client that asks at once again keeps its worker.
const LINGER_MILLISECONDS: u64 = 2;

/// So many seconds the workers wait for the thread that keeps connections. Then it is given up.
const START_SECONDS: u64 = 5;

/// Serves connections by visits, each session with a worker of its own, while another thread keeps those that wait.
pub(crate) fn serve_by_visits<
    R: Threads + Wait + Clock + Sync,
    X: Sync,
    S: Serving<X> + Send,
    V: Watch + Sync,
>(
    rt: &R,
    sessions: &mut [S],
    terms: Terms<'_>,
    over: Option<&AtomicBool>,
    setting: &Setting<'_, X>,
    shared: &Shared<'_, '_, V>,
)
    requires some { 0 < length sessions.old }
    ensures { EachVisits S.goes S.known setting.now sessions.old sessions.new }
{
    let room = WaitingRoom::new(setting.alloc(), shared.entrance);
    let reports = shared.workers.reports(rt);
    serve_room(rt, sessions, terms, over, setting, shared, &room, &reports);
}

/// Serves the connections of a room, which another thread keeps while they wait.
fn serve_room<'l, R: Threads + Wait + Clock + Sync, X: Sync, S: Serving<X> + Send, V: Watch + Sync>(
    rt: &'l R,
    sessions: &mut [S],
    terms: Terms<'l>,
    over: Option<&'l AtomicBool>,
    setting: &'l Setting<'l, X>,
    shared: &'l Shared<'l, 'l, V>,
    room: &'l WaitingRoom<'l, u64>,
    reports: &'l Refusals<'l, R, V>,
)
    requires some { 0 < length sessions.old }
    ensures { EachVisits S.goes S.known setting.now sessions.old sessions.new }
{
    let alloc = setting.alloc();
    let entrance = shared.entrance;
    // If no thread can be made the second one runs first: the workers then wait for a while, and accept connections themselves.
    let mut wait = || wait_for_clients(rt, alloc, terms, over, entrance, room, reports);
    let mut work = ||
        requires { 0 < length sessions.now }
        ensures { EachVisits S.goes S.known setting.entry.now sessions.entry.now sessions.exit.now }
    { visit_by_all(rt, sessions, terms, over, setting, shared, room) };
    thread::join_mut(rt, &mut wait, &mut work);
}

/// Keeps the connections of a room that wait, until all ends.
fn wait_for_clients<'l, R: Wait + Clock, V: Watch>(
    rt: &R,
    alloc: Global,
    terms: Terms<'_>,
    over: Option<&'l AtomicBool>,
    entrance: &'l Entrance,
    room: &'l WaitingRoom<'l, u64>,
    reports: &'l Refusals<'l, R, V>,
) {
    let kept = Keeping {
        idle: terms.pace.idle,
        clients: terms.clients,
    };
    let mut event_loop = EventLoop::new(alloc, entrance, room, over, reports, kept);
    event_loop.run(rt);
}

/// Serves connections of a room by sessions, each with a worker of its own.
fn visit_by_all<R: Threads + Wait + Clock + Sync, X: Sync, S: Serving<X> + Send, V: Watch + Sync>(
    rt: &R,
    sessions: &mut [S],
    terms: Terms<'_>,
    over: Option<&AtomicBool>,
    setting: &Setting<'_, X>,
    shared: &Shared<'_, '_, V>,
    room: &WaitingRoom<'_, u64>,
)
    requires some { 0 < length sessions.old }
    ensures { EachVisits S.goes S.known setting.now sessions.old sessions.new }
{
    let asked = sessions.len();
    thread::for_each_mut(
        rt,
        sessions,
        asked,
        &|index, session| session.visit_connections(rt, index, terms, over, setting, shared, room),
    );
}

/// Serves connections of a room by a session, or those that its worker accepts, where no thread keeps the others.
pub(crate) fn visit_by_one<R: Wait + Clock, X, S: Calls<X>, V: Watch>(
    rt: &R,
    index: usize,
    session: &mut S,
    terms: Terms<'_>,
    over: Option<&AtomicBool>,
    setting: &Setting<'_, X>,
    shared: &Shared<'_, '_, V>,
    room: &WaitingRoom<'_, u64>,
)
    ensures { ServesVisits S.goes S.known setting.now session.old session.new }
{
    let workers = shared.workers;
    if !room.wait_for_start(rt, Duration::from_secs(START_SECONDS)) {
        if index == 0 {
            workers.say_no_event_loop();
        }
        let endless = Terms {
            connections: 0,
            ..terms
        };
        accept_by_one(rt, index, session, endless, over, setting, shared);
        return;
    }
    let mut buffers = shared.muster.get_ready(rt, setting.alloc(), workers);
    let noticing = workers.noticing(rt, shared.history, terms, index);
    visit_each(
        &noticing,
        room,
        &mut buffers,
        session,
        terms.pace,
        over,
        setting,
    );
    workers.give_back(buffers);
}

/// Serves the connections of a room, each until its client is silent, until all ends.
fn visit_each<R: Wait + Clock, X, S: Calls<X>, V: Watch>(
    noticing: &Noticing<'_, R, V>,
    room: &WaitingRoom<'_, u64>,
    buffers: &mut Buffers,
    session: &mut S,
    pace: Pace,
    over: Option<&AtomicBool>,
    setting: &Setting<'_, X>,
)
    ensures { ServesVisits S.goes S.known setting.now session.old session.new }
{
    for _ in 0..u64::MAX {
        let Some(connection) = room.next(noticing.clock) else {
            return;
        };
        let visited = visit(
            noticing,
            buffers,
            connection,
            session,
            pace,
            over,
            room.crowded(),
            setting,
        );
        visited.leave(noticing.clock, room);
    }
}

/// A connection after a visit.
#[derive(Drop)]
struct Visited {
    connection: Connection<u64>,
    /// Whether its client may ask more.
    goes_on: bool,
}

impl Visited {
    /// Returns the connection to the room, or closes it.
    fn leave<R: Wait>(self, rt: &R, room: &WaitingRoom<'_, u64>) {
        let Visited {
            connection,
            goes_on,
        } = self;
        if goes_on {
            room.give_back(rt, connection);
        } else {
            room.close(connection);
        }
    }
}

/// Serves a connection until its client is silent, or it ends. Where the session has seen less than the one that answered it last,
/// the connection goes on as it was.
fn visit<R: Clock, X, S: Calls<X>, V: Watch>(
    noticing: &Noticing<'_, R, V>,
    buffers: &mut Buffers,
    connection: Connection<u64>,
    session: &mut S,
    pace: Pace,
    over: Option<&AtomicBool>,
    crowded: &AtomicBool,
    setting: &Setting<'_, X>,
) -> Visited
    ensures { (ended : Option Ended) × Visits S.goes S.known setting.now session.old
        (record { came = place_of connection.carried; ended = ended; left = place_of result.connection.carried; goes_on = result.goes_on })
        session.new }
{
    let Connection { socket, carried } = connection;
    if !catch_up(session, place_of(carried)) {
        noticing.pause();
        return Visited {
            connection: Connection { socket, carried },
            goes_on: true,
        };
    }
    answer(
        noticing, buffers, socket, session, pace, over, crowded, setting,
    )
}

/// The place of the last answer on a connection, or 0 where there was none.
fn place_of(carried: Option<u64>) -> u64
    ensures { result ≡ place_of carried }
{
    match carried {
        Some(place) => place,
        None => 0,
    }
}

/// Whether a session has seen so many entries. It looks where it has not.
fn catch_up<S: Viewer>(session: &mut S, came: u64) -> bool
    ensures catches_up { (looked : Option (Result ⊤ CallFault)) × CatchesUp S.goes S.known session.old looked session.new }
    ensures enough { result ≡ true → came ≤ length (S.known session.new).seen }
    ensures little { result ≡ false → length (S.known session.new).seen < came }
{
    if session.place() >= came {
        return true;
    }
    let _looked = session.refresh();
    came <= session.place()
}

/// A connection that was served until its client is silent, or it ended.
fn answer<R: Clock, X, S: Calls<X>, V: Watch>(
    noticing: &Noticing<'_, R, V>,
    buffers: &mut Buffers,
    socket: TcpStream,
    session: &mut S,
    pace: Pace,
    over: Option<&AtomicBool>,
    crowded: &AtomicBool,
    setting: &Setting<'_, X>,
) -> Visited
    ensures serves { (ended : Ended) × Serves S.goes S.known setting.now session.old ended session.new }
    ensures whole { result.goes_on ≡ true → ServesWhole S.goes S.known setting.now session.old session.new }
    ensures leaves { place_of result.connection.carried ≡ length (S.known session.new).seen }
{
    let goes_on = serve_visit(
        noticing, buffers, &socket, session, pace, over, crowded, setting,
    );
    let carried = Some(session.place());
    Visited {
        connection: Connection { socket, carried },
        goes_on,
    }
}

/// Serves a connection until its client is silent, or it ends, and says whether it goes on: only where of a next request
/// nothing was read.
fn serve_visit<R: Clock, X, S: Calls<X>, V: Watch>(
    noticing: &Noticing<'_, R, V>,
    buffers: &mut Buffers,
    socket: &TcpStream,
    session: &mut S,
    pace: Pace,
    over: Option<&AtomicBool>,
    crowded: &AtomicBool,
    setting: &Setting<'_, X>,
) -> bool
    ensures serves { (ended : Ended) × Serves S.goes S.known setting.now session.old ended session.new }
    ensures whole { result ≡ true → ServesWhole S.goes S.known setting.now session.old session.new }
{
    let clock = noticing.clock;
    let pace = Pace {
        idle: Duration::from_millis(LINGER_MILLISECONDS),
        patience: pace.patience,
    };
    let mut reader = TimedReader::visit(socket, clock, pace, over, crowded);
    let writer = TimedWriter::new(socket, clock, pace.patience, over);
    let ended = serve_noticed(
        &mut buffers.window,
        &mut reader,
        writer,
        session,
        setting,
        noticing,
    );
    if ended.cause == Cause::AtEnd && reader.is_silent() && !is_set(over) {
        return true;
    }
    if ended.cause == Cause::Closed || is_set(over) {
        // A request that was refused is still in the window.
        hang_up(socket, clock, buffers.window.bytes().is_empty(), over);
    }
    false
}
