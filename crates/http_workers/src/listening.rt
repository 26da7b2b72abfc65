//! Connections that come to a listener, each session with a worker of its own.
ghost use Rattle.std.specs.Prelude.{◌≡◌, ℕ, ◌<◌, length, slice_index_or};
ghost use Rattle.http_workers.specs.Worker.{ServesUntil};

use crate::muster::Muster;
use crate::room::Room;
use crate::serving::Serving;
use crate::visiting::serve_by_visits;
use crate::watch::Watch;
use crate::workers::Workers;
use http_turns::Setting;
use origin_policy::Policy;
use session_api::Calls;
use sockets::Pace;
use std::sync::Wait;
use std::sync::atomic::AtomicBool;
use std::thread;
use std::thread::Threads;
use std::time::Clock;
use waiting_room::Entrance;

/// How the connections of a listener are served.
#[derive(Clone, Copy, Debug, PartialEq, Eq)]
pub struct Terms<'p> {
    /// How many connections each worker accepts, one after the other, or 0 where no number ends them: then it serves by visits.
    pub connections: u32,
    /// How many connections are open at most, where workers serve by visits.
    pub clients: u32,
    /// How long a connection waits for its client.
    pub pace: Pace,
    /// Whether each request is logged.
    pub log: bool,
    /// How many places the history has, of which it is said when nine tenths are taken, and when all are.
    pub places: u64,
    /// Which requests are answered: all of them where there is no policy.
    pub policy: Option<&'p Policy>,
}

/// Serves the connections that come to the entrance: each session is lent to a worker of its own.
///
/// Where the terms say how many connections, each worker accepts so many of them, one after the other. One that can't be
/// accepted counts, and the next is waited for a millisecond later.
///
/// Where the number is 0, the workers serve by visits, without end: a thread of its own accepts the connections, and
/// keeps each on which no byte of a next request has come. A worker takes one that is ready, serves it until its
/// client is silent, and returns it, so a connection that waits holds no worker. Where no thread can be made for that, it is
/// said, and each worker accepts connections, one after the other, and has each until it ends. Where connections can't be waited
/// for any longer, that is said, and the workers end.
///
/// Where a flag is given, it ends them early: once it is set, connections that wait are closed, each worker ends the connection
/// that it has behind the request that is then awaited, for which it waits a tenth of a second, and takes no other. A request
/// that has begun is waited for a second longer at most, and so is a client that takes a response. Who sets the flag calls
/// [`Entrance::wake`]. A worker that accepts connections is woken by one.
///
/// A worker takes what it keeps before it takes its first connection, and waits where memory for it is
/// refused; one of them has what the workers were made with. Where no thread can be made for a worker,
/// another one serves its connections after its own. Where fewer workers are ready than there are
/// sessions, that is said, and so is a connection that can't be accepted.
pub fn listen<R: Threads + Wait + Clock + Sync, X: Sync, S: Calls<X> + Send, V: Watch + Sync>(
    rt: &R,
    entrance: &Entrance,
    sessions: &mut [S],
    terms: Terms<'_>,
    over: Option<&AtomicBool>,
    setting: &Setting<'_, X>,
    workers: &Workers<'_, V>,
)
where
    S::Opened: Send,
    ensures same_number { length sessions.new ≡ length sessions.old }
    ensures each { (i : ℕ) (d : S) → i < length sessions.old
        → ServesUntil S.goes S.known setting.now over.entry terms.entry.connections
        (slice_index_or sessions.old i d) (slice_index_or sessions.new i d) }
{
    listen_by::<R, X, S, V>(rt, entrance, sessions, terms, over, setting, workers);
}

/// The same, of whatever serves connections.
fn listen_by<R: Threads + Wait + Clock + Sync, X: Sync, S: Serving<X> + Send, V: Watch + Sync>(
    rt: &R,
    entrance: &Entrance,
    sessions: &mut [S],
    terms: Terms<'_>,
    over: Option<&AtomicBool>,
    setting: &Setting<'_, X>,
    workers: &Workers<'_, V>,
)
    ensures same_number { length sessions.new ≡ length sessions.old }
    ensures each { (i : ℕ) (d : S) → i < length sessions.old
        → ServesUntil S.goes S.known setting.now over.entry terms.entry.connections
        (slice_index_or sessions.old i d) (slice_index_or sessions.new i d) }
{
    let asked = sessions.len();
    if asked == 0 {
        return;
    }
    let muster = Muster::new(asked as u64);
    let history = Room::new(terms.places);
    let shared = Shared {
        entrance,
        muster: &muster,
        history: &history,
        workers,
    };
    if terms.connections == 0 {
        serve_by_visits(rt, sessions, terms, over, setting, &shared);
        return;
    }
    thread::for_each_mut(
        rt,
        sessions,
        asked,
        &|index, session| session.accept_connections(rt, index, terms, over, setting, &shared),
    );
}

/// What the workers of a listener share.
#[derive(Drop)]
pub(crate) struct Shared<'s, 'w, V> {
    pub(crate) entrance: &'s Entrance,
    pub(crate) muster: &'s Muster,
    /// How full the history is.
    pub(crate) history: &'s Room,
    pub(crate) workers: &'s Workers<'w, V>,
}
