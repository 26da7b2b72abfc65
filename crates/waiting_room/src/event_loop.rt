//! The thread that accepts connections, and keeps those that wait.

use crate::connection::Connection;
use crate::entrance::{Entrance, WAKER, Waits};
use crate::parked::ParkedAll;
use crate::reports::Reports;
use crate::room::WaitingRoom;
use mio::unix::SourceFd;
use mio::{Events, Interest, Poll, Registry, Token};
use sockets::is_set;
use std::alloc::Global;
use std::io;
use std::os::fd::AsRawFd;
use std::sync::Wait;
use std::sync::atomic::AtomicBool;
use std::time::{Clock, Duration, Instant};

/// The token of the listener.
const LISTENER: Token = Token(1);

/// So many connections are accepted, or taken back, in a row.
const ROW: u64 = 1024;

/// So many milliseconds pass before a next connection is accepted where one could not be.
const REST_MILLISECONDS: u64 = 10;

/// So many milliseconds lie between two looks for connections that have waited for too long.
const LOOK_MILLISECONDS: u64 = 100;

/// The flag by which all ends is looked at after so many milliseconds, where nobody wakes the event loop.
const FLAG_MILLISECONDS: u64 = 1000;

/// On which terms connections are kept.
#[derive(Clone, Copy, Debug, PartialEq, Eq)]
pub struct Terms {
    /// For so long the first byte of a next request is waited for. Then the connection is closed.
    pub idle: Duration,
    /// So many connections are open at most, those among them that workers have.
    pub clients: u32,
}

/// Accepts connections, and keeps those that wait for their clients.
#[derive(Drop)]
pub struct EventLoop<'e, W, T> {
    entrance: &'e Entrance,
    room: &'e WaitingRoom<'e, T>,
    over: Option<&'e AtomicBool>,
    reports: &'e W,
    terms: Terms,
    parked: ParkedAll<T>,
    /// When those that have waited for too long are looked for next at the earliest.
    next_look: Option<Instant>,
    accepting: Accepting,
    /// Whether more may be there to be taken back.
    more_returned: bool,
}

/// Whether connections are accepted before the listener says that one has come.
#[derive(Clone, Copy, Debug, PartialEq, Eq)]
enum Accepting {
    /// All that have come were.
    Done,
    /// More may have come.
    More,
    /// One could not be, and the next one is accepted after a rest.
    AfterRest,
    /// As many as may be are open.
    Full,
}

impl<'e, W: Reports, T: Drop> EventLoop<'e, W, T> {
    /// An event loop that has not begun, which ends when the flag is set, if one is given.
    pub fn new(
        alloc: Global,
        entrance: &'e Entrance,
        room: &'e WaitingRoom<'e, T>,
        over: Option<&'e AtomicBool>,
        reports: &'e W,
        terms: Terms,
    ) -> EventLoop<'e, W, T> {
        EventLoop {
            entrance,
            room,
            over,
            reports,
            terms,
            parked: ParkedAll::new(alloc),
            next_look: None,
            accepting: Accepting::Done,
            more_returned: false,
        }
    }

    /// Accepts connections and keeps those that wait, until all ends: at the flag, or where connections can't be waited for any
    /// longer, which is reported. The workers end then too, behind those that are ready. It does nothing where it was given up
    /// before it began.
    pub fn run<R: Wait + Clock>(&mut self, rt: &R) {
        if !self.room.begin(rt) {
            return;
        }
        let ended = self.attend(rt);
        self.entrance.set_attended(false);
        self.room.end(rt);
        self.close_all(rt);
        if let Err(error) = ended {
            self.reports.failed(&error);
        }
    }

    /// Closes the connections that wait, those among them that were returned last.
    fn close_all<R: Wait>(&mut self, rt: &R) {
        self.parked.clear();
        for _ in 0..u64::MAX {
            let Some(connection) = self.room.returned(rt) else {
                return;
            };
            self.room.close(connection);
        }
    }

    /// Attends to the entrance until all ends.
    fn attend<R: Wait + Clock>(&mut self, rt: &R) -> io::Result<()> {
        let Some(mut waits) = self.entrance.waits.try_lock() else {
            return Err(io::Error::from(io::ErrorKind::ResourceBusy));
        };
        let Waits { poll, events } = &mut *waits;
        let listener = self.entrance.listener();
        listener.set_nonblocking(true)?;
        let fd = listener.as_raw_fd();
        poll.registry()
            .register(&mut SourceFd(&fd), LISTENER, Interest::READABLE)?;
        self.entrance.set_attended(true);
        let ended = self.turn(rt, poll, events);
        poll.registry().deregister(&mut SourceFd(&fd))?;
        listener.set_nonblocking(false)?;
        ended
    }

    /// Does what comes, until all ends.
    fn turn<R: Wait + Clock>(
        &mut self,
        rt: &R,
        poll: &mut Poll,
        events: &mut Events<Global>,
    ) -> io::Result<()> {
        for _ in rt.forever() {
            if is_set(self.over) {
                return Ok(());
            }
            let now = Instant::now(rt)?;
            self.close_late(poll.registry(), now);
            let timeout = self.timeout(now);
            poll.poll(events, timeout)?;
            let now = Instant::now(rt)?;
            if self.accepting != Accepting::Done {
                self.accept(poll.registry(), now);
            }
            for event in events.iter() {
                self.hear(rt, poll.registry(), event.token(), now);
            }
            self.take_back(rt, poll.registry(), now);
        }
        unreachable!()
    }

    /// For how long nothing has to be done, unless something comes.
    fn timeout(&self, now: Instant) -> Option<Duration> {
        if self.more_returned || self.accepting == Accepting::More {
            return Some(Duration::ZERO);
        }
        let mut timeout = self.look_in(now);
        if self.accepting == Accepting::AfterRest {
            timeout = Some(shorter(timeout, REST_MILLISECONDS));
        }
        if self.over.is_some() {
            timeout = Some(shorter(timeout, FLAG_MILLISECONDS));
        }
        timeout
    }

    /// In how long those that have waited for too long are looked for, if any waits.
    fn look_in(&self, now: Instant) -> Option<Duration> {
        let due = self.parked.due()?;
        let at = match self.next_look {
            Some(look) => due.max(look),
            None => due,
        };
        Some(at.saturating_duration_since(now))
    }

    /// Does what an event asks for.
    fn hear<R: Wait>(&mut self, rt: &R, registry: &Registry, token: Token, now: Instant) {
        if token == WAKER {
            return;
        }
        if token == LISTENER {
            self.accept(registry, now);
            return;
        }
        if let Some(connection) = self.parked.take(registry, token) {
            self.room.hand_out(rt, connection);
        }
    }

    /// Accepts the connections that have come.
    fn accept(&mut self, registry: &Registry, now: Instant) {
        for _ in 0..ROW {
            if self.room.is_full(self.terms.clients) {
                self.stop();
                return;
            }
            match self.entrance.listener().accept() {
                Ok((socket, _peer)) => {
                    let _nodelay = socket.set_nodelay(true);
                    self.room.count_accepted();
                    let connection = Connection {
                        socket,
                        carried: None,
                    };
                    self.keep(registry, connection, now);
                }
                Err(error) => {
                    self.accepting = self.after(&error);
                    return;
                }
            }
        }
        self.accepting = Accepting::More;
    }

    /// Accepts no more until a connection is closed.
    fn stop(&mut self) {
        if self.accepting != Accepting::Full {
            self.accepting = Accepting::Full;
            self.reports.full(self.terms.clients);
        }
    }

    /// What follows where a connection can't be accepted.
    fn after(&self, error: &io::Error) -> Accepting {
        if error.kind() == io::ErrorKind::WouldBlock {
            return Accepting::Done;
        }
        self.reports.accept_failed(error);
        Accepting::AfterRest
    }

    /// Takes the connections that workers returned.
    fn take_back<R: Wait>(&mut self, rt: &R, registry: &Registry, now: Instant) {
        for _ in 0..ROW {
            let Some(connection) = self.room.returned(rt) else {
                self.more_returned = false;
                return;
            };
            self.keep(registry, connection, now);
        }
        self.more_returned = true;
    }

    /// Keeps a connection that waits for its client. It is closed where that can't be.
    fn keep(&mut self, registry: &Registry, connection: Connection<T>, now: Instant) {
        let Some(until) = now.checked_add(self.terms.idle) else {
            self.room.close(connection);
            return;
        };
        if let Err(connection) = self.parked.keep(registry, connection, until) {
            self.room.close(connection);
        }
    }

    /// Closes the connections that have waited for too long.
    fn close_late(&mut self, registry: &Registry, now: Instant) {
        let Some(left) = self.look_in(now) else {
            return;
        };
        if !left.is_zero() {
            return;
        }
        self.next_look = now.checked_add(Duration::from_millis(LOOK_MILLISECONDS));
        self.parked.begin_look();
        for key in 0..self.parked.keys() {
            if let Some(connection) = self.parked.take_late(registry, key, now) {
                self.room.close(connection);
            }
        }
    }
}

/// The shorter of two times, of which the second is in milliseconds.
fn shorter(time: Option<Duration>, milliseconds: u64) -> Duration {
    let other = Duration::from_millis(milliseconds);
    match time {
        Some(time) => time.min(other),
        None => other,
    }
}
