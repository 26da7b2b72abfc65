//! Where an event loop and workers meet.

use crate::connection::Connection;
use crate::entrance::Entrance;
use crate::queue::Queue;
use std::alloc::Global;
use std::sync::atomic::{AtomicBool, AtomicU64, Ordering};
use std::sync::{Condvar, Mutex, Wait};
use std::time::{Clock, Duration};

/// How far an event loop has come.
#[derive(Clone, Copy, Debug, PartialEq, Eq)]
enum Stage {
    /// It is waited for.
    Awaited,
    /// It has begun.
    Begun,
    /// It was waited for too long, and doesn't begin.
    GivenUp,
}

/// What an event loop and workers share: the connections that are ready for a worker, and those that workers returned.
#[derive(Drop)]
pub struct WaitingRoom<'e, T> {
    entrance: &'e Entrance,
    ready: Queue<Connection<T>>,
    returned: Queue<Connection<T>>,
    stage: Mutex<Stage>,
    changed: Condvar,
    /// How many connections are open, wherever they are.
    open: AtomicU64,
    /// Whether the event loop accepts no more until one is closed.
    full: AtomicBool,
}

impl<'e, T: Drop> WaitingRoom<'e, T> {
    /// A room of no connections, whose event loop has not begun.
    pub fn new(alloc: Global, entrance: &'e Entrance) -> WaitingRoom<'e, T> {
        WaitingRoom {
            entrance,
            ready: Queue::new(alloc),
            returned: Queue::new(alloc),
            stage: Mutex::new(Stage::Awaited),
            changed: Condvar::new(),
            open: AtomicU64::new(0),
            full: AtomicBool::new(false),
        }
    }

    // ---- for workers

    /// Waits until the event loop has begun, so long at most, and says whether it has. Where it hasn't it never does.
    pub fn wait_for_start<R: Wait + Clock>(&self, rt: &R, time: Duration) -> bool {
        let stage = self.stage.lock(rt);
        let (mut stage, _late) = self
            .changed
            .wait_timeout_while(rt, stage, time, |stage| *stage == Stage::Awaited);
        if *stage == Stage::Awaited {
            *stage = Stage::GivenUp;
        }
        *stage == Stage::Begun
    }

    /// A connection for which there is something to do, once there is one; nothing where all has ended, and none is left.
    pub fn next<R: Wait>(&self, rt: &R) -> Option<Connection<T>> {
        self.ready.take(rt)
    }

    /// A flag that is set while connections are ready of which no worker waits for one.
    pub fn crowded(&self) -> &AtomicBool {
        self.ready.crowded()
    }

    /// Returns a connection that waits for its client. It is closed where memory is refused or all ends.
    pub fn give_back<R: Wait>(&self, rt: &R, connection: Connection<T>) {
        match self.returned.put(rt, connection) {
            Ok(()) => self.entrance.rouse(),
            Err(connection) => self.close(connection),
        }
    }

    /// Closes a connection.
    pub fn close(&self, connection: Connection<T>) {
        drop(connection);
        self.open.fetch_sub(1, Ordering::SeqCst);
        if self.full.load(Ordering::SeqCst) {
            self.entrance.rouse();
        }
    }

    // ---- for the event loop

    /// The event loop begins, and says whether it may.
    pub(crate) fn begin<R: Wait>(&self, rt: &R) -> bool {
        let mut stage = self.stage.lock(rt);
        if *stage == Stage::GivenUp {
            return false;
        }
        *stage = Stage::Begun;
        drop(stage);
        self.changed.notify_all();
        true
    }

    /// Ends all: no more connections get ready, and none is taken back.
    pub(crate) fn end<R: Wait>(&self, rt: &R) {
        self.ready.end(rt);
        self.returned.end(rt);
    }

    /// A connection was accepted.
    pub(crate) fn count_accepted(&self) {
        self.open.fetch_add(1, Ordering::SeqCst);
    }

    /// Whether so many connections are open. Where they are, the event loop is woken when one is closed.
    pub(crate) fn is_full(&self, clients: u32) -> bool {
        if self.open.load(Ordering::SeqCst) < clients as u64 {
            self.full.store(false, Ordering::SeqCst);
            return false;
        }
        self.full.store(true, Ordering::SeqCst);
        self.open.load(Ordering::SeqCst) >= clients as u64
    }

    /// Gives a connection to the workers. It is closed where memory is refused or all ends.
    pub(crate) fn hand_out<R: Wait>(&self, rt: &R, connection: Connection<T>) {
        if let Err(connection) = self.ready.put(rt, connection) {
            self.close(connection);
        }
    }

    /// A connection that a worker returned.
    pub(crate) fn returned<R: Wait>(&self, rt: &R) -> Option<Connection<T>> {
        self.returned.try_take(rt)
    }
}
