//! The connections that an event loop keeps.

use crate::connection::Connection;
use mio::unix::SourceFd;
use mio::{Interest, Registry, Token};
use slab::Slab;
use std::alloc::Global;
use std::os::fd::AsRawFd;
use std::time::Instant;

/// The token of the connection at key 0.
const FIRST: usize = 2;

/// A connection that waits for its client, until then at most.
#[derive(Drop)]
struct Parked<T> {
    connection: Connection<T>,
    until: Instant,
}

/// Connections that wait for their clients, each of which has a token.
#[derive(Drop)]
pub(crate) struct ParkedAll<T> {
    slots: Slab<Parked<T>>,
    /// When the first of them may have waited for too long.
    due: Option<Instant>,
}

impl<T: Drop> ParkedAll<T> {
    /// No connections.
    pub(crate) fn new(alloc: Global) -> ParkedAll<T> {
        ParkedAll {
            slots: Slab::new(alloc),
            due: None,
        }
    }

    /// When one may have waited for too long, if any waits.
    pub(crate) fn due(&self) -> Option<Instant> {
        self.due
    }

    /// Keeps a connection until then at most, or until something comes. What came before counts.
    ///
    /// # Errors
    ///
    /// The connection, where memory is refused, or the system doesn't watch it.
    pub(crate) fn keep(
        &mut self,
        registry: &Registry,
        connection: Connection<T>,
        until: Instant,
    ) -> Result<(), Connection<T>> {
        let fd = connection.socket.as_raw_fd();
        let key = match self.slots.insert(Parked { connection, until }) {
            Ok(key) => key,
            Err(failed) => {
                let Parked { connection, .. } = failed.value;
                return Err(connection);
            }
        };
        let token = Token(key.saturating_add(FIRST));
        let watched = registry.register(&mut SourceFd(&fd), token, Interest::READABLE);
        if watched.is_ok() {
            self.due = Some(earlier(self.due, until));
            return Ok(());
        }
        match self.slots.try_remove(key) {
            Some(Parked { connection, .. }) => Err(connection),
            None => Ok(()),
        }
    }

    /// Takes out the connection of a token, if there is one.
    pub(crate) fn take(&mut self, registry: &Registry, token: Token) -> Option<Connection<T>> {
        let key = token.0.checked_sub(FIRST)?;
        self.take_at(registry, key)
    }

    fn take_at(&mut self, registry: &Registry, key: usize) -> Option<Connection<T>> {
        let Parked { connection, .. } = self.slots.try_remove(key)?;
        let fd = connection.socket.as_raw_fd();
        let _unwatched = registry.deregister(&mut SourceFd(&fd));
        Some(connection)
    }

    /// Closes all.
    pub(crate) fn clear(&mut self) {
        self.due = None;
        self.slots.clear();
    }

    /// How many keys there may be.
    pub(crate) fn keys(&self) -> usize {
        self.slots.capacity()
    }

    /// Looks for those that have waited for too long anew.
    pub(crate) fn begin_look(&mut self) {
        self.due = None;
    }

    /// Takes out the connection at this key where it has waited for too long.
    pub(crate) fn take_late(
        &mut self,
        registry: &Registry,
        key: usize,
        now: Instant,
    ) -> Option<Connection<T>> {
        let until = self.slots.get(key)?.until;
        if until > now {
            self.due = Some(earlier(self.due, until));
            return None;
        }
        self.take_at(registry, key)
    }
}

/// The earlier one, where there are two.
fn earlier(due: Option<Instant>, until: Instant) -> Instant {
    match due {
        Some(due) if due <= until => due,
        _ => until,
    }
}
