//! How the ends of a replication are reached.

use crate::patient::{Patience, PatientEnd};
use replicator_run::{Opens, Reached};
use std::io;
use std::net::{TcpStream, ToSocketAddrs};
use streams::Stream;

/// What is read of an end, or written to it.
pub(crate) type EndStream<'r> = Stream<PatientEnd<'r>>;

/// An end, and what opens connections to it.
pub(crate) type ReachedEnd<'r> = Reached<EndStream<'r>, EndStream<'r>, Opener<'r>>;

/// Opens connections to an end, as long as it isn't given up.
#[derive(Clone, Copy, Drop)]
pub(crate) struct Opener<'r> {
    pub(crate) rt: &'r HostRuntime,
    pub(crate) place: &'r str,
    pub(crate) patience: &'r Patience,
}

/// Why an end isn't reached.
#[derive(Clone, Copy, Debug, PartialEq, Eq)]
pub(crate) enum Unreached {
    /// The name of its host has no address.
    NoAddress,
    /// None of its addresses takes a connection.
    Refused,
}

impl<'r> Opener<'r> {
    /// A connection to the end, at the first of its addresses that takes one.
    pub(crate) fn connect(&self) -> Result<TcpStream, Unreached> {
        let Ok(addresses) = self.place.to_socket_addrs(self.rt) else {
            return Err(Unreached::NoAddress);
        };
        for address in addresses {
            if let Ok(socket) = TcpStream::connect_timeout(
                self.rt,
                &address,
                self.patience.most(),
            ) {
                return Ok(socket);
            }
        }
        Err(Unreached::Refused)
    }

    /// The end as it is reached by a connection.
    ///
    /// # Errors
    ///
    /// The system gives no second end of it, or there is no memory for its name.
    pub(crate) fn reached(self, socket: TcpStream) -> io::Result<ReachedEnd<'r>> {
        let host = String::from_str(self.rt.alloc(), self.place)?;
        let (reader, writer) = PatientEnd::both(self.rt, socket, self.patience)?;
        self.patience.begin(self.rt);
        Ok(Reached {
            host,
            reader: Stream::new(reader),
            writer: Stream::new(writer),
            opener: self,
        })
    }
}

impl<'r> Opens<EndStream<'r>, EndStream<'r>> for Opener<'r> {
    fn open(&mut self) -> Option<(EndStream<'r>, EndStream<'r>)> {
        if self.patience.given_up().is_some() {
            return None;
        }
        let Ok(socket) = self.connect() else {
            return None;
        };
        let Ok((reader, writer)) = PatientEnd::both(self.rt, socket, self.patience) else {
            return None;
        };
        self.patience.begin(self.rt);
        Some((Stream::new(reader), Stream::new(writer)))
    }

    fn unavailable(&mut self) {
        self.patience.set_unavailable();
    }
}
