//! Connections to ends that have so long for each answer.
ghost use Rattle.std.specs.Prelude.{◌≤◌, IfOk, length};

use std::cell::Cell;
use std::io::{self, ErrorKind, Read, Write};
use std::net::TcpStream;
use std::time::{Duration, Instant};

/// Why an end was given up.
#[derive(Clone, Copy, Debug, PartialEq, Eq)]
pub(crate) enum GivenUp {
    /// Its answer took too long.
    Silent,
    /// Its answer is too long.
    Large,
}

/// How long an end has for each answer and how many bytes that has at most, since when it is asked, how many bytes have
/// come since, why it was given up, if it was, and whether it answered last that it can't serve a call. A few bytes may
/// come of the next answer besides.
#[derive(Drop)]
pub(crate) struct Patience {
    most: Duration,
    largest: u64,
    asked: Cell<Option<Instant>>,
    come: Cell<u64>,
    given_up: Cell<Option<GivenUp>>,
    unavailable: Cell<bool>,
}

/// An end of a connection that is read or written.
#[derive(Drop)]
pub(crate) struct PatientEnd<'r> {
    rt: &'r HostRuntime,
    socket: TcpStream,
    patience: &'r Patience,
}

impl Patience {
    /// So long, which is no time of zero, and so many bytes.
    pub(crate) fn new(most: Duration, largest: u64) -> Patience {
        Patience {
            most,
            largest,
            asked: Cell::new(None),
            come: Cell::new(0),
            given_up: Cell::new(None),
            unavailable: Cell::new(false),
        }
    }

    /// How long an end has.
    pub(crate) fn most(&self) -> Duration {
        self.most
    }

    /// Something is asked now, so the time and the bytes begin anew.
    pub(crate) fn begin(&self, rt: &HostRuntime) {
        self.asked.set(Instant::now(rt).ok());
        self.come.set(0);
        self.unavailable.set(false);
    }

    /// The end can't serve what was asked.
    pub(crate) fn set_unavailable(&self) {
        self.unavailable.set(true);
    }

    /// Whether the end answered last that it can't serve what was asked.
    pub(crate) fn is_unavailable(&self) -> bool {
        self.unavailable.get()
    }

    /// The end isn't given up any more.
    pub(crate) fn forgive(&self) {
        self.given_up.set(None);
    }

    /// Why the end was given up, if it was.
    pub(crate) fn given_up(&self) -> Option<GivenUp> {
        self.given_up.get()
    }

    /// How long the end still has for what was asked.
    fn left(&self, rt: &HostRuntime) -> Duration {
        let Some(asked) = self.asked.get() else {
            return self.most;
        };
        match asked.elapsed(rt) {
            Ok(passed) => self.most.saturating_sub(passed),
            Err(_) => self.most,
        }
    }

    /// Notes where a call ended since its time had passed.
    fn note(&self, outcome: &io::Result<usize>) {
        if let Err(error) = outcome
            && matches!(error.kind(), ErrorKind::WouldBlock | ErrorKind::TimedOut)
        {
            self.given_up.set(Some(GivenUp::Silent));
        }
    }

    /// Counts bytes that have come, and gives the end up where they are too many.
    fn count(&self, bytes: usize) {
        let come = self.come.get().saturating_add(bytes as u64);
        self.come.set(come);
        if come > self.largest {
            self.given_up.set(Some(GivenUp::Large));
        }
    }
}

impl<'r> PatientEnd<'r> {
    /// The two ends of a connection: one that is read, and one that is written.
    ///
    /// # Errors
    ///
    /// The times can't be set, or the system gives no second end.
    pub(crate) fn both(
        rt: &'r HostRuntime,
        socket: TcpStream,
        patience: &'r Patience,
    ) -> io::Result<(PatientEnd<'r>, PatientEnd<'r>)> {
        let _nodelay = socket.set_nodelay(true);
        let written = socket.try_clone()?;
        let reader = PatientEnd {
            rt,
            socket,
            patience,
        };
        let writer = PatientEnd {
            rt,
            socket: written,
            patience,
        };
        Ok((reader, writer))
    }

    /// Reads, for as long as the end still has.
    fn read_in_time(&self, buf: &mut [u8]) -> io::Result<usize>
        ensures { IfOk result (λ read. read ≤ length buf.new) }
    {
        let left = self.patience.left(self.rt);
        if left.is_zero() {
            return Err(io::Error::from(ErrorKind::TimedOut));
        }
        self.socket.set_read_timeout(Some(left))?;
        let mut socket = &self.socket;
        socket.read(buf)
    }

    /// Writes, for as long as the end still has.
    fn write_in_time(&self, buf: &[u8]) -> io::Result<usize>
        ensures { IfOk result (λ written. written ≤ length buf.now) }
    {
        let left = self.patience.left(self.rt);
        if left.is_zero() {
            return Err(io::Error::from(ErrorKind::TimedOut));
        }
        self.socket.set_write_timeout(Some(left))?;
        let mut socket = &self.socket;
        socket.write(buf)
    }
}

impl Read for PatientEnd<'_> {
    /// It fails from then on where the end is given up.
    fn read(&mut self, buf: &mut [u8]) -> io::Result<usize> {
        if self.patience.given_up().is_some() {
            return Err(io::Error::from(ErrorKind::Other));
        }
        let outcome = self.read_in_time(buf);
        self.patience.note(&outcome);
        if let Ok(bytes) = outcome {
            self.patience.count(bytes);
        }
        outcome
    }
}

impl Write for PatientEnd<'_> {
    /// It fails from then on where the end is given up.
    fn write(&mut self, buf: &[u8]) -> io::Result<usize> {
        if self.patience.given_up().is_some() {
            return Err(io::Error::from(ErrorKind::Other));
        }
        let outcome = self.write_in_time(buf);
        self.patience.note(&outcome);
        outcome
    }

    fn flush(&mut self) -> io::Result<()> {
        Ok(())
    }
}
