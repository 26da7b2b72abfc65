//! Sockets that can be told how long their calls may wait.

use std::io;
use std::net::TcpStream;
use std::time::Duration;

/// A socket that can be told how long a call may wait. A test may stand in.
pub trait Timed {
    /// A read that waits longer fails with `ErrorKind::WouldBlock` or `ErrorKind::TimedOut`.
    ///
    /// # Errors
    ///
    /// It can't be told, or the time is 0.
    fn read_within(&mut self, time: Duration) -> io::Result<()>;

    /// A write that waits longer answers how many bytes were taken by then, and fails so where none were.
    ///
    /// # Errors
    ///
    /// It can't be told, or the time is 0.
    fn write_within(&mut self, time: Duration) -> io::Result<()>;
}

impl Timed for &TcpStream {
    fn read_within(&mut self, time: Duration) -> io::Result<()> {
        self.set_read_timeout(Some(time))
    }

    fn write_within(&mut self, time: Duration) -> io::Result<()> {
        self.set_write_timeout(Some(time))
    }
}
