//! How a connection ends after its last response.

use crate::deadlines::{Ending, after, is_late, left_until};
use crate::timed::Timed;
use std::io::{Read, Result as IoResult};
use std::net::{Shutdown, TcpStream};
use std::sync::atomic::AtomicBool;
use std::time::{Clock, Duration, Instant};

/// For so many seconds what a client still sends is read, in all.
const DRAIN_SECONDS: u64 = 2;

/// For so many milliseconds it is still read once a flag was set by which the connection ends.
const GRACE_MILLISECONDS: u64 = 100;

/// So many bytes of it are read at most: eight of the largest bodies.
const DRAIN_BYTES: usize = 8 * 1_048_576;

/// So many of them at once.
const DRAIN_ROOM: usize = 8192;

/// Says that no more responses come, and reads what the client still sends: a connection that is closed
/// with bytes unread is reset, and the client may lose the last response. Where its last request was
/// whole (`is_whole`) and nothing came behind it, nothing is waited for. Once the flag is set, where one is given, no more
/// than a tenth of a second is.
pub fn hang_up<C: Clock>(socket: &TcpStream, clock: &C, is_whole: bool, over: Option<&AtomicBool>) {
    let Ok(()) = socket.shutdown(Shutdown::Write) else {
        return;
    };
    if is_whole && !has_more(socket) {
        return;
    }
    let mut reader = socket;
    drain(&mut reader, clock, over);
}

/// Whether more has come, or can't be told. What has come is dropped, up to [`DRAIN_ROOM`] bytes.
fn has_more(socket: &TcpStream) -> bool {
    let Ok(()) = socket.set_nonblocking(true) else {
        return true;
    };
    let mut reader = socket;
    let came = matches!(reader.read(&mut [0; DRAIN_ROOM]), Ok(1..));
    let Ok(()) = socket.set_nonblocking(false) else {
        return false;
    };
    came
}

/// Reads and drops what comes, until the input ends or a read fails, for two seconds in all, and eight of the
/// largest bodies at most. Once the flag is set, where one is given, for a tenth of a second at most.
pub fn drain<T: Read + Timed, C: Clock>(socket: &mut T, clock: &C, over: Option<&AtomicBool>) {
    let Ok(by) = after(clock, Duration::from_secs(DRAIN_SECONDS)) else {
        return;
    };
    let mut ending = Ending::new(over, Duration::from_millis(GRACE_MILLISECONDS));
    let mut room = [0; DRAIN_ROOM];
    let mut left = DRAIN_BYTES;
    for _ in 0..DRAIN_BYTES {
        match read_by(socket, clock, by, &mut ending, &mut room) {
            Ok(Some(0)) | Err(_) => return,
            Ok(Some(len)) => left = left.saturating_sub(len),
            Ok(None) => {}
        }
        if left == 0 {
            return;
        }
    }
}

/// Reads once, until then, or for a slice of the time in which nothing comes.
fn read_by<T: Read + Timed, C: Clock>(
    socket: &mut T,
    clock: &C,
    by: Instant,
    ending: &mut Ending<'_>,
    room: &mut [u8],
) -> IoResult<Option<usize>> {
    let left = left_until(clock, ending.cut(clock, by)?)?;
    let slice = ending.slice(left);
    socket.read_within(slice)?;
    match socket.read(room) {
        Err(error) if is_late(&error) && slice < left => Ok(None),
        Err(error) => Err(error),
        Ok(len) => Ok(Some(len)),
    }
}
