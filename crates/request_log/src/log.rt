//! The log of a worker.

use crate::line::{Line, line_text};
use crate::seen::Seen;
use jiff::Timestamp;
use std::alloc::Global;
use std::time::{Clock, Instant};

/// Where the lines of requests are written.
pub trait Lines {
    /// Writes a line, which ends with its end. Lines of many workers come at once.
    fn write_line(&self, line: &str);
}

/// The log of a worker, which answers one request after the other.
#[derive(Drop)]
pub struct Log<'l, R, L> {
    alloc: Global,
    clock: &'l R,
    lines: &'l L,
    worker: u64,
    seen: Seen,
}

impl<'l, R: Clock, L: Lines> Log<'l, R, L> {
    /// The log of the worker of this number.
    pub fn new(alloc: Global, clock: &'l R, lines: &'l L, worker: u64) -> Log<'l, R, L> {
        Log {
            alloc,
            clock,
            lines,
            worker,
            seen: Seen::new(),
        }
    }

    /// What is seen of the response that is written now.
    pub fn seen(&self) -> &Seen {
        &self.seen
    }

    /// A next response begins, at this time where the clock can be read.
    pub fn begin(&self) -> Option<Instant> {
        self.seen.clear();
        Instant::now(self.clock).ok()
    }

    /// Writes the line of a request whose response began at this time. There is none where no byte of a
    /// response was to be written, the clock can't be read or memory is refused.
    pub fn end(&self, began: Option<Instant>, method: &[u8], target: &[u8]) {
        let Some(head) = self.seen.head() else {
            return;
        };
        let Ok(now) = Timestamp::now(self.clock) else {
            return;
        };
        let Ok(time) = format!(in self.alloc; "{now:.6}") else {
            return;
        };
        let line = Line {
            time: time.as_str(),
            worker: self.worker,
            method,
            target,
            status: head.status,
            place: head.place,
            bytes: self.seen.bytes(),
            microseconds: self.microseconds_since(began),
        };
        if let Ok(text) = line_text(self.alloc, line) {
            self.lines.write_line(text.as_str());
        }
    }

    /// How many microseconds have passed; 0 where the clock can't be read.
    fn microseconds_since(&self, began: Option<Instant>) -> u64 {
        let Some(began) = began else {
            return 0;
        };
        let Ok(taken) = began.elapsed(self.clock) else {
            return 0;
        };
        u64::try_from(taken.as_micros()).unwrap_or(u64::MAX)
    }
}
