//! How far a replication has come, on standard error.

use std::cell::Cell;
use std::io::IsTerminal;
use std::time::{Duration, Instant};

/// How many milliseconds a line stays on a terminal until it is written anew.
const TERMINAL_PACE: u64 = 200;

/// How many milliseconds it takes from one line to the next where there is no terminal.
const LINE_PACE: u64 = 10_000;

/// How far a replication has come: one line on a terminal, which is written over, and else a line every ten seconds.
#[derive(Drop)]
pub(crate) struct Progress<'r> {
    rt: &'r HostRuntime,
    terminal: bool,
    began: Cell<Option<Instant>>,
    shown: Cell<Option<Instant>>,
    /// Whether there is a line on the terminal.
    written_over: Cell<bool>,
    read: Cell<u64>,
    written: Cell<u64>,
    left: Cell<u64>,
}

impl<'r> Progress<'r> {
    /// Nothing has been read.
    pub(crate) fn new(rt: &'r HostRuntime) -> Progress<'r> {
        Progress {
            rt,
            terminal: rt.stderr().is_terminal(),
            began: Cell::new(None),
            shown: Cell::new(None),
            written_over: Cell::new(false),
            read: Cell::new(0),
            written: Cell::new(0),
            left: Cell::new(0),
        }
    }

    /// A run begins.
    pub(crate) fn begin(&self) {
        let now = Instant::now(self.rt).ok();
        self.began.set(now);
        self.shown.set(now);
        self.read.set(0);
        self.written.set(0);
    }

    /// So many documents were read.
    pub(crate) fn read(&self, documents: u64) {
        self.read.set(documents);
        self.show_in_time();
    }

    /// So many documents were written.
    pub(crate) fn written(&self, documents: u64) {
        self.written.set(documents);
        self.show_in_time();
    }

    /// So many changes are left.
    pub(crate) fn left(&self, changes: u64) {
        self.left.set(changes);
    }

    /// Takes the line off the terminal.
    pub(crate) fn clear(&self) {
        if self.written_over.get() {
            let _printed = eprint!(self.rt; "\r\x1b[K");
            self.written_over.set(false);
        }
    }

    /// Shows how far it has come, unless that was shown just now.
    fn show_in_time(&self) {
        let Ok(now) = Instant::now(self.rt) else {
            return;
        };
        let pace = if self.terminal {
            TERMINAL_PACE
        } else {
            LINE_PACE
        };
        if let Some(shown) = self.shown.get()
            && now.duration_since(shown) < Duration::from_millis(pace)
        {
            return;
        }
        self.shown.set(Some(now));
        self.show(now);
    }

    fn show(&self, now: Instant) {
        let read = self.read.get();
        let written = self.written.get();
        let left = self.left.get();
        let rate = self.rate(now);
        let _printed = if self.terminal {
            self.written_over.set(true);
            eprint!(self.rt;
                "\rdocuments read {read}, written {written}; changes left {left}; {rate} documents a second\x1b[K"
            )
        } else {
            eprintln!(self.rt;
                "couchd: documents read {read}, written {written}; changes left {left}; {rate} documents a second"
            )
        };
    }

    /// How many documents a second were written.
    fn rate(&self, now: Instant) -> u64 {
        let Some(began) = self.began.get() else {
            return 0;
        };
        let millis = u64::try_from(now.duration_since(began).as_millis()).unwrap_or(u64::MAX);
        self.written.get().saturating_mul(1000) / millis.max(1)
    }
}
