//! Where a session is held, and until when.

use crate::count::Count;
use std::thread;
use std::time::{Clock, Duration};
use updater_state::{Gate, Point};

/// How often a wait looks, once a millisecond.
const TURNS: u32 = 10_000;

/// How far the sessions of a case are.
#[derive(Drop)]
pub(crate) struct Marks {
    held: Count,
    released: Count,
    /// How many waits ended without what they waited for.
    late: Count,
    /// How often session 0 came to each point of a compaction.
    sliced: Count,
    caught_up: Count,
    finishing: Count,
}

/// How often a session came to each point of a compaction.
#[derive(Clone, Copy)]
pub(crate) struct Points {
    pub(crate) sliced: u64,
    pub(crate) caught_up: u64,
    pub(crate) finishing: u64,
}

impl Marks {
    pub(crate) fn new() -> Marks {
        Marks {
            held: Count::new(),
            released: Count::new(),
            late: Count::new(),
            sliced: Count::new(),
            caught_up: Count::new(),
            finishing: Count::new(),
        }
    }

    /// Session 0 goes on.
    pub(crate) fn release(&self) {
        self.released.add();
    }

    /// Waits until session 0 is held for so many times.
    pub(crate) fn wait_for_held(&self, clock: &impl Clock, times: u64) {
        self.wait(clock, &self.held, times);
    }

    /// Holds session 0 until it is released, unless it was held as often as it is to be.
    fn hold(&self, clock: &impl Clock, most: u64) {
        let times = self.held.next();
        if times <= most {
            self.wait(clock, &self.released, times);
        }
    }

    fn wait(&self, clock: &impl Clock, count: &Count, times: u64) {
        if !rises(clock, count, times) {
            self.late.add();
        }
    }

    /// Session 0 is at a point.
    fn note(&self, point: Point) {
        let count = match point {
            Point::Sliced => &self.sliced,
            Point::CaughtUp => &self.caught_up,
            Point::Finishing => &self.finishing,
            Point::Pushed | Point::Popped => return,
        };
        count.add();
    }

    /// How often session 0 came to each point of a compaction.
    pub(crate) fn points(&self) -> Points {
        Points {
            sliced: self.sliced.get(),
            caught_up: self.caught_up.get(),
            finishing: self.finishing.get(),
        }
    }

    /// How many waits ended without what they waited for.
    pub(crate) fn late(&self) -> u64 {
        self.late.get()
    }
}

/// Waits for so many turns until the count is so high, and says whether it is.
fn rises(clock: &impl Clock, count: &Count, times: u64) -> bool {
    for _ in 0..TURNS {
        if count.get() >= times {
            return true;
        }
        thread::sleep(clock, Duration::from_millis(1));
    }
    false
}

/// Holds session 0 at a point, the first times that it comes there.
#[derive(Drop)]
pub(crate) struct Hold<'a, C: Clock> {
    clock: &'a C,
    marks: &'a Marks,
    point: Option<Point>,
    /// How often.
    most: u64,
}

impl<'a, C: Clock> Hold<'a, C> {
    pub(crate) fn new(
        clock: &'a C,
        marks: &'a Marks,
        point: Option<Point>,
        most: u64,
    ) -> Hold<'a, C> {
        Hold {
            clock,
            marks,
            point,
            most,
        }
    }
}

impl<'a, C: Clock> Gate for Hold<'a, C> {
    fn at(&self, point: Point, session: u16) {
        if session != 0 {
            return;
        }
        self.marks.note(point);
        if self.point == Some(point) {
            self.marks.hold(self.clock, self.most);
        }
    }
}
