//! Where a write is held, and until when.

use crate::marks::Marks;
use std::sync::Arc;
use std::time::Clock;
use updater_state::{Gate, Point};

/// Holds the first write that comes to a point, until it is released.
#[derive(Drop)]
pub(crate) struct Hold<C: Clock + Drop> {
    clock: C,
    marks: Arc<Marks>,
    point: Option<Point>,
}

impl<C: Clock + Drop> Hold<C> {
    pub(crate) fn new(clock: C, marks: Arc<Marks>, point: Option<Point>) -> Hold<C> {
        Hold {
            clock,
            marks,
            point,
        }
    }
}

impl<C: Clock + Drop> Gate for Hold<C> {
    fn at(&self, point: Point, _session: u16) {
        if self.point == Some(point) && self.marks.held.count() == 0 {
            self.marks.wait(&self.clock, &self.marks.released, 0);
        }
    }
}
