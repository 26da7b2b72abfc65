//! A queue by which threads give values to others that wait for them.

use std::alloc::Global;
use std::collections::VecDeque;
use std::sync::atomic::{AtomicBool, Ordering};
use std::sync::{Condvar, Mutex, Wait};

/// What the lock guards.
#[derive(Drop)]
struct Line<T> {
    items: VecDeque<T>,
    /// How many threads wait for a value.
    takers: usize,
    ended: bool,
}

impl<T> Line<T> {
    /// Whether more values are there than threads wait for one.
    fn is_crowded(&self) -> bool {
        self.items.len() > self.takers
    }
}

/// A queue under a lock, on which threads wait.
#[derive(Drop)]
pub(crate) struct Queue<T> {
    line: Mutex<Line<T>>,
    changed: Condvar,
    crowded: AtomicBool,
}

impl<T: Drop> Queue<T> {
    /// An empty queue.
    pub(crate) fn new(alloc: Global) -> Queue<T> {
        Queue {
            line: Mutex::new(Line {
                items: VecDeque::new(alloc),
                takers: 0,
                ended: false,
            }),
            changed: Condvar::new(),
            crowded: AtomicBool::new(false),
        }
    }

    /// Puts a value behind the others.
    ///
    /// # Errors
    ///
    /// The value, where memory was refused, or the queue has ended.
    pub(crate) fn put<R: Wait>(&self, rt: &R, value: T) -> Result<(), T> {
        let mut line = self.line.lock(rt);
        if line.ended {
            return Err(value);
        }
        if let Err(failed) = line.items.push_back(value) {
            return Err(failed.value);
        }
        self.crowded.store(line.is_crowded(), Ordering::SeqCst);
        drop(line);
        self.changed.notify_one();
        Ok(())
    }

    /// The first value, once there is one; nothing where the queue has ended and is empty.
    pub(crate) fn take<R: Wait>(&self, rt: &R) -> Option<T> {
        let mut line = self.line.lock(rt);
        line.takers = line.takers.saturating_add(1);
        let mut line = self
            .changed
            .wait_while(rt, line, |line| { line.items.is_empty() && !line.ended });
        line.takers = line.takers.saturating_sub(1);
        let value = line.items.pop_front();
        self.crowded.store(line.is_crowded(), Ordering::SeqCst);
        value
    }

    /// The first value, where there is one.
    pub(crate) fn try_take<R: Wait>(&self, rt: &R) -> Option<T> {
        self.line.lock(rt).items.pop_front()
    }

    /// A flag that is set while more values are there than threads wait for one.
    pub(crate) fn crowded(&self) -> &AtomicBool {
        &self.crowded
    }

    /// No more values come.
    pub(crate) fn end<R: Wait>(&self, rt: &R) {
        let mut line = self.line.lock(rt);
        line.ended = true;
        drop(line);
        self.changed.notify_all();
    }
}
