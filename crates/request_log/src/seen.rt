//! What is seen of a response while it is written.

use crate::head::{Head, head_of};
use std::cell::Cell;

/// What was seen of a response so far, of one after the other.
#[derive(Drop)]
pub struct Seen {
    head: Cell<Option<Head>>,
    bytes: Cell<u64>,
}

impl Seen {
    /// Of no response.
    pub fn new() -> Seen {
        Seen {
            head: Cell::new(None),
            bytes: Cell::new(0),
        }
    }

    /// From here on, of a next response.
    pub(crate) fn clear(&self) {
        self.head.set(None);
        self.bytes.set(0);
    }

    /// These bytes are to be written. The first of a response begin with its head.
    pub(crate) fn begin(&self, bytes: &[u8]) {
        if self.head.get().is_none() {
            self.head.set(Some(head_of(bytes)));
        }
    }

    /// So many were written.
    pub(crate) fn add(&self, bytes: usize) {
        self.bytes
            .set(self.bytes.get().saturating_add(bytes as u64));
    }

    /// The head; nothing where no byte of it was to be written.
    pub(crate) fn head(&self) -> Option<Head> {
        self.head.get()
    }

    /// How many bytes were written.
    pub(crate) fn bytes(&self) -> u64 {
        self.bytes.get()
    }
}
