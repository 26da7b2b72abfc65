//! What a worker needs beside its session.

use http_connection::Window;
use std::alloc::{AllocError, Global};

/// All that a worker takes when it starts, and keeps, so that it serves connections where memory is
/// refused later.
#[derive(Drop)]
pub(crate) struct Buffers {
    /// What has come of requests.
    pub(crate) window: Window,
}

impl Buffers {
    /// Takes the memory.
    pub(crate) fn new(alloc: Global) -> Result<Buffers, AllocError> {
        Ok(Buffers {
            window: Window::new(alloc)?,
        })
    }
}
