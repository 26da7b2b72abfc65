//! Where responses go that nobody reads.
ghost use Rattle.std.specs.Prelude.{None};

use streams::{Failed, Sink};

/// Takes all that is written, and keeps nothing.
#[derive(Clone, Copy, Debug)]
pub(crate) struct Nowhere;

impl Sink for Nowhere {
    ghost taken = { λ _. None };

    ghost failed_writes = { λ _. 0 };

    fn write(&mut self, buf: &[u8]) -> Result<usize, Failed> {
        Ok(buf.len())
    }

    fn failures(&self) -> u64 {
        0
    }
}
