//! Memory that is kept back for reads.

use std::alloc::{AllocError, Global};
use std::sync::Mutex;
use std::sync::atomic::{AtomicU64, Ordering};

/// How many bytes a read is given that is refused memory.
const BLOCK: usize = 65_536;

/// How many blocks are kept back.
const BLOCKS: u64 = 16;

/// Memory that is kept back for reads, so that small documents are still read where all else is used up by what was
/// written.
#[derive(Drop)]
pub(crate) struct Reserve {
    alloc: Global,
    blocks: Mutex<Vec<Vec<u8>>>,
    /// How many blocks were given up and are not kept again.
    missing: AtomicU64,
}

impl Reserve {
    /// Takes the memory.
    pub(crate) fn new(alloc: Global) -> Result<Reserve, AllocError> {
        let mut blocks = Vec::with_capacity(alloc, BLOCKS as usize)?;
        for _ in 0..BLOCKS {
            blocks.push(Vec::with_capacity(alloc, BLOCK)?)?;
        }
        Ok(Reserve {
            alloc,
            blocks: Mutex::new(blocks),
            missing: AtomicU64::new(0),
        })
    }

    /// Where the memory of reads comes from.
    pub(crate) fn alloc(&self) -> Global {
        self.alloc
    }

    /// Makes a call, and where memory for it is refused makes it once more after a block is given up.
    ///
    /// # Errors
    ///
    /// Memory was refused again, or no block was left.
    pub(crate) fn retried<T: Drop, F: Fn() -> Result<T, AllocError> + Drop>(
        &self,
        call: F,
    ) -> Result<T, AllocError>
        requires callable { F.IsAlwaysCallable call }
        ensures { F.post call result }
    {
        let first = call();
        if first.is_ok() || !self.gives_up() {
            return first;
        }
        call()
    }

    /// Gives a block up, where one is left.
    fn gives_up(&self) -> bool {
        let Some(mut blocks) = self.blocks.try_lock() else {
            return false;
        };
        if blocks.pop().is_none() {
            return false;
        }
        self.missing.fetch_add(1, Ordering::SeqCst);
        true
    }

    /// Takes back a block that was given up, if there is one, where there is memory for it.
    pub(crate) fn renew(&self) {
        if self.missing.load(Ordering::Relaxed) > 0 {
            self.take_back();
        }
    }

    /// Takes back one block.
    #[cold]
    fn take_back(&self) {
        let Ok(block) = Vec::with_capacity(self.alloc, BLOCK) else {
            return;
        };
        let Some(mut blocks) = self.blocks.try_lock() else {
            return;
        };
        if blocks.push(block).is_ok() {
            self.missing.fetch_sub(1, Ordering::SeqCst);
        }
    }
}
