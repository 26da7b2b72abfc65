//! Output that is held back while more input is at hand.

use std::alloc::Global;
use std::cell::{Cell, RefCell};
use std::io::{self, BufWriter, ErrorKind, Read, Write};

/// So many bytes are held back at most.
const ROOM: usize = 16 * 1024;

/// Output that is held back until the input beside it is read, or until there is much of it. So the responses to the
/// requests that came together are written together.
#[derive(Drop)]
pub(crate) struct Held<W: Write + Drop> {
    output: RefCell<BufWriter<W>>,
    /// Whether a write of what was held back has failed.
    failed: Cell<bool>,
}

/// The end of it that is written.
#[derive(Drop)]
pub(crate) struct HeldEnd<'h, W: Write + Drop> {
    held: &'h Held<W>,
}

/// Input before each of whose reads the output beside it is written.
#[derive(Drop)]
pub(crate) struct InputBeside<'h, R, W: Write + Drop> {
    input: R,
    held: &'h Held<W>,
}

impl<W: Write + Drop> Held<W> {
    /// In front of this writer.
    ///
    /// # Errors
    ///
    /// Out of memory.
    pub(crate) fn new(alloc: Global, writer: W) -> io::Result<Held<W>> {
        let output = BufWriter::with_capacity(alloc, ROOM, writer)?;
        Ok(Held {
            output: RefCell::new(output),
            failed: Cell::new(false),
        })
    }

    /// The end that is written.
    pub(crate) fn end(&self) -> HeldEnd<'_, W> {
        HeldEnd { held: self }
    }

    /// The input beside it.
    pub(crate) fn beside<R>(&self, input: R) -> InputBeside<'_, R, W> {
        InputBeside { input, held: self }
    }

    /// Writes what is held back.
    ///
    /// # Errors
    ///
    /// A write failed, this one or one before it.
    pub(crate) fn release(&self) -> io::Result<()> {
        let Ok(mut output) = self.output.try_borrow_mut() else {
            return Err(io::Error::from(ErrorKind::Other));
        };
        if self.failed.get() {
            return Err(io::Error::from(ErrorKind::Other));
        }
        let released = output.flush();
        self.failed.set(released.is_err());
        released
    }
}

impl<W: Write + Drop> Write for HeldEnd<'_, W> {
    fn write(&mut self, buf: &[u8]) -> io::Result<usize> {
        let Ok(mut output) = self.held.output.try_borrow_mut() else {
            return Err(io::Error::from(ErrorKind::Other));
        };
        output.write(buf)
    }

    fn flush(&mut self) -> io::Result<()> {
        self.held.release()
    }
}

impl<R: Read, W: Write + Drop> Read for InputBeside<'_, R, W> {
    fn read(&mut self, buf: &mut [u8]) -> io::Result<usize> {
        self.held.release()?;
        self.input.read(buf)
    }
}
