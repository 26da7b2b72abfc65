//! Readers and writers over memory that move bytes in pieces and fail where they are asked to, for
//! tests of what is on a stream.
ghost use Rattle.std.specs.Prelude.{◌≡◌, length, min, Some, OnOk};
ghost use Rattle.std.specs.Result.{result_ok};
ghost use Rattle.std.specs.Io.{ReadsAtMost, WritesAtMost};
ghost use Rattle.std.specs.Io.KnownBytes.{ReadConsumes, WriteAppends, Keeps};
ghost use Rattle.streams.specs.Script.{moved, steps_after};

use std::io::{Error, ErrorKind, Read, Result, Write};

/// What one call does.
#[derive(Clone, Copy, Debug, PartialEq, Eq)]
pub enum Step {
    /// It moves at most so many bytes, and at least one.
    AtMost(usize),
    /// It fails, and moves none.
    Fail,
}

/// How many bytes the next call moves where it could move `len`.
///
/// The last step of a script serves all further calls. With no step a call moves all it can.
fn next_len(script: &mut &[Step], len: usize) -> Result<usize>
    ensures moves { result_ok result ≡ moved script.old.now len }
    ensures steps { script.new.now ≡ steps_after script.old.now }
{
    let Some(step) = script.first() else {
        return Ok(len);
    };
    if script.len() > 1 {
        *script = &script[1..];
    }
    match step {
        Step::AtMost(most) => Ok(len.min((*most).max(1))),
        Step::Fail => Err(Error::from(ErrorKind::Other)),
    }
}

/// A reader that gives the bytes of `rest` by the steps of `script`.
#[derive(Debug, Drop)]
pub struct ScriptedReader<'a> {
    pub rest: &'a [u8],
    pub script: &'a [Step],
}

impl Read for ScriptedReader<'_> {
    ghost remaining = { λ s. Some s.rest.now };

    fn read(&mut self, buf: &mut [u8]) -> Result<usize>
        ensures bound { ReadsAtMost result buf.new }
        ensures bytes { ReadConsumes (Some self.old.rest.now) (Some self.new.rest.now)
            result buf.new }
        ensures moves { result_ok result
            ≡ moved self.old.script.now (min (length buf.old) (length self.old.rest.now)) }
        ensures steps { self.new.script.now ≡ steps_after self.old.script.now }
    {
        let len = next_len(&mut self.script, buf.len().min(self.rest.len()))?;
        let (front, rest) = self.rest.split_at(len);
        buf[..len].copy_from_slice(front);
        self.rest = rest;
        Ok(len)
    }
}

/// A writer that takes bytes into `taken` by the steps of `script`.
///
/// Where `taken` has no room and can't grow, a write fails.
#[derive(Debug, Drop)]
pub struct ScriptedWriter<'a> {
    pub taken: Vec<u8>,
    pub script: &'a [Step],
}

impl Write for ScriptedWriter<'_> {
    ghost contents = { λ s. Some s.taken.items };

    fn write(&mut self, buf: &[u8]) -> Result<usize>
        ensures bound { WritesAtMost result buf.now }
        ensures bytes { WriteAppends (Some self.old.taken.items) (Some self.new.taken.items)
            result buf.now }
        ensures moves { OnOk result
            (result_ok result ≡ moved self.old.script.now (length buf.now)) }
        ensures steps { self.new.script.now ≡ steps_after self.old.script.now }
    {
        let len = next_len(&mut self.script, buf.len())?;
        self.taken.extend_from_slice(&buf[..len])?;
        Ok(len)
    }

    fn flush(&mut self) -> Result<()>
        ensures bytes { Keeps (Some self.old.taken.items) (Some self.new.taken.items) }
        ensures same { self.new ≡ self.old }
    {
        Ok(())
    }
}
