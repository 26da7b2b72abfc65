//! The bytes that have come and were not yet taken.
ghost use Rattle.std.specs.Prelude.{◌≡◌, ℕ, ◌+◌, ◌-◌, ◌<◌, ◌≤◌, List, [], ◌++◌, length};
ghost use Rattle.std.specs.Prelude.{take, drop, slice_range, Ok, IfOk, OnOk, OnErr, true, false};
ghost use Rattle.std.specs.Io.KnownBytes.{Consumes, Keeps, IsAtEnd};
ghost use Rattle.streams.specs.Counts.{CountsFailure};
ghost use Rattle.http_framing.specs.Input.{request_limit};
ghost use Rattle.http_connection.specs.Kept.{Kept};

use http_framing::REQUEST_LIMIT;
use std::alloc::{AllocError, Global};
use std::marker::Model;
use streams::{Failed, Source, read_behind};

/// A buffer of which the bytes `start..end` are kept, with room for the largest request.
///
/// What is kept moves to the front before more is read. It is a part of one request, which then
/// goes as a whole: so each byte moves once at most, and small requests stay in the first pages.
pub struct Window {
    bytes: Vec<u8>,
    start: usize,
    end: usize,
}

impl Drop for Window {
    fn drop(self) {
        let Window {
            bytes: _,
            start: _,
            end: _,
        } = self;
    }
}

impl Model for Window {
    ghost Value = { Kept };

    ghost view = { λ w. record {
      bytes = slice_range w.bytes.items w.start w.end;
      room = request_limit - w.end;
    } };

    ghost invariant = { λ w.
        (w.start ≤ w.end) × (w.end ≤ request_limit) × (length w.bytes.items ≡ request_limit) };
}

impl Window {
    /// A window of no bytes, with all its memory.
    pub fn new(alloc: Global) -> Result<Window, AllocError>
        ensures { IfOk result (λ w. w.bytes ≡ []) }
    {
        Ok(Window {
            bytes: vec![in alloc; 0; REQUEST_LIMIT]?,
            start: 0,
            end: 0,
        })
    }

    /// Lets all bytes go.
    pub(crate) fn clear(&mut self)
        ensures { self.new.bytes ≡ [] }
    {
        self.start = 0;
        self.end = 0;
    }

    /// The bytes that were read and not yet taken, in their order.
    pub fn bytes(&self) -> &[u8]
        ensures { result.now ≡ self.now.bytes }
    {
        &self.bytes[self.start..self.end]
    }

    /// Lets the first bytes go.
    pub fn take(&mut self, len: usize)
        requires { len ≤ length self.old.bytes }
        ensures { self.new.bytes ≡ drop len self.old.bytes }
    {
        self.start += len;
    }

    /// Reads until so many more bytes have come, and answers whether they did before the input
    /// ended.
    ///
    /// # Errors
    ///
    /// A read failed. What came before it is in the window.
    pub fn fill<R: Source>(&mut self, reader: &mut R, more: usize) -> Result<bool, Failed>
        requires { length self.old.bytes + more ≤ request_limit }
        ensures grows { (piece : List ℕ) × (self.new.bytes ≡ self.old.bytes ++ piece)
            × Consumes (R.left reader.old) (R.left reader.new) piece }
        ensures enough { result ≡ Ok true → length self.old.bytes + more ≤ length self.new.bytes }
        ensures end { result ≡ Ok false
            → (length self.new.bytes < length self.old.bytes + more) × IsAtEnd (R.left reader.new) }
        ensures part { OnErr result (length self.new.bytes < length self.old.bytes + more) }
        ensures budget { OnOk result (R.budget reader.new + length self.new.bytes
            ≤ R.budget reader.old + length self.old.bytes) }
        ensures failures { CountsFailure (R.failed_reads reader.old)
            (R.failed_reads reader.new) result }
    {
        self.compact();
        let mut missing = more;
        while missing > 0 {
            match self.read_once(reader)? {
                0 => return Ok(false),
                n => missing = missing.saturating_sub(n),
            }
        }
        Ok(true)
    }

    /// Moves what is kept to the front, unless it is there.
    fn compact(&mut self)
        ensures bytes { self.new.bytes ≡ self.old.bytes }
        ensures room { self.new.room + length self.old.bytes ≡ request_limit }
    {
        if self.start == 0 {
            return;
        }
        let len = self.end - self.start;
        self.bytes.copy_within(self.start..self.end, 0);
        self.start = 0;
        self.end = len;
    }

    /// Reads once, behind what is kept. It answers how many bytes came: none only at the end.
    fn read_once<R: Source>(&mut self, reader: &mut R) -> Result<usize, Failed>
        requires { 0 < self.old.room }
        ensures piece { IfOk result (λ n. (piece : List ℕ) × (length piece ≡ n)
            × (self.new.bytes ≡ self.old.bytes ++ piece)
            × Consumes (R.left reader.old) (R.left reader.new) piece) }
        ensures room { IfOk result (λ n. self.new.room + n ≡ self.old.room) }
        ensures end { result ≡ Ok 0 → IsAtEnd (R.left reader.new) }
        ensures budget { IfOk result (λ n. R.budget reader.new + n ≤ R.budget reader.old) }
        ensures err { OnErr result ((self.new.bytes ≡ self.old.bytes)
            × Keeps (R.left reader.old) (R.left reader.new)) }
        ensures failures { CountsFailure (R.failed_reads reader.old)
            (R.failed_reads reader.new) result }
    {
        let n = read_behind(reader, &mut self.bytes, self.end, REQUEST_LIMIT)?;
        self.end += n;
        Ok(n)
    }
}
