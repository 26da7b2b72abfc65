//! What comes from a source, response by response.
ghost use Rattle.std.specs.Prelude.{◌≡◌, ℕ, ◌+◌, ◌<◌, ◌≤◌, List, [], ◌++◌, length, take, drop};
ghost use Rattle.std.specs.Prelude.{◌⊎◌, Ok, IfOk, IfErr, OnOk, OnErr};
ghost use Rattle.std.specs.Io.KnownBytes.{Consumes, Keeps, IsAtEnd};
ghost use Rattle.streams.specs.Counts.{CountsFailure};
ghost use Rattle.http_client.specs.Front.{IsResponseAt};
ghost use Rattle.http_client.specs.Incoming.{CountsReads, Reads, ReadsIfUnfinished};

use crate::front::{Front, ResponseSpans, read_front};
use http_framing::HEAD_LIMIT;
use std::alloc::{AllocError, Global};
use std::marker::Model;
use streams::{Source, read_behind};
use thiserror::Error;

/// Why no response was read.
#[derive(Clone, Copy, Debug, PartialEq, Eq, Error)]
pub enum ResponseFault {
    /// The input ended before the response did.
    #[error("the input ended inside a response")]
    Ended,
    /// A read failed.
    #[error("a read failed")]
    ReadFailed,
    /// What came is no response that is read: it has no head of HTTP/1.0 or 1.1 with at most 64 headers
    /// in its first 16,384 bytes, or none that gives the length of the body in one `Content-Length` of 1
    /// to 18 digits, or it has a `Transfer-Encoding`, since no body in chunks is read.
    #[error("what came is no response")]
    Unreadable,
    /// Memory for the bytes was refused.
    #[error("memory was refused")]
    Memory,
}

/// The bytes that have come and were not taken.
///
/// Room for them grows with what comes, twofold each time, and not with what a head says. At most
/// 16,384 bytes are read past a response.
pub struct Incoming {
    bytes: Vec<u8>,
    end: usize,
}

impl Drop for Incoming {
    fn drop(self) {
        let Incoming { bytes: _, end: _ } = self;
    }
}

impl Model for Incoming {
    ghost Value = { List ℕ };

    ghost view = { λ i. take i.end i.bytes.items };

    ghost invariant = { λ i. i.end ≤ length i.bytes.items };
}

impl Incoming {
    /// Nothing yet.
    pub fn new(alloc: Global) -> Incoming
        ensures empty { result ≡ [] }
    {
        Incoming {
            bytes: Vec::new(alloc),
            end: 0,
        }
    }

    /// The bytes, at whose front the responses are.
    pub fn bytes(&self) -> &[u8]
        ensures bytes { result.now ≡ self.now }
    {
        &self.bytes[..self.end]
    }

    /// Lets the first bytes go, as those of a response that was read.
    pub fn take(&mut self, len: usize)
        requires { len ≤ length self.old }
        ensures rest { self.new ≡ drop len self.old }
    {
        self.bytes.copy_within(len..self.end, 0);
        self.end -= len;
    }

    /// Reads until a whole response is at the front, and not at all where one is there.
    ///
    /// # Errors
    ///
    /// The bytes stay, with those that have come. After [`ResponseFault::Memory`] and
    /// [`ResponseFault::ReadFailed`] another call goes on.
    pub fn read_response<R: Source>(
        &mut self,
        reader: &mut R,
    ) -> Result<ResponseSpans, ResponseFault>
        ensures read { (piece : List ℕ) × (self.new ≡ self.old ++ piece)
            × Consumes (R.left reader.old) (R.left reader.new) piece }
        ensures needed { ReadsIfUnfinished self.old self.new reader.old reader.new }
        ensures response { Reads self.new (R.left reader.new) result }
        ensures failures { CountsReads (R.failed_reads reader.old)
            (R.failed_reads reader.new) result }
    {
        'reads: loop {
            match read_front(self.bytes()) {
                Front::Response(spans) => return Ok(spans),
                Front::Unreadable => return Err(ResponseFault::Unreadable),
                Front::More(more) => match self.read_once(reader, more.max(HEAD_LIMIT)) {
                    Ok(0) => return Err(ResponseFault::Ended),
                    Ok(_) => {}
                    Err(fault) => return Err(fault),
                },
            }
        }
    }

    /// Reads once, behind what has come. It answers how many bytes came: none only at the end.
    fn read_once<R: Source>(&mut self, reader: &mut R, most: usize) -> Result<usize, ResponseFault>
        requires { 0 < most }
        ensures piece { IfOk result (λ n. (piece : List ℕ) × (length piece ≡ n)
            × (self.new ≡ self.old ++ piece)
            × Consumes (R.left reader.old) (R.left reader.new) piece) }
        ensures end { result ≡ Ok 0 → IsAtEnd (R.left reader.new) }
        ensures budget { IfOk result (λ n. R.budget reader.new + n ≤ R.budget reader.old) }
        ensures err { OnErr result ((self.new ≡ self.old)
            × Keeps (R.left reader.old) (R.left reader.new)) }
        ensures fault { IfErr result (λ f.
            (f ≡ ResponseFault.ReadFailed) ⊎ (f ≡ ResponseFault.Memory)) }
        ensures failures { CountsReads (R.failed_reads reader.old)
            (R.failed_reads reader.new) result }
    {
        let Ok(()) = make_room(&mut self.bytes, self.end) else {
            return Err(ResponseFault::Memory);
        };
        let Ok(n) = read_behind(reader, &mut self.bytes, self.end, most) else {
            return Err(ResponseFault::ReadFailed);
        };
        self.end += n;
        Ok(n)
    }
}

/// Makes room behind the first bytes, which stay.
fn make_room(bytes: &mut Vec<u8>, end: usize) -> Result<(), AllocError>
    requires { end ≤ length bytes.old.items }
    ensures front { take end bytes.new.items ≡ take end bytes.old.items }
    ensures room { OnOk result (end < length bytes.new.items) }
    ensures len { length bytes.old.items ≤ length bytes.new.items }
{
    if end < bytes.len() {
        return Ok(());
    }
    let Some(larger) = end.checked_mul(2) else {
        return Err(AllocError);
    };
    bytes.resize(larger.max(HEAD_LIMIT), 0)
}
