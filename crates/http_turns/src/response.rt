//! A response at hand.
ghost use Rattle.std.specs.Prelude.{◌≡◌, ℕ, List, Option, Some, IfOk};
ghost use Rattle.streams.specs.Counts.{CountsFailure};
ghost use Rattle.streams.specs.Writes.{Writes};
ghost use Rattle.http_turns.specs.ResponseText.{after_closing};
ghost use Rattle.http_turns.specs.Sent.{SaysLost, SendsDue};
ghost use Rattle.http_turns.specs.Replies.{SendsLong};

use http_request::{ChangesAsked, Extent};
use http_response::{Connection, Cut, MemoryFor, Pieces, Response, no_memory};
use session_api::Revisions;
use std::alloc::{AllocError, Global};
use streams::{Failed, Sink};

/// What is sent, and whether the connection closes after it.
#[derive(Drop)]
pub(crate) struct Sent {
    pub(crate) response: Response,
    pub(crate) closes: bool,
}

/// A long answer, which is written in pieces, and whether the connection closes after it.
#[derive(Drop)]
pub(crate) struct Long<O: Revisions> {
    pub(crate) pieces: Pieces<O>,
    pub(crate) closes: bool,
}

/// How a request is answered.
#[derive(Drop)]
pub(crate) enum Reply<O: Revisions> {
    /// By a response that is at hand.
    Sent(Sent),
    /// By a response whose pieces are made as they are written.
    Long(Long<O>),
    /// By a feed that goes on as changes come.
    Feed(ChangesAsked),
}

impl Sent {
    /// Says that memory was refused, as far as the request takes that, after which the connection
    /// closes.
    pub(crate) fn no_memory(place: u64, extent: Extent, wanted: MemoryFor) -> Sent
        ensures { SaysLost place extent wanted result }
    {
        Sent {
            response: no_memory(place, extent, wanted),
            closes: true,
        }
    }

    /// What is to be sent: the response, or that memory for it was refused.
    pub(crate) fn made(
        response: Result<Response, AllocError>,
        closes: bool,
        place: u64,
        wanted: MemoryFor,
    ) -> Sent
        ensures { (due : Option (List ℕ)) → IfOk response (λ made. Some made ≡ due)
            → SendsDue due closes place wanted result }
    {
        match response {
            Ok(response) => Sent { response, closes },
            Err(_) => Sent::no_memory(place, Extent::Whole, wanted),
        }
    }
}

/// Writes a response, and answers whether the connection closes after it.
pub(crate) fn send<W: Sink>(writer: &mut W, sent: &Sent) -> Result<bool, Failed>
    ensures written { Writes (W.taken writer.old) (W.taken writer.new) result sent.now.response }
    ensures closes { IfOk result (λ closes. closes ≡ sent.now.closes) }
    ensures failures { CountsFailure (W.failed_writes writer.old)
        (W.failed_writes writer.new) result }
{
    writer.begins();
    sent.response.write(writer)?;
    Ok(sent.closes)
}

/// Writes a long answer, and answers whether the connection closes after it, as it also does where the
/// answer is cut because memory for the rest is refused.
pub(crate) fn send_long<O: Revisions + Drop, W: Sink>(
    alloc: Global,
    writer: &mut W,
    long: Long<O>,
) -> Result<bool, Failed>
    ensures sends { SendsLong (W.taken writer.old) (W.taken writer.new) result long }
    ensures failures { CountsFailure (W.failed_writes writer.old)
        (W.failed_writes writer.new) result }
{
    writer.begins();
    match long.pieces.write(alloc, writer) {
        Ok(()) => Ok(long.closes),
        Err(Cut::Memory) => Ok(true),
        Err(Cut::Write) => Err(Failed),
    }
}

/// What a response says of the connection.
pub(crate) fn connection_after(closes: bool) -> Connection
    ensures { result ≡ after_closing closes }
{
    if closes {
        Connection::Close
    } else {
        Connection::Open
    }
}
