//! What answers requests.
ghost use Rattle.std.specs.Prelude.{◌≡◌, IfOk, is_ok};
ghost use Rattle.streams.specs.Counts.{CountsFailure};
ghost use Rattle.streams.specs.Writes.{Writes};
ghost use Rattle.http_framing.specs.Input.{Requested, Refused};
ghost use Rattle.http_connection.specs.Turn.{Turn, TakesTurn};

use http_framing::FramingFault;
use http_framing::request::Request;
use streams::{Failed, Sink};

/// What answers the requests of a connection, in a context that stays the same.
///
/// It is lent the writer: a response may be at hand, or be written in pieces as they come about.
/// That memory was refused is a response too, of a text that takes none, after which the connection
/// closes.
pub trait Service<C> {
    /// In this context it goes from one state to the next by this turn.
    ghost answers: { C → Self → Turn → Self → Type 0 };

    /// Writes the response to a request, and answers whether the connection closes after it, as it
    /// does where the request asks for that.
    ///
    /// # Errors
    ///
    /// A write failed. A beginning of the response may have been written.
    fn answer<W: Sink>(
        &mut self,
        context: &C,
        request: &Request<'_>,
        writer: &mut W,
    ) -> Result<bool, Failed>
        ensures turn { (turn : Turn)
            × TakesTurn (answers context.now) self.old self.new (Requested request.now) turn
            × Writes (W.taken writer.old) (W.taken writer.new) result turn.text
            × (turn.whole ≡ is_ok result)
            × IfOk result (λ closes. closes ≡ turn.closes) }
        ensures failures { CountsFailure (W.failed_writes writer.old)
            (W.failed_writes writer.new) result };

    /// Writes the response to bytes that are refused, after which the connection closes.
    ///
    /// # Errors
    ///
    /// A write failed. A beginning of the response may have been written.
    fn refuse<W: Sink>(
        &mut self,
        context: &C,
        fault: FramingFault,
        writer: &mut W,
    ) -> Result<(), Failed>
        ensures turn { (turn : Turn)
            × TakesTurn (answers context.now) self.old self.new (Refused fault) turn
            × Writes (W.taken writer.old) (W.taken writer.new) result turn.text
            × (turn.whole ≡ is_ok result) }
        ensures failures { CountsFailure (W.failed_writes writer.old)
            (W.failed_writes writer.new) result };
}
