//! How serving ends.
ghost use Rattle.std.specs.Prelude.{◌≡◌};

/// Why serving ended.
#[derive(Clone, Copy, Debug, PartialEq, Eq)]
pub enum Cause {
    /// The input ended between requests.
    AtEnd,
    /// The input ended inside a request.
    InRequest,
    /// The last response closes the connection.
    Closed,
    /// A read failed.
    ReadFault,
    /// A write failed. A beginning of the next response may be sent, and its request may have taken
    /// effect.
    WriteFault,
    /// Memory for the input was refused, and nothing was read.
    Memory,
}

/// How serving ended.
#[derive(Clone, Copy, Debug, PartialEq, Eq)]
pub struct Ended {
    /// How many requests were answered by a whole response, a refusal of what is none among them.
    pub answered: u64,
    pub cause: Cause,
}

impl Ended {
    /// It ended after so many responses, for this cause.
    pub(crate) fn after(answered: u64, cause: Cause) -> Ended
        ensures { result ≡ record { answered = answered; cause = cause } }
    {
        Ended { answered, cause }
    }
}
