//! Passes of a journal.

/// What became of a pass that was asked for.
#[derive(Clone, Copy, Debug, PartialEq, Eq)]
pub enum Pass {
    /// It was made, or the journal has failed.
    Made,
    /// What is new could not be had, or memory for its lines was refused. It may be tried again.
    Refused,
    /// Somebody else makes one, whose end is said to all that wait.
    Busy,
}

/// Makes passes of a journal, by a context `X`. What came of one is known by the words of the journal's
/// [`KeptPlace`](crate::KeptPlace) alone.
pub trait Passes<X> {
    /// Makes a pass, unless somebody else makes one: appends all that is new in one write, and makes it durable where
    /// `syncs` asks for that. It says the end of the pass to all that wait, after others can make one.
    fn try_pass(&self, context: &X, syncs: bool) -> Pass;
}
