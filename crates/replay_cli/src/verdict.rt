//! What is found of a text.
use std::fmt;
use std::fmt::Display;

/// What is found of a text that should be a dump.
#[derive(Clone, Copy, Debug, PartialEq, Eq)]
pub enum Verdict {
    /// It is the dump of a legal history of so many entries.
    Legal(u64),
    /// It is a dump. The first wrong entry is at this place, counted from 1: its seat isn't its
    /// session's next call, or its reply isn't that of the sequential database.
    WrongAt(u64),
    /// It is no dump. This is the number, counted from 1, of the first line that can't be read.
    UnreadableLine(u64),
}

impl Display for Verdict {
    ghost use Rattle.std.specs.Prelude.{Some};
    ghost use Rattle.replay_cli.specs.Run.{verdict_text};

    ghost output = { λ v. Some (verdict_text v) };

    fn fmt<W: fmt::Write>(&self, f: &mut fmt::Formatter<W>) -> fmt::Result {
        match self {
            Verdict::Legal(places) => write!(f, "legal {places}"),
            Verdict::WrongAt(place) => write!(f, "wrong at {place}"),
            Verdict::UnreadableLine(number) => write!(f, "unreadable line {number}"),
        }
    }
}
