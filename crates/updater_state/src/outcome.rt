//! What became of a job.
ghost use Rattle.std.specs.Prelude.{◌≡◌};
ghost use Rattle.updater_state.specs.Fates.{fate_of};
ghost use Rattle.updater_state.specs.Outcomes.{has_entry};

use crate::answer::{Answer, Filled};
use crate::naming::Opening;
use std::marker::Model;

/// What became of a job, by its kind.
#[derive(Drop)]
pub enum OutcomeKind<J: Opening> {
    /// Its entry is in the history.
    Stood(Answer<J>),
    /// No entry, since no place is left.
    Full(Filled<J>),
    /// No entry, since memory was refused.
    Memory,
    /// Dropped from the queue: it was not its session's next call, or the session had a job in the batch.
    Dropped,
}

/// What became of a job.
pub struct Outcome<J: Opening> {
    kind: OutcomeKind<J>,
}

impl<J: Opening> Drop for Outcome<J> {
    fn drop(self) {
        let Outcome { kind: _ } = self;
    }
}

impl<J: Opening> Model for Outcome<J> {
    ghost use Rattle.std.specs.Coded.{codes};
    ghost use Rattle.model.specs.JsonCode.{coded_members};
    ghost use Rattle.updater_state.specs.Outcomes.{Fate, coded_fate};
    ghost use Rattle.updater_state.specs.Fates.{fate_of};

    ghost Value = { Fate };

    ghost coded = { coded_fate (Prim.hlevel (codes, coded_members)) (Prim.hlevel (codes, coded_members)) };

    ghost view = { λ o. fate_of o.kind };
}

impl<J: Opening> Outcome<J> {
    pub(crate) fn new(kind: OutcomeKind<J>) -> Outcome<J>
        ensures { result ≡ fate_of kind }
    {
        Outcome { kind }
    }

    /// Whether the job has an entry.
    pub fn has_entry(&self) -> bool
        ensures { result ≡ has_entry self.now }
    {
        match &self.kind {
            OutcomeKind::Stood(_) => true,
            OutcomeKind::Full(_) | OutcomeKind::Memory | OutcomeKind::Dropped => false,
        }
    }

    /// What became of the job.
    pub fn into_kind(self) -> OutcomeKind<J>
        ensures { fate_of result ≡ self }
    {
        let Outcome { kind } = self;
        kind
    }
}
