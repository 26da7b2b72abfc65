//! The outcomes by session.
ghost use Rattle.std.specs.Prelude.{◌≡◌, None, length, replicate, slice_set, IfOk, IsTrue};
ghost use Rattle.version_log.specs.Histories.{newest};
ghost use Rattle.updater_state.specs.Outcomes.{told, outcome_of, IsGivenUp, GivesUp};

use crate::answer::Filled;
use crate::naming::Opening;
use crate::outcome::{Outcome, OutcomeKind};
use commands::Job;
use core::mem::replace;
use std::alloc::{AllocError, Global};
use version_log::Published;

/// Of each session what became of its last popped job, until that is taken.
pub(crate) type Outcomes<J> = Vec<Option<Outcome<J>>>;

/// Puts what becomes of the session's job in the place of what was there, which it answers.
fn exchange<J: Opening>(
    outcomes: &mut Outcomes<J>,
    session: u16,
    outcome: Option<Outcome<J>>,
) -> Option<Outcome<J>>
    ensures { outcomes.new.items ≡ slice_set outcomes.old.items session outcome }
{
    let Some(slot) = outcomes.get_mut(session as usize) else {
        return outcome;
    };
    replace(slot, outcome)
}

/// This is what became of the session's job.
pub(crate) fn tell<J: Opening>(outcomes: &mut Outcomes<J>, session: u16, outcome: Outcome<J>)
    ensures { outcomes.new.items ≡ told outcomes.old.items session outcome }
{
    let _older = exchange(outcomes, session, Some(outcome));
}

/// Takes the session's outcome.
pub(crate) fn take<J: Opening>(outcomes: &mut Outcomes<J>, session: u16) -> Option<Outcome<J>>
    ensures outcome { result ≡ outcome_of outcomes.old.items session }
    ensures rest { outcomes.new.items ≡ slice_set outcomes.old.items session None }
{
    outcomes.get_mut(session as usize)?.take()
}

/// No outcomes yet, for so many sessions.
pub(crate) fn no_outcomes<J: Opening>(
    alloc: Global,
    sessions: u16,
) -> Result<Outcomes<J>, AllocError>
    ensures { IfOk result (λ outcomes. outcomes.items ≡ replicate sessions None) }
{
    let mut outcomes = Vec::with_capacity(alloc, sessions as usize)?;
    for _made in 0..sessions {
        outcomes.push(None)?;
    }
    Ok(outcomes)
}

/// What a job that is given up is answered: that no place is left, or that memory was refused.
fn given_up<J: Opening>(current: &Published<J>, is_full: bool) -> Outcome<J>
    requires { IsTrue is_full → length (newest current.now) ≡ J.config.max_places }
    ensures { IsGivenUp J.config.max_places current.now result }
{
    if !is_full {
        return Outcome::new(OutcomeKind::Memory);
    }
    let Ok(found) = current.share() else {
        return Outcome::new(OutcomeKind::Memory);
    };
    Outcome::new(OutcomeKind::Full(Filled::new(found)))
}

/// Each job is given up.
pub(crate) fn give_up_all<J: Opening>(
    outcomes: &mut Outcomes<J>,
    jobs: &[Job],
    current: &Published<J>,
    is_full: bool,
)
    requires { IsTrue is_full → length (newest current.now) ≡ J.config.max_places }
    ensures { GivesUp J.config.max_places current.now jobs.now outcomes.old.items outcomes.new.items }
{
    for job in jobs {
        tell(outcomes, job.seat.session(), given_up(current, is_full));
    }
}
