//! The last version, and the sessions that are lost by it.
ghost use Rattle.std.specs.Prelude.{◌≡◌, ◌+◌, ◌<◌, ◌≤◌, [], ◌∷◌, ◌++◌, length, map, filter, All, vec_capacity, if◌then◌else◌};
ghost use mathlib.Core.List.{IsPrefix};
ghost use Rattle.version_log.specs.Histories.{newest, Grows};
ghost use Rattle.sessions.specs.Known.{Known};
ghost use Rattle.sessions.specs.Ends.{is_lost, IsExact};

use sessions::{Ended, Session, later_of};
use updater_state::Opening;
use version_log::Published;

/// The latest of what was seen, which extends what each session had seen.
pub(crate) fn last_of_all<C: Drop, J: Opening, G: Drop>(
    current: Published<J>,
    sessions: Vec<Session<C, J, G>>,
    mut ended: Vec<Ended<J>>,
) -> (Published<J>, Vec<Ended<J>>)
    requires grows { Grows J.base current }
    requires room { (ended.items ≡ []) × (length sessions.items ≤ vec_capacity ended) }
    ensures last { IsPrefix current result.0 × Grows J.base result.0 }
    ensures ended { result.1.items ≡ sessions.items }
    ensures extends { All (λ (k : Known). IsPrefix k.published result.0) result.1.items }
{
    let mut last = current;
    for session in sessions {
        let (latest, end) = session.into_end();
        last = later_of(last, latest);
        ended.push_reserved(end);
    }
    (last, ended)
}

/// The numbers of the lost sessions.
pub(crate) fn lost_of<J: Opening>(
    last: &Published<J>,
    ended: &[Ended<J>],
    mut lost: Vec<u16>,
) -> Vec<u16>
    requires room { (lost.items ≡ []) × (length ended.now ≤ vec_capacity lost) }
    requires seen { All (λ (k : Known). IsPrefix k.published last.now) ended.now }
    ensures lost { result.items ≡ map (λ (k : Known). k.number) (filter (is_lost (newest last.now)) ended.now) }
    ensures exact { All (IsExact (newest last.now)) ended.now }
{
    for end in ended {
        let is_lost = end.is_lost(last);
        note(&mut lost, end.number(), is_lost);
    }
    lost
}

/// Adds a number that is wanted.
fn note(lost: &mut Vec<u16>, number: u16, is_wanted: bool)
    requires { length lost.old.items < vec_capacity lost.old }
    ensures items { lost.new.items ≡ lost.old.items ++ (if is_wanted then number ∷ [] else []) }
    ensures few { length lost.new.items ≤ length lost.old.items + 1 }
    ensures capacity { vec_capacity lost.new ≡ vec_capacity lost.old }
{
    if is_wanted {
        lost.push_reserved(number);
    }
}
