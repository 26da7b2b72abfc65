//! What is left of an epoch once no more entries come.
ghost use Rattle.std.specs.Prelude.{◌≡◌, ◌≤◌, ◌+◌, [], ◌∷◌, ◌++◌, length, option_map, vec_capacity, Some, IfSome};
ghost use Rattle.session_calls.specs.Sessions.{known_of};
ghost use Rattle.journal_front.specs.Keeping.{IsRound};
ghost use Rattle.journal_front.specs.Server.{ClosesKept};

use crate::completing::complete;
use crate::epochs::Epoch;
use crate::naming::Keeping;
use crate::notices::Notices;
use crate::pen::Left;
use crate::service::Service;
use http_front::Running;
use journal::{Appended, Journal};
use session_api::Viewer;
use session_calls::SharedSession;
use std::sync::Wait;
use updater_state::{Core, NoGate, Opening};

/// Closes a database whose sessions have served, and completes its journal. It answers that, and the next epoch where that goes on
/// from all entries. It answers nothing where memory was refused for what the journal lacked.
pub(crate) fn close_kept<
    R: Wait + Drop,
    J: Opening,
    N: Keeping,
    A: AllocGlobal + Wait,
    F: Appended,
    L: Notices<F>,
>(
    service: &Service<'_, L>,
    running: Running<'_, R, J, A>,
    mut sessions: Vec<SharedSession<Core<R, J>, J, NoGate>>,
    left: Left<SharedSession<Core<R, J>, J, NoGate>, F>,
    rt: &A,
) -> Option<(Journal<F>, Option<Epoch<F>>)>
    requires reported { L.reported → N.has_failed }
    requires room { length sessions.items + 1 ≤ vec_capacity sessions }
    requires all { length sessions.items + 1 ≤ J.sessions }
    requires ends { (running.room.items ≡ []) × (length sessions.items + 1 ≤ vec_capacity running.room) }
    requires round { IsRound N.has_failed (known_of J.base J.config J.sessions J.capacity left.session) left.journal
        (option_map (λ next. next.version.base) left.next) }
    ensures { IfSome result (λ closed. ClosesKept J.base N.has_failed service.now.policy (sessions.items ++ left.session ∷ []) closed.0
        (option_map (λ next. next.version.base) closed.1)) }
{
    let Left {
        session,
        mut journal,
        next,
    } = left;
    let seen = session.place();
    sessions.push_reserved(session);
    let closed = running.end(sessions, rt);
    let last = closed.version();
    let Ok(()) = complete::<F, N, L>(rt.alloc(), service, &mut journal, last) else {
        return None;
    };
    Some((journal, from_all(next, last.place(), seen)))
}

/// The next epoch, where it goes on from all entries: as many as there are were seen when it began.
fn from_all<F: Appended>(next: Option<Epoch<F>>, places: u64, seen: u64) -> Option<Epoch<F>>
    ensures { IfSome result (λ epoch. (places ≡ seen) × (next ≡ Some epoch)) }
{
    if places == seen { next } else { None }
}
