//! Workers that serve connections, and beside them the keeper of the journal.
ghost use Rattle.std.specs.Prelude.{◌≡◌, ◌<◌, ◌≤◌, ◌+◌, ℕ, [], length, option_map, slice_index_or, vec_capacity, IfSome};
ghost use Rattle.http_workers.specs.Worker.{ServesFew};
ghost use Rattle.journal_front.specs.Keeping.{IsRound};
ghost use Rattle.journal_front.specs.Server.{ServesDurably, awaits};

use crate::epochs::Epochs;
use crate::journaled::Journaled;
use crate::keeper::{Upkeep, keep};
use crate::naming::Keeping;
use crate::notices::Notices;
use crate::pen::{Left, Pen, Round};
use crate::service::Service;
use crate::waiting::{all_durable, all_inner};
use durable_calls::KeptPlace;
use http_turns::Setting;
use http_workers::{Watch, Workers, listen};
use journal::Appended;
use session_api::Calls;
use session_calls::SeesVersion;
use std::sync::Wait;
use std::thread;
use std::thread::Threads;
use std::time::{Clock, Duration};

/// So many seconds the keeper is waited for at its start.
const KEEPER_SECONDS: u64 = 10;

/// Serves connections by sessions that answer what a journal has, until no more entries come. At first nothing is known to be in
/// it. It answers the sessions, with room for one more, and what then lies under the pen. It answers nothing where memory was refused.
pub(crate) fn serve_kept<
    A: AllocGlobal + Threads + Wait + Clock + Sync,
    S: Calls<A> + Send + Drop,
    K: SeesVersion + Send + Drop,
    N: Keeping + Send + Sync,
    F: Appended + Send,
    L: Notices<F> + Watch + Sync + Send,
    E: Epochs<F> + Send,
>(
    service: &Service<'_, L>,
    workers: &Workers<'_, L>,
    setting: &Setting<'_, A>,
    sessions: Vec<S>,
    round: Round<K, F, N, L, E>,
    place: &KeptPlace<Journaled<N>>,
    epochs: &mut E,
    rt: &A,
) -> Option<(Vec<S>, Left<K, F>)>
where
    S::Opened: Send,
    K::Opened: Send,
    ensures served { IfSome result (λ served. ServesDurably S.goes S.known N.is_appended N.is_kept N.is_limit N.has_failed
        (awaits service.now.policy) setting.now service.now.terms.connections (K.known served.1.session).seen sessions.items served.0.items) }
    ensures room { IfSome result (λ served. length served.0.items + 1 ≤ vec_capacity served.0) }
    ensures round { IfSome result (λ served. IsRound N.has_failed (K.known served.1.session) served.1.journal
        (option_map (λ next. next.version.base) served.1.next)) }
{
    let alloc = rt.alloc();
    let Ok(room) = Vec::with_capacity(alloc, sessions.len() + 1) else {
        return None;
    };
    serve_by_pen::<A, S, K, N, F, L, E>(
        service, workers, setting, sessions, round, place, room, epochs, rt,
    )
}

/// Serves connections by sessions that answer what the journal under a pen has, until no more entries come. It answers the
/// sessions in `room`, and what then lies under the pen. It answers nothing where memory was refused.
fn serve_by_pen<
    A: AllocGlobal + Threads + Wait + Clock + Sync,
    S: Calls<A> + Send + Drop,
    K: SeesVersion + Send + Drop,
    N: Keeping + Send + Sync,
    F: Appended + Send,
    L: Notices<F> + Watch + Sync + Send,
    E: Epochs<F> + Send,
>(
    service: &Service<'_, L>,
    workers: &Workers<'_, L>,
    setting: &Setting<'_, A>,
    sessions: Vec<S>,
    round: Round<K, F, N, L, E>,
    place: &KeptPlace<Journaled<N>>,
    room: Vec<S>,
    epochs: &mut E,
    rt: &A,
) -> Option<(Vec<S>, Left<K, F>)>
where
    S::Opened: Send,
    K::Opened: Send,
    requires room { (room.items ≡ []) × (length sessions.items + 1 ≤ vec_capacity room) }
    ensures served { IfSome result (λ served. ServesDurably S.goes S.known N.is_appended N.is_kept N.is_limit N.has_failed
        (awaits service.now.policy) setting.now service.now.terms.connections (K.known served.1.session).seen sessions.items served.0.items) }
    ensures room { IfSome result (λ served. length served.0.items + 1 ≤ vec_capacity served.0) }
    ensures round { IfSome result (λ served. IsRound N.has_failed (K.known served.1.session) served.1.journal
        (option_map (λ next. next.version.base) served.1.next)) }
{
    let alloc = rt.alloc();
    round.recall();
    let known = round.at_first();
    let pen = Pen::new(alloc, round, place, service.notices);
    let Ok(durable) = all_durable(
        alloc,
        sessions,
        place,
        &pen,
        rt,
        service.policy.awaits(),
        &known,
    ) else {
        return None;
    };
    let served = serve_beside::<A, _, _, F, N, L, E>(
        service, workers, setting, durable, &pen, place, epochs, rt,
    );
    let last = pen.known(rt);
    let Some(sessions) = all_inner(served, &last, room) else {
        return None;
    };
    let round = pen.into_round();
    let journaled = round.known();
    if !last.precedes(&journaled) {
        return None;
    }
    Some((sessions, round.into_left()))
}

/// Serves connections by sessions, while the keeper does what time brings.
fn serve_beside<
    A: Threads + Wait + Clock + Sync,
    S: Calls<A> + Send + Drop,
    P: Upkeep<A, F, N, L, E> + Sync,
    F: Appended + Send,
    N: Keeping + Sync + Send,
    L: Notices<F> + Watch + Sync + Send,
    E: Epochs<F> + Send,
>(
    service: &Service<'_, L>,
    workers: &Workers<'_, L>,
    setting: &Setting<'_, A>,
    sessions: Vec<S>,
    pen: &P,
    place: &KeptPlace<Journaled<N>>,
    epochs: &mut E,
    rt: &A,
) -> Vec<S>
where
    S::Opened: Send,
    requires reported { L.reported → N.has_failed }
    ensures same_number { length result.items ≡ length sessions.items }
    ensures each { (i : ℕ) (d : S) → i < length sessions.items
        → ServesFew S.goes S.known setting.now service.now.terms.connections
        (slice_index_or sessions.items i d) (slice_index_or result.items i d) }
{
    let ((), served) = thread::join(
        rt,
        move || keep::<A, P, F, N, L, E>(rt, service, pen, place, epochs),
        move ||
            requires { L.reported → N.has_failed }
        { serve_all::<A, S, F, N, L>(service, workers, setting, sessions, place, rt) },
    );
    served
}

/// Serves connections by sessions, and says then that no more entries come.
fn serve_all<
    A: Threads + Wait + Clock + Sync,
    S: Calls<A> + Send + Drop,
    F: Appended,
    N: Keeping,
    L: Notices<F> + Watch + Sync,
>(
    service: &Service<'_, L>,
    workers: &Workers<'_, L>,
    setting: &Setting<'_, A>,
    sessions: Vec<S>,
    place: &KeptPlace<Journaled<N>>,
    rt: &A,
) -> Vec<S>
where
    S::Opened: Send,
    requires reported { L.reported → N.has_failed }
    ensures same_number { length result.items ≡ length sessions.items }
    ensures each { (i : ℕ) (d : S) → i < length sessions.items
        → ServesFew S.goes S.known setting.now service.now.terms.connections
        (slice_index_or sessions.items i d) (slice_index_or result.items i d) }
{
    if !place.wait_for_keeper(rt, Duration::from_secs(KEEPER_SECONDS)) {
        service.notices.no_keeper();
        place.fail();
    }
    let mut sessions = sessions;
    listen(
        rt,
        service.entrance,
        sessions.as_mut_slice(),
        service.terms,
        Some(place.over()),
        setting,
        workers,
    );
    place.end();
    sessions
}
