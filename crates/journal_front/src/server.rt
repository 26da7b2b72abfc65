//! A server whose history a journal keeps.
ghost use Rattle.std.specs.Prelude.{◌≡◌, ◌⊎◌, ◌+◌, ◌<◌, ◌≤◌, option_map, IfSome};
ghost use Rattle.history_lock.specs.Names.{IsNamed};
ghost use Rattle.http_front.specs.Opening.{server_config};
ghost use Rattle.http_front.specs.Server.{server_turns};
ghost use Rattle.journal.specs.Held.{HoldsDump, begun};
ghost use Rattle.model.specs.History.{base_of};
ghost use Rattle.journal_front.specs.Keeping.{IsKeptIn, IsLimitIn, Names};
ghost use Rattle.journal_front.specs.Server.{EndsEpoch, EndsEpochOver, ServesEpochs};

use crate::closing::close_kept;
use crate::epochs::{Epoch, Epochs};
use crate::journaled::Account;
use crate::naming::Keeping;
use crate::notices::Notices;
use crate::pen::Round;
use crate::service::Service;
use crate::serving::serve_kept;
use durable_calls::KeptPlace;
use history_lock::Opened;
use http_front::{Running, SERVER_TURNS, server_config};
use http_workers::{Watch, Workers};
use journal::{Appended, Journal};
use session_api::Viewer;
use std::marker::Brand;
use std::sync::Wait;
use std::thread::Threads;
use std::time::Clock;
use updater_state::Opening;
use version_log::Opened as OpenedLog;

/// Serves a database, each worker with a session of its own, while a journal keeps its history. When the history is full the
/// next epoch begins: what the workers have begun is answered, their connections end, and clients come again.
///
/// It answers the journal of the last epoch, whose connections were all served. It answers nothing where no worker or no keeper can
/// start, where a database was not opened, since memory or a reader was refused, or where memory was refused for what the
/// journal of an epoch lacked at its end.
pub fn run_kept<
    A: AllocGlobal + Threads + Wait + Clock + Sync,
    F: Appended + Send,
    L: Notices<F> + Watch + Sync + Send,
    E: Epochs<F> + Send,
>(service: &Service<'_, L>, first: Epoch<F>, epochs: &mut E, rt: &A) -> Option<Journal<F>>
    requires workers { (1 ≤ service.now.workers) × (service.now.workers ≤ 63) }
    requires places { 1 ≤ service.now.max_places }
    ensures { IfSome result (λ journal. ServesEpochs (server_config (service.now.workers + 1) service.now.max_places)
        F.said F.told (L.reported ⊎ E.reported) service.now.policy server_turns
        service.now.terms.connections first.version.base journal) }
{
    // The keeper has a thread of its own too.
    let workers = Workers::new(rt, rt.alloc(), service.workers + 1, service.notices)?;
    let mut epoch = first;
    for _ in rt.forever() {
        let Some((journal, next)) = serve_epoch(service, &workers, epoch, epochs, rt) else {
            service.notices.few_workers(0, service.workers as u64);
            return None;
        };
        let Some(next) = next else {
            return Some(journal);
        };
        epoch = next;
    }
    unreachable!()
}

/// Serves an epoch to its end, and answers its journal, and the next epoch where the history is full.
fn serve_epoch<
    A: AllocGlobal + Threads + Wait + Clock + Sync,
    F: Appended + Send,
    L: Notices<F> + Watch + Sync + Send,
    E: Epochs<F> + Send,
>(
    service: &Service<'_, L>,
    workers: &Workers<'_, L>,
    epoch: Epoch<F>,
    epochs: &mut E,
    rt: &A,
) -> Option<(Journal<F>, Option<Epoch<F>>)>
    requires workers { (1 ≤ service.now.workers) × (service.now.workers ≤ 63) }
    requires places { 1 ≤ service.now.max_places }
    ensures { IfSome result (λ left. EndsEpoch (server_config (service.now.workers + 1) service.now.max_places)
        F.said F.told (L.reported ⊎ E.reported) service.now.policy server_turns
        service.now.terms.connections epoch.version.base left.0
        (option_map (λ next. next.version.base) left.1)) }
{
    let (version, journal) = epoch.into_parts();
    let limit = version.database().documents().update_seq();
    let config = server_config(service.workers + 1, service.max_places);
    let Ok(opened) = Opened::over(rt.alloc(), config, version) else {
        return None;
    };
    serve_running::<Brand, Brand, &A, A, F, L, E>(
        service,
        workers,
        opened,
        journal,
        OpenedLog::new(),
        limit,
        epochs,
        rt,
        rt,
    )
}

/// Serves an opened database, whose writer keeps a runtime of its own, and closes it. At first numbers up to `limit` may be
/// shown, which is that of the base.
fn serve_running<
    J: Opening + Send + Sync,
    N: Keeping + Send + Sync,
    R: Wait + Drop + Send,
    A: AllocGlobal + Threads + Wait + Clock + Sync,
    F: Appended + Send,
    L: Notices<F> + Watch + Sync + Send,
    E: Epochs<F> + Send,
>(
    service: &Service<'_, L>,
    workers: &Workers<'_, L>,
    opened: Opened,
    journal: Journal<F>,
    log: OpenedLog,
    limit: u64,
    epochs: &mut E,
    rt: &A,
    writer_rt: R,
) -> Option<(Journal<F>, Option<Epoch<F>>)>
    requires named { IsNamed J.book J.base J.table J.capacity J.sessions J.config opened }
    requires some { 0 < opened.config.sessions }
    requires names { Names F.said F.told (L.reported ⊎ E.reported) N.is_appended N.is_kept N.is_limit N.has_failed N.base }
    requires log { log ≡ N.book }
    requires base { N.base ≡ J.base }
    requires limit { limit ≡ (base_of J.base).update_seq }
    requires held { HoldsDump journal (begun J.base) }
    ensures { IfSome result (λ left. EndsEpochOver opened.config N.is_appended N.is_kept N.is_limit N.has_failed service.now.policy
        server_turns service.now.terms.connections J.base left.0
        (option_map (λ next. next.version.base) left.1)) }
{
    let account = Account::open(log, limit);
    let Some((running, mut sessions)) = Running::<R, J, A>::start(
        rt.alloc(),
        writer_rt,
        opened,
        rt,
        SERVER_TURNS,
    ) else {
        return None;
    };
    let Some(keeper) = sessions.pop() else {
        return None;
    };
    let place = KeptPlace::new(account.journaled());
    let mut round = Round::new(keeper, journal, account);
    round.check(&place, service.notices);
    let Some((sessions, left)) = serve_kept::<A, _, _, N, F, L, E>(
        service,
        workers,
        &running.setting,
        sessions,
        round,
        &place,
        epochs,
        rt,
    ) else {
        return None;
    };
    close_kept::<R, J, N, A, F, L>(service, running, sessions, left, rt)
}
