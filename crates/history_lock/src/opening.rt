//! How a master and its sessions are made.
ghost use Rattle.std.specs.Prelude.{◌≡◌, ◌<◌, ◌≤◌, [], map, IfOk, IfErr};
ghost use Rattle.std.specs.List.{range_with_len};
ghost use Rattle.sessions.specs.Known.{fresh};
ghost use Rattle.history_lock.specs.Names.{IsNamed};
ghost use Rattle.history_lock.specs.Refusals.{IsRefusal};

use crate::ends::{Ends, all_ends, all_sessions};
use crate::master::Master;
use crate::opened::Opened;
use commands::Config;
use job_queue::{Consumer, Queue};
use sessions::{Fault, Session, Shared};
use snapshots::Version;
use std::alloc::{AllocError, Global};
use std::sync::{Arc, Wait};
use updater_state::{Core, Gate, Opening};
use version_log::{Book, Front, Published, Publisher};

/// What the updater holds at the beginning, the version of no entries, and what sessions are made of.
fn begin<R: Wait + Drop, J: Opening>(
    alloc: Global,
    config: Config,
    rt: R,
    book: Book<J>,
    front: Front<J>,
    empty: Version,
    queue: &Queue<J>,
    mut consumer: Consumer<J>,
) -> Result<(Core<R, J>, Published<J>, Vec<Ends<J>>), Fault>
    requires front { front ≡ [] }
    requires empty { empty ≡ record { base = J.base; entries = [] } }
    requires taken { consumer.taken ≡ [] }
    requires made { consumer.made ≡ 0 }
    requires sessions { config.sessions ≡ J.sessions }
    requires config { config ≡ J.config }
    ensures ends { IfOk result (λ r. r.2.items ≡ range_with_len 0 config.sessions) }
    ensures refused { IfErr result IsRefusal }
{
    let sessions = config.limits().sessions;
    let Ok(version) = Arc::new(alloc, empty) else {
        return Err(Fault::Memory);
    };
    let first = Published::new(version, front);
    let (publisher, ends) = connect(alloc, sessions, rt, &first, queue, &mut consumer)?;
    let Ok(current) = first.share() else {
        return Err(Fault::Memory);
    };
    let Ok(mut core) = Core::new(alloc, config, book, current, consumer, publisher) else {
        return Err(Fault::Memory);
    };
    if !show_twice(&mut core) {
        return Err(Fault::Memory);
    }
    Ok((core, first, ends))
}

/// The writer of what readers see, and what sessions are made of.
fn connect<R: Wait + Drop, J: Opening>(
    alloc: Global,
    sessions: u16,
    rt: R,
    first: &Published<J>,
    queue: &Queue<J>,
    consumer: &mut Consumer<J>,
) -> Result<(Publisher<R, J>, Vec<Ends<J>>), Fault>
    requires seen { first.now ≡ [] }
    requires consumer { (consumer.old.taken ≡ []) × (consumer.old.made ≡ 0) }
    requires sessions { (sessions ≡ J.sessions) × (0 < sessions) × (sessions ≤ 64) }
    ensures ends { IfOk result (λ r. r.1.items ≡ range_with_len 0 sessions) }
    ensures made { IfOk result (λ r. consumer.new.made ≡ sessions) }
    ensures refused { IfErr result IsRefusal }
{
    let Ok(mut publisher) = Publisher::new(alloc, rt, first, sessions as usize) else {
        return Err(Fault::Memory);
    };
    let ends = all_ends(alloc, sessions, first, &mut publisher, consumer, queue)?;
    Ok((publisher, ends))
}

/// Shown twice, both copies that `left_right` keeps have the room that a later showing takes.
fn show_twice<R: Wait + Drop, J: Opening>(core: &mut Core<R, J>) -> bool {
    core.show().is_ok() && core.show().is_ok()
}

/// The master and the sessions that share what the updater holds.
fn share<R: Wait + Drop, J: Opening, G: Gate + Drop>(
    alloc: Global,
    config: Config,
    queue: Queue<J>,
    gate: G,
    core: Core<R, J>,
    first: Published<J>,
    ends: Vec<Ends<J>>,
) -> Result<(Master<Core<R, J>, J, G>, Vec<Session<Core<R, J>, J, G>>), AllocError>
    requires sessions { config.sessions ≡ J.sessions }
    requires config { config ≡ J.config }
    ensures sessions { IfOk result (λ r. r.1.items ≡ map fresh ends.items) }
{
    let shared = Shared::new(alloc, queue, gate, config, core)?;
    let shared = Arc::new(alloc, shared)?;
    let sessions = all_sessions(alloc, ends, &shared)?;
    let master = Master::new(alloc, shared, first, config.limits().sessions)?;
    Ok((master, sessions))
}

/// A master and its sessions, numbered from 0, each having seen the empty history over what was opened. The writer's
/// runtime is `rt`, and the gate is called between the steps of a write and of a compaction.
///
/// # Errors
///
/// [`Fault::Memory`] where memory was refused, and [`Fault::EntryRefused`] where a reader was.
pub fn open<R: Wait + Drop, J: Opening, G: Gate + Drop>(
    rt: R,
    opened: Opened,
    gate: G,
) -> Result<(Master<Core<R, J>, J, G>, Vec<Session<Core<R, J>, J, G>>), Fault>
    requires named { IsNamed J.book J.base J.table J.capacity J.sessions J.config opened }
    ensures sessions { IfOk result (λ r. r.1.items ≡ map fresh (range_with_len 0 opened.config.sessions)) }
    ensures refused { IfErr result IsRefusal }
{
    let Opened {
        alloc,
        config,
        book,
        empty,
        queue,
    } = opened;
    let (book, front) = book.named::<J>();
    let (queue, consumer) = queue.named::<J>();
    let (core, first, ends) = begin(alloc, config, rt, book, front, empty, &queue, consumer)?;
    match share(alloc, config, queue, gate, core, first, ends) {
        Ok(made) => Ok(made),
        Err(_) => Err(Fault::Memory),
    }
}
