//! Many threads that write and look for a while.
ghost use Rattle.std.specs.Prelude.{◌≡◌, false, IfSome};
ghost use Rattle.model.specs.World.{is_compact};
ghost use Rattle.history_lock.specs.Names.{IsNamed};

use crate::tests::{DOCUMENTS, LIMITS, edit};
use commands::{Command, Config, Entry, Limits, Seat};
use document_id::DocId;
use history_lock::{Opened, open};
use revision_id::RevId;
use sessions::{Receipt, Session};
use snapshots::Version;
use std::alloc::Global;
use std::marker::Brand;
use std::process::Abort;
use std::sync::Wait;
use std::sync::atomic::{AtomicU64, Ordering};
use std::test::*;
use std::thread;
use std::thread::Threads;
use updater_state::{Core, Gate, NoGate, Opening};

const SESSIONS: u16 = 16;

/// How often each session writes.
const WRITES: usize = 1000;

/// How many writes there are.
const ALL: u64 = 16_000;

/// The revision to write over, which wins in the version.
fn winner(version: &Version, id: &DocId) -> Option<RevId> {
    Some(version.database().documents().get(id)?.tree().winner().rev)
}

/// An edit of a document over what wins in the version.
fn next_edit(alloc: Global, version: &Version, turn: usize) -> Option<Command>
    ensures { IfSome result (λ command. is_compact command ≡ false) }
{
    let id = DocId::new(alloc, DOCUMENTS.get(turn % DOCUMENTS.len())?).ok()?;
    let named = winner(version, &id);
    edit(alloc, id, named)
}

/// Whether the entry is that of the receipt.
fn is_of(entry: &Entry, receipt: &Receipt) -> bool {
    entry.seat.session() == receipt.seat.session()
        && entry.seat.call() == receipt.seat.call()
        && entry.reply.is_same(&receipt.reply)
}

/// A session looks and writes over what it saw. Whether it then sees the entry of its receipt.
fn turn<R: Wait, C: Wait + Drop, J: Opening, G: Gate + Drop>(
    rt: &R,
    alloc: Global,
    session: &mut Session<Core<C, J>, J, G>,
    number: usize,
) -> Option<bool> {
    let command = next_edit(alloc, session.look().ok()?.version(), number)?;
    let receipt = session.write(rt, command).ok()?;
    let snapshot = session.look().ok()?;
    Some(is_of(snapshot.version().entry(receipt.place)?, &receipt))
}

/// All turns of a session, which start at a document of its own.
fn turns<R: Wait, C: Wait + Drop, J: Opening, G: Gate + Drop>(
    rt: &R,
    alloc: Global,
    right: &AtomicU64,
    index: usize,
    session: &mut Session<Core<C, J>, J, G>,
) {
    for number in 0..WRITES {
        if turn(rt, alloc, session, number.wrapping_add(index)) == Some(true) {
            right.fetch_add(1, Ordering::SeqCst);
        }
    }
}

/// The version after the entry's command, where it is answered the same.
fn acted_again(version: &Version, entry: &Entry) -> Option<Version> {
    let place = version.place();
    if place >= ALL {
        return None;
    }
    let session = entry.seat.session();
    let seat = Seat::new(session, version.next_call(session))?;
    let next = version.act(seat, &entry.command).ok()?;
    let again = next.entry(place + 1)?;
    if entry.seat.call() != seat.call() || !again.reply.is_same(&entry.reply) {
        return None;
    }
    Some(next)
}

/// The same, where there are a version and an entry.
fn goes_on(version: Option<Version>, entry: Option<&Entry>) -> Option<Version> {
    acted_again(&version?, entry?)
}

/// How many entries there are, where all commands are answered the same one after another. No call in
/// the loop returns early, since that is proved anew for each with the version that is then let go.
fn replayed(alloc: Global, version: &Version) -> Option<u64> {
    let mut again = Some(Version::empty(alloc));
    for place in 0..version.place() {
        again = goes_on(again, version.entry(place + 1));
    }
    Some(again?.place())
}

/// How many receipts were right, and how many entries are replayed.
fn soaked<J: Opening + Send + Sync, R: Threads + Wait + Sync>(
    rt: &R,
    alloc: Global,
    opened: Opened,
) -> Option<(u64, u64)>
    requires named { IsNamed J.book J.base J.table J.capacity J.sessions J.config opened }
{
    let right = AtomicU64::new(0);
    let Ok((master, mut sessions)) = open::<&R, J, NoGate>(rt, opened, NoGate) else {
        return None;
    };
    thread::for_each_mut(
        rt,
        sessions.as_mut_slice(),
        SESSIONS as usize,
        &|index, session| turns(rt, alloc, &right, index, session),
    );
    let closed = master.close(sessions, rt);
    if !closed.lost().is_empty() {
        return None;
    }
    let entries = replayed(alloc, closed.version())?;
    Some((right.load(Ordering::SeqCst), entries))
}

#[test]
fn each_receipt_is_told_once(rt: HostRuntime) -> Result<(), Fail> {
    let limits = Limits {
        sessions: SESSIONS,
        queue: SESSIONS,
        max_places: 20_000,
        ..LIMITS
    };
    let config = Config::new(limits).ok_or("limits")?;
    let opened = Opened::new(rt.alloc(), config)?;
    assert_eq!(rt;
        soaked::<Brand, _>(&rt, rt.alloc(), opened),
        Some((ALL, ALL))
    );
    Ok(())
}
