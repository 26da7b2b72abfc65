//! The database that the entries of a dump make, one after another.
ghost use Rattle.std.specs.Prelude.{◌≡◌, ◌<◌, ◌≤◌, ◌⊎◌, ◌+◌, suc, Ok, Err, true, false, IfErr, IfOk, MatchBool, OnErr, OnOk};
ghost use Rattle.model.specs.Command as model;
ghost use Rattle.model.specs.Database.{act};
ghost use Rattle.model.specs.History.{now, largest_base, IsNext};
ghost use Rattle.replay_cli.specs.Places.{last_place};
ghost use Rattle.replay_cli.specs.Successors.{HasRoom};
ghost use Rattle.journal.specs.Replaying.{AreTooLarge, CanBeNext, IsNextLine, IsRefused};

use crate::restored::End;
use commands::Entry;
use replay_cli::{Verdict, read_entry};
use snapshots::{Database, Version};
use std::alloc::{AllocError, Global};

/// The largest update number, and the largest purge number, that a next epoch can begin from.
const LARGEST_BASE: u64 = 4_611_686_018_427_387_904;

/// The database that the entries of a dump make, how many they are, how many bytes their lines and the first one have, and what
/// lies behind them. The entries are not kept, so it takes memory for the database alone.
#[derive(Drop)]
pub(crate) struct Replayed {
    pub(crate) database: Database,
    pub(crate) place: u64,
    pub(crate) taken: u64,
    pub(crate) end: End,
}

/// What is replayed of a history that begins so, whose first line has so many bytes.
pub(crate) fn begin(begun: &Version, taken: u64) -> Result<Replayed, AllocError>
    ensures database { IfOk result (λ r. r.database ≡ now begun.now) }
    ensures place { IfOk result (λ r. r.place ≡ 0) }
    ensures taken { IfOk result (λ r. r.taken ≡ taken) }
{
    let database = begun.database().share()?;
    Ok(Replayed {
        database,
        place: 0,
        taken,
        end: End::Whole,
    })
}

/// Whether an epoch can begin from the database.
pub(crate) fn has_room(database: &Database) -> bool
    ensures { MatchBool result (HasRoom database.now) (AreTooLarge database.now) }
{
    let updates = database.documents().update_seq();
    let purges = database.purges().purge_seq();
    updates <= LARGEST_BASE && purges <= LARGEST_BASE
}

/// Goes on by the entry of a whole line, or else says what the line is. Then all stays as it was, if it is to be kept; if not,
/// the database is of no use any more.
pub(crate) fn judge_line(
    alloc: Global,
    line: &[u8],
    replayed: &mut Replayed,
    keeps: bool,
) -> Result<Result<(), Verdict>, AllocError>
    requires room { HasRoom replayed.old.database }
    requires places { replayed.old.place ≤ last_place }
    ensures next { IfOk result (λ judged. OnOk judged (IsNextLine line.now replayed.old.database replayed.new.database replayed.old.place replayed.new.place)) }
    ensures refused { IfOk result (λ judged. IfErr judged (IsRefused line.now replayed.old.database replayed.old.place)) }
    ensures none { IfOk result (λ judged. IfErr judged (λ _. CanBeNext line.now replayed.old.database replayed.old.place → ⊥)) }
    ensures same { IfOk result (λ judged. OnErr judged (keeps ≡ true → replayed.new.database ≡ replayed.old.database)) }
    ensures place { IfOk result (λ judged. OnErr judged (replayed.new.place ≡ replayed.old.place)) }
    ensures taken { replayed.new.taken ≡ replayed.old.taken }
{
    let before = replayed.place;
    let Some(entry) = read_entry(alloc, line, before)? else {
        return Ok(Err(Verdict::UnreadableLine(before + 2)));
    };
    if !go_on(&mut replayed.database, &entry, keeps)? {
        return Ok(Err(Verdict::WrongAt(before + 1)));
    }
    replayed.place = before + 1;
    Ok(Ok(()))
}

/// Does the command of an entry, and answers whether that is the next one of a legal history: whether its seat is its
/// session's next, and its reply the database's. If not, the database stays as it was, if it is to be kept.
fn go_on(database: &mut Database, entry: &Entry, keeps: bool) -> Result<bool, AllocError>
    requires room { HasRoom database.old }
    ensures next { result ≡ Ok true → IsNext database.old entry.now
        × (database.new ≡ act database.old entry.now.seat entry.now.command) }
    ensures wrong { result ≡ Ok false → IsNext database.old entry.now → ⊥ }
    ensures same { result ≡ Ok false → keeps ≡ true → database.new ≡ database.old }
{
    let calls = database.calls_of(entry.seat.session());
    if calls.checked_add(1) != Some(entry.seat.call()) {
        return Ok(false);
    }
    if !keeps {
        let reply = database.act(entry.seat, &entry.command)?;
        return Ok(reply.is_same(&entry.reply));
    }
    let mut next = database.share()?;
    let reply = next.act(entry.seat, &entry.command)?;
    if !reply.is_same(&entry.reply) {
        return Ok(false);
    }
    *database = next;
    Ok(true)
}
