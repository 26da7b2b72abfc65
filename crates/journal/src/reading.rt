//! What a database begins with, of the text of an epoch's file.
ghost use Rattle.std.specs.Prelude.{◌≡◌, ◌≢◌, ◌⊎◌, ◌+◌, ◌<◌, ◌≤◌, ℕ, List, [], Option, length, true, false, Ok, Err, IfOk, IfSome, OnOk};
ghost use Rattle.std.specs.Io.KnownBytes.{Consumes, IsAtEnd};
ghost use Rattle.model.specs.Database.{Database as Stored};
ghost use Rattle.model.specs.History.{now};
ghost use Rattle.replay_cli.specs.Places.{last_place};
ghost use Rattle.replay_cli.specs.Successors.{HasRoom, IsLastEpoch};
ghost use Rattle.journal.specs.Held.{begun as begun_over};
ghost use Rattle.journal.specs.Replaying.{AreTooLarge, CanBeNext, IsDamagedAt, IsNextLine, IsReplayed, IsReplayedAll, IsStopped, IsWhole};
ghost use Rattle.journal.specs.Reading.{IsRead};
ghost use Rattle.journal.specs.Refusing.{IsEndedBy, IsExhausted};
ghost use Rattle.journal.specs.Restoring.{IsRestored};
ghost use Rattle.journal.specs.declared.restored.Unrestored.TheVariants as unrestored;

use crate::finishing::finish;
use crate::next_line::next_line;
use crate::replayed::{Replayed, begin, has_room, judge_line};
use crate::restored::{End, Raise, Restored, Unrestored};
use history_dump::read_first_line;
use replay_cli::Verdict;
use snapshots::Version;
use std::alloc::Global;
use std::io::{self, BufRead, ErrorKind};

/// Reads the text of an epoch's file, of which so many bytes are known to be synced, and answers what a database begins with.
///
/// Lines are taken from the first on. A whole line that isn't that of the next entry, and begins at or behind the byte up to
/// which it was synced, is where the text is torn: nothing is read behind it. A last line without its line feed is cut, wherever
/// it is. It takes memory for the base, the database and one line, and not for the history.
///
/// # Errors
///
/// [`Unrestored::Judged`] where the first line is none, or a whole line that begins before that byte isn't that of the next
/// entry. [`Unrestored::NumbersTooLarge`] where no epoch can begin from the database so far. Memory was refused, or a read
/// failed; a text of more than `u64::MAX` bytes is a failed read too.
pub fn restore<R: BufRead>(
    alloc: Global,
    reader: &mut R,
    synced: u64,
    raise: Raise,
) -> Result<Restored, Unrestored>
    // Of what was read, and, where all of the text is known, of all of it.
    ensures restored { IfOk result (λ r. IsRead (R.remaining reader.old) (R.remaining reader.new) (λ text. IsRestored text synced raise r)) }
    ensures restored_all { IfOk result (λ r. IfSome (R.remaining reader.old) (λ text. IsRestored text synced raise r)) }
    ensures end { IfOk result (λ r. r.end ≢ End.Torn → IfSome (R.remaining reader.old) (λ _. IsAtEnd (R.remaining reader.new))) }

    ensures judged { (verdict : Verdict) (at : ℕ) → result ≡ Err (unrestored.Judged verdict at)
        → IsRead (R.remaining reader.old) (R.remaining reader.new) (IsEndedBy synced verdict at) }
    ensures judged_all { (verdict : Verdict) (at : ℕ) → result ≡ Err (unrestored.Judged verdict at)
        → IfSome (R.remaining reader.old) (IsEndedBy synced verdict at) }
    ensures too_large { result ≡ Err unrestored.NumbersTooLarge
        → IsRead (R.remaining reader.old) (R.remaining reader.new) (IsExhausted synced raise) }
{
    let mut line = Vec::new(alloc);
    let begun = read_first(alloc, reader, &mut line)?;
    let mut replayed = begin(&begun, line.len() as u64)?;
    replay_all(alloc, reader, &mut line, synced, &mut replayed)?;
    finish(alloc, begun, replayed, raise)
}

/// Reads the first line, and answers what the history begins from.
fn read_first<R: BufRead>(
    alloc: Global,
    reader: &mut R,
    line: &mut Vec<u8>,
) -> Result<Version, Unrestored>
    ensures begun { IfOk result (λ v. IsReplayed v.base (R.remaining reader.old) (R.remaining reader.new) (now v) 0 (length line.new.items)) }
    ensures no_entries { IfOk result (λ v. v ≡ begun_over v.base) }
    ensures judged { (synced : ℕ) (verdict : Verdict) (at : ℕ) → result ≡ Err (unrestored.Judged verdict at)
        → IsRead (R.remaining reader.old) (R.remaining reader.new) (IsEndedBy synced verdict at)
        × IfSome (R.remaining reader.old) (IsEndedBy synced verdict at) }
    ensures too_large { result ≡ Err unrestored.NumbersTooLarge → ⊥ }
{
    let _whole = next_line(reader, line)?;
    let Some(begun) = read_first_line(alloc, line)? else {
        return Err(Unrestored::Judged {
            verdict: Verdict::UnreadableLine(1),
            at: 0,
        });
    };
    Ok(begun)
}

/// Replays all entries, up to the end.
fn replay_all<R: BufRead>(
    alloc: Global,
    reader: &mut R,
    line: &mut Vec<u8>,
    synced: u64,
    replayed: &mut Replayed,
) -> Result<(), Unrestored>
    requires places { replayed.old.place ≤ last_place }
    ensures replayed { (base : Option Stored) (start : Option (List ℕ))
        → IsReplayed base start (R.remaining reader.old) replayed.old.database replayed.old.place replayed.old.taken
        → OnOk result (IsReplayedAll synced base start (R.remaining reader.new) replayed.new.database replayed.new.place replayed.new.taken replayed.new.end) }
    ensures room { OnOk result (HasRoom replayed.new.database) }
    ensures judged { (base : Option Stored) (start : Option (List ℕ))
        → IsReplayed base start (R.remaining reader.old) replayed.old.database replayed.old.place replayed.old.taken
        → (verdict : Verdict) (at : ℕ) → result ≡ Err (unrestored.Judged verdict at)
        → IsRead start (R.remaining reader.new) (IsEndedBy synced verdict at) × IfSome start (IsEndedBy synced verdict at) }
    ensures too_large { (base : Option Stored) (start : Option (List ℕ))
        → IsReplayed base start (R.remaining reader.old) replayed.old.database replayed.old.place replayed.old.taken
        → result ≡ Err unrestored.NumbersTooLarge
        → IsRead start (R.remaining reader.new) (IsLastEpoch false) }
{
    'entries: while replay_next(alloc, reader, line, synced, replayed)? {}
    Ok(())
}

/// Reads the next line and replays its entry. Where there is no next entry, it says what is there, and answers `false`.
fn replay_next<R: BufRead>(
    alloc: Global,
    reader: &mut R,
    line: &mut Vec<u8>,
    synced: u64,
    replayed: &mut Replayed,
) -> Result<bool, Unrestored>
    requires places { replayed.old.place ≤ last_place }
    ensures entry { result ≡ Ok true → Consumes (R.remaining reader.old) (R.remaining reader.new) line.new.items
        × IsNextLine line.new.items replayed.old.database replayed.new.database replayed.old.place replayed.new.place }
    ensures taken { result ≡ Ok true → replayed.new.taken ≡ replayed.old.taken + length line.new.items }
    ensures end { result ≡ Ok false → IsStopped synced (R.remaining reader.old) (R.remaining reader.new)
        replayed.old.database replayed.old.place replayed.old.taken line.new.items replayed.new.end }
    ensures same { result ≡ Ok false → (replayed.new.database ≡ replayed.old.database)
        × (replayed.new.place ≡ replayed.old.place) × (replayed.new.taken ≡ replayed.old.taken) }
    ensures room { OnOk result (HasRoom replayed.old.database) }
    ensures judged { (verdict : Verdict) (at : ℕ) → result ≡ Err (unrestored.Judged verdict at)
        → Consumes (R.remaining reader.old) (R.remaining reader.new) line.new.items × IsWhole line.new.items
        × IsDamagedAt synced line.new.items replayed.old.database replayed.old.place replayed.old.taken verdict at }
    ensures too_large { result ≡ Err unrestored.NumbersTooLarge → (R.remaining reader.new ≡ R.remaining reader.old)
        × AreTooLarge replayed.old.database }
{
    if !has_room(&replayed.database) {
        return Err(Unrestored::NumbersTooLarge);
    }
    if !next_line(reader, line)? {
        replayed.end = end_of(line);
        return Ok(false);
    }
    take_line(alloc, line, synced, replayed)
}

/// What a last line is that has no line feed, and may be empty.
fn end_of(line: &[u8]) -> End
    ensures { ((line.now ≡ []) × (result ≡ End.Whole)) ⊎ ((0 < length line.now) × (result ≡ End.Cut)) }
{
    if line.is_empty() {
        return End::Whole;
    }
    End::Cut
}

/// Takes a whole line, where it is that of the next entry. Else, where it was not synced, the text is torn there.
fn take_line(
    alloc: Global,
    line: &[u8],
    synced: u64,
    replayed: &mut Replayed,
) -> Result<bool, Unrestored>
    requires room { HasRoom replayed.old.database }
    requires places { replayed.old.place ≤ last_place }
    ensures entry { result ≡ Ok true
        → IsNextLine line.now replayed.old.database replayed.new.database replayed.old.place replayed.new.place }
    ensures taken { result ≡ Ok true → replayed.new.taken ≡ replayed.old.taken + length line.now }
    ensures torn { result ≡ Ok false → (synced ≤ replayed.old.taken) × (replayed.new.end ≡ End.Torn)
        × (CanBeNext line.now replayed.old.database replayed.old.place → ⊥) }
    ensures same { result ≡ Ok false → (replayed.new.database ≡ replayed.old.database)
        × (replayed.new.place ≡ replayed.old.place) × (replayed.new.taken ≡ replayed.old.taken) }
    ensures judged { (verdict : Verdict) (at : ℕ) → result ≡ Err (unrestored.Judged verdict at)
        → IsDamagedAt synced line.now replayed.old.database replayed.old.place replayed.old.taken verdict at }
    ensures too_large { result ≡ Err unrestored.NumbersTooLarge → ⊥ }
{
    let at = replayed.taken;
    let Some(taken) = at.checked_add(line.len() as u64) else {
        return Err(Unrestored::Read(io::Error::from(ErrorKind::FileTooLarge)));
    };
    let may_tear = at >= synced;
    if let Err(verdict) = judge_line(alloc, line, replayed, may_tear)? {
        if !may_tear {
            return Err(Unrestored::Judged { verdict, at });
        }
        replayed.end = End::Torn;
        return Ok(false);
    }
    replayed.taken = taken;
    Ok(true)
}
