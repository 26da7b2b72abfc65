//! Whether entries are a legal history.
ghost use Rattle.std.specs.Prelude.{◌≡◌, ◌↔◌, ◌<◌, ◌≤◌, List, [], ◌∷◌, ◌++◌, length, IfOk, IfErr, IfSome, IfNone, IsTrue, Ok, true, false};
ghost use Rattle.model.specs.Command as model;
ghost use Rattle.model.specs.History.{IsLegal, IsNext, base_of, now, extended};
ghost use Rattle.replay_cli.specs.Places.{last_place, IsFirstWrong};
ghost use Rattle.replay_cli.specs.Verdicts.{begun_with};

use commands::{Entry, Reply};
use snapshots::Version;
use std::alloc::AllocError;

/// The version after all entries, where they are a legal history, or else the place of the first that is wrong.
pub(crate) fn judge(begun: Version, entries: Vec<Entry>) -> Result<Result<Version, u64>, AllocError>
    requires begun { begun ≡ begun_with begun.base [] }
    requires places { length entries.items ≤ last_place }
    ensures last { IfOk result (λ judged. IfOk judged (λ last. last ≡ begun_with begun.base entries.items)) }
    ensures legal { IfOk result (λ judged. IfOk judged (λ _. IsLegal (base_of begun.base) entries.items)) }
    ensures wrong { IfOk result (λ judged. IfErr judged (IsFirstWrong (base_of begun.base) entries.items)) }
{
    let mut version = begun;
    match first_wrong(&mut version, entries)? {
        None => Ok(Ok(version)),
        Some(place) => Ok(Err(place)),
    }
}

/// The place of the first wrong entry, in an empty history. Where there is none, all of them are right.
fn first_wrong(version: &mut Version, entries: Vec<Entry>) -> Result<Option<u64>, AllocError>
    requires begun { version.old ≡ begun_with version.old.base [] }
    requires places { length entries.items ≤ last_place }
    ensures last { IfOk result (λ wrong. IfNone wrong (version.new ≡ begun_with version.old.base entries.items)) }
    ensures legal { IfOk result (λ wrong. IfNone wrong (IsLegal (base_of version.old.base) entries.items)) }
    ensures wrong { IfOk result (λ wrong. IfSome wrong (IsFirstWrong (base_of version.old.base) entries.items)) }
{
    for entry in entries {
        let place = version.place() + 1;
        if !judge_one(version, &entry)? {
            return Ok(Some(place));
        }
    }
    Ok(None)
}

/// Goes on by an entry, where that is the next one of a legal history, and answers whether it is.
fn judge_one(version: &mut Version, entry: &Entry) -> Result<bool, AllocError>
    requires { length version.old.entries < last_place }
    ensures next { result ≡ Ok true → IsNext (now version.old) entry.now
        × (version.new ≡ extended version.old (entry.now ∷ [])) }
    ensures wrong { result ≡ Ok false → IsNext (now version.old) entry.now → ⊥ }
{
    if entry.seat.call() != version.next_call(entry.seat.session()) {
        return Ok(false);
    }
    version.apply(entry.seat, &entry.command)?;
    if !is_last_reply(version, &entry.reply) {
        return Ok(false);
    }
    Ok(true)
}

/// Whether the last entry has this reply.
fn is_last_reply(version: &Version, reply: &Reply) -> bool
    ensures { (before : List model.Entry) (last : model.Entry) → version.now.entries ≡ before ++ last ∷ []
        → IsTrue result ↔ (last.reply ≡ reply.now) }
{
    match version.entry(version.place()) {
        Some(last) => last.reply.is_same(reply),
        None => false,
    }
}
