//! Whether a text is the dump of a legal history.
ghost use Rattle.std.specs.Prelude.{◌≡◌, ◌↔◌, ℕ, IfOk, IfErr};
ghost use Rattle.model.specs.History.{Chronicle};
ghost use Rattle.replay_cli.specs.Verdicts.{IsDump, IsLegalDump, IsUnreadable, IsVerdict, IsWrongDump};
ghost use Rattle.replay_cli.specs.Successors.{IsDumpOfLegal, IsRefused};

use crate::judge::judge;
use crate::read::read_dump;
use crate::verdict::Verdict;
use snapshots::Version;
use std::alloc::{AllocError, Global};

/// What a text is. All lines are read before any entry is judged.
///
/// Beside the text it takes memory for the entries, each of which goes once the database has its
/// command.
pub fn check(alloc: Global, dump: &[u8]) -> Result<Verdict, AllocError>
    ensures legal { IfOk result (λ verdict. (places : ℕ)
        → (verdict ≡ Verdict.Legal places) ↔ IsLegalDump dump.now places) }
    ensures wrong { IfOk result (λ verdict. (place : ℕ)
        → (verdict ≡ Verdict.WrongAt place) ↔ IsWrongDump dump.now place) }
    ensures unreadable { IfOk result (λ verdict. (number : ℕ)
        → (verdict ≡ Verdict.UnreadableLine number) ↔ IsUnreadable dump.now number) }
{
    verdict_on(alloc, dump)
}

/// The one verdict on a text.
fn verdict_on(alloc: Global, dump: &[u8]) -> Result<Verdict, AllocError>
    ensures verdict { IfOk result (IsVerdict dump.now) }
    ensures only { IfOk result (λ verdict. (other : Verdict) → IsVerdict dump.now other
        → other ≡ verdict) }
{
    match last_of(alloc, dump)? {
        Ok(last) => Ok(Verdict::Legal(last.place())),
        Err(verdict) => Ok(verdict),
    }
}

/// The last version of the legal history that a text is the dump of, or else the one verdict on it.
pub(crate) fn last_of(alloc: Global, dump: &[u8]) -> Result<Result<Version, Verdict>, AllocError>
    ensures last { IfOk result (λ found. IfOk found (IsDumpOfLegal dump.now)) }
    ensures only_last { IfOk result (λ found. IfOk found (λ last. (other : Chronicle) → IsDump dump.now other
        → other ≡ last)) }
    ensures verdict { IfOk result (λ found. IfErr found (IsVerdict dump.now)) }
    ensures refused { IfOk result (λ found. IfErr found IsRefused) }
    ensures only { IfOk result (λ found. IfErr found (λ verdict. (other : Verdict) → IsVerdict dump.now other
        → other ≡ verdict)) }
{
    let read = match read_dump(alloc, dump)? {
        Ok(read) => read,
        Err(number) => return Ok(Err(Verdict::UnreadableLine(number))),
    };
    let (begun, entries) = read;
    match judge(begun, entries)? {
        Ok(last) => Ok(Ok(last)),
        Err(place) => Ok(Err(Verdict::WrongAt(place))),
    }
}
