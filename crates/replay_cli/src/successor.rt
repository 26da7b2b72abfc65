//! What follows the dump of a legal history.
ghost use Rattle.std.specs.Prelude.{◌≡◌, ℕ, List, [], true, false, Some, Err, IfOk, IfSome, IfNone};
ghost use Rattle.model.specs.History.{now};
ghost use Rattle.history_dump.specs.Dump as text;
ghost use Rattle.replay_cli.specs.Verdicts.{IsVerdict, begun_with};
ghost use Rattle.replay_cli.specs.Successors.{AreTooLarge, HasRoom, IsFollowedBy, IsLastEpoch, IsRefused, IsSuccessorLine, base_after};

use crate::audit::last_of;
use crate::verdict::Verdict;
use history_dump::first_line;
use snapshots::{Database, Version};
use std::alloc::{AllocError, Global};

/// How far the next epoch raises the update number after an end that may have lost numbers that were shown.
pub const RAISE: u64 = 16_777_216;

/// The largest update number, and the largest purge number, that an epoch can begin from.
const LARGEST_BASE: u64 = 4_611_686_018_427_387_904;

/// Why nothing follows a text.
#[derive(Clone, Copy, Debug, PartialEq, Eq)]
pub enum NoSuccessor {
    /// It is the dump of a legal history, and the epoch that follows would begin with an update number or a purge number
    /// above 4611686018427387904.
    NumbersTooLarge,
    /// It is not the dump of a legal history.
    Judged(Verdict),
}

/// The first line, with its line feed, of the dump of the epoch that follows the one of this dump.
pub fn successor_line(
    alloc: Global,
    dump: &[u8],
) -> Result<Result<Vec<u8>, NoSuccessor>, AllocError>
    ensures found { IfOk result (IsFollowedBy false dump.now) }
    ensures too_large { IfOk result (λ found. IsLastEpoch false dump.now → found ≡ Err NoSuccessor.NumbersTooLarge) }
    ensures judged { IfOk result (λ found. (verdict : Verdict) → IsVerdict dump.now verdict → IsRefused verdict
        → found ≡ Err (NoSuccessor.Judged verdict)) }
    ensures line { IfOk result (λ found. (line : List ℕ) → IsSuccessorLine false dump.now line
        → IfOk found (λ text. text.items ≡ line)) }
{
    line_after(alloc, dump, false)
}

/// The same of an epoch that raises the update number by [`RAISE`], since numbers may have been shown and lost.
pub fn raised_line(alloc: Global, dump: &[u8]) -> Result<Result<Vec<u8>, NoSuccessor>, AllocError>
    ensures found { IfOk result (IsFollowedBy true dump.now) }
    ensures too_large { IfOk result (λ found. IsLastEpoch true dump.now → found ≡ Err NoSuccessor.NumbersTooLarge) }
    ensures judged { IfOk result (λ found. (verdict : Verdict) → IsVerdict dump.now verdict → IsRefused verdict
        → found ≡ Err (NoSuccessor.Judged verdict)) }
    ensures line { IfOk result (λ found. (line : List ℕ) → IsSuccessorLine true dump.now line
        → IfOk found (λ text. text.items ≡ line)) }
{
    line_after(alloc, dump, true)
}

/// The first line of the epoch that follows, with its update number raised or not.
pub(crate) fn line_after(
    alloc: Global,
    dump: &[u8],
    is_raised: bool,
) -> Result<Result<Vec<u8>, NoSuccessor>, AllocError>
    ensures found { IfOk result (IsFollowedBy is_raised dump.now) }
    ensures too_large { IfOk result (λ found. IsLastEpoch is_raised dump.now → found ≡ Err NoSuccessor.NumbersTooLarge) }
    ensures judged { IfOk result (λ found. (verdict : Verdict) → IsVerdict dump.now verdict → IsRefused verdict
        → found ≡ Err (NoSuccessor.Judged verdict)) }
    ensures line { IfOk result (λ found. (line : List ℕ) → IsSuccessorLine is_raised dump.now line
        → IfOk found (λ text. text.items ≡ line)) }
{
    let last = match last_of(alloc, dump)? {
        Ok(last) => last,
        Err(verdict) => return Ok(Err(NoSuccessor::Judged(verdict))),
    };
    let Some(next) = version_after(alloc, &last, is_raised)? else {
        return Ok(Err(NoSuccessor::NumbersTooLarge));
    };
    let line = line_of(alloc, &next)?;
    Ok(Ok(line))
}

/// The first line of the dump of a version's history.
fn line_of(alloc: Global, version: &Version) -> Result<Vec<u8>, AllocError>
    ensures { IfOk result (λ line. line.items ≡ text.first_line version.now.base) }
{
    let line = first_line(alloc, version)?;
    Ok(line.into_bytes())
}

/// The version with which the epoch begins that follows this one; nothing where a number is too large.
fn version_after(
    alloc: Global,
    last: &Version,
    is_raised: bool,
) -> Result<Option<Version>, AllocError>
    ensures begun { IfOk result (λ next. IfSome next (λ v. v ≡ begun_with (Some (base_after is_raised (now last.now))) [])) }
    ensures room { IfOk result (λ next. IfSome next (λ _. HasRoom (base_after is_raised (now last.now)))) }
    ensures none { IfOk result (λ next. IfNone next (AreTooLarge (base_after is_raised (now last.now)))) }
{
    let _recalled = last.place();
    let Some(base) = base_after(last.database(), is_raised)? else {
        return Ok(None);
    };
    let version = Version::over(alloc, base)?;
    Ok(Some(version))
}

/// The base of the epoch that follows one which ends with this database, with its update number raised or not; nothing
/// where a number is too large for it. It takes no memory.
pub fn base_after(last: &Database, is_raised: bool) -> Result<Option<Database>, AllocError>
    ensures base { IfOk result (λ base. IfSome base (λ d. d ≡ base_after is_raised last.now)) }
    ensures room { IfOk result (λ base. IfSome base (λ _. HasRoom (base_after is_raised last.now))) }
    ensures none { IfOk result (λ base. IfNone base (AreTooLarge (base_after is_raised last.now))) }
{
    if !is_raised {
        return plain_base(last);
    }
    raised_base(last)
}

/// The base with the update number as it is.
fn plain_base(last: &Database) -> Result<Option<Database>, AllocError>
    ensures base { IfOk result (λ base. IfSome base (λ d. d ≡ base_after false last.now)) }
    ensures room { IfOk result (λ base. IfSome base (λ _. HasRoom (base_after false last.now))) }
    ensures none { IfOk result (λ base. IfNone base (AreTooLarge (base_after false last.now))) }
{
    let updates = last.documents().update_seq();
    let purges = last.purges().purge_seq();
    if updates > LARGEST_BASE || purges > LARGEST_BASE {
        return Ok(None);
    }
    let base = last.uncalled()?;
    Ok(Some(base))
}

/// The base with the update number raised.
fn raised_base(last: &Database) -> Result<Option<Database>, AllocError>
    ensures base { IfOk result (λ base. IfSome base (λ d. d ≡ base_after true last.now)) }
    ensures room { IfOk result (λ base. IfSome base (λ _. HasRoom (base_after true last.now))) }
    ensures none { IfOk result (λ base. IfNone base (AreTooLarge (base_after true last.now))) }
{
    let updates = last.documents().update_seq();
    let purges = last.purges().purge_seq();
    if updates > LARGEST_BASE - RAISE || purges > LARGEST_BASE {
        return Ok(None);
    }
    let base = last.uncalled_above(updates + RAISE)?;
    Ok(Some(base))
}
