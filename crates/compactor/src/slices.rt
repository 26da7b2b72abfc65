//! The slices in which a copy is made.
ghost use Rattle.std.specs.Prelude.{◌≡◌, ◌+◌, ◌^◌, ◌<◌, ◌≤◌, ◌∷◌, ◌++◌, ℕ, None, length, map, take, drop, IfOk, option_copied};
ghost use Rattle.model.specs.Map.{empty, entries};
ghost use Rattle.model.specs.History.{now};
ghost use Rattle.snapshots.specs.Taken.{taken_all, IsCoherent, ids_of};
ghost use Rattle.compactor.specs.Copy.{last_id};

use crate::taking::taken_one;
use cow_index::{Range, Shared};
use document_id::DocId;
use snapshots::{Record, Records, Version};
use std::alloc::{AllocError, Global};

/// A part of a copy, and the last document in it.
#[derive(Drop)]
pub(crate) struct Part {
    pub(crate) records: Records,
    pub(crate) last: Option<DocId>,
}

/// The documents after that one, or all.
fn rest<'a>(version: &'a Version, last: &Option<DocId>) -> Range<'a, DocId, Shared<Record>>
    ensures rest { (k : ℕ) → k ≤ length (entries (now version.now).docs) → last.now ≡ last_id None (take k (ids_of (now version.now).docs))
        → result ≡ drop k (entries (now version.now).docs) }
    ensures fits { length result < 2 ^ 64 }
{
    let Some(last) = last else {
        return version.database().documents().iter();
    };
    let mut rest = version.database().documents().range_from(last);
    let _last = rest.next();
    rest
}

/// With the strips of the next `n` documents.
pub(crate) fn sliced(
    alloc: Global,
    visited: &mut u64,
    version: &Version,
    part: Part,
    n: u64,
) -> Result<Part, AllocError>
    requires count { visited.old + n ≤ u64.MAX }
    requires coherent { IsCoherent part.records.docs (now version.now) }
    requires upto { part.records.update_seq ≡ (now version.now).update_seq }
    ensures docs { IfOk result (λ r. (k : ℕ) → k ≤ length (entries (now version.now).docs) → part.last ≡ last_id None (take k (ids_of (now version.now).docs))
        → r.records ≡ record part.records { docs = taken_all part.records.docs (now version.now) (take n (drop k (ids_of (now version.now).docs))) }) }
    ensures last { IfOk result (λ r. (k : ℕ) → k ≤ length (entries (now version.now).docs) → part.last ≡ last_id None (take k (ids_of (now version.now).docs))
        → r.last ≡ last_id None (take (k + n) (ids_of (now version.now).docs))) }
    ensures coherent { IfOk result (λ r. IsCoherent r.records.docs (now version.now)) }
    ensures visits { visited.new ≤ visited.old + n }
    ensures visited { IfOk result (λ _. (k : ℕ) → k ≤ length (entries (now version.now).docs) → part.last ≡ last_id None (take k (ids_of (now version.now).docs))
        → visited.new ≡ visited.old + length (take n (drop k (ids_of (now version.now).docs)))) }
{
    let _recalled = version.place();
    let Part {
        mut records,
        mut last,
    } = part;
    for (id, _stored) in rest(version, &last).take(n as usize) {
        records = taken_one(alloc, visited, records, version, id)?;
        last = Some(id.share()?);
    }
    Ok(Part { records, last })
}
