//! What a copy takes over from a version.
ghost use Rattle.std.specs.Prelude.{◌≡◌, ◌+◌, ◌-◌, ◌<◌, ◌≤◌, length, map, take, IfOk, option_copied};
ghost use Rattle.model.specs.Map.{get, put};
ghost use Rattle.model.specs.PurgeLog.{purges_since};
ghost use Rattle.model.specs.Database.{stripped};
ghost use Rattle.model.specs.History.{now};
ghost use Rattle.model.specs.Changes.{every_id, changed_since};
ghost use Rattle.model.specs.Compaction.{of_purge, of_update, passed, touched, touched_id};
ghost use Rattle.snapshots.specs.Listing.{IsFree};
ghost use Rattle.snapshots.specs.Taken.{taken_one as taken_in, taken_all, IsCoherent};

use document_id::DocId;
use snapshots::{Record, Records, Version};
use std::alloc::{AllocError, Global};

/// A copy, and up to which numbers of updates and purges it has taken all over.
#[derive(Drop)]
pub(crate) struct Taken {
    pub(crate) records: Records,
    pub(crate) update_mark: u64,
    pub(crate) purge_mark: u64,
}

/// The one look-up of a version's record, which counts.
fn look_up<'a>(visited: &mut u64, version: &'a Version, id: &DocId) -> Option<&'a Record>
    requires { visited.old < u64.MAX }
    ensures stored { option_copied result ≡ get (now version.now).docs id.now }
    ensures counted { visited.new ≡ visited.old + 1 }
{
    *visited += 1;
    version.database().documents().get(id)
}

/// With the strip of the document as the version has it, or without the document.
pub(crate) fn taken_one(
    alloc: Global,
    visited: &mut u64,
    records: Records,
    version: &Version,
    id: &DocId,
) -> Result<Records, AllocError>
    requires count { visited.old < u64.MAX }
    requires coherent { IsCoherent records.docs (now version.now) }
    requires upto { records.update_seq ≡ (now version.now).update_seq }
    ensures taken { IfOk result (λ r. r ≡ record records { docs = taken_in records.docs (now version.now) id.now }) }
    ensures counted { visited.new ≡ visited.old + 1 }
{
    let _recalled = version.place();
    let Some(stored) = look_up(visited, version, id) else {
        let fewer = records.remove(id)?;
        return Ok(fewer);
    };
    let more = with_strip(alloc, records, id, stored)?;
    Ok(more)
}

/// With the strip of this record of the document, in place of what was there.
fn with_strip(
    alloc: Global,
    records: Records,
    id: &DocId,
    stored: &Record,
) -> Result<Records, AllocError>
    requires number { (0 < stored.now.seq) × (stored.now.seq ≤ records.update_seq) }
    requires free { IsFree records.docs id.now stored.now.seq }
    ensures { IfOk result (λ r. r ≡ record records { docs = put records.docs id.now (stripped stored.now) }) }
{
    let stripped = stored.stripped(alloc)?;
    let placed = records.put(alloc, id, stripped)?;
    Ok(placed)
}

/// With the first `n` documents that were purged above the mark, and the last of their numbers.
fn taken_purged(
    alloc: Global,
    visited: &mut u64,
    version: &Version,
    taken: Taken,
    n: u64,
) -> Result<Taken, AllocError>
    requires count { visited.old + n ≤ u64.MAX }
    requires coherent { IsCoherent taken.records.docs (now version.now) }
    requires upto { taken.records.update_seq ≡ (now version.now).update_seq }
    ensures taken { IfOk result (λ r. r.records ≡ record taken.records {
      docs = taken_all taken.records.docs (now version.now)
          (map touched_id (map of_purge (take n (purges_since (now version.now).purges taken.purge_mark))));
    }) }
    ensures marks { IfOk result (λ r. record { update = r.update_mark; purge = r.purge_mark }
        ≡ passed (record { update = taken.update_mark; purge = taken.purge_mark }) (map of_purge (take n (purges_since (now version.now).purges taken.purge_mark)))) }
    ensures coherent { IfOk result (λ r. IsCoherent r.records.docs (now version.now)) }
    ensures visits { visited.new ≤ visited.old + length (take n (purges_since (now version.now).purges taken.purge_mark)) }
    ensures visited { IfOk result (λ _. visited.new ≡ visited.old + length (take n (purges_since (now version.now).purges taken.purge_mark))) }
{
    let _recalled = version.place();
    let mut records = taken.records;
    let mut purge_mark = taken.purge_mark;
    let log = version.database().purges();
    for (number, purged) in log.above(taken.purge_mark).take(n as usize) {
        records = taken_one(alloc, visited, records, version, purged.id())?;
        purge_mark = *number;
    }
    Ok(Taken {
        records,
        update_mark: taken.update_mark,
        purge_mark,
    })
}

/// With the first `n` documents that were updated above the mark, and the last of their numbers.
fn taken_updated(
    alloc: Global,
    visited: &mut u64,
    version: &Version,
    taken: Taken,
    n: u64,
) -> Result<Taken, AllocError>
    requires count { visited.old + n ≤ u64.MAX }
    requires coherent { IsCoherent taken.records.docs (now version.now) }
    requires upto { taken.records.update_seq ≡ (now version.now).update_seq }
    ensures taken { IfOk result (λ r. r.records ≡ record taken.records {
      docs = taken_all taken.records.docs (now version.now)
          (map touched_id (map of_update (take n (changed_since every_id (now version.now) taken.update_mark))));
    }) }
    ensures marks { IfOk result (λ r. record { update = r.update_mark; purge = r.purge_mark }
        ≡ passed (record { update = taken.update_mark; purge = taken.purge_mark }) (map of_update (take n (changed_since every_id (now version.now) taken.update_mark)))) }
    ensures coherent { IfOk result (λ r. IsCoherent r.records.docs (now version.now)) }
    ensures visits { visited.new ≤ visited.old + n }
    ensures visited { IfOk result (λ _. visited.new ≡ visited.old + length (take n (changed_since every_id (now version.now) taken.update_mark))) }
{
    let _recalled = version.place();
    let mut records = taken.records;
    let mut update_mark = taken.update_mark;
    let database = version.database();
    for (number, changed) in database.changed_since(taken.update_mark).take(n as usize) {
        records = taken_one(alloc, visited, records, version, &changed.0)?;
        update_mark = *number;
    }
    Ok(Taken {
        records,
        update_mark,
        purge_mark: taken.purge_mark,
    })
}

/// With the first `n` documents that were touched above the marks, and the marks past them.
pub(crate) fn taken_touched(
    alloc: Global,
    visited: &mut u64,
    version: &Version,
    taken: Taken,
    n: u64,
) -> Result<Taken, AllocError>
    requires count { visited.old + n ≤ u64.MAX }
    requires coherent { IsCoherent taken.records.docs (now version.now) }
    requires upto { taken.records.update_seq ≡ (now version.now).update_seq }
    ensures taken { IfOk result (λ r. r.records ≡ record taken.records {
      docs = taken_all taken.records.docs (now version.now)
          (map touched_id (take n (touched (now version.now) (record { update = taken.update_mark; purge = taken.purge_mark }))));
    }) }
    ensures marks { IfOk result (λ r. record { update = r.update_mark; purge = r.purge_mark }
        ≡ passed (record { update = taken.update_mark; purge = taken.purge_mark }) (take n (touched (now version.now) (record { update = taken.update_mark; purge = taken.purge_mark })))) }
    ensures coherent { IfOk result (λ r. IsCoherent r.records.docs (now version.now)) }
    ensures visits { visited.new ≤ visited.old + n }
    ensures visited { IfOk result (λ _. visited.new ≡ visited.old + length (take n (touched (now version.now) (record { update = taken.update_mark; purge = taken.purge_mark })))) }
{
    let purges = version.database().purges().count_above(taken.purge_mark);
    let taken = taken_purged(alloc, visited, version, taken, n)?;
    let taken = taken_updated(alloc, visited, version, taken, n.saturating_sub(purges))?;
    Ok(taken)
}
