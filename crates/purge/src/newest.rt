//! The newest entries of a log.
ghost use Rattle.std.specs.Prelude.{◌≡◌, ◌<◌, IfOk};
ghost use Rattle.model.specs.Lists.{last_few};
ghost use Rattle.model.specs.PurgeLog.{AreNumbered};
ghost use Rattle.purge.specs.Log.{infos_of};

use crate::purged::Purged;
use cow_index::CowMap;
use std::alloc::{AllocError, Global};

/// The purges without the oldest, so many that no more than the limit are left.
pub(crate) fn without_older(
    all: CowMap<u64, Purged>,
    purge_seq: u64,
    limit: u32,
) -> Result<CowMap<u64, Purged>, AllocError>
    requires { AreNumbered purge_seq (infos_of all.entries) }
    ensures { IfOk result (λ m. m.entries ≡ last_few limit all.entries) }
{
    let mut kept = all;
    while kept.len() > limit as u64 {
        let oldest = purge_seq - kept.len() + 1;
        kept = kept.into_without(&oldest)?;
    }
    Ok(kept)
}

/// The newest purges of a log that stays, as many as the limit lets it keep: in a map of their own
/// where fewer stay than go.
pub(crate) fn newest_beside(
    alloc: Global,
    all: &CowMap<u64, Purged>,
    purge_seq: u64,
    limit: u32,
) -> Result<CowMap<u64, Purged>, AllocError>
    requires numbered { AreNumbered purge_seq (infos_of all.now.entries) }
    requires some { 0 < limit }
    ensures { IfOk result (λ m. m.entries ≡ last_few limit all.now.entries) }
{
    if all.len() / 2 <= limit as u64 {
        return without_older(all.share()?, purge_seq, limit);
    }
    copied_newest(alloc, all, purge_seq, limit)
}

/// The newest purges, as many as the limit lets a log keep, in a map of their own.
fn copied_newest(
    alloc: Global,
    all: &CowMap<u64, Purged>,
    purge_seq: u64,
    limit: u32,
) -> Result<CowMap<u64, Purged>, AllocError>
    requires numbered { AreNumbered purge_seq (infos_of all.now.entries) }
    requires some { 0 < limit }
    ensures { IfOk result (λ m. m.entries ≡ last_few limit all.now.entries) }
{
    let first = purge_seq.saturating_sub(limit as u64) + 1;
    let mut copied = CowMap::new(alloc);
    for (seq, purged) in all.range_from(&first) {
        copied = copied.into_with(*seq, purged.copy(alloc)?)?;
    }
    Ok(copied)
}
