//! All purges of a log as a list, and a log from one.
ghost use Rattle.std.specs.Prelude.{◌≡◌, ◌↔◌, ◌^◌, ◌<◌, ◌≤◌, ℕ, All, IfOk, IsTrue, Some, length, map};
ghost use Rattle.std.specs.Map.Iter.{ShowsInOrder, deref_pair};
ghost use Rattle.model.specs.PurgeLog as model;
ghost use Rattle.model.specs.PurgeLog.{AreNumbered, IsLog, IsPurgeInfo};
ghost use Rattle.purge.specs.Log.{PurgedEntry, info_of, infos_of, log_of};

use crate::log::PurgeLog;
use crate::purged::Purged;
use cow_index::{CowMap, Range};
use std::alloc::{AllocError, Global};

impl PurgeLog {
    /// The purges that are kept, in the order of their numbers.
    pub fn iter(&self) -> Range<'_, u64, Purged>
        ensures rest { map info_of result ≡ self.now.infos }
        ensures fits { length result < 2 ^ 64 }
        ensures runs { ShowsInOrder (deref_pair {K = ℕ} {X = PurgedEntry}) }
    {
        self.infos.iter()
    }

    /// The log that keeps just these purges, the last number that was given, and the limit, where there is one: the
    /// numbers rise by one up to the last, no more purges are kept than the limit, from 1, and each has lost a leaf. Else
    /// nothing.
    pub fn from_list(
        alloc: Global,
        purges: Vec<(u64, Purged)>,
        purge_seq: u64,
        limit: u32,
    ) -> Result<Option<PurgeLog>, AllocError>
        ensures listed { (log : model.PurgeLog) → IfOk result (λ made. (made ≡ Some log)
            ↔ ((log ≡ log_of purge_seq purges.items limit) × IsLog log)) }
    {
        if !is_log(&purges, purge_seq, limit) {
            return Ok(None);
        }
        Ok(Some(PurgeLog {
            alloc,
            infos: map_of(alloc, purges, purge_seq)?,
            purge_seq,
            limit,
        }))
    }
}

/// Whether a log of that limit keeps these purges after the last number that was given.
fn is_log(purges: &[(u64, Purged)], purge_seq: u64, limit: u32) -> bool
    ensures { IsTrue result ↔ IsLog (log_of purge_seq purges.now limit) }
{
    if !has_room(purges.len() as u64, purge_seq, limit) {
        return false;
    }
    if !are_numbered(purges, purge_seq) {
        return false;
    }
    are_purges(purges)
}

/// Whether a log of that limit keeps so many purges: its newest one, if there was one, and no more than the limit.
fn has_room(len: u64, purge_seq: u64, limit: u32) -> bool
    ensures { IsTrue result ↔ ((0 < limit) × (len ≤ limit) × (0 < purge_seq → 0 < len)) }
{
    if limit == 0 {
        return false;
    }
    if len > limit as u64 {
        return false;
    }
    purge_seq == 0 || len > 0
}

/// Whether the numbers rise by one from 1 or more, and the last is the last that was given.
fn are_numbered(purges: &[(u64, Purged)], purge_seq: u64) -> bool
    ensures { IsTrue result ↔ AreNumbered purge_seq (infos_of purges.now) }
{
    let len = purges.len() as u64;
    if len > purge_seq {
        return false;
    }
    let mut last = purge_seq - len;
    for (seq, _purged) in purges {
        last += 1;
        if *seq != last {
            return false;
        }
    }
    true
}

/// Whether each is a purge that a log can keep.
fn are_purges(purges: &[(u64, Purged)]) -> bool
    ensures { IsTrue result ↔ All (λ p. IsPurgeInfo (info_of p)) purges.now }
{
    for entry in purges {
        if !entry.1.lost_leaves() {
            return false;
        }
    }
    true
}

fn map_of(
    alloc: Global,
    purges: Vec<(u64, Purged)>,
    purge_seq: u64,
) -> Result<CowMap<u64, Purged>, AllocError>
    requires { AreNumbered purge_seq (infos_of purges.items) }
    ensures { IfOk result (λ m. m.entries ≡ purges.items) }
{
    let mut map = CowMap::new(alloc);
    for (seq, purged) in purges {
        map = map.into_with(seq, purged)?;
    }
    Ok(map)
}
