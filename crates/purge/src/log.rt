//! The log of purges.
ghost use Rattle.std.specs.Prelude.{◌≡◌, ◌^◌, ◌<◌, ℕ, Some, None, length, map, IfOk, option_map, if◌then◌else◌};
ghost use Rattle.std.specs.Map.Iter.{ShowsInOrder, deref_pair};
ghost use Rattle.model.specs.PurgeLog.{empty_log, limited, logged, is_overrun, purges_since};
ghost use Rattle.purge.specs.Log.{PurgedEntry, info_of};

mod listed;

use crate::newest::{newest_beside, without_older};
use crate::purged::Purged;
use cow_index::{CowMap, Range};
use document_id::DocId;
use revision_id::RevId;
use std::alloc::{AllocError, Global};
use std::marker::Model;

/// How many purges a new log keeps.
const FIRST_LIMIT: u32 = 1000;

/// The newest purges by their numbers, as many as the limit lets it keep.
///
/// No call changes a log: a purge gives a new one, which shares with the older one all but the
/// nodes on the way to what it changes.
pub struct PurgeLog {
    alloc: Global,
    infos: CowMap<u64, Purged>,
    purge_seq: u64,
    limit: u32,
}

impl Drop for PurgeLog {
    fn drop(self) {
        let PurgeLog {
            alloc: _,
            infos: _,
            purge_seq: _,
            limit: _,
        } = self;
    }
}

impl Model for PurgeLog {
    ghost use Rattle.model.specs.PurgeLog.{PurgeLog};
    ghost use Rattle.purge.specs.Log.{log_of, IsKept};

    ghost Value = { PurgeLog };

    ghost view = { λ l. log_of l.purge_seq l.infos.entries l.limit };

    ghost invariant = { λ l. IsKept l.purge_seq l.infos.entries l.limit };
}

impl PurgeLog {
    /// The log of no purge, which keeps the newest 1000.
    pub fn new(alloc: Global) -> PurgeLog
        ensures { result ≡ empty_log }
    {
        PurgeLog {
            alloc,
            infos: CowMap::new(alloc),
            purge_seq: 0,
            limit: FIRST_LIMIT,
        }
    }

    /// The same log. It takes no memory.
    pub fn share(&self) -> Result<PurgeLog, AllocError>
        ensures same { IfOk result (λ l. l ≡ self.now) }
    {
        Ok(PurgeLog {
            alloc: self.alloc,
            infos: self.infos.share()?,
            purge_seq: self.purge_seq,
            limit: self.limit,
        })
    }

    /// The last purge number that was given, from 0.
    pub fn purge_seq(&self) -> u64
        ensures { result ≡ self.now.purge_seq }
    {
        self.purge_seq
    }

    /// How many purges the log keeps, from 1.
    pub fn limit(&self) -> u32
        ensures { result ≡ self.now.limit }
    {
        self.limit
    }

    /// The log with one more purge, at the next number. Past the limit the oldest goes.
    pub fn add(&self, id: &DocId, leaves: Vec<RevId>) -> Result<PurgeLog, AllocError>
        requires room { self.now.purge_seq < u64.MAX }
        ensures logged { IfOk result (λ l. l ≡ logged self.now id.now leaves.items) }
    {
        let purge_seq = self.purge_seq + 1;
        let all = self
            .infos
            .insert(purge_seq, Purged::new(id.share()?, leaves))?;
        let infos = without_older(all, purge_seq, self.limit)?;
        Ok(PurgeLog {
            alloc: self.alloc,
            infos,
            purge_seq,
            limit: self.limit,
        })
    }

    /// The log under another limit: it keeps the newest of its purges at once, as many as the limit
    /// lets it keep, and gets none back.
    ///
    /// Takes time and memory for as many purges as go, or as stay, whichever are fewer.
    pub fn set_limit(&self, limit: u32) -> Result<PurgeLog, AllocError>
        requires some { 0 < limit }
        ensures limited { IfOk result (λ l. l ≡ limited self.now limit) }
    {
        let infos = newest_beside(self.alloc, &self.infos, self.purge_seq, limit)?;
        Ok(PurgeLog {
            alloc: self.alloc,
            infos,
            purge_seq: self.purge_seq,
            limit,
        })
    }

    /// Whether a purge above the mark was given a number and is no longer kept.
    pub fn is_overrun(&self, mark: u64) -> bool
        ensures { result ≡ is_overrun self.now mark }
    {
        mark < self.purge_seq - self.infos.len()
    }

    /// The purges above the mark that are kept, in the order of their numbers.
    pub fn above(&self, mark: u64) -> Range<'_, u64, Purged>
        requires { self.now.purge_seq < u64.MAX }
        ensures rest { map info_of result ≡ purges_since self.now mark }
        ensures fits { length result < 2 ^ 64 }
        ensures runs { ShowsInOrder (deref_pair {K = ℕ} {X = PurgedEntry}) }
    {
        self.infos.range_from(&(mark.min(self.purge_seq) + 1))
    }

    /// How many of the purges that are kept are above the mark, counted on one way down.
    pub fn count_above(&self, mark: u64) -> u64
        requires { self.now.purge_seq < u64.MAX }
        ensures { result ≡ length (purges_since self.now mark) }
    {
        self.infos.count_from(&(mark.min(self.purge_seq) + 1))
    }

    /// The documents purged above the mark, in the order of their numbers; nothing where such a
    /// purge is no longer kept.
    pub fn since(&self, mark: u64) -> Result<Option<Vec<DocId>>, AllocError>
        requires { self.now.purge_seq < u64.MAX }
        ensures { IfOk result (λ ids. option_map (λ v. v.items) ids ≡ (if is_overrun self.now mark then None else Some (map (λ p. p.id) (purges_since self.now mark)))) }
    {
        if self.is_overrun(mark) {
            return Ok(None);
        }
        let mut ids = Vec::new(self.alloc);
        for (_seq, purged) in self.above(mark) {
            ids.push(purged.id().share()?)?;
        }
        Ok(Some(ids))
    }
}
