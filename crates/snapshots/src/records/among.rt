//! What changed of some documents.
ghost use Rattle.std.specs.Prelude.{◌≡◌, ◌<◌, Some, IfOk, length, map, option_copied};
ghost use Rattle.std.specs.Ordering.{nat_cmp};
ghost use Rattle.std.specs.FinMap.Entries.{put as put_entry};
ghost use Rattle.model.specs.Map.{get};
ghost use Rattle.model.specs.Changes.{changed_since as changed_above, wanted_by};
ghost use Rattle.snapshots.specs.Among.{is_above, with_change};
ghost use Rattle.snapshots.specs.Listing.{database_of};

use crate::record::Record;
use crate::records::{Numbers, Records};
use cow_index::{CowMap, LookUp, Shared, descend_each};
use document_id::{DocId, DocIds};
use std::alloc::{AllocError, Global};

impl Records {
    /// Those of the documents that have a number above `since`, by their numbers. It looks at each of the documents, or at
    /// each that changed, whichever are fewer.
    pub(crate) fn changed_among(
        &self,
        alloc: Global,
        since: u64,
        ids: &DocIds,
    ) -> Result<Numbers, AllocError>
        requires { self.now.update_seq < u64.MAX }
        ensures { IfOk result (λ m. m.entries ≡ changed_above (wanted_by (Some ids.now)) (database_of self.now) since) }
    {
        if ids.len() < self.count_changed_since(since) {
            return self.looked_up(alloc, since, ids);
        }
        self.walked(alloc, since, ids)
    }

    /// The same, by a look at each of the documents. The look-ups go down side by side.
    fn looked_up(&self, alloc: Global, since: u64, ids: &DocIds) -> Result<Numbers, AllocError>
        ensures { IfOk result (λ m. m.entries ≡ changed_above (wanted_by (Some ids.now)) (database_of self.now) since) }
    {
        let mut look_ups = self.look_ups(alloc, ids)?;
        descend_each(&mut look_ups, self.by_id.height());
        let mut changed = CowMap::new(alloc);
        for look_up in &look_ups {
            changed = with_change(changed, since, look_up.key(), look_up.value())?;
        }
        Ok(changed)
    }

    /// A look-up of each of the documents, at the root.
    fn look_ups<'a>(
        &'a self,
        alloc: Global,
        ids: &'a DocIds,
    ) -> Result<Vec<LookUp<'a, DocId, Shared<Record>>>, AllocError>
        ensures { IfOk result (λ look_ups. look_ups.items ≡ map (λ id. (id, get (database_of self.now).docs id)) ids.now) }
    {
        let mut look_ups = Vec::with_capacity(alloc, ids.len() as usize)?;
        for id in ids.iter() {
            look_ups.push(self.by_id.look_up(id))?;
        }
        Ok(look_ups)
    }

    /// The same, by a look at each document that changed.
    fn walked(&self, alloc: Global, since: u64, ids: &DocIds) -> Result<Numbers, AllocError>
        requires { self.now.update_seq < u64.MAX }
        ensures { IfOk result (λ m. m.entries ≡ changed_above (wanted_by (Some ids.now)) (database_of self.now) since) }
    {
        let mut changed = CowMap::new(alloc);
        for (seq, document) in self.changed_since(since) {
            if ids.contains(&document.0) {
                changed = with_document(changed, *seq, &document.0, &document.1)?;
            }
        }
        Ok(changed)
    }

    /// How many of the documents have a number above `since`, counted in the same time with no memory.
    pub(crate) fn count_changed_among(&self, since: u64, ids: &DocIds) -> u64
        requires { self.now.update_seq < u64.MAX }
        ensures { result ≡ length (changed_above (wanted_by (Some ids.now)) (database_of self.now) since) }
    {
        if ids.len() < self.count_changed_since(since) {
            return self.count_looked_up(since, ids);
        }
        self.count_walked(since, ids)
    }

    fn count_looked_up(&self, since: u64, ids: &DocIds) -> u64
        ensures { result ≡ length (changed_above (wanted_by (Some ids.now)) (database_of self.now) since) }
    {
        let mut count = 0;
        for id in ids.iter() {
            count += u64::from(is_above(since, self.by_id.get(id)));
        }
        count
    }

    fn count_walked(&self, since: u64, ids: &DocIds) -> u64
        requires { self.now.update_seq < u64.MAX }
        ensures { result ≡ length (changed_above (wanted_by (Some ids.now)) (database_of self.now) since) }
    {
        let mut count = 0;
        for (_seq, document) in self.changed_since(since) {
            count += u64::from(ids.contains(&document.0));
        }
        count
    }
}

/// Whether there is a record with a number above `since`.
fn is_above(since: u64, stored: Option<&Shared<Record>>) -> bool
    ensures { result ≡ is_above since (option_copied stored.entry) }
{
    match stored {
        Some(stored) => since < stored.get().seq(),
        None => false,
    }
}

/// With the document's record, where it has one with a number above `since`.
fn with_change(
    changed: Numbers,
    since: u64,
    id: &DocId,
    stored: Option<&Shared<Record>>,
) -> Result<Numbers, AllocError>
    ensures { IfOk result (λ m. m.entries ≡ with_change since id.now (option_copied stored.entry) changed.entries) }
{
    let Some(stored) = stored else {
        return Ok(changed);
    };
    let seq = stored.get().seq();
    if since < seq {
        return with_document(changed, seq, id, stored);
    }
    Ok(changed)
}

/// With the document's record at its number.
fn with_document(
    changed: Numbers,
    seq: u64,
    id: &DocId,
    stored: &Shared<Record>,
) -> Result<Numbers, AllocError>
    ensures { IfOk result (λ m. m.entries ≡ put_entry nat_cmp seq (id.now, stored.now) changed.entries) }
{
    changed.into_with(seq, (id.share()?, stored.share()?))
}
