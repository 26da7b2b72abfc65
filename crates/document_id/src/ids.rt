//! Sets of ids.
ghost use Rattle.std.specs.Prelude.{◌≡◌, ◌^◌, ◌<◌, All, IfOk, filter, length, map};
ghost use Rattle.std.specs.BTreeSet.{IsFromIterResult};
ghost use Rattle.std.specs.Cmp.Lexicographic.{slice_cmp};
ghost use Rattle.std.specs.Map.Iter.{ShowsInOrder, deref};
ghost use Rattle.std.specs.Ordering.{nat_cmp};
ghost use Rattle.model.specs.Changes.{ids_named, wanted_by};
ghost use Rattle.model.specs.Command.{Id, IsId, has_id_length, names};
ghost use Rattle.model.specs.Map.{IsRising};

use crate::fault::IdFault;
use crate::id::DocId;
use std::alloc::{AllocError, Global};
use std::collections::BTreeSet;
use std::collections::btree_set::Iter;
use std::marker::Model;
use std::sync::Arc;

/// Some documents by their ids, each once, in the byte order. Its owners share it.
pub struct DocIds {
    ids: Arc<BTreeSet<DocId>>,
}

impl Drop for DocIds {
    fn drop(self) {
        let DocIds { ids: _ } = self;
    }
}

impl Model for DocIds {
    ghost use Rattle.std.specs.Prelude.{List};
    ghost use Rattle.std.specs.Arc.{arc_value};
    ghost use Rattle.model.specs.Command.{Id};
    ghost use Rattle.document_id.specs.Ids.{AreIds};

    ghost Value = { List Id };

    ghost view = { λ d. (arc_value d.ids).keys };

    ghost invariant = { λ d. AreIds (arc_value d.ids).keys };
}

impl DocIds {
    /// The documents that the texts name, in whatever order and however often. A text that is no id names none.
    ///
    /// CouchDB: `POST /{db}/_changes`, "doc_ids".
    pub fn named(alloc: Global, texts: &[&str]) -> Result<DocIds, AllocError>
        ensures ids { IfOk result (λ ids. ids ≡ ids_named (map (λ text. text.now) texts.now)) }
    {
        let ids = ids_in(alloc, texts)?;
        recall_all(&ids);
        let ids = set_of(alloc, ids)?;
        Ok(DocIds {
            ids: Arc::new(alloc, ids)?,
        })
    }

    /// Whether the document is one of them, found in logarithmic time.
    pub fn contains(&self, id: &DocId) -> bool
        ensures { result ≡ wanted_by (Some self.now) id.now }
    {
        self.ids.contains(id)
    }

    /// How many documents they are.
    pub fn len(&self) -> u64
        ensures { result ≡ length self.now }
    {
        self.ids.len() as u64
    }

    /// The ids in their order.
    pub fn iter(&self) -> Iter<'_, DocId>
        ensures rest { result ≡ self.now }
        ensures fits { length result < 2 ^ 63 }
        ensures runs { ShowsInOrder (deref {X = Id}) }
        ensures rising { IsRising names self.now }
        ensures ids { All IsId self.now }
    {
        self.ids.iter()
    }

    /// The same documents. It takes no memory, but is refused at the largest count of owners.
    pub fn share(&self) -> Result<DocIds, AllocError>
        ensures same { IfOk result (λ ids. ids ≡ self.now) }
    {
        Ok(DocIds {
            ids: Arc::try_clone(&self.ids)?,
        })
    }
}

/// The ids among some texts, in the order of these.
fn ids_in(alloc: Global, texts: &[&str]) -> Result<Vec<DocId>, AllocError>
    ensures { IfOk result (λ ids. ids.items ≡ filter has_id_length (map (λ text. text.now) texts.now)) }
{
    let mut ids = Vec::new(alloc);
    for text in texts {
        match DocId::new(alloc, text) {
            Ok(id) => ids.push(id)?,
            Err(IdFault::Length) => {}
            Err(IdFault::Memory) => return Err(AllocError),
        }
    }
    Ok(ids)
}

/// Recalls the ranges that all ids keep: for the contract alone, since a list says nothing of what the types of its items
/// keep.
fn recall_all(ids: &[DocId])
    ensures { All IsId ids.now }
{
    for id in ids {
        let _recalled = id.as_str();
    }
}

fn set_of(alloc: Global, ids: Vec<DocId>) -> Result<BTreeSet<DocId>, AllocError>
    ensures { IfOk result (λ set. IsFromIterResult (slice_cmp nat_cmp) ids.items set) }
{
    ids.into_iter().collect(alloc)
}
