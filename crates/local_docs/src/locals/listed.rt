//! All local documents as a list, and from one.
ghost use Rattle.std.specs.Prelude.{◌≡◌, ◌↔◌, ◌^◌, ◌<◌, T, All, IfOk, IsTrue, Some, length};
ghost use Rattle.std.specs.FinMap.Entries.{is_sorted};
ghost use Rattle.std.specs.Map.Iter.{ShowsInOrder, deref_pair};
ghost use Rattle.model.specs.Command.{Id, names};
ghost use Rattle.model.specs.Database.{IsLocal};
ghost use Rattle.model.specs.Local.{Local};
ghost use Rattle.model.specs.Map.{Map, entries};
ghost use Rattle.local_docs.specs.Listed.{IsListOf};

use crate::local::LocalDoc;
use crate::locals::Locals;
use cow_index::{CowMap, Range};
use document_id::{DocId, ids_rise};
use std::alloc::{AllocError, Global};

impl Locals {
    /// The documents, in the order of their ids.
    pub fn iter(&self) -> Range<'_, DocId, LocalDoc>
        ensures rest { result ≡ entries self.now }
        ensures fits { length result < 2 ^ 64 }
        ensures runs { ShowsInOrder (deref_pair {K = Id} {X = Local}) }
    {
        self.documents.iter()
    }

    /// The documents of a list, in which each id is below the next one's and each revision number is
    /// from 1; of another list nothing.
    pub fn from_list(
        alloc: Global,
        documents: Vec<(DocId, LocalDoc)>,
    ) -> Result<Option<Locals>, AllocError>
        ensures listed { (locals : Map names Local)
            → IfOk result (λ made. (made ≡ Some locals) ↔ IsListOf documents.items locals) }
    {
        if !ids_rise(&documents) {
            return Ok(None);
        }
        if !are_local(&documents) {
            return Ok(None);
        }
        Ok(Some(Locals {
            documents: map_of(alloc, documents)?,
        }))
    }
}

/// Whether each is a document that can be kept.
fn are_local(documents: &[(DocId, LocalDoc)]) -> bool
    ensures { IsTrue result ↔ All (λ d. IsLocal d.0 d.1) documents.now }
{
    for (id, document) in documents {
        if !is_local(id, document) {
            return false;
        }
    }
    true
}

/// Whether its revision number is from 1. The id and the body are read for the contract alone, since a list says nothing
/// of what the types of its items keep.
fn is_local(id: &DocId, document: &LocalDoc) -> bool
    ensures { IsTrue result ↔ IsLocal id.now document.now }
{
    let _recalled = id.as_str();
    let _recalled = document.body.text();
    document.counter > 0
}

fn map_of(
    alloc: Global,
    documents: Vec<(DocId, LocalDoc)>,
) -> Result<CowMap<DocId, LocalDoc>, AllocError>
    requires { T (is_sorted names.cmp documents.items) }
    ensures { IfOk result (λ m. m.entries ≡ documents.items) }
{
    let mut map = CowMap::new(alloc);
    for (id, document) in documents {
        map = map.into_with(id, document)?;
    }
    Ok(map)
}
