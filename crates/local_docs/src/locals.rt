//! All local documents of a database.
ghost use Rattle.std.specs.Prelude.{◌≡◌, ◌↔◌, T, Ok, Err, Some, None, IfOk, option_map, option_copied};
ghost use Rattle.std.specs.Arc.{arc_value};
ghost use Rattle.std.specs.FinMap.Entries.{is_sorted};
ghost use Rattle.model.specs.Body as model_body;
ghost use Rattle.model.specs.Command as model;
ghost use Rattle.model.specs.declared.refusal.Refusal.TheVariants as refusal;
ghost use Rattle.model.specs.Local.{local_written, store_local};
ghost use Rattle.model.specs.Map.{get, empty, put as put_in, without as without_in};
ghost use Rattle.local_docs.specs.Written.{written_or_fault};
ghost use Rattle.local_docs.specs.declared.fault.LocalFault.TheVariants.{Conflict, Missing, LastCounter};

mod listed;

use crate::fault::LocalFault;
use crate::local::LocalDoc;
use cow_index::CowMap;
use document_id::DocId;
use json_profile::Body;
use std::alloc::{AllocError, Global};
use std::marker::Model;
use std::sync::Arc;

/// The local documents by their ids.
///
/// No call changes a value: a write gives a new one, which shares with the older one all but the
/// nodes on the way to its document, and the older one holds what it held.
pub struct Locals {
    documents: CowMap<DocId, LocalDoc>,
    ghost rising: { T (is_sorted model.names.cmp documents.entries) },
}

impl Drop for Locals {
    fn drop(self) {
        let Locals { documents: _ } = self;
    }
}

impl Model for Locals {
    ghost use Rattle.std.specs.Coded.{codes};
    ghost use Rattle.model.specs.JsonCode.{coded_members};
    ghost use Rattle.model.specs.Command.{names};
    ghost use Rattle.model.specs.Local.{Local};
    ghost use Rattle.model.specs.Map.{Map};

    ghost Value = { Map names Local };

    ghost coded = { Prim.hlevel (codes, coded_members) };

    ghost view = { λ l. record { list = l.documents.entries; sorted = l.rising } };
}

impl Locals {
    /// No documents. Later calls take their memory from `alloc`.
    pub fn new(alloc: Global) -> Locals
        ensures empty { result ≡ empty }
    {
        Locals {
            documents: CowMap::new(alloc),
        }
    }

    /// The local document of the id, found in logarithmic time.
    pub fn get(&self, id: &DocId) -> Option<&LocalDoc>
        ensures found { option_copied result ≡ get self.now id.now }
    {
        self.documents.get(id)
    }

    /// The same documents, which share all nodes.
    pub fn share(&self) -> Result<Locals, AllocError>
        ensures same { IfOk result (λ locals. locals ≡ self.now) }
    {
        Ok(Locals {
            documents: self.documents.share()?,
        })
    }

    /// The documents after a write over the revision number that it names, and the number of the
    /// new revision. A write of a document that isn't there names none.
    pub fn put(
        &self,
        id: &DocId,
        named: Option<u32>,
        body: Arc<Body>,
    ) -> Result<(Locals, u32), LocalFault>
        ensures written { IfOk result (λ r. local_written (get self.now id.now) named (Some (arc_value body)) ≡ Ok r.1) }
        ensures stored { IfOk result (λ r. r.0 ≡ store_local self.now id.now (Some (arc_value body)) (Ok r.1)) }
        ensures conflict { (result ≡ Err Conflict)
            ↔ (local_written (get self.now id.now) named (Some (arc_value body)) ≡ Err refusal.Conflict) }
        ensures missing { (result ≡ Err Missing)
            ↔ (local_written (get self.now id.now) named (Some (arc_value body)) ≡ Err refusal.Missing) }
        ensures last_counter { (result ≡ Err LastCounter)
            ↔ (local_written (get self.now id.now) named (Some (arc_value body)) ≡ Err refusal.GenerationLimit) }
    {
        let counter = put_counter(self.get(id), named)?;
        Ok((self.with(id, LocalDoc { counter, body })?, counter))
    }

    /// The documents without this one, whose revision number the deletion names.
    pub fn delete(&self, id: &DocId, named: Option<u32>) -> Result<Locals, LocalFault>
        ensures written { IfOk result (λ _. local_written (get self.now id.now) named None ≡ Ok 0) }
        ensures stored { IfOk result (λ locals. locals ≡ store_local self.now id.now None (Ok 0)) }
        ensures conflict { (result ≡ Err Conflict)
            ↔ (local_written (get self.now id.now) named None ≡ Err refusal.Conflict) }
        ensures missing { (result ≡ Err Missing)
            ↔ (local_written (get self.now id.now) named None ≡ Err refusal.Missing) }
        ensures last_counter { (result ≡ Err LastCounter)
            ↔ (local_written (get self.now id.now) named None ≡ Err refusal.GenerationLimit) }
    {
        deletion_counter(self.get(id), named)?;
        Ok(self.without(id)?)
    }

    /// The documents after a write, or with no body a deletion, and the number of the new revision,
    /// 0 for a deletion.
    pub fn write(
        &self,
        id: &DocId,
        named: Option<u32>,
        body: Option<&Arc<Body>>,
    ) -> Result<(Locals, u32), LocalFault>
        ensures written { IfOk result (λ r. local_written (get self.now id.now) named (option_map arc_value (option_copied body.entry)) ≡ Ok r.1) }
        ensures stored { IfOk result (λ r. r.0 ≡ store_local self.now id.now (option_map arc_value (option_copied body.entry)) (Ok r.1)) }
        ensures conflict { (result ≡ Err Conflict)
            ↔ (local_written (get self.now id.now) named (option_map arc_value (option_copied body.entry)) ≡ Err refusal.Conflict) }
        ensures missing { (result ≡ Err Missing)
            ↔ (local_written (get self.now id.now) named (option_map arc_value (option_copied body.entry)) ≡ Err refusal.Missing) }
        ensures last_counter { (result ≡ Err LastCounter)
            ↔ (local_written (get self.now id.now) named (option_map arc_value (option_copied body.entry)) ≡ Err refusal.GenerationLimit) }
    {
        let Some(body) = body else {
            return Ok((self.delete(id, named)?, 0));
        };
        let counter = put_counter(self.get(id), named)?;
        let body = body.clone()?;
        Ok((self.with(id, LocalDoc { counter, body })?, counter))
    }

    fn with(&self, id: &DocId, document: LocalDoc) -> Result<Locals, AllocError>
        ensures with { IfOk result (λ locals. locals ≡ put_in self.now id.now document) }
    {
        Ok(Locals {
            documents: self.documents.insert(id.share()?, document)?,
        })
    }

    fn without(&self, id: &DocId) -> Result<Locals, AllocError>
        ensures without { IfOk result (λ locals. locals ≡ without_in self.now id.now) }
    {
        Ok(Locals {
            documents: self.documents.remove(id)?,
        })
    }
}

/// The revision number after a write of some body over the one that it names.
fn put_counter(present: Option<&LocalDoc>, named: Option<u32>) -> Result<u32, LocalFault>
    ensures counter { (body : model_body.Body)
        → result ≡ written_or_fault (local_written (option_copied present.entry) named (Some body)) }
{
    let Some(present) = present else {
        return match named {
            Some(_) => Err(LocalFault::Conflict),
            None => Ok(1),
        };
    };
    if named != Some(present.counter) {
        return Err(LocalFault::Conflict);
    }
    match present.counter.checked_add(1) {
        Some(counter) => Ok(counter),
        None => Err(LocalFault::LastCounter),
    }
}

/// The revision number after a deletion, 0, over the revision number that it names.
fn deletion_counter(present: Option<&LocalDoc>, named: Option<u32>) -> Result<u32, LocalFault>
    ensures counter { result ≡ written_or_fault (local_written (option_copied present.entry) named None) }
{
    let Some(present) = present else {
        return Err(LocalFault::Missing);
    };
    if named != Some(present.counter) {
        return Err(LocalFault::Conflict);
    }
    Ok(0)
}
