//! Revisions, as values of JSON.
ghost use Rattle.std.specs.Prelude.{◌≡◌, map, IfOk};
ghost use Rattle.serde_json.specs.Data.{array};
ghost use Rattle.serde_json.specs.View.{items_of, view};
ghost use Rattle.document_json.specs.Written.{hash_data, info_data, infos_data, rev_data, revisions_data, revs_data, start_of, status_name};

use model::Status;
use revision_id::RevId;
use serde_json::{Value, json};
use std::alloc::{AllocError, Global};

fn rev_value(alloc: Global, rev: &RevId) -> Result<Value, AllocError>
    ensures { IfOk result (λ value. view value ≡ rev_data rev.now) }
{
    Ok(Value::String(rev.text(alloc)?))
}

/// A list of revisions.
pub fn revs_value(alloc: Global, revs: &[RevId]) -> Result<Value, AllocError>
    ensures { IfOk result (λ value. view value ≡ revs_data revs.now) }
{
    let mut values = Vec::with_capacity(alloc, revs.len())?;
    for rev in revs {
        values.push(rev_value(alloc, rev)?)?;
    }
    Ok(Value::Array(values))
}

fn hash_value(alloc: Global, rev: &RevId) -> Result<Value, AllocError>
    ensures { IfOk result (λ value. view value ≡ hash_data rev.now) }
{
    Ok(Value::String(rev.hash_text(alloc)?))
}

fn hashes_value(alloc: Global, revs: &[RevId]) -> Result<Value, AllocError>
    ensures { IfOk result (λ value. view value ≡ array (items_of (map hash_data revs.now))) }
{
    let mut values = Vec::with_capacity(alloc, revs.len())?;
    for rev in revs {
        values.push(hash_value(alloc, rev)?)?;
    }
    Ok(Value::Array(values))
}

pub(crate) fn first_generation(revs: &[RevId]) -> u32
    ensures { result ≡ start_of revs.now }
{
    match revs {
        [newest, ..] => newest.generation(),
        [] => 0,
    }
}

/// A path of revisions, newest first.
pub(crate) fn revisions_value(alloc: Global, revs: &[RevId]) -> Result<Value, AllocError>
    ensures { IfOk result (λ value. view value ≡ revisions_data revs.now) }
{
    let ids = hashes_value(alloc, revs)?;
    let start = first_generation(revs);
    json!(in alloc; {"ids": ids, "start": start})
}

pub(crate) fn name_of(status: Status) -> &'static str
    ensures { result.now ≡ status_name status }
{
    match status {
        Status::Available => "available",
        Status::IsDeleted => "deleted",
        Status::NoBody => "missing",
    }
}

fn info_value(alloc: Global, info: &(RevId, Status)) -> Result<Value, AllocError>
    ensures { IfOk result (λ value. view value ≡ info_data info.now) }
{
    let rev = info.0.text(alloc)?;
    let status = name_of(info.1);
    json!(in alloc; {"rev": rev.as_str(), "status": status})
}

/// What is kept of each revision of a path.
pub(crate) fn infos_value(alloc: Global, infos: &[(RevId, Status)]) -> Result<Value, AllocError>
    ensures { IfOk result (λ value. view value ≡ infos_data infos.now) }
{
    let mut values = Vec::with_capacity(alloc, infos.len())?;
    for info in infos {
        values.push(info_value(alloc, info)?)?;
    }
    Ok(Value::Array(values))
}
