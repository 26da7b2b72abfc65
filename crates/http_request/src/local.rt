//! Local documents, as requests name them.
ghost use Rattle.document_json.specs.Steps.{Decides};
ghost use Rattle.http_request.specs.Local.{delete_local, get_local, put_local};

use crate::asked::{Asked, Form};
use crate::identity::read_path_id;
use commands::Command;
use document_json::{Fault, name_counter, read_local_edit};
use http_routing::query::Parameters;
use queries::{Query, QueryKind};
use std::alloc::Global;

/// GET of a local document.
pub(crate) fn read_local_query(alloc: Global, path: &str) -> Result<Asked, Fault>
    ensures { Decides result (get_local path.now) }
{
    let id = read_path_id(alloc, path)?;
    Ok(Asked::Query(Query::new(QueryKind::GetLocal(id))))
}

/// PUT of a local document.
pub(crate) fn read_local_put(
    alloc: Global,
    path: &str,
    query: &str,
    body: &[u8],
) -> Result<Asked, Fault>
    ensures { Decides result (put_local path.now query.now body.now) }
{
    let id = read_path_id(alloc, path)?;
    let parameters = Parameters::read(alloc, query)?;
    let command = read_local_edit(alloc, id, parameters.get("rev"), body)?;
    Ok(Asked::Command(Form::Put, command))
}

/// DELETE of a local document.
pub(crate) fn read_local_deletion(alloc: Global, path: &str, query: &str) -> Result<Asked, Fault>
    ensures { Decides result (delete_local path.now query.now) }
{
    let id = read_path_id(alloc, path)?;
    let parameters = Parameters::read(alloc, query)?;
    let counter = name_counter(parameters.get("rev"))?;
    let Some(command) = Command::put_local(id, counter, None) else {
        unreachable!()
    };
    Ok(Asked::Command(Form::Delete, command))
}
