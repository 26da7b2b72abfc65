//! Which revisions of a document are asked for by `open_revs`.
ghost use Rattle.std.specs.Prelude.{◌≡◌};
ghost use Rattle.document_json.specs.Steps.{Decides};
ghost use Rattle.http_request.specs.Opened.{open_leaves, open_listed, open_revs_of};

use crate::asked::Asked;
use crate::parameter::read_named_revision;
use api_json::{read_revisions, read_text_list};
use document_id::DocId;
use document_json::{Fault, Reason};
use http_routing::query::Parameters;
use queries::{Options, Query, QueryKind};
use std::alloc::Global;

/// What asks for all leaves.
fn read_leaves(id: DocId, options: Options, parameters: &Parameters<'_>) -> Result<Asked, Reason>
    ensures { result ≡ open_leaves id options parameters.now }
{
    let _named = read_named_revision(parameters)?;
    Ok(Asked::Query(Query::new(QueryKind::OpenRevs {
        id,
        asked: None,
        options,
    })))
}

/// What asks for the revisions of a list of texts.
fn read_listed(
    alloc: Global,
    id: DocId,
    options: Options,
    text: &str,
    parameters: &Parameters<'_>,
) -> Result<Asked, Fault>
    ensures { Decides result (open_listed id options text.now parameters.now) }
{
    let Some(values) = read_text_list(alloc, text)? else {
        return Err(Fault::Refused(Reason::Parameter));
    };
    let _named = read_named_revision(parameters)?;
    let revs = read_revisions(alloc, values)?;
    Ok(Asked::Query(Query::new(QueryKind::OpenRevs {
        id,
        asked: Some(revs),
        options,
    })))
}

/// What asks for the leaves or the revisions of `open_revs`. A revision in `rev` is only checked.
pub(crate) fn read_open_revs(
    alloc: Global,
    id: DocId,
    options: Options,
    text: &str,
    parameters: &Parameters<'_>,
) -> Result<Asked, Fault>
    ensures { Decides result (open_revs_of id options text.now parameters.now) }
{
    if text == "all" {
        return Ok(read_leaves(id, options, parameters)?);
    }
    read_listed(alloc, id, options, text, parameters)
}
