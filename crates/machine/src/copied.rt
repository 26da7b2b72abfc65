//! Copies of queries, which share their texts.
ghost use Rattle.std.specs.Prelude.{◌≡◌, IfOk, option_map};

use commands::Copied;
use document_id::DocIds;
use queries::{Query, QueryKind};
use revision_id::RevId;
use std::alloc::{AllocError, Global};

/// The same query.
pub(crate) fn copy_query(alloc: Global, query: &Query) -> Result<Query, AllocError>
    ensures same { IfOk result (λ copy. copy ≡ query.now) }
{
    let kind = match query.kind() {
        QueryKind::Get { id, rev, options } => QueryKind::Get {
            id: id.share()?,
            rev: *rev,
            options: *options,
        },
        QueryKind::OpenRevs { id, asked, options } => QueryKind::OpenRevs {
            id: id.share()?,
            asked: copy_asked(alloc, asked)?,
            options: *options,
        },
        QueryKind::RevsDiff(named) => QueryKind::RevsDiff(named.copy(alloc)?),
        QueryKind::Changes {
            since,
            limit,
            style,
            ids,
        } => QueryKind::Changes {
            since: *since,
            limit: *limit,
            style: *style,
            ids: copy_ids(ids)?,
        },
        QueryKind::AllDocuments => QueryKind::AllDocuments,
        QueryKind::Info => QueryKind::Info,
        QueryKind::GetLocal(id) => QueryKind::GetLocal(id.share()?),
        QueryKind::RevsLimit => QueryKind::RevsLimit,
        QueryKind::PurgedInfosLimit => QueryKind::PurgedInfosLimit,
    };
    Ok(Query::new(kind))
}

/// The same documents, if some are named.
fn copy_ids(ids: &Option<DocIds>) -> Result<Option<DocIds>, AllocError>
    ensures same { IfOk result (λ copy. copy ≡ ids.now) }
{
    match ids {
        Some(ids) => Ok(Some(ids.share()?)),
        None => Ok(None),
    }
}

/// The same revisions, if any are listed.
fn copy_asked(alloc: Global, asked: &Option<Vec<RevId>>) -> Result<Option<Vec<RevId>>, AllocError>
    ensures same { IfOk result (λ copy. option_map (λ revs. revs.items) copy ≡ option_map (λ revs. revs.items) asked.now) }
{
    match asked {
        Some(revs) => Ok(Some(Vec::from_slice(alloc, revs)?)),
        None => Ok(None),
    }
}
