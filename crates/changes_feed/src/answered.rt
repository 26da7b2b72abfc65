//! Any query.
ghost use Rattle.std.specs.Prelude.{◌≡◌, IfOk, option_copied, option_map};
ghost use Rattle.model.specs.History.{now};
ghost use Rattle.model.specs.Answers.{answer_to};

use crate::difference::revs_diff;
use crate::found::get;
use crate::opened::open_revs;
use crate::page::wanted_changes;
use crate::reads::{all_docs, info, local_get, purged_infos_limit, revs_limit};
use queries::{Answer, AnswerKind, Query, QueryKind};
use revision_id::RevId;
use snapshots::Version;
use std::alloc::{AllocError, Global};

/// What the version answers to a query.
pub fn answer(alloc: Global, version: &Version, query: &Query) -> Result<Answer, AllocError>
    ensures answer { IfOk result (λ answer. answer ≡ answer_to (now version.now) query.now) }
{
    match query.kind() {
        QueryKind::Get { id, rev, options } => {
            let found = get(alloc, version, id, *rev, options)?;
            Ok(Answer::new(AnswerKind::Found(found)))
        }
        QueryKind::OpenRevs { id, asked, options } => {
            let opened = open_revs(alloc, version, id, listed(asked), options)?;
            Ok(Answer::new(AnswerKind::Opened(opened)))
        }
        QueryKind::RevsDiff(asked) => {
            let differences = revs_diff(alloc, version, asked)?;
            Ok(Answer::new(AnswerKind::Differences(differences)))
        }
        QueryKind::Changes {
            since,
            limit,
            style,
            ids,
        } => {
            let page = wanted_changes(alloc, version, *since, *limit, *style, ids)?;
            Ok(Answer::new(AnswerKind::Changed(page)))
        }
        QueryKind::AllDocuments => {
            let documents = all_docs(alloc, version)?;
            Ok(Answer::new(AnswerKind::Documents(documents)))
        }
        QueryKind::Info => Ok(Answer::new(AnswerKind::Counted(info(version)))),
        QueryKind::GetLocal(id) => {
            let local = local_get(version, id)?;
            Ok(Answer::new(AnswerKind::FoundLocal(local)))
        }
        QueryKind::RevsLimit => Ok(Answer::new(AnswerKind::Limit(revs_limit(version)))),
        QueryKind::PurgedInfosLimit => {
            Ok(Answer::new(AnswerKind::Limit(purged_infos_limit(version))))
        }
    }
}

/// The revisions that are listed, where some are.
pub(crate) fn listed(asked: &Option<Vec<RevId>>) -> Option<&[RevId]>
    ensures { option_copied result ≡ option_map (λ revs. revs.items) asked.now }
{
    match asked {
        Some(revs) => Some(revs),
        None => None,
    }
}
