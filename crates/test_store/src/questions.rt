//! Queries, read from words, and asked.

use crate::answers::{
    push_answer, push_counts, push_differences, push_documents, push_found, push_limit, push_local,
    push_opened, push_page,
};
use crate::changes::{asked, listed, revision};
use changes_feed::{
    all_docs, answer, changes, changes_among, get, info, local_get, open_revs, purged_infos_limit,
    revs_diff, revs_limit,
};
use document_id::{DocId, DocIds};
use model::Style;
use queries::{Options, Query, QueryKind};
use snapshots::Version;
use std::alloc::{AllocError, Global};
use std::test::Fail;

/// The query of these words. `-` is where no revision is named, or no limit.
pub(crate) fn query(alloc: Global, words: &[&str]) -> Result<QueryKind, Fail> {
    match words {
        ["get", id, rev, options @ ..] => Ok(QueryKind::Get {
            id: DocId::new(alloc, id)?,
            rev: revision(rev)?,
            options: options_of(options),
        }),
        ["open_revs", id, "all", options @ ..] => Ok(QueryKind::OpenRevs {
            id: DocId::new(alloc, id)?,
            asked: None,
            options: options_of(options),
        }),
        ["open_revs", id, revs, options @ ..] => Ok(QueryKind::OpenRevs {
            id: DocId::new(alloc, id)?,
            asked: Some(listed(alloc, revs)?),
            options: options_of(options),
        }),
        ["revs_diff", documents @ ..] => Ok(QueryKind::RevsDiff(asked(alloc, documents)?)),
        ["changes", since, limit, word] => changes_asked(since, limit, word, None),
        ["changes_of", texts, since, limit, word] => {
            changes_asked(since, limit, word, Some(ids_named(alloc, texts)?))
        }
        ["all_docs"] => Ok(QueryKind::AllDocuments),
        ["info"] => Ok(QueryKind::Info),
        ["get_local", id] => Ok(QueryKind::GetLocal(DocId::new(alloc, id)?)),
        ["revs_limit"] => Ok(QueryKind::RevsLimit),
        ["purged_infos_limit"] => Ok(QueryKind::PurgedInfosLimit),
        _ => Err("a query".into()),
    }
}

fn changes_asked(
    since: &str,
    limit: &str,
    word: &str,
    ids: Option<DocIds>,
) -> Result<QueryKind, Fail> {
    Ok(QueryKind::Changes {
        since: since.parse::<u64>()?,
        limit: row_limit(limit)?,
        style: style(word)?,
        ids,
    })
}

/// The most rows, or no limit for `-`.
fn row_limit(word: &str) -> Result<Option<u64>, Fail> {
    if word == "-" {
        return Ok(None);
    }
    Ok(Some(word.parse::<u64>()?))
}

/// The documents that texts with `,` between name.
pub(crate) fn ids_named(alloc: Global, texts: &str) -> Result<DocIds, Fail> {
    let texts: Vec<&str> = texts.split(',').collect(alloc)?;
    Ok(DocIds::named(alloc, texts.as_slice())?)
}

fn options_of(words: &[&str]) -> Options {
    Options {
        latest: words.contains(&"latest"),
        revs: words.contains(&"revs"),
        revs_info: words.contains(&"revs_info"),
        conflicts: words.contains(&"conflicts"),
        deleted_conflicts: words.contains(&"deleted_conflicts"),
    }
}

pub(crate) fn style(word: &str) -> Result<Style, Fail> {
    match word {
        "main_only" => Ok(Style::MainOnly),
        "all_docs" => Ok(Style::AllDocs),
        _ => Err("a style".into()),
    }
}

/// Asks a query by its own call and by the one for all, and reports the answer; both where they are not the same.
pub(crate) fn push_asked(
    text: &mut String,
    alloc: Global,
    version: &Version,
    words: &[&str],
) -> Result<(), Fail> {
    let query = Query::new(query(alloc, words)?);
    let own = own_answer(alloc, version, query.kind())?;
    let other = common_answer(alloc, version, &query)?;
    text.push_str(own.as_str())?;
    if own != other {
        write!(text, " or {other}")?;
    }
    Ok(())
}

/// What the one call for all queries answers.
fn common_answer(alloc: Global, version: &Version, query: &Query) -> Result<String, AllocError> {
    let mut text = String::new(alloc);
    push_answer(&mut text, &answer(alloc, version, query)?)?;
    Ok(text)
}

/// What the query's own call answers.
fn own_answer(alloc: Global, version: &Version, kind: &QueryKind) -> Result<String, AllocError> {
    let mut text = String::new(alloc);
    push_own(&mut text, alloc, version, kind)?;
    Ok(text)
}

fn push_own(
    text: &mut String,
    alloc: Global,
    version: &Version,
    kind: &QueryKind,
) -> Result<(), AllocError> {
    match kind {
        QueryKind::Get { id, rev, options } => {
            push_found(text, &get(alloc, version, id, *rev, options)?)
        }
        QueryKind::OpenRevs {
            id,
            asked: Some(revs),
            options,
        } => push_opened(text, &open_revs(alloc, version, id, Some(revs), options)?),
        QueryKind::OpenRevs {
            id,
            asked: None,
            options,
        } => push_opened(text, &open_revs(alloc, version, id, None, options)?),
        QueryKind::RevsDiff(named) => push_differences(text, &revs_diff(alloc, version, named)?),
        QueryKind::Changes {
            since,
            limit,
            style,
            ids: None,
        } => push_page(text, &changes(alloc, version, *since, *limit, *style)?),
        QueryKind::Changes {
            since,
            limit,
            style,
            ids: Some(ids),
        } => push_page(
            text,
            &changes_among(alloc, version, *since, *limit, *style, ids)?,
        ),
        QueryKind::AllDocuments => push_documents(text, &all_docs(alloc, version)?),
        QueryKind::Info => push_counts(text, &info(version)),
        QueryKind::GetLocal(id) => push_local(text, &local_get(version, id)?),
        QueryKind::RevsLimit => push_limit(text, revs_limit(version)),
        QueryKind::PurgedInfosLimit => push_limit(text, purged_infos_limit(version)),
    }
}
