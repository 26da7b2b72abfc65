//! What is asked of documents: their changes, and their list.
ghost use Rattle.std.specs.Prelude.{◌≡◌, codes};
ghost use Rattle.http_request.specs.Feeds.{all_docs_of, asks_for_keys, asks_for_other_changes, asks_for_other_filter, asks_for_range, asks_for_some, changes_of, feed_in, feed_named, wanted_ids, since_in, style_in, style_named};
ghost use Rattle.document_json.specs.Steps.{Decides};
ghost use Rattle.http_routing.specs.Query.{parameter, parameters_of};

use crate::asked::Asked;
use crate::changes::{ChangesAsked, Feed, Since};
use crate::parameter::{asks_for_documents, is_given, is_there, read_number};
use api_json::read_doc_ids;
use document_id::DocIds;
use document_json::{Fault, Reason};
use http_routing::Method;
use http_routing::query::Parameters;
use model::Style;
use queries::{Query, QueryKind};
use std::alloc::Global;

/// Whether the changes of some documents alone are asked for, which the body lists.
fn asks_for_some(method: Method, parameters: &Parameters<'_>) -> bool
    ensures { result ≡ asks_for_some method parameters.now }
{
    match method {
        Method::Post => is_given(parameters, "filter", "_doc_ids"),
        Method::Get | Method::Put | Method::Delete => false,
    }
}

/// Whether a filter is asked for that no feed has.
fn asks_for_other_filter(method: Method, parameters: &Parameters<'_>) -> bool
    ensures { result ≡ asks_for_other_filter method parameters.now }
{
    is_there(parameters, "filter") && !asks_for_some(method, parameters)
}

/// Whether changes are asked for that no feed gives.
fn asks_for_other_changes(method: Method, parameters: &Parameters<'_>) -> bool
    ensures { result ≡ asks_for_other_changes method parameters.now }
{
    asks_for_documents(parameters)
        || asks_for_other_filter(method, parameters)
        || is_there(parameters, "view")
}

/// The feed of this name.
fn feed_named(name: &str) -> Option<Feed>
    ensures { result ≡ feed_named name.now }
{
    match name {
        "normal" => Some(Feed::Normal),
        "longpoll" => Some(Feed::LongPoll),
        "continuous" => Some(Feed::Continuous),
        _ => None,
    }
}

/// The feed, of which `normal` is the default.
fn read_feed(parameters: &Parameters<'_>) -> Result<Feed, Reason>
    ensures { result ≡ feed_in (parameter (codes "feed") parameters.now) }
{
    let Some(name) = parameters.get("feed") else {
        return Ok(Feed::Normal);
    };
    match feed_named(name) {
        Some(feed) => Ok(feed),
        None => Err(Reason::Parameter),
    }
}

/// The style of this name.
fn style_named(name: &str) -> Option<Style>
    ensures { result ≡ style_named name.now }
{
    match name {
        "main_only" => Some(Style::MainOnly),
        "all_docs" => Some(Style::AllDocs),
        _ => None,
    }
}

/// The style, of which the winner alone is the default.
fn read_style(parameters: &Parameters<'_>) -> Result<Style, Reason>
    ensures { result ≡ style_in (parameter (codes "style") parameters.now) }
{
    let Some(name) = parameters.get("style") else {
        return Ok(Style::MainOnly);
    };
    match style_named(name) {
        Some(style) => Ok(style),
        None => Err(Reason::Parameter),
    }
}

/// The number that is given, or the one that the database has.
fn read_since(parameters: &Parameters<'_>) -> Result<Since, Reason>
    ensures { result ≡ since_in parameters.now }
{
    if is_given(parameters, "since", "now") {
        return Ok(Since::Now);
    }
    let since = read_number(parameters, "since")?.unwrap_or(0);
    Ok(Since::Number(since))
}

/// The documents of which changes are asked for, where it is some of them. The body of another request is not read.
fn read_wanted_ids(alloc: Global, some: bool, body: &[u8]) -> Result<Option<DocIds>, Fault>
    ensures { Decides result (wanted_ids some body.now) }
{
    if !some {
        return Ok(None);
    }
    let ids = read_doc_ids(alloc, body)?;
    Ok(Some(ids))
}

/// GET or POST of the changes.
pub(crate) fn read_changes(
    alloc: Global,
    method: Method,
    query: &str,
    body: &[u8],
) -> Result<Asked, Fault>
    ensures { Decides result (changes_of method (parameters_of query.now) body.now) }
{
    let parameters = Parameters::read(alloc, query)?;
    if asks_for_other_changes(method, &parameters) {
        return Err(Fault::Refused(Reason::Parameter));
    }
    let feed = read_feed(&parameters)?;
    let style = read_style(&parameters)?;
    let limit = read_number(&parameters, "limit")?;
    let since = read_since(&parameters)?;
    let ids = read_wanted_ids(alloc, asks_for_some(method, &parameters), body)?;
    Ok(Asked::Changes(ChangesAsked {
        since,
        limit,
        style,
        feed,
        ids,
    }))
}

/// Whether some rows are asked for by their keys.
fn asks_for_keys(parameters: &Parameters<'_>) -> bool
    ensures { result ≡ asks_for_keys parameters.now }
{
    is_there(parameters, "key")
        || is_there(parameters, "keys")
        || is_there(parameters, "skip")
        || is_there(parameters, "limit")
}

/// Whether rows from one key to another are asked for.
fn asks_for_range(parameters: &Parameters<'_>) -> bool
    ensures { result ≡ asks_for_range parameters.now }
{
    is_there(parameters, "startkey")
        || is_there(parameters, "endkey")
        || is_there(parameters, "start_key")
        || is_there(parameters, "end_key")
}

/// GET of all documents.
pub(crate) fn read_all_docs(alloc: Global, query: &str) -> Result<Asked, Fault>
    ensures { Decides result (all_docs_of (parameters_of query.now)) }
{
    let parameters = Parameters::read(alloc, query)?;
    if asks_for_documents(&parameters)
        || asks_for_keys(&parameters)
        || asks_for_range(&parameters)
    {
        return Err(Fault::Refused(Reason::Parameter));
    }
    Ok(Asked::Query(Query::new(QueryKind::AllDocuments)))
}
