//! What a request asks: its route, its method, and then what the route says.
ghost use Rattle.std.specs.Prelude.{◌≡◌, [], ◌∷◌, IfOk};
ghost use Rattle.model.specs.Command.{Edits};
ghost use Rattle.http_request.specs.Decide.{asked_of, decide, delete_document, get_document, method_in, method_of, post_bulk, post_purge, post_revs_diff, put_document, put_purged_infos_limit, put_revs_limit, route_in};
ghost use Rattle.document_json.specs.Steps.{Checked, Decides};
ghost use Rattle.http_request.specs.Rejections.{decided, DecidesSo};

use crate::asked::{Asked, Form};
use crate::feed::{read_all_docs, read_changes};
use crate::identity::read_path_id;
use crate::local::{read_local_deletion, read_local_put, read_local_query};
use crate::opened::read_open_revs;
use crate::parameter::{read_named_revision, read_options, refuse_replication};
use crate::rejection::{Rejection, Undecided};
use api_json::{read_limit, read_named_revisions, read_purge};
use commands::{Command, Edit};
use document_json::{Fault, read_bulk, read_edit};
use http_framing::request::Request;
use http_routing::query::Parameters;
use http_routing::{Method, Route, Routes, split_target};
use json_profile::Body;
use queries::{Query, QueryKind};
use std::alloc::{AllocError, Global};
use std::sync::Arc;

/// What a request asks, or why it is rejected.
pub fn read_request(
    alloc: Global,
    routes: &Routes,
    request: &Request<'_>,
) -> Result<Result<Asked, Rejection>, AllocError>
    ensures decides { IfOk result (λ decided. decided ≡ decide request.now) }
{
    match read_asked(alloc, routes, request) {
        Ok(asked) => Ok(Ok(asked)),
        Err(Undecided::Rejected(rejection)) => Ok(Err(rejection)),
        Err(Undecided::Memory) => Err(AllocError),
    }
}

#[tactic(auto, unfolding(crate::specs::Decide::decide))]
fn read_asked(alloc: Global, routes: &Routes, request: &Request<'_>) -> Result<Asked, Undecided>
    ensures { DecidesSo result (decide request.now) }
{
    let (path, query) = split_target(request.target());
    let route = find_route(routes, path)?;
    let method = find_method(route, request.method())?;
    read_route(alloc, route, method, path, query, request.body())
}

/// What is asked of a route.
fn read_route(
    alloc: Global,
    route: Route,
    method: Method,
    path: &str,
    query: &str,
    body: &[u8],
) -> Result<Asked, Undecided>
    ensures { DecidesSo result (asked_of route method path.now query.now body.now) }
{
    match (route, method) {
        (Route::Root, Method::Get) => Ok(Asked::Welcome),
        (Route::Database | Route::DatabaseSlash, Method::Get) => {
            Ok(Asked::Query(Query::new(QueryKind::Info)))
        }
        (Route::BulkDocs, Method::Post) => decide_by(read_bulk_docs(alloc, body)),
        (Route::AllDocs, Method::Get) => decide_by(read_all_docs(alloc, query)),
        (Route::Changes, Method::Get) => {
            decide_by(read_changes(alloc, Method::Get, query, body))
        }
        (Route::Changes, Method::Post) => {
            decide_by(read_changes(alloc, Method::Post, query, body))
        }
        (Route::Local, Method::Get) => decide_by(read_local_query(alloc, path)),
        (Route::Local, Method::Put) => decide_by(read_local_put(alloc, path, query, body)),
        (Route::Local, Method::Delete) => decide_by(read_local_deletion(alloc, path, query)),
        (Route::Compact, Method::Post) => Ok(Asked::Command(Form::Whole, Command::compact())),
        (Route::Purge, Method::Post) => decide_by(read_purged(alloc, body)),
        (Route::PurgedInfosLimit, Method::Get) => {
            Ok(Asked::Query(Query::new(QueryKind::PurgedInfosLimit)))
        }
        (Route::PurgedInfosLimit, Method::Put) => decide_by(read_purged_infos_limit(alloc, body)),
        (Route::RevsDiff, Method::Post) => decide_by(read_revs_diff(alloc, body)),
        (Route::RevsLimit, Method::Get) => Ok(Asked::Query(Query::new(QueryKind::RevsLimit))),
        (Route::RevsLimit, Method::Put) => decide_by(read_revs_limit(alloc, body)),
        (Route::Document, Method::Get) => decide_by(read_document_query(alloc, path, query)),
        (Route::Document, Method::Put) => decide_by(read_document_edit(alloc, path, query, body)),
        (Route::Document, Method::Delete) => decide_by(read_deletion(alloc, path, query)),
        _ => Err(Undecided::Rejected(Rejection::MethodNotAllowed(route))),
    }
}

/// Rejects a request that is not as its route asks.
#[inline(always)]
fn decide_by(asked: Result<Asked, Fault>) -> Result<Asked, Undecided>
    ensures { (checked : Checked _) → Decides asked checked → DecidesSo result (decided checked) }
{
    match asked {
        Ok(asked) => Ok(asked),
        Err(Fault::Refused(reason)) => Err(Undecided::Rejected(Rejection::BadRequest(reason))),
        Err(Fault::Memory) => Err(Undecided::Memory),
    }
}

fn find_route(routes: &Routes, path: &str) -> Result<Route, Rejection>
    ensures { result ≡ route_in path.now }
{
    match routes.at(path) {
        Some(route) => Ok(route),
        None => Err(Rejection::Missing),
    }
}

fn find_method(route: Route, name: &[u8]) -> Result<Method, Rejection>
    ensures { result ≡ method_in route name.now }
{
    match method_of(route, name) {
        Some(method) => Ok(method),
        None => Err(Rejection::MethodNotAllowed(route)),
    }
}

/// The method of the route that has this name.
fn method_of(route: Route, name: &[u8]) -> Option<Method>
    ensures { result ≡ method_of route name.now }
{
    route
        .methods()
        .iter()
        .copied()
        .find(|method| method.name().as_bytes() == name)
}

/// GET of a document.
fn read_document_query(alloc: Global, path: &str, query: &str) -> Result<Asked, Fault>
    ensures { Decides result (get_document path.now query.now) }
{
    let id = read_path_id(alloc, path)?;
    let parameters = Parameters::read(alloc, query)?;
    let options = read_options(&parameters)?;
    if let Some(text) = parameters.get("open_revs") {
        return read_open_revs(alloc, id, options, text, &parameters);
    }
    let rev = read_named_revision(&parameters)?;
    Ok(Asked::Query(Query::new(QueryKind::Get { id, rev, options })))
}

/// PUT of a document.
fn read_document_edit(alloc: Global, path: &str, query: &str, body: &[u8]) -> Result<Asked, Fault>
    ensures { Decides result (put_document path.now query.now body.now) }
{
    let id = read_path_id(alloc, path)?;
    let parameters = Parameters::read(alloc, query)?;
    refuse_replication(&parameters)?;
    let rev = read_named_revision(&parameters)?;
    let edit = read_edit(alloc, id, rev, body)?;
    Ok(one_edit(Form::Put, edit))
}

/// DELETE of a document.
fn read_deletion(alloc: Global, path: &str, query: &str) -> Result<Asked, Fault>
    ensures { Decides result (delete_document path.now query.now) }
{
    let id = read_path_id(alloc, path)?;
    let parameters = Parameters::read(alloc, query)?;
    let named = read_named_revision(&parameters)?;
    let Ok(body) = Arc::new(alloc, Body::empty(alloc)) else {
        return Err(Fault::Memory);
    };
    let edit = Edit {
        id,
        named,
        deleted: true,
        body,
    };
    Ok(one_edit(Form::Delete, edit))
}

/// A command of one edit.
fn one_edit(form: Form, edit: Edit) -> Asked
    ensures { result ≡ Asked.Command form (Edits (edit ∷ [])) }
{
    Asked::Command(form, Command::edit(edit))
}

/// POST of a bulk of documents.
fn read_bulk_docs(alloc: Global, body: &[u8]) -> Result<Asked, Fault>
    ensures { Decides result (post_bulk body.now) }
{
    let command = read_bulk(alloc, body)?;
    Ok(Asked::Command(Form::Whole, command))
}

/// POST of revisions of which some may be missing.
fn read_revs_diff(alloc: Global, body: &[u8]) -> Result<Asked, Fault>
    ensures { Decides result (post_revs_diff body.now) }
{
    let named = read_named_revisions(alloc, body)?;
    Ok(Asked::Query(Query::new(QueryKind::RevsDiff(named))))
}

/// POST of revisions that are removed for good.
fn read_purged(alloc: Global, body: &[u8]) -> Result<Asked, Fault>
    ensures { Decides result (post_purge body.now) }
{
    let command = read_purge(alloc, body)?;
    Ok(Asked::Command(Form::Whole, command))
}

/// PUT of the limit of revisions.
fn read_revs_limit(alloc: Global, body: &[u8]) -> Result<Asked, Fault>
    ensures { Decides result (put_revs_limit body.now) }
{
    let limit = read_limit(alloc, body)?;
    let Some(command) = Command::set_limit(limit) else {
        unreachable!()
    };
    Ok(Asked::Command(Form::Whole, command))
}

/// PUT of the limit of the purge log.
fn read_purged_infos_limit(alloc: Global, body: &[u8]) -> Result<Asked, Fault>
    ensures { Decides result (put_purged_infos_limit body.now) }
{
    let limit = read_limit(alloc, body)?;
    let Some(command) = Command::set_purged_limit(limit) else {
        unreachable!()
    };
    Ok(Asked::Command(Form::Whole, command))
}
