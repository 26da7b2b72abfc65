//! Which route a path has, and which methods a route takes.
//!
//! A route is one path, or all paths that end in the segment of an id. To add one takes its variant
//! of [`Route`], its row of the table, here and in `specs/Routes.antt`, and its methods; the proofs
//! are over any table.
ghost use Rattle.std.specs.Prelude.{◌≡◌, ℕ, List, None, true, false, IfOk};
ghost use Rattle.std.specs.List.{list_any};
ghost use Rattle.std.specs.Str.{bytes_eq};
ghost use Rattle.http_routing.specs.Rows.{rows_of};
ghost use Rattle.http_routing.specs.Routes.{name_of, methods_of, route_of, has_empty_segment, ended_paths};

use matchit::Router;
use std::alloc::{AllocError, Global};
use std::marker::Model;

/// What a path leads to.
#[derive(Clone, Copy, Debug, PartialEq, Eq)]
pub enum Route {
    /// `/`
    Root,
    /// `/db`
    Database,
    /// `/db/`
    DatabaseSlash,
    /// `/db/_all_docs`
    AllDocs,
    /// `/db/_bulk_docs`
    BulkDocs,
    /// `/db/_changes`
    Changes,
    /// `/db/_compact`
    Compact,
    /// `/db/_local/ID`
    Local,
    /// `/db/_purge`
    Purge,
    /// `/db/_purged_infos_limit`
    PurgedInfosLimit,
    /// `/db/_revs_diff`
    RevsDiff,
    /// `/db/_revs_limit`
    RevsLimit,
    /// `/db/ID`
    Document,
}

/// A method of some route.
#[derive(Clone, Copy, Debug, PartialEq, Eq)]
pub enum Method {
    Get,
    Put,
    Post,
    Delete,
}

impl Method {
    /// The name, as a request and `Allow` write it.
    pub fn name(self) -> &'static str
        ensures { result.now ≡ name_of self }
    {
        match self {
            Method::Get => "GET",
            Method::Put => "PUT",
            Method::Post => "POST",
            Method::Delete => "DELETE",
        }
    }
}

impl Route {
    /// The methods that the route takes, in the order in which a response lists them.
    pub fn methods(self) -> &'static [Method]
        ensures { result.now ≡ methods_of self }
    {
        match self {
            Route::Root | Route::Database | Route::DatabaseSlash => &[Method::Get],
            Route::AllDocs => &[Method::Get],
            Route::Changes => &[Method::Get, Method::Post],
            Route::BulkDocs | Route::Compact | Route::Purge | Route::RevsDiff => &[Method::Post],
            Route::PurgedInfosLimit | Route::RevsLimit => &[Method::Get, Method::Put],
            Route::Local | Route::Document => &[Method::Get, Method::Put, Method::Delete],
        }
    }
}

/// The paths of the routes, as `matchit` writes them.
const TABLE: [(&str, Route); 13] = [
    ("/", Route::Root),
    ("/db", Route::Database),
    ("/db/", Route::DatabaseSlash),
    ("/db/_all_docs", Route::AllDocs),
    ("/db/_bulk_docs", Route::BulkDocs),
    ("/db/_changes", Route::Changes),
    ("/db/_compact", Route::Compact),
    ("/db/_local/{id}", Route::Local),
    ("/db/_purge", Route::Purge),
    ("/db/_purged_infos_limit", Route::PurgedInfosLimit),
    ("/db/_revs_diff", Route::RevsDiff),
    ("/db/_revs_limit", Route::RevsLimit),
    ("/db/{id}", Route::Document),
];

/// The routes, ready to be looked up.
#[derive(Drop)]
pub struct Routes {
    router: Router<Route>,
}

impl Model for Routes {
    ghost use Rattle.std.specs.Prelude.{◌≡◌, ⊤};
    ghost use Rattle.http_routing.specs.Rows.{table};

    ghost Value = { ⊤ };

    ghost view = { λ _. tt };

    ghost invariant = { λ r. r.router ≡ table };
}

/// A router of these paths.
fn router_of(alloc: Global, paths: &[(&str, Route)]) -> Result<Router<Route>, AllocError>
    ensures { IfOk result (λ router. router ≡ rows_of paths.now) }
{
    let mut router = Router::new(alloc);
    for (path, route) in paths {
        // No two paths of the table conflict, so memory was refused.
        if router.insert(path, *route).is_err() {
            return Err(AllocError);
        }
    }
    Ok(router)
}

impl Routes {
    /// Builds the router.
    pub fn new(alloc: Global) -> Result<Routes, AllocError> {
        let router = router_of(alloc, &TABLE)?;
        Ok(Routes { router })
    }

    /// The route of a path.
    pub fn at(&self, path: &str) -> Option<Route>
        ensures { result ≡ route_of path.now }
    {
        match self.router.at(path) {
            Ok(found) => Some(*found.value),
            Err(_) => None,
        }
    }
}

/// A path with an empty segment has no route, but for `/` and `/db/`.
pub fn empty_segments()
    ensures { (path : List ℕ) → has_empty_segment path ≡ true → list_any (bytes_eq path) ended_paths ≡ false
        → route_of path ≡ None }
{}
