//! What a request target says: a path, whose segments are percent-encoded, and a query string,
//! whose parameters are those of a form.
ghost use Rattle.std.specs.Prelude.{◌≡◌};
ghost use Rattle.http_routing.specs.Target.{path_of, query_of, last_segment};

/// The path and the query string of a target, which the first `?` parts; without one the query
/// string is empty.
pub fn split_target(target: &str) -> (&str, &str)
    ensures path { result.0.now ≡ path_of target.now }
    ensures query { result.1.now ≡ query_of target.now }
{
    match target.split_once('?') {
        Some((path, query)) => (path, query),
        None => (target, ""),
    }
}

/// The last segment of a path: what comes after its last `/`, still encoded.
pub fn last_segment(path: &str) -> &str
    ensures { result.now ≡ last_segment path.now }
{
    match path.rsplit_once('/') {
        Some((_, segment)) => segment,
        None => path,
    }
}
