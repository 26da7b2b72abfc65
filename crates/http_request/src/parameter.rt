//! The parameters of a query string, as routes read them.
ghost use Rattle.std.specs.Prelude.{◌≡◌};
ghost use Rattle.http_request.specs.Parameters.{asks_for_documents, flag_parameter, is_given, is_there, no_replication, number_parameter, options_of, rev_parameter};

use decimals::parse_number;
use document_json::{Reason, name_revision};
use http_routing::query::Parameters;
use http_routing::value::parse_flag;
use queries::Options;
use revision_id::RevId;

/// A truth value, false where it is not given.
fn read_flag(parameters: &Parameters<'_>, name: &str) -> Result<bool, Reason>
    ensures { result ≡ flag_parameter name.now parameters.now }
{
    let Some(value) = parameters.get(name) else {
        return Ok(false);
    };
    match parse_flag(value) {
        Some(flag) => Ok(flag),
        None => Err(Reason::Parameter),
    }
}

/// A number, if it is given.
pub(crate) fn read_number(parameters: &Parameters<'_>, name: &str) -> Result<Option<u64>, Reason>
    ensures { result ≡ number_parameter name.now parameters.now }
{
    let Some(value) = parameters.get(name) else {
        return Ok(None);
    };
    match parse_number(value) {
        Some(number) => Ok(Some(number)),
        None => Err(Reason::Parameter),
    }
}

/// The revision that the request names.
pub(crate) fn read_named_revision(parameters: &Parameters<'_>) -> Result<Option<RevId>, Reason>
    ensures { result ≡ rev_parameter parameters.now }
{
    let Some(text) = parameters.get("rev") else {
        return Ok(None);
    };
    Ok(Some(name_revision(text)?))
}

/// Whether a parameter has this value.
pub(crate) fn is_given(parameters: &Parameters<'_>, name: &str, value: &str) -> bool
    ensures { result ≡ is_given name.now value.now parameters.now }
{
    match parameters.get(name) {
        Some(found) => found == value,
        None => false,
    }
}

/// Whether a parameter is there, with any value.
pub(crate) fn is_there(parameters: &Parameters<'_>, name: &str) -> bool
    ensures { result ≡ is_there name.now parameters.now }
{
    parameters.get(name).is_some()
}

/// Refuses the parameter that says that a write is a replication.
pub(crate) fn refuse_replication(parameters: &Parameters<'_>) -> Result<(), Reason>
    ensures { result ≡ no_replication parameters.now }
{
    if is_given(parameters, "new_edits", "false") {
        return Err(Reason::Parameter);
    }
    Ok(())
}

/// Whether rows are asked for with documents, or in another order.
pub(crate) fn asks_for_documents(parameters: &Parameters<'_>) -> bool
    ensures { result ≡ asks_for_documents parameters.now }
{
    is_given(parameters, "include_docs", "true") || is_given(parameters, "descending", "true")
}

/// What is asked of a document beside its body.
pub(crate) fn read_options(parameters: &Parameters<'_>) -> Result<Options, Reason>
    ensures { result ≡ options_of parameters.now }
{
    let latest = read_flag(parameters, "latest")?;
    let revs = read_flag(parameters, "revs")?;
    let revs_info = read_flag(parameters, "revs_info")?;
    let conflicts = read_flag(parameters, "conflicts")?;
    let deleted_conflicts = read_flag(parameters, "deleted_conflicts")?;
    Ok(Options {
        latest,
        revs,
        revs_info,
        conflicts,
        deleted_conflicts,
    })
}
