//! Where databases are, in arguments.
ghost use Rattle.std.specs.Prelude.{◌≡◌, ◌≢◌, ◌↔◌, All, IfNone, IfOk, IfSome, IsTrue, Err, string_bytes};
ghost use Rattle.clap.specs.Words.{Text, first_of, found_of, rows_of};
ghost use Rattle.command_line.specs.Places.{is_name_byte, IsName, IsNamed, IsNumeric, IsPlace, NamesPlace, IsPlaceOf};

use crate::faults::{GivenFault, NO_HTTPS, NO_PATH, NO_PLACE, NO_USER};
use crate::numbers::number_in;
use clap::ArgMatches;
use std::alloc::Global;
use std::net::SocketAddr;

/// The scheme of a URL that is taken.
const SCHEME: &str = "http://";

/// The path of a database.
const PATH: &str = "/db";

/// Where the database is that was given under this name: a host, by its name or its numeric address, and a
/// port.
pub(crate) fn place_of(
    alloc: Global,
    options: &ArgMatches<'_>,
    name: &str,
) -> Result<String, GivenFault>
    ensures place { IfOk result (λ place. IsPlaceOf (first_of name.now (rows_of (found_of options.now))) (string_bytes place)) }
    ensures only { IfOk result (λ place. (other : Text)
        → IsPlaceOf (first_of name.now (rows_of (found_of options.now))) other → other ≡ string_bytes place) }
    ensures none { (reason : _) → result ≡ Err (GivenFault.Refused reason)
        → (place : Text) → IsPlaceOf (first_of name.now (rows_of (found_of options.now))) place → ⊥ }
{
    let Some(text) = options.get_str(name) else {
        return Err(GivenFault::Refused(NO_PLACE));
    };
    let Some(place) = place_in(text) else {
        return Err(GivenFault::Refused(why_no_place(text)));
    };
    Ok(String::from_str(alloc, place)?)
}

/// The place at which a text names a database; nothing where it names none.
fn place_in(text: &str) -> Option<&str>
    ensures place { IfSome result (λ place. NamesPlace text.now place.now) }
    ensures none { IfNone result ((place : Text) → NamesPlace text.now place → ⊥) }
{
    let Some(url) = text.strip_prefix(SCHEME) else {
        return checked(text);
    };
    let Some(place) = url.strip_suffix(PATH) else {
        return checked(url);
    };
    checked(place)
}

/// A text that is a place.
fn checked(text: &str) -> Option<&str>
    ensures place { IfSome result (λ place. (place.now ≡ text.now) × IsPlace text.now) }
    ensures none { IfNone result (IsPlace text.now → ⊥) }
{
    if !is_place(text) {
        return None;
    }
    Some(text)
}

/// Whether a text is a place.
fn is_place(text: &str) -> bool
    ensures { IsTrue result ↔ IsPlace text.now }
{
    has_no_path(text.as_bytes()) && (is_numeric(text) || is_named(text))
}

fn has_no_path(bytes: &[u8]) -> bool
    ensures { IsTrue result ↔ All (λ byte. byte ≢ 47) bytes.now }
{
    bytes.iter().all(|byte| *byte != b'/')
}

fn is_numeric(text: &str) -> bool
    ensures { IsTrue result ↔ IsNumeric text.now }
{
    text.parse::<SocketAddr>().is_ok()
}

/// Whether a text is the name of a host and a port.
fn is_named(text: &str) -> bool
    ensures { IsTrue result ↔ IsNamed text.now }
{
    let Some((host, port)) = text.split_once(':') else {
        return false;
    };
    is_name(host.as_bytes()) && number_in(port, 0, 65_535).is_some()
}

fn is_name(host: &[u8]) -> bool
    ensures { IsTrue result ↔ IsName host.now }
{
    !host.is_empty() && host.iter().all(|byte| is_name_byte(*byte))
}

fn is_name_byte(byte: u8) -> bool
    ensures { result ≡ is_name_byte byte }
{
    byte.is_ascii_alphanumeric() || byte == b'-' || byte == b'.' || byte == b'_'
}

/// What is said of a text that names no database at a place.
fn why_no_place(text: &str) -> &'static str {
    if text.starts_with("https:") {
        return NO_HTTPS;
    }
    if text.contains('@') {
        return NO_USER;
    }
    let place = text.strip_prefix(SCHEME).unwrap_or(text);
    if place.contains('/') && !place.contains("://") {
        return NO_PATH;
    }
    NO_PLACE
}
