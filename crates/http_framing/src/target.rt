//! Whether bytes end inside the target of a request line.
ghost use Rattle.std.specs.Prelude.{◌≡◌, ◌≤◌, ◌⊎◌, ◌↔◌, IsTrue, length, take, drop};
ghost use Rattle.std.specs.List.{list_all};
ghost use Rattle.httparse.specs.Grammar.{AllPass, EndsInTarget, is_uri_byte};
ghost use Rattle.httparse.specs.Pieces.{Stops};
ghost use Rattle.http_framing.specs.Target.{EndsAtSpace, is_other};

use httparse::spans::{EMPTY_HEADER_SPAN, parse_request};
use httparse::{Error, Status};

fn is_other(b: u8) -> bool
    ensures { result ≡ is_other b }
{
    b != b' '
}

/// How many bytes come before the first space.
fn len_before_space(bytes: &[u8]) -> usize
    ensures within { result ≤ length bytes.now }
    ensures others { AllPass is_other (take result bytes.now) }
    ensures ends { (result ≡ length bytes.now) ⊎ Stops is_other (drop result bytes.now) }
{
    for (len, b) in bytes.iter().enumerate() {
        if !is_other(*b) {
            return len;
        }
    }
    bytes.len()
}

fn is_uri_byte(b: u8) -> bool
    ensures { result ≡ is_uri_byte b }
{
    b > b' ' && b != 127
}

fn are_uri_bytes(bytes: &[u8]) -> bool
    ensures { result ≡ list_all is_uri_byte bytes.now }
{
    bytes.iter().all(|b| is_uri_byte(*b))
}

/// Whether bytes up to a space are empty lines and a method: then a head can follow them.
fn is_method(bytes: &[u8]) -> bool
    requires { EndsAtSpace bytes.now }
    ensures { IsTrue result ↔ EndsInTarget bytes.now }
{
    let mut headers = [EMPTY_HEADER_SPAN; 1];
    match parse_request(bytes, &mut headers) {
        Ok(Status::Complete(_head)) => true,
        Ok(Status::Partial) | Err(Error::TooManyHeaders) => true,
        Err(_) => false,
    }
}

/// Whether the bytes end inside a target, of which `httparse` says nothing before its end.
pub(crate) fn ends_in_target(bytes: &[u8]) -> bool
    ensures { IsTrue result ↔ EndsInTarget bytes.now }
{
    let len = len_before_space(bytes);
    if len == bytes.len() {
        return false;
    }
    if !are_uri_bytes(&bytes[len + 1..]) {
        return false;
    }
    is_method(&bytes[..len + 1])
}
