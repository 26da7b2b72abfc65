//! The head of a response, which takes no memory.
ghost use Rattle.std.specs.Prelude.{◌≡◌, ◌++◌, ◌+◌, ◌*◌, ◌≤◌, length, decimal};
ghost use Rattle.std.specs.List.{flat_map};
ghost use Rattle.arrayvec.specs.ArrayString.{array_string_len};
ghost use Rattle.http_response.specs.declared.head.TheConstants.{HEAD_ROOM};
ghost use Rattle.http_response.specs.Response.{allow_line, head_text, listed, next_listed};

use crate::connection::Connection;
use crate::status::StatusCode;
use arrayvec::ArrayString;
use http_routing::{Method, Route};
use itoa::Buffer;

/// Room for any head.
pub(crate) const HEAD_ROOM: usize = 224;

/// Whether a response lists the methods of a route.
#[derive(Clone, Copy, Debug, PartialEq, Eq)]
pub(crate) enum Allow {
    Unsaid,
    Methods(Route),
}

/// What the head of a response says.
#[derive(Drop)]
pub(crate) struct Head {
    pub(crate) status: StatusCode,
    /// The length of the body, also of one that is left out.
    pub(crate) len: usize,
    pub(crate) place: u64,
    pub(crate) allow: Allow,
    pub(crate) connection: Connection,
}

/// Writes a head.
pub(crate) fn push_head<const ROOM: usize>(text: &mut ArrayString<ROOM>, head: &Head)
    requires { array_string_len text.old + HEAD_ROOM ≤ ROOM }
    ensures text { text.new.bytes ≡ text.old.bytes
        ++ head_text head.now.status head.now.len head.now.place head.now.allow head.now.connection }
    ensures short { array_string_len text.new ≤ array_string_len text.old + HEAD_ROOM }
{
    text.push_str("HTTP/1.1 ");
    text.push_str(head.status.text());
    text.push_str("\r\nContent-Type: application/json\r\nContent-Length: ");
    push_number(text, head.len as u64);
    text.push_str("\r\nCouch-Place: ");
    push_number(text, head.place);
    text.push_str("\r\n");
    push_allow(text, head.allow);
    text.push_str(head.connection.line());
    text.push_str("\r\n");
}

/// Writes a number, of at most 20 digits.
pub(crate) fn push_number<const ROOM: usize>(text: &mut ArrayString<ROOM>, number: u64)
    requires { array_string_len text.old + 20 ≤ ROOM }
    ensures digits { text.new.bytes ≡ text.old.bytes ++ decimal number }
    ensures short { array_string_len text.new ≤ array_string_len text.old + 20 }
{
    let mut digits = Buffer::new();
    text.push_str(digits.format(number));
}

/// Writes the line of the methods, if there is one.
#[tactic(auto, using(crate::proofs::Heads::few_methods))]
fn push_allow<const ROOM: usize>(head: &mut ArrayString<ROOM>, allow: Allow)
    requires { array_string_len head.old + 33 ≤ ROOM }
    ensures line { head.new.bytes ≡ head.old.bytes ++ allow_line allow }
    ensures short { array_string_len head.new ≤ array_string_len head.old + 33 }
{
    let Allow::Methods(route) = allow else {
        return;
    };
    head.push_str("Allow: ");
    push_methods(head, route.methods());
    head.push_str("\r\n");
}

/// Writes the names of methods, of at most 8 bytes each with what is between them.
#[tactic(auto, using(crate::proofs::Heads::short_name))]
fn push_methods<const ROOM: usize>(head: &mut ArrayString<ROOM>, methods: &[Method])
    requires { array_string_len head.old + 8 * length methods.now ≤ ROOM }
    ensures names { head.new.bytes ≡ head.old.bytes ++ listed methods.now }
    ensures short { array_string_len head.new ≤ array_string_len head.old + 8 * length methods.now }
{
    let [first, more @ ..] = methods else {
        return;
    };
    head.push_str(first.name());
    push_more(head, more);
}

/// Writes the names of more methods, each behind another.
#[tactic(auto, using(crate::proofs::Heads::short_name))]
fn push_more<const ROOM: usize>(head: &mut ArrayString<ROOM>, methods: &[Method])
    requires { array_string_len head.old + 8 * length methods.now ≤ ROOM }
    ensures names { head.new.bytes ≡ head.old.bytes ++ flat_map next_listed methods.now }
    ensures short { array_string_len head.new ≤ array_string_len head.old + 8 * length methods.now }
{
    for method in methods {
        head.push_str(", ");
        head.push_str(method.name());
    }
}
