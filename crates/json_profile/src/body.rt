//! The body of a document.
ghost use Rattle.std.specs.Prelude.{◌≡◌, ◌↔◌, ◌≤◌, ◌<◌, ◌≢◌, ◌-◌, Some, true, false, IfOk, string_bytes, take, drop, ◌∷◌, ◌++◌};
ghost use Rattle.std.specs.Str.{IsCharBoundary};
ghost use Rattle.serde_json.specs.Data.{Members, no_members, object, depth as nesting};
ghost use Rattle.serde_json.specs.View.{members_view};
ghost use Rattle.serde_json.specs.Read.{max_depth, read};
ghost use Rattle.serde_json.specs.Written.{compact_text};
ghost use Rattle.model.specs.Body.{IsBody, body_text};
ghost use Rattle.model.specs.Profile.{max_body_nesting, members_whole};
ghost use Rattle.json_profile.specs.Joined.{bare_text, front_of, back_of, has_member, is_front, split_of};
ghost use Rattle.json_profile.specs.Profiled.{ArePlain};
ghost use Rattle.json_profile.specs.declared.fault.JsonFault.TheVariants.{Malformed, Number, Depth, NotAnObject};

use crate::fault::JsonFault;
use crate::measure::members_nest_within;
use serde_json::{Map, Value};
use std::alloc::{AllocError, Global};
use std::marker::Model;

/// The most arrays and objects round one another in a body.
const MAX_BODY_NESTING: u8 = 64;

/// The members of a document: no name begins with `_`, and the object nests at most
/// [`MAX_BODY_NESTING`] deep. They are kept as their compact text, and `{}` as no byte.
pub struct Body {
    text: String,
    split: usize,
}

impl Drop for Body {
    fn drop(self) {
        let Body { text: _, split: _ } = self;
    }
}

impl Model for Body {
    ghost use Rattle.std.specs.Prelude.{string_bytes};
    ghost use Rattle.serde_json.specs.Data.{Members};
    ghost use Rattle.model.specs.JsonCode.{coded_members};
    ghost use Rattle.json_profile.specs.Texts.{members_read, IsSplit};

    ghost Value = { Members };

    ghost coded = { coded_members };

    ghost view = { λ b. members_read (string_bytes b.text) };

    ghost invariant = { λ b. IsSplit b.split (string_bytes b.text) (members_read (string_bytes b.text)) };
}

impl Body {
    /// The body `{}`, which takes no memory.
    pub fn empty(alloc: Global) -> Body
        ensures { result ≡ no_members }
    {
        Body {
            text: String::new(alloc),
            split: 1,
        }
    }

    pub(crate) fn of_plain(alloc: Global, members: Map<String, Value>) -> Result<Body, JsonFault>
        requires { ArePlain (members_view members.entries) }
        ensures body { IfOk result (λ body. (body ≡ members_view members.entries)
            × (nesting (object body) ≤ max_body_nesting)) }
        ensures depth { result ≡ Err Depth
            → max_body_nesting < nesting (object (members_view members.entries)) }
        ensures of_members { (result ≢ Err Malformed) × (result ≢ Err Number) × (result ≢ Err NotAnObject) }
    {
        if members.is_empty() {
            return Ok(Body::empty(alloc));
        }
        if !members_nest_within(&members, MAX_BODY_NESTING - 1) {
            return Err(JsonFault::Depth);
        }
        let (mut text, split) = written(alloc, members)?;
        text.shrink_to_fit();
        Ok(Body { text, split })
    }

    /// The compact text.
    pub fn text(&self) -> &str
        ensures text { result.now ≡ body_text self.now }
        ensures reads_back { read result.now ≡ Some (object self.now) }
        ensures body { IsBody self.now }
    {
        if self.text.is_empty() {
            return "{}";
        }
        self.text.as_str()
    }

    /// Whether the two are one body. Takes no memory.
    pub fn is_same(&self, other: &Body) -> bool
        ensures { (result ≡ true) ↔ (self.now ≡ other.now) }
    {
        self.text.as_str() == other.text.as_str()
    }

    /// The part of the text with the members whose names come before `_`, with no bracket.
    pub fn front(&self) -> &str
        ensures { result.now ≡ bare_text false (front_of self.now) }
    {
        let text = self.text.as_str();
        if text.is_empty() {
            return "";
        }
        part(text, 1, self.split)
    }

    /// The part of the text with the other members, with no bracket. It begins with a comma where
    /// some are in front.
    pub fn back(&self) -> &str
        ensures { result.now ≡ bare_text (has_member (front_of self.now)) (back_of self.now) }
    {
        let text = self.text.as_str();
        if text.is_empty() {
            return "";
        }
        part(text, self.split, text.len() - 1)
    }
}

/// The compact text of an object of these members, and where special members go in it. Each member
/// is written once.
fn written(alloc: Global, members: Map<String, Value>) -> Result<(String, usize), AllocError>
    requires { ArePlain (members_view members.entries) }
    ensures text { IfOk result (λ written. string_bytes written.0 ≡ compact_text (object (members_view members.entries))) }
    ensures reads_back { IfOk result (λ written. nesting (object (members_view members.entries)) ≤ max_depth
        → read (string_bytes written.0) ≡ Some (object (members_view members.entries))) }
    ensures split { IfOk result (λ written. written.1 ≡ split_of (members_view members.entries)) }
{
    if !begins_in_front(&members) {
        return Ok((object_text(alloc, members)?, 1));
    }
    let mut front = members;
    let back = front.split_off("_")?;
    let front_text = object_text(alloc, front)?;
    let split = front_text.len() - 1;
    if back.is_empty() {
        return Ok((front_text, split));
    }
    let back_text = object_text(alloc, back)?;
    let text = with_members_behind(front_text, split, back_text.as_str())?;
    Ok((text, split))
}

/// Whether the first name comes before `_`: if not, no name does.
fn begins_in_front(members: &Map<String, Value>) -> bool
    ensures { result ≡ has_member (front_of (members_view members.now.entries)) }
{
    match members.first_key_value() {
        Some((name, _member)) => is_front(name.as_bytes()),
        None => false,
    }
}

fn is_front(name: &[u8]) -> bool
    ensures { result ≡ is_front name.now }
{
    match name {
        [first, ..] => *first < b'_',
        [] => true,
    }
}

/// The compact text of an object of these members.
fn object_text(alloc: Global, members: Map<String, Value>) -> Result<String, AllocError>
    requires { members_whole (members_view members.entries) ≡ true }
    ensures { IfOk result (λ text. string_bytes text ≡ compact_text (object (members_view members.entries))) }
{
    Value::Object(members).to_string(alloc)
}

/// The text of an object up to its last bracket, and the text of another behind a comma in place of
/// its first bracket.
fn with_members_behind(front: String, bracket: usize, back: &str) -> Result<String, AllocError>
    requires last { IsCharBoundary (string_bytes front) bracket }
    requires first { IsCharBoundary back.now 1 }
    ensures { IfOk result (λ text. string_bytes text ≡ take bracket (string_bytes front) ++ 44 ∷ drop 1 back.now) }
{
    let mut text = front;
    text.truncate(bracket);
    text.push_str(",")?;
    text.push_str(&back[1..])?;
    Ok(text)
}

fn part(text: &str, from: usize, to: usize) -> &str
    requires order { from ≤ to }
    requires start { IsCharBoundary text.now from }
    requires end { IsCharBoundary text.now to }
    ensures { result.now ≡ take (to - from) (drop from text.now) }
{
    &text[from..to]
}
