//! A body's text with special members in it, and none of the others copied.
ghost use Rattle.std.specs.Prelude.{◌≡◌, ◌==◌, ◌&&◌, not, length, true, IfOk, string_bytes};
ghost use Rattle.serde_json.specs.Data.{Members, no_members, object};
ghost use Rattle.serde_json.specs.Written.{compact_text};
ghost use Rattle.model.specs.Body.{IsBody};
ghost use Rattle.json_profile.specs.Joined.{between, has_member};
ghost use Rattle.document_json.specs.MembersText.{IsMembersAfter};
ghost use Rattle.document_json.specs.Written.{front_text};

use crate::members_text::MembersText;
use crate::text::put_comma;
use json_profile::Body;
use std::alloc::{AllocError, Global};

/// A body's text up to where its special members go, with room for so many bytes of them.
pub(crate) fn text_before(
    alloc: Global,
    body: &Body,
    room: usize,
) -> Result<MembersText, AllocError>
    ensures special { IfOk result (λ special. IsMembersAfter (front_text body.now) special no_members) }
    ensures body { IfOk result (λ _. IsBody body.now) }
{
    let room = body.text().len().saturating_add(room);
    let mut text = String::with_capacity(alloc, room)?;
    let front = body.front();
    text.push_str("{")?;
    text.push_str(front)?;
    put_comma(&mut text, !front.is_empty())?;
    Ok(MembersText::after(text))
}

/// The text of a body's members with the special ones between them, once those are written.
pub(crate) fn text_around(special: MembersText, body: &Body) -> Result<String, AllocError>
    ensures { IfOk result (λ text. (members : Members) → has_member members ≡ true
        → IsMembersAfter (front_text body.now) special members
        → string_bytes text ≡ compact_text (object (between body.now members))) }
{
    let mut text = special.finish();
    let (front, back) = (body.front(), body.back());
    put_comma(&mut text, stands_first(front, back))?;
    text.push_str(back)?;
    text.push_str("}")?;
    Ok(text)
}

/// Whether there is a back, and nothing in front.
fn stands_first(front: &str, back: &str) -> bool
    ensures { result ≡ ((length front.now == 0) && not (length back.now == 0)) }
{
    front.is_empty() && !back.is_empty()
}
