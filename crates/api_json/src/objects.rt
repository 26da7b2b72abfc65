//! JSON objects of named values, written member by member.
ghost use Rattle.std.specs.Prelude.{◌≡◌, ◌++◌, map, IfOk, OnOk, string_bytes};
ghost use Rattle.serde_json.specs.Data.{member, no_members, object};
ghost use Rattle.serde_json.specs.Written.{compact_text};
ghost use Rattle.document_json.specs.MembersText.{Writes};
ghost use Rattle.api_json.specs.Objects.{Named, members_from};

use document_json::MembersText;
use std::alloc::AllocError;

/// Writes an object behind a text: of each item the member that stands for it.
///
/// # Errors
///
/// Fails also where an item's member does.
pub(crate) fn append_object<X, F: Fn(&mut MembersText, &X) -> Result<(), AllocError> + Drop>(
    text: String,
    items: &[X],
    push: F,
) -> Result<String, AllocError>
    requires callable { F.IsAlwaysCallable push }
    ensures { (of : X → Named)
        → ((written : _) (item : _) (told : _) (longer : _) → F.post push written item told longer
        → OnOk told (Writes written.now longer.now (member (of item.now).0 (of item.now).1 no_members)))
        → IfOk result (λ longer. string_bytes longer
        ≡ string_bytes text ++ compact_text (object (members_from (map of items.now)))) }
{
    let mut text = text;
    text.push_str("{")?;
    let mut members = MembersText::after(text);
    for item in items {
        push(&mut members, item)?;
    }
    let mut text = members.finish();
    text.push_str("}")?;
    Ok(text)
}
