//! Members that go out of an object: the special ones, whose names begin with `_`, and one by name.
ghost use Rattle.std.specs.Prelude.{◌≡◌, IfOk, option_map};
ghost use Rattle.serde_json.specs.Find.{get_member};
ghost use Rattle.serde_json.specs.View.{view, members_view};
ghost use Rattle.model.specs.Profile.{is_special as begins_with_underscore, without_specials};
ghost use Rattle.json_profile.specs.Objects.{without, has_special as some_special};

use serde_json::{Map, Value};
use std::alloc::{AllocError, Global};

pub(crate) fn is_special(name: &str) -> bool
    ensures { result ≡ begins_with_underscore name.now }
{
    matches!(name.as_bytes(), [b'_', ..])
}

pub(crate) fn has_special(members: &Map<String, Value>) -> bool
    ensures { result ≡ some_special (members_view members.now.entries) }
{
    for (name, _member) in members.iter() {
        if is_special(name.as_str()) {
            return true;
        }
    }
    false
}

/// Drops the special members, and moves none of the others.
pub(crate) fn drop_specials(members: &mut Map<String, Value>)
    ensures { members_view members.new.entries ≡ without_specials (members_view members.old.entries) }
{
    if !has_special(members) {
        return;
    }
    members.retain(|name, _member| !is_special(name.as_str()));
}

/// Copies the members that are not special.
pub(crate) fn copy_plain(
    alloc: Global,
    members: &Map<String, Value>,
) -> Result<Map<String, Value>, AllocError>
    ensures { IfOk result (λ kept. members_view kept.entries ≡ without_specials (members_view members.now.entries)) }
{
    let mut kept = Map::new(alloc);
    for (name, member) in members.iter() {
        if !is_special(name.as_str()) {
            let name = name.clone()?;
            drop(kept.insert(name, member.clone()?)?);
        }
    }
    Ok(kept)
}

pub(crate) fn take(members: &mut Map<String, Value>, name: &str) -> Option<Value>
    ensures taken { option_map view result ≡ get_member name.now (members_view members.old.entries) }
    ensures left { members_view members.new.entries ≡ without name.now (members_view members.old.entries) }
{
    members.remove(name)
}
