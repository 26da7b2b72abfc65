//! An object that is taken apart.
ghost use Rattle.std.specs.Prelude.{◌≡◌, ◌≤◌, ◌<◌, ◌≢◌, map, IfOk};
ghost use Rattle.serde_json.specs.Data.{Members, object, depth as nesting};
ghost use Rattle.serde_json.specs.Find.{get_member};
ghost use Rattle.serde_json.specs.View.{members_of, members_view};
ghost use Rattle.model.specs.Profile.{without_specials, max_body_nesting};
ghost use Rattle.json_profile.specs.Objects.{without, has_special as some_special};
ghost use Rattle.json_profile.specs.Profiled.{IsProfiled};
ghost use Rattle.json_profile.specs.declared.fault.JsonFault.TheVariants.{Malformed, Number, Depth, NotAnObject};

use crate::body::Body;
use crate::fault::JsonFault;
use crate::members::{drop_specials, has_special, take};
use crate::value::Json;
use serde_json::{Map, Value};
use std::alloc::{AllocError, Global};
use std::marker::Model;

/// The members of a JSON object, which go out one by one or all into a body.
#[derive(Drop)]
pub struct Object {
    members: Map<String, Value>,
}

impl Model for Object {
    ghost use Rattle.serde_json.specs.Data.{Members, object};
    ghost use Rattle.serde_json.specs.View.{members_view};
    ghost use Rattle.model.specs.JsonCode.{coded_members};
    ghost use Rattle.json_profile.specs.Profiled.{IsProfiled};

    ghost Value = { Members };

    ghost coded = { coded_members };

    ghost view = { λ o. members_view o.members.entries };

    ghost invariant = { λ o. IsProfiled (object (members_view o.members.entries)) };
}

/// A name and what is under it.
#[derive(Drop)]
pub struct Member {
    pub name: String,
    pub value: Json,
}

impl Object {
    pub(crate) fn of_members(members: Map<String, Value>) -> Object
        requires { IsProfiled (object (members_view members.entries)) }
        ensures { result ≡ members_view members.entries }
    {
        Object { members }
    }

    /// Takes the member of this name out.
    pub fn take(&mut self, name: &str) -> Option<Json>
        ensures taken { result ≡ get_member name.now self.old }
        ensures left { self.new ≡ without name.now self.old }
    {
        let value = take(&mut self.members, name)?;
        Some(Json::of_value(value))
    }

    /// Whether the name of some member begins with `_`.
    pub fn has_special(&self) -> bool
        ensures special { result ≡ some_special self.now }
        ensures profiled { IsProfiled (object self.now) }
    {
        has_special(&self.members)
    }

    /// The body that the members are, without those that are special. Fails where it nests more
    /// than 64 deep.
    pub fn into_body(self, alloc: Global) -> Result<Body, JsonFault>
        ensures body { IfOk result (λ body. (body ≡ without_specials self)
            × (nesting (object body) ≤ max_body_nesting)) }
        ensures depth { result ≡ Err Depth
            → max_body_nesting < nesting (object (without_specials self)) }
        ensures of_members { (result ≢ Err Malformed) × (result ≢ Err Number) × (result ≢ Err NotAnObject) }
    {
        let Object { mut members } = self;
        drop_specials(&mut members);
        Body::of_plain(alloc, members)
    }

    /// The members in the order of their names.
    pub fn into_members(self, alloc: Global) -> Result<Vec<Member>, AllocError>
        ensures { IfOk result (λ list. members_of (map (λ m. (m.name, m.value)) list.items) ≡ self) }
    {
        let mut list = Vec::with_capacity(alloc, self.members.len())?;
        for (name, value) in self.members {
            let value = Json::of_value(value);
            list.push(Member { name, value })?;
        }
        Ok(list)
    }
}
