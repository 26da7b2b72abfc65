//! JSON objects, written member by member.
ghost use Rattle.std.specs.Prelude.{◌≡◌, ◌++◌, ◌∷◌, [], ℕ, List, true, false, OnOk, string_bytes};
ghost use Rattle.json.specs.Print.{quoted};
ghost use Rattle.json_profile.specs.Joined.{bare_text};
ghost use Rattle.serde_json.specs.Data.{Members, member, no_members, string as string_data};
ghost use Rattle.serde_json.specs.View.{view};
ghost use Rattle.serde_json.specs.Written.{comma_if, has_float};
ghost use Rattle.document_json.specs.MembersText.{IsMembersAfter, Writes};

use crate::text::{put_comma, put_string, value_text};
use serde_json::Value;
use std::alloc::{AllocError, Global};
use std::marker::Model;

/// Members of an object that are in the text as soon as they are pushed.
#[derive(Drop)]
pub struct MembersText {
    text: String,
    has_members: bool,
}

impl Model for MembersText {
    ghost use Rattle.std.specs.Prelude.{string_bytes};
    ghost use Rattle.document_json.specs.MembersText.{MembersView};

    ghost Value = { MembersView };

    ghost view = { λ m. record { text = string_bytes m.text; has_members = m.has_members } };
}

impl MembersText {
    /// No member yet, behind what is in the text.
    pub fn after(text: String) -> MembersText
        ensures { IsMembersAfter (string_bytes text) result no_members }
    {
        MembersText {
            text,
            has_members: false,
        }
    }

    /// Writes one more member, whose value has no float.
    pub fn push(&mut self, alloc: Global, name: &str, value: &Value) -> Result<(), AllocError>
        requires { has_float (view value.now) ≡ false }
        ensures { OnOk result (Writes self.old self.new (member name.now (view value.now) no_members)) }
    {
        let value = value_text(alloc, value)?;
        self.push_name(alloc, name)?;
        self.text.push_str(value.as_str())?;
        Ok(())
    }

    /// Writes one more member, whose value is a string.
    pub fn push_string(&mut self, alloc: Global, name: &str, string: &str) -> Result<(), AllocError>
        ensures { OnOk result (Writes self.old self.new (member name.now (string_data string.now) no_members)) }
    {
        self.push_name(alloc, name)?;
        put_string(&mut self.text, alloc, string)?;
        Ok(())
    }

    /// Writes the name of one more member, and the colon.
    fn push_name(&mut self, alloc: Global, name: &str) -> Result<(), AllocError>
        ensures text { OnOk result (self.new.text
            ≡ ((self.old.text ++ comma_if self.old.has_members) ++ quoted name.now) ++ 58 ∷ []) }
        ensures later { OnOk result (self.new.has_members ≡ true) }
    {
        put_comma(&mut self.text, self.has_members)?;
        put_string(&mut self.text, alloc, name)?;
        self.text.push_str(":")?;
        self.has_members = true;
        Ok(())
    }

    /// The text with the members.
    pub fn finish(self) -> String
        ensures { (before : List ℕ) (members : Members) → IsMembersAfter before self members
            → string_bytes result ≡ before ++ bare_text false members }
    {
        self.text
    }
}
