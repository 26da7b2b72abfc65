//! Requests whose bodies are written behind their heads, and aren't copied there.
ghost use Rattle.std.specs.Prelude.{◌++◌, string_bytes};

use std::marker::Model;

/// A request, as its head and its body. Clauses see its text.
#[derive(Drop)]
pub struct Apart {
    pub(crate) head: String,
    pub(crate) body: String,
}

impl Model for Apart {
    ghost use Rattle.std.specs.Prelude.{◌++◌, ℕ, List, string_bytes};

    ghost Value = { List ℕ };

    ghost view = { λ a. string_bytes a.head ++ string_bytes a.body };
}
