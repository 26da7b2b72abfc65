//! A shared list: it grows at its end, and each call that adds a value gives a new list, which
//! shares with the older one all that this one holds, and the older list stays as it was.
#![tactic(auto)]

mod list;
mod nodes;
mod spine;
mod tree;
mod values;

pub use list::SharedList;
pub use values::Values;
