//! The dump of a history: a first line that says what it begins from, and a line for each entry.
#![tactic(auto)]

mod dumps;
mod first;

pub use dumps::dump_version;
pub use first::{first_line, read_first_line};
