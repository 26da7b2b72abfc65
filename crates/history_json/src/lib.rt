//! The line of an entry in a dump: its exact text, and the entry of such a text.
//!
//! A text is read exactly where it is the line of an entry that keeps the limits. So it is read
//! leniently, written again and compared; `specs/` says the line byte by byte.
#![tactic(auto)]

mod bodies;
mod bulk;
mod command;
mod compact;
mod edits;
mod limit;
mod line;
mod line_value;
mod local;
mod merges;
mod names;
mod number;
mod outcome;
mod purge;
mod reply;
mod seat;

pub use bodies::read_body;
pub use line::{put_line, read_line};
pub use line_value::{LineValue, put_list, read_list};
pub use local::{body_in, put_body};
pub use number::{number_in, small_number_in};
