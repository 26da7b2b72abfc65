//! The audit of a dump.
//!
//! A dump is a text: a first line that says what the history begins from, and a line for each entry. Whoever has it can
//! say whether the history in it is legal, without asking the database that wrote it.
#![tactic(auto)]

mod audit;
mod input;
mod judge;
mod lines;
mod next_base;
mod read;
mod run;
mod successor;
mod verdict;

pub use audit::check;
pub use next_base::run_base;
pub use read::read_entry;
pub use run::run_check;
pub use successor::{NoSuccessor, RAISE, base_after, raised_line, successor_line};
pub use verdict::Verdict;
