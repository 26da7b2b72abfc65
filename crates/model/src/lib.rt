//! The definitions of the document store, and laws over them.
//!
//! The definitions are in `specs/`. A law is the contract of a public function with an empty body.
//! What a definition and code share, an enum with no values in it, is declared here once.
#![tactic(auto)]

mod absent;
pub mod bodies;
pub mod databases;
pub mod histories;
mod refusal;
mod status;
mod style;
pub mod trees;

pub use absent::Absent;
pub use refusal::Refusal;
pub use status::Status;
pub use style::Style;
