//! The text of the base that the first line of a later epoch's dump names.
//!
//! A base is read leniently, one item behind another. Who reads a line makes a version of what was found, writes its line again
//! and compares; `specs/` says the line byte by byte.
#![tactic(auto)]

mod base;
mod documents;
mod each;
mod lists;
mod locals;
mod purges;
mod revisions;
mod scan;
mod text;

pub use base::{put_base, read_base};
