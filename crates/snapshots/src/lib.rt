//! Versions of the database: each is what its history of answered commands makes of a base.
#![tactic(auto)]

mod base;
mod database;
mod record;
mod records;
mod version;
mod written;

pub use database::{Database, DatabaseParts};
pub use record::Record;
pub use records::Records;
pub use version::Version;
