//! Compaction in slices: a copy of a version's records, stripped, that follows later versions.
#![tactic(auto)]

mod compaction;
mod fault;
mod slices;
mod taking;

pub use compaction::Compaction;
pub use fault::CopyFault;
