//! Ids of documents.
#![tactic(auto)]

mod fault;
mod id;
mod ids;
mod rising;
mod text;

pub use fault::IdFault;
pub use id::DocId;
pub use ids::DocIds;
pub use rising::ids_rise;
