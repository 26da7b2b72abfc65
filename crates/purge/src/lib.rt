//! Purges: what a document loses and what is left of it, and the log of the newest purges.
#![tactic(auto)]

mod cuts;
mod log;
mod newest;
mod purged;

pub use cuts::cut_document;
pub use log::PurgeLog;
pub use purged::Purged;
