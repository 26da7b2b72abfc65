//! One replication from its beginning to its end, as a program runs it.
#![tactic(auto)]

mod asked;
mod counted;
mod large;
mod many;
mod naming;
mod reopened;
mod report;
mod run;
mod skipping;
mod watch;

pub use asked::{Asked, End};
pub use naming::checkpoint_id;
pub use reopened::{Opens, Reached};
pub use replicator_http::wait_for_changes;
pub use report::Report;
pub use run::run_replication;
pub use watch::Watch;
