//! A session of a database that many threads share: its calls, and what it has seen.
#![tactic(auto)]

mod ahead;
mod compacting;
mod copying;
mod ended;
mod fault;
mod mailboxes;
mod meeting;
mod receipt;
mod session;
mod shared;
mod snapshot;
mod waiting;
mod writing;

pub use ended::Ended;
pub use fault::Fault;
pub use receipt::Receipt;
pub use session::{Session, later_of};
pub use shared::Shared;
pub use snapshot::Snapshot;
