//! The bounded queue of write jobs. A session has at most one job in it, and no job is lost or duplicated.
#![tactic(auto)]

mod consumer;
mod producer;
mod queue;
mod rule;
mod taken_count;

pub use consumer::Consumer;
pub use producer::Producer;
pub use queue::{Opened, Queue, Queued};
pub use taken_count::TakenCount;
