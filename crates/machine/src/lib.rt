//! A machine of one thread on which every interleaving of sessions, updater and compactor runs: one
//! event after another, each as the definitions say.
#![tactic(auto)]

mod asking;
mod batches;
mod completed;
mod copied;
mod copying;
mod event;
mod looking;
mod machine;
mod record;
mod views;

pub use completed::Completed;
pub use event::Event;
pub use machine::Machine;
pub use record::{Record, run, run_after};
