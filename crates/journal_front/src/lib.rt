//! A server whose history a journal keeps.
//!
//! The journal of an epoch and a session that sees what is to be appended to it lie under a pen. Who has written takes the pen, and
//! appends all that is new in one write before the answer; where that is awaited one sync makes it durable. The keeper, on a
//! thread of its own, does what time brings: the sync of each second, the next epoch once the history is full, the journal anew once it
//! is broken, and the last pass.
#![tactic(auto)]

mod appending;
mod closing;
mod completing;
mod epochs;
mod journaled;
mod keeper;
mod mending;
mod naming;
mod notices;
mod pen;
mod policy;
mod retry;
mod server;
mod service;
mod serving;
mod waiting;

pub use epochs::{Epoch, Epochs};
pub use notices::Notices;
pub use policy::SyncPolicy;
pub use server::run_kept;
pub use service::Service;
