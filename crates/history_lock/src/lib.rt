//! One database for many threads: how its sessions are made, and how it ends. What its callers need of the crates below
//! comes with it.
#![tactic(auto)]

mod closed;
mod closing;
mod ends;
mod fault;
mod master;
mod opened;
mod opening;

pub use closed::Closed;
pub use fault::SuccessorFault;
pub use master::Master;
pub use opened::Opened;
pub use opening::open;
pub use sessions::{Fault, Receipt, Session, Snapshot};
pub use updater_state::{Core, Gate, NoGate, Opening, Point};
