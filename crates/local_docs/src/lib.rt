//! The local documents: each has the number of its last revision and a body, and is never
//! replicated.
#![tactic(auto)]

mod fault;
mod local;
mod locals;

pub use fault::LocalFault;
pub use local::LocalDoc;
pub use locals::Locals;
