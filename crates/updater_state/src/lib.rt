//! What the updater does under its lock: it pops jobs into a batch, and publishes the batch or gives it up;
//! and it swaps in the copy of a compaction.
#![tactic(auto)]

mod answer;
mod caller;
mod draft;
mod fault;
mod gate;
mod locked;
mod naming;
mod outcome;
mod outcomes;
mod publication;
mod rounds;
mod swapping;
mod told;
mod trying;

pub use answer::{Answer, Filled};
pub use caller::Caller;
pub use fault::{PutFault, SwapFault};
pub use gate::{Gate, NoGate, Point};
pub use locked::Core;
pub use naming::Opening;
pub use outcome::{Outcome, OutcomeKind};
pub use told::Told;
pub use trying::Swapped;
