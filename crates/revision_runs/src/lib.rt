//! The runs of a document's revisions: longest chains of revisions with no fork inside, each with the leaf that is nearest below it.
#![tactic(auto)]

mod climb;
mod deep;
mod foot;
mod hung;
mod keys;
mod known;
mod links;
mod roots;
mod run;
mod runs;
mod unlinks;

pub use links::{linked_inside, linked_to_fork, linked_to_leaf};
pub use roots::{cleared, dropped, extended, rooted};
pub use run::Run;
pub use runs::Runs;
pub use unlinks::unlinked;
