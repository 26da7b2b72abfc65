//! The tree of a document's revisions.
#![tactic(auto)]

mod decide;
mod growth;
mod leaf;
mod links;
mod marks;
mod members;
mod node;
mod noted;
mod noted_tree;
mod notes;
mod orphan;
mod place;
mod put;
mod rank;
mod rows;
mod search;
mod shorten;
mod strip;
mod tree;
mod trim;
mod walk;
mod whole;

pub use leaf::Leaf;
pub use node::Node;
pub use search::place_among;
pub use tree::RevTree;
pub use walk::Nodes;
