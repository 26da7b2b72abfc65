//! A shared ordered map: each call that changes one key gives a new map, which shares with the
//! older one all that it did not change, and the older map stays as it was.
#![tactic(auto)]

mod look_up;
mod map;
mod nodes;
mod root;
mod shared;
mod sole;
mod tree;
mod walk;

pub use index_key::IndexKey;
pub use look_up::{LookUp, descend_each};
pub use map::CowMap;
pub use shared::Shared;
pub use walk::Range;
