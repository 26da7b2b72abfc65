//! The answers of queries over a version of the database.
#![tactic(auto)]

mod answered;
mod claims;
mod difference;
mod document;
mod follower;
mod found;
mod leaves;
mod once;
mod opened;
mod opening;
mod page;
mod reads;

pub use answered::answer;
pub use difference::revs_diff;
pub use follower::Follower;
pub use found::get;
pub use opened::open_revs;
pub use opening::Opening;
pub use page::{changes, changes_among, count_wanted};
pub use reads::{all_docs, info, local_get, purged_infos_limit, revs_limit};
