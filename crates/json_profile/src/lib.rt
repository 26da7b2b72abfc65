//! The JSON of the database: values whose numbers are whole numbers of `i64`, objects taken apart
//! member by member, and the bodies of documents.
#![tactic(auto)]

mod body;
mod fault;
mod measure;
mod members;
mod object;
mod value;

pub use body::Body;
pub use fault::JsonFault;
pub use object::{Member, Object};
pub use value::{Json, MAX_NESTING, read};
