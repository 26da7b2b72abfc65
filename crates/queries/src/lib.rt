//! What is asked of a database as it stands and what it answers, as plain data: contracts see it as
//! the model's queries and answers.
#![tactic(auto)]

mod answer;
mod difference;
mod document;
mod options;
mod page;
mod query;

pub use answer::{Answer, AnswerKind};
pub use difference::{Difference, Differences};
pub use document::Document;
pub use options::Options;
pub use page::{ChangesPage, Counts, Row};
pub use query::{Query, QueryKind};
