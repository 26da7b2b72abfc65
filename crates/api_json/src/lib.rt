//! JSON of what is asked and answered about documents: rows, pages, differences, counts, replies,
//! opened revisions, the limit and lists of ids.
//!
//! A text is checked as a document's is. Each text is written once, into memory that it may be
//! refused; `specs/` says it byte by byte.
#![tactic(auto)]

mod all_docs;
mod bulk;
mod changes;
mod counts;
mod differences;
mod doc_ids;
mod frame;
mod limit;
mod list;
mod named_revisions;
mod numbers;
mod objects;
mod opened;
mod purge;
mod refusal;
mod reply;
mod text_list;

pub use all_docs::{all_docs_frame, all_docs_len, all_docs_text, listed_text};
pub use bulk::{edits_text, merges_text};
pub use changes::{feed_line, page_frame, page_len, page_text, row_text};
pub use counts::counts_text;
pub use differences::differences_text;
pub use doc_ids::read_doc_ids;
pub use frame::Frame;
pub use limit::{number_text, read_limit};
pub use list::append_list;
pub use named_revisions::read_named_revisions;
pub use opened::{all_opened_len, all_opened_text, opened_len, opened_text};
pub use purge::{append_named_revisions, purged_text, read_purge};
pub use reply::{local_written_text, written_text};
pub use text_list::{read_revisions, read_text_list, take_texts};
