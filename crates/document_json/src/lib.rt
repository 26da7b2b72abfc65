//! JSON of documents: what a text says, or why it is not taken, and the text of each document.
//!
//! A text is checked from its bytes to its revisions: it is JSON, has the form that is asked for,
//! has no unknown special member, and its ids and revisions are such. Of a list each check is made
//! of all before the next. What is not taken leaves nothing behind. A document's text is that of its
//! body with the special members between; `specs/` says it byte by byte.
#![tactic(auto)]

mod bulk;
mod counter;
mod document;
mod fault;
mod identity;
mod lengths;
mod local;
mod members_text;
mod named;
mod number;
mod path;
mod revision;
mod revisions_value;
mod special;
mod text;
mod values;
mod written_document;
mod written_local;

pub use bulk::{read_bulk, read_told_merge};
pub use counter::name_counter;
pub use document::read_edit;
pub use fault::{Fault, Reason};
pub use identity::read_id;
pub use lengths::{document_len, list_len, merge_len, rev_len, sum_len};
pub use local::{local_id_text, read_local_edit};
pub use members_text::MembersText;
pub use number::from_one;
pub use revision::name_revision;
pub use revisions_value::revs_value;
pub use text::{put_comma, put_string, quoted_text, read_json, value_text};
pub use values::each;
pub use written_document::{document_text, merge_text};
pub use written_local::{counter_text, local_text};
