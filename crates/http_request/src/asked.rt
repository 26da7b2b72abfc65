//! What can be asked.

use crate::changes::ChangesAsked;
use commands::Command;
use queries::Query;

/// What a request asks.
#[derive(Drop)]
pub enum Asked {
    /// `GET /`
    Welcome,
    /// To change the database. The reply is given in this form.
    Command(Form, Command),
    /// To read the database.
    Query(Query),
    /// To read the changes, or to follow them.
    Changes(ChangesAsked),
}

/// How the reply to a command is given.
#[derive(Clone, Copy, Debug, PartialEq, Eq)]
pub enum Form {
    /// As that of a write of one document.
    Put,
    /// As that of a deletion of one document.
    Delete,
    /// As the command is: of a bulk as a list.
    Whole,
}
