//! A follower of the changes feed, over versions that come one after another, in one epoch or in several.
ghost use Rattle.std.specs.Prelude.{◌≡◌, None, Some, IfOk, OnErr, length, take};
ghost use Rattle.model.specs.History.{now};
ghost use Rattle.model.specs.Changes.{last_seq_of, rows_since, wanted_by};
ghost use Rattle.changes_feed.specs.Followed.{KeepsRight};

use crate::page::{count_wanted, last_seq, wanted_rows};
use document_id::DocIds;
use model::Style;
use model::histories::feeds_stay_right;
use queries::Row;
use snapshots::Version;
use std::alloc::{AllocError, Global};
use std::marker::Model;

/// Takes the rows of a feed in turn, each version's above those that it has taken: of all documents, or of some. Its cursor stays
/// good where a version is of a later epoch.
pub struct Follower {
    cursor: u64,
    style: Style,
    ids: Option<DocIds>,
}

impl Drop for Follower {
    fn drop(self) {
        let Follower {
            cursor: _,
            style: _,
            ids: _,
        } = self;
    }
}

impl Model for Follower {
    ghost use Rattle.changes_feed.specs.Followed.{Following};

    ghost Value = { Following };

    ghost view = { λ f. record { cursor = f.cursor; style = f.style; ids = f.ids } };
}

impl Follower {
    /// A follower of the changes above `since`.
    pub fn new(since: u64, style: Style) -> Follower
        ensures follower { result ≡ record { cursor = since; style = style; ids = None } }
    {
        Follower {
            cursor: since,
            style,
            ids: None,
        }
    }

    /// A follower of the changes of some documents above `since`.
    pub fn filtered(since: u64, style: Style, ids: DocIds) -> Follower
        ensures follower { result ≡ record { cursor = since; style = style; ids = Some ids } }
    {
        Follower {
            cursor: since,
            style,
            ids: Some(ids),
        }
    }

    /// The number of the last row taken, or the one that the follower was made with.
    pub fn cursor(&self) -> u64
        ensures cursor { result ≡ self.now.cursor }
    {
        self.cursor
    }

    /// The documents that it follows, where it is not all of them.
    pub fn ids(&self) -> &Option<DocIds>
        ensures ids { result.now ≡ self.now.ids }
    {
        &self.ids
    }

    /// How many rows are above the cursor.
    pub fn pending(&self, version: &Version) -> u64
        ensures pending { result
            ≡ length (rows_since (wanted_by self.now.ids) (now version.now) self.now.cursor self.now.style) }
    {
        count_wanted(version, self.cursor, &self.ids)
    }

    /// The first `limit` rows above the cursor, all where there are fewer. The cursor goes to the
    /// last of them, and stays where memory is refused.
    pub fn next(
        &mut self,
        alloc: Global,
        version: &Version,
        limit: u64,
    ) -> Result<Vec<Row>, AllocError>
        ensures rows { IfOk result (λ rows. rows.items
            ≡ take limit (rows_since (wanted_by self.old.ids) (now version.now) self.old.cursor self.old.style)) }
        ensures cursor { IfOk result (λ rows. self.new ≡ record self.old { cursor = last_seq_of self.old.cursor rows.items }) }
        ensures right { IfOk result (λ rows. KeepsRight self.old rows.items self.new.cursor version.now) }
        ensures err { OnErr result (self.new ≡ self.old) }
    {
        feeds_stay_right();
        let rows = wanted_rows(alloc, version, self.cursor, limit, self.style, &self.ids)?;
        self.cursor = last_seq(&rows, self.cursor);
        Ok(rows)
    }
}
