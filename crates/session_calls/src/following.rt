//! The rows of a feed that a version has.
ghost use Rattle.std.specs.Prelude.{◌≡◌, take, IfOk, OnErr};
ghost use Rattle.model.specs.Changes.{last_seq_of, rows_since, wanted_by};
ghost use Rattle.model.specs.History.{now};

use changes_feed::Follower;
use queries::Row;
use session_api::Following;
use snapshots::Version;
use std::alloc::{AllocError, Global};

/// The next rows of a feed: the first `limit` that the version has above its cursor, all where there are fewer. The cursor goes
/// to the last of them, and stays where memory is refused.
pub fn next_rows(
    alloc: Global,
    version: &Version,
    following: &mut Following,
    limit: u64,
) -> Result<Vec<Row>, AllocError>
    ensures rows { IfOk result (λ rows. rows.items ≡ take limit
        (rows_since (wanted_by following.old.ids) (now version.now) following.old.cursor following.old.style)) }
    ensures cursor { IfOk result (λ rows. following.new
        ≡ record following.old { cursor = last_seq_of following.old.cursor rows.items }) }
    ensures err { OnErr result (following.new ≡ following.old) }
{
    let mut follower = follower_of(&*following)?;
    let rows = follower.next(alloc, version, limit)?;
    following.cursor = follower.cursor();
    Ok(rows)
}

/// A follower that has come so far.
fn follower_of(following: &Following) -> Result<Follower, AllocError>
    ensures { IfOk result (λ follower. follower ≡ record {
      cursor = following.now.cursor;
      style = following.now.style;
      ids = following.now.ids;
    }) }
{
    let Following { cursor, style, ids } = following;
    match ids {
        Some(ids) => Ok(Follower::filtered(*cursor, *style, ids.share()?)),
        None => Ok(Follower::new(*cursor, *style)),
    }
}
