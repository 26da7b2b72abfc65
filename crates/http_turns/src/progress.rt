//! The rows of a feed.
ghost use Rattle.std.specs.Prelude.{◌≡◌, ◌≤◌, length, IfOk, string_bytes};
ghost use Rattle.std.specs.List.{flat_map};
ghost use Rattle.streams.specs.Counts.{CountsFailure};
ghost use Rattle.api_json.specs.Changes.{feed_line};
ghost use Rattle.http_turns.specs.ChangesWanted.{most_rows};
ghost use Rattle.http_turns.specs.FeedWritten.{WritesRows};

use api_json::feed_line;
use http_request::ChangesAsked;
use queries::Row;
use session_api::Following;
use std::alloc::{AllocError, Global};
use streams::{Failed, Sink, write_next};

/// The most rows that are written at once.
pub(crate) const AT_ONCE: usize = 100;

/// The most rows of a feed that has no limit.
const NO_LIMIT: u64 = 999_999_999_999_999_999;

/// What a feed has given, and how many more rows it is to give.
#[derive(Drop)]
pub(crate) struct Progress {
    pub(crate) following: Following,
    pub(crate) left: u64,
}

impl Progress {
    /// Gives the rows above `since` that are asked for, at most as many as the limit says where there is one. A limit of 0
    /// acts as 1.
    pub(crate) fn new(since: u64, changes: ChangesAsked) -> Progress
        ensures { result ≡ record {
          following = record { cursor = since; style = changes.style; ids = changes.ids };
          left = most_rows changes.limit;
        } }
    {
        let ChangesAsked {
            since: _,
            limit,
            style,
            feed: _,
            ids,
        } = changes;
        Progress {
            following: Following {
                cursor: since,
                style,
                ids,
            },
            left: most_rows(limit),
        }
    }
}

/// The most rows of a feed.
#[tactic(auto, unfolding(crate::specs::ChangesWanted::no_limit))]
fn most_rows(limit: Option<u64>) -> u64
    ensures { result ≡ most_rows limit }
{
    match limit {
        Some(limit) => limit.max(1),
        None => NO_LIMIT,
    }
}

/// Writes a line for each row, so many at once, and says whether all are written: out of memory for more of them it
/// stops.
pub(crate) fn write_rows<W: Sink>(
    alloc: Global,
    writer: &mut W,
    rows: &[Row],
) -> Result<bool, Failed>
    ensures written { WritesRows (W.taken writer.old) (W.taken writer.new) result rows.now }
    ensures failures { CountsFailure (W.failed_writes writer.old)
        (W.failed_writes writer.new) result }
{
    let mut at = 0;
    while at < rows.len() {
        let end = rows.len().min(at.saturating_add(AT_ONCE));
        let Ok(text) = lines(alloc, &rows[at..end]) else {
            return Ok(false);
        };
        let Ok(()) = write_next(writer, text.as_bytes()) else {
            return Err(Failed);
        };
        at = end;
    }
    Ok(true)
}

/// A line each.
fn lines(alloc: Global, rows: &[Row]) -> Result<String, AllocError>
    ensures { IfOk result (λ text. string_bytes text ≡ flat_map feed_line rows.now) }
{
    let mut text = String::new(alloc);
    for row in rows {
        let line = feed_line(alloc, row)?;
        text.push_str(line.as_str())?;
    }
    Ok(text)
}
