//! Reads of a version that no query makes, as texts.

use crate::replies::push_content;
use snapshots::Version;
use std::alloc::AllocError;
use std::test::Fail;

/// What a version says of itself: its content, how many entries it has, the number of a session's next call, whose call
/// is at a place, the changes above a number, or how many purges and updates lie above marks.
pub(crate) fn push_read(text: &mut String, version: &Version, words: &[&str]) -> Result<(), Fail> {
    match words {
        ["content"] => push_content(text, version)?,
        ["place"] => write!(text, "{}", version.place())?,
        ["next_call", session] => {
            write!(text, "{}", version.next_call(session.parse::<u16>()?))?
        }
        ["seat", place] => push_seat(text, version, place.parse::<u64>()?)?,
        ["changed_since", since] => push_changed(text, version, since.parse::<u64>()?)?,
        ["touched_since", updates, purges] => push_touched(
            text,
            version,
            updates.parse::<u64>()?,
            purges.parse::<u64>()?,
        )?,
        _ => return Err("a read".into()),
    }
    Ok(())
}

/// The session and the number of the call at a place.
fn push_seat(text: &mut String, version: &Version, place: u64) -> Result<(), AllocError> {
    match version.entry(place) {
        Some(entry) => write!(text, "{} {}", entry.seat.session(), entry.seat.call()),
        None => text.push_str("none"),
    }
}

/// How many documents changed above a number, and each with its number.
fn push_changed(text: &mut String, version: &Version, since: u64) -> Result<(), AllocError> {
    let database = version.database();
    write!(text, "{} ", database.count_changed_since(since))?;
    for (seq, (id, _)) in database.changed_since(since) {
        write!(text, "[{seq} {}]", id.as_str())?;
    }
    Ok(())
}

/// How many purges and updates lie above the marks, and how many purges of them are in the log.
fn push_touched(
    text: &mut String,
    version: &Version,
    updates: u64,
    purges: u64,
) -> Result<(), AllocError> {
    match version.touched_since(updates, purges) {
        Some(touched) => write!(text, "{touched}")?,
        None => text.push_str("overrun")?,
    }
    let logged = version.database().purges().count_above(purges);
    write!(text, ", {logged} logged")
}
