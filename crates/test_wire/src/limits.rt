//! Numbers within their limits, and digests.

use commands::{Config, Limits, Seat};
use document_id::{DocId, DocIds};
use md5::{Digest, Md5};
use replicator::Worker;
use std::alloc::Global;
use std::test::Fail;

/// The configuration of these numbers, or `none` where there is none.
pub(crate) fn config_told(alloc: Global, numbers: &[&str]) -> Result<String, Fail> {
    match Config::new(limits_of(numbers)?) {
        Some(config) => Ok(format!(in alloc; "{:?}", config.limits())?),
        None => Ok(String::from_str(alloc, "none")?),
    }
}

/// These numbers, in the order of the fields.
fn limits_of(numbers: &[&str]) -> Result<Limits, Fail> {
    let [sessions, queue, gather, slice, slack, tries, max_places] = numbers else {
        return Err("seven numbers".into());
    };
    Ok(Limits {
        sessions: sessions.parse::<u16>()?,
        queue: queue.parse::<u16>()?,
        gather: gather.parse::<u16>()?,
        slice: slice.parse::<u16>()?,
        slack: slack.parse::<u16>()?,
        tries: tries.parse::<u16>()?,
        max_places: max_places.parse::<u32>()?,
    })
}

/// The seat of a call of a session, or `none` where there is none.
pub(crate) fn seat_told(alloc: Global, session: &str, call: &str) -> Result<String, Fail> {
    match Seat::new(session.parse::<u16>()?, call.parse::<u64>()?) {
        Some(seat) => Ok(format!(in alloc; "{} {}", seat.session(), seat.call())?),
        None => Ok(String::from_str(alloc, "none")?),
    }
}

/// Which workers there are that ask for so many changes at once: one for all documents, one for some.
pub(crate) fn workers_told(alloc: Global, batch: &str) -> Result<String, Fail> {
    let batch = batch.parse::<u64>()?;
    let ids = DocIds::named(alloc, &["a"])?;
    let all = Worker::new(DocId::new(alloc, "r")?, batch).is_some();
    let some = Worker::filtered(DocId::new(alloc, "r")?, batch, ids).is_some();
    Ok(format!(in alloc; "{all} {some}")?)
}

/// The digest of a text.
pub(crate) fn digest_told(alloc: Global, text: &str) -> Result<String, Fail> {
    Ok(hex::encode(alloc, Md5::digest(text.as_bytes()))?)
}
