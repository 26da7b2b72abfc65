//! The calls of a peer over memory.

use crate::scripts::{json, steps};
use document_id::DocId;
use replicator::Peer;
use replicator_http::HttpPeer;
use revision_id::RevId;
use std::alloc::Global;
use std::test::Fail;
use streams::scripted::{ScriptedReader, ScriptedWriter, Step};
use streams::{Sink, Source, Stream};

/// Makes calls one after another of a peer whose responses are a text that is written as JSON, and reports
/// what each answers, how many reads, writes and calls failed, and what was written.
pub(crate) fn calls_told(
    alloc: Global,
    reading: &str,
    writing: &str,
    input: &str,
    calls: &[&str],
) -> Result<String, Fail> {
    let input = json(alloc, input)?;
    let reading = steps(alloc, reading)?;
    let writing = steps(alloc, writing)?;
    let text = input.as_str().ok_or("a text")?;
    make_calls(alloc, reading.as_slice(), writing.as_slice(), text, calls)
}

fn make_calls(
    alloc: Global,
    reading: &[Step],
    writing: &[Step],
    input: &str,
    calls: &[&str],
) -> Result<String, Fail> {
    let reader = Stream::new(ScriptedReader {
        rest: input.as_bytes(),
        script: reading,
    });
    let writer = Stream::new(ScriptedWriter {
        taken: Vec::new(alloc),
        script: writing,
    });
    let host = String::from_str(alloc, "db")?;
    let mut peer = HttpPeer::new(alloc, host, false, reader, writer);
    let mut text = String::new(alloc);
    for call in calls {
        push_call(alloc, &mut text, &mut peer, call)?;
    }
    let failed = peer.failures();
    let (reader, writer) = peer.into_parts();
    let failed = (reader.failures(), Sink::failures(&writer), failed);
    let taken = writer.into_inner().taken;
    write!(text, " {failed:?} {}", str::from_utf8(taken.as_slice())?)?;
    Ok(text)
}

/// Makes the call of these words, and reports what it answers.
fn push_call<P: Peer>(
    alloc: Global,
    text: &mut String,
    peer: &mut P,
    call: &str,
) -> Result<(), Fail> {
    let words: Vec<&str> = call.split(' ').collect(alloc)?;
    match words.as_slice() {
        ["changes", since, limit] => push_changes(alloc, text, peer, since, limit),
        ["open_revs", id, rev] => push_opened(alloc, text, peer, id, rev),
        ["local_get", id] => push_checkpoint(alloc, text, peer, id),
        _ => Err("no such call".into()),
    }
}

fn push_changes<P: Peer>(
    alloc: Global,
    text: &mut String,
    peer: &mut P,
    since: &str,
    limit: &str,
) -> Result<(), Fail> {
    match peer.changes(alloc, since.parse::<u64>()?, limit.parse::<u64>()?) {
        Ok(page) => write!(text, "{} rows to {};", page.rows.len(), page.last_seq)?,
        Err(fault) => write!(text, "{fault:?};")?,
    }
    Ok(())
}

fn push_opened<P: Peer>(
    alloc: Global,
    text: &mut String,
    peer: &mut P,
    id: &str,
    rev: &str,
) -> Result<(), Fail> {
    let id = DocId::new(alloc, id)?;
    let rev = RevId::parse(rev)?;
    match peer.open_revs(alloc, &id, &[rev]) {
        Ok(opened) => write!(text, "{} revisions;", opened.revisions.len())?,
        Err(fault) => write!(text, "{fault:?};")?,
    }
    Ok(())
}

fn push_checkpoint<P: Peer>(
    alloc: Global,
    text: &mut String,
    peer: &mut P,
    id: &str,
) -> Result<(), Fail> {
    let id = DocId::new(alloc, id)?;
    match peer.local_get(alloc, &id) {
        Ok(Some(checkpoint)) => write!(text, "0-{} {};", checkpoint.counter, checkpoint.last_seq)?,
        Ok(None) => write!(text, "none;")?,
        Err(fault) => write!(text, "{fault:?};")?,
    }
    Ok(())
}
