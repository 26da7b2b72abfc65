//! A replication between two servers.

use crate::client::Client;
use crate::ended::with_status;
use crate::ends::{Clients, Ends};
use crate::terms::{Unheard, terms};
use document_id::DocId;
use http_front::{MAX_PLACES, run_server};
use replicator::{MAX_BATCH, Progress, Worker};
use replicator_http::HttpPeer;
use std::alloc::Global;
use std::io::ErrorKind;
use std::net::TcpStream;
use std::sync::Wait;
use std::thread::Threads;
use std::time::Clock;
use std::{io, thread};
use streams::Stream;

/// Two paths of one document, which are in conflict.
const CONFLICT: &str = r#"{"docs":[
{"_id":"d","_revisions":{"start":2,"ids":["bbbbbbbbbbbbbbbbbbbbbbbbbbbbbbbb","aaaaaaaaaaaaaaaaaaaaaaaaaaaaaaaa"]}},
{"_id":"d","_revisions":{"start":2,"ids":["cccccccccccccccccccccccccccccccc","aaaaaaaaaaaaaaaaaaaaaaaaaaaaaaaa"]}}
],"new_edits":false}"#;

/// What shows all leaves of the document with their paths.
const LEAVES: &str = "/db/d?revs=true&open_revs=all";

const CHECKPOINT: &str = "/db/_local/r";

/// Serves two connections to each of two databases, and reports what the clients were answered.
pub(crate) fn told<R: AllocGlobal + Threads + Wait + Clock + Sync>(
    rt: &R,
    source: Ends,
    target: Ends,
) -> io::Result<String> {
    let Ends { entrance, clients } = source;
    let (told, status) = thread::join(
        rt,
        move || serve_target(rt, clients, target),
        || run_server(&entrance, 2, MAX_PLACES, terms(), &Unheard, rt),
    );
    with_status(told, status)
}

fn serve_target<R: AllocGlobal + Threads + Wait + Clock + Sync>(
    rt: &R,
    source: Clients,
    target: Ends,
) -> io::Result<String> {
    let Ends { entrance, clients } = target;
    let (told, status) = thread::join(
        rt,
        move || replicate(rt.alloc(), source, clients),
        || run_server(&entrance, 2, MAX_PLACES, terms(), &Unheard, rt),
    );
    with_status(told, status)
}

/// Makes a conflict on the source, and replicates twice.
fn replicate(alloc: Global, source: Clients, target: Clients) -> io::Result<String> {
    let mut at_source = Client::new(alloc, &source.first)?;
    let mut at_target = Client::new(alloc, &target.first)?;
    let mut told = String::new(alloc);
    at_source.ask(&mut told, "POST", "/db/_bulk_docs", CONFLICT)?;
    for _run in 0..2 {
        told.push_str(run(alloc, &source.second, &target.second)?)?;
        tell_ends(&mut told, &mut at_source, &mut at_target)?;
    }
    Ok(told)
}

/// Replicates over two connections, and answers how it ended.
fn run(alloc: Global, source: &TcpStream, target: &TcpStream) -> io::Result<&'static str> {
    let Ok(id) = DocId::new(alloc, "r") else {
        return Err(io::Error::from(ErrorKind::OutOfMemory));
    };
    let Some(mut worker) = Worker::new(id, MAX_BATCH) else {
        return Err(io::Error::from(ErrorKind::InvalidInput));
    };
    let mut source = HttpPeer::new(
        alloc,
        String::from_str(alloc, "source")?,
        false,
        Stream::new(source),
        Stream::new(source),
    );
    let mut target = HttpPeer::new(
        alloc,
        String::from_str(alloc, "target")?,
        false,
        Stream::new(target),
        Stream::new(target),
    );
    match worker.run(alloc, &mut source, &mut target, u64::MAX) {
        Ok(Progress::Done) => Ok("replicated\n"),
        Ok(Progress::Going | Progress::Checkpoint(_)) => Ok("not replicated\n"),
        Err(_) => Ok("an end failed\n"),
    }
}

/// Reports the leaves at the target, and the checkpoints at both ends. The places show how many entries each
/// end has.
fn tell_ends(
    told: &mut String,
    source: &mut Client<'_>,
    target: &mut Client<'_>,
) -> io::Result<()> {
    target.ask(told, "GET", LEAVES, "")?;
    target.ask(told, "GET", CHECKPOINT, "")?;
    source.ask(told, "GET", CHECKPOINT, "")
}
