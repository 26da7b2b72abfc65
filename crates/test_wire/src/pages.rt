//! Connections whose requests a policy decides.
ghost use Rattle.std.specs.Prelude.{◌≡◌, ◌++◌, IfOk, codes};
ghost use Rattle.streams.specs.Counts.{CountsFailure};
ghost use Rattle.streams.specs.Writes.{Writes};

use crate::scripts::{json, steps};
use http_connection::{Service, Window};
use http_framing::FramingFault;
use http_framing::request::Request;
use http_guard::{Notes, serve};
use origin_policy::{Allowed, Policy};
use std::alloc::{AllocError, Global};
use std::test::Fail;
use std::time::Instant;
use streams::scripted::{ScriptedReader, ScriptedWriter, Step};
use streams::{Failed, Sink, Source, Stream, write_all, write_both};

/// Answers each request by a line and its target.
#[derive(Drop)]
struct Answering;

impl Service<()> for Answering {
    ghost answers = { λ _ _ _ _. Unit {0} };

    fn answer<W: Sink>(
        &mut self,
        _context: &(),
        request: &Request<'_>,
        writer: &mut W,
    ) -> Result<bool, Failed> {
        write_text(writer, request.target(), request.closes())
    }

    fn refuse<W: Sink>(
        &mut self,
        _context: &(),
        _fault: FramingFault,
        writer: &mut W,
    ) -> Result<(), Failed> {
        write_all(writer, b"refused")
    }
}

/// Writes a line and a text, and passes on whether the connection closes after it.
///
/// # Errors
///
/// A write failed. A beginning of both may have been written.
fn write_text<W: Sink>(writer: &mut W, text: &str, closes: bool) -> Result<bool, Failed>
    ensures written { Writes (W.taken writer.old) (W.taken writer.new) result (codes "HTTP/1.1 200 OK\n" ++ text.now) }
    ensures closes { IfOk result (λ c. c ≡ closes) }
    ensures failures { CountsFailure (W.failed_writes writer.old)
        (W.failed_writes writer.new) result }
{
    write_both(writer, "HTTP/1.1 200 OK\n", text)?;
    Ok(closes)
}

/// Hears nothing.
#[derive(Drop)]
struct Unheard;

impl Notes for Unheard {
    fn begin(&self) -> Option<Instant> {
        None
    }

    fn end(&self, _began: Option<Instant>, _request: &Request<'_>) {}
}

/// Serves a text that is written as JSON, by a policy whose lists are given, `*` for all, and reports how many requests were answered and
/// why it ended, how many writes failed, and what was written.
pub(crate) fn guarded(
    alloc: Global,
    origins: &str,
    hosts: &str,
    writing: &str,
    input: &str,
) -> Result<String, Fail> {
    let input = json(alloc, input)?;
    let writing = steps(alloc, writing)?;
    let text = input.as_str().ok_or("a text")?;
    let policy = Policy {
        origins: allowed(alloc, origins)?,
        hosts: allowed(alloc, hosts)?,
    };
    serve_text(alloc, &policy, writing.as_slice(), text)
}

fn allowed(alloc: Global, list: &str) -> Result<Allowed, AllocError> {
    if list == "*" {
        return Ok(Allowed::All);
    }
    let mut texts = Vec::new(alloc);
    for text in list.split(',') {
        texts.push(String::from_str(alloc, text)?)?;
    }
    Ok(Allowed::Only(texts))
}

fn serve_text(
    alloc: Global,
    policy: &Policy,
    writing: &[Step],
    input: &str,
) -> Result<String, Fail> {
    let mut window = Window::new(alloc)?;
    let mut reader = Stream::new(ScriptedReader {
        rest: input.as_bytes(),
        script: &[],
    });
    let writer = Stream::new(ScriptedWriter {
        taken: Vec::new(alloc),
        script: writing,
    });
    let (ended, writer) = serve(
        &mut window,
        &mut reader,
        writer,
        &mut Answering,
        &(),
        policy,
        &Unheard,
    );
    let failed = Sink::failures(&writer);
    let taken = writer.into_inner().taken;
    let text = str::from_utf8(taken.as_slice())?;
    Ok(format!(in alloc; "{} {:?} {failed} {text:?}", ended.answered, ended.cause)?)
}
