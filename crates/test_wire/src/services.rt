//! Connections of a service that echoes targets.
ghost use Rattle.std.specs.Prelude.{◌≡◌, IfOk};
ghost use Rattle.streams.specs.Counts.{CountsFailure};
ghost use Rattle.streams.specs.Writes.{Writes};

use crate::scripts::{json, steps};
use http_connection::{Service, Window, serve};
use http_framing::FramingFault;
use http_framing::request::Request;
use std::alloc::Global;
use std::test::Fail;
use streams::scripted::{ScriptedReader, ScriptedWriter, Step};
use streams::{Failed, Sink, Source, Stream, write_all};

/// Answers each request by its target.
#[derive(Drop)]
struct Echo;

impl Service<()> for Echo {
    ghost answers = { λ _ _ _ _. Unit {0} };

    fn answer<W: Sink>(
        &mut self,
        _context: &(),
        request: &Request<'_>,
        writer: &mut W,
    ) -> Result<bool, Failed> {
        write_text(writer, request.target(), request.closes())
    }

    fn refuse<W: Sink>(
        &mut self,
        _context: &(),
        _fault: FramingFault,
        writer: &mut W,
    ) -> Result<(), Failed> {
        write_all(writer, b"refused")
    }
}

/// Writes a text, and passes on whether the connection closes after it.
///
/// # Errors
///
/// A write failed. A beginning of the text may have been written.
fn write_text<W: Sink>(writer: &mut W, text: &str, closes: bool) -> Result<bool, Failed>
    ensures written { Writes (W.taken writer.old) (W.taken writer.new) result text.now }
    ensures closes { IfOk result (λ c. c ≡ closes) }
    ensures failures { CountsFailure (W.failed_writes writer.old)
        (W.failed_writes writer.new) result }
{
    write_all(writer, text.as_bytes())?;
    Ok(closes)
}

/// Serves a text that is written as JSON, and reports how many requests were answered and why it ended,
/// how many reads and writes failed, and what was written.
pub(crate) fn served(
    alloc: Global,
    reading: &str,
    writing: &str,
    input: &str,
) -> Result<String, Fail> {
    let input = json(alloc, input)?;
    let reading = steps(alloc, reading)?;
    let writing = steps(alloc, writing)?;
    let text = input.as_str().ok_or("a text")?;
    serve_text(alloc, reading.as_slice(), writing.as_slice(), text)
}

fn serve_text(
    alloc: Global,
    reading: &[Step],
    writing: &[Step],
    input: &str,
) -> Result<String, Fail> {
    let mut window = Window::new(alloc)?;
    let mut reader = Stream::new(ScriptedReader {
        rest: input.as_bytes(),
        script: reading,
    });
    let mut writer = Stream::new(ScriptedWriter {
        taken: Vec::new(alloc),
        script: writing,
    });
    let ended = serve(&mut window, &mut reader, &mut writer, &mut Echo, &());
    let failed = (reader.failures(), Sink::failures(&writer));
    let taken = writer.into_inner().taken;
    let text = str::from_utf8(taken.as_slice())?;
    Ok(format!(in alloc; "{} {:?} {failed:?} {text}", ended.answered, ended.cause)?)
}
