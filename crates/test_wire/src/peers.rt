//! The responses of a peer.

use crate::scripts::{json, steps};
use http_client::Incoming;
use std::alloc::Global;
use std::test::Fail;
use streams::scripted::{ScriptedReader, Step};
use streams::{Source, Stream};

/// The most responses that are read.
const MOST: u32 = 8;

/// Reads responses from a text that is written as JSON, and reports the status and the body of each, why
/// there are no more, how many reads failed, and how many bytes are left.
pub(crate) fn responses_read(alloc: Global, reading: &str, input: &str) -> Result<String, Fail> {
    let input = json(alloc, input)?;
    let reading = steps(alloc, reading)?;
    let bytes = input.as_str().ok_or("a text")?;
    let (mut text, failures, left) = read_text(alloc, reading.as_slice(), bytes)?;
    write!(text, " {failures} {left}")?;
    Ok(text)
}

/// Reads responses from a text that is written as JSON, whole and in two pieces at each cut, and reports at how
/// many cuts it reads the same, and what.
pub(crate) fn responses_however_cut(alloc: Global, input: &str) -> Result<String, Fail> {
    let input = json(alloc, input)?;
    let text = input.as_str().ok_or("a text")?;
    let (whole, _, _) = read_text(alloc, &[], text)?;
    let mut same: u64 = 0;
    for cut in 1..text.len() {
        let steps = [Step::AtMost(cut), Step::AtMost(text.len())];
        let (told, _, _) = read_text(alloc, &steps, text)?;
        if told == whole {
            same = same.saturating_add(1);
        }
    }
    Ok(format!(in alloc; "{same} {whole}")?)
}

/// The status and the body of each response and why there are no more, how many reads failed, and how many
/// bytes are left of those that have come.
fn read_text(alloc: Global, reading: &[Step], input: &str) -> Result<(String, u64, usize), Fail> {
    let mut reader = Stream::new(ScriptedReader {
        rest: input.as_bytes(),
        script: reading,
    });
    let mut incoming = Incoming::new(alloc);
    let mut text = String::new(alloc);
    for _ in 0..MOST {
        if !push_next(&mut text, &mut incoming, &mut reader)? {
            break;
        }
    }
    Ok((text, reader.failures(), incoming.bytes().len()))
}

/// Reads a response and reports it, or the fault; answers whether there was one.
fn push_next<R: Source>(
    text: &mut String,
    incoming: &mut Incoming,
    reader: &mut R,
) -> Result<bool, Fail> {
    match incoming.read_response(reader) {
        Ok(response) => {
            let body = str::from_utf8(response.body(incoming.bytes()))?;
            write!(text, "{} {body};", response.status)?;
            incoming.take(response.taken());
            Ok(true)
        }
        Err(fault) => {
            write!(text, "{fault:?}")?;
            Ok(false)
        }
    }
}
