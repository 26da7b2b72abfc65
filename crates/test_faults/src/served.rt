//! Connections over memory.

use crate::refusing::Refusing;
use http_turns::{Setting, serve};
use session_api::Unavailable;
use std::alloc::Global;
use std::test::Fail;
use streams::Stream;
use streams::scripted::{ScriptedReader, ScriptedWriter};

/// How often a wait for changes looks.
const TURNS: u64 = 1;

/// Serves a request, and writes down the response and how the connection ended.
pub(crate) fn tell(
    text: &mut String,
    alloc: Global,
    why: Unavailable,
    request: &str,
) -> Result<(), Fail> {
    let mut session = Refusing::new(alloc, why)?;
    let setting = Setting::new(alloc, &(), TURNS)?;
    let mut reader = Stream::new(ScriptedReader {
        rest: request.as_bytes(),
        script: &[],
    });
    let mut writer = Stream::new(ScriptedWriter {
        taken: Vec::new(alloc),
        script: &[],
    });
    let ended = serve(alloc, &mut reader, &mut writer, &mut session, &setting);
    let taken = writer.into_inner().taken;
    text.push_str(str::from_utf8(taken.as_slice())?)?;
    write!(text, "\n{} {:?}\n", ended.answered, ended.cause)?;
    Ok(())
}
