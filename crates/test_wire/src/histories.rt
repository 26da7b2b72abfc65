//! Lines of a history, and the commands that they are of.

use commands::{Command, Entry};
use history_json::{put_line, read_line};
use std::alloc::Global;
use std::test::Fail;

/// The line as it is written again, or `none` where it is none.
pub(crate) fn line_told(alloc: Global, line: &str) -> Result<String, Fail> {
    let Some(entry) = read_line(alloc, line.as_bytes())? else {
        return Ok(String::from_str(alloc, "none")?);
    };
    let mut text = String::new(alloc);
    put_line(&mut text, alloc, &entry)?;
    Ok(text)
}

/// The entry that a line is of.
pub(crate) fn entry_of(alloc: Global, line: &str) -> Result<Entry, Fail> {
    let Some(entry) = read_line(alloc, line.as_bytes())? else {
        return Err("no line of a history".into());
    };
    Ok(entry)
}

/// For the command of each line, which of the lines have the same one.
pub(crate) fn commands_told(alloc: Global, lines: &[&str]) -> Result<String, Fail> {
    let mut text = String::new(alloc);
    for line in lines {
        let entry = entry_of(alloc, line)?;
        push_same(&mut text, alloc, &entry.command, lines)?;
    }
    Ok(text)
}

/// A `=` for each line of the same command, and a `.` for each other.
fn push_same(
    text: &mut String,
    alloc: Global,
    command: &Command,
    lines: &[&str],
) -> Result<(), Fail> {
    for line in lines {
        let other = entry_of(alloc, line)?;
        text.push(sign(command.is_same(&other.command)))?;
    }
    Ok(())
}

fn sign(is_same: bool) -> char {
    if is_same { '=' } else { '.' }
}
