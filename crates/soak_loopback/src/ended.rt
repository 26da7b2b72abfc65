//! How a server or a database ended, behind what its clients were answered.

use std::io;

/// What clients were answered, and the exit status of their server.
pub(crate) fn with_status(told: io::Result<String>, status: u8) -> io::Result<String> {
    let mut told = told?;
    write!(told, "status {status}\n")?;
    Ok(told)
}

/// What was said of sessions, and how many of them were lost at the end.
pub(crate) fn with_lost(told: io::Result<String>, lost: &[u16]) -> io::Result<String> {
    let mut told = told?;
    write!(told, "{} lost\n", lost.len())?;
    Ok(told)
}
