//! The steps of a run, each of which is reported and waited after.

use std::io::Read;

/// Prints what was done, and what is left of it.
pub(crate) fn tell(rt: &HostRuntime, done: &str, left: u64, visited: u64) -> Option<()> {
    println!(rt; "{done} {left} {visited}").ok()?;
    wait(rt)
}

/// Waits for a byte.
fn wait(rt: &HostRuntime) -> Option<()> {
    let mut byte = [0];
    match rt.reader().read(&mut byte) {
        Ok(1) => Some(()),
        _ => None,
    }
}
