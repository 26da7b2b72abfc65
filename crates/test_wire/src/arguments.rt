//! Arguments of a command line.

use command_line::{ArgumentsFault, read_arguments};
use std::alloc::Global;
use std::test::Fail;

/// The run that the arguments of `couchd` ask for, or why they name none.
pub(crate) fn arguments_told(alloc: Global, arguments: &[&str]) -> Result<String, Fail> {
    match read_arguments(alloc, arguments) {
        Ok(run) => Ok(format!(in alloc; "{run:?}")?),
        Err(ArgumentsFault::Version(text) | ArgumentsFault::Refused(text)) => Ok(text),
        Err(ArgumentsFault::Memory) => Err("memory was refused".into()),
    }
}
