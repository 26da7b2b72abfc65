//! The arguments that a program was given.

use std::alloc::AllocGlobal;
use std::env::{self, Env};
use std::io;
use std::io::ErrorKind;

/// The arguments that the program was given, of which the first is its name; nothing where they are
/// not all UTF-8.
pub fn given_arguments<A: AllocGlobal + Env>(rt: &A) -> io::Result<Option<Vec<String>>> {
    match env::args(rt) {
        Ok(arguments) => Ok(Some(arguments.collect(rt.alloc())?)),
        Err(error) if error.kind() == ErrorKind::InvalidData => Ok(None),
        Err(error) => Err(error),
    }
}
