//! A connection between two visits to workers.

use std::net::TcpStream;

/// A connection of which no byte of a next request was read. A worker that takes it serves it until it waits again.
#[derive(Drop)]
pub struct Connection<T> {
    pub socket: TcpStream,
    /// What the worker left that served it last, or nothing where none has.
    pub carried: Option<T>,
}
