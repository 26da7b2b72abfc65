//! A client of a server.

use http_client::request_text;
use std::alloc::Global;
use std::io;
use std::io::{BufRead, BufReader, ErrorKind, Read, Write};
use std::net::TcpStream;

/// The header that gives the length of a body.
const LENGTH: &str = "Content-Length: ";

/// The most lines that a head may have.
const MOST_LINES: usize = 64;

/// A client, which writes in a text what it asked and what it was answered.
#[derive(Drop)]
pub(crate) struct Client<'s> {
    alloc: Global,
    socket: &'s TcpStream,
    reader: BufReader<&'s TcpStream>,
}

impl<'s> Client<'s> {
    pub(crate) fn new(alloc: Global, socket: &'s TcpStream) -> io::Result<Client<'s>> {
        Ok(Client {
            alloc,
            socket,
            reader: BufReader::new(alloc, socket)?,
        })
    }

    /// Sends a request.
    pub(crate) fn send(&self, method: &str, target: &str, body: &str) -> io::Result<()> {
        let request = request_text(self.alloc, "db", method, target, body)?;
        let mut socket = self.socket;
        socket.write_all(request.as_bytes())
    }

    /// Sends a request, and notes it and its response.
    pub(crate) fn ask(
        &mut self,
        told: &mut String,
        method: &str,
        target: &str,
        body: &str,
    ) -> io::Result<()> {
        self.send(method, target, body)?;
        self.tell_response(told, method, target)
    }

    /// Reports a request that was sent, and the response that comes.
    pub(crate) fn tell_response(
        &mut self,
        told: &mut String,
        method: &str,
        target: &str,
    ) -> io::Result<()> {
        let length = self.tell_head(told, method, target)?;
        let read = self.reader.by_ref().take(length).read_to_string(told)?;
        if (read as u64) < length {
            return Err(io::Error::from(ErrorKind::UnexpectedEof));
        }
        told.push('\n')?;
        Ok(())
    }

    /// Reports a request that was sent, and the head of the response that comes. The answer is the length
    /// of the body behind it, or 0 where the head gives none.
    pub(crate) fn tell_head(
        &mut self,
        told: &mut String,
        method: &str,
        target: &str,
    ) -> io::Result<u64> {
        told.push_str(method)?;
        told.push(' ')?;
        told.push_str(target)?;
        told.push('\n')?;
        let mut length = 0;
        for _line in 0..MOST_LINES {
            let line = self.line()?;
            let header = line.trim_end();
            if header.is_empty() {
                return Ok(length);
            }
            told.push_str(header)?;
            told.push('\n')?;
            length = length_in(header).unwrap_or(length);
        }
        Err(io::Error::from(ErrorKind::InvalidData))
    }

    /// Reports the next line of a feed.
    pub(crate) fn tell_line(&mut self, told: &mut String) -> io::Result<()> {
        let line = self.line()?;
        told.push_str(line.as_str())?;
        Ok(())
    }

    /// The next line, with the end of the line.
    fn line(&mut self) -> io::Result<String> {
        let mut line = String::new(self.alloc);
        if self.reader.read_line(&mut line)? == 0 {
            return Err(io::Error::from(ErrorKind::UnexpectedEof));
        }
        Ok(line)
    }

    /// Whether the server has closed the connection, and nothing was left to read.
    pub(crate) fn is_closed(&mut self) -> io::Result<bool> {
        Ok(self.reader.fill_buf()?.is_empty())
    }
}

/// The length that a header gives, if it gives one.
fn length_in(header: &str) -> Option<u64> {
    header.strip_prefix(LENGTH)?.parse().ok()
}
