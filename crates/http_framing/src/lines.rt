//! The first lines of a head, of which a head with too many headers has more.
ghost use Rattle.std.specs.Prelude.{◌≡◌, ◌≤◌, ◌<◌, ◌⊎◌, length, take, drop, true, MatchOption};
ghost use Rattle.httparse.specs.Grammar.{AllPass};
ghost use Rattle.httparse.specs.Pieces.{is_newline, Stops};
ghost use Rattle.http_framing.specs.Lines.{line_ends, line_limit, IsEnded, IsFirst};

use crate::HEADER_LIMIT;

/// The request line, and one header more than are taken.
const LINE_LIMIT: usize = HEADER_LIMIT + 2;

/// The first lines of a head.
#[derive(Clone, Copy)]
pub(crate) struct Lines<'a> {
    pub(crate) bytes: &'a [u8],
    /// Whether there are [`LINE_LIMIT`] of them behind the empty lines, the last with its end.
    pub(crate) are_many: bool,
}

/// The bytes up to the end of the last line that can matter: [`LINE_LIMIT`] lines behind the empty
/// ones, or all bytes where there are fewer.
pub(crate) fn first_lines(bytes: &[u8]) -> Lines<'_>
    ensures { IsFirst bytes.now result }
{
    let start = blank_len(bytes);
    match lines_len(&bytes[start..]) {
        Some(len) => Lines {
            bytes: &bytes[..start + len],
            are_many: true,
        },
        None => Lines {
            bytes,
            are_many: false,
        },
    }
}

fn is_newline(b: u8) -> bool
    ensures { result ≡ is_newline b }
{
    b == b'\r' || b == b'\n'
}

/// How many bytes of empty lines are in front.
fn blank_len(bytes: &[u8]) -> usize
    ensures within { result ≤ length bytes.now }
    ensures newlines { AllPass is_newline (take result bytes.now) }
    ensures begins { (result ≡ length bytes.now) ⊎ Stops is_newline (drop result bytes.now) }
{
    for (len, b) in bytes.iter().enumerate() {
        if !is_newline(*b) {
            return len;
        }
    }
    bytes.len()
}

/// How many bytes [`LINE_LIMIT`] lines take, where there are as many.
fn lines_len(bytes: &[u8]) -> Option<usize>
    ensures { MatchOption result (line_ends bytes.now < line_limit) (λ len.
        (len ≤ length bytes.now) × (line_ends (take len bytes.now) ≡ line_limit)
        × IsEnded (take len bytes.now)) }
{
    let mut lines = 0;
    for (at, b) in bytes.iter().enumerate() {
        if *b == b'\n' {
            lines += 1;
            if lines == LINE_LIMIT {
                return Some(at + 1);
            }
        }
    }
    None
}
