//! A feed that gives its rows as they come: its head and its last line, which take no memory.
ghost use Rattle.std.specs.Prelude.{◌≡◌};
ghost use Rattle.http_response.specs.Feed.{feed_head_text, feed_last_text};

use crate::head::push_number;
use arrayvec::ArrayString;

/// Room for the head of any feed.
pub const FEED_HEAD_ROOM: usize = 112;

/// Room for any last line.
pub const FEED_LAST_ROOM: usize = 80;

/// The head of a feed whose first rows are those at the place. The connection closes behind the
/// feed.
pub fn feed_head(place: u64) -> ArrayString<FEED_HEAD_ROOM>
    ensures head { result.bytes ≡ feed_head_text place }
{
    let mut head = ArrayString::new();
    head.push_str("HTTP/1.1 200 OK\r\nContent-Type: application/json\r\nCouch-Place: ");
    push_number(&mut head, place);
    head.push_str("\r\nConnection: close\r\n\r\n");
    head
}

/// The last line of a feed: the number to go on from, and how many rows are left.
pub fn feed_last(last_seq: u64, pending: u64) -> ArrayString<FEED_LAST_ROOM>
    ensures line { result.bytes ≡ feed_last_text last_seq pending }
{
    let mut last = ArrayString::new();
    last.push_str(r#"{"last_seq":"#);
    push_number(&mut last, last_seq);
    last.push_str(r#","pending":"#);
    push_number(&mut last, pending);
    last.push_str("}\n");
    last
}
