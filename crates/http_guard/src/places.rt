//! Where the first line of a text ends.
ghost use Rattle.std.specs.Prelude.{◌≡◌, ◌<◌, IfSome, length};
ghost use Rattle.std.specs.List.{position};
ghost use Rattle.http_guard.specs.Extended.{is_line_feed};
ghost use Rattle.http_guard.specs.Weaving.{first_line};

/// The front of these bytes, up to the end of their first line where that ends.
pub(crate) fn up_to_line_feed(bytes: &[u8]) -> &[u8]
    ensures { result.now ≡ first_line bytes.now }
{
    match line_feed_at(bytes) {
        Some(end) => &bytes[..end + 1],
        None => bytes,
    }
}

/// The place of the first line feed.
fn line_feed_at(bytes: &[u8]) -> Option<usize>
    ensures first { result ≡ position is_line_feed bytes.now }
    ensures within { IfSome result (λ place. place < length bytes.now) }
{
    bytes.iter().position(|byte| *byte == b'\n')
}
