//! The lines of a text.
ghost use Rattle.std.specs.Prelude.{◌≡◌, ◌<◌, ◌∷◌, length};
ghost use Rattle.replay_cli.specs.Lines.{lines, lines_or_one};

use memchr::memchr;

/// The first line of a text, with its line feed where it has one, and what follows it.
pub(crate) fn cut_line(text: &[u8]) -> (&[u8], &[u8])
    ensures lines { lines_or_one text.now ≡ result.0.now ∷ lines result.1.now }
    ensures shorter { 0 < length text.now → length result.1.now < length text.now }
{
    match memchr(b'\n', text) {
        Some(before) => text.split_at(before + 1),
        None => text.split_at(text.len()),
    }
}
