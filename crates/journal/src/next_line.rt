//! The lines of a reader.
ghost use Rattle.std.specs.Prelude.{◌≡◌, ℕ, List, [], ◌∷◌, ◌++◌, IfOk, MatchBool};
ghost use Rattle.std.specs.Io.KnownBytes.{Consumes};
ghost use Rattle.journal.specs.Replaying.{HasFeed, IsCut, IsWhole};

use std::io::{self, BufRead};

/// Reads the next line in place of what is there, and answers whether it has its line feed. The last line may have none, and
/// is then cut; at the end it is empty.
pub(crate) fn next_line<R: BufRead>(reader: &mut R, line: &mut Vec<u8>) -> io::Result<bool>
    ensures consumed { IfOk result (λ _. Consumes (R.remaining reader.old) (R.remaining reader.new) line.new.items) }
    ensures kind { IfOk result (λ whole. MatchBool whole (IsWhole line.new.items)
        (IsCut (R.remaining reader.old) (R.remaining reader.new) line.new.items)) }
{
    line.clear();
    let _len = reader.read_until(b'\n', line)?;
    Ok(has_feed(line))
}

/// Whether a line has its line feed.
fn has_feed(line: &[u8]) -> bool
    ensures { MatchBool result (HasFeed line.now) (HasFeed line.now → ⊥) }
{
    let Some((last, _front)) = line.split_last() else {
        return false;
    };
    *last == b'\n'
}
