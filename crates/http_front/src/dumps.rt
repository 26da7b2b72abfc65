//! The text of a closed history.
ghost use Rattle.std.specs.Prelude.{◌≡◌, IfOk};
ghost use Rattle.history_dump.specs.Dump.{dump_text};

use history_dump::dump_version;
use history_lock::Closed;
use std::alloc::{AllocError, Global};
use updater_state::Opening;

/// The dump of a closed history: the first line, and the line of each entry from place 1 on.
pub fn dump<J: Opening>(alloc: Global, closed: &Closed<J>) -> Result<Vec<u8>, AllocError>
    ensures text { IfOk result (λ text. text.items ≡ dump_text (record { base = J.base; entries = closed.now.history })) }
{
    dump_version(alloc, closed.version())
}
