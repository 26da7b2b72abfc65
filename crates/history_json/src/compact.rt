//! Compactions, as lines write them.
ghost use Rattle.std.specs.Prelude.{◌≡◌, ◌++◌, OnOk, string_bytes};
ghost use Rattle.serde_json.specs.Written.{compact_text};
ghost use Rattle.model.specs.Command.{Compact};
ghost use Rattle.history_json.specs.Commands.{command_data};

use std::alloc::AllocError;

/// Writes a compaction.
pub(crate) fn put_compaction(text: &mut String) -> Result<(), AllocError>
    ensures { OnOk result (string_bytes text.new ≡ string_bytes text.old ++ compact_text (command_data Compact)) }
{
    text.push_str("{\"compact\":true}")
}
