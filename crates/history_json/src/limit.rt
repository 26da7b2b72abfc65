//! The limits of revisions and of the purge log, as lines write them.
ghost use Rattle.std.specs.Prelude.{◌≡◌, ◌++◌, ℕ, Some, OnOk, string_bytes};
ghost use Rattle.serde_json.specs.Data.{number, unsigned};
ghost use Rattle.serde_json.specs.Written.{compact_text};
ghost use Rattle.model.specs.Command as model;
ghost use Rattle.history_json.specs.Commands.{command_data};

use crate::number::small_number_in;
use commands::Command;
use json_profile::Json;
use std::alloc::AllocError;

/// Writes that the limit of revisions was set.
pub(crate) fn put_limit(text: &mut String, limit: u32) -> Result<(), AllocError>
    ensures { OnOk result (string_bytes text.new
        ≡ string_bytes text.old ++ compact_text (command_data (model.SetLimit limit))) }
{
    write!(text, "{{\"limit\":{limit}}}")
}

/// The command that sets the limit of revisions that a value is.
pub(crate) fn read_limit(value: &Json) -> Option<Command>
    ensures { (limit : ℕ) → model.IsLimit limit → value.now ≡ number (unsigned limit)
        → result ≡ Some (model.SetLimit limit) }
{
    let limit = small_number_in(value)?;
    Command::set_limit(limit)
}

/// Writes that the limit of the purge log was set.
pub(crate) fn put_purged_limit(text: &mut String, limit: u32) -> Result<(), AllocError>
    ensures { OnOk result (string_bytes text.new
        ≡ string_bytes text.old ++ compact_text (command_data (model.SetPurgedLimit limit))) }
{
    write!(text, "{{\"purged_limit\":{limit}}}")
}

/// The command that sets the limit of the purge log that a value is.
pub(crate) fn read_purged_limit(value: &Json) -> Option<Command>
    ensures { (limit : ℕ) → model.IsLimit limit → value.now ≡ number (unsigned limit)
        → result ≡ Some (model.SetPurgedLimit limit) }
{
    let limit = small_number_in(value)?;
    Command::set_purged_limit(limit)
}
