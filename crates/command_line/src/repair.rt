//! The arguments of `couchd repair`.
ghost use Rattle.std.specs.Prelude.{◌≡◌, false, Err, IfOk};
ghost use Rattle.clap.specs.Words.{app_of, found_of, rows_of};
ghost use Rattle.clap.specs.declared.builder.command.Command.TheViews.{out-Command as fields_of};
ghost use Rattle.command_line.specs.Repair.{repair, IsRepairingOf};

use crate::faults::{GivenFault, NO_DATA};
use crate::numbers::with_option;
use crate::texts::{text_of, text_option};
use clap::{ArgMatches, Command};
use std::alloc::{AllocError, Global};

/// What is repaired.
#[derive(Debug, Drop, PartialEq, Eq)]
pub struct Repairing {
    /// The folder of the journal's files.
    pub folder: String,
}

/// The subcommand, as `clap` takes it.
pub(crate) fn repair<'a>(alloc: Global) -> Result<Command<'a>, AllocError>
    ensures app { IfOk result (λ c. app_of c ≡ repair) }
    ensures local { IfOk result (λ c. (fields_of c).has_globals ≡ false) }
{
    let folder = text_option(alloc, "data", "DIR").help("The folder of the journal");
    let repair = Command::new(alloc, "repair").about(
        "Moves what is damaged of a journal to files of its own, so that a server starts from the rest",
    );
    with_option(repair, folder)
}

/// What the options of the subcommand give.
pub(crate) fn repairing_of(alloc: Global, options: &ArgMatches<'_>) -> Result<Repairing, GivenFault>
    ensures given { IfOk result (IsRepairingOf (rows_of (found_of options.now))) }
    ensures none { (reason : _) → result ≡ Err (GivenFault.Refused reason)
        → (repairing : Repairing) → IsRepairingOf (rows_of (found_of options.now)) repairing → ⊥ }
{
    let Some(folder) = text_of(options, "data") else {
        return Err(GivenFault::Refused(NO_DATA));
    };
    Ok(Repairing {
        folder: String::from_str(alloc, folder)?,
    })
}
