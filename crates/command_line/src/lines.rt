//! Command lines of subcommands.
ghost use Rattle.std.specs.Prelude.{◌≡◌, true, false, IfOk};
ghost use Rattle.clap.specs.Words.{App, app_of, new_app, with_subcommand};
ghost use Rattle.clap.specs.declared.builder.command.Command.TheViews.{out-Command as fields_of};
ghost use Rattle.command_line.specs.Lines.{of_subcommands};

use crate::version::VERSION;
use clap::Command;
use std::alloc::{AllocError, Global};

/// A command line that wants one of its subcommands, of which `help` is none, and says its version.
pub(crate) fn program<'a>(alloc: Global, name: &'a str, about: &'a str) -> Command<'a>
    ensures app { app_of result ≡ of_subcommands (new_app name.entry.now) }
    ensures local { (fields_of result).has_globals ≡ false }
    ensures required { (fields_of result).subcommand_required ≡ true }
{
    Command::new(alloc, name)
        .about(about)
        .version(VERSION)
        .subcommand_required(true)
        .disable_help_subcommand(true)
}

/// The command line with a subcommand more.
pub(crate) fn with_subcommand<'a>(
    program: Command<'a>,
    subcommand: Command<'a>,
) -> Result<Command<'a>, AllocError>
    requires local { (fields_of subcommand).has_globals ≡ false }
    ensures app { IfOk result (λ c. app_of c ≡ with_subcommand (app_of program.entry) (app_of subcommand.entry).top) }
    ensures local { IfOk result (λ c.
        (fields_of c).has_globals ≡ (fields_of program.entry).has_globals) }
    ensures required { IfOk result (λ c.
        (fields_of c).subcommand_required ≡ (fields_of program.entry).subcommand_required) }
{
    program.subcommand(subcommand)
}
