//! The options of `couchd serve` for the pages of browsers.
ghost use Rattle.std.specs.Prelude.{◌≡◌, Err, IfOk, Option, false, option_map, codes};
ghost use Rattle.clap.specs.Words.{app_of, found_of, rows_of, rule_of};
ghost use Rattle.clap.specs.declared.builder.command.Command.TheViews.{out-Command as fields_of};
ghost use Rattle.command_line.specs.Texts.{optional_text};
ghost use Rattle.command_line.specs.Browsers.{is_asked, with_browsers, IsAllowedBy, IsBrowsersOf};

use crate::faults::{GivenFault, NO_HOST, NO_ORIGIN};
use crate::listed::{ListOf, texts_listed};
use crate::numbers::with_option;
use crate::texts::{optional_text, text_of};
use clap::{Arg, ArgMatches, Command};
use std::alloc::{AllocError, Global};

/// The origins or the names of hosts that are allowed.
#[derive(Debug, Drop, PartialEq, Eq)]
pub enum Allowed {
    /// All of them.
    All,
    /// Those that are listed, and no other.
    Only(Vec<String>),
}

/// Which pages of browsers may use the server.
#[derive(Debug, Drop, PartialEq, Eq)]
pub struct BrowserOptions {
    /// The origins of the pages.
    pub origins: Allowed,
    /// The names with a dot by which they may reach it.
    pub hosts: Allowed,
}

/// The command with the options for the pages of browsers.
pub(crate) fn with_browsers<'a>(
    alloc: Global,
    command: Command<'a>,
) -> Result<Command<'a>, AllocError>
    ensures app { IfOk result (λ c. app_of c ≡ with_browsers (app_of command.entry)) }
    ensures local { IfOk result (λ c.
        (fields_of c).has_globals ≡ (fields_of command.entry).has_globals) }
{
    let command = with_option(command, origins(alloc))?;
    let command = with_option(command, hosts(alloc))?;
    Ok(command)
}

fn origins<'a>(alloc: Global) -> Arg<'a>
    ensures rule { rule_of result ≡ optional_text (codes "origins") }
    ensures local { result.global ≡ false }
{
    optional_text(alloc, "origins", "ORIGIN,..").help(
        "Lets pages of these origins use the server, or of all with '*'; with '--data' none may where it is left out",
    )
}

fn hosts<'a>(alloc: Global) -> Arg<'a>
    ensures rule { rule_of result ≡ optional_text (codes "hosts") }
    ensures local { result.global ≡ false }
{
    optional_text(alloc, "hosts", "NAME,..").help(
        "Lets the server be reached by these names, or by all with '*', besides addresses and names without a dot",
    )
}

/// Which pages may use the server by the options of the subcommand. Nothing is decided of requests where there is no journal,
/// and neither option is given.
pub(crate) fn browsers_of(
    alloc: Global,
    options: &ArgMatches<'_>,
) -> Result<Option<BrowserOptions>, GivenFault>
    ensures given { IfOk result (IsBrowsersOf (rows_of (found_of options.now))) }
    ensures none { (reason : _) → result ≡ Err (GivenFault.Refused reason)
        → (browsers : Option BrowserOptions) → IsBrowsersOf (rows_of (found_of options.now)) browsers → ⊥ }
{
    let folder = text_of(options, "data");
    let origins = text_of(options, "origins");
    let hosts = text_of(options, "hosts");
    if !is_asked(folder, origins, hosts) {
        return Ok(None);
    }
    let allowed_origins = allowed_of(alloc, ListOf::Origins, origins, NO_ORIGIN)?;
    let allowed_hosts = allowed_of(alloc, ListOf::Hosts, hosts, NO_HOST)?;
    Ok(Some(BrowserOptions {
        origins: allowed_origins,
        hosts: allowed_hosts,
    }))
}

/// Whether something is decided of requests: there is a folder for a journal, or one of the lists.
fn is_asked(folder: Option<&str>, origins: Option<&str>, hosts: Option<&str>) -> bool
    ensures { result ≡ is_asked (option_map (λ t. t.now) folder.entry)
        (option_map (λ t. t.now) origins.entry) (option_map (λ t. t.now) hosts.entry) }
{
    folder.is_some() || origins.is_some() || hosts.is_some()
}

/// What a list allows, and nothing where there is none. It is refused with these words where a part of it is none of what it is of.
fn allowed_of(
    alloc: Global,
    of: ListOf,
    list: Option<&str>,
    refusal: &'static str,
) -> Result<Allowed, GivenFault>
    ensures given { IfOk result (IsAllowedBy of (option_map (λ l. l.now) list.entry)) }
    ensures none { (reason : _) → result ≡ Err (GivenFault.Refused reason)
        → (allowed : Allowed) → IsAllowedBy of (option_map (λ l. l.now) list.entry) allowed → ⊥ }
{
    let Some(list) = list else {
        return Ok(Allowed::Only(Vec::new(alloc)));
    };
    if list == "*" {
        return Ok(Allowed::All);
    }
    let Some(texts) = texts_listed(alloc, of, list)? else {
        return Err(GivenFault::Refused(refusal));
    };
    Ok(Allowed::Only(texts))
}
