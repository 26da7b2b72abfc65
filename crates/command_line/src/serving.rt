//! The arguments of `couchd serve`.
ghost use Rattle.std.specs.Prelude.{◌≡◌, false, Err, IfOk, IfSome, IfNone, codes};
ghost use Rattle.clap.specs.Words.{app_of, found_of, rows_of, rule_of};
ghost use Rattle.clap.specs.declared.builder.command.Command.TheViews.{out-Command as fields_of};
ghost use Rattle.command_line.specs.Numbers.{number_option};
ghost use Rattle.command_line.specs.Serve.{serve, serve_with_counts, serve_with_workers, with_bounds, HasNumbersOf, IsServingOf};

use crate::browsers::{BrowserOptions, browsers_of, with_browsers};
use crate::faults::{GivenFault, NO_SESSION, OUT_OF_RANGE};
use crate::flags::{flag, flag_of};
use crate::journal::{JournalOptions, journal_of, with_journal};
use crate::numbers::{number_of, number_option, with_option};
use clap::{Arg, ArgMatches, Command};
use std::alloc::{AllocError, Global};

/// The most workers beside a session that writes the journal.
const WORKERS_WITH_JOURNAL: u16 = 63;

/// How connections are served.
#[derive(Debug, Drop, PartialEq, Eq)]
pub struct Serving {
    /// The port, or 0 for any that is free.
    pub port: u16,
    /// How many requests are served at a time, from 1 to 64, or to 63 with a journal.
    pub workers: u16,
    /// How many connections each worker serves one after another, or 0 for no end: then one that waits holds no worker.
    pub connections: u32,
    /// How many connections are open at most, from 1 to 65,536, where no number of connections ends a worker.
    pub clients: u32,
    /// So long a connection may send nothing of a next request, in seconds, from 1 to 86,400.
    pub idle: u32,
    /// So long a request may take to come whole, and a response to be taken, in seconds, from 1 to
    /// 86,400.
    pub patience: u32,
    /// The most entries of a history, from 1 on.
    pub max_places: u32,
    /// Whether each request is said on standard error.
    pub log: bool,
    /// Where the history is kept, if it is to be.
    pub journal: Option<JournalOptions>,
    /// Which pages may use the server; every request is answered where nothing is said.
    pub browsers: Option<BrowserOptions>,
}

/// The subcommand, as `clap` takes it.
pub(crate) fn serve<'a>(alloc: Global) -> Result<Command<'a>, AllocError>
    ensures app { IfOk result (λ c. app_of c ≡ serve) }
    ensures local { IfOk result (λ c. (fields_of c).has_globals ≡ false) }
{
    let log = flag(alloc, "log").help("Says each request on standard error");
    let serve = with_bounds(alloc, with_counts(alloc)?)?;
    let serve = with_journal(alloc, with_option(serve, log)?)?;
    with_browsers(alloc, serve)
}

/// The subcommand with its port and what is counted.
fn with_counts<'a>(alloc: Global) -> Result<Command<'a>, AllocError>
    ensures app { IfOk result (λ c. app_of c ≡ serve_with_counts) }
    ensures local { IfOk result (λ c. (fields_of c).has_globals ≡ false) }
{
    with_option(with_workers(alloc)?, clients(alloc))
}

/// The subcommand with its port and its workers.
fn with_workers<'a>(alloc: Global) -> Result<Command<'a>, AllocError>
    ensures app { IfOk result (λ c. app_of c ≡ serve_with_workers) }
    ensures local { IfOk result (λ c. (fields_of c).has_globals ≡ false) }
{
    let port = number_option(alloc, "port", "PORT", 0, 65_535, "5984").help(
        "The port, or 0 for any that is free",
    );
    let workers = number_option(alloc, "workers", "WORKERS", 1, 64, "4").help(
        "How many requests are served at a time",
    );
    let connections = number_option(
        alloc,
        "connections",
        "CONNECTIONS",
        0,
        4_294_967_295,
        "0",
    ).help("How many connections each worker serves before it ends, or 0 for no end");
    let serve = Command::new(alloc, "serve").about("Serves connections on a port of 127.0.0.1");
    let serve = with_option(serve, port)?;
    let serve = with_option(serve, workers)?;
    with_option(serve, connections)
}

fn clients<'a>(alloc: Global) -> Arg<'a>
    ensures rule { rule_of result ≡ number_option (codes "clients") 1 65536 (codes "4096") }
    ensures local { result.global ≡ false }
{
    number_option(alloc, "clients", "CLIENTS", 1, 65_536, "4096").help(
        "How many connections are open at most, unless a number ends each worker",
    )
}

/// The command with the options for its times and its history.
fn with_bounds<'a>(alloc: Global, command: Command<'a>) -> Result<Command<'a>, AllocError>
    ensures app { IfOk result (λ c. app_of c ≡ with_bounds (app_of command.entry)) }
    ensures local { IfOk result (λ c.
        (fields_of c).has_globals ≡ (fields_of command.entry).has_globals) }
{
    let command = with_option(command, idle(alloc))?;
    let command = with_option(command, patience(alloc))?;
    let command = with_option(command, max_places(alloc))?;
    Ok(command)
}

fn idle<'a>(alloc: Global) -> Arg<'a>
    ensures rule { rule_of result ≡ number_option (codes "idle") 1 86400 (codes "15") }
    ensures local { result.global ≡ false }
{
    number_option(alloc, "idle", "SECONDS", 1, 86_400, "15").help(
        "How long a connection may send nothing of a next request",
    )
}

fn patience<'a>(alloc: Global) -> Arg<'a>
    ensures rule { rule_of result ≡ number_option (codes "patience") 1 86400 (codes "60") }
    ensures local { result.global ≡ false }
{
    number_option(alloc, "patience", "SECONDS", 1, 86_400, "60").help(
        "How long a request may take to come, and a response to be taken",
    )
}

fn max_places<'a>(alloc: Global) -> Arg<'a>
    ensures rule { rule_of result ≡ number_option (codes "max-places") 1 4294967295 (codes "1000000") }
    ensures local { result.global ≡ false }
{
    number_option(alloc, "max-places", "PLACES", 1, 4_294_967_295, "1000000").help(
        "How many entries a history may have",
    )
}

/// What the options of the subcommand give.
pub(crate) fn serving_of(alloc: Global, options: &ArgMatches<'_>) -> Result<Serving, GivenFault>
    ensures given { IfOk result (IsServingOf (rows_of (found_of options.now))) }
    ensures none { (reason : _) → result ≡ Err (GivenFault.Refused reason)
        → (serving : Serving) → IsServingOf (rows_of (found_of options.now)) serving → ⊥ }
{
    let log = flag_of(options, "log");
    let journal = journal_of(alloc, options)?;
    let browsers = browsers_of(alloc, options)?;
    let Some(serving) = numbers_of(options, log, journal, browsers) else {
        return Err(GivenFault::Refused(OUT_OF_RANGE));
    };
    if serving.journal.is_some() && serving.workers > WORKERS_WITH_JOURNAL {
        return Err(GivenFault::Refused(NO_SESSION));
    }
    Ok(serving)
}

/// The numbers that the options give, beside these; nothing where one is out of its range.
fn numbers_of(
    options: &ArgMatches<'_>,
    log: bool,
    journal: Option<JournalOptions>,
    browsers: Option<BrowserOptions>,
) -> Option<Serving>
    ensures given { IfSome result (HasNumbersOf (rows_of (found_of options.now))) }
    ensures log { IfSome result (λ serving. serving.log ≡ log) }
    ensures journal { IfSome result (λ serving. serving.journal ≡ journal) }
    ensures browsers { IfSome result (λ serving. serving.browsers ≡ browsers) }
    ensures none { IfNone result ((serving : Serving)
        → HasNumbersOf (rows_of (found_of options.now)) serving → ⊥) }
{
    let port = number_of(options, "port", 5984, 0, 65_535)?;
    let workers = number_of(options, "workers", 4, 1, 64)?;
    let connections = number_of(options, "connections", 0, 0, 4_294_967_295)?;
    let clients = number_of(options, "clients", 4096, 1, 65_536)?;
    let idle = number_of(options, "idle", 15, 1, 86_400)?;
    let patience = number_of(options, "patience", 60, 1, 86_400)?;
    let max_places = number_of(options, "max-places", 1_000_000, 1, 4_294_967_295)?;
    Some(Serving {
        port: port as u16,
        workers: workers as u16,
        connections: connections as u32,
        clients: clients as u32,
        idle: idle as u32,
        patience: patience as u32,
        max_places: max_places as u32,
        log,
        journal,
        browsers,
    })
}
