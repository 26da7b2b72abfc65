//! The options of `couchd serve` for its journal.
ghost use Rattle.std.specs.Prelude.{◌≡◌, ◌↔◌, Err, IfOk, IfSome, IfNone, Option, ℕ, false, true, option_map, codes};
ghost use Rattle.clap.specs.Words.{app_of, found_of, rows_of, rule_of};
ghost use Rattle.clap.specs.declared.builder.command.Command.TheViews.{out-Command as fields_of};
ghost use Rattle.command_line.specs.Flags.{flag};
ghost use Rattle.command_line.specs.Numbers.{optional_number};
ghost use Rattle.command_line.specs.Texts.{optional_text};
ghost use Rattle.command_line.specs.Journal.{with_journal, IsGiven, IsJournalIn, IsJournalOf, IsKeepOf, IsSyncOf};

use crate::faults::{GivenFault, NO_FOLDER, NO_SYNC, OUT_OF_RANGE};
use crate::flags::flag;
use crate::numbers::{number_in, optional_number, with_option};
use crate::texts::{optional_text, text_of};
use clap::{Arg, ArgMatches, Command};
use std::alloc::{AllocError, Global};

/// When what was written to a journal is synced.
#[derive(Clone, Copy, Debug, PartialEq, Eq)]
pub enum SyncPolicy {
    /// Before a write is answered.
    Always,
    /// At most a second after it was written.
    EverySecond,
    /// When the system does it.
    Never,
}

/// Where a history is kept, and how.
#[derive(Debug, Drop, PartialEq, Eq)]
pub struct JournalOptions {
    /// The folder of the journal's files.
    pub folder: String,
    /// When they are synced.
    pub sync: SyncPolicy,
    /// How many of them stay, from 1 on; all do where no number was given.
    pub keep: Option<u32>,
    /// Whether nothing is written to them.
    pub read_only: bool,
}

/// The command with the options of the journal.
pub(crate) fn with_journal<'a>(
    alloc: Global,
    command: Command<'a>,
) -> Result<Command<'a>, AllocError>
    ensures app { IfOk result (λ c. app_of c ≡ with_journal (app_of command.entry)) }
    ensures local { IfOk result (λ c.
        (fields_of c).has_globals ≡ (fields_of command.entry).has_globals) }
{
    let command = with_option(command, folder(alloc))?;
    let command = with_option(command, sync(alloc))?;
    let command = with_option(command, keep(alloc))?;
    let command = with_option(command, read_only(alloc))?;
    Ok(command)
}

fn folder<'a>(alloc: Global) -> Arg<'a>
    ensures rule { rule_of result ≡ optional_text (codes "data") }
    ensures local { result.global ≡ false }
{
    optional_text(alloc, "data", "DIR").help(
        "Keeps the history in this folder, and goes on from what is there",
    )
}

fn sync<'a>(alloc: Global) -> Arg<'a>
    ensures rule { rule_of result ≡ optional_text (codes "sync") }
    ensures local { result.global ≡ false }
{
    optional_text(alloc, "sync", "WHEN").help(
        "When the journal is synced: 'always' before a write is answered, each 'second' (so where it is left out), or 'never' by the server",
    )
}

fn keep<'a>(alloc: Global) -> Arg<'a>
    ensures rule { rule_of result ≡ optional_number (codes "keep") 1 4294967295 }
    ensures local { result.global ≡ false }
{
    optional_number(alloc, "keep", "FILES", 1, 4_294_967_295).help(
        "How many files of the journal stay; all do where it is left out",
    )
}

fn read_only<'a>(alloc: Global) -> Arg<'a>
    ensures rule { rule_of result ≡ flag (codes "read-only") }
    ensures local { result.global ≡ false }
{
    flag(alloc, "read-only").help("Writes nothing to the folder, and refuses writes")
}

/// The journal that the options of the subcommand ask for, if they do for one.
pub(crate) fn journal_of(
    alloc: Global,
    options: &ArgMatches<'_>,
) -> Result<Option<JournalOptions>, GivenFault>
    ensures given { IfOk result (IsJournalOf (rows_of (found_of options.now))) }
    ensures none { (reason : _) → result ≡ Err (GivenFault.Refused reason)
        → (journal : Option JournalOptions) → IsJournalOf (rows_of (found_of options.now)) journal → ⊥ }
{
    let sync = text_of(options, "sync");
    let keep = text_of(options, "keep");
    let read_only = text_of(options, "read-only");
    let Some(folder) = text_of(options, "data") else {
        if sync.is_some() || keep.is_some() || is_given(read_only) {
            return Err(GivenFault::Refused(NO_FOLDER));
        }
        return Ok(None);
    };
    Ok(Some(journal_in(alloc, folder, sync, keep, read_only)?))
}

/// The journal in this folder.
fn journal_in(
    alloc: Global,
    folder: &str,
    sync: Option<&str>,
    keep: Option<&str>,
    read_only: Option<&str>,
) -> Result<JournalOptions, GivenFault>
    ensures given { IfOk result (IsJournalIn folder.now (option_map (λ text. text.now) sync.entry)
        (option_map (λ text. text.now) keep.entry) (option_map (λ text. text.now) read_only.entry)) }
    ensures none { (reason : _) → result ≡ Err (GivenFault.Refused reason) → (journal : JournalOptions)
        → IsJournalIn folder.now (option_map (λ text. text.now) sync.entry)
        (option_map (λ text. text.now) keep.entry) (option_map (λ text. text.now) read_only.entry) journal → ⊥ }
{
    let Some(sync) = sync_of(sync) else {
        return Err(GivenFault::Refused(NO_SYNC));
    };
    let Some(keep) = keep_of(keep) else {
        return Err(GivenFault::Refused(OUT_OF_RANGE));
    };
    Ok(JournalOptions {
        folder: String::from_str(alloc, folder)?,
        sync,
        keep,
        read_only: is_given(read_only),
    })
}

/// Whether the flag was given of which `clap` has this text.
fn is_given(text: Option<&str>) -> bool
    ensures { (result ≡ true) ↔ IsGiven (option_map (λ text. text.now) text.entry) }
{
    text == Some("true")
}

/// When the journal is synced; nothing where the text names no such time.
fn sync_of(text: Option<&str>) -> Option<SyncPolicy>
    ensures sync { IfSome result (IsSyncOf (option_map (λ text. text.now) text.entry)) }
    ensures none { IfNone result ((sync : SyncPolicy)
        → IsSyncOf (option_map (λ text. text.now) text.entry) sync → ⊥) }
{
    let Some(text) = text else {
        return Some(SyncPolicy::EverySecond);
    };
    match text {
        "always" => Some(SyncPolicy::Always),
        "second" => Some(SyncPolicy::EverySecond),
        "never" => Some(SyncPolicy::Never),
        _ => None,
    }
}

/// How many files stay, if a number is given; nothing where the text says none from 1 on.
fn keep_of(text: Option<&str>) -> Option<Option<u32>>
    ensures keep { IfSome result (IsKeepOf (option_map (λ text. text.now) text.entry)) }
    ensures none { IfNone result ((keep : Option ℕ)
        → IsKeepOf (option_map (λ text. text.now) text.entry) keep → ⊥) }
{
    let Some(text) = text else {
        return Some(None);
    };
    let Some(files) = number_in(text, 1, 4_294_967_295) else {
        return None;
    };
    Some(Some(files as u32))
}
