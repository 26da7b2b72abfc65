//! The arguments of `couchd replicate`.
ghost use Rattle.std.specs.Prelude.{◌≡◌, ◌≤◌, ◌↔◌, false, List, length, Err, IfOk, IsTrue, Option, map, option_map, string_bytes, codes};
ghost use Rattle.clap.specs.Words.{Text, app_of, found_of, rows_of};
ghost use Rattle.clap.specs.declared.builder.command.Command.TheViews.{out-Command as fields_of};
ghost use Rattle.command_line.specs.Replicate.{replicate, replicate_all, replicate_within, BeginsPlain, IsIdOf, IsListOf, IsReplicatingOf};

use crate::faults::{GivenFault, NO_DOC_IDS, NO_ID, ONE_PLACE, OUT_OF_RANGE};
use crate::flags::{flag, flag_of};
use crate::listed::{ListOf, texts_listed};
use crate::numbers::{number_of, number_option, with_option};
use crate::places::place_of;
use crate::texts::{optional_text, text_of, text_option};
use clap::{ArgMatches, Command};
use std::alloc::{AllocError, Global};

/// The most bytes of an id.
const MAX_ID: usize = 512;

/// What is replicated, and where to.
#[derive(Debug, Drop, PartialEq, Eq)]
pub struct Replicating {
    /// Where the database is whose changes are read: `HOST:PORT`, whose host is a name or a numeric address.
    pub source: String,
    /// Where the database is that they are brought to, likewise: another place than that of the source.
    pub target: String,
    /// The id of the checkpoints, of 1 to 512 bytes, of which the first is not `_`, where one was given. It is
    /// to belong to this source, this target and these documents alone.
    pub id: Option<String>,
    /// The ids of the documents that are brought, each of 1 to 512 bytes; all documents are where no
    /// list was given.
    pub doc_ids: Option<Vec<String>>,
    /// So long an end has for an answer, in seconds, from 1 to 86,400.
    pub patience: u32,
    /// So many bytes an answer has at most, from 1 to 4,294,967,295.
    pub max_answer: u64,
    /// Whether documents that no request can hold are skipped.
    pub skip: bool,
    /// Whether it waits for changes where there are none, and goes on without end.
    pub continuous: bool,
}

/// The subcommand, as `clap` takes it.
pub(crate) fn replicate<'a>(alloc: Global) -> Result<Command<'a>, AllocError>
    ensures app { IfOk result (λ c. app_of c ≡ replicate) }
    ensures local { IfOk result (λ c. (fields_of c).has_globals ≡ false) }
{
    let skip = flag(alloc, "skip").help(
        "Leaves out documents that no request can hold, and names each; an ID goes with or without it",
    );
    let continuous = flag(alloc, "continuous").help(
        "Waits for changes where there are none, and goes on without end",
    );
    let replicate = with_option(replicate_within(alloc)?, skip)?;
    with_option(replicate, continuous)
}

/// The subcommand with the options for its ends, and those for what is brought within which bounds.
fn replicate_within<'a>(alloc: Global) -> Result<Command<'a>, AllocError>
    ensures app { IfOk result (λ c. app_of c ≡ replicate_within) }
    ensures local { IfOk result (λ c. (fields_of c).has_globals ≡ false) }
{
    let doc_ids = optional_text(alloc, "doc-ids", "IDS").help(
        "Brings these documents alone: ids between commas, a comma or '%' in one escaped as in a path; an ID goes with one list",
    );
    let patience = number_option(alloc, "patience", "SECONDS", 1, 86_400, "60").help(
        "How long an end has for an answer",
    );
    let max_answer = number_option(alloc, "max-answer", "BYTES", 1, 4_294_967_295, "67108864").help(
        "How many bytes an answer has at most",
    );
    let replicate = with_option(replicate_all(alloc)?, doc_ids)?;
    let replicate = with_option(replicate, patience)?;
    with_option(replicate, max_answer)
}

/// The subcommand with the options for its ends.
fn replicate_all<'a>(alloc: Global) -> Result<Command<'a>, AllocError>
    ensures app { IfOk result (λ c. app_of c ≡ replicate_all) }
    ensures local { IfOk result (λ c. (fields_of c).has_globals ≡ false) }
{
    let source = text_option(alloc, "source", "HOST:PORT").help(
        "Where the changes come from; a host is a name or an address, and http://HOST:PORT and http://HOST:PORT/db are taken too",
    );
    let target = text_option(alloc, "target", "HOST:PORT").help("Where they are brought to");
    let id = optional_text(alloc, "id", "ID").help(
        "The id of the checkpoints, 1 to 512 bytes, not beginning with '_'; a digest of both ends, the list and '--skip' where it is left out",
    );
    let replicate = Command::new(alloc, "replicate").about(
        "Brings the changes of one database to another",
    );
    let replicate = with_option(replicate, source)?;
    let replicate = with_option(replicate, target)?;
    with_option(replicate, id)
}

/// What the options of the subcommand give.
pub(crate) fn replicating_of(
    alloc: Global,
    options: &ArgMatches<'_>,
) -> Result<Replicating, GivenFault>
    ensures given { IfOk result (IsReplicatingOf (rows_of (found_of options.now))) }
    ensures none { (reason : _) → result ≡ Err (GivenFault.Refused reason)
        → (replicating : Replicating) → IsReplicatingOf (rows_of (found_of options.now)) replicating → ⊥ }
{
    let source = place_of(alloc, options, "source")?;
    let target = place_of(alloc, options, "target")?;
    let id = read_id(alloc, text_of(options, "id"))?;
    if source.as_str() == target.as_str() {
        return Err(GivenFault::Refused(ONE_PLACE));
    }
    let Some(patience) = number_of(options, "patience", 60, 1, 86_400) else {
        return Err(GivenFault::Refused(OUT_OF_RANGE));
    };
    let Some(max_answer) = number_of(options, "max-answer", 67_108_864, 1, 4_294_967_295) else {
        return Err(GivenFault::Refused(OUT_OF_RANGE));
    };
    let doc_ids = read_list(alloc, text_of(options, "doc-ids"))?;
    Ok(Replicating {
        source,
        target,
        id,
        doc_ids,
        patience: patience as u32,
        max_answer,
        skip: flag_of(options, "skip"),
        continuous: flag_of(options, "continuous"),
    })
}

/// The id that was given, if there is one. It is refused where it is empty or too long, or begins with `_`, as
/// no request can name such an id.
fn read_id(alloc: Global, id: Option<&str>) -> Result<Option<String>, GivenFault>
    ensures given { IfOk result (λ read. IsIdOf (option_map (λ text. text.now) id.entry) (option_map string_bytes read)) }
    ensures none { (reason : _) → result ≡ Err (GivenFault.Refused reason)
        → (read : Option Text) → IsIdOf (option_map (λ text. text.now) id.entry) read → ⊥ }
{
    let Some(id) = id else {
        return Ok(None);
    };
    if !is_id(id.as_bytes()) {
        return Err(GivenFault::Refused(NO_ID));
    }
    Ok(Some(String::from_str(alloc, id)?))
}

/// Whether these are the bytes of an id that checkpoints can have.
fn is_id(bytes: &[u8]) -> bool
    ensures { IsTrue result ↔ (BeginsPlain bytes.now × (length bytes.now ≤ 512)) }
{
    match bytes {
        [] => false,
        [first, ..] => *first != b'_' && bytes.len() <= MAX_ID,
    }
}

/// The documents of a list, if there is one.
fn read_list(alloc: Global, list: Option<&str>) -> Result<Option<Vec<String>>, GivenFault>
    ensures given { IfOk result (λ ids. IsListOf (option_map (λ l. l.now) list.entry)
        (option_map (λ texts. map string_bytes texts.items) ids)) }
    ensures none { (reason : _) → result ≡ Err (GivenFault.Refused reason)
        → (ids : Option (List Text)) → IsListOf (option_map (λ l. l.now) list.entry) ids → ⊥ }
{
    let Some(list) = list else {
        return Ok(None);
    };
    let Some(ids) = texts_listed(alloc, ListOf::Ids, list)? else {
        return Err(GivenFault::Refused(NO_DOC_IDS));
    };
    Ok(Some(ids))
}
