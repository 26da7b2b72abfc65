//! The base of a later epoch, as the first line of its dump writes it.
ghost use Rattle.std.specs.Prelude.{◌≡◌, ◌++◌, ℕ, List, true, IfOk, OnOk, string_bytes};
ghost use Rattle.serde_json.specs.Written.{compact_text, members_text};
ghost use Rattle.model.specs.Database as model;
ghost use Rattle.model.specs.History.{IsBase};
ghost use Rattle.base_json.specs.Base.{AreFound, IsLogOf, base_data, base_text, log_members};

use crate::documents::put_documents;
use crate::lists::read_list;
use crate::locals::put_locals;
use crate::purges::put_purges;
use crate::text::{after, read_number, read_small_number};
use document_id::DocId;
use local_docs::LocalDoc;
use purge::{PurgeLog, Purged};
use snapshots::{Database, DatabaseParts, Record};
use std::alloc::{AllocError, Global};

/// Writes the first line of a dump whose history begins from this base, without the line feed at its end.
///
/// # Errors
///
/// If memory is refused, what was in the text is still there, with perhaps a part of the line behind it.
pub fn put_base(text: &mut String, alloc: Global, base: &Database) -> Result<(), AllocError>
    ensures line { OnOk result (string_bytes text.new ≡ string_bytes text.old ++ base_text base.now) }
{
    text.push_str("{\"base\":")?;
    put_database(text, alloc, base)?;
    text.push_str(",\"couch_history\":2}")
}

/// Writes all that a base has.
fn put_database(text: &mut String, alloc: Global, base: &Database) -> Result<(), AllocError>
    ensures { OnOk result (string_bytes text.new ≡ string_bytes text.old ++ compact_text (base_data base.now)) }
{
    let limit = base.revs_limit();
    let update_seq = base.documents().update_seq();
    text.push_str("{\"docs\":")?;
    put_documents(text, alloc, base.documents())?;
    write!(text, ",\"limit\":{limit},\"locals\":")?;
    put_locals(text, alloc, base.locals())?;
    put_log(text, alloc, base.purges(), update_seq)
}

/// Writes the log of purges and the last update number, and the end of a base.
fn put_log(
    text: &mut String,
    alloc: Global,
    log: &PurgeLog,
    update_seq: u64,
) -> Result<(), AllocError>
    ensures { OnOk result (string_bytes text.new
        ≡ string_bytes text.old ++ members_text true (log_members log.now update_seq)) }
{
    let purge_seq = log.purge_seq();
    let limit = log.limit();
    write!(
        text,
        ",\"purge_seq\":{purge_seq},\"purged_limit\":{limit},\"purges\":"
    )?;
    put_purges(text, alloc, log)?;
    write!(text, ",\"update_seq\":{update_seq}}}")
}

/// The parts of the base that a first line names, if the text may be one. Parts may be found of another text too, and they
/// may be of no base: the line of what they make is to be written again and compared. The text is read one item behind another.
pub fn read_base(alloc: Global, text: &[u8]) -> Result<Option<DatabaseParts>, AllocError>
    ensures found { (base : model.Database) → IsBase base → text.now ≡ base_text base
        → IfOk result (λ found. AreFound found base) }
{
    let Some(text) = after(text, "{\"base\":{\"docs\":") else {
        return Ok(None);
    };
    let Some((documents, text)) = read_list::<(DocId, Record)>(alloc, text)? else {
        return Ok(None);
    };
    let Some((revs_limit, text)) = read_small_number(text, ",\"limit\":") else {
        return Ok(None);
    };
    let Some(text) = after(text, ",\"locals\":") else {
        return Ok(None);
    };
    let Some((locals, text)) = read_list::<(DocId, LocalDoc)>(alloc, text)? else {
        return Ok(None);
    };
    let Some(log) = read_log(alloc, text)? else {
        return Ok(None);
    };
    Ok(Some(DatabaseParts {
        documents,
        locals,
        purges: log.purges,
        update_seq: log.update_seq,
        purge_seq: log.purge_seq,
        purged_limit: log.purged_limit,
        revs_limit,
    }))
}

/// The log of purges, and the last update number.
#[derive(Drop)]
struct Log {
    purges: Vec<(u64, Purged)>,
    /// The last purge number that was given.
    purge_seq: u64,
    /// How many purges are kept.
    purged_limit: u32,
    /// The last update number that was given.
    update_seq: u64,
}

/// The log that the end of a base begins with, if it may be one.
fn read_log(alloc: Global, text: &[u8]) -> Result<Option<Log>, AllocError>
    ensures { (base : model.Database) (rest : List ℕ) → IsBase base
        → text.now ≡ members_text true (log_members base.purges base.update_seq) ++ rest
        → IfOk result (λ found. IsLogOf found base) }
{
    let Some((purge_seq, text)) = read_number(text, ",\"purge_seq\":") else {
        return Ok(None);
    };
    let Some((purged_limit, text)) = read_small_number(text, ",\"purged_limit\":") else {
        return Ok(None);
    };
    let Some(text) = after(text, ",\"purges\":") else {
        return Ok(None);
    };
    let Some((purges, text)) = read_list::<(u64, Purged)>(alloc, text)? else {
        return Ok(None);
    };
    let Some((update_seq, _)) = read_number(text, ",\"update_seq\":") else {
        return Ok(None);
    };
    Ok(Some(Log {
        purges,
        purge_seq,
        purged_limit,
        update_seq,
    }))
}
