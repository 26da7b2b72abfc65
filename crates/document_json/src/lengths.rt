//! How long the texts of documents are, without these texts.
//!
//! A length of more than `usize::MAX` is refused as out of memory.
ghost use Rattle.std.specs.Prelude.{◌≡◌, ◌+◌, ◌≤◌, true, map, length, decimal, option_map, IfOk};
ghost use Rattle.json.specs.Print.{quoted};
ghost use Rattle.json_profile.specs.Joined.{bare_text};
ghost use Rattle.model.specs.Body.{IsBody};
ghost use Rattle.serde_json.specs.Data.{Data, array, member, no_members};
ghost use Rattle.serde_json.specs.View.{items_of};
ghost use Rattle.serde_json.specs.Written.{compact_text};
ghost use Rattle.document_json.specs.Written.{document_data, flag_member, hash_data, info_data, infos_member, merge_data, rev_data, revisions_data, revisions_member, revs_member, special_members};
ghost use Rattle.document_json.specs.Lengths.{ancestor_members, conflict_members, naming_members};

use crate::revisions_value::{first_generation, name_of};
use crate::text::{QUOTES, is_all_unescaped, quoted_text};
use crate::written_document::document_of;
use commands::Merge;
use itoa::Buffer;
use json_profile::Body;
use model::Status;
use queries::Document;
use revision_id::RevId;
use std::alloc::{AllocError, Global};

/// The digits of a hash.
const HASH: usize = 32;

/// The comma before a member and the colon in it.
const COMMA_AND_COLON: usize = 2;

/// The length of `{}`, and of `[]`.
const EMPTY: usize = 2;

/// What `{"ids":,"start":}` writes round the hashes of a path and its first generation.
const ROUND_PATH: usize = 17;

/// What `{"rev":,"status":""}` writes round a revision and the name of its status.
const ROUND_INFO: usize = 20;

/// The sum of two lengths.
///
/// # Errors
///
/// It is more than `usize::MAX`.
pub fn sum_len(a: usize, b: usize) -> Result<usize, AllocError>
    ensures { IfOk result (λ sum. sum ≡ a + b) }
{
    let Some(sum) = a.checked_add(b) else {
        return Err(AllocError);
    };
    Ok(sum)
}

/// The length of a JSON list, by the length of each item's text.
///
/// # Errors
///
/// It is more than `usize::MAX`, or an item's length was refused.
pub fn list_len<X, F: Fn(&X) -> Result<usize, AllocError> + Drop>(
    items: &[X],
    item_len: F,
) -> Result<usize, AllocError>
    requires callable { F.IsAlwaysCallable item_len }
    ensures { (of : X → Data)
        → ((item : _) (answered : _) → F.post item_len item answered
        → IfOk answered (λ len. len ≡ length (compact_text (of item.now))))
        → IfOk result (λ len. len ≡ length (compact_text (array (items_of (map of items.now))))) }
{
    if items.is_empty() {
        return Ok(EMPTY);
    }
    let mut len = 1;
    for item in items {
        let own = item_len(item)?;
        let closed = sum_len(own, 1)?;
        len = sum_len(len, closed)?;
    }
    Ok(len)
}

/// The length of a string with its quotes.
fn quoted_len(alloc: Global, string: &str) -> Result<usize, AllocError>
    ensures { IfOk result (λ len. len ≡ length (quoted string.now)) }
{
    if is_all_unescaped(string) {
        let len = sum_len(string.len(), QUOTES)?;
        return Ok(len);
    }
    let text = quoted_text(alloc, string)?;
    Ok(text.len())
}

/// The length of a member and the comma before it, by that of its value's text.
fn member_len(alloc: Global, name: &str, value: usize) -> Result<usize, AllocError>
    ensures { IfOk result (λ len. (d : Data) → value ≡ length (compact_text d)
        → len ≡ length (bare_text true (member name.now d no_members))) }
{
    let name = quoted_len(alloc, name)?;
    let both = sum_len(name, value)?;
    let len = sum_len(both, COMMA_AND_COLON)?;
    Ok(len)
}

fn digits_len(number: u32) -> usize
    ensures len { result ≡ length (decimal number) }
    ensures short { result ≤ 40 }
{
    let mut digits = Buffer::new();
    digits.format(number).len()
}

/// The length of a revision as a JSON string.
pub fn rev_len(rev: &RevId) -> usize
    ensures len { result ≡ length (compact_text (rev_data rev.now)) }
    ensures short { result ≤ 75 }
{
    digits_len(rev.generation()) + 1 + HASH + QUOTES
}

/// The length of a revision's hash as a JSON string.
fn hash_len(rev: &RevId) -> usize
    ensures { result ≡ length (compact_text (hash_data rev.now)) }
{
    let _recalled = rev.generation();
    HASH + QUOTES
}

/// The length of a member that lists revisions: none where there are none.
fn revs_len(alloc: Global, name: &str, revs: &[RevId]) -> Result<usize, AllocError>
    ensures { IfOk result (λ len. len ≡ length (bare_text true (revs_member name.now revs.now))) }
{
    if revs.is_empty() {
        return Ok(0);
    }
    let value = list_len(revs, |rev| Ok(rev_len(rev)))?;
    let len = member_len(alloc, name, value)?;
    Ok(len)
}

/// The length of `_deleted`, which is left out where it is false.
fn deleted_len(deleted: bool) -> usize
    ensures { result ≡ length (bare_text true (flag_member deleted)) }
{
    if deleted {
        r#","_deleted":true"#.len()
    } else {
        0
    }
}

/// The length of a path of revisions.
fn path_len(revs: &[RevId]) -> Result<usize, AllocError>
    ensures { IfOk result (λ len. len ≡ length (compact_text (revisions_data revs.now))) }
{
    let hashes = list_len(revs, |rev| Ok(hash_len(rev)))?;
    let digits = digits_len(first_generation(revs));
    let len = sum_len(hashes, digits + ROUND_PATH)?;
    Ok(len)
}

/// The length of `_revisions`, where they were asked for.
fn revisions_len(alloc: Global, revisions: &Option<Vec<RevId>>) -> Result<usize, AllocError>
    ensures { IfOk result (λ len. len ≡ length (bare_text true
        (revisions_member (option_map (λ revs. revs.items) revisions.now)))) }
{
    let Some(revs) = revisions else {
        return Ok(0);
    };
    let value = path_len(revs)?;
    let len = member_len(alloc, "_revisions", value)?;
    Ok(len)
}

/// The length of what is kept of a revision.
#[tactic(auto, using(crate::proofs::TextLengths::short_status))]
fn info_len(info: &(RevId, Status)) -> usize
    ensures { result ≡ length (compact_text (info_data info.now)) }
{
    rev_len(&info.0) + name_of(info.1).len() + ROUND_INFO
}

/// The length of `_revs_info`, where it was asked for.
fn infos_len(alloc: Global, infos: &Option<Vec<(RevId, Status)>>) -> Result<usize, AllocError>
    ensures { IfOk result (λ len. len ≡ length (bare_text true
        (infos_member (option_map (λ infos. infos.items) infos.now)))) }
{
    let Some(infos) = infos else {
        return Ok(0);
    };
    let value = list_len(infos, |info| Ok(info_len(info)))?;
    let len = member_len(alloc, "_revs_info", value)?;
    Ok(len)
}

/// The length of `_id` and `_rev`.
fn named_len(alloc: Global, document: &Document) -> Result<usize, AllocError>
    ensures { IfOk result (λ len. len ≡ length (bare_text true (naming_members document.now))) }
{
    let own_id = quoted_len(alloc, document.id.as_str())?;
    let id = member_len(alloc, "_id", own_id)?;
    let rev = member_len(alloc, "_rev", rev_len(&document.rev))?;
    let len = sum_len(id, rev)?;
    Ok(len)
}

/// The length of what lists conflicts and says whether the revision is deleted.
fn conflicts_len(alloc: Global, document: &Document) -> Result<usize, AllocError>
    ensures { IfOk result (λ len. len ≡ length (bare_text true (conflict_members document.now))) }
{
    let live = revs_len(alloc, "_conflicts", &document.conflicts)?;
    let deleted = revs_len(alloc, "_deleted_conflicts", &document.deleted_conflicts)?;
    let both = sum_len(live, deleted)?;
    let len = sum_len(both, deleted_len(document.deleted))?;
    Ok(len)
}

/// The length of `_revisions` and `_revs_info`.
fn ancestors_len(alloc: Global, document: &Document) -> Result<usize, AllocError>
    ensures { IfOk result (λ len. len ≡ length (bare_text true (ancestor_members document.now))) }
{
    let revisions = revisions_len(alloc, &document.revisions)?;
    let infos = infos_len(alloc, &document.revs_info)?;
    let len = sum_len(revisions, infos)?;
    Ok(len)
}

/// The length of the special members, each with a comma before it.
fn special_len(alloc: Global, document: &Document) -> Result<usize, AllocError>
    ensures { IfOk result (λ len. len ≡ length (bare_text true (special_members document.now))) }
{
    let conflicts = conflicts_len(alloc, document)?;
    let named = named_len(alloc, document)?;
    let ancestors = ancestors_len(alloc, document)?;
    let both = sum_len(conflicts, named)?;
    let len = sum_len(both, ancestors)?;
    Ok(len)
}

/// What a body adds to the length of the special members, each of which counts a comma before it: the
/// length of the body's text, or 1 for `{}`, where the first special member has no comma.
fn body_len(body: &Body) -> usize
    ensures len { result ≡ 1 + length (bare_text true body.now) }
    ensures body { IsBody body.now }
{
    let len = body.text().len();
    if len == EMPTY { 1 } else { len }
}

/// The length of the text of a document, with what was asked of it. Memory is taken only for an id in
/// which something is escaped.
///
/// # Errors
///
/// Out of memory, or the length is more than `usize::MAX`.
pub fn document_len(alloc: Global, document: &Document) -> Result<usize, AllocError>
    ensures { IfOk result (λ len. len ≡ length (compact_text (document_data document.now))) }
{
    let special = special_len(alloc, document)?;
    let len = sum_len(special, body_len(&document.body))?;
    Ok(len)
}

/// The length of the text of a revision from elsewhere, with its path.
///
/// # Errors
///
/// As [`document_len`].
pub fn merge_len(alloc: Global, merge: &Merge) -> Result<usize, AllocError>
    ensures { IfOk result (λ len. len ≡ length (compact_text (merge_data merge.now))) }
{
    let document = document_of(alloc, merge)?;
    let len = document_len(alloc, &document)?;
    Ok(len)
}
