//! The revisions of a document that are made as they are written.
ghost use Rattle.std.specs.Prelude.{◌≡◌, ◌+◌, ℕ, true, List, length, IfOk, string_bytes};
ghost use Rattle.api_json.specs.Opened.{all_opened_data, opened_data};
ghost use Rattle.session_api.specs.Revisions.{opened_by};
ghost use Rattle.document_json.specs.Written.{revs_member};
ghost use Rattle.json.specs.Print.{quoted};
ghost use Rattle.json_profile.specs.Joined.{bare_text};
ghost use Rattle.serde_json.specs.Written.{compact_text};
ghost use Rattle.http_response.specs.Parts.{lists_len};

use api_json::{opened_len, opened_text};
use document_json::{list_len, rev_len, sum_len};
use revision_id::RevId;
use session_api::Revisions;
use std::alloc::{AllocError, Global};

/// What `,"_conflicts":` adds to a list.
const CONFLICTS: usize = 14;

/// What `,"_deleted_conflicts":` adds to a list.
const DELETED_CONFLICTS: usize = 22;

/// The length of the text of the revisions that an opening shows. It takes a look at each revision, and one at each
/// conflict.
///
/// # Errors
///
/// Out of memory, or the length is more than `usize::MAX`.
pub(crate) fn opening_len<O: Revisions>(alloc: Global, opening: &O) -> Result<usize, AllocError>
    ensures len { IfOk result (λ len. len ≡ length (compact_text (all_opened_data (opened_by (O.document opening.now) (O.shown opening.now))))) }
{
    let lists = lists_len(opening)?;
    list_len(opening.revs(), |rev| one_len(alloc, opening, lists, *rev))
}

/// The length of what the lists of conflicts add to each document.
fn lists_len<O: Revisions>(opening: &O) -> Result<usize, AllocError>
    ensures { IfOk result (λ len. len ≡ lists_len (O.listed opening.now) (O.listed_deleted opening.now)) }
{
    let live = revs_len(CONFLICTS, opening.conflicts())?;
    let deleted = revs_len(DELETED_CONFLICTS, opening.deleted_conflicts())?;
    sum_len(live, deleted)
}

/// The length of a member that lists revisions, where its name, the comma before it and the colon take so many bytes: none
/// where there are none.
fn revs_len(named: usize, revs: &[RevId]) -> Result<usize, AllocError>
    ensures { IfOk result (λ len. (name : List ℕ) → named ≡ length (quoted name) + 2
        → len ≡ length (bare_text true (revs_member name revs.now))) }
{
    if revs.is_empty() {
        return Ok(0);
    }
    let list = list_len(revs, |rev| Ok(rev_len(rev)))?;
    sum_len(named, list)
}

/// The length of a revision as it is written, where lists of conflicts add so much to a document.
fn one_len<O: Revisions>(
    alloc: Global,
    opening: &O,
    lists: usize,
    rev: RevId,
) -> Result<usize, AllocError>
    ensures { lists ≡ lists_len (O.listed opening.now) (O.listed_deleted opening.now) → IfOk result (λ len. len
        ≡ length (compact_text (opened_data (O.document opening.now rev)))) }
{
    let unlisted = opening.unlisted(alloc, rev)?;
    let own = opened_len(alloc, &unlisted)?;
    match &unlisted {
        Ok(document) => {
            let _recalled = document.body.text();
            sum_len(own, lists)
        }
        Err(_) => Ok(own),
    }
}

/// The text of a revision as it is written.
pub(crate) fn one_text<O: Revisions>(
    alloc: Global,
    opening: &O,
    rev: RevId,
) -> Result<String, AllocError>
    ensures { IfOk result (λ text. string_bytes text
        ≡ compact_text (opened_data (O.document opening.now rev))) }
{
    let one = opening.opened(alloc, rev)?;
    opened_text(alloc, &one)
}
