//! A document's winner, or a revision that is named.
ghost use Rattle.std.specs.Prelude.{◌≡◌, Err, IfOk, ok_or};
ghost use Rattle.model.specs.declared.absent.Absent.TheVariants.{IsMissing as IsUnknown};
ghost use Rattle.model.specs.Tree.{winner};
ghost use Rattle.model.specs.History.{now};
ghost use Rattle.model.specs.Documents.{found, found_in as found_of, named_by as named_of, of_winner as winner_shown, stored as stored_of};

use crate::document::stored;
use crate::leaves::latest_of;
use document_id::DocId;
use model::Absent;
use queries::{Document, Options};
use revision_id::RevId;
use revision_tree::RevTree;
use snapshots::Version;
use std::alloc::{AllocError, Global};

/// The winner of a document, or the revision named: with `latest` the first of the leaves that descend
/// from it, in the winner's order.
pub fn get(
    alloc: Global,
    version: &Version,
    id: &DocId,
    rev: Option<RevId>,
    options: &Options,
) -> Result<Result<Document, Absent>, AllocError>
    ensures found { IfOk result (λ answer. answer ≡ found (now version.now) id.now rev options.now) }
{
    match version.database().documents().get(id) {
        Some(record) => found_in(alloc, id, record.tree(), rev, options),
        None => Ok(Err(missing())),
    }
}

fn found_in(
    alloc: Global,
    id: &DocId,
    tree: &RevTree,
    rev: Option<RevId>,
    options: &Options,
) -> Result<Result<Document, Absent>, AllocError>
    ensures { IfOk result (λ answer. answer ≡ found_of id.now options.now rev tree.now) }
{
    let Some(rev) = rev else {
        return of_winner(alloc, id, tree, options);
    };
    match named_by(alloc, tree, options, rev)? {
        Some(named) => shown(alloc, id, tree, options, named),
        None => Ok(Err(missing())),
    }
}

fn of_winner(
    alloc: Global,
    id: &DocId,
    tree: &RevTree,
    options: &Options,
) -> Result<Result<Document, Absent>, AllocError>
    ensures { IfOk result (λ answer. answer ≡ winner_shown id.now tree.now options.now (winner tree.now)) }
{
    let winner = tree.winner();
    if winner.deleted {
        return Ok(Err(Absent::WasDeleted));
    }
    shown(alloc, id, tree, options, winner.rev)
}

/// The revision that is shown in the place of `rev`.
fn named_by(
    alloc: Global,
    tree: &RevTree,
    options: &Options,
    rev: RevId,
) -> Result<Option<RevId>, AllocError>
    ensures { IfOk result (λ named. named ≡ named_of tree.now options.now rev) }
{
    if !options.latest {
        return Ok(Some(rev));
    }
    let latest = latest_of(alloc, tree, rev)?;
    Ok(latest.first().copied())
}

fn shown(
    alloc: Global,
    id: &DocId,
    tree: &RevTree,
    options: &Options,
    rev: RevId,
) -> Result<Result<Document, Absent>, AllocError>
    ensures { IfOk result (λ answer. answer ≡ ok_or (stored_of id.now tree.now options.now rev) IsUnknown) }
{
    match stored(alloc, id, tree, options, rev)? {
        Some(document) => Ok(Ok(document)),
        None => Ok(Err(missing())),
    }
}

fn missing() -> Absent
    ensures { result ≡ IsUnknown }
{
    Absent::IsMissing
}
