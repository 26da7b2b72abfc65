//! Which revisions a database lacks.
ghost use Rattle.std.specs.Prelude.{◌≡◌, ◌++◌, IfOk, OnOk, filter, not, option_copied};
ghost use Rattle.model.specs.Tree.{knows};
ghost use Rattle.model.specs.History.{now};
ghost use Rattle.changes_feed.specs.Lacking.{ancestors_of, known_tree, one_lacking};
ghost use Rattle.model.specs.Documents.{difference as difference_at, difference_of as difference_from, differences, largest_generation as largest_of, missing_from as missing_in};

use crate::leaves::leaves_below;
use crate::once::once;
use commands::NamedRevisions;
use document_id::DocId;
use queries::{Difference, Differences};
use revision_id::RevId;
use revision_tree::RevTree;
use snapshots::Version;
use std::alloc::{AllocError, Global};

/// Of each document the revisions asked for that are not known, in the order asked, and the leaves
/// of a generation below the largest of these. A document that lacks none is left out.
pub fn revs_diff(
    alloc: Global,
    version: &Version,
    asked: &NamedRevisions,
) -> Result<Differences, AllocError>
    ensures differences { IfOk result (λ answer. answer ≡ differences (now version.now) asked.now) }
{
    let mut lacking = Vec::new(alloc);
    for document in asked.documents() {
        let difference = difference(alloc, version, &document.id, &document.revisions)?;
        add(&mut lacking, &document.id, difference)?;
    }
    Ok(Differences::new(lacking))
}

/// Adds a document that lacks something.
fn add(
    lacking: &mut Vec<(DocId, Difference)>,
    id: &DocId,
    difference: Option<Difference>,
) -> Result<(), AllocError>
    ensures { OnOk result (lacking.new.items ≡ lacking.old.items ++ one_lacking id.now difference) }
{
    if let Some(difference) = difference {
        lacking.push((id.share()?, difference))?;
    }
    Ok(())
}

fn difference(
    alloc: Global,
    version: &Version,
    id: &DocId,
    asked: &[RevId],
) -> Result<Option<Difference>, AllocError>
    ensures { IfOk result (λ answer. answer ≡ difference_at (now version.now) id.now asked.now) }
{
    match version.database().documents().get(id) {
        Some(record) => difference_in(alloc, Some(record.tree()), asked),
        None => difference_in(alloc, None, asked),
    }
}

fn difference_in(
    alloc: Global,
    tree: Option<&RevTree>,
    asked: &[RevId],
) -> Result<Option<Difference>, AllocError>
    ensures { IfOk result (λ answer. answer ≡ (let t = known_tree (option_copied tree.entry) in difference_from t (missing_in t asked.now))) }
{
    let missing = missing_from(alloc, tree, asked)?;
    if missing.is_empty() {
        return Ok(None);
    }
    let possible_ancestors = ancestors(alloc, tree, largest_generation(&missing))?;
    Ok(Some(Difference {
        missing,
        possible_ancestors,
    }))
}

/// The revisions that are not known, each at its first place. Of a document that is not known all
/// are missing.
fn missing_from(
    alloc: Global,
    tree: Option<&RevTree>,
    asked: &[RevId],
) -> Result<Vec<RevId>, AllocError>
    ensures { IfOk result (λ missing. missing.items ≡ missing_in (known_tree (option_copied tree.entry)) asked.now) }
{
    match tree {
        Some(tree) => once(alloc, &not_known(alloc, tree, asked)?),
        None => once(alloc, asked),
    }
}

/// The leaves of a generation below `generation`, in rising order.
fn ancestors(
    alloc: Global,
    tree: Option<&RevTree>,
    generation: u32,
) -> Result<Vec<RevId>, AllocError>
    ensures { IfOk result (λ revs. revs.items ≡ ancestors_of generation (known_tree (option_copied tree.entry))) }
{
    match tree {
        Some(tree) => leaves_below(alloc, tree, generation),
        None => Ok(Vec::new(alloc)),
    }
}

fn not_known(alloc: Global, tree: &RevTree, revs: &[RevId]) -> Result<Vec<RevId>, AllocError>
    ensures { IfOk result (λ others. others.items ≡ filter (λ r. not (knows tree.now r)) revs.now) }
{
    revs.iter()
        .filter(|rev| !tree.knows(**rev))
        .copied()
        .collect(alloc)
}

fn largest_generation(revs: &[RevId]) -> u32
    ensures { result ≡ largest_of revs.now }
{
    let mut largest = 0;
    for rev in revs {
        largest = largest.max(rev.generation());
    }
    largest
}
