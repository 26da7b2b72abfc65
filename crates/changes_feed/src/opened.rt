//! Several revisions of a document.
ghost use Rattle.std.specs.Prelude.{◌≡◌, ◌&&◌, ◌∷◌, ◌==◌, [], true, Ok, Err, IfOk, map, filter, flat_map, ok_or, option_copied, if◌then◌else◌};
ghost use Rattle.model.specs.Lists.{each_once};
ghost use Rattle.model.specs.Revision.{same_rev};
ghost use Rattle.model.specs.Tree.{knows};
ghost use Rattle.model.specs.History.{now};
ghost use Rattle.model.specs.Documents.{asked_of as asked_in, latest_or_itself as latest_or_same, opened, opened_at as opened_as, opened_in as opened_of, opened_unknown as unknown_opened};

use crate::claims::{claimed_by, claimed_leaves};
use crate::document::stored;
use crate::once::add_once;
use document_id::DocId;
use queries::{Document, Options};
use revision_id::RevId;
use revision_tree::RevTree;
use snapshots::Version;
use std::alloc::{AllocError, Global};
use std::collections::BTreeSet;

/// All leaves of a document, or the revisions listed, each as a document or by its name where its
/// body is not there. With `latest` a known revision stands for the leaves that descend from it,
/// and each leaf is given once.
pub fn open_revs(
    alloc: Global,
    version: &Version,
    id: &DocId,
    asked: Option<&[RevId]>,
    options: &Options,
) -> Result<Vec<Result<Document, RevId>>, AllocError>
    ensures opened { IfOk result (λ answer. answer.items
        ≡ opened (now version.now) id.now (option_copied asked.entry) options.now) }
{
    match version.database().documents().get(id) {
        Some(record) => opened_in(alloc, id, record.tree(), asked, options),
        None => opened_unknown(alloc, asked),
    }
}

fn opened_unknown(
    alloc: Global,
    asked: Option<&[RevId]>,
) -> Result<Vec<Result<Document, RevId>>, AllocError>
    ensures { IfOk result (λ answer. answer.items ≡ unknown_opened (option_copied asked.entry)) }
{
    match asked {
        Some(asked) => all_missing(alloc, asked),
        None => Ok(Vec::new(alloc)),
    }
}

fn all_missing(alloc: Global, asked: &[RevId]) -> Result<Vec<Result<Document, RevId>>, AllocError>
    ensures { IfOk result (λ answer. answer.items ≡ map Err asked.now) }
{
    asked.iter().map(|rev| Err(*rev)).collect(alloc)
}

fn opened_in(
    alloc: Global,
    id: &DocId,
    tree: &RevTree,
    asked: Option<&[RevId]>,
    options: &Options,
) -> Result<Vec<Result<Document, RevId>>, AllocError>
    ensures { IfOk result (λ answer. answer.items ≡ opened_of id.now options.now (option_copied asked.entry) tree.now) }
{
    let revs = asked_of(alloc, tree, asked, options)?;
    opened_each(alloc, id, tree, &revs, options)
}

fn opened_each(
    alloc: Global,
    id: &DocId,
    tree: &RevTree,
    revs: &[RevId],
    options: &Options,
) -> Result<Vec<Result<Document, RevId>>, AllocError>
    ensures { IfOk result (λ answer. answer.items ≡ map (opened_as id.now tree.now options.now) revs.now) }
{
    let mut answer = Vec::with_capacity(alloc, revs.len())?;
    for rev in revs {
        answer.push(opened_at(alloc, id, tree, options, *rev)?)?;
    }
    Ok(answer)
}

/// A revision as a document, or its name where its body is not there.
pub(crate) fn opened_at(
    alloc: Global,
    id: &DocId,
    tree: &RevTree,
    options: &Options,
    rev: RevId,
) -> Result<Result<Document, RevId>, AllocError>
    ensures { IfOk result (λ answer. answer ≡ opened_as id.now tree.now options.now rev) }
{
    match stored(alloc, id, tree, options, rev)? {
        Some(document) => Ok(Ok(document)),
        None => Ok(Err(rev)),
    }
}

/// The revisions that are shown.
pub(crate) fn asked_of(
    alloc: Global,
    tree: &RevTree,
    asked: Option<&[RevId]>,
    options: &Options,
) -> Result<Vec<RevId>, AllocError>
    ensures { IfOk result (λ revs. revs.items ≡ asked_in tree.now options.now (option_copied asked.entry)) }
{
    let Some(asked) = asked else {
        return tree.leaves(alloc);
    };
    if !options.latest {
        return Vec::from_slice(alloc, asked);
    }
    if are_latest(tree, asked) {
        return leaves_once(alloc, tree, asked);
    }
    latest_once(alloc, tree, asked)
}

/// Whether none of the revisions has any descendants.
fn are_latest(tree: &RevTree, asked: &[RevId]) -> bool
    ensures { result ≡ true → flat_map (latest_or_same tree.now) asked.now ≡ asked.now }
{
    for rev in asked {
        if !is_latest(tree, *rev) {
            return false;
        }
    }
    true
}

/// Whether it is a leaf, or isn't known.
fn is_latest(tree: &RevTree, rev: RevId) -> bool
    ensures { result ≡ true → latest_or_same tree.now rev ≡ rev ∷ [] }
{
    // Its revisions make a tree.
    let _recalled = tree.oldest();
    if tree.knows(rev) {
        return tree.is_leaf(rev);
    }
    true
}

/// The leaves that descend from the revisions, each at the first of these, and those that are not known
/// themselves.
fn latest_once(alloc: Global, tree: &RevTree, asked: &[RevId]) -> Result<Vec<RevId>, AllocError>
    ensures { IfOk result (λ once. once.items ≡ each_once (λ a b. knows tree.now a && same_rev a b) (flat_map (latest_or_same tree.now) asked.now)) }
{
    // Its revisions make a tree.
    let _recalled = tree.oldest();
    let leaves = claimed_leaves(alloc, tree, asked)?;
    let mut once = Vec::new(alloc);
    for place in 0..asked.len() {
        once.extend_from_slice(&shown_at(alloc, tree, &leaves, asked[place], place)?)?;
    }
    Ok(once)
}

/// The leaves that are shown for a revision at this place of those that are asked for.
fn shown_at(
    alloc: Global,
    tree: &RevTree,
    leaves: &[(RevId, usize)],
    rev: RevId,
    place: usize,
) -> Result<Vec<RevId>, AllocError>
    ensures { IfOk result (λ revs. revs.items ≡ (if knows tree.now rev then map (λ l. l.0) (filter (λ l. l.1 == place) leaves.now) else rev ∷ [])) }
{
    if tree.knows(rev) {
        return claimed_by(alloc, leaves, place);
    }
    Vec::from_slice(alloc, &[rev])
}

/// Each known revision at its first place, and all others.
fn leaves_once(alloc: Global, tree: &RevTree, revs: &[RevId]) -> Result<Vec<RevId>, AllocError>
    ensures { IfOk result (λ once. once.items ≡ each_once (λ a b. knows tree.now a && same_rev a b) revs.now) }
{
    let mut seen = BTreeSet::new(alloc);
    let mut once = Vec::new(alloc);
    for rev in revs {
        if tree.knows(*rev) {
            add_once(&mut once, &mut seen, *rev)?;
        } else {
            once.push(*rev)?;
        }
    }
    Ok(once)
}
