//! A path of revisions, as a replicated document lists it.
ghost use Rattle.std.specs.Prelude.{◌≡◌, [], ◌∷◌, IfOk, IfSome, option_map};
ghost use Rattle.std.specs.Arc.{arc_value};
ghost use Rattle.serde_json.specs.View.{view, items_view};
ghost use Rattle.model.specs.Revision.{IsRev};
ghost use Rattle.commands.specs.Merge.{merge_of, newest_of};
ghost use Rattle.document_json.specs.Path.{path_down, path_in, rev_at, revs_down, start_in};

use crate::number::from_one;
use crate::revision::read_revision_with;
use commands::Merge;
use document_id::DocId;
use json_profile::{Body, Json};
use revision_id::RevId;
use serde_json::Value;
use std::alloc::{AllocError, Global};
use std::marker::Model;
use std::sync::Arc;

/// A revision and its ancestors, newest first, each one generation older than the one before.
#[derive(Drop)]
pub(crate) struct Path {
    revisions: Vec<RevId>,
}

impl Model for Path {
    ghost use Rattle.std.specs.Prelude.{List};
    ghost use Rattle.model.specs.Revision.{Rev};
    ghost use Rattle.model.specs.TreeChange.{IsPath};

    ghost Value = { List Rev };

    ghost view = { λ p. p.revisions.items };

    ghost invariant = { λ p. IsPath p.revisions.items };
}

impl Path {
    /// The path of one revision whose ancestors are not known.
    pub(crate) fn alone(alloc: Global, rev: RevId) -> Result<Path, AllocError>
        ensures { IfOk result (λ path. path ≡ rev ∷ []) }
    {
        let _recalled = rev.generation();
        let revisions = vec![in alloc; rev]?;
        Ok(Path { revisions })
    }

    /// The path in `_revisions`, if that has the shape of one.
    pub(crate) fn find(alloc: Global, value: &Json) -> Result<Option<Path>, AllocError>
        ensures { IfOk result (λ path. path ≡ path_in value.now) }
    {
        let value = value.value();
        let Some(start) = find_start(value) else {
            return Ok(None);
        };
        let Some(hashes) = value.get("ids").and_then(Value::as_array) else {
            return Ok(None);
        };
        read_path(alloc, start, hashes)
    }

    /// The newest revision.
    pub(crate) fn newest(&self) -> RevId
        ensures { result ≡ newest_of self.now }
    {
        match self.revisions.first() {
            Some(rev) => *rev,
            None => unreachable!(),
        }
    }

    /// The merge of this path.
    pub(crate) fn into_merge(self, id: DocId, deleted: bool, body: Arc<Body>) -> Merge
        ensures { result ≡ merge_of id self deleted (arc_value body) }
    {
        let Path { revisions } = self;
        match Merge::new(id, revisions, deleted, body) {
            Some(merge) => merge,
            None => unreachable!(),
        }
    }
}

/// The generation of the newest revision.
fn find_start(value: &Value) -> Option<u32>
    ensures { result ≡ start_in (view value.now) }
{
    from_one(value.get("start").and_then(Value::as_u64)?)
}

/// The revision of this generation whose hash the value is.
fn read_revision_at(generation: u32, hash: &Value) -> Option<RevId>
    ensures revision { result ≡ rev_at generation (view hash.now) }
    ensures is_rev { IfSome result (λ rev. (rev.generation ≡ generation) × IsRev rev) }
{
    read_revision_with(generation, hash.as_str()?)
}

/// The revisions of these hashes, the first of this generation.
fn read_revisions(
    alloc: Global,
    newest: u32,
    hashes: &[Value],
) -> Result<Option<Vec<RevId>>, AllocError>
    ensures { IfOk result (λ found. option_map (λ revs. revs.items) found ≡ revs_down newest (items_view hashes.now)) }
{
    let mut revisions = Vec::with_capacity(alloc, hashes.len())?;
    let mut generation = newest;
    for hash in hashes {
        let Some(revision) = read_revision_at(generation, hash) else {
            return Ok(None);
        };
        revisions.push(revision)?;
        generation -= 1;
    }
    Ok(Some(revisions))
}

/// The path of these hashes, if there is one.
fn read_path(alloc: Global, start: u32, hashes: &[Value]) -> Result<Option<Path>, AllocError>
    ensures { IfOk result (λ path. path ≡ path_down start (items_view hashes.now)) }
{
    if hashes.is_empty() {
        return Ok(None);
    }
    match read_revisions(alloc, start, hashes)? {
        Some(revisions) => Ok(Some(Path { revisions })),
        None => Ok(None),
    }
}
