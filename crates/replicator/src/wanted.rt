//! The revisions that are asked for.
ghost use Rattle.std.specs.Prelude.{◌≡◌, ◌++◌, IfOk, OnOk, map};
ghost use Rattle.model.specs.Map.{entries};
ghost use Rattle.replicator.specs.Wanted.{absent_in, given_in, next_revs, wanted_in};

use crate::peer::Opened;
use commands::Merge;
use document_id::DocId;
use queries::{Difference, Differences};
use revision_id::RevId;
use std::alloc::{AllocError, Global};

/// The most revisions that are asked for in one call.
const MAX_REVS: usize = 100;

/// The revisions that are missing, each with its document.
pub(crate) fn wanted_of(
    alloc: Global,
    differences: &Differences,
) -> Result<Vec<(DocId, RevId)>, AllocError>
    ensures { IfOk result (λ wanted. wanted.items ≡ wanted_in (entries differences.now)) }
{
    let mut wanted = Vec::new(alloc);
    for (id, difference) in differences.documents() {
        push_missing(&mut wanted, id, difference)?;
    }
    Ok(wanted)
}

fn push_missing(
    wanted: &mut Vec<(DocId, RevId)>,
    id: &DocId,
    difference: &Difference,
) -> Result<(), AllocError>
    ensures { OnOk result (wanted.new.items
        ≡ wanted.old.items ++ map (λ rev. (id.now, rev)) difference.now.missing) }
{
    for rev in &difference.missing {
        wanted.push((id.share()?, *rev))?;
    }
    Ok(())
}

/// The first revisions of a list that are of this document, as many as one call asks for, which is at most
/// a hundred.
pub fn next_revs(
    alloc: Global,
    id: &DocId,
    wanted: &[(DocId, RevId)],
) -> Result<Vec<RevId>, AllocError>
    ensures { IfOk result (λ revs. revs.items ≡ next_revs id.now wanted.now) }
{
    wanted
        .iter()
        .take(MAX_REVS)
        .take_while(|wanted| wanted.0 == *id)
        .map(|wanted| wanted.1)
        .collect(alloc)
}

/// Adds the documents that are given, and the revisions of this id that are missing.
pub(crate) fn add_opened(
    given: &mut Vec<Merge>,
    absent: &mut Vec<(DocId, RevId)>,
    id: &DocId,
    opened: Opened,
) -> Result<(), AllocError>
    ensures given { OnOk result (given.new.items ≡ given.old.items ++ given_in opened) }
    ensures absent { OnOk result (absent.new.items ≡ absent.old.items ++ absent_in id.now opened) }
{
    let Opened { revisions } = opened;
    for revision in revisions {
        match revision {
            Ok(document) => given.push(document)?,
            Err(missing) => absent.push((id.share()?, missing))?,
        }
    }
    Ok(())
}
