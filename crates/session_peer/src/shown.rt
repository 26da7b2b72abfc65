//! Documents as they go to another replica.
ghost use Rattle.std.specs.Prelude.{◌≡◌, Some, IfOk};
ghost use Rattle.model.specs.Documents.{opened};
ghost use Rattle.model.specs.History.{now};
ghost use Rattle.model.specs.TreeChange.{IsPath};
ghost use Rattle.session_api.specs.Known.{history_of};
ghost use Rattle.session_peer.specs.Shown.{all_brought, brought, merge_shown, path_shown, with_paths, ShowPaths, ShowsPath};

use commands::Merge;
use document_id::DocId;
use queries::{Document, Options};
use replicator::Opened;
use revision_id::RevId;
use session_api::Replica;
use std::alloc::{AllocError, Global};

/// The newest in the place of a revision, with its path.
const WITH_PATHS: Options = Options {
    latest: true,
    revs: true,
    revs_info: false,
    conflicts: false,
    deleted_conflicts: false,
};

/// These revisions of a document, or newer ones in their place.
pub(crate) fn revisions<X, S: Replica<X>>(
    alloc: Global,
    session: &S,
    id: &DocId,
    revs: &[RevId],
) -> Result<Opened, AllocError>
    ensures { IfOk result (λ given. given
        ≡ all_brought (opened (now (history_of (S.known session.now))) id.now (Some revs.now) with_paths)) }
{
    let _recalled = session.place();
    let opened = session.documents(alloc, id, revs, &WITH_PATHS)?;
    let revisions = bring_all(alloc, opened)?;
    Ok(Opened { revisions })
}

/// The documents, which show their paths, as they go to a replica.
fn bring_all(
    alloc: Global,
    opened: Vec<Result<Document, RevId>>,
) -> Result<Vec<Result<Merge, RevId>>, AllocError>
    requires { ShowPaths opened.items }
    ensures { IfOk result (λ given. given.items ≡ all_brought opened.items) }
{
    let mut given = Vec::with_capacity(alloc, opened.len())?;
    for one in opened {
        given.push(bring(one))?;
    }
    Ok(given)
}

/// A document that shows its path, or the name of a revision that is missing.
fn bring(opened: Result<Document, RevId>) -> Result<Merge, RevId>
    requires { ShowsPath opened }
    ensures { result ≡ brought opened }
{
    match opened {
        Ok(document) => Ok(merge_shown(document)),
        Err(missing) => Err(missing),
    }
}

/// What a document that shows its path brings.
fn merge_shown(document: Document) -> Merge
    requires { IsPath (path_shown document) }
    ensures { result ≡ merge_shown document }
{
    let Document {
        id,
        deleted,
        body,
        revisions,
        ..
    } = document;
    let Some(path) = revisions else {
        unreachable!()
    };
    let Some(merge) = Merge::new(id, path, deleted, body) else {
        unreachable!()
    };
    merge
}
