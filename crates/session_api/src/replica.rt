//! What a replication asks of a session.
ghost use Rattle.std.specs.Prelude.{◌≡◌, Some, IfOk, option_map};
ghost use Rattle.std.specs.Arc.{arc_value};
ghost use Rattle.model.specs.Answers.{answer_to};
ghost use Rattle.model.specs.History.{now};
ghost use Rattle.model.specs.Query as model;
ghost use Rattle.session_api.specs.Known.{history_of};

use crate::calls::Calls;
use commands::NamedRevisions;
use document_id::{DocId, DocIds};
use json_profile::Body;
use model::Style;
use queries::{ChangesPage, Differences, Document, Options};
use revision_id::RevId;
use std::alloc::{AllocError, Global};
use std::sync::Arc;

/// A session that is one end of a replication, which takes answers apart: each is that of [`Viewer::answer`](crate::Viewer::answer)
/// to one kind of query, over what the session has seen.
pub trait Replica<X>: Calls<X> {
    /// A page of the changes above a number, of all documents or of some.
    fn changes(
        &self,
        alloc: Global,
        since: u64,
        limit: Option<u64>,
        style: Style,
        ids: &Option<DocIds>,
    ) -> Result<ChangesPage, AllocError>
        ensures page { IfOk result (λ page. model.Changed page
            ≡ answer_to (now (history_of (Self.known self.now))) (model.Changes since limit style ids.now)) };

    /// Which of these revisions are not known, and what may be their ancestors.
    fn revs_diff(&self, alloc: Global, asked: &NamedRevisions) -> Result<Differences, AllocError>
        ensures differences { IfOk result (λ differences. model.Differences differences
            ≡ answer_to (now (history_of (Self.known self.now))) (model.RevsDiff asked.now)) };

    /// These revisions of a document, each as a document or by its name where it is missing.
    fn documents(
        &self,
        alloc: Global,
        id: &DocId,
        revs: &[RevId],
        options: &Options,
    ) -> Result<Vec<Result<Document, RevId>>, AllocError>
        ensures opened { IfOk result (λ opened. model.Opened opened.items
            ≡ answer_to (now (history_of (Self.known self.now))) (model.OpenRevs id.now (Some revs.now) options.now)) };

    /// The number of a local document's revision and its body, if it is there. It takes no memory but a share.
    fn local(&self, id: &DocId) -> Result<Option<(u32, Arc<Body>)>, AllocError>
        ensures local { IfOk result (λ found. model.FoundLocal (option_map (λ l. (l.0, arc_value l.1)) found)
            ≡ answer_to (now (history_of (Self.known self.now))) (model.GetLocal id.now)) };
}
