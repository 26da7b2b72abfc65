//! Answers to queries.
ghost use Rattle.std.specs.Prelude.{◌≡◌};
ghost use Rattle.queries.specs.Answer.{answer_of};

use crate::difference::Differences;
use crate::document::Document;
use crate::page::{ChangesPage, Counts};
use document_id::DocId;
use json_profile::Body;
use model::Absent;
use revision_id::RevId;
use std::marker::Model;
use std::sync::Arc;

/// The answer to a query, by its kind.
#[derive(Drop)]
pub enum AnswerKind {
    Found(Result<Document, Absent>),
    /// Each revision as a document, or its name where it is missing.
    Opened(Vec<Result<Document, RevId>>),
    Differences(Differences),
    Changed(ChangesPage),
    /// Each document with its winner.
    Documents(Vec<(DocId, RevId)>),
    Counted(Counts),
    /// The revision number and the body of a local document.
    FoundLocal(Option<(u32, Arc<Body>)>),
    /// How many revisions are kept above a leaf.
    Limit(u32),
}

/// The answer to a query.
pub struct Answer {
    kind: AnswerKind,
}

impl Drop for Answer {
    fn drop(self) {
        let Answer { kind: _ } = self;
    }
}

impl Model for Answer {
    ghost use Rattle.model.specs.Query.{Answer};
    ghost use Rattle.std.specs.Coded.{codes};
    ghost use Rattle.model.specs.JsonCode.{coded_members};

    ghost Value = { Answer };

    ghost coded = { Prim.hlevel (codes, coded_members) };

    ghost use Rattle.queries.specs.Answer.{answer_of};

    ghost view = { λ a. answer_of a.kind };
}

impl Answer {
    /// The answer of a kind.
    pub fn new(kind: AnswerKind) -> Answer
        ensures answer { result ≡ answer_of kind }
    {
        Answer { kind }
    }

    /// What is answered.
    pub fn kind(&self) -> &AnswerKind
        ensures kind { answer_of result.now ≡ self.now }
    {
        &self.kind
    }
}
