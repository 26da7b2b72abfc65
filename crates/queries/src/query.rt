//! Queries: what is asked of a database as it stands.
ghost use Rattle.std.specs.Prelude.{◌≡◌};
ghost use Rattle.queries.specs.Query.{query_of};

use crate::options::Options;
use commands::NamedRevisions;
use document_id::{DocId, DocIds};
use model::Style;
use revision_id::RevId;
use std::marker::Model;

/// What is asked of the database as it stands, by its kind.
#[derive(Drop)]
pub enum QueryKind {
    /// The winner, or the revision named.
    Get {
        id: DocId,
        rev: Option<RevId>,
        options: Options,
    },
    /// All leaves, or the revisions listed.
    OpenRevs {
        id: DocId,
        asked: Option<Vec<RevId>>,
        options: Options,
    },
    /// Which of these revisions are not known.
    RevsDiff(NamedRevisions),
    /// The changes after a number, at most `limit` rows where there is a limit, of some documents where a set is given.
    Changes {
        since: u64,
        limit: Option<u64>,
        style: Style,
        ids: Option<DocIds>,
    },
    AllDocuments,
    Info,
    GetLocal(DocId),
    RevsLimit,
    PurgedInfosLimit,
}

/// What is asked of the database as it stands.
pub struct Query {
    kind: QueryKind,
}

impl Drop for Query {
    fn drop(self) {
        let Query { kind: _ } = self;
    }
}

impl Model for Query {
    ghost use Rattle.model.specs.Query.{Query};

    ghost Value = { Query };

    ghost use Rattle.queries.specs.Query.{query_of};

    ghost view = { λ q. query_of q.kind };
}

impl Query {
    /// The query of a kind.
    pub fn new(kind: QueryKind) -> Query
        ensures query { result ≡ query_of kind }
    {
        Query { kind }
    }

    /// What is asked.
    pub fn kind(&self) -> &QueryKind
        ensures kind { query_of result.now ≡ self.now }
    {
        &self.kind
    }
}
