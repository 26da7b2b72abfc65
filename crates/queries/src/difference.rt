//! What a replica lacks, as `_revs_diff` reports it.
ghost use Rattle.std.specs.Prelude.{◌≡◌, T};
ghost use Rattle.std.specs.FinMap.Entries.{is_sorted};
ghost use Rattle.model.specs.Command.{names};
ghost use Rattle.model.specs.Map.{entries};

use document_id::DocId;
use revision_id::RevId;
use std::marker::Model;

/// Of the revisions asked for those that are not known, and the leaves that may be their ancestors.
pub struct Difference {
    pub missing: Vec<RevId>,
    pub possible_ancestors: Vec<RevId>,
}

impl Drop for Difference {
    fn drop(self) {
        let Difference {
            missing: _,
            possible_ancestors: _,
        } = self;
    }
}

impl Model for Difference {
    ghost use Rattle.model.specs.Query.{Difference};

    ghost Value = { Difference };

    ghost view = { λ d. record { missing = d.missing.items; possible_ancestors = d.possible_ancestors.items } };
}

/// The documents that lack revisions, in the byte order of the ids.
pub struct Differences {
    documents: Vec<(DocId, Difference)>,
    ghost rising: { T (is_sorted names.cmp documents.items) },
}

impl Drop for Differences {
    fn drop(self) {
        let Differences { documents: _ } = self;
    }
}

impl Model for Differences {
    ghost use Rattle.model.specs.Command.{names};
    ghost use Rattle.model.specs.Map.{Map};
    ghost use Rattle.model.specs.Query.{Difference};

    ghost Value = { Map names Difference };

    ghost view = { λ d. record { list = d.documents.items; sorted = d.rising } };
}

impl Differences {
    /// These differences, whose ids rise strictly.
    pub fn new(documents: Vec<(DocId, Difference)>) -> Differences
        requires rising { T (is_sorted names.cmp documents.items) }
        ensures entries { entries result ≡ documents.items }
    {
        Differences { documents }
    }

    /// Each document with its difference, in the order of the ids.
    pub fn documents(&self) -> &[(DocId, Difference)]
        ensures entries { result.now ≡ entries self.now }
    {
        &self.documents
    }
}
