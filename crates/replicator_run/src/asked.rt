//! What is asked of the ends of a replication.
ghost use Rattle.std.specs.Prelude.{◌≡◌};
ghost use Rattle.replicator_run.specs.Asked.{name_of_asked, name_of_end};

/// An end of a replication.
#[derive(Clone, Copy, Debug, PartialEq, Eq)]
pub enum End {
    /// Where changes come from.
    Source,
    /// Where they are brought to.
    Target,
}

/// What is asked of an end.
#[derive(Clone, Copy, Debug, PartialEq, Eq)]
pub enum Asked {
    /// Its checkpoint.
    Checkpoint,
    /// Which documents have changed.
    Changes,
    /// Which revisions it lacks.
    Differences,
    /// Revisions of a document.
    Revisions,
    /// To take documents.
    Bulk,
    /// To take a checkpoint.
    NewCheckpoint,
}

impl End {
    /// Its name.
    pub fn name(self) -> &'static str
        ensures { result.now ≡ name_of_end self }
    {
        match self {
            End::Source => "source",
            End::Target => "target",
        }
    }
}

impl Asked {
    /// The request, by its method where that tells it from others, and what CouchDB calls it.
    pub fn name(self) -> &'static str
        ensures { result.now ≡ name_of_asked self }
    {
        match self {
            Asked::Checkpoint => "GET _local",
            Asked::Changes => "_changes",
            Asked::Differences => "_revs_diff",
            Asked::Revisions => "open_revs",
            Asked::Bulk => "_bulk_docs",
            Asked::NewCheckpoint => "PUT _local",
        }
    }
}
