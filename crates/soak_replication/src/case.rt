//! The cases.

use crate::documents::{Documents, LOSER};
use crate::flaw::Flaw;

/// Which worker makes the second run.
#[derive(Clone, Copy)]
pub(crate) enum Second {
    SameWorker,
    NewWorker,
    /// There is no second run, unless the first was refused memory.
    IfRefusedMemory,
}

/// What the source has, the ends of the first run, and the second one.
#[derive(Clone, Copy)]
pub(crate) struct Script {
    pub(crate) name: &'static str,
    pub(crate) documents: Documents,
    pub(crate) source: Flaw,
    pub(crate) target: Flaw,
    pub(crate) second: Second,
}

/// A case, named for its first run.
#[derive(Clone, Copy)]
pub(crate) enum Case {
    Plain,
    TargetFails,
    SourceFails,
    LeftOut,
    Refused,
    /// Of three documents one is brought.
    Filtered,
    /// One run, and a second one only where memory was refused.
    Retried,
}

/// The cases that run without arguments.
pub(crate) const CASES: [Case; 6] = [
    Case::Plain,
    Case::TargetFails,
    Case::SourceFails,
    Case::LeftOut,
    Case::Refused,
    Case::Filtered,
];

impl Case {
    pub(crate) fn script(self) -> Script {
        match self {
            Case::Plain => PLAIN,
            Case::TargetFails => TARGET_FAILS,
            Case::SourceFails => SOURCE_FAILS,
            Case::LeftOut => LEFT_OUT,
            Case::Refused => REFUSED,
            Case::Filtered => FILTERED,
            Case::Retried => RETRIED,
        }
    }
}

const PLAIN: Script = Script {
    name: "two leaves come to an empty target",
    documents: Documents::Conflict,
    source: Flaw::None,
    target: Flaw::None,
    second: Second::SameWorker,
};

const FILTERED: Script = Script {
    name: "one document of three comes to an empty target",
    documents: Documents::Three,
    source: Flaw::None,
    target: Flaw::None,
    second: Second::SameWorker,
};

const TARGET_FAILS: Script = Script {
    name: "the target takes the bulk and fails",
    documents: Documents::Conflict,
    source: Flaw::None,
    target: Flaw::FailsAfterBulk,
    second: Second::NewWorker,
};

const SOURCE_FAILS: Script = Script {
    name: "the source fails at its checkpoint",
    documents: Documents::Conflict,
    source: Flaw::FailsAtCheckpoint,
    target: Flaw::None,
    second: Second::NewWorker,
};

const LEFT_OUT: Script = Script {
    name: "the source leaves a revision out",
    documents: Documents::Conflict,
    source: Flaw::LeavesOut(LOSER),
    target: Flaw::None,
    second: Second::NewWorker,
};

const REFUSED: Script = Script {
    name: "the target refuses a document",
    documents: Documents::Conflict,
    source: Flaw::None,
    target: Flaw::RefusesBulk,
    second: Second::NewWorker,
};

const RETRIED: Script = Script {
    name: "again where memory is refused",
    documents: Documents::Conflict,
    source: Flaw::None,
    target: Flaw::None,
    second: Second::IfRefusedMemory,
};
