//! The cases in which a compaction is held.

use crate::act::{Act, Generation};
use commands::Limits;
use updater_state::Point;

/// What two sessions do with a new database.
#[derive(Clone, Copy)]
pub(crate) struct Script {
    pub(crate) name: &'static str,
    pub(crate) limits: Limits,
    /// Where session 0 is held, the first times that it comes there.
    pub(crate) held: Option<Point>,
    /// What session 0 does.
    pub(crate) held_acts: &'static [Act],
    /// What session 1 does each time that session 0 is held.
    pub(crate) acts: &'static [&'static [Act]],
    /// What session 1 does after they met.
    pub(crate) last_acts: &'static [Act],
}

/// A case, named for what becomes of its compaction.
#[derive(Clone, Copy)]
pub(crate) enum Case {
    Crossed,
    Behind,
    Touched,
    Twice,
    Thrice,
    Given,
    Overrun,
    Cut,
    Full,
    Met,
}

pub(crate) const CASES: [Case; 10] = [
    Case::Crossed,
    Case::Behind,
    Case::Touched,
    Case::Twice,
    Case::Thrice,
    Case::Given,
    Case::Overrun,
    Case::Cut,
    Case::Full,
    Case::Met,
];

impl Case {
    pub(crate) fn script(self) -> Script {
        match self {
            Case::Crossed => CROSSED,
            Case::Behind => BEHIND,
            Case::Touched => TOUCHED,
            Case::Twice => TWICE,
            Case::Thrice => THRICE,
            Case::Given => GIVEN,
            Case::Overrun => OVERRUN,
            Case::Cut => CUT,
            Case::Full => FULL,
            Case::Met => MET,
        }
    }
}

/// Slices of one record, and no record taken over at the end.
const LIMITS: Limits = Limits {
    sessions: 2,
    queue: 4,
    gather: 4,
    slice: 1,
    slack: 0,
    tries: 1,
    max_places: 100,
};

/// One more than the log of purges keeps.
const MANY: usize = 1001;

const CROSSED: Script = Script {
    name: "a purge and an edit while the first slice is held",
    limits: LIMITS,
    held: Some(Point::Sliced),
    held_acts: &[Act::Put('x'), Act::Put('y'), Act::Compact],
    acts: &[&[Act::Purge('x'), Act::Edit('y'), Act::Look]],
    last_acts: &[
        Act::Look,
        Act::Find('x', Generation::First),
        Act::Find('y', Generation::First),
        Act::Find('y', Generation::Second),
    ],
};

const BEHIND: Script = Script {
    name: "more documents than the slack while a copy that caught up is held",
    limits: Limits {
        slice: 4096,
        slack: 1,
        ..LIMITS
    },
    held: Some(Point::CaughtUp),
    held_acts: &[Act::Compact, Act::Look, Act::Compact],
    acts: &[&[Act::Put('x'), Act::Put('y')]],
    last_acts: &[Act::Look],
};

const TOUCHED: Script = Script {
    name: "as many documents as the slack while a copy that caught up is held",
    held_acts: &[Act::Compact],
    acts: &[&[Act::Put('x')]],
    ..BEHIND
};

const TWICE: Script = Script {
    name: "two tries, of which the first is behind, after slices of two documents",
    limits: Limits {
        slice: 2,
        tries: 2,
        ..LIMITS
    },
    held_acts: &[
        Act::Put('a'),
        Act::Put('b'),
        Act::Put('c'),
        Act::Put('d'),
        Act::Put('e'),
        Act::Compact,
    ],
    ..TOUCHED
};

const THRICE: Script = Script {
    name: "three tries, of which the first two are behind",
    limits: Limits { tries: 3, ..LIMITS },
    acts: &[&[Act::Put('x')], &[Act::Put('y')]],
    ..TOUCHED
};

const GIVEN: Script = Script {
    name: "two tries, which are both behind",
    limits: Limits { tries: 2, ..LIMITS },
    ..THRICE
};

const OVERRUN: Script = Script {
    name: "more purges than the log keeps while the first slice is held",
    limits: Limits {
        slice: 4096,
        ..LIMITS
    },
    held: Some(Point::Sliced),
    held_acts: &[Act::PutMany(MANY), Act::Compact, Act::Look, Act::Compact],
    acts: &[&[Act::PurgeMany(MANY)]],
    last_acts: &[Act::Look],
};

const CUT: Script = Script {
    name: "a lower limit of the log of purges while the first slice is held",
    limits: Limits {
        slice: 4096,
        ..LIMITS
    },
    held: Some(Point::Sliced),
    held_acts: &[
        Act::Put('x'),
        Act::Put('y'),
        Act::Compact,
        Act::Look,
        Act::Compact,
    ],
    acts: &[&[Act::Purge('x'), Act::Purge('y'), Act::KeepPurges(1)]],
    last_acts: &[Act::Look],
};

const FULL: Script = Script {
    name: "a full history",
    limits: Limits {
        max_places: 3,
        ..LIMITS
    },
    held: None,
    held_acts: &[Act::Put('x'), Act::Put('y'), Act::Put('z'), Act::Compact],
    acts: &[],
    last_acts: &[Act::Look],
};

const MET: Script = Script {
    name: "a session that meets the one that compacted",
    limits: LIMITS,
    held: None,
    held_acts: &[Act::Put('a'), Act::Edit('a'), Act::Compact],
    acts: &[],
    last_acts: &[
        Act::Look,
        Act::Find('a', Generation::First),
        Act::Find('a', Generation::Second),
    ],
};
