//! Runs by the forks that they hang under, the nearest first.
ghost use Rattle.std.specs.Prelude.{◌≡◌, Some, refl};
ghost use Rattle.std.specs.Cmp.{partial_equiv_from_equiv, eq_by_cmp_equiv, po};
ghost use Rattle.std.specs.Ordering.{eq_by_cmp};
ghost use Rattle.revision_runs.specs.Keys.{hung_cmp, hung_total, hung_exact};

use index_key::IndexKey;
use revision_id::RevId;
use std::cmp::Ordering;

/// The fork above a run, the least generation of a leaf below it, and its top. One of generation 0 with no top is below all of that fork.
#[derive(Clone, Copy, Drop)]
pub(crate) struct Hung {
    pub(crate) fork: RevId,
    pub(crate) low: u32,
    pub(crate) top: Option<RevId>,
}

impl PartialEq for Hung {
    ghost eq = { eq_by_cmp hung_cmp };

    ghost laws = { partial_equiv_from_equiv (eq_by_cmp_equiv hung_total) };

    fn eq(&self, other: &Hung) -> bool {
        self.cmp(other) == Ordering::Equal
    }
}

impl Eq for Hung {
    ghost laws = { eq_by_cmp_equiv hung_total };
}

impl PartialOrd for Hung {
    ghost partial_cmp = { λ x y. Some (hung_cmp x y) };

    ghost laws = { po hung_total (λ x y. refl) };

    fn partial_cmp(&self, other: &Hung) -> Option<Ordering> {
        Some(self.cmp(other))
    }
}

impl Ord for Hung {
    ghost cmp = { hung_cmp };

    ghost total = { hung_total };

    ghost matches_partial_cmp = { λ x y. refl };

    ghost matches_eq = { λ x y. refl };

    fn cmp(&self, other: &Hung) -> Ordering {
        self.fork
            .cmp(&other.fork)
            .then(self.low.cmp(&other.low))
            .then(self.top.cmp(&other.top))
    }
}

impl IndexKey for Hung {
    ghost exact = { hung_exact };
}
