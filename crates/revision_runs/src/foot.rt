//! Runs by their bottoms.
ghost use Rattle.std.specs.Prelude.{◌≡◌, Some, refl};
ghost use Rattle.std.specs.Cmp.{partial_equiv_from_equiv, eq_by_cmp_equiv, po};
ghost use Rattle.std.specs.Ordering.{eq_by_cmp};
ghost use Rattle.revision_runs.specs.Keys.{foot_cmp, foot_total, foot_exact};

use index_key::IndexKey;
use revision_id::RevId;
use std::cmp::Ordering;

/// The bottom of a run and its top. A foot with no top is below all with that bottom.
#[derive(Clone, Copy, Drop)]
pub(crate) struct Foot {
    pub(crate) bottom: RevId,
    pub(crate) top: Option<RevId>,
}

impl PartialEq for Foot {
    ghost eq = { eq_by_cmp foot_cmp };

    ghost laws = { partial_equiv_from_equiv (eq_by_cmp_equiv foot_total) };

    fn eq(&self, other: &Foot) -> bool {
        self.cmp(other) == Ordering::Equal
    }
}

impl Eq for Foot {
    ghost laws = { eq_by_cmp_equiv foot_total };
}

impl PartialOrd for Foot {
    ghost partial_cmp = { λ x y. Some (foot_cmp x y) };

    ghost laws = { po foot_total (λ x y. refl) };

    fn partial_cmp(&self, other: &Foot) -> Option<Ordering> {
        Some(self.cmp(other))
    }
}

impl Ord for Foot {
    ghost cmp = { foot_cmp };

    ghost total = { foot_total };

    ghost matches_partial_cmp = { λ x y. refl };

    ghost matches_eq = { λ x y. refl };

    fn cmp(&self, other: &Foot) -> Ordering {
        self.bottom
            .cmp(&other.bottom)
            .then(self.top.cmp(&other.top))
    }
}

impl IndexKey for Foot {
    ghost exact = { foot_exact };
}
