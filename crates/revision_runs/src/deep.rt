//! Runs by how far their tops are above the nearest leaf, the farthest first.
ghost use Rattle.std.specs.Prelude.{◌≡◌, Some, refl};
ghost use Rattle.std.specs.Cmp.{partial_equiv_from_equiv, eq_by_cmp_equiv, po};
ghost use Rattle.std.specs.Ordering.{eq_by_cmp};
ghost use Rattle.revision_runs.specs.Keys.{deep_cmp, deep_total, deep_exact};

use index_key::IndexKey;
use revision_id::RevId;
use std::cmp::Ordering;

/// How many steps the top of a run is above the nearest leaf, and the top.
#[derive(Clone, Copy, Drop)]
pub(crate) struct Deep {
    pub(crate) steps: u32,
    pub(crate) top: RevId,
}

impl PartialEq for Deep {
    ghost eq = { eq_by_cmp deep_cmp };

    ghost laws = { partial_equiv_from_equiv (eq_by_cmp_equiv deep_total) };

    fn eq(&self, other: &Deep) -> bool {
        self.cmp(other) == Ordering::Equal
    }
}

impl Eq for Deep {
    ghost laws = { eq_by_cmp_equiv deep_total };
}

impl PartialOrd for Deep {
    ghost partial_cmp = { λ x y. Some (deep_cmp x y) };

    ghost laws = { po deep_total (λ x y. refl) };

    fn partial_cmp(&self, other: &Deep) -> Option<Ordering> {
        Some(self.cmp(other))
    }
}

impl Ord for Deep {
    ghost cmp = { deep_cmp };

    ghost total = { deep_total };

    ghost matches_partial_cmp = { λ x y. refl };

    ghost matches_eq = { λ x y. refl };

    fn cmp(&self, other: &Deep) -> Ordering {
        other.steps.cmp(&self.steps).then(self.top.cmp(&other.top))
    }
}

impl IndexKey for Deep {
    ghost exact = { deep_exact };
}
