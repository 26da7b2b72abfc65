//! Leaves in the winner's order.
ghost use Rattle.std.specs.Prelude.{◌≡◌, Some, refl};
ghost use Rattle.std.specs.Cmp.{partial_equiv_from_equiv, eq_by_cmp_equiv, po};
ghost use Rattle.std.specs.Ordering.{eq_by_cmp};
ghost use Rattle.revision_tree.specs.Ranks.{rank_cmp, rank_total, rank_exact};

use index_key::IndexKey;
use revision_id::RevId;
use std::cmp::Ordering;

/// A leaf in the winner's order: live before deleted, and of each the greatest first.
#[derive(Clone, Copy, Drop)]
pub(crate) struct Rank {
    pub(crate) deleted: bool,
    pub(crate) rev: RevId,
}

impl PartialEq for Rank {
    ghost eq = { eq_by_cmp rank_cmp };

    ghost laws = { partial_equiv_from_equiv (eq_by_cmp_equiv rank_total) };

    fn eq(&self, other: &Rank) -> bool {
        self.cmp(other) == Ordering::Equal
    }
}

impl Eq for Rank {
    ghost laws = { eq_by_cmp_equiv rank_total };
}

impl PartialOrd for Rank {
    ghost partial_cmp = { λ x y. Some (rank_cmp x y) };

    ghost laws = { po rank_total (λ x y. refl) };

    fn partial_cmp(&self, other: &Rank) -> Option<Ordering> {
        Some(self.cmp(other))
    }
}

impl Ord for Rank {
    ghost cmp = { rank_cmp };

    ghost total = { rank_total };

    ghost matches_partial_cmp = { λ x y. refl };

    ghost matches_eq = { λ x y. refl };

    fn cmp(&self, other: &Rank) -> Ordering {
        self.deleted
            .cmp(&other.deleted)
            .then(other.rev.cmp(&self.rev))
    }
}

impl IndexKey for Rank {
    ghost exact = { rank_exact };
}
