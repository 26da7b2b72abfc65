//! Identities in order: by generation, and then by hash.
ghost use Rattle.std.specs.Prelude.{◌≡◌};
ghost use Rattle.std.proofs.Common.{rules};
ghost use Rattle.std.specs.Cmp.{partial_order_from_own_ties};
ghost use Rattle.std.specs.Cmp.Rules.{comparing};
ghost use Rattle.std.specs.Ordering.{as_partial_cmp, eq_by_cmp};
ghost use Rattle.model.specs.Revision.{rev_cmp};

use crate::rev::RevId;
use index_key::IndexKey;
use std::cmp::Ordering;

impl PartialEq for RevId {
    ghost eq = { eq_by_cmp rev_cmp };

    ghost laws = { Prim.search (comparing, rules) depth 9 };

    fn eq(&self, other: &RevId) -> bool {
        self.cmp(other).is_eq()
    }
}

impl Eq for RevId {
    ghost laws = { Prim.search (comparing, rules) depth 9 };
}

impl Ord for RevId {
    ghost cmp = { rev_cmp };

    ghost total = { Prim.search (comparing, rules) };

    ghost matches_partial_cmp = { Prim.search (comparing, rules) };

    ghost matches_eq = { Prim.search (comparing, rules) };

    fn cmp(&self, other: &RevId) -> Ordering {
        self.generation
            .cmp(&other.generation)
            .then(self.hash.cmp(&other.hash))
    }
}

impl PartialOrd for RevId {
    ghost partial_cmp = { as_partial_cmp rev_cmp };

    ghost laws = { partial_order_from_own_ties (Prim.search (comparing, rules)) (Prim.search (comparing, rules)) };

    fn partial_cmp(&self, other: &RevId) -> Option<Ordering> {
        Some(self.cmp(other))
    }
}

impl IndexKey for RevId {
    ghost use Rattle.model.specs.Revision.{rev_exact};

    ghost exact = { rev_exact };
}
