//! Keys of an ordered map.
#![tactic(auto)]

ghost use Rattle.std.specs.FinMap.{IsAntisymmetric, nat_cmp-IsAntisymmetric};

/// A key of an ordered map: its order is total, and only equal keys tie.
pub trait IndexKey: Ord + Drop {
    ghost exact: { IsAntisymmetric Self.cmp };
}

impl IndexKey for u16 {
    ghost exact = { nat_cmp-IsAntisymmetric };
}

impl IndexKey for u64 {
    ghost exact = { nat_cmp-IsAntisymmetric };
}
