//! Lists that name each revision once.
ghost use Rattle.std.specs.Prelude.{◌≡◌, ◌∷◌, ◌++◌, [], true, OnOk, IfOk, if◌then◌else◌};
ghost use Rattle.std.specs.BTreeSet.{contains, IsFromIterResult, Updates};
ghost use Rattle.model.specs.Lists.{each_once};
ghost use Rattle.model.specs.Revision.{rev_cmp, same_rev};
ghost use Rattle.model.specs.Documents.{in_order as listed_in_order};

use revision_id::RevId;
use std::alloc::{AllocError, Global};
use std::collections::BTreeSet;

/// Adds a revision that was not seen, and notes it.
pub(crate) fn add_once(
    revs: &mut Vec<RevId>,
    seen: &mut BTreeSet<RevId>,
    rev: RevId,
) -> Result<(), AllocError>
    ensures revs { OnOk result (revs.new.items
        ≡ (if contains rev_cmp seen.old rev then revs.old.items else revs.old.items ++ rev ∷ [])) }
    ensures seen { OnOk result (Updates rev_cmp seen.old seen.new rev true) }
{
    if seen.insert(rev)? {
        revs.push(rev)?;
    }
    Ok(())
}

/// Each revision at its first place.
pub(crate) fn once(alloc: Global, revs: &[RevId]) -> Result<Vec<RevId>, AllocError>
    ensures { IfOk result (λ once. once.items ≡ each_once same_rev revs.now) }
{
    let mut seen = BTreeSet::new(alloc);
    let mut once = Vec::new(alloc);
    for rev in revs {
        add_once(&mut once, &mut seen, *rev)?;
    }
    Ok(once)
}

/// Each revision once, in rising order.
pub(crate) fn in_order(alloc: Global, revs: Vec<RevId>) -> Result<Vec<RevId>, AllocError>
    ensures { IfOk result (λ ordered. ordered.items ≡ listed_in_order revs.items) }
{
    let set = set_of(alloc, revs)?;
    members(alloc, &set)
}

fn set_of(alloc: Global, revs: Vec<RevId>) -> Result<BTreeSet<RevId>, AllocError>
    ensures { IfOk result (λ set. IsFromIterResult rev_cmp revs.items set) }
{
    revs.into_iter().collect(alloc)
}

fn members(alloc: Global, set: &BTreeSet<RevId>) -> Result<Vec<RevId>, AllocError>
    ensures { IfOk result (λ revs. revs.items ≡ set.now.keys) }
{
    set.iter().copied().collect(alloc)
}
