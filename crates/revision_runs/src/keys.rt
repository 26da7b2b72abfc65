//! Sets of keys, in their order.
ghost use Rattle.std.specs.Prelude.{◌≡◌, [], true, false, None, IfOk, IfSome, is_some};
ghost use Rattle.std.specs.FinMap.Entries.{find};
ghost use Rattle.std.specs.Ordering.{is_le};
ghost use Rattle.revision_runs.specs.Keys.{entered as entering, struck as striking, IsFirst, IsFirstFrom, IsMoved};

use cow_index::CowMap;
use index_key::IndexKey;
use std::alloc::AllocError;

/// The keys with one more, where one is given.
pub(crate) fn entered<K: IndexKey>(
    keys: CowMap<K, ()>,
    key: Option<K>,
) -> Result<CowMap<K, ()>, AllocError>
    ensures { IfOk result (λ m. m.entries ≡ entering K.cmp key keys.entries) }
{
    let Some(key) = key else {
        return Ok(keys);
    };
    keys.into_with(key, ())
}

/// The keys without one, where one is given.
pub(crate) fn struck<K: IndexKey>(
    keys: CowMap<K, ()>,
    key: Option<K>,
) -> Result<CowMap<K, ()>, AllocError>
    ensures { IfOk result (λ m. m.entries ≡ striking K.cmp key keys.entries) }
{
    let Some(key) = key else {
        return Ok(keys);
    };
    keys.into_without(&key)
}

/// The keys with one in the place of another. Where these are one, none is looked for.
pub(crate) fn moved<K: IndexKey>(
    keys: CowMap<K, ()>,
    from: Option<K>,
    to: Option<K>,
) -> Result<CowMap<K, ()>, AllocError>
    ensures { IfOk result (λ m. IsMoved K.cmp from to keys.entries m.entries) }
{
    if is_one(&from, &to) {
        return Ok(keys);
    }
    let others = struck(keys, from)?;
    entered(others, to)
}

/// Whether both are one key, or none.
fn is_one<K: IndexKey>(one: &Option<K>, other: &Option<K>) -> bool
    ensures { result ≡ true → one.now ≡ other.now }
{
    let Some(one) = one else {
        return other.is_none();
    };
    let Some(other) = other else {
        return false;
    };
    one.cmp(other).is_eq()
}

/// The first key that is not below another.
pub(crate) fn first_from<K: IndexKey + Copy>(keys: &CowMap<K, ()>, from: &K) -> Option<K>
    ensures some { IfSome result (λ k. IsFirstFrom K.cmp from.now keys.now.entries k) }
    ensures none { result ≡ None → (k : K) → is_some (find K.cmp k keys.now.entries) ≡ true → is_le (K.cmp from.now k) ≡ false }
{
    let mut range = keys.range_from(from);
    let Some((key, _)) = range.next() else {
        return None;
    };
    Some(*key)
}

/// The first key.
pub(crate) fn first<K: IndexKey + Copy>(keys: &CowMap<K, ()>) -> Option<K>
    ensures some { IfSome result (λ k. IsFirst K.cmp keys.now.entries k) }
    ensures none { result ≡ None → keys.now.entries ≡ [] }
{
    let mut all = keys.iter();
    let Some((key, _)) = all.next() else {
        return None;
    };
    Some(*key)
}
