//! The map: a root whose keys rise, and how many nodes the last call made.
ghost use Rattle.std.specs.Prelude.{◌≡◌, ◌↔◌, ◌+◌, ◌*◌, ◌^◌, ◌<◌, ◌≤◌, max, [], IfOk, IsTrue, length, T, option_copied};
ghost use Rattle.std.specs.FinMap.Entries.{find, put, is_sorted};
ghost use Rattle.std.specs.Map.Iter.{ShowsInOrder, deref_pair};
ghost use Rattle.cow_index.specs.Entries.{without, entries_from};
ghost use Rattle.cow_index.specs.Height.{bits};

use crate::look_up::LookUp;
use crate::nodes::NodeMaker;
use crate::root::Root;
use crate::tree::{Entry, MAX_HEIGHT};
use crate::walk::Range;
use index_key::IndexKey;
use std::alloc::{AllocError, Global};
use std::marker::Model;
use std::sync::Arc;

/// An ordered map that shares its nodes with the maps that it was made from.
///
/// No call changes a map: a call that puts or takes a key gives a new one, and every older map
/// holds what it held. A look-up, an insertion and a removal take a number of steps that grows
/// with [`height`](CowMap::height), and so does the memory that the last two take.
pub struct CowMap<K: IndexKey, V> {
    alloc: Global,
    root: Root<K, V>,
    nodes_made: u64,
}

impl<K: IndexKey, V: Drop> Drop for CowMap<K, V> {
    fn drop(self) {
        let CowMap {
            alloc: _,
            root: _,
            nodes_made: _,
        } = self;
    }
}

impl<K: IndexKey, V> Model for CowMap<K, V> {
    ghost use Rattle.std.specs.Prelude.{T};
    ghost use Rattle.std.specs.FinMap.Entries.{is_sorted};
    ghost use Rattle.cow_index.specs.CowMap.{MapView};

    ghost Value = { MapView K V };

    ghost view = { λ a. record { entries = a.root.0; height = a.root.1; nodes_made = a.nodes_made } };

    ghost invariant = { λ a. T (is_sorted K.cmp a.root.0) };
}

impl<K: IndexKey, V: Drop> CowMap<K, V> {
    /// The empty map, whose later calls take their memory from `alloc`.
    pub fn new(alloc: Global) -> Self
        ensures entries { result.entries ≡ [] }
        ensures height { result.height ≡ 0 }
        ensures no_nodes { result.nodes_made ≡ 0 }
    {
        CowMap::of_root(alloc, Root::new(), 0)
    }

    fn of_root(alloc: Global, root: Root<K, V>, nodes_made: u64) -> Self
        requires { T (is_sorted K.cmp root.0) }
        ensures { result ≡ record { entries = root.0; height = root.1; nodes_made = nodes_made } }
    {
        CowMap {
            alloc,
            root,
            nodes_made,
        }
    }

    /// How many keys the map holds, read at once.
    pub fn len(&self) -> u64
        ensures count { result ≡ length self.now.entries }
        ensures ordered { T (is_sorted K.cmp self.now.entries) }
    {
        self.root.len()
    }

    /// Whether the map holds no key.
    pub fn is_empty(&self) -> bool
        ensures { IsTrue result ↔ (self.now.entries ≡ []) }
    {
        self.len() == 0
    }

    /// The most nodes on a way down from the root: at most twice the binary digits of `len + 1`.
    pub fn height(&self) -> u64
        ensures stored { result ≡ self.now.height }
        ensures low { self.now.height ≤ 2 * bits (length self.now.entries + 1) }
    {
        self.root.height()
    }

    /// How many nodes were made, or changed in their places, by the call that made this map.
    pub fn nodes_made(&self) -> u64
        ensures { result ≡ self.now.nodes_made }
    {
        self.nodes_made
    }

    /// The value at the key, found on one way down from the root.
    pub fn get(&self, key: &K) -> Option<&V>
        ensures { option_copied result ≡ find K.cmp key.now self.now.entries }
    {
        self.root.get(key)
    }

    /// A look-up of the key that is at the root: at its end after [`height`](CowMap::height) steps.
    pub fn look_up<'a>(&'a self, key: &'a K) -> LookUp<'a, K, V>
        ensures { result ≡ (key.now, find K.cmp key.now self.now.entries) }
    {
        LookUp::new(key, &self.root)
    }

    /// How many keys are not below `key`, counted on one way down from the root.
    pub fn count_from(&self, key: &K) -> u64
        ensures count { result ≡ length (entries_from K.cmp key.now self.now.entries) }
        ensures ordered { T (is_sorted K.cmp self.now.entries) }
    {
        self.root.count_from(key)
    }

    /// All entries, in the order of their keys.
    pub fn iter(&self) -> Range<'_, K, V>
        ensures rest { result ≡ self.now.entries }
        ensures fits { length result < 2 ^ 64 }
        ensures runs { ShowsInOrder (deref_pair {K = K} {X = V}) }
        ensures ordered { T (is_sorted K.cmp self.now.entries) }
    {
        Range::all(&self.root)
    }

    /// The entries whose keys are not below `key`, in the order of their keys.
    pub fn range_from(&self, key: &K) -> Range<'_, K, V>
        ensures rest { result ≡ entries_from K.cmp key.now self.now.entries }
        ensures fits { length result < 2 ^ 64 }
        ensures runs { ShowsInOrder (deref_pair {K = K} {X = V}) }
        ensures ordered { T (is_sorted K.cmp self.now.entries) }
    {
        Range::from_key(&self.root, key)
    }

    /// The same map, which shares all nodes. It takes no memory, but is refused at the largest count
    /// of owners of the root.
    pub fn share(&self) -> Result<Self, AllocError>
        ensures entries { IfOk result (λ m. m.entries ≡ self.now.entries) }
        ensures height { IfOk result (λ m. m.height ≡ self.now.height) }
        ensures no_nodes { IfOk result (λ m. m.nodes_made ≡ 0) }
    {
        Ok(CowMap::of_root(self.alloc, self.root.share()?, 0))
    }

    /// The map with `value` at `key`, in the place of the value that it had there.
    ///
    /// A map of `u64::MAX` keys, more than any memory holds, is refused one more as if for memory.
    pub fn insert(&self, key: K, value: V) -> Result<Self, AllocError>
        ensures entries { IfOk result (λ m. m.entries ≡ put K.cmp key value self.now.entries) }
        ensures some_nodes { IfOk result (λ m. 0 < m.nodes_made) }
        ensures few_nodes { IfOk result (λ m. m.nodes_made ≤ 4 * (max self.now.height m.height + 1)) }
    {
        self.share()?.into_with(key, value)
    }

    /// The map without `key`. Where the map lacks it, the same map, and no node is made.
    pub fn remove(&self, key: &K) -> Result<Self, AllocError>
        ensures entries { IfOk result (λ m. m.entries ≡ without K.cmp key.now self.now.entries) }
        ensures no_nodes { find K.cmp key.now self.now.entries ≡ None → IfOk result (λ m. m.nodes_made ≡ 0) }
        ensures few_nodes { IfOk result (λ m. m.nodes_made ≤ 4 * (max self.now.height m.height + 1)) }
    {
        self.share()?.into_without(key)
    }

    /// As [`insert`](CowMap::insert), of a map that is given up. The nodes that no other map holds
    /// are changed in their places.
    pub fn into_with(self, key: K, value: V) -> Result<Self, AllocError>
        ensures entries { IfOk result (λ m. m.entries ≡ put K.cmp key value self.entries) }
        ensures some_nodes { IfOk result (λ m. 0 < m.nodes_made) }
        ensures few_nodes { IfOk result (λ m. m.nodes_made ≤ 4 * (max self.height m.height + 1)) }
    {
        if self.len() == u64::MAX {
            return Err(AllocError);
        }
        let CowMap {
            alloc,
            root,
            nodes_made: _,
        } = self;
        prove!(root.height() <= MAX_HEIGHT as u64);
        let entry = Arc::new(alloc, Entry { key, value })?;
        let mut nodes = NodeMaker::new(alloc);
        let root = root.into_with(entry, &mut nodes)?;
        Ok(CowMap::of_root(alloc, root, nodes.made))
    }

    /// As [`remove`](CowMap::remove), of a map that is given up.
    pub fn into_without(self, key: &K) -> Result<Self, AllocError>
        ensures entries { IfOk result (λ m. m.entries ≡ without K.cmp key.now self.entries) }
        ensures no_nodes { find K.cmp key.now self.entries ≡ None → IfOk result (λ m. m.nodes_made ≡ 0) }
        ensures few_nodes { IfOk result (λ m. m.nodes_made ≤ 4 * (max self.height m.height + 1)) }
    {
        let is_none = self.get(key).is_none();
        let CowMap {
            alloc,
            root,
            nodes_made: _,
        } = self;
        if is_none {
            return Ok(CowMap::of_root(alloc, root, 0));
        }
        prove!(root.height() <= MAX_HEIGHT as u64);
        let mut nodes = NodeMaker::new(alloc);
        let root = root.into_without(key, &mut nodes)?;
        Ok(CowMap::of_root(alloc, root, nodes.made))
    }
}
