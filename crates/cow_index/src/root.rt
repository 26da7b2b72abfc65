//! The root of a map: a balanced tree, or a node whose left side is one and whose right side is a low tree.
//!
//! Keys that come in their order all go into the right side of a root that leans, so that each copies
//! the few nodes of a low tree and not a way down the whole one. A right side that is full is joined
//! to the left one.
ghost use Rattle.std.specs.Prelude.{◌≡◌, ◌+◌, ◌-◌, ◌*◌, ◌/◌, ◌^◌, ◌<◌, ◌≤◌, [], ◌∷◌, ◌++◌, IfOk, OnOk, length, T, option_copied};
ghost use Rattle.std.specs.Arc.{arc_value};
ghost use Rattle.std.specs.FinMap.Entries.{find, put, is_sorted};
ghost use Rattle.cow_index.specs.Tree.{pair_of, entries_of, height_of, IsRoot};
ghost use Rattle.cow_index.specs.Root.{Leans};
ghost use Rattle.cow_index.specs.NodeMaker.{MakesAtMost};
ghost use Rattle.cow_index.specs.Entries.{without, entries_from};

use crate::nodes::NodeMaker;
use crate::sole::{take_left, take_right};
use crate::tree::{Entry, MAX_HEIGHT, Node, Tree};
use index_key::IndexKey;
use std::alloc::AllocError;
use std::cmp::Ordering;
use std::marker::Model;
use std::sync::Arc;

/// A right side of so many entries is joined to the left one.
const FULL_SIDE: u64 = 16;

/// What is at the root of a map.
#[derive(Drop)]
pub(crate) enum Top<K, V> {
    Level(Tree<K, V>),
    /// The left side is higher by two levels or more.
    Leaning(Arc<Node<K, V>>),
}

/// The root of a map, seen as its entries in order and its height.
pub(crate) struct Root<K, V> {
    pub(crate) top: Top<K, V>,
}

impl<K: Drop, V: Drop> Drop for Root<K, V> {
    fn drop(self) {
        let Root { top: _ } = self;
    }
}

impl<K, V> Model for Root<K, V> {
    ghost use Rattle.std.specs.Prelude.{ℕ, List};

    ghost Value = { List (K × V) × ℕ };

    ghost use Rattle.cow_index.specs.Root.{shown, Stands};

    ghost view = { λ a. shown a.top };

    ghost invariant = { λ a. Stands a.top };
}

impl<K: Drop, V: Drop> Root<K, V> {
    pub(crate) fn new() -> Self
        ensures { result ≡ ([], 0) }
    {
        Root::level(Tree::new())
    }

    fn level(tree: Tree<K, V>) -> Self
        ensures { result ≡ tree }
    {
        Root {
            top: Top::Level(tree),
        }
    }

    pub(crate) fn height(&self) -> u64
        ensures stored { result ≡ self.now.1 }
        ensures dense { 2 ^ (self.now.1 / 2) ≤ length self.now.0 + 1 }
        ensures low { self.now.1 ≤ MAX_HEIGHT }
        ensures fits { length self.now.0 < 2 ^ 64 }
    {
        match &self.top {
            Top::Level(tree) => tree.height(),
            Top::Leaning(node) => {
                prove!(node.left.height() < MAX_HEIGHT as u64);
                node.height
            }
        }
    }

    pub(crate) fn len(&self) -> u64
        ensures count { result ≡ length self.now.0 }
    {
        match &self.top {
            Top::Level(tree) => tree.len(),
            Top::Leaning(node) => node.len,
        }
    }

    /// The same root.
    pub(crate) fn share(&self) -> Result<Self, AllocError>
        ensures { IfOk result (λ r. r ≡ self.now) }
    {
        let top = match &self.top {
            Top::Level(tree) => Top::Level(tree.share()?),
            Top::Leaning(node) => Top::Leaning(Arc::try_clone(node)?),
        };
        Ok(Root { top })
    }
}

impl<K: IndexKey, V: Drop> Root<K, V> {
    pub(crate) fn get(&self, key: &K) -> Option<&V>
        requires { T (is_sorted K.cmp self.now.0) }
        ensures { option_copied result ≡ find K.cmp key.now self.now.0 }
    {
        match &self.top {
            Top::Level(tree) => tree.get(key),
            Top::Leaning(node) => node.get(key),
        }
    }

    /// How many keys are not below `key`.
    pub(crate) fn count_from(&self, key: &K) -> u64
        requires { T (is_sorted K.cmp self.now.0) }
        ensures { result ≡ length (entries_from K.cmp key.now self.now.0) }
    {
        match &self.top {
            Top::Level(tree) => tree.count_from(key),
            Top::Leaning(node) => node.count_from(key),
        }
    }

    /// The root, given up, with the entry in its place: at a key that ties, the new one stands in for the old.
    pub(crate) fn into_with(
        self,
        entry: Arc<Entry<K, V>>,
        nodes: &mut NodeMaker,
    ) -> Result<Self, AllocError>
        requires sorted { T (is_sorted K.cmp self.0) }
        requires fits { length self.0 + 1 < 2 ^ 64 }
        requires counts { nodes.old.made + 3 * self.1 + 1 < 2 ^ 64 }
        ensures entries { IfOk result (λ r. r.0 ≡ put K.cmp (pair_of entry).0 (pair_of entry).1 self.0) }
        ensures some { OnOk result (nodes.old.made < nodes.new.made) }
        ensures few { MakesAtMost (3 * self.1 + 1) nodes.old nodes.new }
    {
        let Root { top } = self;
        match top {
            Top::Level(tree) => level_with(tree, entry, nodes),
            Top::Leaning(node) => leaning_with(node, entry, nodes),
        }
    }

    /// The root, given up, without the entry at the key, if there is one.
    pub(crate) fn into_without(self, key: &K, nodes: &mut NodeMaker) -> Result<Self, AllocError>
        requires sorted { T (is_sorted K.cmp self.0) }
        requires counts { nodes.old.made + 3 * self.1 + 1 < 2 ^ 64 }
        ensures entries { IfOk result (λ r. r.0 ≡ without K.cmp key.now self.0) }
        ensures few { MakesAtMost (3 * self.1 + 1) nodes.old nodes.new }
    {
        let Root { top } = self;
        match top {
            Top::Level(tree) => Ok(Root::level(tree.into_without(key, nodes)?)),
            Top::Leaning(node) => leaning_without(node, key, nodes),
        }
    }
}

/// A tree with the entry: a key above all others goes to the right of a root that leans.
fn level_with<K: IndexKey, V: Drop>(
    tree: Tree<K, V>,
    entry: Arc<Entry<K, V>>,
    nodes: &mut NodeMaker,
) -> Result<Root<K, V>, AllocError>
    requires sorted { T (is_sorted K.cmp tree.0) }
    requires fits { length tree.0 + 1 < 2 ^ 64 }
    requires counts { nodes.old.made + 3 * tree.1 + 1 < 2 ^ 64 }
    ensures entries { IfOk result (λ r. r.0 ≡ put K.cmp (pair_of entry).0 (pair_of entry).1 tree.0) }
    ensures some { OnOk result (nodes.old.made < nodes.new.made) }
    ensures few { MakesAtMost (3 * tree.1 + 1) nodes.old nodes.new }
{
    let new: &Entry<K, V> = &entry;
    if tree.is_below(&new.key) {
        return nodes.root(tree, entry, Tree::new());
    }
    Ok(Root::level(tree.into_with(entry, nodes)?))
}

/// A root that leans, with the entry.
fn leaning_with<K: IndexKey, V: Drop>(
    mut root: Arc<Node<K, V>>,
    entry: Arc<Entry<K, V>>,
    nodes: &mut NodeMaker,
) -> Result<Root<K, V>, AllocError>
    requires root { IsRoot (entries_of (arc_value root), height_of (arc_value root)) (arc_value root) }
    requires leans { Leans (arc_value root) }
    requires sorted { T (is_sorted K.cmp (entries_of (arc_value root))) }
    requires fits { length (entries_of (arc_value root)) + 1 < 2 ^ 64 }
    requires counts { nodes.old.made + 3 * height_of (arc_value root) + 1 < 2 ^ 64 }
    ensures entries { IfOk result (λ r. r.0 ≡ put K.cmp (pair_of entry).0 (pair_of entry).1 (entries_of (arc_value root))) }
    ensures some { OnOk result (nodes.old.made < nodes.new.made) }
    ensures few { MakesAtMost (3 * height_of (arc_value root) + 1) nodes.old nodes.new }
{
    let new: &Entry<K, V> = &entry;
    let order = root.compare(&new.key);
    let left = take_left(&mut root)?;
    let right = take_right(&mut root)?;
    match order {
        Ordering::Less => {
            let left = left.into_with(entry, nodes)?;
            nodes.root(left, Arc::try_clone(&root.entry)?, right)
        }
        Ordering::Greater => {
            let right = right.into_with(entry, nodes)?;
            nodes.grown(left, Arc::try_clone(&root.entry)?, right)
        }
        Ordering::Equal => nodes.root(left, entry, right),
    }
}

/// A root that leans, without the entry at the key.
fn leaning_without<K: IndexKey, V: Drop>(
    mut root: Arc<Node<K, V>>,
    key: &K,
    nodes: &mut NodeMaker,
) -> Result<Root<K, V>, AllocError>
    requires root { IsRoot (entries_of (arc_value root), height_of (arc_value root)) (arc_value root) }
    requires leans { Leans (arc_value root) }
    requires sorted { T (is_sorted K.cmp (entries_of (arc_value root))) }
    requires counts { nodes.old.made + 3 * height_of (arc_value root) + 1 < 2 ^ 64 }
    ensures entries { IfOk result (λ r. r.0 ≡ without K.cmp key.now (entries_of (arc_value root))) }
    ensures few { MakesAtMost (3 * height_of (arc_value root) + 1) nodes.old nodes.new }
{
    let order = root.compare(key);
    let left = take_left(&mut root)?;
    let right = take_right(&mut root)?;
    match order {
        Ordering::Less => {
            let left = left.into_without(key, nodes)?;
            nodes.root(left, Arc::try_clone(&root.entry)?, right)
        }
        Ordering::Greater => {
            let right = right.into_without(key, nodes)?;
            nodes.root(left, Arc::try_clone(&root.entry)?, right)
        }
        Ordering::Equal => {
            let Some(first) = right.first() else {
                return Ok(Root::level(left));
            };
            let first = Arc::try_clone(first)?;
            let rest = nodes.without_first(&right)?;
            nodes.root(left, first, rest)
        }
    }
}

impl NodeMaker {
    /// A root over two sides, which leans where the left one is higher by two levels or more.
    fn root<K: Drop, V: Drop>(
        &mut self,
        left: Tree<K, V>,
        entry: Arc<Entry<K, V>>,
        right: Tree<K, V>,
    ) -> Result<Root<K, V>, AllocError>
        requires no_higher { right.1 ≤ left.1 + 1 }
        requires fits { length left.0 + length right.0 + 1 < 2 ^ 64 }
        requires counts { self.old.made + 1 < 2 ^ 64 }
        ensures entries { IfOk result (λ r. r.0 ≡ left.0 ++ pair_of entry ∷ right.0) }
        ensures counted { OnOk result (self.new.made ≡ self.old.made + 1) }
        ensures few { MakesAtMost 1 self.old self.new }
    {
        if left.height() <= right.height() + 1 {
            return Ok(Root::level(self.make(left, entry, right)?));
        }
        let node = self.node(left, entry, right)?;
        Ok(Root {
            top: Top::Leaning(node),
        })
    }

    /// The same over a right side that has grown: a full one is joined to the left one.
    fn grown<K: Drop, V: Drop>(
        &mut self,
        left: Tree<K, V>,
        entry: Arc<Entry<K, V>>,
        right: Tree<K, V>,
    ) -> Result<Root<K, V>, AllocError>
        requires no_higher { right.1 ≤ left.1 }
        requires fits { length left.0 + length right.0 + 1 < 2 ^ 64 }
        requires counts { self.old.made + 3 * (left.1 - right.1) + 1 < 2 ^ 64 }
        ensures entries { IfOk result (λ r. r.0 ≡ left.0 ++ pair_of entry ∷ right.0) }
        ensures some { OnOk result (self.old.made < self.new.made) }
        ensures few { MakesAtMost (3 * (left.1 - right.1) + 1) self.old self.new }
    {
        if right.len() < FULL_SIDE {
            return self.root(left, entry, right);
        }
        Ok(Root::level(left.into_joined(entry, right, self)?))
    }
}
