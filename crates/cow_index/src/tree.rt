//! An AVL tree over shared nodes, seen as its entries in order and its height.
ghost use Rattle.std.specs.Prelude.{◌≡◌, ◌+◌, ◌*◌, ◌/◌, ◌^◌, ◌<◌, ◌≤◌, [], IfOk, IfErr, IsTrue, OnOk, IfSome, IfNone, length, T, slice_get, option_map, option_copied};
ghost use Rattle.std.specs.Arc.{arc_value};
ghost use Rattle.std.specs.FinMap.Entries.{find, put, is_sorted};
ghost use Rattle.std.specs.declared.cmp.Ordering.TheVariants.{Greater};
ghost use Rattle.cow_index.specs.Tree.{pair_of, entries_of, height_of, IsRoot, IsLevel};
ghost use Rattle.cow_index.specs.NodeMaker.{MakesAtMost};
ghost use Rattle.cow_index.specs.Entries.{without, entries_from, EachCompares};

use crate::nodes::NodeMaker;
use index_key::IndexKey;
use std::alloc::AllocError;
use std::cmp::Ordering;
use std::marker::Model;
use std::sync::Arc;

/// No map is higher, since its entries are counted in a `u64`.
pub(crate) const MAX_HEIGHT: usize = 130;

/// A key with its value. Nodes that were copied from one another share it.
pub(crate) struct Entry<K, V> {
    pub(crate) key: K,
    pub(crate) value: V,
}

impl<K: Drop, V: Drop> Drop for Entry<K, V> {
    fn drop(self) {
        let Entry { key: _, value: _ } = self;
    }
}

/// A tree, by the node at its root.
#[cycle(tree)]
pub(crate) struct Tree<K, V> {
    pub(crate) root: Option<Arc<Node<K, V>>>,
}

impl<K: Drop, V: Drop> Drop for Tree<K, V> {
    #[cycle(tree)]
    fn drop(self) {
        let Tree { root: _ } = self;
    }
}

/// An entry between two sides, with the height and the number of entries of it all. In a tree the heights
/// of the sides differ by at most one; at the root of a map the left side may be the higher one by more.
#[cycle(tree)]
pub(crate) struct Node<K, V> {
    pub(crate) left: Tree<K, V>,
    pub(crate) entry: Arc<Entry<K, V>>,
    pub(crate) right: Tree<K, V>,
    pub(crate) height: u64,
    pub(crate) len: u64,
}

impl<K: Drop, V: Drop> Drop for Node<K, V> {
    #[cycle(tree)]
    fn drop(self) {
        let Node {
            left: _,
            entry: _,
            right: _,
            height: _,
            len: _,
        } = self;
    }
}

impl<K, V> Model for Tree<K, V> {
    ghost use Rattle.std.specs.Prelude.{ℕ, List, length};

    ghost Value = { List (K × V) × ℕ };

    ghost use Rattle.cow_index.specs.Tree.{seen, IsBalanced};

    ghost view = { λ a. seen a.root };

    ghost invariant = { λ a. IsBalanced a.root };

    ghost size = { λ d. length d.0 };

    ghost use Rattle.std.proofs.Common.{arith, length-append};

    ghost size_decreases = { λ a h. Prim.grind (arith, length-append) };
}

impl<K: Drop, V: Drop> Tree<K, V> {
    pub(crate) fn new() -> Self
        ensures { result ≡ ([], 0) }
    {
        Tree { root: None }
    }

    /// The node at the root, where no other tree holds it, and else the tree again.
    pub(crate) fn into_sole(self) -> Result<Arc<Node<K, V>>, Tree<K, V>>
        ensures root { IfOk result (λ a. IsRoot self (arc_value a)) }
        ensures level { IfOk result (λ a. IsLevel self (arc_value a)) }
        ensures same { IfErr result (λ t. t ≡ self) }
    {
        let Tree { root } = self;
        let Some(root) = root else {
            return Err(Tree::new());
        };
        if Arc::strong_count(&root) != 1 {
            return Err(Tree { root: Some(root) });
        }
        Ok(root)
    }

    /// The node at the root, whoever holds it.
    pub(crate) fn into_root(self) -> Option<Arc<Node<K, V>>>
        ensures root { IfSome result (λ a. IsRoot self (arc_value a)) }
        ensures level { IfSome result (λ a. IsLevel self (arc_value a)) }
        ensures empty { IfNone result (self ≡ ([], 0)) }
    {
        let Tree { root } = self;
        root
    }

    /// The node at the root.
    pub(crate) fn node(&self) -> Option<&Node<K, V>>
        ensures root { IfSome result (λ n. IsRoot self.now n.now) }
        ensures level { IfSome result (λ n. IsLevel self.now n.now) }
        ensures empty { IfNone result (self.now ≡ ([], 0)) }
    {
        let Some(node) = &self.root else {
            return None;
        };
        let node: &Node<K, V> = node;
        Some(node)
    }

    pub(crate) fn height(&self) -> u64
        ensures stored { result ≡ self.now.1 }
        ensures dense { 2 ^ ((self.now.1 + 1) / 2) ≤ length self.now.0 + 1 }
        ensures low { self.now.1 < MAX_HEIGHT }
        ensures fits { length self.now.0 < 2 ^ 64 }
    {
        match self.node() {
            None => 0,
            Some(node) => node.height,
        }
    }

    pub(crate) fn len(&self) -> u64
        ensures count { result ≡ length self.now.0 }
        ensures flat { length self.now.0 ≡ 0 → self.now.1 ≡ 0 }
    {
        match self.node() {
            None => 0,
            Some(node) => node.len,
        }
    }

    /// The same tree, by its root.
    pub(crate) fn share(&self) -> Result<Self, AllocError>
        ensures { IfOk result (λ t. t ≡ self.now) }
    {
        match &self.root {
            None => Ok(Tree::new()),
            Some(node) => Ok(Tree {
                root: Some(Arc::try_clone(node)?),
            }),
        }
    }

    /// The entry with the least key.
    pub(crate) fn first(&self) -> Option<&Arc<Entry<K, V>>>
        ensures least { option_map (λ e. pair_of e.now) result ≡ slice_get self.now.0 0 }
        ensures empty { IfNone result (self.now ≡ ([], 0)) }
    {
        let Some(node) = self.node() else {
            return None;
        };
        match node.left.first() {
            None => Some(&node.entry),
            found => found,
        }
    }
}

impl<K: IndexKey, V> Node<K, V> {
    /// How a key compares with the node's own.
    pub(crate) fn compare(&self, key: &K) -> Ordering
        ensures { result ≡ K.cmp key.now (pair_of self.now.entry).0 }
    {
        let entry: &Entry<K, V> = &self.entry;
        key.cmp(&entry.key)
    }
}

impl<K: IndexKey, V: Drop> Tree<K, V> {
    pub(crate) fn get(&self, key: &K) -> Option<&V>
        requires { T (is_sorted K.cmp self.now.0) }
        ensures { option_copied result ≡ find K.cmp key.now self.now.0 }
    {
        let mut at = self;
        while let Some(node) = at.node() {
            match node.compare(key) {
                Ordering::Less => at = &node.left,
                Ordering::Greater => at = &node.right,
                Ordering::Equal => {
                    let entry: &Entry<K, V> = &node.entry;
                    return Some(&entry.value);
                }
            }
        }
        None
    }

    /// How many keys are not below `key`.
    pub(crate) fn count_from(&self, key: &K) -> u64
        requires { T (is_sorted K.cmp self.now.0) }
        ensures { result ≡ length (entries_from K.cmp key.now self.now.0) }
    {
        let mut count = self.len();
        let mut at = self;
        while let Some(node) = at.node() {
            match node.compare(key) {
                Ordering::Less => at = &node.left,
                Ordering::Greater => {
                    count -= node.left.len() + 1;
                    at = &node.right;
                }
                Ordering::Equal => return count - node.left.len(),
            }
        }
        count
    }

    /// Whether all keys are below `key`: a way down the right edge, which ends at the first key that is not.
    pub(crate) fn is_below(&self, key: &K) -> bool
        requires { T (is_sorted K.cmp self.now.0) }
        ensures { IsTrue result → EachCompares K.cmp key.now Greater self.now.0 }
    {
        let mut at = self;
        while let Some(node) = at.node() {
            match node.compare(key) {
                Ordering::Greater => at = &node.right,
                _ => return false,
            }
        }
        true
    }

    /// The tree with the entry in its place: at a key that ties, the new one stands in for the old.
    pub(crate) fn insert(
        &self,
        entry: Arc<Entry<K, V>>,
        nodes: &mut NodeMaker,
    ) -> Result<Self, AllocError>
        requires sorted { T (is_sorted K.cmp self.now.0) }
        requires fits { length self.now.0 + 1 < 2 ^ 64 }
        requires counts { nodes.old.made + 3 * self.now.1 + 1 < 2 ^ 64 }
        ensures entries { IfOk result (λ t. t.0 ≡ put K.cmp (pair_of entry).0 (pair_of entry).1 self.now.0) }
        ensures height { IfOk result (λ t. (self.now.1 ≤ t.1) × (t.1 ≤ self.now.1 + 1)) }
        ensures some { OnOk result (nodes.old.made < nodes.new.made) }
        ensures few { MakesAtMost (3 * self.now.1 + 1) nodes.old nodes.new }
    {
        let Some(node) = self.node() else {
            return nodes.make(Tree::new(), entry, Tree::new());
        };
        let new: &Entry<K, V> = &entry;
        match node.compare(&new.key) {
            Ordering::Less => {
                let left = node.left.insert(entry, nodes)?;
                nodes.balance(left, Arc::try_clone(&node.entry)?, node.right.share()?)
            }
            Ordering::Greater => {
                let right = node.right.insert(entry, nodes)?;
                nodes.balance(node.left.share()?, Arc::try_clone(&node.entry)?, right)
            }
            Ordering::Equal => nodes.make(node.left.share()?, entry, node.right.share()?),
        }
    }

    /// The tree without the entry at the key, if there is one.
    pub(crate) fn remove(&self, key: &K, nodes: &mut NodeMaker) -> Result<Self, AllocError>
        requires sorted { T (is_sorted K.cmp self.now.0) }
        requires counts { nodes.old.made + 3 * self.now.1 < 2 ^ 64 }
        ensures entries { IfOk result (λ t. t.0 ≡ without K.cmp key.now self.now.0) }
        ensures height { IfOk result (λ t. (t.1 ≤ self.now.1) × (self.now.1 ≤ t.1 + 1)) }
        ensures few { MakesAtMost (3 * self.now.1) nodes.old nodes.new }
    {
        let Some(node) = self.node() else {
            return Ok(Tree::new());
        };
        match node.compare(key) {
            Ordering::Less => {
                let left = node.left.remove(key, nodes)?;
                nodes.balance(left, Arc::try_clone(&node.entry)?, node.right.share()?)
            }
            Ordering::Greater => {
                let right = node.right.remove(key, nodes)?;
                nodes.balance(node.left.share()?, Arc::try_clone(&node.entry)?, right)
            }
            Ordering::Equal => nodes.join(&node.left, &node.right),
        }
    }
}

impl<K: IndexKey, V: Drop> Node<K, V> {
    /// As that of a tree, from the node down.
    pub(crate) fn get(&self, key: &K) -> Option<&V>
        requires root { IsRoot (entries_of self.now, height_of self.now) self.now }
        requires sorted { T (is_sorted K.cmp (entries_of self.now)) }
        ensures { option_copied result ≡ find K.cmp key.now (entries_of self.now) }
    {
        match self.compare(key) {
            Ordering::Less => self.left.get(key),
            Ordering::Greater => self.right.get(key),
            Ordering::Equal => {
                let entry: &Entry<K, V> = &self.entry;
                Some(&entry.value)
            }
        }
    }

    /// How many keys from the node down are not below `key`.
    pub(crate) fn count_from(&self, key: &K) -> u64
        requires root { IsRoot (entries_of self.now, height_of self.now) self.now }
        requires sorted { T (is_sorted K.cmp (entries_of self.now)) }
        ensures { result ≡ length (entries_from K.cmp key.now (entries_of self.now)) }
    {
        match self.compare(key) {
            Ordering::Less => self.left.count_from(key) + self.right.len() + 1,
            Ordering::Greater => self.right.count_from(key),
            Ordering::Equal => self.right.len() + 1,
        }
    }
}
