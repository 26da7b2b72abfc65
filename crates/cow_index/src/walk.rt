//! Walks in the order of the keys. A walk keeps the nodes that it comes back to in an array.
ghost use Rattle.std.specs.Prelude.{◌≡◌, ◌+◌, ◌^◌, ◌<◌, ◌≤◌, ◌++◌, ◌∷◌, T, [], IfSome, IfNone, length};
ghost use Rattle.std.specs.FinMap.Entries.{is_sorted};
ghost use Rattle.std.specs.Iterator.{at_most};
ghost use Rattle.std.specs.Map.Iter.{TakesFirst, deref_pair};
ghost use Rattle.cow_index.specs.Entries.{entries_from};
ghost use Rattle.cow_index.specs.Path.{held, waiting, FitFrom};
ghost use Rattle.cow_index.specs.Tree.{pair_of, entries_of, height_of, IsRoot};

use crate::root::{Root, Top};
use crate::tree::{Entry, MAX_HEIGHT, Node, Tree};
use index_key::IndexKey;
use std::cmp::Ordering;
use std::marker::Model;

/// The nodes whose entry and right side are yet to come, the outermost first.
#[derive(Drop)]
struct Path<'a, K, V> {
    places: [Option<&'a Node<K, V>>; MAX_HEIGHT],
    depth: usize,
}

impl<'a, K: Drop, V: Drop> Path<'a, K, V> {
    fn new() -> Self
        ensures depth { result.depth ≡ 0 }
        ensures empty { held result ≡ [] }
    {
        Path {
            places: [None; MAX_HEIGHT],
            depth: 0,
        }
    }

    fn push(&mut self, node: &'a Node<K, V>)
        requires fit { FitFrom 0 (held self.old) }
        requires room { self.old.depth + height_of node.now ≤ MAX_HEIGHT }
        ensures fit { FitFrom 0 (held self.new) }
        ensures depth { self.new.depth ≡ self.old.depth + 1 }
        ensures waiting { waiting (held self.new) ≡ pair_of node.now.entry ∷ node.now.right.0 ++ waiting (held self.old) }
    {
        let depth = self.depth;
        let places = &mut self.places[..];
        places[depth] = Some(node);
        self.depth = depth + 1;
    }

    /// The node whose entry comes next.
    fn pop(&mut self) -> Option<&'a Node<K, V>>
        requires fit { FitFrom 0 (held self.old) }
        requires depth { self.old.depth ≤ MAX_HEIGHT }
        ensures fit { FitFrom 0 (held self.new) }
        ensures room { IfSome result (λ n. self.new.depth + height_of n.now ≤ MAX_HEIGHT) }
        ensures waiting { IfSome result (λ n. waiting (held self.old) ≡ pair_of n.now.entry ∷ n.now.right.0 ++ waiting (held self.new)) }
        ensures none { IfNone result ((waiting (held self.old) ≡ []) × (self.new ≡ self.old)) }
    {
        if self.depth == 0 {
            return None;
        }
        let depth = self.depth - 1;
        let places = &self.places[..];
        let Some(node) = places[depth] else {
            unreachable!()
        };
        self.depth = depth;
        Some(node)
    }

    /// All of the tree's entries come before those that wait.
    fn descend(&mut self, tree: &'a Tree<K, V>)
        requires fit { FitFrom 0 (held self.old) }
        requires room { self.old.depth + tree.now.1 ≤ MAX_HEIGHT }
        ensures fit { FitFrom 0 (held self.new) }
        ensures depth { self.new.depth ≤ MAX_HEIGHT }
        ensures waiting { waiting (held self.new) ≡ tree.now.0 ++ waiting (held self.old) }
    {
        let mut at = tree;
        while let Some(node) = at.node() {
            self.push(node);
            at = &node.left;
        }
    }

    /// The same of a root.
    fn descend_root(&mut self, root: &'a Root<K, V>)
        requires fit { FitFrom 0 (held self.old) }
        requires room { self.old.depth + root.now.1 ≤ MAX_HEIGHT }
        ensures fit { FitFrom 0 (held self.new) }
        ensures depth { self.new.depth ≤ MAX_HEIGHT }
        ensures waiting { waiting (held self.new) ≡ root.now.0 ++ waiting (held self.old) }
    {
        match &root.top {
            Top::Level(tree) => self.descend(tree),
            Top::Leaning(node) => {
                let node: &'a Node<K, V> = node;
                self.push(node);
                self.descend(&node.left);
            }
        }
    }
}

impl<'a, K: IndexKey, V: Drop> Path<'a, K, V> {
    /// The tree's entries whose keys are not below `key` come before those that wait.
    fn descend_from(&mut self, tree: &'a Tree<K, V>, key: &K)
        requires sorted { T (is_sorted K.cmp tree.now.0) }
        requires fit { FitFrom 0 (held self.old) }
        requires room { self.old.depth + tree.now.1 ≤ MAX_HEIGHT }
        ensures fit { FitFrom 0 (held self.new) }
        ensures depth { self.new.depth ≤ MAX_HEIGHT }
        ensures waiting { waiting (held self.new) ≡ entries_from K.cmp key.now tree.now.0 ++ waiting (held self.old) }
    {
        let mut at = tree;
        while let Some(node) = at.node() {
            match node.compare(key) {
                Ordering::Less => {
                    self.push(node);
                    at = &node.left;
                }
                Ordering::Greater => at = &node.right,
                Ordering::Equal => {
                    self.push(node);
                    return;
                }
            }
        }
    }

    /// The same of a root.
    fn descend_root_from(&mut self, root: &'a Root<K, V>, key: &K)
        requires sorted { T (is_sorted K.cmp root.now.0) }
        requires fit { FitFrom 0 (held self.old) }
        requires room { self.old.depth + root.now.1 ≤ MAX_HEIGHT }
        ensures fit { FitFrom 0 (held self.new) }
        ensures depth { self.new.depth ≤ MAX_HEIGHT }
        ensures waiting { waiting (held self.new) ≡ entries_from K.cmp key.now root.now.0 ++ waiting (held self.old) }
    {
        match &root.top {
            Top::Level(tree) => self.descend_from(tree, key),
            Top::Leaning(node) => self.descend_node_from(node, key),
        }
    }

    /// The same of a node that leans.
    fn descend_node_from(&mut self, node: &'a Node<K, V>, key: &K)
        requires root { IsRoot (entries_of node.now, height_of node.now) node.now }
        requires sorted { T (is_sorted K.cmp (entries_of node.now)) }
        requires fit { FitFrom 0 (held self.old) }
        requires room { self.old.depth + height_of node.now ≤ MAX_HEIGHT }
        ensures fit { FitFrom 0 (held self.new) }
        ensures depth { self.new.depth ≤ MAX_HEIGHT }
        ensures waiting { waiting (held self.new) ≡ entries_from K.cmp key.now (entries_of node.now) ++ waiting (held self.old) }
    {
        match node.compare(key) {
            Ordering::Less => {
                self.push(node);
                self.descend_from(&node.left, key);
            }
            Ordering::Greater => self.descend_from(&node.right, key),
            Ordering::Equal => self.push(node),
        }
    }
}

/// A walk over entries of a [`CowMap`](crate::CowMap), in the order of their keys. It takes no memory.
#[derive(Drop)]
pub struct Range<'a, K, V> {
    path: Path<'a, K, V>,
}

impl<'a, K, V> Model for Range<'a, K, V> {
    ghost use Rattle.std.specs.Prelude.{List, ◌≤◌};

    ghost Value = { List (K × V) };

    ghost use Rattle.cow_index.specs.declared.tree.TheConstants.{MAX_HEIGHT};
    ghost use Rattle.cow_index.specs.Path.{held, waiting, FitFrom};

    ghost view = { λ a. waiting (held a.path) };

    ghost invariant = { λ a. FitFrom 0 (held a.path) × (a.path.depth ≤ MAX_HEIGHT) };
}

impl<'a, K: Drop, V: Drop> Range<'a, K, V> {
    pub(crate) fn all(root: &'a Root<K, V>) -> Self
        ensures rest { result ≡ root.now.0 }
        ensures fits { length result < 2 ^ 64 }
    {
        prove!(root.height() <= MAX_HEIGHT as u64);
        let mut path = Path::new();
        path.descend_root(root);
        Range { path }
    }
}

impl<'a, K: IndexKey, V: Drop> Range<'a, K, V> {
    pub(crate) fn from_key(root: &'a Root<K, V>, key: &K) -> Self
        requires { T (is_sorted K.cmp root.now.0) }
        ensures rest { result ≡ entries_from K.cmp key.now root.now.0 }
        ensures fits { length result < 2 ^ 64 }
    {
        prove!(root.height() <= MAX_HEIGHT as u64);
        let mut path = Path::new();
        path.descend_root_from(root, key);
        Range { path }
    }
}

impl<'a, K: Drop, V: Drop> Iterator for Range<'a, K, V> {
    type Item = (&'a K, &'a V);

    ghost next_gives = { TakesFirst deref_pair };

    ghost remaining = { λ rest. at_most (length rest) };

    fn next(&mut self) -> Option<(&'a K, &'a V)> {
        let node = self.path.pop()?;
        self.path.descend(&node.right);
        let entry: &'a Entry<K, V> = &node.entry;
        Some((&entry.key, &entry.value))
    }
}
