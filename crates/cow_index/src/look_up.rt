//! Look-ups that go down side by side.
ghost use Rattle.std.specs.Prelude.{◌≡◌, T, option_copied};
ghost use Rattle.std.specs.FinMap.Entries.{find, is_sorted};
ghost use Rattle.cow_index.specs.LookUp.{FindsIn, found};

use crate::root::{Root, Top};
use crate::tree::{Entry, Tree};
use index_key::IndexKey;
use std::cmp::Ordering;
use std::marker::Model;

/// Where a look-up is.
#[derive(Drop)]
pub(crate) enum Way<'a, K, V> {
    /// What it looks for is in this tree, if it is anywhere.
    Below(&'a Tree<K, V>),
    /// It has come to its end.
    Done(Option<&'a V>),
}

/// A look-up of a key that goes down step by step. Contracts see the key, and what it finds.
///
/// Several that take their steps in turn wait for memory together, where one behind another would each wait by itself.
#[derive(Drop)]
pub struct LookUp<'a, K: IndexKey, V> {
    key: &'a K,
    way: Way<'a, K, V>,
}

impl<'a, K: IndexKey, V> Model for LookUp<'a, K, V> {
    ghost use Rattle.std.specs.Prelude.{Option};
    ghost use Rattle.cow_index.specs.LookUp.{found, IsOrdered};

    ghost Value = { K × Option V };

    ghost view = { λ l. (l.key.now, found K.cmp l.key.now l.way) };

    ghost invariant = { λ l. IsOrdered K.cmp l.way };
}

impl<'a, K: IndexKey, V: Drop> LookUp<'a, K, V> {
    /// A look-up that is at the root.
    pub(crate) fn new(key: &'a K, root: &'a Root<K, V>) -> Self
        requires { T (is_sorted K.cmp root.now.0) }
        ensures { result ≡ (key.now, find K.cmp key.now root.now.0) }
    {
        let way = match &root.top {
            Top::Level(tree) => Way::Below(tree),
            Top::Leaning(node) => Way::Done(node.get(key)),
        };
        LookUp { key, way }
    }

    /// What it looks for.
    pub fn key(&self) -> &'a K
        ensures { result.now ≡ self.now.0 }
    {
        self.key
    }

    /// One step down, where it is not at its end.
    fn step(&mut self)
        ensures { self.new ≡ self.old }
    {
        if let Way::Below(tree) = self.way {
            self.way = tree.toward(self.key);
        }
    }

    /// What it finds, after all steps that are left.
    pub fn value(&self) -> Option<&'a V>
        ensures { option_copied result ≡ self.now.1 }
    {
        match self.way {
            Way::Below(tree) => tree.get(self.key),
            Way::Done(value) => value,
        }
    }
}

/// Takes so many steps of each, in turns.
pub fn descend_each<K: IndexKey, V: Drop>(look_ups: &mut [LookUp<'_, K, V>], steps: u64)
    ensures { look_ups.new ≡ look_ups.old }
{
    for _level in 0..steps {
        step_each(look_ups);
    }
}

/// Takes a step of each.
fn step_each<K: IndexKey, V: Drop>(look_ups: &mut [LookUp<'_, K, V>])
    ensures { look_ups.new ≡ look_ups.old }
{
    for look_up in look_ups.iter_mut() {
        look_up.step();
    }
}

impl<K: IndexKey, V: Drop> Tree<K, V> {
    /// One step down toward a key.
    fn toward(&self, key: &K) -> Way<'_, K, V>
        requires { T (is_sorted K.cmp self.now.0) }
        ensures { FindsIn K.cmp key.now self.now.0 result }
    {
        let Some(node) = self.node() else {
            return Way::Done(None);
        };
        match node.compare(key) {
            Ordering::Less => Way::Below(&node.left),
            Ordering::Greater => Way::Below(&node.right),
            Ordering::Equal => {
                let entry: &Entry<K, V> = &node.entry;
                Way::Done(Some(&entry.value))
            }
        }
    }
}
