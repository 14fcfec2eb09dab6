//! The iterators over a map, in the order of its entries. Contracts see each as the list of its remaining items.
ghost use Rattle.std.specs.Prelude.{◌≡◌, [], length};
ghost use Rattle.std.specs.Iterator.{at_most, YieldsFirst, YieldsFirstRef, item_count};
ghost use Rattle.std.specs.Map.{keys_of, values_of};
ghost use Rattle.std.specs.Map.Iter.{TakesFirst, deref_pair};
ghost use Rattle.cedar_linked_map.specs.Linked.{walk, cells, after_at};

use crate::chain::{Chain, Node};
use crate::map::LinkedMap;
use indexmap::map::Slice;
use std::hash::{BuildHasher, Hash};
use std::marker::Model;

/// An iterator over the entries of a map, in their order. Each item is a key and its value.
#[derive(Drop)]
pub struct Iter<'a, K, V> {
    nodes: Slice<'a, K, Node<V>>,
    at: usize,
    left: usize,
}

impl<'a, K, V> Model for Iter<'a, K, V> {
    ghost use Rattle.std.specs.Prelude.{List};
    ghost use Rattle.cedar_linked_map.specs.Linked.{walk, cells, after_at};

    ghost Value = { List (K × V) };

    ghost view = { λ s. walk s.left (cells s.nodes) (after_at s.nodes) s.at };
}

impl<'a, K, V> Iter<'a, K, V> {
    pub(crate) fn of(nodes: Slice<'a, K, Node<V>>, at: usize, left: usize) -> Iter<'a, K, V>
        ensures { result ≡ walk left (cells nodes.entry) (after_at nodes.entry) at }
    {
        Iter { nodes, at, left }
    }

    pub(crate) fn empty() -> Iter<'a, K, V>
        ensures { result ≡ [] }
    {
        Iter {
            nodes: Slice::new(),
            at: 0,
            left: 0,
        }
    }
}

impl<'a, K, V> Iterator for Iter<'a, K, V> {
    type Item = (&'a K, &'a V);

    ghost next_gives = { TakesFirst deref_pair };

    ghost remaining = { λ s. at_most (length s) };

    fn next(&mut self) -> Option<(&'a K, &'a V)> {
        if self.left == 0 {
            return None;
        }
        match self.nodes.get_index(self.at) {
            None => None,
            Some((key, node)) => {
                self.at = node.after;
                self.left -= 1;
                Some((key, &node.value))
            }
        }
    }
}

/// An iterator over the keys of a map, or over the values of a set, in their order.
#[derive(Drop)]
pub struct Keys<'a, K, V> {
    inner: Iter<'a, K, V>,
}

impl<'a, K, V> Model for Keys<'a, K, V> {
    ghost use Rattle.std.specs.Prelude.{List};
    ghost use Rattle.std.specs.Map.{keys_of};

    ghost Value = { List K };

    ghost view = { λ s. keys_of s.inner };
}

impl<'a, K, V> Keys<'a, K, V> {
    pub(crate) fn of(inner: Iter<'a, K, V>) -> Keys<'a, K, V>
        ensures { result ≡ keys_of inner.entry }
    {
        Keys { inner }
    }

    /// Creates an iterator without items. Does not allocate.
    pub fn empty() -> Keys<'a, K, V>
        ensures { result ≡ [] }
    {
        Keys {
            inner: Iter::empty(),
        }
    }
}

impl<'a, K, V> Iterator for Keys<'a, K, V> {
    type Item = &'a K;

    ghost next_gives = { YieldsFirstRef (λ s. s) };

    ghost remaining = { item_count (λ s. s) };

    fn next(&mut self) -> Option<&'a K> {
        match self.inner.next() {
            None => None,
            Some((key, _)) => Some(key),
        }
    }
}

/// An iterator over the values of a map, in their order.
#[derive(Drop)]
pub struct Values<'a, K, V> {
    inner: Iter<'a, K, V>,
}

impl<'a, K, V> Model for Values<'a, K, V> {
    ghost use Rattle.std.specs.Prelude.{List};
    ghost use Rattle.std.specs.Map.{values_of};

    ghost Value = { List V };

    ghost view = { λ s. values_of s.inner };
}

impl<'a, K, V> Values<'a, K, V> {
    pub(crate) fn of(inner: Iter<'a, K, V>) -> Values<'a, K, V>
        ensures { result ≡ values_of inner.entry }
    {
        Values { inner }
    }
}

impl<'a, K, V> Iterator for Values<'a, K, V> {
    type Item = &'a V;

    ghost next_gives = { YieldsFirstRef (λ s. s) };

    ghost remaining = { item_count (λ s. s) };

    fn next(&mut self) -> Option<&'a V> {
        match self.inner.next() {
            None => None,
            Some((_, value)) => Some(value),
        }
    }
}

/// An iterator over the values of a map, in their order. It consumes the map.
#[derive(Drop)]
pub struct IntoValues<K: Eq + Hash, V, S: BuildHasher> {
    map: LinkedMap<K, V, S>,
}

impl<K: Eq + Hash, V, S: BuildHasher> Model for IntoValues<K, V, S> {
    ghost use Rattle.std.specs.Prelude.{List};
    ghost use Rattle.std.specs.Map.{values_of};

    ghost Value = { List V };

    ghost view = { λ s. values_of s.map.entries };
}

impl<K: Eq + Hash, V, S: BuildHasher> IntoValues<K, V, S> {
    pub(crate) fn of(map: LinkedMap<K, V, S>) -> IntoValues<K, V, S>
        ensures { result ≡ values_of map.entries }
    {
        IntoValues { map }
    }
}

impl<K: Eq + Hash + Drop, V: Drop, S: BuildHasher + Drop> Iterator for IntoValues<K, V, S> {
    type Item = V;

    ghost next_gives = { YieldsFirst (λ s. s) };

    ghost remaining = { item_count (λ s. s) };

    fn next(&mut self) -> Option<V> {
        match self.map.pop_first() {
            None => None,
            Some((_, value)) => Some(value),
        }
    }
}
