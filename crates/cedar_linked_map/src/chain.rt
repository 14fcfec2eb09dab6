//! Entries in a table, each with the places of its two neighbours in the order.
ghost use Rattle.std.specs.Prelude.{◌≡◌, ℕ, ◌<◌, ◌^◌, ◌&&◌, ◌+◌, ◌≤◌, ◌++◌, ◌∷◌, [], None, Some, length, slice_get};
ghost use Rattle.std.specs.Prelude.{if◌then◌else◌, nat_eq, nat_lt, IfSome, IfNone};
ghost use Rattle.std.specs.Map.{values_of};
ghost use Rattle.indexmap.specs.IndexMap.{get, spare, hasher_of, index_map_len, IsUnchanged, IsUnique, KeepsRoom};
ghost use Rattle.cedar_linked_map.specs.Linked.{IsPlaceOrEnd, AreLinked, RemovesItem, Replaces, in_order, cells};
ghost use Rattle.cedar_linked_map.specs.Linked.{after_of, before_of, after_at, before_at};

use indexmap::IndexMap;
use std::hash::{BuildHasher, Hash};
use std::mem::replace;

// The value of an entry, and the places of the previous and of the next entry in the order.
#[derive(Clone, Drop)]
pub(crate) struct Node<V> {
    pub(crate) value: V,
    pub(crate) before: usize,
    pub(crate) after: usize,
}

// The place before the first entry and after the last one. No entry has it.
pub(crate) const END: usize = usize::MAX;

// The entries in their table, and the places of the first and of the last entry in the order.
#[derive(Drop)]
pub(crate) struct Chain<K: Eq + Hash, V, S: BuildHasher> {
    pub(crate) nodes: IndexMap<K, Node<V>, S>,
    pub(crate) first: usize,
    pub(crate) last: usize,
}

impl<K: Eq + Hash, V, S: BuildHasher> Chain<K, V, S> {
    // Sets the next place of an entry, or the place of the first entry.
    fn set_after(&mut self, at: usize, to: usize)
        requires { IsPlaceOrEnd (length self.old.nodes.entries) at }
        ensures after { (u : ℕ) → after_of self.new.nodes.entries self.new.first u
            ≡ (if nat_eq u at then to else after_of self.old.nodes.entries self.old.first u) }
        ensures before { (u : ℕ) → before_of self.new.nodes.entries self.new.last u
            ≡ before_of self.old.nodes.entries self.old.last u }
        ensures cells { cells self.new.nodes.entries ≡ cells self.old.nodes.entries }
        ensures spare { spare self.new.nodes ≡ spare self.old.nodes }
        ensures hasher { hasher_of self.new.nodes ≡ hasher_of self.old.nodes }
    {
        if at == END {
            self.first = to;
            return;
        }
        match self.nodes.get_index_mut(at) {
            None => (),
            Some(node) => node.after = to,
        }
    }

    // Sets the previous place of an entry, or the place of the last entry.
    fn set_before(&mut self, at: usize, to: usize)
        requires { IsPlaceOrEnd (length self.old.nodes.entries) at }
        ensures before { (u : ℕ) → before_of self.new.nodes.entries self.new.last u
            ≡ (if nat_eq u at then to else before_of self.old.nodes.entries self.old.last u) }
        ensures after { (u : ℕ) → after_of self.new.nodes.entries self.new.first u
            ≡ after_of self.old.nodes.entries self.old.first u }
        ensures cells { cells self.new.nodes.entries ≡ cells self.old.nodes.entries }
        ensures spare { spare self.new.nodes ≡ spare self.old.nodes }
        ensures hasher { hasher_of self.new.nodes ≡ hasher_of self.old.nodes }
    {
        if at == END {
            self.last = to;
            return;
        }
        match self.nodes.get_index_mut(at) {
            None => (),
            Some(node) => node.before = to,
        }
    }

    // Returns the previous and the next place of an entry.
    fn beside(&self, at: usize) -> (usize, usize)
        requires { at < length self.now.nodes.entries }
        ensures before { result.0 ≡ before_at self.now.nodes.entries at }
        ensures after { result.1 ≡ after_at self.now.nodes.entries at }
    {
        match self.nodes.get_index(at) {
            None => unreachable!(),
            Some((_, node)) => (node.before, node.after),
        }
    }

    // Links the two neighbours of an entry to each other.
    fn unlink(&mut self, at: usize)
        requires within { at < length self.old.nodes.entries }
        requires before { IsPlaceOrEnd (length self.old.nodes.entries) (before_at self.old.nodes.entries at) }
        requires after { IsPlaceOrEnd (length self.old.nodes.entries) (after_at self.old.nodes.entries at) }
        ensures after { (u : ℕ) → after_of self.new.nodes.entries self.new.first u
            ≡ (if nat_eq u (before_at self.old.nodes.entries at) then after_at self.old.nodes.entries at
            else after_of self.old.nodes.entries self.old.first u) }
        ensures before { (u : ℕ) → before_of self.new.nodes.entries self.new.last u
            ≡ (if nat_eq u (after_at self.old.nodes.entries at) then before_at self.old.nodes.entries at
            else before_of self.old.nodes.entries self.old.last u) }
        ensures cells { cells self.new.nodes.entries ≡ cells self.old.nodes.entries }
        ensures spare { spare self.new.nodes ≡ spare self.old.nodes }
        ensures hasher { hasher_of self.new.nodes ≡ hasher_of self.old.nodes }
    {
        let (before, after) = self.beside(at);
        self.set_after(before, after);
        self.set_before(after, before);
    }

    // Links the two neighbours of an entry to the place of the entry.
    fn relink(&mut self, at: usize)
        requires within { at < length self.old.nodes.entries }
        requires before { IsPlaceOrEnd (length self.old.nodes.entries) (before_at self.old.nodes.entries at) }
        requires after { IsPlaceOrEnd (length self.old.nodes.entries) (after_at self.old.nodes.entries at) }
        ensures after { (u : ℕ) → after_of self.new.nodes.entries self.new.first u
            ≡ (if nat_eq u (before_at self.old.nodes.entries at) then at
            else after_of self.old.nodes.entries self.old.first u) }
        ensures before { (u : ℕ) → before_of self.new.nodes.entries self.new.last u
            ≡ (if nat_eq u (after_at self.old.nodes.entries at) then at
            else before_of self.old.nodes.entries self.old.last u) }
        ensures cells { cells self.new.nodes.entries ≡ cells self.old.nodes.entries }
        ensures spare { spare self.new.nodes ≡ spare self.old.nodes }
        ensures hasher { hasher_of self.new.nodes ≡ hasher_of self.old.nodes }
    {
        let (before, after) = self.beside(at);
        self.set_after(before, at);
        self.set_before(after, at);
    }

    // Links the two neighbours of the entry at a place to the place, if there is an entry.
    fn fill(&mut self, at: usize)
        requires before { at < length self.old.nodes.entries
            → IsPlaceOrEnd (length self.old.nodes.entries) (before_at self.old.nodes.entries at) }
        requires after { at < length self.old.nodes.entries
            → IsPlaceOrEnd (length self.old.nodes.entries) (after_at self.old.nodes.entries at) }
        ensures after { (u : ℕ) → after_of self.new.nodes.entries self.new.first u
            ≡ (if nat_lt at (length self.old.nodes.entries) && nat_eq u (before_at self.old.nodes.entries at) then at
            else after_of self.old.nodes.entries self.old.first u) }
        ensures before { (u : ℕ) → before_of self.new.nodes.entries self.new.last u
            ≡ (if nat_lt at (length self.old.nodes.entries) && nat_eq u (after_at self.old.nodes.entries at) then at
            else before_of self.old.nodes.entries self.old.last u) }
        ensures cells { cells self.new.nodes.entries ≡ cells self.old.nodes.entries }
        ensures spare { spare self.new.nodes ≡ spare self.old.nodes }
        ensures hasher { hasher_of self.new.nodes ≡ hasher_of self.old.nodes }
    {
        if at < self.nodes.len() {
            self.relink(at);
        }
    }

    // Removes the entry at a place. The last entry of the table moves to the place.
    pub(crate) fn take_at(&mut self, at: usize) -> (K, V)
        requires within { at < length self.old.nodes.entries }
        requires small { length self.old.nodes.entries < 2 ^ 63 }
        requires linked { AreLinked self.old.nodes.entries self.old.first self.old.last }
        ensures linked { AreLinked self.new.nodes.entries self.new.first self.new.last }
        ensures cell { slice_get (cells self.old.nodes.entries) at ≡ Some result }
        ensures taken { RemovesItem (in_order self.old.nodes.entries self.old.first) result
            (in_order self.new.nodes.entries self.new.first) }
        ensures room { KeepsRoom self.old.nodes self.new.nodes }
    {
        self.unlink(at);
        match self.nodes.swap_remove_index(at) {
            None => unreachable!(),
            Some((key, node)) => {
                self.fill(at);
                (key, node.value)
            }
        }
    }

    // Removes the first entry in the order, if there is one.
    pub(crate) fn pop_first(&mut self) -> Option<(K, V)>
        requires small { length self.old.nodes.entries < 2 ^ 63 }
        requires linked { AreLinked self.old.nodes.entries self.old.first self.old.last }
        requires unique { IsUnique K.eq self.old.nodes }
        ensures linked { AreLinked self.new.nodes.entries self.new.first self.new.last }
        ensures none { IfNone result (in_order self.old.nodes.entries self.old.first ≡ []) }
        ensures some { IfSome result (λ e. in_order self.old.nodes.entries self.old.first
            ≡ e ∷ in_order self.new.nodes.entries self.new.first) }
        ensures unchanged { IfNone result (self.new ≡ self.old) }
        ensures room { KeepsRoom self.old.nodes self.new.nodes }
    {
        if self.nodes.is_empty() {
            return None;
        }
        let first = self.first;
        Some(self.take_at(first))
    }

    // Appends an entry with a new key. The space must be reserved.
    pub(crate) fn push(&mut self, key: K, value: V)
    where
        K: Drop,
        V: Drop,
        requires room { 0 < spare self.old.nodes }
        requires absent { get K.eq self.old.nodes key ≡ None }
        requires linked { AreLinked self.old.nodes.entries self.old.first self.old.last }
        ensures linked { AreLinked self.new.nodes.entries self.new.first self.new.last }
        ensures pushed { in_order self.new.nodes.entries self.new.first
            ≡ in_order self.old.nodes.entries self.old.first ++ (key, value) ∷ [] }
        ensures spare { spare self.old.nodes ≤ spare self.new.nodes + 1 }
        ensures hasher { hasher_of self.new.nodes ≡ hasher_of self.old.nodes }
    {
        let at = self.nodes.len();
        let before = self.last;
        let node = Node {
            value,
            before,
            after: END,
        };
        self.nodes.insert(key, node).unwrap();
        // No effect at run time: for the proof, this call states that the new length is small.
        let _len = self.nodes.len();
        self.set_after(before, at);
        self.last = at;
    }

    // Replaces the value at a place, and returns the old value.
    pub(crate) fn replace_at(&mut self, at: usize, value: V) -> V
        requires within { at < length self.old.nodes.entries }
        requires small { length self.old.nodes.entries < 2 ^ 63 }
        requires linked { AreLinked self.old.nodes.entries self.old.first self.old.last }
        ensures linked { AreLinked self.new.nodes.entries self.new.first self.new.last }
        ensures old { slice_get (values_of (cells self.old.nodes.entries)) at ≡ Some result }
        ensures replaced { Replaces (in_order self.old.nodes.entries self.old.first) at value
            (cells self.old.nodes.entries) (in_order self.new.nodes.entries self.new.first) }
        ensures spare { spare self.new.nodes ≡ spare self.old.nodes }
        ensures hasher { hasher_of self.new.nodes ≡ hasher_of self.old.nodes }
    {
        match self.nodes.get_index_mut(at) {
            None => unreachable!(),
            Some(node) => replace(&mut node.value, value),
        }
    }
}
