//! The map.
ghost use Rattle.std.specs.Prelude.{◌≡◌, ◌+◌, ◌-◌, ◌^◌, ◌<◌, ◌≤◌, ◌++◌, ◌∷◌, ◌↔◌, [], None, length, is_some, slice_get};
ghost use Rattle.std.specs.Prelude.{IsTrue, IsOk, OnOk, OnErr, IfSome, IfNone, IfOk, IfErr};
ghost use Rattle.std.specs.Borrow.{sem};
ghost use Rattle.std.specs.List.{IsDistinct};
ghost use Rattle.std.specs.Map.{keys_of};
ghost use Rattle.std.specs.Map.Iter.{deref_pair};
ghost use Rattle.std.specs.Option.{option_copied, option_copied_mut, option_map};
ghost use Rattle.indexmap.specs.IndexMap.{keys, values, index_map_len, spare, hasher_of, get, get_by, insert_all};
ghost use Rattle.indexmap.specs.IndexMap.{insert_entry, shift_remove_entry, IsEmpty, IsUnchanged, IsUnique, KeepsRoom};
ghost use Rattle.indexmap.specs.IndexMap.{UsesRoomOf};

use crate::chain::{Chain, END};
use crate::iter::{IntoValues, Iter, Keys, Values};
use indexmap::{Equivalent, IndexMap};
use std::alloc::{AllocError, AllocFailed, Global};
use std::hash::{BuildHasher, BuildHasherDefault, FoldHasher, Hash};
use std::marker::Model;

/// A map in insertion order of its keys. A removal takes constant time and keeps the order of the other entries.
#[derive(Drop)]
pub struct LinkedMap<K: Eq + Hash, V, S: BuildHasher = BuildHasherDefault<FoldHasher>> {
    pub(crate) chain: Chain<K, V, S>,
}

impl<K: Eq + Hash, V, S: BuildHasher> Model for LinkedMap<K, V, S> {
    ghost use Rattle.indexmap.specs.IndexMap.{IndexMap as Entries, spare, hasher_of};
    ghost use Rattle.indexmap.specs.Layout.{hash_map, hash_map_code};
    ghost use Rattle.cedar_linked_map.specs.Linked.{AreLinked, in_order};

    ghost Value = { Entries K V S };

    ghost coded = { hash_map_code K.code V.code S.code };

    ghost view = { λ m. hash_map (in_order m.chain.nodes.entries m.chain.first) (hasher_of m.chain.nodes)
        (spare m.chain.nodes) };

    ghost invariant = { λ m. AreLinked m.chain.nodes.entries m.chain.first m.chain.last };
}

impl<K: Eq + Hash, V, S: BuildHasher> LinkedMap<K, V, S> {
    ghost use Rattle.cedar_linked_map.specs.Lends.{lends_get, lends_at};

    /// Creates an empty map with this builder of hashers. Does not allocate.
    pub fn with_hasher(alloc: Global, hash_builder: S) -> Self
        ensures empty { IsEmpty result }
        ensures hasher { hasher_of result ≡ hash_builder }
    {
        LinkedMap {
            chain: Chain {
                nodes: IndexMap::with_hasher(alloc, hash_builder),
                first: END,
                last: END,
            },
        }
    }

    /// Creates an empty map with space for `n` entries and this builder of hashers.
    ///
    /// # Errors
    ///
    /// Returns `AllocError` if an allocation fails.
    pub fn with_capacity_and_hasher(
        alloc: Global,
        n: usize,
        hash_builder: S,
    ) -> Result<Self, AllocError>
    where
        S: Drop,
        ensures empty { IfOk result IsEmpty }
        ensures spare { IfOk result (λ m. n ≤ spare m) }
        ensures hasher { IfOk result (λ m. hasher_of m ≡ hash_builder) }
        ensures succeeds { n ≡ 0 → IsOk result }
    {
        let nodes = IndexMap::with_capacity_and_hasher(alloc, n, hash_builder)?;
        Ok(LinkedMap {
            chain: Chain {
                nodes,
                first: END,
                last: END,
            },
        })
    }

    /// Creates a map with the entries of an `IndexMap`, in their order.
    ///
    /// # Errors
    ///
    /// Returns `AllocError` if an allocation fails.
    ///
    /// # Complexity
    ///
    /// O(n), where n is the number of entries. Allocates the map.
    pub fn from_index_map(alloc: Global, map: IndexMap<K, V, S>) -> Result<Self, AllocError>
    where
        K: Drop,
        V: Drop,
        S: Copy,
        ensures entries { IfOk result (λ m. m.entries ≡ map.entries) }
        ensures unique { IsUnique K.eq map }
    {
        let len = map.len();
        let mut linked = LinkedMap::with_capacity_and_hasher(alloc, len, *map.hasher())?;
        linked.extend_new(map);
        Ok(linked)
    }

    /// Returns the builder of hashers. Does not allocate.
    pub fn hasher(&self) -> &S
        ensures { result.now ≡ hasher_of self.now }
    {
        self.chain.nodes.hasher()
    }

    /// Returns the allocator. Does not allocate.
    pub fn allocator(&self) -> &Global {
        self.chain.nodes.allocator()
    }

    /// Returns the number of entries. Does not allocate.
    pub fn len(&self) -> usize
        ensures len { result ≡ index_map_len self.now }
        ensures small { result < 2 ^ 63 }
        ensures unique { IsUnique K.eq self.now }
    {
        self.chain.nodes.len()
    }

    /// Returns whether the map is empty. Does not allocate.
    pub fn is_empty(&self) -> bool
        ensures { IsTrue result ↔ (index_map_len self.now ≡ 0) }
    {
        self.len() == 0
    }

    /// Returns whether the map contains a key that is equal to `key`. Does not allocate.
    pub fn contains_key<Q: Equivalent<K>>(&self, key: Q) -> bool
        ensures { result ≡ is_some (get_by (Q.equivalent key) self.now) }
    {
        self.get(key).is_some()
    }

    /// Returns the value with this key, if there is one. Does not allocate.
    pub fn get<Q: Equivalent<K>>(&self, key: Q) -> Option<&V>
        ensures value { option_copied result ≡ get_by (Q.equivalent key) self.now }
    {
        // No effect at run time: for the proof, this call states that the length is small.
        let _len = self.chain.nodes.len();
        match self.chain.nodes.get(key) {
            None => None,
            Some(node) => Some(&node.value),
        }
    }

    /// Returns the value with this key and its place in the table, if there is one. First compares the key at the place
    /// `next`, so that a lookup in the order of the map does not hash. If the key is found, `next` becomes the place of
    /// the next entry. Does not allocate.
    ///
    /// The value is proved. The two places only save time: no contract states them, and after a wrong one the next
    /// lookup hashes.
    pub fn get_near(&self, key: &K, next: &mut usize) -> Option<(usize, &V)>
        ensures value { option_map (λ p. p.1.now) result ≡ get K.eq self.now key.now }
    {
        // No effect at run time: for the proof, this call states that the length is small.
        let _len = self.chain.nodes.len();
        let place = *next;
        if let Some((stored, node)) = self.chain.nodes.get_index(place) {
            if stored == key {
                *next = node.after;
                return Some((place, &node.value));
            }
        }
        match self.chain.nodes.get_full(key) {
            None => None,
            Some((place, _, node)) => {
                *next = node.after;
                Some((place, &node.value))
            }
        }
    }

    /// Returns the last entry, if there is one. Does not allocate.
    pub fn last(&self) -> Option<(&K, &V)>
        ensures entry { option_map deref_pair result ≡ slice_get self.now.entries (index_map_len self.now - 1) }
    {
        // No effect at run time: for the proof, this call states that the length is small.
        let _len = self.chain.nodes.len();
        match self.chain.nodes.get_index(self.chain.last) {
            None => None,
            Some((key, node)) => Some((key, &node.value)),
        }
    }

    /// Iterates over the entries, in their order. Does not allocate.
    pub fn iter(&self) -> Iter<'_, K, V>
        ensures rest { result ≡ self.now.entries }
    {
        Iter::of(
            self.chain.nodes.as_slice(),
            self.chain.first,
            self.chain.nodes.len(),
        )
    }

    /// Iterates over the keys, in their order. Does not allocate.
    pub fn keys(&self) -> Keys<'_, K, V>
        ensures rest { result ≡ keys self.now }
    {
        Keys::of(self.iter())
    }

    /// Iterates over the values, in their order. Does not allocate.
    pub fn values(&self) -> Values<'_, K, V>
        ensures rest { result ≡ values self.now }
    {
        Values::of(self.iter())
    }

    /// Consumes the map and iterates over the values, in their order. Does not allocate.
    pub fn into_values(self) -> IntoValues<K, V, S>
        ensures rest { result ≡ values self }
    {
        IntoValues::of(self)
    }

    /// Reserves space for `additional` more entries. That many insertions then do not allocate.
    ///
    /// # Errors
    ///
    /// Returns `AllocError` if an allocation fails, and then leaves the map unchanged.
    pub fn reserve(&mut self, additional: usize) -> Result<(), AllocError>
        ensures entries { IsUnchanged self.old self.new }
        ensures ok { OnOk result (additional ≤ spare self.new) }
        ensures succeeds { additional ≤ spare self.old → IsOk result }
        ensures room { KeepsRoom self.old self.new }
    {
        self.chain.nodes.reserve(additional)
    }

    /// Appends an entry with a new key. The space must be reserved. Does not allocate.
    pub fn push(&mut self, key: K, value: V)
    where
        K: Drop,
        V: Drop,
        requires room { 0 < spare self.old }
        requires absent { get K.eq self.old key ≡ None }
        ensures entries { self.new.entries ≡ self.old.entries ++ (key, value) ∷ [] }
        ensures spare { spare self.old ≤ spare self.new + 1 }
        ensures hasher { hasher_of self.new ≡ hasher_of self.old }
    {
        // No effect at run time: for the proof, this call states that the length is small.
        let _len = self.chain.nodes.len();
        self.chain.push(key, value);
    }

    /// Appends the entries of an `IndexMap`, in their order. Their keys must be new, and the space reserved. Does not
    /// allocate.
    pub fn extend_new(&mut self, entries: IndexMap<K, V, S>)
    where
        K: Drop,
        V: Drop,
        S: Drop,
        requires room { index_map_len entries ≤ spare self.old }
        requires new { IsDistinct K.eq (keys_of (self.old.entries ++ entries.entries)) }
        ensures entries { self.new.entries ≡ self.old.entries ++ entries.entries }
        ensures hasher { hasher_of self.new ≡ hasher_of self.old }
    {
        for (key, value) in entries {
            self.push(key, value);
        }
    }

    /// Inserts the value with this key. If the key is present, it keeps its position, and the old value is returned. A
    /// new key is appended.
    ///
    /// # Errors
    ///
    /// Returns the key and the value in `AllocFailed` if an allocation fails, and then leaves the map unchanged.
    pub fn insert(&mut self, key: K, value: V) -> Result<Option<V>, AllocFailed<(K, V)>>
    where
        K: Drop,
        V: Drop,
        ensures old { IfOk result (λ old. old ≡ get K.eq self.old key) }
        ensures entries { OnOk result (self.new.entries ≡ insert_entry K.eq self.old.entries key value) }
        ensures value_returned { IfErr result (λ y. y.value ≡ (key, value)) }
        ensures err { OnErr result (IsUnchanged self.old self.new) }
        ensures absent { OnErr result (get K.eq self.old key ≡ None) }
        ensures succeeds { 0 < spare self.old → IsOk result }
        ensures spare { spare self.old ≤ spare self.new + 1 }
        ensures hasher { hasher_of self.new ≡ hasher_of self.old }
    {
        // No effect at run time: for the proof, this call states that the length is small.
        let _len = self.chain.nodes.len();
        match self.chain.nodes.get_index_of(&key) {
            Some(at) => Ok(Some(self.chain.replace_at(at, value))),
            None => match self.chain.nodes.reserve(1) {
                Err(_) => Err(AllocFailed {
                    value: (key, value),
                }),
                Ok(()) => {
                    self.chain.push(key, value);
                    Ok(None)
                }
            },
        }
    }

    /// Inserts the entries of another map, in their order, and empties the other map.
    ///
    /// # Errors
    ///
    /// Returns `AllocError` if an allocation fails, and then leaves both maps unchanged.
    pub fn append<S2: BuildHasher>(
        &mut self,
        other: &mut LinkedMap<K, V, S2>,
    ) -> Result<(), AllocError>
    where
        K: Drop,
        V: Drop,
        ensures entries { OnOk result (self.new.entries ≡ insert_all K.eq self.old.entries other.old.entries) }
        ensures emptied { OnOk result (IsEmpty other.new) }
        ensures err { OnErr result (IsUnchanged self.old self.new) }
        ensures err_other { OnErr result (IsUnchanged other.old other.new) }
        ensures succeeds { index_map_len other.old ≤ spare self.old → IsOk result }
        ensures hasher { hasher_of self.new ≡ hasher_of self.old }
    {
        self.reserve(other.len())?;
        while let Some((key, value)) = other.pop_first() {
            let _old = self.insert(key, value).unwrap();
        }
        Ok(())
    }

    /// Removes the entry with this key, and returns its value. The order of the other entries does not change. Does not
    /// allocate.
    ///
    /// # Complexity
    ///
    /// O(1).
    pub fn shift_remove<Q: Equivalent<K>>(&mut self, key: Q) -> Option<V>
    where
        K: Drop,
        ensures value { result ≡ get_by (Q.equivalent key) self.old }
        ensures entries { self.new.entries ≡ shift_remove_entry (Q.equivalent key) self.old.entries }
        ensures unchanged { IfNone result (IsUnchanged self.old self.new) }
        ensures room { KeepsRoom self.old self.new }
    {
        // No effect at run time: for the proof, this call states that the length is small.
        let _len = self.chain.nodes.len();
        match self.chain.nodes.get_index_of(key) {
            None => None,
            Some(at) => {
                let (_, value) = self.chain.take_at(at);
                Some(value)
            }
        }
    }

    /// Removes the entry with this key, and returns its value, as [`LinkedMap::shift_remove`] does. First compares the key
    /// at this place, so that a removal after a lookup with [`LinkedMap::get_near`] does not hash. Does not allocate.
    ///
    /// The result is proved. The place only saves time: after a wrong one the removal hashes.
    ///
    /// # Complexity
    ///
    /// O(1).
    pub fn shift_remove_near(&mut self, key: &K, place: usize) -> Option<V>
    where
        K: Drop,
        ensures value { result ≡ get K.eq self.old key.now }
        ensures entries { self.new.entries ≡ shift_remove_entry (K.eq key.now) self.old.entries }
        ensures unchanged { IfNone result (IsUnchanged self.old self.new) }
        ensures room { KeepsRoom self.old self.new }
    {
        // No effect at run time: for the proof, this call states that the length is small.
        let _len = self.chain.nodes.len();
        if let Some((near, _)) = self.chain.nodes.get_index(place) {
            if near == key {
                let (_, value) = self.chain.take_at(place);
                return Some(value);
            }
        }
        self.shift_remove(key)
    }

    /// Removes the first entry, and returns it. Does not allocate.
    ///
    /// # Complexity
    ///
    /// O(1).
    pub fn pop_first(&mut self) -> Option<(K, V)>
        ensures none { IfNone result (self.old.entries ≡ []) }
        ensures entries { IfSome result (λ e. self.old.entries ≡ e ∷ self.new.entries) }
        ensures unchanged { IfNone result (self.new ≡ self.old) }
        ensures room { KeepsRoom self.old self.new }
    {
        // No effect at run time: for the proof, this call states that the length is small.
        let _len = self.chain.nodes.len();
        self.chain.pop_first()
    }

    /// Returns a mutable reference to the value with this key, if there is one. Does not allocate.
    pub fn get_mut<Q: Equivalent<K>>(&mut self, key: Q) -> Option<&mut V>
        ensures* writes_back { sem 𝓛 (lends_get K.row V.row S.row S.Hasher.row K.Hash S.BuildHasher S.Hasher.Hasher
            self.entry (Q.equivalent key) result) }
        ensures value { option_copied_mut result ≡ get_by (Q.equivalent key) self.old }
        ensures unique { IsUnique K.eq self.old }
    {
        // No effect at run time: for the proof, this call states that the length is small.
        let _len = self.chain.nodes.len();
        match self.chain.nodes.get_mut(key) {
            None => None,
            Some(node) => Some(&mut node.value),
        }
    }

    /// Returns a mutable reference to the value at a place in the table, if there is one. [`LinkedMap::get_near`]
    /// returns places. A place is valid until the next removal. Does not allocate.
    pub fn get_at_mut(&mut self, place: usize) -> Option<&mut V>
        ensures* writes_back { sem 𝓛 (lends_at K.row V.row S.row S.Hasher.row K.Hash S.BuildHasher S.Hasher.Hasher
            self.entry result) }
        ensures unique { IsUnique K.eq self.old }
    {
        // No effect at run time: for the proof, this call states that the length is small.
        let _len = self.chain.nodes.len();
        match self.chain.nodes.get_index_mut(place) {
            None => None,
            Some(node) => Some(&mut node.value),
        }
    }
}
