//! The set.
ghost use Rattle.std.specs.Prelude.{◌≡◌, ◌+◌, ◌<◌, ◌≤◌, ◌^◌, ◌↔◌, ◌++◌, ◌∷◌, [], false, not, IsTrue, IsOk, IfOk, OnOk, OnErr};
ghost use Rattle.std.specs.Map.{keys_of};
ghost use Rattle.indexmap.specs.IndexMap as maps;
ghost use Rattle.indexmap.specs.IndexSet.{insert_all, insert_key, remove_key, index_set_len, spare, hasher_of};
ghost use Rattle.indexmap.specs.IndexSet.{contains, contains_by, IsEmpty, IsUnchanged, IsUnique, KeepsRoom};

use crate::iter::Keys;
use crate::map::LinkedMap;
use indexmap::{Equivalent, IndexSet};
use std::alloc::{AllocError, AllocFailed, Global};
use std::hash::{BuildHasher, BuildHasherDefault, FoldHasher, Hash};
use std::marker::Model;

/// A set in insertion order of its values. A removal takes constant time and keeps the order of the other values.
#[derive(Drop)]
pub struct LinkedSet<T: Eq + Hash, S: BuildHasher = BuildHasherDefault<FoldHasher>> {
    pub(crate) map: LinkedMap<T, (), S>,
}

impl<T: Eq + Hash, S: BuildHasher> Model for LinkedSet<T, S> {
    ghost use Rattle.indexmap.specs.IndexSet.{IndexSet as Keys};
    ghost use Rattle.indexmap.specs.Layout.{key_set, hash_set_code};

    ghost Value = { Keys T S };

    ghost coded = { hash_set_code T.code S.code };

    ghost view = { λ s. key_set s.map };
}

impl<T: Eq + Hash, S: BuildHasher> LinkedSet<T, S> {
    /// Creates an empty set with this builder of hashers. Does not allocate.
    pub fn with_hasher(alloc: Global, hash_builder: S) -> Self
        ensures empty { IsEmpty result }
        ensures hasher { hasher_of result ≡ hash_builder }
    {
        LinkedSet {
            map: LinkedMap::with_hasher(alloc, hash_builder),
        }
    }

    /// Returns the number of values. Does not allocate.
    pub fn len(&self) -> usize
        ensures len { result ≡ index_set_len self.now }
        ensures small { result < 2 ^ 63 }
        ensures unique { IsUnique T.eq self.now }
    {
        self.map.len()
    }

    /// Returns whether the set is empty. Does not allocate.
    pub fn is_empty(&self) -> bool
        ensures { IsTrue result ↔ (index_set_len self.now ≡ 0) }
    {
        self.len() == 0
    }

    /// Iterates over the values, in their order. Does not allocate.
    pub fn iter(&self) -> Keys<'_, T, ()>
        ensures rest { result ≡ self.now.keys }
    {
        self.map.keys()
    }

    /// Reserves space for `additional` more values. That many insertions then do not allocate.
    ///
    /// # Errors
    ///
    /// Returns `AllocError` if an allocation fails, and then leaves the set unchanged.
    pub fn reserve(&mut self, additional: usize) -> Result<(), AllocError>
        ensures keys { IsUnchanged self.old self.new }
        ensures ok { OnOk result (additional ≤ spare self.new) }
        ensures succeeds { additional ≤ spare self.old → IsOk result }
        ensures room { KeepsRoom self.old self.new }
    {
        self.map.reserve(additional)
    }

    /// Appends a value and returns `true`. If the set contains an equal value, leaves the set unchanged and returns
    /// `false`.
    ///
    /// # Errors
    ///
    /// Returns the value in `AllocFailed` if an allocation fails, and then leaves the set unchanged.
    pub fn insert(&mut self, value: T) -> Result<bool, AllocFailed<T>>
    where
        T: Drop,
        ensures added { IfOk result (λ r. r ≡ not (contains T.eq self.old value)) }
        ensures keys { OnOk result (self.new.keys ≡ insert_key T.eq self.old.keys value) }
        ensures err { OnErr result (IsUnchanged self.old self.new) }
        ensures succeeds { 0 < spare self.old → IsOk result }
        ensures spare { spare self.old ≤ spare self.new + 1 }
        ensures hasher { hasher_of self.new ≡ hasher_of self.old }
    {
        match self.map.insert(value, ()) {
            Err(failed) => {
                let (value, ()) = failed.value;
                Err(AllocFailed { value })
            }
            Ok(old) => Ok(old.is_none()),
        }
    }

    /// Appends a value that the set does not contain. The space must be reserved. Does not allocate.
    pub fn push(&mut self, value: T)
    where
        T: Drop,
        requires room { 0 < spare self.old }
        requires absent { contains T.eq self.old value ≡ false }
        ensures keys { self.new.keys ≡ self.old.keys ++ value ∷ [] }
        ensures spare { spare self.old ≤ spare self.new + 1 }
        ensures hasher { hasher_of self.new ≡ hasher_of self.old }
    {
        self.map.push(value, ());
    }

    /// Removes the value that is equal to `value`, and returns whether there was one. The order of the other values
    /// does not change. Does not allocate.
    ///
    /// # Complexity
    ///
    /// O(1).
    pub fn shift_remove<Q: Equivalent<T>>(&mut self, value: Q) -> bool
    where
        T: Drop,
        ensures removed { result ≡ contains_by (Q.equivalent value) self.old }
        ensures keys { self.new.keys ≡ remove_key (Q.equivalent value) self.old.keys }
        ensures room { KeepsRoom self.old self.new }
    {
        self.map.shift_remove(value).is_some()
    }

    /// Appends the values of another set, in their order, except those that this set contains. Empties the other set.
    ///
    /// # Errors
    ///
    /// Returns `AllocError` if an allocation fails, and then leaves both sets unchanged.
    pub fn append<S2: BuildHasher>(
        &mut self,
        other: &mut LinkedSet<T, S2>,
    ) -> Result<(), AllocError>
    where
        T: Drop,
        ensures keys { OnOk result (self.new.keys ≡ insert_all T.eq self.old.keys other.old.keys) }
        ensures err { OnErr result (IsUnchanged self.old self.new) }
        ensures err_other { OnErr result (IsUnchanged other.old other.new) }
        ensures succeeds { index_set_len other.old ≤ spare self.old → IsOk result }
    {
        self.map.append(&mut other.map)
    }

    /// Creates a set with the values of an `IndexSet`, in their order.
    ///
    /// # Errors
    ///
    /// Returns `AllocError` if an allocation fails.
    ///
    /// # Complexity
    ///
    /// O(n), where n is the number of values. Allocates the set.
    pub fn from_index_set(alloc: Global, set: IndexSet<T, S>) -> Result<Self, AllocError>
    where
        T: Drop,
        S: Copy,
        ensures { IfOk result (λ s. s.keys ≡ set.keys) }
    {
        let len = set.len();
        let mut map = LinkedMap::with_capacity_and_hasher(alloc, len, *set.hasher())?;
        push_values(&mut map, set);
        Ok(LinkedSet { map })
    }
}

// Appends the values of a set to an empty map. The space must be reserved.
fn push_values<T: Eq + Hash + Drop, S: BuildHasher + Copy>(
    map: &mut LinkedMap<T, (), S>,
    set: IndexSet<T, S>,
)
    requires empty { map.old.entries ≡ [] }
    requires room { index_set_len set ≤ maps.spare map.old }
    ensures { keys_of map.new.entries ≡ set.keys }
{
    for value in set {
        map.push(value, ());
    }
}
