//! Sets of shared uids.
ghost use Rattle.std.specs.Prelude.{◌≡◌, ◌↔◌, ◌||◌, IfOk, OnOk, OnErr, IsTrue, List};
ghost use Rattle.std.specs.FinSet as set;
ghost use Rattle.std.specs.Fn.{CalledAt};
ghost use Rattle.std.specs.Set.{is_member};
ghost use Rattle.std.specs.Iterator.{YieldsFirstRef, item_count};
ghost use Rattle.cedar_ids.specs.UidOf.{same_uid};
ghost use Rattle.cedar_ids.specs.declared.entity.EntityUID.{EntityUID};
ghost use Rattle.cedar_uid_sets.specs.UidSets.{UidValues, Ascend, Retains};

use crate::ascending::ascend;
use crate::fronts::Key;
use crate::merge::{merge, shared};
use crate::order::{has, is_one_of, may_contain, place, place_from_end};
use crate::shared_uid::SharedUid;
use cedar_ids::entity::EntityUID;
use std::alloc::{AllocError, Global};
use std::collections::HashSet;
use std::hash::BuildHasher;
use std::marker::Model;
use std::{mem, slice};

/// A set of shared uids: a vector in ascending order, without duplicates.
#[derive(Debug, Drop)]
pub struct UidSet {
    uids: Vec<SharedUid>,
}

impl Model for UidSet {
    ghost use Rattle.std.specs.FinSet as set;
    ghost use Rattle.cedar_uid_sets.specs.Codes.{uid_set_code};
    ghost use Rattle.cedar_uid_sets.specs.UidSets.{UidValues, Ascend};

    ghost Value = { UidValues };

    ghost coded = { uid_set_code };

    ghost view = { λ s. set.from_list s.uids.items };

    ghost invariant = { λ s. Ascend s.uids.items };
}

impl UidSet {
    /// Creates an empty set. Does not allocate.
    pub fn new(alloc: Global) -> UidSet
        ensures { result ≡ set.empty }
    {
        UidSet {
            uids: Vec::new(alloc),
        }
    }

    /// Returns whether each uid is less than the next. Compares neighbours up to the first that is not less. Does not
    /// allocate.
    pub fn is_ascending(uids: &[SharedUid]) -> bool
        ensures { IsTrue result ↔ Ascend uids.now }
    {
        ascend(uids)
    }

    /// Creates a set from ascending uids without duplicates. The caller must ensure this; see [`UidSet::is_ascending`].
    /// Compares no uids and does not allocate.
    pub fn from_ascending(uids: Vec<SharedUid>) -> UidSet
        requires { Ascend uids.items }
        ensures { result ≡ set.from_list uids.items }
    {
        UidSet { uids }
    }

    /// Creates a set from the uids of a hash set, with any hasher. The uids become shared.
    ///
    /// # Errors
    ///
    /// Returns `AllocError` if an allocation fails.
    ///
    /// # Complexity
    ///
    /// O(n log n) comparisons, where n is the number of uids. Allocates a pointer and a box for each uid.
    pub fn from_set<S: BuildHasher + Drop>(
        alloc: Global,
        uids: HashSet<EntityUID, S>,
    ) -> Result<UidSet, AllocError>
        ensures { IfOk result (λ s. s ≡ set.from_list uids.keys) }
    {
        let mut ascending = shared(alloc, uids)?;
        ascending.sort()?;
        Ok(UidSet::from_ascending(ascending))
    }

    /// Returns the pointers, in ascending order of uid. Does not allocate.
    pub fn pointers(&self) -> &[SharedUid]
        ensures all { set.from_list result.now ≡ self.now }
        ensures ascending { Ascend result.now }
    {
        self.uids.as_slice()
    }

    /// Returns the pointers, in ascending order of uid, and consumes the set. Does not allocate.
    pub fn into_pointers(self) -> Vec<SharedUid>
        ensures all { set.from_list result.items ≡ self }
        ensures ascending { Ascend result.items }
    {
        let UidSet { uids: pointers } = self;
        pointers
    }

    /// Returns the set's allocator.
    pub fn allocator(&self) -> Global {
        *self.uids.allocator()
    }

    /// Returns the number of uids. Does not allocate.
    pub fn len(&self) -> usize
        ensures { result ≡ set.len self.now }
    {
        self.pointers().len()
    }

    /// Returns whether the set is empty. Does not allocate.
    pub fn is_empty(&self) -> bool
        ensures { IsTrue result ↔ (self.now ≡ set.empty) }
    {
        self.len() == 0
    }

    /// Iterates over the uids in ascending order. Does not allocate.
    pub fn iter(&self) -> Uids<'_>
        ensures members { (q : EntityUID) → is_member same_uid result q ≡ set.contains self.now q }
        ensures ascending { Ascend result }
    {
        Uids {
            inner: self.uids.iter(),
        }
    }

    /// Returns whether the set contains the uid.
    ///
    /// # Complexity
    ///
    /// O(log n) comparisons, where n is the number of uids. Compares with each uid if there are at most sixteen. Does
    /// not allocate.
    pub fn contains(&self, uid: &EntityUID) -> bool
        ensures { result ≡ set.contains self.now uid.now }
    {
        has(&self.uids, uid)
    }

    /// Returns whether the set contains a shared uid. Makes the comparisons of [`UidSet::contains`], but they are
    /// cheaper because the numbers of the uid are stored. Does not allocate.
    pub fn contains_shared(&self, shared: &SharedUid) -> bool
        ensures { result ≡ set.contains self.now shared.now }
    {
        is_one_of(&self.uids, &shared.key())
    }

    // Checks whether the set contains a shared uid. Compares the numbers first, because they mostly show that it does
    // not.
    #[inline(always)]
    fn holds(&self, shared: &SharedUid) -> bool
        ensures { result ≡ set.contains self.now shared.now }
    {
        may_contain(&self.uids, &shared.key()) && self.contains_shared(shared)
    }

    /// Returns whether one of two sets contains a shared uid. In a set of at most sixteen uids, mostly only the numbers
    /// are compared. Does not allocate.
    #[inline(always)]
    pub fn either_contains(one: &UidSet, other: &UidSet, shared: &SharedUid) -> bool
        ensures { result ≡ (set.contains one.now shared.now || set.contains other.now shared.now) }
    {
        one.holds(shared) || other.holds(shared)
    }

    /// Inserts a uid. If the set contains it already, the set does not change.
    ///
    /// # Errors
    ///
    /// Returns `AllocError` if an allocation fails, and then leaves the set unchanged.
    ///
    /// # Complexity
    ///
    /// O(log n) comparisons, where n is the number of uids. The uid is compared with the last one first, so ascending
    /// inserts need one comparison each. The pointers to greater uids are moved.
    pub fn insert(&mut self, shared: SharedUid) -> Result<(), AllocError>
        ensures ok { OnOk result (self.new ≡ set.insert self.old shared) }
        ensures err { OnErr result (self.new ≡ self.old) }
    {
        match place_from_end(&self.uids, &shared.key()) {
            Ok(_at) => Ok(()),
            Err(at) => Ok(self.uids.insert(at, shared)?),
        }
    }

    /// Removes a uid. If the set does not contain it, the set does not change.
    ///
    /// # Complexity
    ///
    /// O(log n) comparisons, where n is the number of uids. The pointers to greater uids are moved. Does not allocate.
    pub fn remove(&mut self, uid: &EntityUID)
        ensures { self.new ≡ set.remove self.old uid.now }
    {
        self.remove_key(&Key::of(uid));
    }

    /// Removes a shared uid. If the set does not contain it, the set does not change. Costs as much as
    /// [`UidSet::remove`], but the comparisons are cheaper because the numbers of the uid are stored. Does not
    /// allocate.
    pub fn remove_shared(&mut self, shared: &SharedUid)
        ensures { self.new ≡ set.remove self.old shared.now }
    {
        self.remove_key(&shared.key());
    }

    fn remove_key(&mut self, uid: &Key<'_>)
        ensures { self.new ≡ set.remove self.old uid.now }
    {
        if let Ok(at) = place(&self.uids, uid) {
            drop(self.uids.remove(at));
        }
    }

    /// Removes all uids. Keeps the capacity. Does not allocate.
    pub fn clear(&mut self)
        ensures { self.new ≡ set.empty }
    {
        self.uids.clear();
    }

    /// Keeps the uids for which the closure returns `true`. The closure is called once for each uid, in ascending
    /// order. It must be callable in every state. Does not allocate.
    pub fn retain<F: FnMut(&SharedUid) -> bool>(&mut self, f: F)
        requires { F.IsAlwaysCallable f }
        ensures { Retains (CalledAt F.FnMut) f self.old self.new }
    {
        self.uids.retain(f);
    }

    /// Removes every uid that is in `others`.
    ///
    /// # Complexity
    ///
    /// If `others` has fewer than 1,000 uids and fewer than this set, each of them is removed as in [`UidSet::remove`].
    /// Otherwise each uid of this set is looked up in `others`. Does not allocate.
    pub fn difference(&mut self, others: &UidSet)
        ensures { self.new ≡ set.difference self.old others.now }
    {
        if others.len() < FEW && others.len() < self.len() {
            self.remove_each(others.pointers());
        } else {
            self.retain_unlisted(others);
        }
    }

    // Removes each of the uids.
    fn remove_each(&mut self, uids: &[SharedUid])
        ensures { self.new ≡ set.difference self.old (set.from_list uids.now) }
    {
        for shared in uids {
            self.remove_shared(shared);
        }
    }

    // Keeps the uids that are not in `others`.
    fn retain_unlisted(&mut self, others: &UidSet)
        ensures { self.new ≡ set.difference self.old others.now }
    {
        self.uids.retain(|shared| !others.contains_shared(shared));
    }

    /// Inserts ascending uids without duplicates. The caller must ensure the order; see [`UidSet::is_ascending`]. For a
    /// uid that the set contains already, the existing pointer is kept.
    ///
    /// # Errors
    ///
    /// Returns `AllocError` if an allocation fails, and then leaves the set unchanged.
    ///
    /// # Complexity
    ///
    /// O(n + m), where n and m are the numbers of uids of both. Makes at most n + m comparisons, moves the pointers and
    /// copies none. An empty set takes over the vector. Otherwise one pointer per uid of both is allocated.
    pub fn extend_ascending(&mut self, uids: Vec<SharedUid>) -> Result<(), AllocError>
        requires { Ascend uids.items }
        ensures ok { OnOk result (self.new ≡ set.union self.old (set.from_list uids.items)) }
        ensures err { OnErr result (self.new ≡ self.old) }
    {
        if self.is_empty() {
            self.uids = uids;
            return Ok(());
        }
        if uids.is_empty() {
            return Ok(());
        }
        let alloc = self.allocator();
        let room = Vec::with_capacity(alloc, self.uids.len() + uids.len())?;
        let before = mem::replace(&mut self.uids, Vec::new(alloc));
        self.uids = merge(room, uids, before);
        Ok(())
    }

    /// Inserts the uids of another set. The uids are shared, not copied. For a uid that this set contains already, the
    /// existing pointer is kept.
    ///
    /// # Errors
    ///
    /// Returns `AllocError` if an allocation fails, or if a uid cannot be shared once more. After an allocation failure
    /// the set may contain some of the uids.
    ///
    /// # Complexity
    ///
    /// An empty set takes a copy of the other vector. Up to eight uids are inserted as in [`UidSet::insert`]. More uids
    /// are merged as in [`UidSet::extend_ascending`].
    pub fn extend_from(&mut self, others: &UidSet) -> Result<(), AllocError>
        ensures { OnOk result (self.new ≡ set.union self.old others.now) }
    {
        if others.is_empty() {
            return Ok(());
        }
        if !self.is_empty() && others.len() <= IN_TURN {
            return self.insert_each(others.pointers());
        }
        self.extend_ascending(others.clone()?.into_pointers())
    }

    // Inserts each of the uids.
    fn insert_each(&mut self, uids: &[SharedUid]) -> Result<(), AllocError>
        ensures { OnOk result (self.new ≡ set.union self.old (set.from_list uids.now)) }
    {
        for shared in uids {
            self.insert(shared.clone()?)?;
        }
        Ok(())
    }
}

// Fewer uids than this are removed one by one.
const FEW: usize = 1000;

// At most this many uids are inserted one by one. More uids are merged.
const IN_TURN: usize = 8;

impl PartialEq for UidSet {
    ghost use Rattle.std.specs.Cmp.{partial_equiv_from_equiv};
    ghost use Rattle.cedar_uid_sets.specs.UidSets.{same_uids};
    ghost use Rattle.cedar_uid_sets.specs.laws.Sets.{same_uids_equiv};

    ghost eq = { same_uids };

    ghost laws = { partial_equiv_from_equiv same_uids_equiv };

    /// Returns whether both sets have the same uids. Makes at most one comparison per uid. Does not allocate.
    fn eq(&self, other: &UidSet) -> bool {
        self.uids == other.uids
    }
}

impl Eq for UidSet {
    ghost use Rattle.cedar_uid_sets.specs.laws.Sets.{same_uids_equiv};

    ghost laws = { same_uids_equiv };
}

impl Clone for UidSet {
    ghost is_clone = { λ x y. y ≡ x };

    /// Returns a copy that shares the uids.
    ///
    /// # Errors
    ///
    /// Returns `AllocError` if an allocation fails, or if a uid cannot be shared once more.
    fn clone(&self) -> Result<UidSet, AllocError> {
        let copy = self.uids.clone()?;
        Ok(UidSet { uids: copy })
    }
}

/// An iterator over the uids of a set, in ascending order.
#[derive(Drop)]
pub struct Uids<'a> {
    inner: slice::Iter<'a, SharedUid>,
}

impl<'a> Model for Uids<'a> {
    ghost use Rattle.std.specs.Prelude.{List};
    ghost use Rattle.std.specs.Coded.{coded_list};
    ghost use Rattle.std.specs.Slice.Iter.{iter_rest};
    ghost use Rattle.cedar_ids.specs.Codes.{uid_code};
    ghost use Rattle.cedar_ids.specs.declared.entity.EntityUID.{EntityUID};

    ghost Value = { List EntityUID };

    ghost coded = { coded_list uid_code };

    ghost view = { λ u. iter_rest u.inner };
}

impl<'a> Iterator for Uids<'a> {
    type Item = &'a EntityUID;

    ghost next_gives = { YieldsFirstRef (λ s. s) };

    ghost remaining = { item_count (λ s. s) };

    fn next(&mut self) -> Option<&'a EntityUID> {
        let shared = self.inner.next()?;
        Some(shared.uid())
    }
}
