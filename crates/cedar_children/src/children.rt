//! The children of each parent.
ghost use Rattle.std.specs.Prelude.{◌≡◌, ◌↔◌, ◌&&◌, ◌||◌, true, false, not, IfOk, OnOk, IsTrue};
ghost use Rattle.std.specs.FinSet as set;
ghost use Rattle.std.specs.HashSet.{contains};
ghost use Rattle.cedar_ids.specs.UidOf.{same_uid};
ghost use Rattle.cedar_ids.specs.declared.entity.EntityUID.{EntityUID};
ghost use Rattle.cedar_children.specs.Children.{IsDescendantOrSelf, is_child, is_parent};

use crate::walk::walk;
use cedar_entity::entity::Entity;
use cedar_uid_sets::SharedUid;
use std::alloc::{AllocError, Global};
use std::collections::{HashMap, HashSet};
use std::fmt;
use std::hash::BuildHasher;

/// The children of each parent. A parent may be any uid; the store need not have an entity for it. A uid without
/// children has no entry.
///
/// It stores one pointer for each parent of each entity, and a hash set for each parent. So the cost of adding or
/// removing a child does not depend on the number of children of its parent.
///
/// # Differences from cedar-policy-core
///
/// The original has no such index.
#[derive(Drop)]
pub struct Children<S: BuildHasher> {
    pub(crate) sets: HashMap<SharedUid, HashSet<SharedUid, S>, S>,
}

impl<S: BuildHasher> fmt::Debug for Children<S> {
    /// Writes the children of each parent, in the order of the map.
    fn fmt<W: fmt::Write>(&self, f: &mut fmt::Formatter<W>) -> fmt::Result {
        f.debug_struct("Children")
            .field("sets", &self.sets)
            .finish()
    }
}

impl<S: BuildHasher> Children<S> {
    /// Creates an index without children. It hashes uids with hashers of `hasher`. Does not allocate.
    pub fn with_hasher(alloc: Global, hasher: S) -> Children<S>
        ensures { (p q : EntityUID) → is_child result p q ≡ false }
    {
        Children {
            sets: HashMap::with_hasher(alloc, hasher),
        }
    }
}

impl<S: BuildHasher + Clone> Children<S> {
    /// Removes an entity from the children of each of its parents. Looks up each parent, and the entity among its
    /// children. Does not allocate.
    pub fn remove(&mut self, child: &SharedUid, entity: &Entity)
        ensures { (p q : EntityUID) → is_child self.new p q
            ≡ (is_child self.old p q && not (same_uid child.now q && set.contains entity.now.parents p)) }
    {
        for parent in entity.shared_parents() {
            self.take(parent, child);
        }
    }

    /// Removes the entry of a parent: afterwards it has no children. The children's own entries do not change. Makes
    /// one lookup. Does not allocate.
    pub fn remove_parent(&mut self, parent: &SharedUid)
        ensures { (p q : EntityUID) → is_child self.new p q
            ≡ (not (same_uid parent.now p) && is_child self.old p q) }
    {
        self.sets.remove(parent);
    }

    // Removes a child of a parent. Removes the parent too if it has no other child.
    fn take(&mut self, parent: &SharedUid, child: &SharedUid)
        ensures { (p q : EntityUID) → is_child self.new p q
            ≡ (is_child self.old p q && not (same_uid parent.now p && same_uid child.now q)) }
    {
        if self.remove_child(parent, child) {
            self.remove_parent(parent);
        }
    }

    // Removes a child of a parent. Returns whether the parent has no child left.
    fn remove_child(&mut self, parent: &SharedUid, child: &SharedUid) -> bool
        ensures taken { (p q : EntityUID) → is_child self.new p q
            ≡ (is_child self.old p q && not (same_uid parent.now p && same_uid child.now q)) }
        ensures none { IsTrue result → (q : EntityUID) → is_child self.new parent.now q ≡ false }
    {
        match self.sets.get_mut(parent) {
            Some(set) => {
                set.remove(child);
                set.is_empty()
            }
            None => false,
        }
    }

    // Adds a child to a parent.
    fn put(
        &mut self,
        alloc: Global,
        parent: &SharedUid,
        child: &SharedUid,
    ) -> Result<(), AllocError>
        ensures { OnOk result ((p q : EntityUID) → is_child self.new p q
            ≡ (is_child self.old p q || (same_uid parent.now p && same_uid child.now q))) }
    {
        if let Some(set) = self.sets.get_mut(parent) {
            set.insert(child.clone()?)?;
            return Ok(());
        }
        self.insert_first_child(alloc, parent, child)
    }

    // Adds a child to a parent that has no children yet.
    fn insert_first_child(
        &mut self,
        alloc: Global,
        parent: &SharedUid,
        child: &SharedUid,
    ) -> Result<(), AllocError>
        requires { (q : EntityUID) → is_child self.old parent.now q ≡ false }
        ensures { OnOk result ((p q : EntityUID) → is_child self.new p q
            ≡ (is_child self.old p q || (same_uid parent.now p && same_uid child.now q))) }
    {
        let mut set = HashSet::with_hasher(alloc, self.sets.hasher().clone()?);
        set.insert(child.clone()?)?;
        self.sets.insert(parent.clone()?, set)?;
        Ok(())
    }

    /// Adds an entity as a child of each of its parents, and returns the index.
    ///
    /// Looks up each parent, and hashes the entity once for each.
    ///
    /// # Errors
    ///
    /// Returns `AllocError` if an allocation fails, and then drops the index.
    pub fn with(
        self,
        alloc: Global,
        child: &SharedUid,
        entity: &Entity,
    ) -> Result<Children<S>, AllocError>
        ensures { IfOk result (λ c. (p q : EntityUID) → is_child c p q
            ≡ (is_child self p q || (same_uid child.now q && set.contains entity.now.parents p))) }
    {
        let mut children = self;
        for parent in entity.shared_parents() {
            children.put(alloc, parent, child)?;
        }
        Ok(children)
    }

    /// Returns the given uids and all of their descendants: their children, the children of these, and so on.
    ///
    /// # Errors
    ///
    /// Returns `AllocError` if an allocation fails.
    ///
    /// # Complexity
    ///
    /// Looks up each result once, and each again for each of its parents in the result. Allocates in proportion to the
    /// result.
    pub fn below(
        &self,
        alloc: Global,
        uids: &HashSet<SharedUid, S>,
    ) -> Result<HashSet<SharedUid, S>, AllocError>
        ensures { IfOk result (λ s. (q : EntityUID) →
            (contains same_uid s q ≡ true) ↔ IsDescendantOrSelf (is_parent self.now) uids.now.keys q) }
    {
        walk(alloc, &self.sets, uids)
    }
}
