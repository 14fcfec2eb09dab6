//! The ancestors of an entity as sets.
ghost use Rattle.std.specs.Prelude.{◌≡◌, ◌||◌, OnOk, OnErr};
ghost use Rattle.std.specs.FinSet as set;
ghost use Rattle.cedar_ids.specs.declared.entity.EntityUID.{EntityUID};
ghost use Rattle.cedar_uid_sets.specs.UidSets.{same_uids};
ghost use Rattle.cedar_entity.specs.View.{has_ancestor};

use crate::entity::Entity;
use cedar_uid_sets::UidSet;
use std::alloc::AllocError;

impl Entity {
    /// Returns the number of ancestors.
    pub fn ancestors_len(&self) -> usize {
        self.parents
            .len()
            .saturating_add(self.indirect_ancestors.len())
    }

    /// Returns whether another entity has the same parents. Makes at most one comparison per parent. Does not allocate.
    pub fn has_same_parents(&self, other: &Entity) -> bool
        ensures { result ≡ same_uids self.now.parents other.now.parents }
    {
        self.parents == other.parents
    }

    /// Inserts the ancestors into a set, without copying them.
    ///
    /// # Errors
    ///
    /// Returns `AllocError` if an allocation fails. After an allocation failure the set may contain some of the
    /// ancestors.
    ///
    /// # Complexity
    ///
    /// As in [`UidSet::extend_from`], for the indirect ancestors and for the parents.
    pub fn insert_ancestors_into(&self, uids: &mut UidSet) -> Result<(), AllocError>
        ensures { OnOk result ((q : EntityUID) → set.contains uids.new q
            ≡ (set.contains uids.old q || has_ancestor self.now q)) }
    {
        uids.extend_from(&self.indirect_ancestors)?;
        uids.extend_from(&self.parents)
    }

    /// Inserts the uids of a set as indirect ancestors, except uids that are parents. The parents do not change.
    ///
    /// # Errors
    ///
    /// Returns `AllocError` if an allocation fails, and then leaves the entity unchanged.
    pub fn add_ancestor_set(&mut self, uids: UidSet) -> Result<(), AllocError>
        ensures ok { OnOk result (self.new ≡ record self.old {
          indirect = set.union self.old.indirect (set.difference uids self.old.parents);
        }) }
        ensures err { OnErr result (self.new ≡ self.old) }
    {
        let mut added = uids;
        added.difference(&self.parents);
        self.indirect_ancestors
            .extend_ascending(added.into_pointers())
    }
}
