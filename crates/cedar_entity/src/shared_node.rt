//! Shared entities as nodes of a graph whose keys are shared uids. A store closes this graph.
ghost use Rattle.std.specs.Prelude.{◌≡◌, ℕ, ◌<◌, ◌||◌, true, IfOk, OnOk, OnErr, map, length, slice_index};
ghost use Rattle.std.specs.List.{range_with_len};
ghost use Rattle.std.specs.List.Sorted.{IsPermutation};
ghost use Rattle.std.specs.FinSet as set;
ghost use Rattle.std.specs.Set.{is_member};
ghost use Rattle.cedar_ids.specs.UidOf.{same_uid};
ghost use Rattle.cedar_ids.specs.declared.entity.EntityUID.{EntityUID};
ghost use Rattle.cedar_graph.specs.Ascending.{IsAscending, IsAscendingAt};
ghost use Rattle.cedar_graph.specs.Graph.{Grows};
ghost use Rattle.cedar_entity.specs.View.{has_ancestor, rest, unchanged_parts};
ghost use Rattle.cedar_entity.specs.laws.Views.{AreNewTo, uid_precedes};

use crate::entity::Entity;
use crate::iters::SharedUids;
use crate::node::{SharedEntity, reset};
use cedar_graph::TCNode;
use cedar_uid_sets::SharedUid;
use std::alloc::{AllocError, Global};
use std::mem;
use std::rc::Rc;

// Collects the remaining items of an iterator.
fn listed_pointers<'a>(
    alloc: Global,
    uids: SharedUids<'a>,
) -> Result<Vec<&'a SharedUid>, AllocError>
    ensures { IfOk result (λ v. map (λ x. x.now) v.items ≡ uids.entry) }
{
    uids.collect(alloc)
}

// Replaces the content of a list by the remaining items of an iterator.
fn relist<'a>(list: &mut Vec<&'a SharedUid>, uids: SharedUids<'a>) -> Result<(), AllocError>
    ensures { OnOk result (map (λ x. x.now) list.new.items ≡ uids.entry) }
{
    list.clear();
    list.extend(uids)
}

// Returns the positions of the keys in ascending order of uid.
fn order(alloc: Global, keys: &[SharedUid]) -> Result<Vec<usize>, AllocError>
    ensures { IfOk result (λ v. IsPermutation (range_with_len 0 (length keys.now)) v.items) }
{
    let mut places: Vec<usize> = (0..keys.len()).collect(alloc)?;
    places.sort_by(|one, other| keys.get(*one).cmp(&keys.get(*other)))?;
    Ok(places)
}

// Checks whether the keys at the positions in `numbers` ascend.
fn ascend_at(keys: &[SharedUid], numbers: &[usize]) -> bool
    requires { (k : ℕ) → k < length numbers.now → slice_index numbers.now k < length keys.now }
    ensures { result ≡ true → IsAscendingAt uid_precedes keys.now numbers.now }
{
    for k in 1..numbers.len() {
        if keys[numbers[k - 1]].cmp(&keys[numbers[k]]).is_ge() {
            return false;
        }
    }
    true
}

// Moves the keys out of a vector.
fn taken(alloc: Global, keys: &mut Vec<SharedUid>) -> Vec<SharedUid>
    ensures { result.items ≡ keys.old.items }
{
    mem::replace(keys, Vec::new(alloc))
}

// Inserts a uid as an indirect ancestor, unless it is a parent.
fn add_pointer(entity: &mut Entity, shared: SharedUid) -> Result<(), AllocError>
    ensures ok { OnOk result ((q : EntityUID) → has_ancestor entity.new q
        ≡ (has_ancestor entity.old q || same_uid shared q)) }
    ensures err { OnErr result (entity.new ≡ entity.old) }
    ensures direct { entity.new.parents ≡ entity.old.parents }
    ensures key { entity.new.uid ≡ entity.old.uid }
    ensures rest { rest entity.new ≡ rest entity.old }
    ensures kept { unchanged_parts entity.new ≡ unchanged_parts entity.old }
{
    entity.add_shared_ancestor(shared)
}

// Inserts the keys of a vector as indirect ancestors, except parents.
fn add_row(alloc: Global, entity: &mut Entity, keys: &mut Vec<SharedUid>) -> Result<(), AllocError>
    ensures ok { OnOk result ((q : EntityUID) → has_ancestor entity.new q
        ≡ (has_ancestor entity.old q || is_member same_uid keys.old.items q)) }
    ensures grows { Grows (has_ancestor entity.old) (has_ancestor entity.new)
        (is_member same_uid keys.old.items) }
    ensures key { entity.new.uid ≡ entity.old.uid }
    ensures rest { rest entity.new ≡ rest entity.old }
    ensures kept { unchanged_parts entity.new ≡ unchanged_parts entity.old }
{
    let keys = taken(alloc, keys);
    entity.add_shared_ancestors(keys)
}

// Inserts the keys of a vector as indirect ancestors. None of them may be an ancestor already.
fn add_new_row(
    alloc: Global,
    entity: &mut Entity,
    keys: &mut Vec<SharedUid>,
) -> Result<(), AllocError>
    requires { AreNewTo entity.old keys.old.items }
    ensures ok { OnOk result ((q : EntityUID) → has_ancestor entity.new q
        ≡ (has_ancestor entity.old q || is_member same_uid keys.old.items q)) }
    ensures grows { Grows (has_ancestor entity.old) (has_ancestor entity.new)
        (is_member same_uid keys.old.items) }
    ensures key { entity.new.uid ≡ entity.old.uid }
    ensures rest { rest entity.new ≡ rest entity.old }
    ensures kept { unchanged_parts entity.new ≡ unchanged_parts entity.old }
{
    let keys = taken(alloc, keys);
    entity.add_new_ancestors(keys)
}

// Inserts the keys of a vector as indirect ancestors. They must ascend, and none of them may be an ancestor already.
fn add_ascending_row(
    alloc: Global,
    entity: &mut Entity,
    keys: &mut Vec<SharedUid>,
) -> Result<(), AllocError>
    requires new { AreNewTo entity.old keys.old.items }
    requires ascending { IsAscending uid_precedes keys.old.items }
    ensures ok { OnOk result ((q : EntityUID) → has_ancestor entity.new q
        ≡ (has_ancestor entity.old q || is_member same_uid keys.old.items q)) }
    ensures grows { Grows (has_ancestor entity.old) (has_ancestor entity.new)
        (is_member same_uid keys.old.items) }
    ensures key { entity.new.uid ≡ entity.old.uid }
    ensures rest { rest entity.new ≡ rest entity.old }
    ensures kept { unchanged_parts entity.new ≡ unchanged_parts entity.old }
{
    let keys = taken(alloc, keys);
    entity.add_ascending_ancestors(keys)
}

impl TCNode<SharedUid> for SharedEntity {
    ghost use Rattle.cedar_ids.specs.declared.entity.EntityUID.{EntityUID};
    ghost use Rattle.std.specs.FinSet as set;
    ghost use Rattle.cedar_entity.specs.View.{EntityView, has_ancestor, Rest, rest, UnchangedParts, unchanged_parts};
    ghost use Rattle.cedar_entity.specs.laws.Views.{ancestors_respect, parents_are_ancestors};
    ghost use Rattle.cedar_entity.specs.laws.Views.{uid_precedes, uid_precedes_respects};

    ghost Rest = { Rest };

    ghost Kept = { UnchangedParts };

    ghost key = { λ n. n.0.value.uid };

    ghost edges = { λ n. has_ancestor n.0.value };

    ghost direct = { λ n. set.contains n.0.value.parents };

    ghost rest = { λ n. rest n.0.value };

    ghost kept = { λ n. unchanged_parts n.0.value };

    ghost precedes = { uid_precedes };

    /// Returns a copy of the uid, as a shared uid.
    ///
    /// # Errors
    ///
    /// Returns `AllocError` if an allocation fails.
    fn get_key(&self, alloc: Global) -> Result<SharedUid, AllocError> {
        SharedUid::copy_of(alloc, self.0.uid())
    }

    /// Inserts an indirect ancestor without copying the uid; see [`Entity::add_indirect_ancestor`]. If the entity is
    /// shared, it is copied first.
    fn add_edge_to(&mut self, _alloc: Global, k: SharedUid) -> Result<(), AllocError> {
        match Rc::get_mut(&mut self.0) {
            Some(entity) => add_pointer(entity, k),
            None => add_pointer(Rc::make_mut(&mut self.0)?, k),
        }
    }

    /// Lists the ancestors.
    ///
    /// # Errors
    ///
    /// Returns `AllocError` if an allocation fails.
    fn out_edges(&self, alloc: Global) -> Result<Vec<&SharedUid>, AllocError> {
        listed_pointers(alloc, self.0.shared_ancestors())
    }

    /// Replaces the content of `list` by the ancestors, parents last. Allocates only if the list has too little
    /// capacity.
    ///
    /// # Errors
    ///
    /// Returns `AllocError` if an allocation fails.
    fn list_edges<'a>(
        &'a self,
        _alloc: Global,
        list: &mut Vec<&'a SharedUid>,
    ) -> Result<(), AllocError> {
        relist(list, self.0.ancestors_parents_last())
    }

    /// Returns whether `k` is an ancestor; see [`Entity::is_descendant_of_shared`]. Does not allocate.
    fn has_edge_to(&self, k: &SharedUid) -> bool {
        self.0.is_descendant_of_shared(k)
    }

    /// Returns whether there is an ancestor. Does not allocate.
    fn may_have_edges(&self) -> bool {
        self.0.has_ancestors()
    }

    /// Removes all indirect ancestors. If the entity is shared, it is copied first.
    ///
    /// # Errors
    ///
    /// Returns `AllocError` if the allocation of the copy fails.
    fn reset_edges(&mut self, _alloc: Global) -> Result<(), AllocError>
        ensures exact { OnOk result
            (self.new.0.value ≡ record self.old.0.value { indirect = set.empty }) }
        ensures ok { OnOk result ((q : _) →
            has_ancestor self.new.0.value q ≡ set.contains self.old.0.value.parents q) }
        ensures err { OnErr result ((q : _) →
            has_ancestor self.new.0.value q ≡ has_ancestor self.old.0.value q) }
        ensures err_kept { OnErr result (unchanged_parts self.new.0.value ≡ unchanged_parts self.old.0.value) }
        ensures direct { (q : _) →
            set.contains self.new.0.value.parents q ≡ set.contains self.old.0.value.parents q }
        ensures key { self.new.0.value.uid ≡ self.old.0.value.uid }
        ensures rest { rest self.new.0.value ≡ rest self.old.0.value }
    {
        reset(Rc::make_mut(&mut self.0)?);
        Ok(())
    }

    /// Lists the parents only.
    ///
    /// # Errors
    ///
    /// Returns `AllocError` if an allocation fails.
    fn direct_edges(&self, alloc: Global) -> Result<Vec<&SharedUid>, AllocError>
        ensures exact { IfOk result (λ v. (q : _) → is_member same_uid (map (λ x. x.now) v.items) q
            ≡ set.contains self.now.0.value.parents q) }
    {
        listed_pointers(alloc, self.0.shared_parents())
    }

    /// Returns the positions of the keys in ascending order of uid.
    ///
    /// # Errors
    ///
    /// Returns `AllocError` if an allocation fails.
    fn order(alloc: Global, keys: &[SharedUid]) -> Result<Vec<usize>, AllocError> {
        order(alloc, keys)
    }

    /// Returns whether the uids at the positions in `numbers` ascend. Each number must be below `keys.len()`. Compares
    /// neighbours. Does not allocate.
    fn are_ascending(keys: &[SharedUid], numbers: &[usize]) -> bool {
        ascend_at(keys, numbers)
    }

    /// Inserts the uids as indirect ancestors, except parents. Ascending uids are inserted in one pass. If the entity
    /// is shared, it is copied first.
    fn add_edges_to(&mut self, alloc: Global, keys: &mut Vec<SharedUid>) -> Result<(), AllocError> {
        add_row(alloc, Rc::make_mut(&mut self.0)?, keys)
    }

    /// Inserts the uids as indirect ancestors. The caller must ensure that none of them is an ancestor, so they are not
    /// compared with the parents. Ascending uids are inserted in one pass. If the entity is shared, it is copied first.
    fn add_new_edges_to(
        &mut self,
        alloc: Global,
        keys: &mut Vec<SharedUid>,
    ) -> Result<(), AllocError> {
        add_new_row(alloc, Rc::make_mut(&mut self.0)?, keys)
    }

    /// Inserts the uids as indirect ancestors. The caller must ensure that they ascend and that none of them is an
    /// ancestor, so they are not compared. If the entity is shared, it is copied first.
    fn add_ascending_edges_to(
        &mut self,
        alloc: Global,
        keys: &mut Vec<SharedUid>,
    ) -> Result<(), AllocError> {
        add_ascending_row(alloc, Rc::make_mut(&mut self.0)?, keys)
    }

    ghost respects_eq = { λ n. ancestors_respect n.0.value };

    ghost direct_are_edges = { λ n. parents_are_ancestors n.0.value };

    ghost precedes_respects_eq = { uid_precedes_respects };
}
