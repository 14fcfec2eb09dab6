//! The difference that an edit would make. Nothing is changed.
ghost use Rattle.std.specs.Prelude.{◌≡◌, IfOk};
ghost use Rattle.cedar_entity_maps.specs.Plain.{HaveNoIndirect, entities_in};
ghost use Rattle.cedar_entity_maps.specs.declared.modes.TCComputation.TheVariants.{ComputeNow};
ghost use Rattle.cedar_entity_maps.specs.laws.Indexes.{IsPlainHeld};
ghost use Rattle.cedar_entity_diff.specs.WouldChange.{IsAddResult, IsRemoveResult, IsUpsertResult, WouldChange};

use crate::parts::{has_part, has_part_for, part_for_add, part_for_remove, part_for_upsert};
use crate::store_diff::{StoreDiff, diff};
use cedar_entities::{Entities, EntitiesError, Entity, TCComputation};
use cedar_ids::entity::EntityUID;
use std::alloc::{AllocError, Global};
use std::hash::BuildHasher;
use std::rc::Rc;

// Returns what adding a list would change, by making the edit on a part of the store.
fn part_change_by_add<S: BuildHasher + Clone>(
    alloc: Global,
    store: &Entities<S>,
    list: Vec<Rc<Entity>>,
) -> Result<StoreDiff, EntitiesError>
    requires plain { IsPlainHeld store.now.entities }
    requires list { HaveNoIndirect (entities_in list.items) }
    ensures { WouldChange store.now (IsAddResult ComputeNow store.now (entities_in list.items)) result }
{
    let part = part_for_add(alloc, store, &list)?;
    let copy = part.clone()?;
    let edited = copy.add_entities(alloc, list, TCComputation::ComputeNow)?;
    Ok(diff(alloc, &part, &edited)?)
}

// Returns what adding a list would change, by making the edit on a copy of the store.
fn copy_change_by_add<S: BuildHasher + Clone>(
    alloc: Global,
    store: &Entities<S>,
    list: Vec<Rc<Entity>>,
    tc_computation: TCComputation,
) -> Result<StoreDiff, EntitiesError>
    ensures { WouldChange store.now (IsAddResult tc_computation store.now (entities_in list.items)) result }
{
    let copy = store.clone()?;
    let edited = copy.add_entities(alloc, list, tc_computation)?;
    Ok(diff(alloc, store, &edited)?)
}

/// Returns the difference of a store and what [`Entities::add_entities`] of this list would leave. The store does not
/// change.
///
/// # Errors
///
/// The errors of [`Entities::add_entities`]. `Memory` also if another allocation fails.
///
/// # Complexity
///
/// If the store is known to be plain (see [`Entities`]), the mode is `ComputeNow`, and no entity of the list has indirect
/// ancestors, the cost does not depend on the size of the store, except for the search for the affected entities (see
/// [`Entities::affected`]). The call takes the slice of the store at these, at the uids of the list and at their parents
/// (see [`slice`](cedar_slice::slice)). It makes the edit on the slice, and compares both as [`diff`] does. Overwriting
/// that changes no parents needs no search.
///
/// Otherwise it copies the pointers to all entities, makes the edit on the copy, and compares both stores.
///
/// # Differences from cedar-policy-core
///
/// The original has no such function.
pub fn would_change_by_add<S: BuildHasher + Clone>(
    alloc: Global,
    store: &Entities<S>,
    list: Vec<Rc<Entity>>,
    tc_computation: TCComputation,
) -> Result<StoreDiff, EntitiesError>
    ensures { WouldChange store.now (IsAddResult tc_computation store.now (entities_in list.items)) result }
{
    if has_part_for(store, &list, tc_computation) {
        return part_change_by_add(alloc, store, list);
    }
    copy_change_by_add(alloc, store, list, tc_computation)
}

// Returns what overwriting with a list would change, by making the edit on a part of the store.
fn part_change_by_upsert<S: BuildHasher + Clone>(
    alloc: Global,
    store: &Entities<S>,
    list: Vec<Rc<Entity>>,
) -> Result<StoreDiff, EntitiesError>
    requires plain { IsPlainHeld store.now.entities }
    requires list { HaveNoIndirect (entities_in list.items) }
    ensures { WouldChange store.now (IsUpsertResult ComputeNow store.now (entities_in list.items)) result }
{
    let part = part_for_upsert(alloc, store, &list)?;
    let copy = part.clone()?;
    let edited = copy.upsert_entities(alloc, list, TCComputation::ComputeNow)?;
    Ok(diff(alloc, &part, &edited)?)
}

// Returns what overwriting with a list would change, by making the edit on a copy of the store.
fn copy_change_by_upsert<S: BuildHasher + Clone>(
    alloc: Global,
    store: &Entities<S>,
    list: Vec<Rc<Entity>>,
    tc_computation: TCComputation,
) -> Result<StoreDiff, EntitiesError>
    ensures { WouldChange store.now (IsUpsertResult tc_computation store.now (entities_in list.items)) result }
{
    let copy = store.clone()?;
    let edited = copy.upsert_entities(alloc, list, tc_computation)?;
    Ok(diff(alloc, store, &edited)?)
}

/// Returns the difference of a store and what [`Entities::upsert_entities`] of this list would leave. The store does not
/// change.
///
/// # Errors
///
/// The errors of [`Entities::upsert_entities`]. `Memory` also if another allocation fails.
///
/// # Complexity
///
/// Costs as much as [`would_change_by_add`].
///
/// # Differences from cedar-policy-core
///
/// The original has no such function.
pub fn would_change_by_upsert<S: BuildHasher + Clone>(
    alloc: Global,
    store: &Entities<S>,
    list: Vec<Rc<Entity>>,
    tc_computation: TCComputation,
) -> Result<StoreDiff, EntitiesError>
    ensures { WouldChange store.now (IsUpsertResult tc_computation store.now (entities_in list.items)) result }
{
    if has_part_for(store, &list, tc_computation) {
        return part_change_by_upsert(alloc, store, list);
    }
    copy_change_by_upsert(alloc, store, list, tc_computation)
}

// Returns what removing uids would change, by making the edit on a part of the store.
fn part_change_by_remove<S: BuildHasher + Clone>(
    alloc: Global,
    store: &Entities<S>,
    list: Vec<EntityUID>,
) -> Result<StoreDiff, EntitiesError>
    requires plain { IsPlainHeld store.now.entities }
    ensures { WouldChange store.now (IsRemoveResult ComputeNow store.now list.items) result }
{
    let part = part_for_remove(alloc, store, &list)?;
    let copy = part.clone()?;
    let edited = copy.remove_entities(alloc, list, TCComputation::ComputeNow)?;
    Ok(diff(alloc, &part, &edited)?)
}

// Returns what removing uids would change, by making the edit on a copy of the store.
fn copy_change_by_remove<S: BuildHasher + Clone>(
    alloc: Global,
    store: &Entities<S>,
    list: Vec<EntityUID>,
    tc_computation: TCComputation,
) -> Result<StoreDiff, EntitiesError>
    ensures { WouldChange store.now (IsRemoveResult tc_computation store.now list.items) result }
{
    let copy = store.clone()?;
    let edited = copy.remove_entities(alloc, list, tc_computation)?;
    Ok(diff(alloc, store, &edited)?)
}

/// Returns the difference of a store and what [`Entities::remove_entities`] of this list would leave. The store does not
/// change.
///
/// # Errors
///
/// The errors of [`Entities::remove_entities`]. `Memory` also if another allocation fails.
///
/// # Complexity
///
/// Costs as much as [`would_change_by_add`].
///
/// # Differences from cedar-policy-core
///
/// The original has no such function.
pub fn would_change_by_remove<S: BuildHasher + Clone>(
    alloc: Global,
    store: &Entities<S>,
    list: Vec<EntityUID>,
    tc_computation: TCComputation,
) -> Result<StoreDiff, EntitiesError>
    ensures { WouldChange store.now (IsRemoveResult tc_computation store.now list.items) result }
{
    if has_part(store, tc_computation) {
        return part_change_by_remove(alloc, store, list);
    }
    copy_change_by_remove(alloc, store, list, tc_computation)
}
