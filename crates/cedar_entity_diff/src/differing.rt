//! The uids at which two stores may differ.
ghost use Rattle.std.specs.Prelude.{◌≡◌, true, false, Some, IfOk, OnOk, is_some};
ghost use Rattle.std.specs.FinMap as finmap;
ghost use Rattle.std.specs.Option.{IfSome};
ghost use Rattle.std.specs.Set.{is_member};
ghost use Rattle.cedar_ids.specs.UidOf.{same_uid};
ghost use Rattle.cedar_ids.specs.declared.entity.EntityUID.{EntityUID};
ghost use Rattle.cedar_uid_sets.specs.UidSets.{Ascend};
ghost use Rattle.cedar_entity_maps.specs.Plain.{IsKeyed};
ghost use Rattle.cedar_entity_diff.specs.laws.Listed.{Pushes};

use crate::compare::are_equal;
use cedar_entities::{Entities, Entity, SharedUid, UidSet};
use std::alloc::{AllocError, Global};
use std::hash::BuildHasher;

// Appends the uid of an entity, unless the store has an equal entity.
fn push_unless_equal<S: BuildHasher + Clone>(
    alloc: Global,
    uids: &mut Vec<SharedUid>,
    entity: &Entity,
    store: &Entities<S>,
) -> Result<(), AllocError>
    ensures { OnOk result (Pushes uids.old.items entity.now.uid
        (finmap.get store.now.entities entity.now.uid ≡ Some entity.now) uids.new.items) }
{
    if let Some(other) = store.stored(entity.uid()) {
        if are_equal(other, entity) {
            return Ok(());
        }
    }
    uids.push(SharedUid::copy_of(alloc, entity.uid())?)?;
    Ok(())
}

// Appends the uid of an entity, unless the store has an entity with this uid.
fn push_unless_stored<S: BuildHasher + Clone>(
    alloc: Global,
    uids: &mut Vec<SharedUid>,
    entity: &Entity,
    store: &Entities<S>,
) -> Result<(), AllocError>
    ensures { OnOk result (Pushes uids.old.items entity.now.uid
        (is_some (finmap.get store.now.entities entity.now.uid) ≡ true) uids.new.items) }
{
    if store.stored(entity.uid()).is_some() {
        return Ok(());
    }
    uids.push(SharedUid::copy_of(alloc, entity.uid())?)?;
    Ok(())
}

// Returns the uids of the entities of a store that the other store does not have, or not with this content and these
// ancestors.
fn uids_of_unequal<S: BuildHasher + Clone>(
    alloc: Global,
    store: &Entities<S>,
    other: &Entities<S>,
) -> Result<Vec<SharedUid>, AllocError>
    ensures finds { IfOk result (λ v. (q : EntityUID) → is_member same_uid v.items q ≡ false →
        IfSome (finmap.get store.now.entities q) (λ e. finmap.get other.now.entities q ≡ Some e)) }
    ensures keyed { OnOk result (IsKeyed store.now.entities) }
{
    let mut uids = Vec::new(alloc);
    for entity in store.iter() {
        push_unless_equal(alloc, &mut uids, entity, other)?;
    }
    Ok(uids)
}

// Appends the uids of the entities of a store that the other store does not have.
fn push_uids_of_new<S: BuildHasher + Clone>(
    alloc: Global,
    uids: &mut Vec<SharedUid>,
    store: &Entities<S>,
    other: &Entities<S>,
) -> Result<(), AllocError>
    ensures stays { OnOk result ((q : EntityUID) → is_member same_uid uids.new.items q ≡ false →
        is_member same_uid uids.old.items q ≡ false) }
    ensures finds { OnOk result ((q : EntityUID) → is_member same_uid uids.new.items q ≡ false →
        IfSome (finmap.get store.now.entities q) (λ e. is_some (finmap.get other.now.entities q) ≡ true)) }
    ensures keyed { OnOk result (IsKeyed store.now.entities) }
{
    for entity in store.iter() {
        push_unless_stored(alloc, uids, entity, other)?;
    }
    Ok(())
}

// Returns uids in ascending order, each once, with all uids at which the stores differ.
pub(crate) fn differing_uids<S: BuildHasher + Clone>(
    alloc: Global,
    store: &Entities<S>,
    other: &Entities<S>,
) -> Result<Vec<SharedUid>, AllocError>
    ensures ascending { IfOk result (λ v. Ascend v.items) }
    ensures others { IfOk result (λ v. (q : EntityUID) → is_member same_uid v.items q ≡ false →
        finmap.get store.now.entities q ≡ finmap.get other.now.entities q) }
    ensures keyed { OnOk result (IsKeyed store.now.entities × IsKeyed other.now.entities) }
{
    let mut uids = uids_of_unequal(alloc, store, other)?;
    push_uids_of_new(alloc, &mut uids, other, store)?;
    let set = UidSet::from_pointers(uids)?;
    Ok(set.into_pointers())
}
