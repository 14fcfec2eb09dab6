//! The part of a store that decides what an edit changes. It has the entities that the edit affects, and with each
//! entity its ancestors.
ghost use Rattle.std.specs.Prelude.{◌≡◌, ◌⊎◌, ◌∷◌, ◌++◌, [], IfErr, IfOk, IsTrue, OnOk, filter, not};
ghost use Rattle.std.specs.FinMap as finmap;
ghost use Rattle.cedar_ids.specs.declared.entity.EntityUID.{EntityUID};
ghost use Rattle.cedar_entity.specs.declared.err.EntitiesError.TheVariants.{Memory};
ghost use Rattle.cedar_entity_maps.specs.Affected.{inserted_in, removed_from};
ghost use Rattle.cedar_entity_maps.specs.Edits.{uids_of};
ghost use Rattle.cedar_entity_maps.specs.Plain.{HaveNoIndirect, entities_in};
ghost use Rattle.cedar_entity_maps.specs.declared.modes.TCComputation.TheVariants.{ComputeNow};
ghost use Rattle.cedar_entity_maps.specs.laws.Indexes.{IsPlainHeld};
ghost use Rattle.cedar_entity_diff.specs.laws.Parts.{HasSameParents, HaveSameParents, IsEditPart, IsPartAt, IsUpsertPart};

use cedar_dry_run::have_no_indirect;
use cedar_dry_run::requested::uids_and_parents;
use cedar_entities::{Entities, EntitiesError, Entity, SharedUid, TCComputation};
use cedar_ids::entity::EntityUID;
use cedar_slice::slice;
use std::alloc::{AllocError, Global};
use std::hash::BuildHasher;
use std::rc::Rc;

// Returns whether the mode computes the closure.
fn is_compute_now(tc_computation: TCComputation) -> bool
    ensures { IsTrue result → tc_computation ≡ ComputeNow }
{
    match tc_computation {
        TCComputation::ComputeNow => true,
        TCComputation::AssumeAlreadyComputed => false,
        TCComputation::EnforceAlreadyComputed => false,
    }
}

// Returns whether a part of the store decides what a removal changes: the store is known to be plain, and the mode
// computes the closure.
pub(crate) fn has_part<S: BuildHasher + Clone>(
    store: &Entities<S>,
    tc_computation: TCComputation,
) -> bool
    ensures mode { IsTrue result → tc_computation ≡ ComputeNow }
    ensures store { IsTrue result → IsPlainHeld store.now.entities }
{
    is_compute_now(tc_computation) && store.is_known_plain()
}

// Returns whether a part of the store decides what adding a list, or overwriting with it, changes.
pub(crate) fn has_part_for<S: BuildHasher + Clone>(
    store: &Entities<S>,
    list: &[Rc<Entity>],
    tc_computation: TCComputation,
) -> bool
    ensures mode { IsTrue result → tc_computation ≡ ComputeNow }
    ensures store { IsTrue result → IsPlainHeld store.now.entities }
    ensures list { IsTrue result → HaveNoIndirect (entities_in list.now) }
{
    has_part(store, tc_computation) && have_no_indirect(list)
}

// Appends a copy of the uid of an entity, unless the store has an entity with this uid.
fn push_inserted<S: BuildHasher + Clone>(
    alloc: Global,
    store: &Entities<S>,
    uids: &mut Vec<SharedUid>,
    entity: &Entity,
) -> Result<(), AllocError>
    ensures { OnOk result (uids.new.items ≡ uids.old.items
        ++ filter (λ u. not (finmap.contains_key store.now.entities u)) (entity.now.uid ∷ [])) }
{
    if store.stored(entity.uid()).is_none() {
        uids.push(SharedUid::copy_of(alloc, entity.uid())?)?;
    }
    Ok(())
}

// Returns the uids of the list that an addition inserts.
fn inserted_uids<S: BuildHasher + Clone>(
    alloc: Global,
    store: &Entities<S>,
    list: &[Rc<Entity>],
) -> Result<Vec<SharedUid>, AllocError>
    ensures { IfOk result (λ v. v.items ≡ inserted_in store.now.entities (entities_in list.now)) }
{
    let mut uids = Vec::new(alloc);
    for entity in list {
        push_inserted(alloc, store, &mut uids, entity)?;
    }
    Ok(uids)
}

// Returns the uids of the list.
fn overwritten_uids(alloc: Global, list: &[Rc<Entity>]) -> Result<Vec<SharedUid>, AllocError>
    ensures { IfOk result (λ v. v.items ≡ uids_of (entities_in list.now)) }
{
    let mut uids = Vec::new(alloc);
    for entity in list {
        uids.push(SharedUid::copy_of(alloc, entity.uid())?)?;
    }
    Ok(uids)
}

// Returns whether the store has an entity with the uid and the parents of an entity.
fn keeps_parents<S: BuildHasher + Clone>(store: &Entities<S>, entity: &Entity) -> bool
    ensures { IsTrue result → HasSameParents store.now.entities entity.now }
{
    match store.stored(entity.uid()) {
        Some(stored) => entity.has_same_parents(stored),
        None => false,
    }
}

// Returns whether overwriting with a list changes no parents.
fn keep_parents<S: BuildHasher + Clone>(store: &Entities<S>, list: &[Rc<Entity>]) -> bool
    ensures { IsTrue result → HaveSameParents store.now.entities (entities_in list.now) }
{
    for entity in list {
        if !keeps_parents(store, entity) {
            return false;
        }
    }
    true
}

// Returns the uids of the list, or no uids if overwriting with the list changes no parents and so no ancestors.
fn reparented_uids<S: BuildHasher + Clone>(
    alloc: Global,
    store: &Entities<S>,
    list: &[Rc<Entity>],
) -> Result<Vec<SharedUid>, AllocError>
    ensures { IfOk result (λ v. HaveSameParents store.now.entities (entities_in list.now)
        ⊎ (v.items ≡ uids_of (entities_in list.now))) }
{
    if keep_parents(store, list) {
        return Ok(Vec::new(alloc));
    }
    overwritten_uids(alloc, list)
}

// Appends a copy of a uid, if the store has an entity with it.
fn push_removed<S: BuildHasher + Clone>(
    alloc: Global,
    store: &Entities<S>,
    uids: &mut Vec<SharedUid>,
    uid: &EntityUID,
) -> Result<(), AllocError>
    ensures { OnOk result (uids.new.items ≡ uids.old.items
        ++ filter (finmap.contains_key store.now.entities) (uid.now ∷ [])) }
{
    if store.stored(uid).is_some() {
        uids.push(SharedUid::copy_of(alloc, uid)?)?;
    }
    Ok(())
}

// Returns the uids of a list that a removal removes.
fn removed_uids<S: BuildHasher + Clone>(
    alloc: Global,
    store: &Entities<S>,
    list: &[EntityUID],
) -> Result<Vec<SharedUid>, AllocError>
    ensures { IfOk result (λ v. v.items ≡ removed_from store.now.entities list.now) }
{
    let mut uids = Vec::new(alloc);
    for uid in list {
        push_removed(alloc, store, &mut uids, uid)?;
    }
    Ok(uids)
}

// Appends copies of uids.
fn push_uids(list: &mut Vec<EntityUID>, uids: &[SharedUid]) -> Result<(), AllocError>
    ensures { OnOk result (list.new.items ≡ list.old.items ++ uids.now) }
{
    for uid in uids {
        list.push(uid.uid().clone()?)?;
    }
    Ok(())
}

// Returns copies of uids.
fn copies_of(alloc: Global, uids: &[EntityUID]) -> Result<Vec<EntityUID>, AllocError>
    ensures { IfOk result (λ v. v.items ≡ uids.now) }
{
    let mut copies = Vec::with_capacity(alloc, uids.len())?;
    for uid in uids {
        copies.push(uid.clone()?)?;
    }
    Ok(copies)
}

// Returns the slice of a store at some uids, and at the uids that an edit of `edited` affects.
fn part_at<S: BuildHasher + Clone>(
    alloc: Global,
    store: &Entities<S>,
    uids: Vec<EntityUID>,
    edited: Vec<SharedUid>,
) -> Result<Entities<S>, EntitiesError>
    ensures ok { IfOk result (IsPartAt store.now uids.items edited.items) }
    ensures err { IfErr result (λ e. e ≡ Memory) }
{
    let affected = store.affected(alloc, edited)?;
    let mut all = uids;
    push_uids(&mut all, &affected)?;
    slice(alloc, store, &all)
}

// Returns the part of a store that decides what adding a list changes.
pub(crate) fn part_for_add<S: BuildHasher + Clone>(
    alloc: Global,
    store: &Entities<S>,
    list: &[Rc<Entity>],
) -> Result<Entities<S>, EntitiesError>
    ensures ok { IfOk result (IsEditPart store.now
        (inserted_in store.now.entities (entities_in list.now)) (entities_in list.now)) }
    ensures err { IfErr result (λ e. e ≡ Memory) }
{
    let uids = uids_and_parents(alloc, list)?;
    let inserted = inserted_uids(alloc, store, list)?;
    part_at(alloc, store, uids, inserted)
}

// Returns the part of a store that decides what overwriting with a list changes.
pub(crate) fn part_for_upsert<S: BuildHasher + Clone>(
    alloc: Global,
    store: &Entities<S>,
    list: &[Rc<Entity>],
) -> Result<Entities<S>, EntitiesError>
    ensures ok { IfOk result (IsUpsertPart store.now (entities_in list.now)) }
    ensures err { IfErr result (λ e. e ≡ Memory) }
{
    let uids = uids_and_parents(alloc, list)?;
    let edited = reparented_uids(alloc, store, list)?;
    part_at(alloc, store, uids, edited)
}

// Returns the part of a store that decides what removing uids changes.
pub(crate) fn part_for_remove<S: BuildHasher + Clone>(
    alloc: Global,
    store: &Entities<S>,
    list: &[EntityUID],
) -> Result<Entities<S>, EntitiesError>
    ensures ok { IfOk result (IsPartAt store.now list.now (removed_from store.now.entities list.now)) }
    ensures err { IfErr result (λ e. e ≡ Memory) }
{
    let removed = removed_uids(alloc, store, list)?;
    let uids = copies_of(alloc, list)?;
    part_at(alloc, store, uids, removed)
}
