//! Overwriting of entities whose parents stay the same. No ancestor changes then, so nothing is repaired.
ghost use Rattle.std.specs.Prelude.{◌≡◌, Err, IfErr, IfOk, IsTrue, OnOk};
ghost use Rattle.std.specs.List.{AllByRecursion};
ghost use Rattle.cedar_ids.specs.declared.entity.EntityUID.{EntityUID};
ghost use Rattle.cedar_entity.specs.declared.err.EntitiesError.TheVariants.{Memory};
ghost use Rattle.cedar_entity_maps.specs.laws.Edits.{last_entity};
ghost use Rattle.cedar_entity_maps.specs.laws.EntityMap.{held_map, UidsMatch};
ghost use Rattle.cedar_entity_maps.specs.laws.WidenedRows.{widened};
ghost use Rattle.cedar_entities.specs.laws.SameParents.{BothAt, HasRowOf, IsOverwrittenInPlace, KeepsParents};

use crate::edits::overwrite_all;
use crate::incoming::{Incoming, has_no_indirect};
use cedar_entity::entity::Entity;
use cedar_entity::err::EntitiesError;
use cedar_entity::node::SharedEntity;
use cedar_entity_maps::merging::insert_ancestors_at;
use cedar_uid_sets::{SharedUid, UidSet};
use std::alloc::Global;
use std::collections::HashMap;
use std::hash::BuildHasher;
use std::rc::Rc;

// Returns whether the map has an entity with the uid and the parents of an entity, which has no indirect ancestors.
fn keeps_parents<S: BuildHasher>(
    entities: &HashMap<SharedUid, SharedEntity, S>,
    incoming: &Incoming,
) -> bool
    ensures { IsTrue result → KeepsParents (held_map entities.now) incoming.now }
{
    match entities.get(&incoming.uid) {
        Some(node) => {
            incoming.entity.has_same_parents(&node.0) && has_no_indirect(&incoming.entity)
        }
        None => false,
    }
}

// Returns whether overwriting with these entities changes no parents.
pub(crate) fn keep_parents<S: BuildHasher>(
    entities: &HashMap<SharedUid, SharedEntity, S>,
    list: &[Incoming],
) -> bool
    ensures { IsTrue result → AllByRecursion (KeepsParents (held_map entities.now)) list.now }
{
    for incoming in list {
        if !keeps_parents(entities, incoming) {
            return false;
        }
    }
    true
}

// Inserts the uids of a row into the ancestors of an entity. A shared entity is copied first.
fn widen(entity: &mut Rc<Entity>, row: UidSet) -> Result<(), EntitiesError>
    ensures ok { OnOk result (entity.new.value ≡ widened row entity.old.value) }
    ensures err { IfErr result (λ e. e ≡ Memory) }
{
    Rc::make_mut(entity)?.add_ancestor_set(row)?;
    Ok(())
}

// Gives an entity the ancestors of the entity that the map has at its uid, in addition to its own.
fn with_row<S: BuildHasher>(
    alloc: Global,
    entities: &HashMap<SharedUid, SharedEntity, S>,
    incoming: Incoming,
) -> Result<Incoming, EntitiesError>
    ensures ok { IfOk result (HasRowOf (held_map entities.now) incoming) }
    ensures err { IfErr result (λ e. e ≡ Memory) }
{
    let Incoming { uid, mut entity } = incoming;
    let mut row = UidSet::new(alloc);
    insert_ancestors_at(entities, &uid, &mut row)?;
    widen(&mut entity, row)?;
    Ok(Incoming { uid, entity })
}

// Gives each entity the ancestors of the entity that the map has at its uid.
fn with_rows<S: BuildHasher>(
    alloc: Global,
    entities: &HashMap<SharedUid, SharedEntity, S>,
    list: Vec<Incoming>,
) -> Result<Vec<Incoming>, EntitiesError>
    ensures ok { IfOk result (λ v. (q : EntityUID) →
        BothAt (held_map entities.now) q (last_entity list.items q) (last_entity v.items q)) }
    ensures err { IfErr result (λ e. e ≡ Memory) }
{
    let mut all = Vec::with_capacity(alloc, list.len())?;
    for incoming in list {
        all.push(with_row(alloc, entities, incoming)?)?;
    }
    Ok(all)
}

// Overwrites entities, and gives each the ancestors of the entity that it replaces.
pub(crate) fn overwrite_in_place<S: BuildHasher>(
    alloc: Global,
    entities: &mut HashMap<SharedUid, SharedEntity, S>,
    list: Vec<Incoming>,
) -> Result<(), EntitiesError>
    requires { UidsMatch entities.old }
    ensures keys { OnOk result (UidsMatch entities.new) }
    ensures ok { OnOk result (IsOverwrittenInPlace (held_map entities.old) (held_map entities.new) list.items) }
    ensures err { IfErr result (λ e. e ≡ Memory) }
{
    let list = with_rows(alloc, entities, list)?;
    overwrite_all(entities, list)
}
