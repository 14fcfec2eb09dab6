//! The repair of affected entities whose ancestors are not affected: such an entity gets the ancestors of its ancestors.
//!
//! This costs much less than a closure, which numbers all ancestors.
ghost use Rattle.std.specs.Prelude.{◌≡◌, ◌||◌, Bool, true, cond, IfErr, IfOk, OnOk};
ghost use Rattle.std.specs.FinSet as set;
ghost use Rattle.std.specs.HashSet.{contains};
ghost use Rattle.std.specs.Option.{IfSome, option_map};
ghost use Rattle.std.specs.Set.{is_member};
ghost use Rattle.cedar_ids.specs.UidOf.{same_uid};
ghost use Rattle.cedar_ids.specs.declared.entity.EntityUID.{EntityUID};
ghost use Rattle.cedar_entity.specs.View.{has_ancestor};
ghost use Rattle.cedar_entity.specs.declared.err.EntitiesError.TheVariants.{Memory};
ghost use Rattle.cedar_entity_maps.specs.Modes.{is_ancestor_in};
ghost use Rattle.cedar_entity_maps.specs.Plain.{EntityMap};
ghost use Rattle.cedar_entity_maps.specs.laws.EntityMap.{entity_at, held_map, UidsMatch};
ghost use Rattle.cedar_entity_maps.specs.laws.Merging.{IsMerged, IsRest, IsRowAbove, IsRowApart, IsRowOf, is_left};
ghost use Rattle.cedar_entity_maps.specs.laws.WidenedRows.{widened};

use crate::uid_lookup::UidLookup;
use cedar_entity::entity::Entity;
use cedar_entity::err::EntitiesError;
use cedar_entity::node::SharedEntity;
use cedar_graph::TCNode;
use cedar_uid_sets::{SharedUid, UidSet};
use std::alloc::{AllocError, Global};
use std::collections::{HashMap, HashSet};
use std::hash::BuildHasher;
use std::rc::Rc;

// A row with n ancestors is given up once more than about `REPEATS * (n + SHORT)` ancestors were inserted into it: most
// of these insertions repeated an ancestor.
const REPEATS: usize = 4;

// See `REPEATS`. With it, few insertions never give a short row up.
const SHORT: usize = 64;

// Inserts the ancestors of an entity into a row. Returns their number.
fn insert_ancestors_of(node: &SharedEntity, row: &mut UidSet) -> Result<usize, AllocError>
    ensures { OnOk result ((q : EntityUID) → set.contains row.new q
        ≡ (set.contains row.old q || has_ancestor node.now.0.value q)) }
{
    if !TCNode::<SharedUid>::may_have_edges(node) {
        return Ok(0);
    }
    node.0.insert_ancestors_into(row)?;
    Ok(node.0.ancestors_len())
}

/// Inserts the ancestors of the entity at a uid, if there is one, into a row. Returns their number, for an estimate of
/// cost that no contract states.
///
/// # Errors
///
/// Returns `AllocError` if an allocation fails. After an allocation failure the row may contain some of the ancestors.
///
/// # Complexity
///
/// As in [`Entity::insert_ancestors_into`].
pub fn insert_ancestors_at<S: BuildHasher>(
    entities: &HashMap<SharedUid, SharedEntity, S>,
    uid: &SharedUid,
    row: &mut UidSet,
) -> Result<usize, AllocError>
    ensures { OnOk result ((q : EntityUID) → set.contains row.new q
        ≡ (set.contains row.old q || is_ancestor_in (entity_at entities.now uid.now) q)) }
{
    match entities.get(uid) {
        Some(node) => insert_ancestors_of(node, row),
        None => Ok(0),
    }
}

// Returns the ancestors of the ancestors of an entity. Returns `None` if many of these have the same ancestors: then a
// closure costs less.
fn row_of<S: BuildHasher>(
    alloc: Global,
    entities: &HashMap<SharedUid, SharedEntity, S>,
    entity: &Entity,
) -> Result<Option<UidSet>, AllocError>
    ensures { IfOk result (λ o. IfSome o (IsRowOf (entity_at entities.now) entity.now)) }
{
    let mut row = UidSet::new(alloc);
    let mut inserted: usize = 0;
    for uid in entity.shared_ancestors() {
        let count = insert_ancestors_at(entities, uid, &mut row)?;
        inserted = inserted.saturating_add(count);
        if inserted / REPEATS > row.len().saturating_add(SHORT) {
            return Ok(None);
        }
    }
    Ok(Some(row))
}

// Returns the ancestors of the ancestors of an entity with this uid. Returns `None` if it cannot be repaired by them
// alone: an ancestor is affected, or the entity is an ancestor of an ancestor. Also returns `None` if a closure costs
// less.
fn row_apart<S: BuildHasher>(
    alloc: Global,
    entities: &HashMap<SharedUid, SharedEntity, S>,
    affected: &UidLookup<'_, S>,
    uid: &SharedUid,
    entity: &Entity,
) -> Result<Option<UidSet>, AllocError>
    ensures { IfOk result (λ o. IfSome o
        (IsRowApart (is_member same_uid affected.now) (entity_at entities.now) uid.now entity.now)) }
{
    if affected.has_any(entity) {
        return Ok(None);
    }
    let Some(row) = row_of(alloc, entities, entity)? else {
        return Ok(None);
    };
    if row.contains_shared(uid) {
        return Ok(None);
    }
    Ok(Some(row))
}

// Returns the row of `row_apart` for the entity at a uid, and an empty row if there is no entity.
fn row_above<S: BuildHasher>(
    alloc: Global,
    entities: &HashMap<SharedUid, SharedEntity, S>,
    affected: &UidLookup<'_, S>,
    uid: &SharedUid,
) -> Result<Option<UidSet>, AllocError>
    ensures { IfOk result (λ o. IfSome o (IsRowAbove (is_member same_uid affected.now) (held_map entities.now) uid.now)) }
{
    match entities.get(uid) {
        Some(node) => row_apart(alloc, entities, affected, uid, &node.0),
        None => Ok(Some(UidSet::new(alloc))),
    }
}

// Inserts the uids of a row into the ancestors of the entity at a uid, if there is one. A shared entity is copied first.
fn add_row_at<S: BuildHasher>(
    entities: &mut HashMap<SharedUid, SharedEntity, S>,
    uid: &SharedUid,
    row: UidSet,
) -> Result<(), EntitiesError>
    ensures ok { OnOk result ((q : EntityUID) → entity_at entities.new q ≡ cond (same_uid uid.now q)
        (option_map (widened row) (entity_at entities.old q)) (entity_at entities.old q)) }
    ensures err { IfErr result (λ e. e ≡ Memory) }
{
    if row.is_empty() {
        return Ok(());
    }
    if let Some(node) = entities.get_mut(uid) {
        Rc::make_mut(&mut node.0)?.add_ancestor_set(row)?;
    }
    Ok(())
}

// Repairs the entity at a uid, if it can be repaired by the ancestors of its ancestors. Returns whether it did.
fn merge_at<S: BuildHasher>(
    alloc: Global,
    entities: &mut HashMap<SharedUid, SharedEntity, S>,
    affected: &UidLookup<'_, S>,
    uid: &SharedUid,
) -> Result<bool, EntitiesError>
    requires { UidsMatch entities.old }
    ensures keys { OnOk result (UidsMatch entities.new) }
    ensures merged { (left after : EntityUID → Bool) (D : EntityMap)
        → IsMerged (is_member same_uid affected.now) left D (held_map entities.old)
        → is_member same_uid affected.now uid.now ≡ true
        → IfOk result (λ done. IsRest done uid.now left after
        → IsMerged (is_member same_uid affected.now) after D (held_map entities.new)) }
    ensures err { IfErr result (λ e. e ≡ Memory) }
{
    match row_above(alloc, entities, affected, uid)? {
        Some(row) => {
            add_row_at(entities, uid, row)?;
            Ok(true)
        }
        None => Ok(false),
    }
}

// Repairs each affected entity for which `row_above` returns a row: none of its ancestors is affected, it is not an
// ancestor of one of them, and a closure would not cost less. Returns the uids of these entities. The other affected
// entities still need a repair. The work is proportional to the number of ancestors that the repaired entities get. A
// shared entity is copied first.
pub(crate) fn merge_rows<S: BuildHasher>(
    alloc: Global,
    entities: &mut HashMap<SharedUid, SharedEntity, S>,
    affected: &HashSet<SharedUid, S>,
) -> Result<Vec<SharedUid>, EntitiesError>
    requires { UidsMatch entities.old }
    ensures keys { OnOk result (UidsMatch entities.new) }
    ensures ok { IfOk result (λ merged. IsMerged (contains same_uid affected.now)
        (is_left (contains same_uid affected.now) merged.items) (held_map entities.old) (held_map entities.new)) }
    ensures err { IfErr result (λ e. e ≡ Memory) }
{
    let mut merged = Vec::new(alloc);
    let sought = UidLookup::of(alloc, affected)?;
    for uid in sought.uids() {
        if merge_at(alloc, entities, &sought, uid)? {
            merged.push(uid.clone()?)?;
        }
    }
    Ok(merged)
}

// Returns a copy of a set without some uids.
pub(crate) fn without<S: BuildHasher + Clone>(
    uids: &HashSet<SharedUid, S>,
    removed: &[SharedUid],
) -> Result<HashSet<SharedUid, S>, EntitiesError>
    ensures ok { IfOk result (λ s. (q : EntityUID) → contains same_uid s q
        ≡ is_left (contains same_uid uids.now) removed.now q) }
    ensures err { IfErr result (λ e. e ≡ Memory) }
{
    let mut left = uids.clone()?;
    for uid in removed {
        left.remove(uid);
    }
    Ok(left)
}
