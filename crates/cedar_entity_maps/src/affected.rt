//! The stale ancestors of each entity after an edit of some uids, their removal, and the affected entities.
ghost use Rattle.std.specs.Prelude.{◌≡◌, Some, true, cond, ◌&&◌, ◌||◌, not, is_some, IfOk, IfErr, OnOk};
ghost use Rattle.std.specs.FinSet as set;
ghost use Rattle.std.specs.HashSet.{contains};
ghost use Rattle.std.specs.List.{AllByRecursion, filter, list_any};
ghost use Rattle.std.specs.Option.{option_map};
ghost use Rattle.std.specs.Set.{is_member};
ghost use Rattle.cedar_ids.specs.UidOf.{same_uid};
ghost use Rattle.cedar_ids.specs.declared.entity.EntityUID.{EntityUID};
ghost use Rattle.cedar_entity.specs.View.{has_ancestor};
ghost use Rattle.cedar_entity.specs.declared.err.EntitiesError.TheVariants.{Memory};
ghost use Rattle.cedar_entity_maps.specs.Modes.{is_ancestor_in};
ghost use Rattle.cedar_entity_maps.specs.Affected.{is_affected};
ghost use Rattle.cedar_entity_maps.specs.laws.Edits.{bared, stripped};
ghost use Rattle.cedar_entity_maps.specs.laws.EntityMap.{entity_at, held_map, UidsMatch};
ghost use Rattle.cedar_entity_maps.specs.laws.StaleUids.{AreLossesOf, IsLossOf, IsWhole, is_lost};
ghost use Rattle.cedar_entity_maps.specs.laws.StaleUids.{is_stripped, loses, loses_uid, takes};

use crate::uid_lookup::UidLookup;
use cedar_children::listed;
use cedar_entity::entity::Entity;
use cedar_entity::err::EntitiesError;
use cedar_entity::node::SharedEntity;
use cedar_graph::TCNode;
use cedar_ids::entity::EntityUID;
use cedar_uid_sets::{SharedUid, UidSet};
use std::alloc::{AllocError, Global};
use std::collections::{HashMap, HashSet};
use std::hash::BuildHasher;
use std::rc::Rc;

/// The stale indirect ancestors of an entity (see `is_stale`).
#[derive(Debug, Drop)]
pub enum Lost {
    /// All indirect ancestors.
    All,
    /// The uids of a set.
    These(UidSet),
}

/// An entity with one of the edited uids as an ancestor, and its stale ancestors.
#[derive(Debug, Drop)]
pub struct StaleAncestors {
    pub uid: SharedUid,
    pub lost: Lost,
}

// Copies the shared uids of the ancestors of an entity.
fn ancestors_of(alloc: Global, node: &SharedEntity) -> Result<Vec<SharedUid>, AllocError>
    ensures { IfOk result (λ v. (q : EntityUID) → is_member same_uid v.items q ≡ has_ancestor node.now.0.value q) }
{
    let mut all = Vec::new(alloc);
    let ancestors: Vec<&SharedUid> = node.out_edges(alloc)?;
    for ancestor in ancestors {
        all.push(ancestor.clone()?)?;
    }
    Ok(all)
}

// Returns the uid of an entity and its ancestors.
fn with_ancestors(
    alloc: Global,
    uid: &SharedUid,
    node: &SharedEntity,
) -> Result<Vec<SharedUid>, AllocError>
    ensures { IfOk result (λ v. (q : EntityUID) →
        is_member same_uid v.items q ≡ (same_uid uid.now q || has_ancestor node.now.0.value q)) }
{
    let mut all = ancestors_of(alloc, node)?;
    all.push(uid.clone()?)?;
    Ok(all)
}

// Returns the uid and its ancestors if the map contains its entity, and nothing otherwise.
fn with_ancestors_at<S: BuildHasher>(
    alloc: Global,
    entities: &HashMap<SharedUid, SharedEntity, S>,
    uid: &SharedUid,
) -> Result<Vec<SharedUid>, AllocError>
    ensures { IfOk result (λ v. (q : EntityUID) → is_member same_uid v.items q
        ≡ (is_some (entity_at entities.now uid.now)
        && (same_uid uid.now q || is_ancestor_in (entity_at entities.now uid.now) q))) }
{
    match entities.get(uid) {
        Some(node) => with_ancestors(alloc, uid, node),
        None => Ok(Vec::new(alloc)),
    }
}

// Inserts uids into a set.
fn insert_all<S: BuildHasher>(
    all: &mut HashSet<SharedUid, S>,
    uids: Vec<SharedUid>,
) -> Result<(), AllocError>
    ensures { OnOk result ((q : EntityUID) → contains same_uid all.new q
        ≡ (contains same_uid all.old q || is_member same_uid uids.items q)) }
{
    for uid in uids {
        all.insert(uid)?;
    }
    Ok(())
}

/// Inserts uids into a set.
///
/// # Errors
///
/// Returns `Memory` if an allocation fails. After an allocation failure the set may contain some of the uids.
pub fn insert_uids<S: BuildHasher>(
    noted: &mut HashSet<SharedUid, S>,
    uids: Vec<SharedUid>,
) -> Result<(), EntitiesError>
    ensures ok { OnOk result ((q : EntityUID) → contains same_uid noted.new q
        ≡ (contains same_uid noted.old q || is_member same_uid uids.items q)) }
    ensures err { IfErr result (λ e. e ≡ Memory) }
{
    insert_all(noted, uids)?;
    Ok(())
}

// Returns the uids of the entities that have one of `uids` as an ancestor.
pub(crate) fn affected_by_any<S: BuildHasher>(
    alloc: Global,
    entities: &HashMap<SharedUid, SharedEntity, S>,
    uids: &HashSet<SharedUid, S>,
) -> Result<Vec<SharedUid>, AllocError>
    ensures { IfOk result (λ v. (q : EntityUID) →
        is_member same_uid v.items q ≡ list_any (is_ancestor_in (entity_at entities.now q)) uids.now.keys) }
{
    let sought = UidLookup::of(alloc, uids)?;
    let mut copies = Vec::new(alloc);
    for (key, node) in entities {
        if sought.has_any(&node.0) {
            copies.push(key.clone()?)?;
        }
    }
    Ok(copies)
}

// Returns the uids that are entities of the map, and the ancestors of these entities.
fn all_with_ancestors<S: BuildHasher + Clone>(
    alloc: Global,
    entities: &HashMap<SharedUid, SharedEntity, S>,
    uids: &[SharedUid],
) -> Result<HashSet<SharedUid, S>, AllocError>
    ensures { IfOk result (λ s. (w : EntityUID) → contains same_uid s w
        ≡ list_any (λ u. takes (entity_at entities.now) u w) uids.now) }
{
    let mut lost = HashSet::with_hasher(alloc, entities.hasher().clone()?);
    for uid in uids {
        insert_all(&mut lost, with_ancestors_at(alloc, entities, uid)?)?;
    }
    Ok(lost)
}

// Returns the uids that are entities of the map, and the ancestors of these entities, as a `UidSet`.
fn uid_set_with_ancestors<S: BuildHasher + Clone>(
    alloc: Global,
    entities: &HashMap<SharedUid, SharedEntity, S>,
    uids: &[SharedUid],
) -> Result<UidSet, AllocError>
    ensures { IfOk result (λ s. (w : EntityUID) → set.contains s w
        ≡ list_any (λ u. takes (entity_at entities.now) u w) uids.now) }
{
    if uids.len() == 1 {
        return UidSet::from_pointers(with_ancestors_at(alloc, entities, &uids[0])?);
    }
    let lost = all_with_ancestors(alloc, entities, uids)?;
    UidSet::from_pointers(listed(alloc, &lost)?)
}

// Computes the stale ancestors of an entity after an edit of `uids`.
fn stale_ancestors_of<S: BuildHasher + Clone>(
    alloc: Global,
    entities: &HashMap<SharedUid, SharedEntity, S>,
    key: &SharedUid,
    entity: &Entity,
    uids: &UidLookup<'_, S>,
) -> Result<StaleAncestors, AllocError>
    ensures uid { IfOk result (λ a. a.uid ≡ key.now) }
    ensures lost { IfOk result (λ a. (w : EntityUID) → is_lost a.lost w
        ≡ list_any (λ u. has_ancestor entity.now u && takes (entity_at entities.now) u w) uids.now) }
{
    let hits = uids.hits(alloc, entity)?;
    let lost = uid_set_with_ancestors(alloc, entities, &hits)?;
    let uid = key.clone()?;
    Ok(StaleAncestors {
        uid,
        lost: Lost::These(lost),
    })
}

// Appends an entity and its stale ancestors to the list, if it has any.
fn push_stale<S: BuildHasher + Clone>(
    entities: &HashMap<SharedUid, SharedEntity, S>,
    key: &SharedUid,
    entity: &Entity,
    uids: &UidLookup<'_, S>,
    stale: &mut Vec<StaleAncestors>,
) -> Result<(), AllocError>
    ensures who { OnOk result ((q : EntityUID) → loses stale.new.items q
        ≡ (loses stale.old.items q || (same_uid key.now q
        && is_stripped uids.now key.now (has_ancestor entity.now)))) }
    ensures lost { OnOk result (entity_at entities.now key.now ≡ Some entity.now
        → AllByRecursion (IsLossOf (entity_at entities.now) uids.now) stale.old.items
        → AllByRecursion (IsLossOf (entity_at entities.now) uids.now) stale.new.items) }
{
    if !uids.is_hit(key, entity) {
        return Ok(());
    }
    let alloc = *stale.allocator();
    stale.push(stale_ancestors_of(alloc, entities, key, entity, uids)?)?;
    Ok(())
}

// Appends the entity at a uid and its stale ancestors to the list, if there is an entity and it has any.
fn push_stale_at<S: BuildHasher + Clone>(
    entities: &HashMap<SharedUid, SharedEntity, S>,
    key: &SharedUid,
    uids: &UidLookup<'_, S>,
    stale: &mut Vec<StaleAncestors>,
) -> Result<(), AllocError>
    ensures who { OnOk result ((q : EntityUID) → loses stale.new.items q
        ≡ (loses stale.old.items q || (same_uid key.now q
        && is_stripped uids.now key.now (is_ancestor_in (entity_at entities.now key.now))))) }
    ensures lost { OnOk result (AllByRecursion (IsLossOf (entity_at entities.now) uids.now) stale.old.items
        → AllByRecursion (IsLossOf (entity_at entities.now) uids.now) stale.new.items) }
{
    match entities.get(key) {
        Some(node) => push_stale(entities, key, &node.0, uids, stale),
        None => Ok(()),
    }
}

// Lists the stale ancestors of each entity that is not one of `uids` and has one of them as an ancestor. All of these
// entities are in `affected`.
fn collect_stale_of<S: BuildHasher + Clone>(
    alloc: Global,
    entities: &HashMap<SharedUid, SharedEntity, S>,
    uids: &HashSet<SharedUid, S>,
    affected: &HashSet<SharedUid, S>,
) -> Result<Vec<StaleAncestors>, AllocError>
    requires affected { (q : EntityUID) → contains same_uid affected.now q
        ≡ is_affected (held_map entities.now) uids.now.keys q }
    ensures who { IfOk result (λ v. (q : EntityUID) → loses v.items q
        ≡ is_stripped uids.now.keys q (is_ancestor_in (entity_at entities.now q))) }
    ensures lost { IfOk result (λ v. AllByRecursion (IsLossOf (entity_at entities.now) uids.now.keys) v.items) }
{
    let sought = UidLookup::of(alloc, uids)?;
    let mut stale = Vec::new(alloc);
    for key in affected {
        push_stale_at(entities, key, &sought, &mut stale)?;
    }
    Ok(stale)
}

// Appends the entity at a uid with all of its indirect ancestors, unless the uid is one of `uids`.
fn push_all_indirect<S: BuildHasher>(
    key: &SharedUid,
    uids: &HashSet<SharedUid, S>,
    stale: &mut Vec<StaleAncestors>,
) -> Result<(), AllocError>
    ensures who { OnOk result ((q : EntityUID) → loses stale.new.items q
        ≡ (loses stale.old.items q || (same_uid key.now q && not (contains same_uid uids.now key.now)))) }
    ensures lost { OnOk result (AllByRecursion IsWhole stale.old.items → AllByRecursion IsWhole stale.new.items) }
{
    if uids.contains(key) {
        return Ok(());
    }
    stale.push(StaleAncestors {
        uid: key.clone()?,
        lost: Lost::All,
    })?;
    Ok(())
}

// Lists all indirect ancestors of each affected entity that is not one of `uids`.
fn collect_all_indirect<S: BuildHasher>(
    alloc: Global,
    uids: &HashSet<SharedUid, S>,
    affected: &HashSet<SharedUid, S>,
) -> Result<Vec<StaleAncestors>, AllocError>
    ensures who { IfOk result (λ v. (q : EntityUID) → loses v.items q
        ≡ (contains same_uid affected.now q && not (contains same_uid uids.now q))) }
    ensures lost { IfOk result (λ v. AllByRecursion IsWhole v.items) }
{
    let mut stale = Vec::new(alloc);
    for key in affected {
        push_all_indirect(key, uids, &mut stale)?;
    }
    Ok(stale)
}

/// Lists the stale ancestors of each affected entity that is not one of `uids`. If `recompute_all` is true, a later repair
/// recomputes all ancestors of these entities. Then all indirect ancestors are listed as stale, and none is read.
///
/// # Errors
///
/// Returns `AllocError` if an allocation fails.
///
/// # Complexity
///
/// Proportional to the number of ancestors that are read. Allocates the list.
pub fn collect_stale<S: BuildHasher + Clone>(
    alloc: Global,
    entities: &HashMap<SharedUid, SharedEntity, S>,
    uids: &HashSet<SharedUid, S>,
    affected: &HashSet<SharedUid, S>,
    recompute_all: bool,
) -> Result<Vec<StaleAncestors>, AllocError>
    requires affected { (q : EntityUID) → contains same_uid affected.now q
        ≡ is_affected (held_map entities.now) uids.now.keys q }
    ensures who { IfOk result (λ v. (q : EntityUID) → loses v.items q
        ≡ is_stripped uids.now.keys q (is_ancestor_in (entity_at entities.now q))) }
    ensures lost { IfOk result (λ v. AreLossesOf recompute_all (entity_at entities.now) uids.now.keys v.items) }
{
    if recompute_all {
        return collect_all_indirect(alloc, uids, affected);
    }
    collect_stale_of(alloc, entities, uids, affected)
}

// Removes stale ancestors from the indirect ancestors of an entity.
fn remove_stale(entity: &mut Entity, lost: &Lost)
    ensures { entity.new ≡ record entity.old {
      indirect = set.retain entity.old.indirect (λ w. not (is_lost lost.now w));
    } }
{
    match lost {
        Lost::All => entity.remove_all_indirect_ancestors(),
        Lost::These(uids) => entity.remove_ancestors_of(uids),
    }
}

// Removes the uids in `removed` from the parents of an entity, and stale ancestors from its indirect ancestors.
fn strip_once(entity: &mut Entity, removed: &UidSet, lost: &Lost)
    ensures { entity.new ≡ stripped (set.contains removed.now) (is_lost lost.now) entity.old }
{
    remove_stale(entity, lost);
    entity.remove_parents_of(removed);
}

// Removes the uids in `removed` from the parents of the entity at a uid, and stale ancestors from its indirect ancestors.
fn strip_once_at<S: BuildHasher>(
    entities: &mut HashMap<SharedUid, SharedEntity, S>,
    uid: &SharedUid,
    removed: &UidSet,
    lost: &Lost,
) -> Result<(), EntitiesError>
    ensures ok { OnOk result ((q : EntityUID) → entity_at entities.new q ≡ cond (same_uid uid.now q)
        (option_map (stripped (set.contains removed.now) (is_lost lost.now)) (entity_at entities.old q))
        (entity_at entities.old q)) }
    ensures err { IfErr result (λ e. e ≡ Memory) }
{
    if let Some(node) = entities.get_mut(uid) {
        strip_once(Rc::make_mut(&mut node.0)?, removed, lost);
    }
    Ok(())
}

/// Removes stale ancestors, and the parents in `removed`, from each listed entity. A shared entity is copied first.
///
/// # Errors
///
/// Returns `Memory` if the allocation of a copy fails. After an allocation failure some of the entities are changed.
pub fn strip_each<S: BuildHasher>(
    entities: &mut HashMap<SharedUid, SharedEntity, S>,
    stale: Vec<StaleAncestors>,
    removed: &UidSet,
) -> Result<(), EntitiesError>
    ensures ok { OnOk result ((q : EntityUID) → entity_at entities.new q ≡ option_map
        (stripped (λ p. loses stale.items q && set.contains removed.now p) (loses_uid stale.items q))
        (entity_at entities.old q)) }
    ensures err { IfErr result (λ e. e ≡ Memory) }
{
    for loss in stale {
        strip_once_at(entities, &loss.uid, removed, &loss.lost)?;
    }
    Ok(())
}

/// Removes all indirect ancestors from each affected entity that is not one of `uids`, if `recompute_all` is true. A later
/// repair computes them again. A shared entity is copied first.
///
/// # Errors
///
/// Returns `Memory` if an allocation fails. After an allocation failure some of the entities are changed.
pub fn forget_each<S: BuildHasher>(
    alloc: Global,
    entities: &mut HashMap<SharedUid, SharedEntity, S>,
    uids: &HashSet<SharedUid, S>,
    affected: &HashSet<SharedUid, S>,
    recompute_all: bool,
) -> Result<(), EntitiesError>
    requires { UidsMatch entities.old }
    ensures keys { OnOk result (UidsMatch entities.new) }
    ensures ok { OnOk result ((q : EntityUID) → entity_at entities.new q ≡ cond
        (recompute_all && (contains same_uid affected.now q && not (contains same_uid uids.now q)))
        (option_map bared (entity_at entities.old q)) (entity_at entities.old q)) }
    ensures err { IfErr result (λ e. e ≡ Memory) }
{
    if !recompute_all {
        return Ok(());
    }
    let stale = collect_all_indirect(alloc, uids, affected)?;
    let none = UidSet::new(alloc);
    strip_each(entities, stale, &none)
}
