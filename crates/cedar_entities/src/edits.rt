//! An edit of the entities of a store. It removes entities, inserts entities, and removes the stale ancestors of
//! affected entities. An overwriting removes no entity, and a removal inserts none.
ghost use Rattle.std.specs.Prelude.{◌≡◌, ◌⊎◌, ◌||◌, ◌&&◌, List, None, Some, cond, length, true, IfErr, IfOk, IsTrue, OnOk};
ghost use Rattle.std.specs.FinSet as set;
ghost use Rattle.std.specs.FinMap as finmap;
ghost use Rattle.std.specs.Option.{option_map, option_or, IfSome};
ghost use Rattle.std.specs.Set.{is_member};
ghost use Rattle.cedar_ids.specs.UidOf.{same_uid};
ghost use Rattle.cedar_ids.specs.declared.entity.EntityUID.{EntityUID};
ghost use Rattle.cedar_entity.specs.declared.err.EntitiesError.TheVariants.{Memory};
ghost use Rattle.cedar_entity_maps.specs.Edits.{overwrite, removed_all, uids_of};
ghost use Rattle.cedar_entity_maps.specs.Modes.{computes, with_repair, rules_of};
ghost use Rattle.cedar_entity_maps.specs.Plain.{EntityMap};
ghost use Rattle.cedar_entity_maps.specs.Affected.{is_affected, removed_from};
ghost use Rattle.cedar_entity_maps.specs.laws.Edits.{last_entity, stripped, IsEdit};
ghost use Rattle.cedar_entity_maps.specs.laws.Ends.{Ends};
ghost use Rattle.cedar_entity_maps.specs.laws.EntityMap.{entity_at, held_map, UidsMatch};
ghost use Rattle.cedar_entity_maps.specs.laws.Indexes.{HasChildren, IsIndexOf, parentage};
ghost use Rattle.cedar_entity_maps.specs.laws.StaleUids.{loses, loses_uid};
ghost use Rattle.cedar_entities.specs.laws.Readings.{IsReadingOf};

use crate::incoming::{Incoming, uids_in};
use crate::lists::{held_uids, pointers_of};
use crate::same_parents::{keep_parents, overwrite_in_place};
use cedar_children::listed;
use cedar_entity::err::EntitiesError;
use cedar_entity::node::SharedEntity;
use cedar_entity_maps::TCComputation;
use cedar_entity_maps::affected::{StaleAncestors, collect_stale, insert_uids, strip_each};
use cedar_entity_maps::finalize::finish;
use cedar_entity_maps::index::{Index, affected_by, join, list_if_it_pays, part};
use cedar_entity_maps::modes::{EditRules, computes, rules_compute, rules_of, with_repair};
use cedar_ids::entity::EntityUID;
use cedar_uid_sets::{SharedUid, UidSet};
use std::alloc::Global;
use std::collections::{HashMap, HashSet};
use std::hash::BuildHasher;

// The uids of the entities to remove, the entities to insert, and the uids of both.
#[derive(Drop)]
struct Change {
    pub(crate) removed: UidSet,
    pub(crate) incoming: Vec<Incoming>,
    pub(crate) uids: Vec<SharedUid>,
}

// The facts that an edit reads before it changes anything: its uids, each once, the affected entities, and their stale
// ancestors.
#[derive(Drop)]
pub(crate) struct Reading<S: BuildHasher> {
    pub(crate) uids: Vec<SharedUid>,
    pub(crate) affected: HashSet<SharedUid, S>,
    pub(crate) stale: Vec<StaleAncestors>,
}

// Returns whether the edit removes all indirect ancestors of the affected entities, so that the repair recomputes them
// from the parents. In a plain store the indirect ancestors are exactly the uids reached over parents. So the result,
// and whether there is a cycle, is the same as after removing only stale ancestors. All ancestors are written again,
// because the repair reports cycles or nothing is inserted that could create one.
fn renews<S: BuildHasher>(index: &Index<S>, incoming: &[Incoming], row: EditRules) -> bool
    ensures plain { IsTrue result → IsTrue index.now.plain }
    ensures repairs { IsTrue result → row.repairs ≡ true }
    ensures acyclic { IsTrue result → (computes row ≡ true) ⊎ (length incoming.now ≡ 0) }
{
    if !index.plain {
        return false;
    }
    if !row.repairs {
        return false;
    }
    rules_compute(row) || incoming.is_empty()
}

// Returns whether an addition removes all indirect ancestors of the affected entities, for the same reason.
pub(crate) fn renews_adding<S: BuildHasher>(index: &Index<S>, row: EditRules) -> bool
    ensures { IsTrue result → IsTrue index.now.plain × (computes row ≡ true) }
{
    if !index.plain {
        return false;
    }
    rules_compute(row)
}

// Reads the facts for an edit of the uids. Lists the children in the index if that pays.
fn read<S: BuildHasher + Clone>(
    alloc: Global,
    entities: &HashMap<SharedUid, SharedEntity, S>,
    index: &mut Index<S>,
    uids: Vec<SharedUid>,
    recompute_all: bool,
) -> Result<Reading<S>, EntitiesError>
    requires { IsIndexOf index.old (held_map entities.now) }
    ensures index { IsIndexOf index.new (held_map entities.now) }
    ensures plain { index.new.plain ≡ index.old.plain }
    ensures ok { IfOk result (IsReadingOf recompute_all (held_map entities.now) uids.items) }
    ensures err { IfErr result (λ e. e ≡ Memory) }
{
    let mut applied = HashSet::with_hasher(alloc, entities.hasher().clone()?);
    insert_uids(&mut applied, uids)?;
    list_if_it_pays(alloc, entities, index, applied.len());
    let affected = affected_by(alloc, entities, index, &applied)?;
    let stale = collect_stale(alloc, entities, &applied, &affected, recompute_all)?;
    let uids = listed(alloc, &applied)?;
    Ok(Reading {
        uids,
        affected,
        stale,
    })
}

// Inserts an entity, or replaces the entity with its uid.
fn overwrite<S: BuildHasher>(
    entities: &mut HashMap<SharedUid, SharedEntity, S>,
    incoming: Incoming,
) -> Result<(), EntitiesError>
    requires { UidsMatch entities.old }
    ensures keys { OnOk result (UidsMatch entities.new) }
    ensures ok { OnOk result ((q : EntityUID) → entity_at entities.new q ≡ option_or
        (cond (same_uid incoming.uid q) (Some incoming) None) (entity_at entities.old q)) }
    ensures err { IfErr result (λ e. e ≡ Memory) }
{
    let Incoming { uid: key, entity } = incoming;
    entities.insert(key, SharedEntity(entity))?;
    Ok(())
}

// Inserts the entities one after another. Each replaces the entity with its uid.
pub(crate) fn overwrite_all<S: BuildHasher>(
    entities: &mut HashMap<SharedUid, SharedEntity, S>,
    list: Vec<Incoming>,
) -> Result<(), EntitiesError>
    requires { UidsMatch entities.old }
    ensures keys { OnOk result (UidsMatch entities.new) }
    ensures ok { OnOk result ((q : EntityUID) → entity_at entities.new q ≡ option_or
        (last_entity list.items q) (entity_at entities.old q)) }
    ensures err { IfErr result (λ e. e ≡ Memory) }
{
    for entity in list {
        overwrite(entities, entity)?;
    }
    Ok(())
}

// Removes the entity with a uid, if there is one.
fn remove_at<S: BuildHasher>(entities: &mut HashMap<SharedUid, SharedEntity, S>, uid: &SharedUid)
    ensures { (q : EntityUID) → entity_at entities.new q
        ≡ cond (same_uid uid.now q) None (entity_at entities.old q) }
{
    entities.remove(uid);
}

// Removes the entities with the uids.
fn remove_each<S: BuildHasher>(
    entities: &mut HashMap<SharedUid, SharedEntity, S>,
    removed: Vec<SharedUid>,
)
    requires { UidsMatch entities.old }
    ensures keys { UidsMatch entities.new }
    ensures left { (q : EntityUID) → entity_at entities.new q
        ≡ cond (is_member same_uid removed.items q) None (entity_at entities.old q) }
{
    for uid in removed {
        remove_at(entities, &uid);
    }
}

// Removes stale ancestors, removes entities, and inserts entities.
fn write<S: BuildHasher>(
    entities: &mut HashMap<SharedUid, SharedEntity, S>,
    stale: Vec<StaleAncestors>,
    removed: UidSet,
    incoming: Vec<Incoming>,
) -> Result<(), EntitiesError>
    requires { UidsMatch entities.old }
    ensures keys { OnOk result (UidsMatch entities.new) }
    ensures ok { OnOk result ((q : EntityUID) → entity_at entities.new q ≡ option_or (last_entity incoming.items q)
        (cond (set.contains removed q) None (option_map
        (stripped (λ p. loses stale.items q && set.contains removed p) (loses_uid stale.items q))
        (entity_at entities.old q)))) }
    ensures err { IfErr result (λ e. e ≡ Memory) }
{
    strip_each(entities, stale, &removed)?;
    remove_each(entities, removed.into_pointers());
    overwrite_all(entities, incoming)
}

// Makes an edit and finalizes it by the edit rules. After an error the map must not be used.
fn edit<S: BuildHasher + Clone>(
    alloc: Global,
    entities: &mut HashMap<SharedUid, SharedEntity, S>,
    index: &mut Index<S>,
    change: Change,
    row: EditRules,
) -> Result<(), EntitiesError>
    requires keys { UidsMatch entities.old }
    requires index { IsIndexOf index.old (held_map entities.old) }
    requires uids { (q : EntityUID) → is_member same_uid change.uids.items q
        ≡ (is_member same_uid (uids_of change.incoming.items) q || set.contains change.removed q) }
    requires removed { (q : EntityUID) → set.contains change.removed q ≡ true
        → finmap.contains_key (held_map entities.old) q ≡ true }
    ensures plain { index.new.plain ≡ index.old.plain }
    ensures keys { OnOk result (UidsMatch entities.new) }
    ensures children { OnOk result (IfSome index.new.children (HasChildren (parentage (entity_at entities.new)))) }
    ensures ends { (A : List EntityUID) (M : EntityMap)
        → IsEdit (held_map entities.old) M (set.contains change.removed) (last_entity change.incoming.items) A
        → Ends row (is_affected (held_map entities.old) A) M (held_map entities.new) result }
{
    let Change {
        removed,
        incoming,
        uids,
    } = change;
    let recompute_all = renews(index, &incoming, row);
    let reading = read(alloc, entities, index, uids, recompute_all)?;
    let Reading {
        uids,
        affected,
        stale,
    } = reading;
    part(index, entities, &uids, removed.pointers());
    write(entities, stale, removed, incoming)?;
    join(alloc, index, entities, &uids);
    finish(alloc, entities, &affected, row)
}

// Overwrites entities, and finalizes the edit by the edit rules of the mode. If the store is known to be plain and no
// parents change, no ancestor changes, and there is nothing to finalize.
pub(crate) fn overwrite_and_finalize<S: BuildHasher + Clone>(
    alloc: Global,
    entities: &mut HashMap<SharedUid, SharedEntity, S>,
    index: &mut Index<S>,
    incoming: Vec<Incoming>,
    tc_computation: TCComputation,
) -> Result<(), EntitiesError>
    requires keys { UidsMatch entities.old }
    requires index { IsIndexOf index.old (held_map entities.old) }
    ensures plain { index.new.plain ≡ index.old.plain }
    ensures keys { OnOk result (UidsMatch entities.new) }
    ensures children { OnOk result (IfSome index.new.children (HasChildren (parentage (entity_at entities.new)))) }
    ensures ends { Ends (rules_of tc_computation) (is_affected (held_map entities.old) (uids_of incoming.items))
        (overwrite (held_map entities.old) incoming.items) (held_map entities.new) result }
{
    if index.plain && computes(tc_computation) && keep_parents(entities, &incoming) {
        overwrite_in_place(alloc, entities, incoming)?;
        return Ok(());
    }
    let uids = uids_in(alloc, &incoming)?;
    let removed = UidSet::new(alloc);
    let change = Change {
        removed,
        incoming,
        uids,
    };
    edit(alloc, entities, index, change, rules_of(tc_computation))
}

// Removes entities, also as parents, and finalizes the edit by the edit rules of the mode.
pub(crate) fn remove_and_finalize<S: BuildHasher + Clone>(
    alloc: Global,
    entities: &mut HashMap<SharedUid, SharedEntity, S>,
    index: &mut Index<S>,
    list: Vec<EntityUID>,
    tc_computation: TCComputation,
) -> Result<(), EntitiesError>
    requires keys { UidsMatch entities.old }
    requires index { IsIndexOf index.old (held_map entities.old) }
    ensures plain { index.new.plain ≡ index.old.plain }
    ensures keys { OnOk result (UidsMatch entities.new) }
    ensures children { OnOk result (IfSome index.new.children (HasChildren (parentage (entity_at entities.new)))) }
    ensures ends { Ends (with_repair (rules_of tc_computation))
        (is_affected (held_map entities.old) (removed_from (held_map entities.old) list.items))
        (removed_all (held_map entities.old) list.items) (held_map entities.new) result }
{
    let listed = held_uids(alloc, entities, list)?;
    let removed = UidSet::from_pointers(listed)?;
    let uids = pointers_of(&removed)?;
    let incoming = Vec::new(alloc);
    let change = Change {
        removed,
        incoming,
        uids,
    };
    let row = with_repair(rules_of(tc_computation));
    edit(alloc, entities, index, change, row)
}
