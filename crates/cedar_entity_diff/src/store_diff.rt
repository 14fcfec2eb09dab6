//! The difference of two stores.
ghost use Rattle.std.specs.Prelude.{◌≡◌, ◌↔◌, ◌++◌, IfOk, OnOk, IsTrue, filter_map, option_to_list};
ghost use Rattle.std.specs.FinMap as finmap;
ghost use Rattle.std.specs.FinSet as set;
ghost use Rattle.std.specs.Option.{option_copied};
ghost use Rattle.std.specs.Set.{is_member};
ghost use Rattle.cedar_ids.specs.UidOf.{same_uid};
ghost use Rattle.cedar_ids.specs.declared.entity.EntityUID.{EntityUID};
ghost use Rattle.cedar_uid_sets.specs.UidSets.{Ascend};
ghost use Rattle.cedar_entity_diff.specs.Diffs.{IsDiff, ancestry_from, changed_from, mode_from, no_diff, only_first};

use crate::compare::{ancestors_without, have_same_content};
use crate::differing::differing_uids;
use cedar_entities::{Entities, Entity, SharedUid, UidSet, Uids};
use cedar_ids::entity::EntityUID;
use std::alloc::{AllocError, Global};
use std::hash::BuildHasher;
use std::marker::Model;

/// An entity that two stores have with different content.
#[derive(Debug, Drop)]
pub struct ContentChange {
    before: Entity,
    after: Entity,
}

impl Model for ContentChange {
    ghost use Rattle.cedar_entity_diff.specs.Codes.{change_code};
    ghost use Rattle.cedar_entity_diff.specs.Diffs.{ChangeView};

    ghost Value = { ChangeView };

    ghost coded = { change_code };

    ghost view = { λ c. record { before = c.before; after = c.after } };
}

impl ContentChange {
    /// Returns the entity of the first store. Does not allocate.
    pub fn before(&self) -> &Entity
        ensures { result.now ≡ self.now.before }
    {
        &self.before
    }

    /// Returns the entity of the second store. Does not allocate.
    pub fn after(&self) -> &Entity
        ensures { result.now ≡ self.now.after }
    {
        &self.after
    }
}

/// The ancestors that an entity gained and lost between two stores.
#[derive(Debug, Drop)]
pub struct AncestryChange {
    uid: SharedUid,
    gained: UidSet,
    lost: UidSet,
}

impl Model for AncestryChange {
    ghost use Rattle.cedar_entity_diff.specs.Codes.{ancestry_code};
    ghost use Rattle.cedar_entity_diff.specs.Diffs.{AncestryView};

    ghost Value = { AncestryView };

    ghost coded = { ancestry_code };

    ghost view = { λ c. record { uid = c.uid; gained = c.gained; lost = c.lost } };
}

impl AncestryChange {
    /// Returns the uid of the entity. Does not allocate.
    pub fn uid(&self) -> &EntityUID
        ensures { result.now ≡ self.now.uid }
    {
        self.uid.uid()
    }

    /// Iterates over the ancestors that only the entity of the second store has: each once, in ascending order of uid.
    /// Does not allocate.
    pub fn gained(&self) -> Uids<'_>
        ensures members { (q : EntityUID) → is_member same_uid result q ≡ set.contains self.now.gained q }
        ensures ascending { Ascend result }
    {
        self.gained.iter()
    }

    /// Iterates over the ancestors that only the entity of the first store has: each once, in ascending order of uid.
    /// Does not allocate.
    pub fn lost(&self) -> Uids<'_>
        ensures members { (q : EntityUID) → is_member same_uid result q ≡ set.contains self.now.lost q }
        ensures ascending { Ascend result }
    {
        self.lost.iter()
    }
}

/// The difference of two stores. Each list is in ascending order of uid.
///
/// An entity that both stores have is listed as changed if its content differs: its attributes, tags or parents. It is
/// listed under ancestry if its ancestors differ. If only the ancestors differ, it is not listed as changed. If a parent
/// is also an indirect ancestor in only one of the stores, that is a change of the content.
///
/// The difference contains copies of the entities, so it does not borrow from the stores.
#[derive(Debug, Drop)]
pub struct StoreDiff {
    removed: Vec<Entity>,
    added: Vec<Entity>,
    changed: Vec<ContentChange>,
    ancestry: Vec<AncestryChange>,
    partial: Option<bool>,
}

impl Model for StoreDiff {
    ghost use Rattle.cedar_entity_diff.specs.Codes.{diff_code};
    ghost use Rattle.cedar_entity_diff.specs.Diffs.{DiffView};

    ghost Value = { DiffView };

    ghost coded = { diff_code };

    ghost view = { λ d. record {
      removed = d.removed.items;
      added = d.added.items;
      changed = d.changed.items;
      ancestry = d.ancestry.items;
      partial = d.partial;
    } };
}

impl StoreDiff {
    /// Returns the entities that only the first store has. Does not allocate.
    pub fn removed(&self) -> &[Entity]
        ensures { result.now ≡ self.now.removed }
    {
        self.removed.as_slice()
    }

    /// Returns the entities that only the second store has. Does not allocate.
    pub fn added(&self) -> &[Entity]
        ensures { result.now ≡ self.now.added }
    {
        self.added.as_slice()
    }

    /// Returns the entities that both stores have, with different content. Does not allocate.
    pub fn changed(&self) -> &[ContentChange]
        ensures { result.now ≡ self.now.changed }
    {
        self.changed.as_slice()
    }

    /// Returns the ancestors gained and lost by the entities that both stores have. Does not allocate.
    pub fn ancestry(&self) -> &[AncestryChange]
        ensures { result.now ≡ self.now.ancestry }
    {
        self.ancestry.as_slice()
    }

    /// Returns whether the second store is partial, if only one of the stores is. Does not allocate.
    pub fn partial(&self) -> Option<bool>
        ensures { result ≡ self.now.partial }
    {
        self.partial
    }

    /// Returns whether there is no difference. Does not allocate.
    pub fn is_empty(&self) -> bool
        ensures { IsTrue result ↔ (self.now ≡ no_diff) }
    {
        self.removed.is_empty()
            && self.added.is_empty()
            && self.changed.is_empty()
            && self.ancestry.is_empty()
            && self.partial.is_none()
    }
}

// Appends a copy of the entity with a uid, if only the first store has it.
fn push_if_only<S: BuildHasher + Clone>(
    list: &mut Vec<Entity>,
    store: &Entities<S>,
    other: &Entities<S>,
    uid: &EntityUID,
) -> Result<(), AllocError>
    ensures { OnOk result (list.new.items ≡ list.old.items ++ option_to_list
        (only_first (finmap.get store.now.entities uid.now) (finmap.get other.now.entities uid.now))) }
{
    if other.stored(uid).is_some() {
        return Ok(());
    }
    if let Some(entity) = store.stored(uid) {
        list.push(entity.clone()?)?;
    }
    Ok(())
}

// Returns copies of the entities at some uids that only the first store has.
fn only_in<S: BuildHasher + Clone>(
    alloc: Global,
    store: &Entities<S>,
    other: &Entities<S>,
    uids: &[SharedUid],
) -> Result<Vec<Entity>, AllocError>
    ensures { IfOk result (λ v. v.items ≡ filter_map
        (λ q. only_first (finmap.get store.now.entities q) (finmap.get other.now.entities q)) uids.now) }
{
    let mut list = Vec::new(alloc);
    for uid in uids {
        push_if_only(&mut list, store, other, uid.uid())?;
    }
    Ok(list)
}

// Appends copies of both entities, if their content differs.
fn push_if_changed(
    list: &mut Vec<ContentChange>,
    before: Option<&Entity>,
    after: Option<&Entity>,
) -> Result<(), AllocError>
    ensures { OnOk result (list.new.items ≡ list.old.items ++ option_to_list
        (changed_from (option_copied before.entry) (option_copied after.entry))) }
{
    let (Some(before), Some(after)) = (before, after) else {
        return Ok(());
    };
    if have_same_content(before, after) {
        return Ok(());
    }
    let before = before.clone()?;
    let after = after.clone()?;
    list.push(ContentChange { before, after })?;
    Ok(())
}

// Returns copies of the entities at some uids that both stores have with different content.
fn changed_in<S: BuildHasher + Clone>(
    alloc: Global,
    store: &Entities<S>,
    other: &Entities<S>,
    uids: &[SharedUid],
) -> Result<Vec<ContentChange>, AllocError>
    ensures { IfOk result (λ v. v.items ≡ filter_map
        (λ q. changed_from (finmap.get store.now.entities q) (finmap.get other.now.entities q)) uids.now) }
{
    let mut list = Vec::new(alloc);
    for uid in uids {
        push_if_changed(&mut list, store.stored(uid.uid()), other.stored(uid.uid()))?;
    }
    Ok(list)
}

// Checks whether two sets are empty.
fn are_empty(one: &UidSet, other: &UidSet) -> bool
    ensures { IsTrue result ↔ ((one.now ≡ set.empty) × (other.now ≡ set.empty)) }
{
    one.is_empty() && other.is_empty()
}

// Returns the ancestors gained and lost between two entities with the same uid, unless there are none.
fn ancestry_change(
    alloc: Global,
    before: &Entity,
    after: &Entity,
) -> Result<Option<AncestryChange>, AllocError>
    ensures { IfOk result (λ o. o ≡ ancestry_from (Some before.now) (Some after.now)) }
{
    let gained = ancestors_without(alloc, after, before)?;
    let lost = ancestors_without(alloc, before, after)?;
    if are_empty(&gained, &lost) {
        return Ok(None);
    }
    let uid = SharedUid::copy_of(alloc, after.uid())?;
    Ok(Some(AncestryChange { uid, gained, lost }))
}

// Appends the ancestors gained and lost between two entities with the same uid, unless there are none.
fn push_if_ancestry(
    alloc: Global,
    list: &mut Vec<AncestryChange>,
    before: Option<&Entity>,
    after: Option<&Entity>,
) -> Result<(), AllocError>
    ensures { OnOk result (list.new.items ≡ list.old.items ++ option_to_list
        (ancestry_from (option_copied before.entry) (option_copied after.entry))) }
{
    let (Some(before), Some(after)) = (before, after) else {
        return Ok(());
    };
    if let Some(change) = ancestry_change(alloc, before, after)? {
        list.push(change)?;
    }
    Ok(())
}

// Returns the ancestors gained and lost by the entities at some uids that both stores have.
fn ancestry_in<S: BuildHasher + Clone>(
    alloc: Global,
    store: &Entities<S>,
    other: &Entities<S>,
    uids: &[SharedUid],
) -> Result<Vec<AncestryChange>, AllocError>
    ensures { IfOk result (λ v. v.items ≡ filter_map
        (λ q. ancestry_from (finmap.get store.now.entities q) (finmap.get other.now.entities q)) uids.now) }
{
    let mut list = Vec::new(alloc);
    for uid in uids {
        push_if_ancestry(
            alloc,
            &mut list,
            store.stored(uid.uid()),
            other.stored(uid.uid()),
        )?;
    }
    Ok(list)
}

// Returns the mode of the second store, if it differs from the mode of the first.
fn changed_mode<S: BuildHasher + Clone>(store: &Entities<S>, other: &Entities<S>) -> Option<bool>
    ensures { result ≡ mode_from store.now.partial other.now.partial }
{
    if store.is_partial() == other.is_partial() {
        return None;
    }
    Some(other.is_partial())
}

/// Returns the difference of two stores:
///
/// - the entities that only one store has
/// - the entities that both have with different content
/// - the ancestors gained and lost by the entities that both have
/// - the mode of the second store, if it differs
///
/// The difference is empty exactly if the stores are equal in all of these.
///
/// # Errors
///
/// Returns `AllocError` if an allocation fails.
///
/// # Complexity
///
/// Looks up each entity of each store in the other, and compares the entities that both have. Sorts the uids of the
/// entities that differ, looks each of them up a few times, and copies these entities.
///
/// # Differences from cedar-policy-core
///
/// The original has no such function.
pub fn diff<S: BuildHasher + Clone>(
    alloc: Global,
    store: &Entities<S>,
    other: &Entities<S>,
) -> Result<StoreDiff, AllocError>
    ensures { IfOk result (IsDiff store.now other.now) }
{
    let uids = differing_uids(alloc, store, other)?;
    let removed = only_in(alloc, store, other, &uids)?;
    let added = only_in(alloc, other, store, &uids)?;
    let changed = changed_in(alloc, store, other, &uids)?;
    let ancestry = ancestry_in(alloc, store, other, &uids)?;
    Ok(StoreDiff {
        removed,
        added,
        changed,
        ancestry,
        partial: changed_mode(store, other),
    })
}
