//! The descendants of a uid.
ghost use Rattle.std.specs.Prelude.{◌≡◌, ◌↔◌, ◌⊎◌, ◌&&◌, ◌||◌, true, IfOk, OnOk, IsTrue, filter};
ghost use Rattle.std.specs.FinMap as finmap;
ghost use Rattle.std.specs.HashSet.{contains};
ghost use Rattle.std.specs.Set.{is_member};
ghost use Rattle.cedar_graph.specs.Graph.{Reach};
ghost use Rattle.cedar_ids.specs.UidOf.{same_uid};
ghost use Rattle.cedar_ids.specs.Views.{type_name};
ghost use Rattle.cedar_ids.specs.declared.entity.EntityUID.{EntityUID};
ghost use Rattle.cedar_uid_sets.specs.UidSets.{Ascend};
ghost use Rattle.cedar_entity.specs.View.{has_ancestor};
ghost use Rattle.cedar_entity_maps.specs.Modes.{ancestry};
ghost use Rattle.cedar_entity_maps.specs.laws.Indexes.{HasChildren, IsPlainHeld, parentage};
ghost use Rattle.cedar_queries.specs.Queries.{AreDescendants, AreDescendantsOfType, parent_graph};
ghost use Rattle.cedar_queries.specs.laws.Searches.{HasEdgeInto, has_type};

use cedar_children::{Children, listed};
use cedar_entities::{Entities, Entity, SharedUid, UidSet};
use cedar_ids::entity::{EntityType, EntityUID};
use std::alloc::{AllocError, Global};
use std::collections::HashSet;
use std::hash::BuildHasher;

// Lists the children of each uid by scanning the store.
fn children_of<S: BuildHasher + Clone>(
    alloc: Global,
    store: &Entities<S>,
) -> Result<Children<S>, AllocError>
    ensures { IfOk result (HasChildren (parentage (finmap.get store.now.entities))) }
{
    let mut children = Children::with_hasher(alloc, store.hasher().clone()?);
    for entity in store.iter() {
        let child = SharedUid::copy_of(alloc, entity.uid())?;
        children = children.with(alloc, &child, entity)?;
    }
    Ok(children)
}

// Returns whether the entity with a uid has a parent in the set.
fn has_parent_in<S: BuildHasher + Clone>(
    store: &Entities<S>,
    uid: &EntityUID,
    uids: &HashSet<SharedUid, S>,
) -> bool
    ensures { IsTrue result ↔ HasEdgeInto (parent_graph store.now.entities) uid.now (contains same_uid uids.now) }
{
    let Some(entity) = store.stored(uid) else {
        return false;
    };
    for parent in entity.shared_parents() {
        if uids.contains(parent) {
            return true;
        }
    }
    false
}

// Returns a uid and its descendants.
fn with_descendants<S: BuildHasher + Clone>(
    alloc: Global,
    store: &Entities<S>,
    children: &Children<S>,
    uid: &EntityUID,
) -> Result<HashSet<SharedUid, S>, AllocError>
    requires { HasChildren (parentage (finmap.get store.now.entities)) children.now }
    ensures { IfOk result (λ s. (q : EntityUID) → (contains same_uid s q ≡ true)
        ↔ ((uid.now ≡ q) ⊎ Reach (parent_graph store.now.entities) q uid.now)) }
{
    let mut from = HashSet::with_hasher(alloc, store.hasher().clone()?);
    from.insert(SharedUid::copy_of(alloc, uid)?)?;
    children.below(alloc, &from)
}

// Removes a uid from the set of itself and its descendants, unless it is its own descendant.
fn leave_descendants<S: BuildHasher + Clone>(
    store: &Entities<S>,
    uids: &mut HashSet<SharedUid, S>,
    uid: &EntityUID,
)
    requires { (q : EntityUID) → (contains same_uid uids.old q ≡ true)
        ↔ ((uid.now ≡ q) ⊎ Reach (parent_graph store.now.entities) q uid.now) }
    ensures { (q : EntityUID) → (contains same_uid uids.new q ≡ true)
        ↔ Reach (parent_graph store.now.entities) q uid.now }
{
    if has_parent_in(store, uid, uids) {
        return;
    }
    uids.remove(uid);
}

// Returns the uids of a list in ascending order, each once.
fn in_order(uids: Vec<SharedUid>) -> Result<Vec<SharedUid>, AllocError>
    ensures ascending { IfOk result (λ v. Ascend v.items) }
    ensures members { IfOk result (λ v. (q : EntityUID) →
        is_member same_uid v.items q ≡ is_member same_uid uids.items q) }
{
    let set = UidSet::from_pointers(uids)?;
    Ok(set.into_pointers())
}

// Returns the descendants of a uid by searching down from it.
fn descendants_by<S: BuildHasher + Clone>(
    alloc: Global,
    store: &Entities<S>,
    children: &Children<S>,
    uid: &EntityUID,
) -> Result<Vec<SharedUid>, AllocError>
    requires { HasChildren (parentage (finmap.get store.now.entities)) children.now }
    ensures { IfOk result (λ v. AreDescendants store.now.entities uid.now v.items) }
{
    let mut uids = with_descendants(alloc, store, children, uid)?;
    leave_descendants(store, &mut uids, uid);
    in_order(listed(alloc, &uids)?)
}

// Appends the uid of an entity to a list, if the entity has the ancestor.
fn push_descendant(
    alloc: Global,
    uids: &mut Vec<SharedUid>,
    entity: &Entity,
    ancestor: &SharedUid,
) -> Result<(), AllocError>
    ensures { OnOk result ((q : EntityUID) → is_member same_uid uids.new.items q
        ≡ (is_member same_uid uids.old.items q
        || (same_uid entity.now.uid q && has_ancestor entity.now ancestor.now))) }
{
    if !entity.is_descendant_of_shared(ancestor) {
        return Ok(());
    }
    uids.push(SharedUid::copy_of(alloc, entity.uid())?)?;
    Ok(())
}

// Returns the uids of the entities that have the ancestor, by scanning the store.
fn with_ancestor<S: BuildHasher + Clone>(
    alloc: Global,
    store: &Entities<S>,
    ancestor: &SharedUid,
) -> Result<Vec<SharedUid>, AllocError>
    ensures { IfOk result (λ v. (q : EntityUID) →
        is_member same_uid v.items q ≡ ancestry store.now.entities q ancestor.now) }
{
    let mut uids = Vec::new(alloc);
    for entity in store.iter() {
        push_descendant(alloc, &mut uids, entity, ancestor)?;
    }
    Ok(uids)
}

// Returns the descendants of a uid in a plain store, by scanning it.
fn descendants_by_scan<S: BuildHasher + Clone>(
    alloc: Global,
    store: &Entities<S>,
    uid: &EntityUID,
) -> Result<Vec<SharedUid>, AllocError>
    requires { IsPlainHeld store.now.entities }
    ensures { IfOk result (λ v. AreDescendants store.now.entities uid.now v.items) }
{
    let ancestor = SharedUid::copy_of(alloc, uid)?;
    let uids = with_ancestor(alloc, store, &ancestor)?;
    in_order(uids)
}

/// Returns the descendants of a uid: the uids of all entities of the store that reach it over one or more parents, each
/// once, in ascending order.
///
/// Only the parents that the entities have now count. An indirect ancestor without parents that lead to it has no
/// effect. A uid on a cycle of parents is its own descendant. The store need not have an entity for `uid`.
///
/// # Errors
///
/// Returns `AllocError` if an allocation fails.
///
/// # Complexity
///
/// If the store lists its children (see [`Entities`]), the search costs O(m log m), where m is the number of
/// descendants. If the store is known to be plain, the call looks `uid` up in each entity once. Otherwise it reads each
/// parent of each entity once, and allocates in proportion to their number.
///
/// # Differences from cedar-policy-core
///
/// The original has no such function.
pub fn descendants<S: BuildHasher + Clone>(
    alloc: Global,
    store: &Entities<S>,
    uid: &EntityUID,
) -> Result<Vec<SharedUid>, AllocError>
    ensures { IfOk result (λ v. AreDescendants store.now.entities uid.now v.items) }
{
    if let Some(children) = store.children() {
        return descendants_by(alloc, store, children, uid);
    }
    if store.is_known_plain() {
        return descendants_by_scan(alloc, store, uid);
    }
    let children = children_of(alloc, store)?;
    descendants_by(alloc, store, &children, uid)
}

// Returns whether a uid has a type.
fn is_of_type(uid: &SharedUid, ty: &EntityType) -> bool
    ensures { result ≡ has_type (type_name ty.now) uid.now }
{
    uid.uid().entity_type().name() == ty.name()
}

// Keeps the uids that have a type.
fn retain_type(uids: &mut Vec<SharedUid>, ty: &EntityType)
    ensures { uids.new.items ≡ filter (has_type (type_name ty.now)) uids.old.items }
{
    uids.retain(|uid| is_of_type(uid, ty));
}

/// Returns the descendants of a uid that have a type, each once, in ascending order. Two types are equal if their names
/// are.
///
/// # Errors
///
/// Returns `AllocError` if an allocation fails.
///
/// # Complexity
///
/// As [`descendants`].
///
/// # Differences from cedar-policy-core
///
/// The original has no such function.
pub fn descendants_of_type<S: BuildHasher + Clone>(
    alloc: Global,
    store: &Entities<S>,
    uid: &EntityUID,
    ty: &EntityType,
) -> Result<Vec<SharedUid>, AllocError>
    ensures { IfOk result (λ v. AreDescendantsOfType store.now.entities uid.now (type_name ty.now) v.items) }
{
    let mut uids = descendants(alloc, store, uid)?;
    retain_type(&mut uids, ty);
    Ok(uids)
}
