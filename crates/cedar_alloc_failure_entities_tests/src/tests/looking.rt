// Functions that do not allocate succeed while every allocation is forced to fail.
use super::parts::entity;
use super::stores::store_of;
use super::{set_of, shared, uid_of};
use cedar_alloc_failures::{both, refuse, stop_failing};
use cedar_entities::dereference::Dereference;
use cedar_entities::entities::Entities;
use cedar_entity::entity::Entity;
use cedar_entity::node::SharedEntity;
use cedar_entity_diff::{StoreDiff, diff};
use cedar_graph::TCNode;
use cedar_ids::entity::EntityUID;
use cedar_uid_sets::{SharedUid, UidSet};
use std::alloc::{AllocError, Global};

// Returns whether a store contains the entity with a uid.
fn is_found(alloc: Global, store: &Entities, uid: &EntityUID) -> bool {
    match store.entity(alloc, uid) {
        Ok(found) => {
            let told = matches!(found, Dereference::Data(_));
            drop(found);
            told
        }
        Err(_) => false,
    }
}

// Reads a store of two entities, and returns whether all results are right.
fn is_read(alloc: Global, store: &Entities, uid: &EntityUID) -> bool {
    let mut count = 0_usize;
    for _ in store.iter() {
        count = count.saturating_add(1);
    }
    let told = count == 2 && store.len() == 2 && !store.is_empty() && !store.is_partial();
    told && store.deep_eq(store) && is_found(alloc, store, uid)
}

// Returns whether an empty store can be created and made partial.
fn is_made(alloc: Global) -> bool {
    let store = Entities::new(alloc).partial();
    let told = store.is_empty() && store.is_partial();
    drop(store);
    told
}

fn reads_a_store(alloc: Global) -> bool {
    match both(store_of(alloc, "from: a b, b c"), uid_of(alloc, "a")) {
        Some((store, uid)) => {
            refuse(alloc, 0);
            let read = is_read(alloc, &store, &uid);
            let made = is_made(alloc);
            let refused = stop_failing(alloc);
            drop(store);
            drop(uid);
            read && made && !refused
        }
        None => false,
    }
}

// Returns the number of items of a difference, with each ancestor that was gained or lost.
fn difference_len(difference: &StoreDiff) -> usize {
    let mut count = difference
        .removed()
        .len()
        .saturating_add(difference.added().len());
    for change in difference.changed() {
        if change.before() == change.after() {
            count = count.saturating_add(1);
        }
    }
    for change in difference.ancestry() {
        count = count.saturating_add(change.gained().count());
        count = count.saturating_add(change.lost().count());
    }
    count
}

// Reads the difference of two stores, and returns whether all results are right.
fn reads_a_difference(alloc: Global) -> bool {
    let stores = both(
        store_of(alloc, "from: a b, c"),
        store_of(alloc, "from: a d e, f; partial"),
    );
    match stores {
        Some((one, other)) => {
            let found = diff(alloc, &one, &other);
            drop(one);
            drop(other);
            is_read_difference(alloc, found)
        }
        None => false,
    }
}

fn is_read_difference(alloc: Global, found: Result<StoreDiff, AllocError>) -> bool {
    match found {
        Ok(difference) => {
            refuse(alloc, 0);
            let told = difference_len(&difference) == 6
                && difference.partial() == Some(true)
                && !difference.is_empty();
            let refused = stop_failing(alloc);
            drop(difference);
            told && !refused
        }
        Err(_) => false,
    }
}

#[test]
fn to_read_a_difference_takes_no_memory(rt: HostRuntime) {
    assert!(rt; reads_a_difference(rt.alloc()));
}

#[test]
fn to_read_a_store_takes_no_memory(rt: HostRuntime) {
    assert!(rt; reads_a_store(rt.alloc()));
}

// Returns how many items the iterators of an entity return: attributes, tags, keys of both, parents, indirect ancestors
// and ancestors.
fn walked(entity: &Entity) -> usize {
    let fields = entity.attrs().count().saturating_add(entity.tags().count());
    let keys = entity
        .keys()
        .count()
        .saturating_add(entity.tag_keys().count());
    let near = entity
        .parents()
        .count()
        .saturating_add(entity.indirect_ancestors().count());
    fields
        .saturating_add(keys)
        .saturating_add(near)
        .saturating_add(entity.ancestors().count())
}

// Returns whether the keys of a set ascend in its order, for entities as nodes.
fn is_node_order(set: &UidSet) -> bool {
    let keys = set.pointers();
    if keys.len() < 2 {
        return false;
    }
    <SharedEntity as TCNode<SharedUid>>::are_ascending(keys, &[0, 1])
        && !<SharedEntity as TCNode<SharedUid>>::are_ascending(keys, &[1, 0])
        && !<Entity as TCNode<EntityUID>>::are_ascending(&[], &[])
}

fn has_node_edge(entity: &Entity, uid: &EntityUID) -> bool {
    <Entity as TCNode<EntityUID>>::has_edge_to(entity, uid)
}

// Reads an entity with an attribute, a tag, a parent and an indirect ancestor, and returns whether all results are
// right.
fn is_entity_read(entity: &Entity, parent: &EntityUID) -> bool {
    let fields = entity.get("k").is_some() && entity.get_tag("t").is_some();
    let counts = entity.attrs_len() == 1 && entity.tags_len() == 1 && walked(entity) == 8;
    let edges = entity.is_child_of(parent)
        && entity.is_descendant_of(parent)
        && !entity.is_indirect_descendant_of(parent)
        && has_node_edge(entity, parent);
    fields && counts && edges && entity.deep_eq(entity) && entity.is_valid()
}

// Removes the edges of an entity, and splits it into its parts.
fn takes_apart(mut entity: Entity, parent: &EntityUID) -> bool {
    entity.remove_indirect_ancestor(parent);
    entity.remove_parent(parent);
    entity.remove_all_indirect_ancestors();
    let told = !entity.is_descendant_of(parent);
    drop(entity.into_inner());
    told
}

// Returns whether an entity has its parent and its indirect ancestor, looked up by shared uids, and has neither after
// their removal.
fn is_taken_out(entity: &mut Entity, parent: &SharedUid, indirect: &UidSet) -> bool {
    let leads = entity.is_descendant_of_shared(parent) && entity.shared_ancestors().count() == 2;
    entity.remove_ancestors_of(indirect);
    entity.remove_indirect_ancestor(parent.uid());
    let left = entity.shared_parents().count() == 1 && entity.ancestors().count() == 1;
    entity.remove_parents_of(indirect);
    entity.remove_parent(parent.uid());
    leads && left && entity.ancestors().next().is_none()
}

fn takes_out(alloc: Global) -> bool {
    let uids = both(shared(alloc, "b"), set_of(alloc, "c"));
    match both(entity(alloc, "a b / c"), uids) {
        Some((mut entity, (parent, indirect))) => {
            refuse(alloc, 0);
            let told = is_taken_out(&mut entity, &parent, &indirect);
            let refused = stop_failing(alloc);
            drop(entity);
            drop(parent);
            drop(indirect);
            told && !refused
        }
        None => false,
    }
}

// Reads a set of two uids and another set that has one of them and a further one. Returns whether all results are
// right.
fn is_set_read(set: &UidSet, other: &UidSet, one: &SharedUid) -> bool {
    let found = set.contains(one.uid()) && set.contains_shared(one) && !other.contains_shared(one);
    let either = UidSet::either_contains(set, other, one);
    let first = set.union(other).next() == Some(one.uid());
    let counts = first && set.len() == 2 && !set.is_empty();
    found && either && counts && UidSet::is_ascending(set.pointers()) && is_node_order(set)
}

// Removes from a set of two uids the uids of another set, then one uid, then the rest.
fn empties_set(mut set: UidSet, other: &UidSet, one: &SharedUid) -> bool {
    set.difference(other);
    let left = set.len() == 1;
    set.remove_shared(one);
    set.remove(one.uid());
    let mut back = UidSet::from_ascending(set.into_pointers());
    let told = left && back.is_empty();
    back.clear();
    drop(back);
    told
}

fn reads_a_set_of_uids(alloc: Global) -> bool {
    let sets = both(set_of(alloc, "a b"), set_of(alloc, "b c"));
    match both(sets, shared(alloc, "a")) {
        Some(((set, other), one)) => {
            refuse(alloc, 0);
            let read = is_set_read(&set, &other, &one);
            let told = empties_set(set, &other, &one) && read;
            let refused = stop_failing(alloc);
            drop(other);
            drop(one);
            told && !refused
        }
        None => false,
    }
}

#[test]
fn to_read_a_set_of_uids_takes_no_memory(rt: HostRuntime) {
    let alloc = rt.alloc();
    assert!(rt; reads_a_set_of_uids(alloc) && takes_out(alloc));
}

fn reads_an_entity(alloc: Global) -> bool {
    let others = both(uid_of(alloc, "d"), uid_of(alloc, "e"));
    let made = both(entity(alloc, "a b / c / k=1 / t=1"), others);
    match both(made, uid_of(alloc, "b")) {
        Some(((entity, (other, further)), parent)) => {
            refuse(alloc, 0);
            let read = is_entity_read(&entity, &parent);
            let apart = takes_apart(entity, &parent);
            let plain = Entity::with_uid(alloc, other);
            let orphan = Entity::with_parent_set(alloc, further, UidSet::new(alloc));
            let alone = walked(&plain) == 0 && walked(&orphan) == 0;
            drop(plain);
            drop(orphan);
            let refused = stop_failing(alloc);
            drop(parent);
            read && apart && alone && !refused
        }
        None => false,
    }
}

#[test]
fn to_read_an_entity_takes_no_memory(rt: HostRuntime) {
    assert!(rt; reads_an_entity(rt.alloc()));
}
