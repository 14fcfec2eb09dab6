//! The search for a shortest path over parents: layer by layer, the uids that are one more step away.
ghost use Rattle.std.specs.Prelude.{◌≡◌, ◌+◌, ◌&&◌, false, length, IfOk, OnOk, None};
ghost use Rattle.std.specs.HashMap.{get, hash_map_len};
ghost use Rattle.std.specs.Set.{is_member};
ghost use Rattle.cedar_ids.specs.UidOf.{same_uid};
ghost use Rattle.cedar_ids.specs.declared.entity.EntityUID.{EntityUID};
ghost use Rattle.cedar_entity_maps.specs.Modes.{ancestry};
ghost use Rattle.cedar_queries.specs.laws.Searches.{EndsSearch, Visits, can_lead, search_graph};

use cedar_entities::{Entities, SharedUid};
use cedar_ids::entity::EntityUID;
use std::alloc::{AllocError, Global};
use std::collections::HashMap;
use std::hash::BuildHasher;

// Visits a parent of `child`. A parent that is new is recorded as reached from `child`, and joins the next layer.
fn visit<S: BuildHasher>(
    reached: &mut HashMap<SharedUid, SharedUid, S>,
    next: &mut Vec<SharedUid>,
    child: &SharedUid,
    parent: &SharedUid,
) -> Result<(), AllocError>
    ensures visits { OnOk result (Visits (λ a b. same_uid child.now a && same_uid parent.now b)
        (get same_uid reached.old) (get same_uid reached.new)
        (is_member same_uid next.old.items) (is_member same_uid next.new.items)) }
    ensures count { OnOk result (hash_map_len reached.new + length next.old.items
        ≡ hash_map_len reached.old + length next.new.items) }
{
    if reached.contains_key(parent) {
        return Ok(());
    }
    next.push(parent.clone()?)?;
    reached.insert(parent.clone()?, child.clone()?)?;
    Ok(())
}

// Returns whether the store has an entity with the uid `from`, and `to` is one of its ancestors.
pub(crate) fn has_ancestor_at<S: BuildHasher + Clone>(
    store: &Entities<S>,
    from: &EntityUID,
    to: &EntityUID,
) -> bool
    ensures { result ≡ ancestry store.now.entities from.now to.now }
{
    match store.stored(from) {
        Some(entity) => entity.is_descendant_of(to),
        None => false,
    }
}

// Returns whether a path to `to` can go over `uid`. If the store is plain, that is `to` itself or an entity that has
// `to` as an ancestor. Otherwise it can be any uid.
fn may_lead<S: BuildHasher + Clone>(
    store: &Entities<S>,
    uid: &SharedUid,
    to: &EntityUID,
    plain: bool,
) -> bool
    ensures { result ≡ can_lead store.now.entities plain to.now uid.now }
{
    !plain || uid.uid() == to || has_ancestor_at(store, uid.uid(), to)
}

// Visits the parents of the entity with the uid `child` from which `to` can be reached.
fn visit_parents<S: BuildHasher + Clone>(
    store: &Entities<S>,
    reached: &mut HashMap<SharedUid, SharedUid, S>,
    next: &mut Vec<SharedUid>,
    child: &SharedUid,
    to: &EntityUID,
    plain: bool,
) -> Result<(), AllocError>
    ensures visits { OnOk result (Visits
        (λ a b. same_uid child.now a && search_graph store.now.entities plain to.now a b)
        (get same_uid reached.old) (get same_uid reached.new)
        (is_member same_uid next.old.items) (is_member same_uid next.new.items)) }
    ensures count { OnOk result (hash_map_len reached.new + length next.old.items
        ≡ hash_map_len reached.old + length next.new.items) }
{
    let Some(entity) = store.stored(child.uid()) else {
        return Ok(());
    };
    for parent in entity.shared_parents() {
        if !may_lead(store, parent, to, plain) {
            continue;
        }
        visit(reached, next, child, parent)?;
    }
    Ok(())
}

// Visits the parents of each uid of a layer. Returns the uids that are new.
fn next_layer<S: BuildHasher + Clone>(
    alloc: Global,
    store: &Entities<S>,
    reached: &mut HashMap<SharedUid, SharedUid, S>,
    layer: &[SharedUid],
    to: &EntityUID,
    plain: bool,
) -> Result<Vec<SharedUid>, AllocError>
    ensures visits { IfOk result (λ v. Visits
        (λ a b. is_member same_uid layer.now a && search_graph store.now.entities plain to.now a b)
        (get same_uid reached.old) (get same_uid reached.new) (λ q. false) (is_member same_uid v.items)) }
    ensures count { IfOk result (λ v. hash_map_len reached.new ≡ hash_map_len reached.old + length v.items) }
{
    let mut next = Vec::new(alloc);
    for child in layer {
        visit_parents(store, reached, &mut next, child, to, plain)?;
    }
    Ok(next)
}

// Searches for `to` from a uid. Records for each uid that it reaches from which uid it was reached first. Returns the
// number of uids between, if it finds `to`.
pub(crate) fn search<S: BuildHasher + Clone>(
    alloc: Global,
    store: &Entities<S>,
    reached: &mut HashMap<SharedUid, SharedUid, S>,
    from: SharedUid,
    to: &EntityUID,
    plain: bool,
) -> Result<Option<usize>, AllocError>
    requires empty { (q : EntityUID) → get same_uid reached.old q ≡ None }
    requires len { hash_map_len reached.old ≡ 0 }
    ensures { IfOk result (EndsSearch
        (search_graph store.now.entities plain to.now) from to.now (get same_uid reached.new)) }
{
    let mut layer = Vec::new(alloc);
    layer.push(from)?;
    layer = next_layer(alloc, store, reached, &layer, to, plain)?;
    for between in 0..usize::MAX {
        if reached.contains_key(to) {
            return Ok(Some(between));
        }
        if layer.is_empty() {
            return Ok(None);
        }
        layer = next_layer(alloc, store, reached, &layer, to, plain)?;
    }
    // Each round visits another uid of the map, and no map has this many keys. So the last layer is empty here.
    let _fewer = reached.len();
    Ok(None)
}
