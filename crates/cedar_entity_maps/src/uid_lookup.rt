//! Lookups of uids among the ancestors of many entities.
ghost use Rattle.std.specs.Prelude.{◌≡◌, ◌&&◌, ◌||◌, IfOk, OnOk};
ghost use Rattle.std.specs.List.{list_any};
ghost use Rattle.std.specs.Set.{is_member};
ghost use Rattle.cedar_ids.specs.UidOf.{same_uid};
ghost use Rattle.cedar_ids.specs.declared.entity.EntityUID.{EntityUID};
ghost use Rattle.cedar_entity.specs.View.{has_ancestor};
ghost use Rattle.cedar_entity_maps.specs.laws.StaleUids.{is_stripped};

use cedar_children::listed;
use cedar_entity::entity::Entity;
use cedar_uid_sets::SharedUid;
use std::alloc::{AllocError, Global};
use std::collections::HashSet;
use std::hash::BuildHasher;
use std::marker::Model;

// Up to this number of uids are looked up one by one among an entity's ancestors. If there are more uids, and more than
// the entity has ancestors, each ancestor is looked up among the uids.
const FEW: usize = 16;

// A set of uids to look up, also as a list, because iterating over a list is faster than iterating over a set.
#[derive(Drop)]
pub(crate) struct UidLookup<'a, S: BuildHasher> {
    all: &'a HashSet<SharedUid, S>,
    list: Vec<SharedUid>,
}

impl<'a, S: BuildHasher> Model for UidLookup<'a, S> {
    ghost use Rattle.std.specs.Prelude.{◌≡◌, List};
    ghost use Rattle.cedar_ids.specs.declared.entity.EntityUID.{EntityUID};

    ghost Value = { List EntityUID };

    ghost view = { λ s. s.all.now.keys };

    ghost invariant = { λ s. s.list.items ≡ s.all.now.keys };
}

impl<'a, S: BuildHasher> UidLookup<'a, S> {
    // Prepares the uids for lookups.
    pub(crate) fn of(
        alloc: Global,
        uids: &'a HashSet<SharedUid, S>,
    ) -> Result<UidLookup<'a, S>, AllocError>
        ensures { IfOk result (λ s. s ≡ uids.now.keys) }
    {
        let list = listed(alloc, uids)?;
        Ok(UidLookup { all: uids, list })
    }

    // Returns the uids.
    pub(crate) fn uids(&self) -> &[SharedUid]
        ensures { result.now ≡ self.now }
    {
        &self.list
    }

    // Returns whether looking up each uid among the ancestors of an entity costs less than the reverse.
    #[inline(always)]
    fn is_short_for(&self, entity: &Entity) -> bool {
        self.list.len() <= FEW || self.list.len() <= entity.ancestors_len()
    }

    // Checks whether an entity has one of the uids as an ancestor.
    #[inline(always)]
    pub(crate) fn has_any(&self, entity: &Entity) -> bool
        ensures { result ≡ list_any (has_ancestor entity.now) self.now }
    {
        if self.is_short_for(entity) {
            has_any_of(entity, &self.list)
        } else {
            has_any_ancestor_of(entity, self.all)
        }
    }

    // Checks whether an entity has stale ancestors: it is not one of the uids, and it has one of them as an ancestor.
    pub(crate) fn is_hit(&self, key: &SharedUid, entity: &Entity) -> bool
        ensures { result ≡ is_stripped self.now key.now (has_ancestor entity.now) }
    {
        if !self.has_any(entity) {
            return false;
        }
        !self.all.contains(key)
    }

    // Returns the uids that are ancestors of an entity.
    pub(crate) fn hits(&self, alloc: Global, entity: &Entity) -> Result<Vec<SharedUid>, AllocError>
        ensures { IfOk result (λ v. (q : EntityUID) → is_member same_uid v.items q
            ≡ (is_member same_uid self.now q && has_ancestor entity.now q)) }
    {
        if self.is_short_for(entity) {
            hits_by_uid(alloc, entity, &self.list)
        } else {
            hits_by_ancestor(alloc, entity, self.all)
        }
    }
}

// Checks whether an entity has one of the uids as an ancestor, by looking up each uid.
#[inline(always)]
fn has_any_of(entity: &Entity, uids: &[SharedUid]) -> bool
    ensures { result ≡ list_any (has_ancestor entity.now) uids.now }
{
    for uid in uids {
        if entity.is_descendant_of_shared(uid) {
            return true;
        }
    }
    false
}

// Checks whether an entity has one of the uids as an ancestor, by looking up each ancestor.
fn has_any_ancestor_of<S: BuildHasher>(entity: &Entity, uids: &HashSet<SharedUid, S>) -> bool
    ensures { result ≡ list_any (has_ancestor entity.now) uids.now.keys }
{
    for uid in entity.ancestors() {
        if uids.contains(uid) {
            return true;
        }
    }
    false
}

// Appends a uid to a list, if `is_hit` is true.
fn push_if(hits: &mut Vec<SharedUid>, uid: &SharedUid, is_hit: bool) -> Result<(), AllocError>
    ensures { OnOk result ((q : EntityUID) → is_member same_uid hits.new.items q
        ≡ (is_member same_uid hits.old.items q || (same_uid uid.now q && is_hit))) }
{
    if !is_hit {
        return Ok(());
    }
    hits.push(uid.clone()?)?;
    Ok(())
}

// Returns the uids that are ancestors of an entity, by looking up each uid.
fn hits_by_uid(
    alloc: Global,
    entity: &Entity,
    uids: &[SharedUid],
) -> Result<Vec<SharedUid>, AllocError>
    ensures { IfOk result (λ v. (q : EntityUID) → is_member same_uid v.items q
        ≡ (is_member same_uid uids.now q && has_ancestor entity.now q)) }
{
    let mut hits = Vec::new(alloc);
    for uid in uids {
        push_if(&mut hits, uid, entity.is_descendant_of_shared(uid))?;
    }
    Ok(hits)
}

// Returns the uids that are ancestors of an entity, by looking up each ancestor.
fn hits_by_ancestor<S: BuildHasher>(
    alloc: Global,
    entity: &Entity,
    uids: &HashSet<SharedUid, S>,
) -> Result<Vec<SharedUid>, AllocError>
    ensures { IfOk result (λ v. (q : EntityUID) → is_member same_uid v.items q
        ≡ (is_member same_uid uids.now.keys q && has_ancestor entity.now q)) }
{
    let mut hits = Vec::new(alloc);
    for uid in entity.shared_ancestors() {
        push_if(&mut hits, uid, uids.contains(uid))?;
    }
    Ok(hits)
}
