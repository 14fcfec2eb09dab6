//! Deep copies of entities.
ghost use Rattle.std.specs.Prelude.{◌≡◌, IfOk, OnOk, false};
ghost use Rattle.std.specs.FinSet as set;
ghost use Rattle.cedar_entity_maps.specs.Plain.{HasDisjointParents};

use crate::parts::{deep_copy_fields, deep_copy_uids};
use crate::unshared::entity_with_copied_sets;
use cedar_deep_copy::CopiedUids;
use cedar_entity::{Entity, SharedUid, UidSet};
use cedar_ids::entity::EntityUID;
use std::alloc::{AllocError, Global};
use std::collections::HashSet;
use std::hash::BuildHasher;

// Returns whether a parent is also an indirect ancestor.
fn has_overlap(entity: &Entity) -> bool
    ensures { result ≡ false → HasDisjointParents entity.now }
{
    for parent in entity.parents() {
        if entity.is_indirect_descendant_of(parent) {
            return true;
        }
    }
    false
}

// Creates an entity with a uid and with copies of the attributes and tags of `entity`, without ancestors.
fn with_fields_of(alloc: Global, uid: EntityUID, entity: &Entity) -> Result<Entity, AllocError>
    ensures uid { IfOk result (λ e. e.uid ≡ uid) }
    ensures attrs { IfOk result (λ e. e.attrs ≡ entity.now.attrs) }
    ensures tags { IfOk result (λ e. e.tags ≡ entity.now.tags) }
    ensures parents { IfOk result (λ e. e.parents ≡ set.empty) }
    ensures indirect { IfOk result (λ e. e.indirect ≡ set.empty) }
{
    let attrs = deep_copy_fields(alloc, entity.attrs())?;
    let tags = deep_copy_fields(alloc, entity.tags())?;
    let above = HashSet::new(alloc);
    let parents = HashSet::new(alloc);
    let made = Entity::new_with_attr_partial_value(alloc, uid, attrs, above, parents, tags)?;
    Ok(made)
}

// Adds shared parents to an entity without ancestors. Adds them in ascending order, so each is appended.
fn add_parents(entity: &mut Entity, parents: Vec<SharedUid>) -> Result<(), AllocError>
    requires parents { entity.old.parents ≡ set.empty }
    requires indirect { entity.old.indirect ≡ set.empty }
    ensures { OnOk result (entity.new ≡ record entity.old { parents = set.from_list parents.items }) }
{
    let ascending = UidSet::from_pointers(parents)?.into_pointers();
    for parent in ascending {
        entity.add_shared_parent(parent)?;
    }
    Ok(())
}

// Adds shared indirect ancestors to an entity without indirect ancestors. Parents are skipped.
fn insert_indirect(entity: &mut Entity, above: Vec<SharedUid>) -> Result<(), AllocError>
    requires { entity.old.indirect ≡ set.empty }
    ensures { OnOk result (entity.new ≡ record entity.old {
      indirect = set.difference (set.from_list above.items) entity.old.parents;
    }) }
{
    entity.add_shared_ancestors(above)?;
    Ok(())
}

// Copies an entity if no parent is also an indirect ancestor. The uids are shared within the copy.
fn entity_of_shared<S: BuildHasher + Clone>(
    alloc: Global,
    own: &mut CopiedUids<S>,
    entity: &Entity,
) -> Result<Entity, AllocError>
    requires { HasDisjointParents entity.now }
    ensures { IfOk result (λ e. e ≡ entity.now) }
{
    let uid = own.shared(alloc, entity.uid())?.into_uid()?;
    let parents = deep_copy_uids(alloc, own, entity.parents())?;
    let above = deep_copy_uids(alloc, own, entity.indirect_ancestors())?;
    let mut copy = with_fields_of(alloc, uid, entity)?;
    add_parents(&mut copy, parents)?;
    insert_indirect(&mut copy, above)?;
    Ok(copy)
}

/// Creates a deep copy of an entity, which shares nothing with it and has no locations. The uids of the copy come from
/// `own`, which is the table of the uids of a larger copy.
///
/// If a parent is also an indirect ancestor, the copy has uids of its own for its ancestors. Validation returns an
/// error for such an entity. Otherwise the ancestors are shared within the larger copy.
///
/// # Errors
///
/// Returns `AllocError` if an allocation fails, or if the copy of an attribute or a tag fails as
/// [`cedar_deep_copy::deep_copy_partial`] describes.
pub fn deep_copy_entity<S: BuildHasher + Clone>(
    alloc: Global,
    own: &mut CopiedUids<S>,
    entity: &Entity,
) -> Result<Entity, AllocError>
    ensures { IfOk result (λ e. e ≡ entity.now) }
{
    if has_overlap(entity) {
        entity_with_copied_sets(alloc, own, entity)
    } else {
        entity_of_shared(alloc, own, entity)
    }
}
