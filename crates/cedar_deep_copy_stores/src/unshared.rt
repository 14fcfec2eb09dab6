//! Deep copies of entities in which a parent is also an indirect ancestor.
ghost use Rattle.std.specs.Prelude.{◌≡◌, IfOk};
ghost use Rattle.std.specs.HashSet.{contains};
ghost use Rattle.std.specs.Set.{is_member};
ghost use Rattle.cedar_ids.specs.UidOf.{same_uid};
ghost use Rattle.cedar_ids.specs.declared.entity.EntityUID.{EntityUID};

use crate::parts::{deep_copy_fields, deep_copy_uids};
use cedar_deep_copy::CopiedUids;
use cedar_entity::{Entity, Uids};
use cedar_ids::entity::EntityUID;
use std::alloc::{AllocError, Global};
use std::collections::HashSet;
use std::hash::BuildHasher;

// Copies uids into a hash set.
fn deep_copy_set<S: BuildHasher + Clone>(
    alloc: Global,
    own: &mut CopiedUids<S>,
    uids: Uids<'_>,
) -> Result<HashSet<EntityUID, S>, AllocError>
    ensures { IfOk result (λ s. (q : EntityUID) → contains same_uid s q ≡ is_member same_uid uids.entry q) }
{
    let copies = deep_copy_uids(alloc, own, uids)?;
    let mut set = HashSet::with_hasher(alloc, own.hasher().clone()?);
    for copy in copies {
        set.insert(copy.into_uid()?)?;
    }
    Ok(set)
}

// Copies an entity with any ancestors. The copy has its own sets of uids.
pub(crate) fn entity_with_copied_sets<S: BuildHasher + Clone>(
    alloc: Global,
    own: &mut CopiedUids<S>,
    entity: &Entity,
) -> Result<Entity, AllocError>
    ensures { IfOk result (λ e. e ≡ entity.now) }
{
    let uid = own.shared(alloc, entity.uid())?.into_uid()?;
    let attrs = deep_copy_fields(alloc, entity.attrs())?;
    let tags = deep_copy_fields(alloc, entity.tags())?;
    let above = deep_copy_set(alloc, own, entity.indirect_ancestors())?;
    let parents = deep_copy_set(alloc, own, entity.parents())?;
    let made = Entity::new_with_attr_partial_value(alloc, uid, attrs, above, parents, tags)?;
    Ok(made)
}
