//! Lists of uids for an edit: the uids of a set, and the uids that a map contains or does not contain.
ghost use Rattle.std.specs.Prelude.{◌≡◌, is_some, not, IfOk};
ghost use Rattle.std.specs.FinSet as set;
ghost use Rattle.std.specs.List.{filter};
ghost use Rattle.std.specs.Set.{is_member};
ghost use Rattle.cedar_ids.specs.UidOf.{same_uid};
ghost use Rattle.cedar_ids.specs.declared.entity.EntityUID.{EntityUID};
ghost use Rattle.cedar_entity_maps.specs.laws.EntityMap.{entity_at};

use cedar_entity::node::SharedEntity;
use cedar_ids::entity::EntityUID;
use cedar_uid_sets::{SharedUid, UidSet};
use std::alloc::{AllocError, Global};
use std::collections::HashMap;
use std::hash::BuildHasher;

// Lists the shared uids of a set.
pub(crate) fn pointers_of(uids: &UidSet) -> Result<Vec<SharedUid>, AllocError>
    ensures { IfOk result (λ v. (q : EntityUID) → is_member same_uid v.items q ≡ set.contains uids.now q) }
{
    let copy = uids.clone()?;
    Ok(copy.into_pointers())
}

// Returns the uids of a list that the map contains, in order, as shared uids.
pub(crate) fn held_uids<S: BuildHasher>(
    alloc: Global,
    entities: &HashMap<SharedUid, SharedEntity, S>,
    list: Vec<EntityUID>,
) -> Result<Vec<SharedUid>, AllocError>
    ensures { IfOk result (λ v. v.items ≡ filter (λ u. is_some (entity_at entities.now u)) list.items) }
{
    let mut kept = Vec::new(alloc);
    for uid in list {
        if entities.contains_key(&uid) {
            kept.push(SharedUid::new(alloc, uid)?)?;
        }
    }
    Ok(kept)
}

// Returns the uids of a list that the map does not contain, in order.
pub(crate) fn absent_uids<S: BuildHasher>(
    alloc: Global,
    entities: &HashMap<SharedUid, SharedEntity, S>,
    list: Vec<SharedUid>,
) -> Result<Vec<SharedUid>, AllocError>
    ensures { IfOk result (λ v. v.items ≡ filter (λ u. not (is_some (entity_at entities.now u))) list.items) }
{
    let mut kept = Vec::new(alloc);
    for shared in list {
        if entities.contains_key(&shared) {
            drop(shared);
        } else {
            kept.push(shared)?;
        }
    }
    Ok(kept)
}
