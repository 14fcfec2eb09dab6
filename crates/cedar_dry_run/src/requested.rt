//! The uids that a dry run of an edit reads from the store, and a shared copy of the list.
ghost use Rattle.std.specs.Prelude.{◌≡◌, ◌||◌, IfOk, OnOk};
ghost use Rattle.std.specs.FinSet as set;
ghost use Rattle.std.specs.Set.{is_member};
ghost use Rattle.cedar_ids.specs.UidOf.{same_uid};
ghost use Rattle.cedar_ids.specs.declared.entity.EntityUID.{EntityUID};
ghost use Rattle.cedar_entity_maps.specs.Plain.{entities_in};
ghost use Rattle.cedar_dry_run.specs.laws.Requested.{AreAsked};

use cedar_entities::Entity;
use cedar_ids::entity::EntityUID;
use std::alloc::{AllocError, Global};
use std::rc::Rc;

// Appends the parents of an entity to a list.
fn push_parents(uids: &mut Vec<EntityUID>, entity: &Entity) -> Result<(), AllocError>
    ensures { OnOk result ((q : EntityUID) → is_member same_uid uids.new.items q
        ≡ (is_member same_uid uids.old.items q || set.contains entity.now.parents q)) }
{
    for parent in entity.parents() {
        uids.push(parent.clone()?)?;
    }
    Ok(())
}

// Appends the uid of an entity and its parents to a list.
fn push_uid_and_parents(uids: &mut Vec<EntityUID>, entity: &Entity) -> Result<(), AllocError>
    ensures { OnOk result ((q : EntityUID) → is_member same_uid uids.new.items q
        ≡ (is_member same_uid uids.old.items q
        || (same_uid q entity.now.uid || set.contains entity.now.parents q))) }
{
    uids.push(entity.uid().clone()?)?;
    push_parents(uids, entity)
}

/// Returns the uids of the entities of a list and of their parents, in the order of the list, with repetitions.
///
/// # Errors
///
/// Returns `AllocError` if an allocation fails.
///
/// # Complexity
///
/// O(n), where n is the number of these uids. Copies each uid.
///
/// # Differences from cedar-policy-core
///
/// The original has no such function.
pub fn uids_and_parents(alloc: Global, list: &[Rc<Entity>]) -> Result<Vec<EntityUID>, AllocError>
    ensures { IfOk result (λ v. AreAsked v.items (entities_in list.now)) }
{
    let mut uids = Vec::new(alloc);
    for entity in list {
        push_uid_and_parents(&mut uids, entity)?;
    }
    Ok(uids)
}

// Shares the entities once more.
pub(crate) fn share_all(alloc: Global, list: &[Rc<Entity>]) -> Result<Vec<Rc<Entity>>, AllocError>
    ensures { IfOk result (λ v. entities_in v.items ≡ entities_in list.now) }
{
    let mut copies = Vec::with_capacity(alloc, list.len())?;
    for entity in list {
        copies.push(entity.clone()?)?;
    }
    Ok(copies)
}
