//! Entities that a call inserts. Each has its shared uid, so one copy of the uid serves the map and all sets of the
//! call.
ghost use Rattle.std.specs.Prelude.{◌≡◌, IfOk, IsTrue};
ghost use Rattle.cedar_entity_maps.specs.Edits.{uids_of};
ghost use Rattle.cedar_entity_maps.specs.Modes.{computes, rules_of};
ghost use Rattle.cedar_entity_maps.specs.Plain.{HaveNoIndirect, HasNoIndirect, entities_in};

use cedar_entity::entity::Entity;
use cedar_entity_maps::TCComputation;
use cedar_entity_maps::modes::computes;
use cedar_uid_sets::SharedUid;
use std::alloc::{AllocError, Global};
use std::marker::Model;
use std::rc::Rc;

// An entity to insert, and its uid. In contracts it is the entity.
#[derive(Drop)]
pub(crate) struct Incoming {
    pub(crate) uid: SharedUid,
    pub(crate) entity: Rc<Entity>,
}

impl Model for Incoming {
    ghost use Rattle.std.specs.Prelude.{◌≡◌};
    ghost use Rattle.cedar_entity.specs.View.{EntityView};
    ghost use Rattle.cedar_entity.specs.Codes.{view_code};

    ghost Value = { EntityView };

    ghost coded = { view_code };

    ghost view = { λ i. i.entity.value };

    ghost invariant = { λ i. i.uid ≡ i.entity.value.uid };
}

// Moves the entities into shared pointers.
pub(crate) fn shared_all(alloc: Global, list: Vec<Entity>) -> Result<Vec<Rc<Entity>>, AllocError>
    ensures { IfOk result (λ v. entities_in v.items ≡ list.items) }
{
    let mut shared = Vec::new(alloc);
    for entity in list {
        shared.push(Rc::new(alloc, entity)?)?;
    }
    Ok(shared)
}

// Pairs the entity with a copy of its uid.
fn with_uid(alloc: Global, entity: Rc<Entity>) -> Result<Incoming, AllocError>
    ensures { IfOk result (λ i. i ≡ entity.value) }
{
    let uid = SharedUid::copy_of(alloc, entity.uid())?;
    Ok(Incoming { uid, entity })
}

// Pairs each entity with a copy of its uid.
pub(crate) fn with_uids(alloc: Global, list: Vec<Rc<Entity>>) -> Result<Vec<Incoming>, AllocError>
    ensures { IfOk result (λ v. v.items ≡ entities_in list.items) }
{
    let mut incoming = Vec::with_capacity(alloc, list.len())?;
    for entity in list {
        incoming.push(with_uid(alloc, entity)?)?;
    }
    Ok(incoming)
}

// Returns the shared uids of the entities.
pub(crate) fn uids_in(alloc: Global, list: &[Incoming]) -> Result<Vec<SharedUid>, AllocError>
    ensures { IfOk result (λ v. v.items ≡ uids_of list.now) }
{
    let mut uids = Vec::new(alloc);
    for entity in list {
        uids.push(entity.uid.clone()?)?;
    }
    Ok(uids)
}

// Checks whether an entity has no indirect ancestors.
pub(crate) fn has_no_indirect(entity: &Entity) -> bool
    ensures { IsTrue result → HasNoIndirect entity.now }
{
    entity.indirect_ancestors().next().is_none()
}

// Checks whether none of the entities has indirect ancestors.
fn have_no_indirect(list: &[Incoming]) -> bool
    ensures { IsTrue result → HaveNoIndirect list.now }
{
    for incoming in list {
        if !has_no_indirect(&incoming.entity) {
            return false;
        }
    }
    true
}

// Returns `true` only if adding or overwriting the entities keeps a plain store plain: the mode computes the closure,
// and no entity has indirect ancestors.
pub(crate) fn stays_plain(tc_computation: TCComputation, list: &[Incoming]) -> bool
    ensures { IsTrue result → IsTrue (computes (rules_of tc_computation)) × HaveNoIndirect list.now }
{
    if !computes(tc_computation) {
        return false;
    }
    have_no_indirect(list)
}
