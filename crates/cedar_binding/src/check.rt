//! The check that bindings fit the slots of a template.
ghost use Rattle.std.specs.Prelude.{◌≡◌, ◌&&◌, ◌↔◌, [], not, IfOk, OnErr, IsTrue};
ghost use Rattle.std.specs.Option.{option_copied, option_map};
ghost use Rattle.cedar_ids.specs.UidOf.{uid_parts};
ghost use Rattle.cedar_binding.specs.Bindings.{binds, is_listed_id, unbound, extra, wrong_action};
ghost use Rattle.cedar_binding.specs.Checks.{Binds};
ghost use Rattle.cedar_binding.specs.Views.{env_of};

use crate::err::LinkingError;
use crate::slot_env::{SlotEnv, bound_to, is_bound};
use cedar_ids::entity::EntityUID;
use cedar_terms::slot::{Slot, SlotId};
use std::alloc::{AllocError, Global};

/// Checks that the bound slot ids are exactly the ids of the slots. If the action's slot is bound, its uid must be an
/// action.
///
/// # Errors
///
/// - `ArityError`: the bound ids are not the ids of the slots. `unbound_values` has the slots that are not bound, in
///   the order of `slots` and with repetitions. `extra_values` has the bound ids that are no slots, in the order of
///   ids.
/// - `NotAnAction`: the ids fit, but the action's slot is bound to this uid, which is not an action.
/// - `Memory`: an allocation failed, which is possible only if the bindings do not fit.
///
/// # Complexity
///
/// Reads each slot a few times. Allocates only for the error.
pub fn check_bindings(alloc: Global, slots: &[Slot], values: &SlotEnv) -> Result<(), LinkingError>
    ensures { Binds result slots.now (env_of values.now) }
{
    let unbound_values = unbound(alloc, slots, values)?;
    let extra_values = extra(alloc, slots, values)?;
    if !are_empty(&unbound_values, &extra_values) {
        return Err(LinkingError::ArityError {
            unbound_values,
            extra_values,
        });
    }
    match wrong_action(values) {
        None => Ok(()),
        Some(uid) => Err(LinkingError::NotAnAction { uid: uid.clone()? }),
    }
}

// Returns whether one of the slots has this id.
fn has_slot(slots: &[Slot], id: SlotId) -> bool
    ensures { result ≡ is_listed_id slots.now id }
{
    slots.iter().any(|slot| id == slot.id)
}

// Returns the slots that are not bound.
fn unbound(alloc: Global, slots: &[Slot], values: &SlotEnv) -> Result<Vec<SlotId>, AllocError>
    ensures ok { IfOk result (λ ids. ids.items ≡ unbound slots.now (env_of values.now)) }
    ensures err { OnErr result (unbound slots.now (env_of values.now) ≡ [] → ⊥) }
{
    let mut ids = Vec::new(alloc);
    for slot in slots {
        if !is_bound(values, slot.id) {
            ids.push(slot.id)?;
        }
    }
    Ok(ids)
}

// Returns whether an id is bound but is not one of the slots.
fn is_extra(slots: &[Slot], values: &SlotEnv, id: SlotId) -> bool
    ensures { result ≡ (binds (env_of values.now) id && not (is_listed_id slots.now id)) }
{
    !has_slot(slots, id) && is_bound(values, id)
}

// Returns the bound ids that are not among the slots.
fn extra(alloc: Global, slots: &[Slot], values: &SlotEnv) -> Result<Vec<SlotId>, AllocError>
    ensures ok { IfOk result (λ ids. ids.items ≡ extra slots.now (env_of values.now)) }
    ensures err { OnErr result (extra slots.now (env_of values.now) ≡ [] → ⊥) }
{
    let mut ids = Vec::new(alloc);
    for id in SlotId::ALL.iter() {
        if is_extra(slots, values, *id) {
            ids.push(*id)?;
        }
    }
    Ok(ids)
}

// Returns the uid bound to the action's slot, if it is not an action.
fn wrong_action(values: &SlotEnv) -> Option<&EntityUID>
    ensures { option_map uid_parts (option_copied result) ≡ wrong_action (env_of values.now) }
{
    match bound_to(values, SlotId::Action) {
        None => None,
        Some(uid) => {
            if uid.is_action() {
                return None;
            }
            Some(uid)
        }
    }
}

// Returns whether both lists are empty.
fn are_empty(unbound: &[SlotId], extra: &[SlotId]) -> bool
    ensures { IsTrue result ↔ ((unbound.now ≡ []) × (extra.now ≡ [])) }
{
    unbound.is_empty() && extra.is_empty()
}
