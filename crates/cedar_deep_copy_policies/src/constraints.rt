//! Deep copies of the constraints of principal, action and resource.
ghost use Rattle.std.specs.Prelude.{◌≡◌, IfOk, map};
ghost use Rattle.cedar_ids.specs.UidOf.{uid_parts};
ghost use Rattle.cedar_ids.specs.Views.{type_name};
ghost use Rattle.cedar_action.specs.Views.{rule_of};
ghost use Rattle.cedar_scope.specs.Views.{constraint_of, reference_of};

use cedar_action::ActionConstraint;
use cedar_deep_copy::{deep_copy_type, deep_copy_uid};
use cedar_ids::entity::{EntityType, EntityUID};
use cedar_scope::{EntityReference, PrincipalOrResourceConstraint};
use std::alloc::{AllocError, Global};
use std::rc::Rc;

// Copies a uid, to be shared within the copy.
fn copied_uid(alloc: Global, uid: &EntityUID) -> Result<Rc<EntityUID>, AllocError>
    ensures { IfOk result (λ u. uid_parts u.value ≡ uid_parts uid.now) }
{
    let uid = deep_copy_uid(alloc, uid)?;
    let own = Rc::new(alloc, uid)?;
    Ok(own)
}

// Copies a type, to be shared within the copy.
fn copied_type(alloc: Global, ty: &EntityType) -> Result<Rc<EntityType>, AllocError>
    ensures { IfOk result (λ t. type_name t.value ≡ type_name ty.now) }
{
    let ty = deep_copy_type(alloc, ty)?;
    let own = Rc::new(alloc, ty)?;
    Ok(own)
}

// Copies a reference to a uid or a slot.
fn deep_copy_reference(
    alloc: Global,
    reference: &EntityReference,
) -> Result<EntityReference, AllocError>
    ensures { IfOk result (λ r. reference_of r ≡ reference_of reference.now) }
{
    match reference {
        EntityReference::EUID(uid) => {
            let own = copied_uid(alloc, uid)?;
            Ok(EntityReference::EUID(own))
        }
        EntityReference::Slot(_) => Ok(EntityReference::Slot(None)),
    }
}

// Copies the constraint of a principal or a resource.
pub(crate) fn deep_copy_constraint(
    alloc: Global,
    constraint: &PrincipalOrResourceConstraint,
) -> Result<PrincipalOrResourceConstraint, AllocError>
    ensures { IfOk result (λ c. constraint_of c ≡ constraint_of constraint.now) }
{
    match constraint {
        PrincipalOrResourceConstraint::Any => Ok(PrincipalOrResourceConstraint::Any),
        PrincipalOrResourceConstraint::In(reference) => {
            let own = deep_copy_reference(alloc, reference)?;
            Ok(PrincipalOrResourceConstraint::In(own))
        }
        PrincipalOrResourceConstraint::Eq(reference) => {
            let own = deep_copy_reference(alloc, reference)?;
            Ok(PrincipalOrResourceConstraint::Eq(own))
        }
        PrincipalOrResourceConstraint::Is(ty) => {
            let own = copied_type(alloc, ty)?;
            Ok(PrincipalOrResourceConstraint::Is(own))
        }
        PrincipalOrResourceConstraint::IsIn(ty, reference) => {
            let own = copied_type(alloc, ty)?;
            let within = deep_copy_reference(alloc, reference)?;
            Ok(PrincipalOrResourceConstraint::IsIn(own, within))
        }
    }
}

// Copies uids.
fn deep_copy_uids(alloc: Global, uids: &[Rc<EntityUID>]) -> Result<Vec<EntityUID>, AllocError>
    ensures { IfOk result (λ v. map uid_parts v.items ≡ map (λ u. uid_parts u.value) uids.now) }
{
    let mut own = Vec::new(alloc);
    for uid in uids {
        let copy = deep_copy_uid(alloc, uid)?;
        own.push(copy)?;
    }
    Ok(own)
}

// Copies the constraint of an action.
pub(crate) fn deep_copy_rule(
    alloc: Global,
    rule: &ActionConstraint,
) -> Result<ActionConstraint, AllocError>
    ensures { IfOk result (λ c. rule_of c ≡ rule_of rule.now) }
{
    match rule {
        ActionConstraint::Any => Ok(ActionConstraint::Any),
        ActionConstraint::In(uids) => {
            let own = deep_copy_uids(alloc, uids)?;
            ActionConstraint::is_in(alloc, own)
        }
        ActionConstraint::Eq(uid) => {
            let own = copied_uid(alloc, uid)?;
            Ok(ActionConstraint::Eq(own))
        }
        ActionConstraint::InSlot(_) => Ok(ActionConstraint::InSlot(None)),
        ActionConstraint::EqSlot(_) => Ok(ActionConstraint::EqSlot(None)),
    }
}
