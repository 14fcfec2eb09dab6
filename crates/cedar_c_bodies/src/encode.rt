//! Constraints of principal, action and resource as a number and texts.
ghost use Rattle.std.specs.Prelude.{◌≡◌, ◌∷◌, [], IfOk, map};
ghost use Rattle.std.specs.List.{AllZip};
ghost use Rattle.cedar_ids.specs.Printed.{printed_name};
ghost use Rattle.cedar_ids.specs.UidOf.{uid_parts};
ghost use Rattle.cedar_ids.specs.Views.{type_name};
ghost use Rattle.cedar_action.specs.Views.{rule_of};
ghost use Rattle.cedar_scope.specs.Views.{constraint_of};
ghost use Rattle.cedar_c_bodies.specs.Encoded.{IsOneUid, IsTypeAndUid, IsUidText, EncodesConstraint, EncodesRule};

use cedar_action::ActionConstraint;
use cedar_c_lists::{Answer, with_uid};
use cedar_ids::entity::{EntityType, EntityUID};
use cedar_scope::{EntityReference, PrincipalOrResourceConstraint};
use std::alloc::{AllocError, Global};
use std::rc::Rc;

// Returns the text of a uid.
fn uid_text(alloc: Global, uid: &EntityUID) -> Result<Answer, AllocError>
    ensures { IfOk result (IsOneUid (uid_parts uid.now)) }
{
    with_uid(alloc, Answer::new(alloc), uid)
}

// Returns the texts of uids.
fn uid_texts(alloc: Global, uids: &[Rc<EntityUID>]) -> Result<Answer, AllocError>
    ensures { IfOk result (AllZip IsUidText (map (λ u. uid_parts u.value) uids.now)) }
{
    let mut answer = Answer::new(alloc);
    for uid in uids {
        answer = with_uid(alloc, answer, uid)?;
    }
    Ok(answer)
}

// Returns the text of a type.
fn type_text(alloc: Global, ty: &EntityType) -> Result<Answer, AllocError>
    ensures { IfOk result (λ a. a ≡ printed_name (type_name ty.now) ∷ []) }
{
    let text = ty.to_string(alloc)?;
    Answer::new(alloc).with(text.as_bytes())
}

// Returns the texts of a type and of a uid.
fn type_and_uid(alloc: Global, ty: &EntityType, uid: &EntityUID) -> Result<Answer, AllocError>
    ensures { IfOk result (IsTypeAndUid (type_name ty.now) (uid_parts uid.now)) }
{
    let texts = type_text(alloc, ty)?;
    with_uid(alloc, texts, uid)
}

/// Returns the kind of the constraint of a principal or a resource (see [`Scope`](crate::layout::Scope)), and the texts
/// of its type and its uid.
///
/// # Errors
///
/// Returns `AllocError` if an allocation fails.
pub fn encode_constraint(
    alloc: Global,
    constraint: &PrincipalOrResourceConstraint,
) -> Result<(u32, Answer), AllocError>
    ensures { IfOk result (λ r. EncodesConstraint (constraint_of constraint.now) r.0 r.1) }
{
    match constraint {
        PrincipalOrResourceConstraint::Any => Ok((0, Answer::new(alloc))),
        PrincipalOrResourceConstraint::Eq(EntityReference::EUID(uid)) => {
            let texts = uid_text(alloc, uid)?;
            Ok((1, texts))
        }
        PrincipalOrResourceConstraint::Eq(EntityReference::Slot(_)) => Ok((2, Answer::new(alloc))),
        PrincipalOrResourceConstraint::In(EntityReference::EUID(uid)) => {
            let texts = uid_text(alloc, uid)?;
            Ok((3, texts))
        }
        PrincipalOrResourceConstraint::In(EntityReference::Slot(_)) => Ok((4, Answer::new(alloc))),
        PrincipalOrResourceConstraint::Is(ty) => {
            let texts = type_text(alloc, ty)?;
            Ok((5, texts))
        }
        PrincipalOrResourceConstraint::IsIn(ty, EntityReference::EUID(uid)) => {
            let texts = type_and_uid(alloc, ty, uid)?;
            Ok((6, texts))
        }
        PrincipalOrResourceConstraint::IsIn(ty, EntityReference::Slot(_)) => {
            let texts = type_text(alloc, ty)?;
            Ok((7, texts))
        }
    }
}

/// Returns the kind of the constraint of an action (see [`Scope`](crate::layout::Scope)), and the texts of its uids.
///
/// # Errors
///
/// Returns `AllocError` if an allocation fails.
pub fn encode_rule(alloc: Global, rule: &ActionConstraint) -> Result<(u32, Answer), AllocError>
    ensures { IfOk result (λ r. EncodesRule (rule_of rule.now) r.0 r.1) }
{
    match rule {
        ActionConstraint::Any => Ok((0, Answer::new(alloc))),
        ActionConstraint::Eq(uid) => {
            let texts = uid_text(alloc, uid)?;
            Ok((1, texts))
        }
        ActionConstraint::EqSlot(_) => Ok((2, Answer::new(alloc))),
        ActionConstraint::In(uids) => {
            let texts = uid_texts(alloc, uids)?;
            Ok((3, texts))
        }
        ActionConstraint::InSlot(_) => Ok((4, Answer::new(alloc))),
    }
}
