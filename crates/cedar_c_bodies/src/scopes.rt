//! Constraints of principal, action and resource from a number and parts of a text.
ghost use Rattle.std.specs.Prelude.{MatchResult};
ghost use Rattle.cedar_ids.specs.UidOf.{uid_parts};
ghost use Rattle.cedar_ids.specs.Views.{type_name};
ghost use Rattle.cedar_action.specs.Views.{rule_of};
ghost use Rattle.cedar_scope.specs.Views.{constraint_of};
ghost use Rattle.cedar_c_lists.specs.Texts.{IsUnreadAt};
ghost use Rattle.cedar_c_trees.specs.Reads.{IsNameAt};
ghost use Rattle.cedar_c_bodies.specs.Scopes.{IsConstraintAt, IsNoConstraintAt, IsNoRuleAt, IsNoTypeAt, IsRuleAt, EncodesUid};

use crate::layout::Scope;
use cedar_action::ActionConstraint;
use cedar_c_lists::{Reason, Span, text_at, type_of, uid_at, uids_of};
use cedar_ids::entity::{EntityType, EntityUID};
use cedar_scope::PrincipalOrResourceConstraint;
use std::alloc::Global;
use std::rc::Rc;

// Parses the uid in a part of a text, to be shared.
fn shared_at(alloc: Global, text: &[u8], at: Span) -> Result<Rc<EntityUID>, Reason>
    ensures { MatchResult result (λ u. EncodesUid text.now at (uid_parts u.value)) (IsUnreadAt text.now at) }
{
    let uid = uid_at(alloc, text, at)?;
    let shared = Rc::new(alloc, uid)?;
    Ok(shared)
}

// Parses the name of a type in a part of a text, to be shared.
fn type_at(alloc: Global, text: &[u8], at: Span) -> Result<Rc<EntityType>, Reason>
    ensures { MatchResult result (λ t. IsNameAt text.now at (type_name t.value)) (IsNoTypeAt text.now at) }
{
    let text = text_at(text, at)?;
    let ty = type_of(alloc, text)?;
    let shared = Rc::new(alloc, ty)?;
    Ok(shared)
}

// Decodes the constraint of a principal or a resource.
pub(crate) fn constraint_at(
    alloc: Global,
    text: &[u8],
    scope: &Scope,
) -> Result<PrincipalOrResourceConstraint, Reason>
    ensures { MatchResult result (λ c. IsConstraintAt text.now scope.now (constraint_of c))
        (IsNoConstraintAt text.now scope.now) }
{
    match scope.kind {
        0 => Ok(PrincipalOrResourceConstraint::any()),
        1 => {
            let uid = shared_at(alloc, text, scope.uid)?;
            Ok(PrincipalOrResourceConstraint::is_eq(uid))
        }
        2 => Ok(PrincipalOrResourceConstraint::is_eq_slot()),
        3 => {
            let uid = shared_at(alloc, text, scope.uid)?;
            Ok(PrincipalOrResourceConstraint::is_in(uid))
        }
        4 => Ok(PrincipalOrResourceConstraint::is_in_slot()),
        5 => {
            let ty = type_at(alloc, text, scope.ty)?;
            Ok(PrincipalOrResourceConstraint::is_entity_type(ty))
        }
        6 => {
            let ty = type_at(alloc, text, scope.ty)?;
            let uid = shared_at(alloc, text, scope.uid)?;
            Ok(PrincipalOrResourceConstraint::is_entity_type_in(ty, uid))
        }
        7 => {
            let ty = type_at(alloc, text, scope.ty)?;
            Ok(PrincipalOrResourceConstraint::is_entity_type_in_slot(ty))
        }
        _ => Err(Reason::BadArgument),
    }
}

// Decodes the constraint of an action.
pub(crate) fn rule_at(
    alloc: Global,
    text: &[u8],
    uids: &[Span],
    scope: &Scope,
) -> Result<ActionConstraint, Reason>
    ensures { MatchResult result (λ c. IsRuleAt text.now uids.now scope.now (rule_of c))
        (IsNoRuleAt text.now uids.now scope.now) }
{
    match scope.kind {
        0 => Ok(ActionConstraint::any()),
        1 => {
            let uid = uid_at(alloc, text, scope.uid)?;
            let rule = ActionConstraint::is_eq(alloc, uid)?;
            Ok(rule)
        }
        2 => Ok(ActionConstraint::is_eq_slot()),
        3 => {
            let uids = uids_of(alloc, text, uids)?;
            let rule = ActionConstraint::is_in(alloc, uids)?;
            Ok(rule)
        }
        4 => Ok(ActionConstraint::is_in_slot()),
        _ => Err(Reason::BadArgument),
    }
}
