//! The checks of a template that the parser also makes.
ghost use Rattle.std.specs.Prelude.{◌≡◌, Some};
ghost use Rattle.std.specs.Option.{option_copied};
ghost use Rattle.cedar_action.specs.RuleReads.{non_actions};
ghost use Rattle.cedar_action.specs.Views.{rule_of};
ghost use Rattle.cedar_body.specs.Bodies.{clause_slots};
ghost use Rattle.cedar_policy.specs.Validation.{clause_fault};
ghost use Rattle.cedar_policy.specs.laws.ValidationSteps.{HasNoSlot, HasOnlyActions, HasOnlyKnown, TellsFirstFault};

use crate::err::TemplateValidationError;
use cedar_action::{ActionConstraint, ActionTypesError};
use cedar_terms::err::ExprValidationError;
use cedar_terms::expr::Expr;
use std::alloc::Global;

// Returns the first error of a clause and an action constraint.
pub(crate) fn check(
    alloc: Global,
    clause: Option<&Expr>,
    action: &ActionConstraint,
) -> Result<(), TemplateValidationError>
    ensures { TellsFirstFault result (option_copied clause.entry) (rule_of action.now) }
{
    check_no_slot(alloc, clause)?;
    check_actions(alloc, action)?;
    check_calls(alloc, clause)
}

// Returns an error with the first slot of a clause, if there is one.
fn check_no_slot(alloc: Global, clause: Option<&Expr>) -> Result<(), TemplateValidationError>
    ensures { HasNoSlot result (clause_slots (option_copied clause.entry)) }
{
    match clause {
        None => Ok(()),
        Some(clause) => check_slots(alloc, clause),
    }
}

// Returns an error with the first slot of an expression, if there is one.
fn check_slots(alloc: Global, clause: &Expr) -> Result<(), TemplateValidationError>
    ensures { HasNoSlot result (clause_slots (Some clause.now)) }
{
    let slots = clause.slots(alloc)?;
    match slots.into_iter().next() {
        Some(slot) => Err(TemplateValidationError::SlotsInConditionClause(slot)),
        None => Ok(()),
    }
}

// Returns an error with the uids of an action constraint that are not actions, if there are any.
fn check_actions(alloc: Global, action: &ActionConstraint) -> Result<(), TemplateValidationError>
    ensures { HasOnlyActions result (non_actions (rule_of action.now)) }
{
    match action.check_action_types(alloc) {
        Ok(()) => Ok(()),
        Err(ActionTypesError::NotActions(euids)) => {
            Err(TemplateValidationError::InvalidActionType(euids))
        }
        Err(ActionTypesError::Memory) => Err(TemplateValidationError::Memory),
    }
}

// Returns an error with the first unknown function of a clause, if there is one.
fn check_calls(alloc: Global, clause: Option<&Expr>) -> Result<(), TemplateValidationError>
    ensures { HasOnlyKnown result (clause_fault (option_copied clause.entry)) }
{
    match clause {
        None => Ok(()),
        Some(clause) => check_expr(alloc, clause),
    }
}

// Returns an error with the first unknown function of an expression, if there is one.
fn check_expr(alloc: Global, clause: &Expr) -> Result<(), TemplateValidationError>
    ensures { HasOnlyKnown result (clause_fault (Some clause.now)) }
{
    match clause.try_validate(alloc) {
        Ok(()) => Ok(()),
        Err(ExprValidationError::Memory) => Err(TemplateValidationError::Memory),
        Err(error) => Err(TemplateValidationError::InvalidExpression(error)),
    }
}
