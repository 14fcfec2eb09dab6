//! The slots of a template: collecting them from a body, and iterating over them.
ghost use Rattle.std.specs.Prelude.{◌≡◌, ◌++◌, is_some, IfOk, OnOk};
ghost use Rattle.std.specs.Iterator.{YieldsFirstRef, item_count};
ghost use Rattle.std.specs.Option.{option_copied};
ghost use Rattle.cedar_scope.specs.ScopeReads.{has_slot};
ghost use Rattle.cedar_scope.specs.Views.{constraint_of};
ghost use Rattle.cedar_scope.specs.laws.ScopeSlots.{constraint_slots};
ghost use Rattle.cedar_action.specs.RuleReads.{rule_has_slot};
ghost use Rattle.cedar_action.specs.Views.{rule_of};
ghost use Rattle.cedar_action.specs.laws.RuleSlots.{rule_slots};
ghost use Rattle.cedar_body.specs.Bodies.{body_slots, clause_slots};
ghost use Rattle.cedar_body.specs.Views.{body_of};

use cedar_action::ActionConstraint;
use cedar_body::TemplateBody;
use cedar_ids::loc::Loc;
use cedar_scope::{EntityReference, PrincipalOrResource, PrincipalOrResourceConstraint};
use cedar_terms::expr::Expr;
use cedar_terms::slot::{Slot, SlotId};
use std::alloc::{AllocError, Global};
use std::marker::Model;
use std::slice;

/// An iterator over the slots of a template, in the order of [`Template::slots`] and with repetitions. Contracts see it
/// as the list of its remaining items.
#[derive(Drop)]
pub struct Slots<'a> {
    inner: slice::Iter<'a, Slot>,
}

impl<'a> Model for Slots<'a> {
    ghost use Rattle.std.specs.Prelude.{List};
    ghost use Rattle.std.specs.Slice.Iter.{iter_rest};
    ghost use Rattle.cedar_terms.specs.declared.slot.SlotId.{SlotId};

    ghost Value = { List SlotId };

    ghost view = { λ s. iter_rest s.inner };
}

impl<'a> Slots<'a> {
    // Creates an iterator over these slots.
    pub(crate) fn of(slots: &'a [Slot]) -> Slots<'a>
        ensures { result ≡ slots.now }
    {
        Slots {
            inner: slots.iter(),
        }
    }
}

impl<'a> Iterator for Slots<'a> {
    type Item = &'a Slot;

    ghost next_gives = { YieldsFirstRef (λ s. s) };

    ghost remaining = { item_count (λ s. s) };

    fn next(&mut self) -> Option<&'a Slot> {
        self.inner.next()
    }
}

// Returns the slots of a body's condition, without building the condition: those of the clause, then the resource's,
// the action's and the principal's.
#[tactic(auto, using(crate::specs::laws::PolicySlots::slots_in_turn))]
pub(crate) fn slots_in(alloc: Global, body: &TemplateBody) -> Result<Vec<Slot>, AllocError>
    ensures { IfOk result (λ v. v.items ≡ body_slots (body_of body.now)) }
{
    let mut slots = slots_in_clause(alloc, body.non_scope_constraints())?;
    let resource = body.resource_constraint().as_inner();
    push_slot(&mut slots, PrincipalOrResource::Resource, resource)?;
    push_action_slot(&mut slots, body.action_constraint())?;
    let principal = body.principal_constraint().as_inner();
    push_slot(&mut slots, PrincipalOrResource::Principal, principal)?;
    Ok(slots)
}

// Returns the slots of a clause, if there is one.
fn slots_in_clause(alloc: Global, clause: Option<&Expr>) -> Result<Vec<Slot>, AllocError>
    ensures { IfOk result (λ v. v.items ≡ clause_slots (option_copied clause.entry)) }
{
    match clause {
        Some(clause) => clause.slots(alloc),
        None => Ok(Vec::new(alloc)),
    }
}

// Appends the slot of a variable, if the constraint refers to it. The slot gets the location of its reference.
fn push_slot(
    slots: &mut Vec<Slot>,
    v: PrincipalOrResource,
    constraint: &PrincipalOrResourceConstraint,
) -> Result<(), AllocError>
    ensures { OnOk result (slots.new.items ≡ slots.old.items ++ constraint_slots v (constraint_of constraint.now)) }
{
    if let Some(loc) = slot_at(constraint) {
        slots.push(Slot {
            id: SlotId::from(v),
            loc: loc.clone()?,
        })?;
    }
    Ok(())
}

// Appends the action's slot, if the constraint refers to it. The slot gets the location in the constraint.
fn push_action_slot(slots: &mut Vec<Slot>, constraint: &ActionConstraint) -> Result<(), AllocError>
    ensures { OnOk result (slots.new.items ≡ slots.old.items ++ rule_slots (rule_of constraint.now)) }
{
    if let Some(loc) = action_slot_at(constraint) {
        slots.push(Slot {
            id: SlotId::Action,
            loc: loc.clone()?,
        })?;
    }
    Ok(())
}

// Returns the location of the slot of an action constraint, if the constraint has a slot.
fn action_slot_at(constraint: &ActionConstraint) -> Option<&Option<Loc>>
    ensures { is_some result ≡ rule_has_slot (rule_of constraint.now) }
{
    match constraint {
        ActionConstraint::InSlot(loc) => Some(loc),
        ActionConstraint::EqSlot(loc) => Some(loc),
        ActionConstraint::Any => None,
        ActionConstraint::In(_) => None,
        ActionConstraint::Eq(_) => None,
    }
}

// Returns the location of the slot of a constraint, if the constraint has a slot.
fn slot_at(constraint: &PrincipalOrResourceConstraint) -> Option<&Option<Loc>>
    ensures { is_some result ≡ has_slot (constraint_of constraint.now) }
{
    match constraint {
        PrincipalOrResourceConstraint::In(EntityReference::Slot(loc)) => Some(loc),
        PrincipalOrResourceConstraint::Eq(EntityReference::Slot(loc)) => Some(loc),
        PrincipalOrResourceConstraint::IsIn(_, EntityReference::Slot(loc)) => Some(loc),
        PrincipalOrResourceConstraint::In(EntityReference::EUID(_)) => None,
        PrincipalOrResourceConstraint::Eq(EntityReference::EUID(_)) => None,
        PrincipalOrResourceConstraint::IsIn(_, EntityReference::EUID(_)) => None,
        PrincipalOrResourceConstraint::Any => None,
        PrincipalOrResourceConstraint::Is(_) => None,
    }
}
