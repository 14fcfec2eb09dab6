//! Constructors of the policies and templates that lines declare. Their only constraints are slots.
ghost use Rattle.std.specs.Prelude.{◌≡◌, [], IfOk};
ghost use Rattle.cedar_policy_lines.specs.PolicyOutput.{slot_constraint, slot_rule, slotted_body, static_body};
ghost use Rattle.cedar_policy_lines.specs.PolicyOutput.{template_body};
ghost use Rattle.cedar_policy_lines.specs.PolicyCommand.{slots_of_word};
ghost use Rattle.cedar_action.specs.Views.{rule_of};
ghost use Rattle.cedar_binding.specs.Bindings.{is_listed_id};
ghost use Rattle.cedar_terms.specs.declared.slot.SlotId.TheVariants.{Principal, Action, Resource};

use crate::field::TemplateSlots;
use cedar_action::ActionConstraint;
use cedar_annotation::Annotations;
use cedar_body::Effect;
use cedar_ids::policy_id::PolicyID;
use cedar_policy::{StaticPolicy, Template, UnexpectedSlotError};
use cedar_scope::{PrincipalConstraint, ResourceConstraint};
use std::alloc::{AllocError, Global};
use std::rc::Rc;

/// Creates a static policy without constraints, clause and annotations.
///
/// # Errors
///
/// Returns `AllocError` if an allocation fails.
///
/// # Differences from cedar-policy-core
///
/// The original has no such function.
pub fn static_policy(
    alloc: Global,
    id: PolicyID,
    effect: Effect,
) -> Result<StaticPolicy, AllocError>
    ensures { IfOk result (λ p. p ≡ static_body id effect) }
{
    let annotations = Rc::new(alloc, Annotations::new(alloc))?;
    unconstrained(alloc, annotations, id, effect)
}

// Creates a static policy without constraints, which shares these empty annotations.
pub(crate) fn unconstrained(
    alloc: Global,
    annotations: Rc<Annotations>,
    id: PolicyID,
    effect: Effect,
) -> Result<StaticPolicy, AllocError>
    requires { annotations.value ≡ [] }
    ensures { IfOk result (λ p. p ≡ static_body id effect) }
{
    let template = Template::new_shared(
        alloc,
        id,
        None,
        annotations,
        effect,
        PrincipalConstraint::any(),
        ActionConstraint::any(),
        ResourceConstraint::any(),
        None,
    )?;
    match StaticPolicy::try_from(template) {
        Ok(policy) => Ok(policy),
        Err(UnexpectedSlotError::FoundSlot(_slot)) => unreachable!(),
        Err(UnexpectedSlotError::Memory) => Err(AllocError),
    }
}

// Returns whether the slots include the principal's.
fn on_principal(slots: TemplateSlots) -> bool
    ensures { result ≡ is_listed_id (slots_of_word slots) Principal }
{
    match slots {
        TemplateSlots::NoSlots => false,
        TemplateSlots::OnPrincipal => true,
        TemplateSlots::OnAction => false,
        TemplateSlots::OnResource => false,
        TemplateSlots::OnBoth => true,
        TemplateSlots::OnAll => true,
    }
}

// Returns whether the slots include the action's.
fn on_action(slots: TemplateSlots) -> bool
    ensures { result ≡ is_listed_id (slots_of_word slots) Action }
{
    match slots {
        TemplateSlots::NoSlots => false,
        TemplateSlots::OnPrincipal => false,
        TemplateSlots::OnAction => true,
        TemplateSlots::OnResource => false,
        TemplateSlots::OnBoth => false,
        TemplateSlots::OnAll => true,
    }
}

// Returns whether the slots include the resource's.
fn on_resource(slots: TemplateSlots) -> bool
    ensures { result ≡ is_listed_id (slots_of_word slots) Resource }
{
    match slots {
        TemplateSlots::NoSlots => false,
        TemplateSlots::OnPrincipal => false,
        TemplateSlots::OnAction => false,
        TemplateSlots::OnResource => true,
        TemplateSlots::OnBoth => true,
        TemplateSlots::OnAll => true,
    }
}

// Returns the constraint that the principal equals its slot, or no constraint if the slot is not named.
fn principal_of(named: bool) -> PrincipalConstraint
    ensures { result ≡ slot_constraint named }
{
    if named {
        return PrincipalConstraint::is_eq_slot();
    }
    PrincipalConstraint::any()
}

// Returns the constraint that the action equals its slot, or no constraint if the slot is not named.
fn action_of(named: bool) -> ActionConstraint
    ensures { rule_of result ≡ slot_rule named }
{
    if named {
        return ActionConstraint::is_eq_slot();
    }
    ActionConstraint::any()
}

// Returns the constraint that the resource equals its slot, or no constraint if the slot is not named.
fn resource_of(named: bool) -> ResourceConstraint
    ensures { result ≡ slot_constraint named }
{
    if named {
        return ResourceConstraint::is_eq_slot();
    }
    ResourceConstraint::any()
}

/// Creates a template whose principal, action and resource have to equal their slots. A flag that is false leaves its
/// part without a constraint. The template has no clause and no annotations.
///
/// # Errors
///
/// Returns `AllocError` if an allocation fails.
///
/// # Differences from cedar-policy-core
///
/// The original has no such function.
pub fn slotted_template(
    alloc: Global,
    id: PolicyID,
    effect: Effect,
    on_principal: bool,
    on_action: bool,
    on_resource: bool,
) -> Result<Template, AllocError>
    ensures { IfOk result (λ t. t ≡ slotted_body id effect on_principal on_action on_resource) }
{
    Template::new(
        alloc,
        id,
        None,
        Annotations::new(alloc),
        effect,
        principal_of(on_principal),
        action_of(on_action),
        resource_of(on_resource),
        None,
    )
}

// Creates a template with the effect `permit` and these slots, which shares these empty annotations.
pub(crate) fn template(
    alloc: Global,
    annotations: Rc<Annotations>,
    id: PolicyID,
    slots: TemplateSlots,
) -> Result<Template, AllocError>
    requires { annotations.value ≡ [] }
    ensures { IfOk result (λ t. t ≡ template_body id slots) }
{
    Template::new_shared(
        alloc,
        id,
        None,
        annotations,
        Effect::Permit,
        principal_of(on_principal(slots)),
        action_of(on_action(slots)),
        resource_of(on_resource(slots)),
        None,
    )
}
