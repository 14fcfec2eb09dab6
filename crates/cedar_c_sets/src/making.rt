//! Policies, templates and bindings from the numbers and texts of a caller.
ghost use Rattle.std.specs.Prelude.{◌≡◌, IfOk, MatchResult, OnOk};
ghost use Rattle.cedar_ids.specs.UidOf.{uid_parts};
ghost use Rattle.cedar_binding.specs.Views.{env_of};
ghost use Rattle.cedar_policy_lines.specs.PolicyCommand.{bound_more};
ghost use Rattle.cedar_c_sets.specs.Sets.{AreBindings, Binds, IsBoundAs, IsNoSlots, IsSlots};
ghost use Rattle.cedar_c_sets.specs.Sets.{IsUnboundAs, IsUnboundBy, template_body};

use cedar_binding::no_bindings;
use cedar_body::Effect;
use cedar_c_lists::{Reason, Span, text_at, uid_of};
use cedar_ids::entity::EntityUID;
use cedar_ids::policy_id::PolicyID;
use cedar_policy::{SlotEnv, Template};
use cedar_policy_lines::making::slotted_template;
use cedar_terms::slot::SlotId;
use std::alloc::{AllocError, Global};

/// The slots of a template.
#[derive(Clone, Copy)]
pub struct TemplateSlots {
    /// Whether there is a slot for the principal.
    pub principal: bool,
    /// Whether there is a slot for the action.
    pub action: bool,
    /// Whether there is a slot for the resource.
    pub resource: bool,
}

fn named(principal: bool, action: bool, resource: bool) -> TemplateSlots
    ensures { result ≡ record { principal = principal; action = action; resource = resource } }
{
    TemplateSlots {
        principal,
        action,
        resource,
    }
}

// Returns the slots with a number. The number is a sum: 1 for the principal, 2 for the action, 4 for the resource.
// Returns `BadArgument` for any other number.
pub(crate) fn slots_of(number: u32) -> Result<TemplateSlots, Reason>
    ensures { MatchResult result (IsSlots number) (IsNoSlots number) }
{
    match number {
        0 => Ok(named(false, false, false)),
        1 => Ok(named(true, false, false)),
        2 => Ok(named(false, true, false)),
        3 => Ok(named(true, true, false)),
        4 => Ok(named(false, false, true)),
        5 => Ok(named(true, false, true)),
        6 => Ok(named(false, true, true)),
        7 => Ok(named(true, true, true)),
        _ => Err(Reason::BadArgument),
    }
}

// Creates a template with these slots and no other constraints.
pub(crate) fn template(
    alloc: Global,
    id: PolicyID,
    effect: Effect,
    slots: TemplateSlots,
) -> Result<Template, AllocError>
    ensures { IfOk result (λ t. t ≡ template_body id effect slots) }
{
    slotted_template(
        alloc,
        id,
        effect,
        slots.principal,
        slots.action,
        slots.resource,
    )
}

// Binds a slot.
fn bind(values: &mut SlotEnv, slot: SlotId, uid: EntityUID) -> Result<(), AllocError>
    ensures { OnOk result (env_of values.new ≡ bound_more (env_of values.old) slot (uid_parts uid)) }
{
    values.insert(slot, uid)?;
    Ok(())
}

// Parses the uid in a part of a text, unless the part is empty.
fn bound_at(alloc: Global, text: &[u8], at: Span) -> Result<Option<EntityUID>, Reason>
    ensures { MatchResult result (IsBoundAs text.now at) (IsUnboundAs text.now at) }
{
    let text = text_at(text, at)?;
    if text.is_empty() {
        return Ok(None);
    }
    Ok(Some(uid_of(alloc, text)?))
}

// Binds a slot to the uid in a part of a text, unless the part is empty.
fn bind_at(
    alloc: Global,
    values: &mut SlotEnv,
    slot: SlotId,
    text: &[u8],
    at: Span,
) -> Result<(), Reason>
    ensures { MatchResult result (λ _. Binds text.now at slot (env_of values.old) (env_of values.new))
        (IsUnboundAs text.now at) }
{
    match bound_at(alloc, text, at)? {
        None => Ok(()),
        Some(uid) => Ok(bind(values, slot, uid)?),
    }
}

// Reads the bindings of principal, action and resource. The text has one part for each, which is empty if the slot is
// not bound. Returns `BadArgument` if there are not three parts, or if one is not within the text. Returns `NotAUid` if
// a part is not the text of a uid.
pub(crate) fn bindings_of(alloc: Global, text: &[u8], parts: &[Span]) -> Result<SlotEnv, Reason>
    ensures { MatchResult result (λ v. AreBindings text.now parts.now (env_of v)) (IsUnboundBy text.now parts.now) }
{
    if parts.len() != 3 {
        return Err(Reason::BadArgument);
    }
    let mut values = no_bindings(alloc);
    bind_at(alloc, &mut values, SlotId::Principal, text, parts[0])?;
    bind_at(alloc, &mut values, SlotId::Action, text, parts[1])?;
    bind_at(alloc, &mut values, SlotId::Resource, text, parts[2])?;
    Ok(values)
}
