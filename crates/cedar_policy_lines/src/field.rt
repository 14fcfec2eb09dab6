//! Reading of single fields.
ghost use Rattle.std.specs.Prelude.{◌≡◌, IfOk};
ghost use Rattle.std.specs.Option.{option_map};
ghost use Rattle.cedar_ids.specs.Uid.{UidParts};
ghost use Rattle.cedar_ids.specs.UidOf.{uid_parts};
ghost use Rattle.cedar_terms.specs.declared.slot.SlotId.{SlotId};
ghost use Rattle.cedar_policy_lines.specs.laws.PolicyReading.{effect_of, slots_of, renaming_of, behind, uid_read};
ghost use Rattle.cedar_policy_lines.specs.laws.PolicyReading.{binding_of};

use cedar_body::Effect;
use cedar_ids::entity::EntityUID;
use cedar_lines::known_types::{KnownTypes, uid_in};
use cedar_terms::slot::SlotId;
use std::alloc::{AllocError, Global};

// Returns the effect with this word.
pub(crate) fn effect_of(word: &str) -> Option<Effect>
    ensures { result ≡ effect_of word.now }
{
    if word == "permit" {
        return Some(Effect::Permit);
    }
    if word == "forbid" {
        return Some(Effect::Forbid);
    }
    None
}

/// The slots of a template that a line declares.
///
/// # Differences from cedar-policy-core
///
/// The original has no such type.
#[derive(Clone, Copy, Debug)]
pub enum TemplateSlots {
    /// No slots.
    NoSlots,
    /// The slot of the principal.
    OnPrincipal,
    /// The slot of the action.
    OnAction,
    /// The slot of the resource.
    OnResource,
    /// The slots of the principal and the resource.
    OnBoth,
    /// The slots of the principal, the action and the resource.
    OnAll,
}

// Returns the slots with this word.
pub(crate) fn slots_of(word: &str) -> Option<TemplateSlots>
    ensures { result ≡ slots_of word.now }
{
    if word == "none" {
        return Some(TemplateSlots::NoSlots);
    }
    if word == "principal" {
        return Some(TemplateSlots::OnPrincipal);
    }
    if word == "action" {
        return Some(TemplateSlots::OnAction);
    }
    if word == "resource" {
        return Some(TemplateSlots::OnResource);
    }
    if word == "both" {
        return Some(TemplateSlots::OnBoth);
    }
    if word == "all" {
        return Some(TemplateSlots::OnAll);
    }
    None
}

// Returns true for `rename` and false for `keep`.
pub(crate) fn renaming_of(word: &str) -> Option<bool>
    ensures { result ≡ renaming_of word.now }
{
    if word == "keep" {
        return Some(false);
    }
    if word == "rename" {
        return Some(true);
    }
    None
}

// Returns the rest of a field after this prefix.
fn behind<'a>(field: &'a str, mark: &str) -> Option<&'a str>
    ensures { option_map (λ x. x.now) result ≡ behind mark.now field.now }
{
    field.strip_prefix(mark)
}

// Returns a slot with the uid that the text represents. Reuses the buffer `room` for the eid.
fn bound_as(
    alloc: Global,
    known: &mut KnownTypes,
    room: &mut String,
    slot: SlotId,
    text: &str,
) -> Result<Option<(SlotId, EntityUID)>, AllocError>
    ensures { IfOk result (λ o. option_map {U = SlotId × UidParts} (λ b. (b.0, uid_parts b.1)) o
        ≡ option_map {U = SlotId × UidParts} (λ u. (slot, u)) (uid_read text.now)) }
{
    match uid_in(alloc, known, room, text)? {
        None => Ok(None),
        Some(uid) => Ok(Some((slot, uid))),
    }
}

// Returns the slot and the uid of a binding, for example `principal=A::"a"`. Reuses the buffer `room` for the eid.
pub(crate) fn binding_of(
    alloc: Global,
    known: &mut KnownTypes,
    room: &mut String,
    field: &str,
) -> Result<Option<(SlotId, EntityUID)>, AllocError>
    ensures { IfOk result (λ o. option_map {U = SlotId × UidParts} (λ b. (b.0, uid_parts b.1)) o
        ≡ binding_of field.now) }
{
    if let Some(text) = behind(field, "principal=") {
        return bound_as(alloc, known, room, SlotId::Principal, text);
    }
    if let Some(text) = behind(field, "action=") {
        return bound_as(alloc, known, room, SlotId::Action, text);
    }
    if let Some(text) = behind(field, "resource=") {
        return bound_as(alloc, known, room, SlotId::Resource, text);
    }
    Ok(None)
}
