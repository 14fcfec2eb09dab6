//! The reasons and texts of the errors of a policy set.
ghost use Rattle.std.specs.Prelude.{◌≡◌, ◌∷◌, ◌++◌, IfOk, Some};
ghost use Rattle.cedar_policy_set.specs.Refusals.{linking_error_of, removal_error_of, set_error_of};
ghost use Rattle.cedar_policy_set.specs.Refusals.{template_removal_error_of, unlinking_error_of};
ghost use Rattle.cedar_policy_set.specs.Steps.{not_static};
ghost use Rattle.cedar_c_lists.specs.Reasons.{words_of};
ghost use Rattle.cedar_binding.specs.BindingTexts.{arity_text};
ghost use Rattle.cedar_c_sets.specs.Sets.{IsErrorTextFor};
ghost use Rattle.cedar_c_lists.specs.Texts.{IsAsciiUid, spaced};
ghost use Rattle.cedar_c_lists.specs.declared.reason.Reason.TheVariants as reasons;

use cedar_binding::err::ArityText;
use cedar_c_lists::{Reason, push_uid};
use cedar_ids::entity::EntityUID;
use cedar_ids::policy_id::PolicyID;
use cedar_policy::{LinkingError, Template};
use cedar_policy_set::{
    PolicySetError, PolicySetPolicyRemovalError, PolicySetTemplateRemovalError,
    PolicySetUnlinkError,
};
use std::alloc::{AllocError, Global};

// A reason, and the text of an error with this reason.
#[derive(Drop)]
pub(crate) struct ErrorText {
    pub(crate) reason: Reason,
    pub(crate) text: Vec<u8>,
}

// Returns a reason and the name in its text.
pub(crate) fn named(alloc: Global, reason: Reason, name: &str) -> Result<ErrorText, AllocError>
    ensures { IfOk result (λ t. (t.reason ≡ reason) × (t.text.items ≡ words_of reason ++ (32 ∷ name.now))) }
{
    let mut text = Vec::new(alloc);
    text.extend_from_slice(reason.words().as_bytes())?;
    text.push(b' ')?;
    text.extend_from_slice(name.as_bytes())?;
    Ok(ErrorText { reason, text })
}

// Converts the error of an addition.
pub(crate) fn by_set(alloc: Global, error: &PolicySetError) -> Result<ErrorText, AllocError>
    ensures { IfOk result (λ t. IsErrorTextFor (set_error_of error.now) t.reason t.text.items) }
{
    match error {
        PolicySetError::Occupied { id } => named(alloc, Reason::Occupied, id.as_ref()),
        PolicySetError::Memory => Err(AllocError),
    }
}

// Returns the error for a template with slots that is not a static policy.
pub(crate) fn by_slot(alloc: Global, template: &Template) -> Result<ErrorText, AllocError>
    ensures { IfOk result (λ t. IsErrorTextFor (Some (not_static template.now.id)) t.reason t.text.items) }
{
    named(alloc, Reason::NotStatic, template.id().as_ref())
}

// Returns the error with the missing and the extra slots of bindings.
fn arity_error_text(alloc: Global, slots: ArityText<'_>) -> Result<ErrorText, AllocError>
    ensures { IfOk result (λ t. (t.reason ≡ reasons.Arity)
        × (t.text.items
        ≡ words_of reasons.Arity ++ (32 ∷ arity_text slots.entry.unbound.now.items slots.entry.extra.now.items))) }
{
    let name = slots.to_string(alloc)?;
    named(alloc, Reason::Arity, name.as_str())
}

// Returns the error with the uid that is not an action.
fn uid_error_text(alloc: Global, uid: &EntityUID) -> Result<ErrorText, AllocError>
    ensures { IfOk result (λ t. (t.reason ≡ reasons.NotAnAction)
        × (IsAsciiUid uid.now → t.text.items ≡ words_of reasons.NotAnAction ++ spaced uid.now)) }
{
    let mut text = Vec::new(alloc);
    text.extend_from_slice(Reason::NotAnAction.words().as_bytes())?;
    push_uid(alloc, &mut text, uid)?;
    Ok(ErrorText {
        reason: Reason::NotAnAction,
        text,
    })
}

// Converts the error of linking.
pub(crate) fn by_linking(alloc: Global, error: &LinkingError) -> Result<ErrorText, AllocError>
    ensures { IfOk result (λ t. IsErrorTextFor (linking_error_of error.now) t.reason t.text.items) }
{
    match error {
        LinkingError::ArityError {
            unbound_values,
            extra_values,
        } => arity_error_text(
            alloc,
            ArityText {
                unbound: unbound_values,
                extra: extra_values,
            },
        ),
        LinkingError::NotAnAction { uid } => uid_error_text(alloc, uid),
        LinkingError::NoSuchTemplate { id } => named(alloc, Reason::NoSuchTemplate, id.as_ref()),
        LinkingError::PolicyIdConflict { id } => named(alloc, Reason::IdConflict, id.as_ref()),
        LinkingError::Memory => Err(AllocError),
    }
}

// Converts the error of unlinking.
pub(crate) fn by_unlinking(
    alloc: Global,
    error: &PolicySetUnlinkError,
) -> Result<ErrorText, AllocError>
    ensures { IfOk result (λ t. IsErrorTextFor (unlinking_error_of error.now) t.reason t.text.items) }
{
    match error {
        PolicySetUnlinkError::UnlinkingError(id) => named(alloc, Reason::NoLink, id.as_ref()),
        PolicySetUnlinkError::NotLinkError(id) => named(alloc, Reason::NotALink, id.as_ref()),
        PolicySetUnlinkError::Memory => Err(AllocError),
    }
}

// Converts the error of removing a static policy.
pub(crate) fn by_removal(
    alloc: Global,
    error: &PolicySetPolicyRemovalError,
) -> Result<ErrorText, AllocError>
    ensures { IfOk result (λ t. IsErrorTextFor (removal_error_of error.now) t.reason t.text.items) }
{
    match error {
        PolicySetPolicyRemovalError::RemovePolicyNoLinkError(id) => {
            named(alloc, Reason::NoStatic, id.as_ref())
        }
        PolicySetPolicyRemovalError::RemovePolicyNoTemplateError(id) => {
            named(alloc, Reason::NotStatic, id.as_ref())
        }
        PolicySetPolicyRemovalError::Memory => Err(AllocError),
    }
}

// Converts the error of removing a template.
pub(crate) fn by_template_removal(
    alloc: Global,
    error: &PolicySetTemplateRemovalError,
) -> Result<ErrorText, AllocError>
    ensures { IfOk result (λ t. IsErrorTextFor (template_removal_error_of error.now) t.reason t.text.items) }
{
    match error {
        PolicySetTemplateRemovalError::RemovePolicyNoTemplateError(id) => {
            named(alloc, Reason::NoTemplate, id.as_ref())
        }
        PolicySetTemplateRemovalError::RemoveTemplateWithLinksError(id) => {
            named(alloc, Reason::WithLinks, id.as_ref())
        }
        PolicySetTemplateRemovalError::NotTemplateError(id) => {
            named(alloc, Reason::NotATemplate, id.as_ref())
        }
        PolicySetTemplateRemovalError::Memory => Err(AllocError),
    }
}
