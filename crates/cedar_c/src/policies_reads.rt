//! Calls that read the policy set of a handle: the policy or template with an id, texts, and validation.
ghost use Rattle.std.specs.Prelude.{◌≡◌};
ghost use Rattle.cedar_c_sets.specs.Reads.{AnswersAnnotation, AnswersAt, AnswersLinked, AnswersText, AreAnnotations};
ghost use Rattle.cedar_c_sets.specs.Reads.{AreBoundIn, ReadsAt, IsBodyText, IsEffectOf, IsPolicyText, IsSlotsOf};
ghost use Rattle.cedar_c_sets.specs.Reads.{IsTemplateId, KindAt, body_at, bound_body, policy_at};
ghost use Rattle.cedar_c_sets.specs.Unknowns.{AreUnknownIn};
ghost use Rattle.cedar_c_sets.specs.Validity.{Validates};
ghost use Rattle.cedar_c.specs.PolicyCalls.{Changes};
ghost use Rattle.cedar_c.specs.PolicyReads.{ChangesAndReports, CountsHandle};

use crate::handles::{CLOSED, on_open};
use crate::policies::{Policies, opened, take};
use cedar_c_lists::{status_of, write_bool, write_result};
use std::alloc::Global;

/// Writes the kind of an id to `told`: 1 for a static policy, 2 for a link, 3 for a template, and 0 if the id is not in
/// use.
///
/// # Status
///
/// - `Closed`: the handle is closed.
/// - `NotUtf8`: the id is not UTF-8.
/// - `NoMemory`: an allocation failed.
///
/// After an error nothing is written.
#[unsafe(no_mangle)]
pub extern "C" fn cedar_policies_get(
    alloc: Global,
    handle: &mut Policies,
    id: &[u8],
    told: &mut u32,
) -> u32
    ensures same { handle.new.held.value ≡ handle.old.held.value }
    ensures tells { CountsHandle (λ b r. KindAt b id.now r) handle.old.held.value result told.old told.new }
{
    on_open!(in alloc; handle, CLOSED, |state| write_result(state.kind(alloc, id), told))
}

/// Writes the effect of the policy or template with an id to `told`: 0 is permit, 1 is forbid.
///
/// # Status
///
/// - `Closed`: the handle is closed.
/// - `NotUtf8`: the id is not UTF-8.
/// - `NoBody`: the id is not in use.
/// - `NoMemory`: an allocation failed.
///
/// After an error nothing is written.
#[unsafe(no_mangle)]
pub extern "C" fn cedar_policies_effect(
    alloc: Global,
    handle: &mut Policies,
    id: &[u8],
    told: &mut u32,
) -> u32
    ensures same { handle.new.held.value ≡ handle.old.held.value }
    ensures tells { CountsHandle (λ b r. ReadsAt bound_body IsEffectOf b id.now r)
        handle.old.held.value result told.old told.new }
{
    on_open!(in alloc; handle, CLOSED, |state| write_result(state.effect(alloc, id), told))
}

/// Writes the slots of the static policy or the template with an id to `told`, as a sum: 1 for the principal, 2 for the
/// action, 4 for the resource.
///
/// # Status
///
/// - `Closed`: the handle is closed.
/// - `NotUtf8`: the id is not UTF-8.
/// - `NoBody`: there is no body with the id.
/// - `NoMemory`: an allocation failed.
///
/// After an error nothing is written.
#[unsafe(no_mangle)]
pub extern "C" fn cedar_policies_slots(
    alloc: Global,
    handle: &mut Policies,
    id: &[u8],
    told: &mut u32,
) -> u32
    ensures same { handle.new.held.value ≡ handle.old.held.value }
    ensures tells { CountsHandle (λ b r. ReadsAt body_at IsSlotsOf b id.now r)
        handle.old.held.value result told.old told.new }
{
    on_open!(in alloc; handle, CLOSED, |state| write_result(state.slots(alloc, id), told))
}

/// Writes to `has` whether the policy or template with an id has an annotation with a key. Stores its value as the
/// result, which becomes empty if there is none.
///
/// # Status
///
/// - `Closed`: the handle is closed.
/// - `NotUtf8`: the id is not UTF-8.
/// - `NotAName`: the key is not an identifier.
/// - `NoBody`: the id is not in use.
/// - `NoMemory`: an allocation failed.
///
/// After an error nothing has changed.
#[unsafe(no_mangle)]
pub extern "C" fn cedar_policies_annotation(
    alloc: Global,
    handle: &mut Policies,
    id: &[u8],
    key: &[u8],
    has: &mut bool,
) -> u32
    ensures { ChangesAndReports (AnswersAnnotation id.now key.now)
        handle.old.held.value result handle.new.held.value has.old has.new }
{
    on_open!(in alloc; handle, CLOSED, |state| write_bool(state.annotation(alloc, id, key), has))
}

/// Stores the annotations of the policy or template with an id as the result, in order of key: each key, followed by
/// its value.
///
/// # Status
///
/// - `Closed`: the handle is closed.
/// - `NotUtf8`: the id is not UTF-8.
/// - `NoBody`: the id is not in use.
/// - `NoMemory`: an allocation failed.
///
/// After an error nothing has changed.
#[unsafe(no_mangle)]
pub extern "C" fn cedar_policies_annotations(alloc: Global, handle: &mut Policies, id: &[u8]) -> u32
    ensures { Changes (AnswersAt bound_body AreAnnotations id.now) handle.old.held.value result handle.new.held.value }
{
    on_open!(in alloc; handle, CLOSED, |state| status_of(state.annotations(alloc, id)))
}

/// Stores the bindings of the policy with an id as the result: three texts, for principal, action and resource. A text
/// is empty if its slot is not bound.
///
/// # Status
///
/// - `Closed`: the handle is closed.
/// - `NotUtf8`: the id is not UTF-8.
/// - `NoBody`: there is no policy with the id.
/// - `NoMemory`: an allocation failed.
///
/// After an error nothing has changed.
#[unsafe(no_mangle)]
pub extern "C" fn cedar_policies_env(alloc: Global, handle: &mut Policies, id: &[u8]) -> u32
    ensures { Changes (AnswersAt policy_at AreBoundIn id.now) handle.old.held.value result handle.new.held.value }
{
    on_open!(in alloc; handle, CLOSED, |state| status_of(state.env(alloc, id)))
}

/// Stores the id of the template of the policy with an id as the result. For a static policy it is its own id.
///
/// # Status
///
/// - `Closed`: the handle is closed.
/// - `NotUtf8`: the id is not UTF-8.
/// - `NoBody`: there is no policy with the id.
/// - `NoMemory`: an allocation failed.
///
/// After an error nothing has changed.
#[unsafe(no_mangle)]
pub extern "C" fn cedar_policies_template_id(alloc: Global, handle: &mut Policies, id: &[u8]) -> u32
    ensures { Changes (AnswersAt policy_at IsTemplateId id.now) handle.old.held.value result handle.new.held.value }
{
    on_open!(in alloc; handle, CLOSED, |state| status_of(state.template_id(alloc, id)))
}

/// Stores the ids of the policies that use the static policy or the template with an id as the result, in order.
///
/// # Status
///
/// - `Closed`: the handle is closed.
/// - `NotUtf8`: the id is not UTF-8.
/// - `NoBody`: there is no body with the id.
/// - `NoMemory`: an allocation failed.
///
/// After an error nothing has changed.
#[unsafe(no_mangle)]
pub extern "C" fn cedar_policies_linked(alloc: Global, handle: &mut Policies, id: &[u8]) -> u32
    ensures { Changes (AnswersLinked id.now) handle.old.held.value result handle.new.held.value }
{
    on_open!(in alloc; handle, CLOSED, |state| status_of(state.linked(alloc, id)))
}

/// Stores the uids of the unknowns in the condition of the policy with an id as the result: ascending, each once.
///
/// # Status
///
/// - `Closed`: the handle is closed.
/// - `NotUtf8`: the id is not UTF-8.
/// - `NoBody`: there is no policy with the id.
/// - `NoMemory`: an allocation failed.
///
/// After an error nothing has changed.
#[unsafe(no_mangle)]
pub extern "C" fn cedar_policies_unknown_entities(
    alloc: Global,
    handle: &mut Policies,
    id: &[u8],
) -> u32
    ensures { Changes (AnswersAt policy_at AreUnknownIn id.now) handle.old.held.value result handle.new.held.value }
{
    on_open!(in alloc; handle, CLOSED, |state| status_of(state.unknown_entities(alloc, id)))
}

/// Validates a copy of the set, as `PolicySet::try_validate` does. The first fault determines the status.
///
/// # Status
///
/// - `Closed`: the handle is closed.
/// - `SlotlessLink`: a link has a template without slots.
/// - `SlotInClause`: the clause of a body has a slot.
/// - `NotActions`: the action constraint of a body has a uid that is not an action.
/// - `UnknownFunction`: the clause of a body calls an unknown function.
/// - `NoMemory`: an allocation failed.
///
/// After an error only the text of the last error can have changed.
#[unsafe(no_mangle)]
pub extern "C" fn cedar_policies_validate(alloc: Global, handle: &mut Policies) -> u32
    ensures { Changes Validates handle.old.held.value result handle.new.held.value }
{
    on_open!(in alloc; handle, CLOSED, |state| status_of(state.validate(alloc)))
}

/// Stores the text of the set, from its `Display`, as the result.
///
/// # Status
///
/// - `Closed`: the handle is closed.
/// - `NoMemory`: an allocation failed.
///
/// After an error nothing has changed.
#[unsafe(no_mangle)]
pub extern "C" fn cedar_policies_text(alloc: Global, handle: &mut Policies) -> u32
    ensures { Changes AnswersText handle.old.held.value result handle.new.held.value }
{
    on_open!(in alloc; handle, CLOSED, |state| status_of(state.text(alloc)))
}

/// Stores the text of the policy with an id, from its `Display`, as the result.
///
/// # Status
///
/// - `Closed`: the handle is closed.
/// - `NotUtf8`: the id is not UTF-8.
/// - `NoBody`: there is no policy with the id.
/// - `NoMemory`: an allocation failed.
///
/// After an error nothing has changed.
#[unsafe(no_mangle)]
pub extern "C" fn cedar_policies_policy_text(alloc: Global, handle: &mut Policies, id: &[u8]) -> u32
    ensures { Changes (AnswersAt policy_at IsPolicyText id.now) handle.old.held.value result handle.new.held.value }
{
    on_open!(in alloc; handle, CLOSED, |state| status_of(state.policy_text(alloc, id)))
}

/// Stores the text of the static policy or the template with an id, from its `Display`, as the result.
///
/// # Status
///
/// - `Closed`: the handle is closed.
/// - `NotUtf8`: the id is not UTF-8.
/// - `NoBody`: there is no body with the id.
/// - `NoMemory`: an allocation failed.
///
/// After an error nothing has changed.
#[unsafe(no_mangle)]
pub extern "C" fn cedar_policies_template_text(
    alloc: Global,
    handle: &mut Policies,
    id: &[u8],
) -> u32
    ensures { Changes (AnswersAt body_at IsBodyText id.now) handle.old.held.value result handle.new.held.value }
{
    on_open!(in alloc; handle, CLOSED, |state| status_of(state.template_text(alloc, id)))
}
