//! Calls on handles of policy sets.
ghost use Rattle.std.specs.Prelude.{◌≡◌, ◌≢◌, Option, Some, None};
ghost use Rattle.std.specs.Option.{is_some, option_map};
ghost use Rattle.cedar_policy_maps.specs.PolicySets.{empty_set};
ghost use Rattle.cedar_policy_set.specs.Steps.{remove_static_step, remove_template_step, unlink_step};
ghost use Rattle.cedar_c_sets.specs.Sets.{AddsStatic, AddsTemplate, CopiesSet, Links, ListsIds, MergesSet, RemovesById};
ghost use Rattle.cedar_c.specs.Statuses.{ok, no_memory};
ghost use Rattle.cedar_c.specs.PolicyCalls.{Boxes, Changes, ChangesBy, Compares, CopiesResult, CopiesErrorText};
ghost use Rattle.cedar_c.specs.PolicyCalls.{CopiesSpans, Fills, FillsBy, HasSet, HasNoTexts};

use crate::copying::copy_out;
use crate::handles::{CLOSED, on_both, on_open};
use crate::keys::hasher_of;
use crate::policies_handle::{Held, Inner};
use cedar_c_lists::{Reason, Span, status_of};
use cedar_c_sets::SetState;
use cedar_keyed_hash::KeyedState;
use std::alloc::Global;
use std::boxed::Box;
use std::mem;

/// A handle of a policy set. Zeroed memory is a closed handle.
#[repr(C)]
#[derive(Drop)]
pub struct Policies {
    pub(crate) held: Held,
    is_open: bool,
    ghost agrees: { is_open ≡ is_some held.value },
}

// Creates a closed handle.
fn closed(alloc: Global) -> Policies
    ensures { result.held.value ≡ None }
{
    Policies {
        held: Held::none(alloc),
        is_open: false,
    }
}

// Creates an open handle.
pub(crate) fn opened(inner: Box<Inner, Global>) -> Policies
    ensures { result.held.value ≡ Some inner.value }
{
    Policies {
        held: Held::of(inner),
        is_open: true,
    }
}

// Takes the contents of a handle, and closes it.
pub(crate) fn take(alloc: Global, handle: &mut Policies) -> Option<Box<Inner, Global>>
    ensures closed { handle.new.held.value ≡ None }
    ensures value { option_map (λ b. b.value) result ≡ handle.old.held.value }
{
    let old = mem::replace(handle, closed(alloc));
    if old.is_open {
        Some(old.held.into_box())
    } else {
        None
    }
}

// Moves a result to a box.
fn boxed(
    alloc: Global,
    made: Result<SetState<KeyedState>, Reason>,
) -> Result<Box<Inner, Global>, Reason>
    ensures { Boxes made result }
{
    let kept = made?;
    Ok(Box::new(alloc, Inner { kept })?)
}

// Fills a handle with a result, and frees its old contents. After an error the handle is unchanged. Returns the status.
pub(crate) fn fill(
    alloc: Global,
    handle: &mut Policies,
    made: Result<SetState<KeyedState>, Reason>,
) -> u32
    ensures { FillsBy made handle.old.held.value result handle.new.held.value }
{
    match boxed(alloc, made) {
        Err(reason) => reason.number(),
        Ok(inner) => {
            drop(take(alloc, handle));
            *handle = opened(inner);
            0
        }
    }
}

/// Opens the handle with an empty policy set, which uses the two numbers as the key of its hash maps. Frees the old
/// contents of the handle.
///
/// # Status
///
/// - `NoMemory`: an allocation failed.
///
/// After an error the handle is unchanged.
#[unsafe(no_mangle)]
pub extern "C" fn cedar_policies_new(
    alloc: Global,
    handle: &mut Policies,
    seed: u64,
    key: u64,
) -> u32
    ensures new { result ≡ ok → HasSet empty_set handle.new.held.value }
    ensures untold { result ≡ ok → HasNoTexts handle.new.held.value }
    ensures err { result ≢ ok → (result ≡ no_memory) × (handle.new.held.value ≡ handle.old.held.value) }
{
    let state = SetState::new(alloc, hasher_of(seed, key));
    fill(alloc, handle, Ok(state))
}

/// Frees the contents of the handle, and closes it. A closed handle stays closed.
#[unsafe(no_mangle)]
pub extern "C" fn cedar_policies_free(alloc: Global, handle: &mut Policies)
    ensures { handle.new.held.value ≡ None }
{
    drop(take(alloc, handle));
}

/// Adds a static policy without constraints, with these bytes as its id and the effect with this number.
///
/// # Status
///
/// - `Closed`: the handle is closed.
/// - `BadArgument`: the number of the effect is invalid.
/// - `NotUtf8`: the id is not UTF-8.
/// - `Occupied`: the id is already in use.
/// - `NoMemory`: an allocation failed.
///
/// After an error only the text of the last error can have changed.
#[unsafe(no_mangle)]
pub extern "C" fn cedar_policies_add_static(
    alloc: Global,
    handle: &mut Policies,
    id: &[u8],
    effect: u32,
) -> u32
    ensures { Changes (AddsStatic id.now effect) handle.old.held.value result handle.new.held.value }
{
    on_open!(in alloc; handle, CLOSED, |state| status_of(state.add_static(alloc, id, effect)))
}

/// Adds a template with these bytes as its id, the effect with a number, and the slots with a number. Its only
/// constraints are `==` with these slots. It has no clause and no annotations.
///
/// # Status
///
/// - `Closed`: the handle is closed.
/// - `BadArgument`: the number of the effect or of the slots is invalid.
/// - `NotUtf8`: the id is not UTF-8.
/// - `Occupied`: the id is already in use.
/// - `NoMemory`: an allocation failed.
///
/// After an error only the text of the last error can have changed.
#[unsafe(no_mangle)]
pub extern "C" fn cedar_policies_add_template(
    alloc: Global,
    handle: &mut Policies,
    id: &[u8],
    effect: u32,
    slots: u32,
) -> u32
    ensures { Changes (AddsTemplate id.now effect slots) handle.old.held.value result handle.new.held.value }
{
    on_open!(in alloc; handle, CLOSED, |state| status_of(state.add_template(alloc, id, effect, slots)))
}

/// Links the template with an id. The link gets another id, and the bindings in three parts of a text: principal,
/// action and resource. An empty part binds nothing.
///
/// # Status
///
/// - `Closed`: the handle is closed.
/// - `BadArgument`: there are not three spans, or a span is not within the text.
/// - `NotAUid`: a uid is invalid.
/// - `NotUtf8`: an id is not UTF-8.
/// - `NoSuchTemplate`: there is no template with the id.
/// - `Arity`: the bindings do not match the slots of the template.
/// - `NotAnAction`: the slot of the action is bound to a uid that is not an action.
/// - `IdConflict`: the id of the link is already in use.
/// - `NoMemory`: an allocation failed.
///
/// After an error only the text of the last error can have changed.
#[unsafe(no_mangle)]
pub extern "C" fn cedar_policies_link(
    alloc: Global,
    handle: &mut Policies,
    template: &[u8],
    id: &[u8],
    text: &[u8],
    values: &[Span],
) -> u32
    ensures { Changes (Links template.now id.now text.now values.now)
        handle.old.held.value result handle.new.held.value }
{
    on_open!(in alloc; handle, CLOSED, |state| status_of(state.link(alloc, template, id, text, values)))
}

/// Removes the link with an id.
///
/// # Status
///
/// - `Closed`: the handle is closed.
/// - `NotUtf8`: the id is not UTF-8.
/// - `NoLink`: the id is not in use.
/// - `NotALink`: the id is not the id of a link.
/// - `NoMemory`: an allocation failed.
///
/// After an error only the text of the last error can have changed.
#[unsafe(no_mangle)]
pub extern "C" fn cedar_policies_unlink(alloc: Global, handle: &mut Policies, id: &[u8]) -> u32
    ensures { Changes (RemovesById unlink_step id.now) handle.old.held.value result handle.new.held.value }
{
    on_open!(in alloc; handle, CLOSED, |state| status_of(state.unlink(alloc, id)))
}

/// Removes the static policy with an id.
///
/// # Status
///
/// - `Closed`: the handle is closed.
/// - `NotUtf8`: the id is not UTF-8.
/// - `NoStatic`: there is no policy with the id.
/// - `NotStatic`: the id is the id of a link.
/// - `NoMemory`: an allocation failed.
///
/// After an error only the text of the last error can have changed.
#[unsafe(no_mangle)]
pub extern "C" fn cedar_policies_remove_static(
    alloc: Global,
    handle: &mut Policies,
    id: &[u8],
) -> u32
    ensures { Changes (RemovesById remove_static_step id.now) handle.old.held.value result handle.new.held.value }
{
    on_open!(in alloc; handle, CLOSED, |state| status_of(state.remove_static(alloc, id)))
}

/// Removes the template with an id.
///
/// # Status
///
/// - `Closed`: the handle is closed.
/// - `NotUtf8`: the id is not UTF-8.
/// - `NoTemplate`: the id is not in use.
/// - `WithLinks`: the template has links.
/// - `NotATemplate`: the id is not the id of a template.
/// - `NoMemory`: an allocation failed.
///
/// After an error only the text of the last error can have changed.
#[unsafe(no_mangle)]
pub extern "C" fn cedar_policies_remove_template(
    alloc: Global,
    handle: &mut Policies,
    id: &[u8],
) -> u32
    ensures { Changes (RemovesById remove_template_step id.now) handle.old.held.value result handle.new.held.value }
{
    on_open!(in alloc; handle, CLOSED, |state| status_of(state.remove_template(alloc, id)))
}

/// Merges another set into this one, as `PolicySet::merge_policyset` does. Stores each renamed id, followed by its new
/// id, as the result.
///
/// # Status
///
/// - `Closed`: one of the handles is closed.
/// - `Occupied`: both sets use an id differently, and `rename` is false.
/// - `NoMemory`: an allocation failed.
///
/// After an error only the text of the last error can have changed.
#[unsafe(no_mangle)]
pub extern "C" fn cedar_policies_merge(
    alloc: Global,
    handle: &mut Policies,
    other: &mut Policies,
    rename: bool,
) -> u32
    ensures same { other.new.held.value ≡ other.old.held.value }
    ensures merges { ChangesBy
        (λ b r i j. MergesSet b rename r i j) other.old.held.value handle.old.held.value result handle.new.held.value }
{
    on_both!(in alloc; handle, other, |state, beside| status_of(state.merge(alloc, beside, rename)))
}

/// Stores the ids of the bodies (`kind` 0) or of the policies (`kind` 1) as the result, in order.
///
/// # Status
///
/// - `Closed`: the handle is closed.
/// - `BadArgument`: the number of the kind is invalid.
/// - `NoMemory`: an allocation failed.
///
/// After an error nothing has changed.
#[unsafe(no_mangle)]
pub extern "C" fn cedar_policies_ids(alloc: Global, handle: &mut Policies, kind: u32) -> u32
    ensures { Changes (ListsIds kind) handle.old.held.value result handle.new.held.value }
{
    on_open!(in alloc; handle, CLOSED, |state| status_of(state.ids(alloc, kind)))
}

/// Fills the handle `to` with a copy of the policy set of `from`. The copy has no result and no last error.
///
/// # Status
///
/// - `Closed`: the handle `from` is closed.
/// - `NoMemory`: an allocation failed.
///
/// After an error both handles are unchanged.
#[unsafe(no_mangle)]
pub extern "C" fn cedar_policies_copy(alloc: Global, from: &mut Policies, to: &mut Policies) -> u32
    ensures same { from.new.held.value ≡ from.old.held.value }
    ensures fills { Fills CopiesSet from.old.held.value result to.old.held.value to.new.held.value }
{
    on_open!(in alloc; from, CLOSED, |state| fill(alloc, to, state.copy(alloc)))
}

/// Writes to `out` whether both sets have equal bodies and policies, in the same order.
///
/// # Status
///
/// - `Closed`: one of the handles is closed.
///
/// After an error nothing is written.
#[unsafe(no_mangle)]
pub extern "C" fn cedar_policies_equal(
    alloc: Global,
    one: &mut Policies,
    other: &mut Policies,
    out: &mut bool,
) -> u32
    ensures one { one.new.held.value ≡ one.old.held.value }
    ensures other { other.new.held.value ≡ other.old.held.value }
    ensures compares { Compares one.old.held.value other.old.held.value result out.old out.new }
{
    on_both!(in alloc; one, other, |state, beside| {
        *out = state.is_equal(beside);
        0
    })
}

/// Copies the bytes of the result, from position `from` on, as many as fit. Returns the number of all bytes, which is 0
/// for a closed handle.
#[unsafe(no_mangle)]
pub extern "C" fn cedar_policies_result(
    alloc: Global,
    handle: &mut Policies,
    from: usize,
    out: &mut [u8],
) -> usize
    ensures same { handle.new.held.value ≡ handle.old.held.value }
    ensures copies { CopiesResult handle.old.held.value from out.old result out.new }
{
    on_open!(in alloc; handle, 0, |state| copy_out(state.answer.bytes(), from, out))
}

/// Copies the spans of the texts of the result within its bytes, from the text at position `from` on, as many as fit.
/// Returns the number of all texts, which is 0 for a closed handle.
#[unsafe(no_mangle)]
pub extern "C" fn cedar_policies_result_spans(
    alloc: Global,
    handle: &mut Policies,
    from: usize,
    out: &mut [Span],
) -> usize
    ensures same { handle.new.held.value ≡ handle.old.held.value }
    ensures copies { CopiesSpans handle.old.held.value from out.old result out.new }
{
    on_open!(in alloc; handle, 0, |state| copy_out(state.answer.spans(), from, out))
}

/// Copies the text of the last error of a call on the set, as much as fits. Returns the length of the whole text, which
/// is 0 for a closed handle.
#[unsafe(no_mangle)]
pub extern "C" fn cedar_policies_error_text(
    alloc: Global,
    handle: &mut Policies,
    out: &mut [u8],
) -> usize
    ensures same { handle.new.held.value ≡ handle.old.held.value }
    ensures copies { CopiesErrorText handle.old.held.value out.old result out.new }
{
    on_open!(in alloc; handle, 0, |state| copy_out(&state.refusal, 0, out))
}
