//! Deep copies of policy sets, which can be sent to another thread, and merging of such copies.
ghost use Rattle.std.specs.Prelude.{◌≡◌};
ghost use Rattle.cedar_c_sets.specs.Sets.{CopiesSet, MergesSet};
ghost use Rattle.cedar_c.specs.PolicyCalls.{ChangesBy, Fills};

use crate::handles::{CLOSED, on_both, on_open};
use crate::policies::{Policies, fill, opened, take};
use cedar_c_lists::status_of;
use std::alloc::Global;

/// Fills the handle `to` with a deep copy of the policy set of `from`, which shares nothing with it.
///
/// # Status
///
/// - `Closed`: the handle `from` is closed.
/// - `NoMemory`: an allocation failed.
///
/// After an error both handles are unchanged.
#[unsafe(no_mangle)]
pub extern "C" fn cedar_policies_deep_copy(
    alloc: Global,
    from: &mut Policies,
    to: &mut Policies,
) -> u32
    ensures same { from.new.held.value ≡ from.old.held.value }
    ensures fills { Fills CopiesSet from.old.held.value result to.old.held.value to.new.held.value }
{
    on_open!(in alloc; from, CLOSED, |state| fill(alloc, to, state.deep_copy(alloc)))
}

/// Merges a deep copy of another set into this one, as `cedar_policies_merge` does. Stores each renamed id, followed by
/// its new id, as the result. The result shares nothing with the other set.
///
/// # Status
///
/// - `Closed`: one of the handles is closed.
/// - `Occupied`: both sets use an id differently, and `rename` is false.
/// - `NoMemory`: an allocation failed.
///
/// After an error only the text of the last error can have changed.
#[unsafe(no_mangle)]
pub extern "C" fn cedar_policies_merge_deep_copy(
    alloc: Global,
    handle: &mut Policies,
    other: &mut Policies,
    rename: bool,
) -> u32
    ensures same { other.new.held.value ≡ other.old.held.value }
    ensures merges { ChangesBy
        (λ b r i j. MergesSet b rename r i j) other.old.held.value handle.old.held.value result handle.new.held.value }
{
    on_both!(in alloc; handle, other, |state, beside| status_of(state.merge_deep_copy(alloc, beside, rename)))
}
