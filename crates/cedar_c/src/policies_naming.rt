//! Calls that list the policies and templates of a handle that name a uid.
ghost use Rattle.cedar_c_sets.specs.Naming.{AnswersNaming, policies_naming, templates_naming};
ghost use Rattle.cedar_c.specs.PolicyCalls.{Changes};

use crate::handles::{CLOSED, on_open};
use crate::policies::{Policies, opened, take};
use cedar_c_lists::status_of;
use std::alloc::Global;

/// Stores the ids of the policies, static policies and links, that name a uid as the result, in the order of the set. A
/// policy names a uid if its scope constraints, its bindings or its clause contain it.
///
/// # Status
///
/// - `Closed`: the handle is closed.
/// - `NotAUid`: the uid is invalid.
/// - `NoMemory`: an allocation failed.
///
/// After an error nothing has changed.
#[unsafe(no_mangle)]
pub extern "C" fn cedar_policies_naming(alloc: Global, handle: &mut Policies, uid: &[u8]) -> u32
    ensures { Changes (AnswersNaming policies_naming uid.now)
        handle.old.held.value result handle.new.held.value }
{
    on_open!(in alloc; handle, CLOSED, |state| status_of(state.naming(alloc, uid)))
}

/// Stores the ids of the templates with slots that name a uid as the result, with or without links, in the order of the
/// set. A template names a uid if its scope constraints or its clause contain it.
///
/// # Status
///
/// - `Closed`: the handle is closed.
/// - `NotAUid`: the uid is invalid.
/// - `NoMemory`: an allocation failed.
///
/// After an error nothing has changed.
#[unsafe(no_mangle)]
pub extern "C" fn cedar_policies_templates_naming(
    alloc: Global,
    handle: &mut Policies,
    uid: &[u8],
) -> u32
    ensures { Changes (AnswersNaming templates_naming uid.now)
        handle.old.held.value result handle.new.held.value }
{
    on_open!(in alloc; handle, CLOSED, |state| status_of(state.templates_naming(alloc, uid)))
}
