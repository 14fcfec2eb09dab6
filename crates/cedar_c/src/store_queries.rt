//! Calls that return the descendants of a uid in the store of a handle, and the paths between two uids.
ghost use Rattle.std.specs.Prelude.{◌≡◌};
ghost use Rattle.cedar_c_stores.specs.Queries.{AnswersDescendants, AnswersDescendantsOfType, AnswersPath, ReadsReach};
ghost use Rattle.cedar_c.specs.StoreCalls.{Changes, ReadsBoolOfStore};
ghost use Rattle.cedar_c.specs.StoreValues.{GetsFrom};

use crate::handles::{CLOSED, on_open};
use crate::store::{Store, opened, take};
use cedar_c_lists::{status_of, write_bool};
use std::alloc::Global;

/// Stores the descendants of a uid as the result, in ascending order of uid: the uids of all entities that reach it over
/// one or more parents.
///
/// # Status
///
/// - `Closed`: the handle is closed.
/// - `NotAUid`: the uid is invalid.
/// - `NoMemory`: an allocation failed.
///
/// After an error nothing has changed.
#[unsafe(no_mangle)]
pub extern "C" fn cedar_store_descendants(alloc: Global, handle: &mut Store, uid: &[u8]) -> u32
    ensures { Changes (AnswersDescendants uid.now) handle.old.held.value result handle.new.held.value }
{
    on_open!(in alloc; handle, CLOSED, |state| status_of(state.descendants(alloc, uid)))
}

/// Stores the descendants of a uid that have a type as the result, in ascending order of uid.
///
/// # Status
///
/// - `Closed`: the handle is closed.
/// - `NotAUid`: the uid is invalid.
/// - `NotAName`: the type is invalid.
/// - `NoMemory`: an allocation failed.
///
/// After an error nothing has changed.
#[unsafe(no_mangle)]
pub extern "C" fn cedar_store_descendants_of_type(
    alloc: Global,
    handle: &mut Store,
    uid: &[u8],
    ty: &[u8],
) -> u32
    ensures { Changes (AnswersDescendantsOfType uid.now ty.now)
        handle.old.held.value result handle.new.held.value }
{
    on_open!(in alloc; handle, CLOSED, |state| status_of(state.descendants_of_type(alloc, uid, ty)))
}

/// Writes to `has` whether there is a path over one or more parents from one uid to another. Stores a shortest path as
/// the result: the two uids and all uids between them, in order. Without a path, the result has no text.
///
/// # Status
///
/// - `Closed`: the handle is closed.
/// - `NotAUid`: a uid is invalid.
/// - `NoMemory`: an allocation failed.
///
/// After an error nothing has changed, and nothing is written.
#[unsafe(no_mangle)]
pub extern "C" fn cedar_store_path(
    alloc: Global,
    handle: &mut Store,
    from: &[u8],
    to: &[u8],
    has: &mut bool,
) -> u32
    ensures { GetsFrom (AnswersPath from.now to.now)
        handle.old.held.value result handle.new.held.value has.old has.new }
{
    on_open!(in alloc; handle, CLOSED, |state| write_bool(state.path(alloc, from, to), has))
}

/// Writes to `out` whether one uid reaches another over one or more parents.
///
/// # Status
///
/// - `Closed`: the handle is closed.
/// - `NotAUid`: a uid is invalid.
/// - `NoMemory`: an allocation failed.
///
/// After an error nothing is written.
#[unsafe(no_mangle)]
pub extern "C" fn cedar_store_reaches(
    alloc: Global,
    handle: &mut Store,
    from: &[u8],
    to: &[u8],
    out: &mut bool,
) -> u32
    ensures same { handle.new.held.value ≡ handle.old.held.value }
    ensures asks { ReadsBoolOfStore
        (λ S r. ReadsReach S from.now to.now r) handle.old.held.value result out.old out.new }
{
    on_open!(in alloc; handle, CLOSED, |state| write_bool(state.reaches(alloc, from, to), out))
}
