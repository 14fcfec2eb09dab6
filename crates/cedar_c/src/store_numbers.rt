//! Calls on handles of stores by the numbers of uids.
ghost use Rattle.std.specs.Prelude.{◌≡◌};
ghost use Rattle.cedar_c_stores.specs.Numbers.{ReadsPresenceByNumber, ReadsAncestryByNumbers, ReturnsNumber, NamesNumber};
ghost use Rattle.cedar_c.specs.StoreCalls.{Changes};
ghost use Rattle.cedar_c.specs.StoreNumbers.{ReadsBoolOfState, WritesNumber};

use crate::handles::{CLOSED, on_open};
use crate::store::{Store, opened, take};
use cedar_c_lists::{status_of, write_bool, write_result};
use std::alloc::Global;

/// Writes the number of a uid to `number`. Later calls with the same uid write the same number.
///
/// # Status
///
/// - `Closed`: the handle is closed.
/// - `NotAUid`: the uid is invalid.
/// - `NoMemory`: an allocation failed.
///
/// After an error nothing has changed.
#[unsafe(no_mangle)]
pub extern "C" fn cedar_store_uid_number(
    alloc: Global,
    handle: &mut Store,
    uid: &[u8],
    number: &mut usize,
) -> u32
    ensures { WritesNumber (ReturnsNumber uid.now)
        handle.old.held.value result handle.new.held.value number.old number.new }
{
    on_open!(in alloc; handle, CLOSED, |state| write_result(state.uid_number(alloc, uid), number))
}

/// Stores the text of the uid of a number as the result.
///
/// # Status
///
/// - `Closed`: the handle is closed.
/// - `BadArgument`: no uid has the number.
/// - `NoMemory`: an allocation failed.
///
/// After an error nothing has changed.
#[unsafe(no_mangle)]
pub extern "C" fn cedar_store_number_uid(alloc: Global, handle: &mut Store, number: usize) -> u32
    ensures { Changes (NamesNumber number) handle.old.held.value result handle.new.held.value }
{
    on_open!(in alloc; handle, CLOSED, |state| status_of(state.number_uid(alloc, number)))
}

/// Writes to `out` whether the store has an entity with the uid of a number. Does not allocate.
///
/// # Status
///
/// - `Closed`: the handle is closed.
/// - `BadArgument`: no uid has the number.
///
/// After an error nothing is written.
#[unsafe(no_mangle)]
pub extern "C" fn cedar_store_has_number(
    alloc: Global,
    handle: &mut Store,
    number: usize,
    out: &mut bool,
) -> u32
    ensures same { handle.new.held.value ≡ handle.old.held.value }
    ensures asks { ReadsBoolOfState (λ k r. ReadsPresenceByNumber k.store k.numbers number r)
        handle.old.held.value result out.old out.new }
{
    on_open!(in alloc; handle, CLOSED, |state| write_bool(state.has_number(number), out))
}

/// Writes to `out` whether the entity with the uid of the number `child` is a descendant of the uid of the number
/// `ancestor`. Does not allocate.
///
/// # Status
///
/// - `Closed`: the handle is closed.
/// - `BadArgument`: no uid has one of the numbers.
/// - `NoEntity`: the store has no entity with the uid of `child`.
///
/// After an error nothing is written.
#[unsafe(no_mangle)]
pub extern "C" fn cedar_store_is_descendant_of_numbers(
    alloc: Global,
    handle: &mut Store,
    child: usize,
    ancestor: usize,
    out: &mut bool,
) -> u32
    ensures same { handle.new.held.value ≡ handle.old.held.value }
    ensures asks { ReadsBoolOfState (λ k r. ReadsAncestryByNumbers k.store k.numbers child ancestor r)
        handle.old.held.value result out.old out.new }
{
    on_open!(in alloc; handle, CLOSED, |state| write_bool(state.is_descendant_of_numbers(child, ancestor), out))
}
