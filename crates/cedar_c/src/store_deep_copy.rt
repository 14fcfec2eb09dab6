//! Deep copies of stores and of their slices, which can be sent to another thread.
ghost use Rattle.std.specs.Prelude.{◌≡◌};
ghost use Rattle.cedar_c_stores.specs.Stores.{Copies, SlicesAt};
ghost use Rattle.cedar_c.specs.StoreCalls.{Fills};

use crate::handles::{CLOSED, on_open};
use crate::store::{Store, fill, opened, take};
use cedar_c_lists::Span;
use std::alloc::Global;

/// Fills the handle `to` with a deep copy of the store of `from`, which shares nothing with it.
///
/// # Status
///
/// - `Closed`: the handle `from` is closed.
/// - `NoMemory`: an allocation failed.
///
/// After an error both handles are unchanged.
#[unsafe(no_mangle)]
pub extern "C" fn cedar_store_deep_copy(alloc: Global, from: &mut Store, to: &mut Store) -> u32
    ensures same { from.new.held.value ≡ from.old.held.value }
    ensures fills { Fills Copies from.old.held.value result to.old.held.value to.new.held.value }
{
    on_open!(in alloc; from, CLOSED, |state| fill(alloc, to, state.deep_copy(alloc)))
}

/// Fills the handle `to` with a deep copy of the slice of the store of `from` at the uids in parts of a text. The copy
/// shares nothing with the store.
///
/// # Status
///
/// - `Closed`: the handle `from` is closed.
/// - `BadArgument`: a part is not within the text.
/// - `NotAUid`: a uid is invalid.
/// - `NoMemory`: an allocation failed.
///
/// After an error both handles are unchanged.
#[unsafe(no_mangle)]
pub extern "C" fn cedar_store_slice_deep_copy(
    alloc: Global,
    from: &mut Store,
    to: &mut Store,
    text: &[u8],
    uids: &[Span],
) -> u32
    ensures same { from.new.held.value ≡ from.old.held.value }
    ensures fills { Fills (SlicesAt text.now uids.now) from.old.held.value result to.old.held.value to.new.held.value }
{
    on_open!(in alloc; from, CLOSED, |state| fill(alloc, to, state.slice_deep_copy(alloc, text, uids)))
}
