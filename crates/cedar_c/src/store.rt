//! Calls on handles of stores of entities.
ghost use Rattle.std.specs.Prelude.{◌≡◌, ◌≢◌, Option, Some, None};
ghost use Rattle.std.specs.Option.{is_some, option_map};
ghost use Rattle.cedar_entity_maps.specs.InputStore.{empty_input};
ghost use Rattle.cedar_entity.specs.View.{has_ancestor};
ghost use Rattle.cedar_c_stores.specs.Stores.{AddsListed, ReadsAncestry, ReadsPresence, BuildsListed, Copies, IsAncestorIn, IsParent};
ghost use Rattle.cedar_c_stores.specs.Stores.{Listing, RemovesListed, SlicesAt, UpsertsListed, Validates, has_parent};
ghost use Rattle.cedar_c.specs.Statuses.{ok, no_memory};
ghost use Rattle.cedar_c.specs.StoreCalls.{ReadsBoolOfStore, Boxes, Changes, Compares, CopiesResult, CopiesErrorText};
ghost use Rattle.cedar_c.specs.StoreCalls.{CopiesSpans, Counts, Fills, FillsBy, HasNoTexts, HasInputStore};

use crate::copying::copy_out;
use crate::handles::{CLOSED, on_both, on_open};
use crate::keys::hasher_of;
use crate::store_handle::{Held, Inner};
use cedar_c_lists::{Edge, Reason, Span, status_of, write_bool};
use cedar_c_stores::{EntityLists, StoreState};
use cedar_keyed_hash::KeyedState;
use std::alloc::Global;
use std::boxed::Box;
use std::mem;

/// A handle of a store of entities. Zeroed memory is a closed handle.
#[repr(C)]
#[derive(Drop)]
pub struct Store {
    pub(crate) held: Held,
    is_open: bool,
    ghost agrees: { is_open ≡ is_some held.value },
}

// Creates a closed handle.
fn closed(alloc: Global) -> Store
    ensures { result.held.value ≡ None }
{
    Store {
        held: Held::none(alloc),
        is_open: false,
    }
}

// Creates an open handle.
pub(crate) fn opened(inner: Box<Inner, Global>) -> Store
    ensures { result.held.value ≡ Some inner.value }
{
    Store {
        held: Held::of(inner),
        is_open: true,
    }
}

// Takes the contents of a handle, and closes it.
pub(crate) fn take(alloc: Global, handle: &mut Store) -> Option<Box<Inner, Global>>
    ensures closed { handle.new.held.value ≡ None }
    ensures value { option_map (λ b. b.value) result ≡ handle.old.held.value }
{
    let old = mem::replace(handle, closed(alloc));
    if old.is_open {
        Some(old.held.into_box())
    } else {
        None
    }
}

// Moves a result to a box.
fn boxed(
    alloc: Global,
    made: Result<StoreState<KeyedState>, Reason>,
) -> Result<Box<Inner, Global>, Reason>
    ensures { Boxes made result }
{
    let kept = made?;
    Ok(Box::new(alloc, Inner { kept })?)
}

// Fills a handle with a result, and frees its old contents. After an error the handle is unchanged. Returns the status.
pub(crate) fn fill(
    alloc: Global,
    handle: &mut Store,
    made: Result<StoreState<KeyedState>, Reason>,
) -> u32
    ensures { FillsBy made handle.old.held.value result handle.new.held.value }
{
    match boxed(alloc, made) {
        Err(reason) => reason.number(),
        Ok(inner) => {
            drop(take(alloc, handle));
            *handle = opened(inner);
            0
        }
    }
}

/// Opens the handle with an empty store, which uses the two numbers as the key of its hash maps. Frees the old contents
/// of the handle.
///
/// # Status
///
/// - `NoMemory`: an allocation failed.
///
/// After an error the handle is unchanged.
#[unsafe(no_mangle)]
pub extern "C" fn cedar_store_new(alloc: Global, handle: &mut Store, seed: u64, key: u64) -> u32
    ensures new { result ≡ ok → HasInputStore empty_input handle.new.held.value }
    ensures untold { result ≡ ok → HasNoTexts handle.new.held.value }
    ensures err { result ≢ ok → (result ≡ no_memory) × (handle.new.held.value ≡ handle.old.held.value) }
{
    fill(
        alloc,
        handle,
        Ok(StoreState::new(alloc, hasher_of(seed, key))),
    )
}

/// Frees the contents of the handle, and closes it. A closed handle stays closed.
#[unsafe(no_mangle)]
pub extern "C" fn cedar_store_free(alloc: Global, handle: &mut Store)
    ensures { handle.new.held.value ≡ None }
{
    drop(take(alloc, handle));
}

/// Replaces the store by the entities in lists, with the mode of this number. The first `count` uids in the parts of
/// the text are the uids of the entities. The edges lead from entities to their parents, by positions among the uids.
///
/// # Status
///
/// - `Closed`: the handle is closed.
/// - `BadArgument`: there is no mode with this number, there are fewer uids than entities, or a part or an edge is out
///   of range.
/// - `NotAUid`: a uid is invalid.
/// - `Duplicate`: two entities have the same uid, but are not deeply equal.
/// - `Cycle`: an entity reaches itself.
/// - `NotClosed`: an ancestor of an ancestor is missing, in the mode `EnforceAlreadyComputed`.
/// - `NoMemory`: an allocation failed.
///
/// After an error the store is unchanged. The text of an error of the store becomes the text of the last error.
#[unsafe(no_mangle)]
pub extern "C" fn cedar_store_build(
    alloc: Global,
    handle: &mut Store,
    text: &[u8],
    uids: &[Span],
    count: usize,
    edges: &[Edge],
    mode: u32,
) -> u32
    ensures { Changes (BuildsListed text.now uids.now count edges.now mode)
        handle.old.held.value result handle.new.held.value }
{
    let lists = EntityLists {
        text,
        uids,
        count,
        edges,
    };
    on_open!(in alloc; handle, CLOSED, |state| status_of(state.build(alloc, lists, mode)))
}

/// Adds the entities in lists to the store, as `Entities::add_entities` does. The lists have the form that
/// `cedar_store_build` takes.
///
/// # Status
///
/// - `Closed`: the handle is closed.
/// - `BadArgument`: there is no mode with this number, there are fewer uids than entities, or a part or an edge is out
///   of range.
/// - `NotAUid`: a uid is invalid.
/// - `Duplicate`: two entities have the same uid, but are not deeply equal.
/// - `Cycle`: an entity reaches itself.
/// - `NotClosed`: an ancestor of an ancestor is missing, in the mode `EnforceAlreadyComputed`.
/// - `NoMemory`: an allocation failed.
///
/// After an error the store is unchanged. Only an allocation failure can instead leave it empty, and partial exactly if
/// it was partial before. The text of an error of the store becomes the text of the last error.
#[unsafe(no_mangle)]
pub extern "C" fn cedar_store_add(
    alloc: Global,
    handle: &mut Store,
    text: &[u8],
    uids: &[Span],
    count: usize,
    edges: &[Edge],
    mode: u32,
) -> u32
    ensures { Changes (AddsListed text.now uids.now count edges.now mode)
        handle.old.held.value result handle.new.held.value }
{
    let lists = EntityLists {
        text,
        uids,
        count,
        edges,
    };
    on_open!(in alloc; handle, CLOSED, |state| status_of(state.add(alloc, lists, mode)))
}

/// Upserts the entities in lists, as `Entities::upsert_entities` does. The lists have the form that `cedar_store_build`
/// takes.
///
/// # Status
///
/// - `Closed`: the handle is closed.
/// - `BadArgument`: there is no mode with this number, there are fewer uids than entities, or a part or an edge is out
///   of range.
/// - `NotAUid`: a uid is invalid.
/// - `Cycle`, `NotClosed`: the ancestors are invalid, as in `cedar_store_build`.
/// - `NoMemory`: an allocation failed.
///
/// After an error the store is unchanged. Only an allocation failure can instead leave it empty, and partial exactly if
/// it was partial before. The text of an error of the store becomes the text of the last error.
#[unsafe(no_mangle)]
pub extern "C" fn cedar_store_upsert(
    alloc: Global,
    handle: &mut Store,
    text: &[u8],
    uids: &[Span],
    count: usize,
    edges: &[Edge],
    mode: u32,
) -> u32
    ensures { Changes (UpsertsListed text.now uids.now count edges.now mode)
        handle.old.held.value result handle.new.held.value }
{
    let lists = EntityLists {
        text,
        uids,
        count,
        edges,
    };
    on_open!(in alloc; handle, CLOSED, |state| status_of(state.upsert(alloc, lists, mode)))
}

/// Removes the entities with the uids in parts of a text, as `Entities::remove_entities` does, with the mode of this
/// number.
///
/// # Status
///
/// - `Closed`: the handle is closed.
/// - `BadArgument`: there is no mode with this number, or a part is not within the text.
/// - `NotAUid`: a uid is invalid.
/// - `Cycle`, `NotClosed`: the ancestors are invalid, as in `cedar_store_build`.
/// - `NoMemory`: an allocation failed.
///
/// After an error the store is unchanged. Only an allocation failure can instead leave it empty, and partial exactly if
/// it was partial before. The text of an error of the store becomes the text of the last error.
#[unsafe(no_mangle)]
pub extern "C" fn cedar_store_remove(
    alloc: Global,
    handle: &mut Store,
    text: &[u8],
    uids: &[Span],
    mode: u32,
) -> u32
    ensures { Changes (RemovesListed text.now uids.now mode) handle.old.held.value result handle.new.held.value }
{
    on_open!(in alloc; handle, CLOSED, |state| status_of(state.remove(alloc, text, uids, mode)))
}

/// Returns the number of entities, which is 0 for a closed handle.
#[unsafe(no_mangle)]
pub extern "C" fn cedar_store_len(alloc: Global, handle: &mut Store) -> usize
    ensures same { handle.new.held.value ≡ handle.old.held.value }
    ensures count { Counts handle.old.held.value result }
{
    on_open!(in alloc; handle, 0, |state| state.store.len())
}

/// Writes to `out` whether the store has an entity with a uid.
///
/// # Status
///
/// - `Closed`: the handle is closed.
/// - `NotAUid`: the uid is invalid.
/// - `NoMemory`: an allocation failed.
///
/// After an error nothing is written.
#[unsafe(no_mangle)]
pub extern "C" fn cedar_store_has(
    alloc: Global,
    handle: &mut Store,
    uid: &[u8],
    out: &mut bool,
) -> u32
    ensures same { handle.new.held.value ≡ handle.old.held.value }
    ensures asks { ReadsBoolOfStore (λ S r. ReadsPresence S uid.now r) handle.old.held.value result out.old out.new }
{
    on_open!(in alloc; handle, CLOSED, |state| write_bool(state.has(alloc, uid), out))
}

/// Writes to `out` whether the entity with the uid in `child` is a descendant of the uid in `ancestor`.
///
/// # Status
///
/// - `Closed`: the handle is closed.
/// - `NotAUid`: a uid is invalid.
/// - `NoEntity`: the store has no entity with the uid in `child`.
/// - `NoMemory`: an allocation failed.
///
/// After an error nothing is written.
#[unsafe(no_mangle)]
pub extern "C" fn cedar_store_is_descendant_of(
    alloc: Global,
    handle: &mut Store,
    child: &[u8],
    ancestor: &[u8],
    out: &mut bool,
) -> u32
    ensures same { handle.new.held.value ≡ handle.old.held.value }
    ensures asks { ReadsBoolOfStore
        (λ S r. ReadsAncestry S child.now ancestor.now r) handle.old.held.value result out.old out.new }
{
    on_open!(in alloc; handle, CLOSED, |state| write_bool(state.is_descendant_of(alloc, child, ancestor), out))
}

/// Stores the ancestors of the entity with a uid as the result, in ascending order of uid.
///
/// # Status
///
/// - `Closed`: the handle is closed.
/// - `NotAUid`: the uid is invalid.
/// - `NoEntity`: the store has no entity with the uid.
/// - `NoMemory`: an allocation failed.
///
/// After an error nothing has changed.
#[unsafe(no_mangle)]
pub extern "C" fn cedar_store_ancestors(alloc: Global, handle: &mut Store, uid: &[u8]) -> u32
    ensures { Changes (Listing has_ancestor IsAncestorIn uid.now) handle.old.held.value result handle.new.held.value }
{
    on_open!(in alloc; handle, CLOSED, |state| status_of(state.ancestors(alloc, uid)))
}

/// Stores the parents of the entity with a uid as the result, in ascending order of uid.
///
/// # Status
///
/// - `Closed`: the handle is closed.
/// - `NotAUid`: the uid is invalid.
/// - `NoEntity`: the store has no entity with the uid.
/// - `NoMemory`: an allocation failed.
///
/// After an error nothing has changed.
#[unsafe(no_mangle)]
pub extern "C" fn cedar_store_parents(alloc: Global, handle: &mut Store, uid: &[u8]) -> u32
    ensures { Changes (Listing has_parent IsParent uid.now) handle.old.held.value result handle.new.held.value }
{
    on_open!(in alloc; handle, CLOSED, |state| status_of(state.parents(alloc, uid)))
}

/// Validates a copy of the store, as `Entities::try_validate` does. The first fault determines the status.
///
/// # Status
///
/// - `Closed`: the handle is closed.
/// - `NotClosed`: an ancestor of an ancestor is missing.
/// - `Cycle`: a uid is one of its own ancestors.
/// - `SelfAncestor`: an entity is one of its own ancestors.
/// - `DuplicateAncestor`: a uid is both a parent and an indirect ancestor.
/// - `ActionParentIsNotAction`: an action has an ancestor that is not an action.
/// - `ReservedKey`: a record has a reserved key.
/// - `NoMemory`: an allocation failed.
///
/// After an error only the text of the last error can have changed.
#[unsafe(no_mangle)]
pub extern "C" fn cedar_store_validate(alloc: Global, handle: &mut Store) -> u32
    ensures { Changes Validates handle.old.held.value result handle.new.held.value }
{
    on_open!(in alloc; handle, CLOSED, |state| status_of(state.validate(alloc)))
}

/// Fills the handle `to` with the slice of the store of `from` at the uids in parts of a text. The slice has no result,
/// no numbers and no last error.
///
/// # Status
///
/// - `Closed`: the handle `from` is closed.
/// - `BadArgument`: a part is not within the text.
/// - `NotAUid`: a uid is invalid.
/// - `NoMemory`: an allocation failed.
///
/// After an error both handles are unchanged.
#[unsafe(no_mangle)]
pub extern "C" fn cedar_store_slice(
    alloc: Global,
    from: &mut Store,
    to: &mut Store,
    text: &[u8],
    uids: &[Span],
) -> u32
    ensures same { from.new.held.value ≡ from.old.held.value }
    ensures fills { Fills (SlicesAt text.now uids.now) from.old.held.value result to.old.held.value to.new.held.value }
{
    on_open!(in alloc; from, CLOSED, |state| fill(alloc, to, state.slice(alloc, text, uids)))
}

/// Fills the handle `to` with a copy of the store of `from`. The copy has no result, no numbers and no last error.
///
/// # Status
///
/// - `Closed`: the handle `from` is closed.
/// - `NoMemory`: an allocation failed.
///
/// After an error both handles are unchanged.
#[unsafe(no_mangle)]
pub extern "C" fn cedar_store_copy(alloc: Global, from: &mut Store, to: &mut Store) -> u32
    ensures same { from.new.held.value ≡ from.old.held.value }
    ensures fills { Fills Copies from.old.held.value result to.old.held.value to.new.held.value }
{
    on_open!(in alloc; from, CLOSED, |state| fill(alloc, to, state.copy(alloc)))
}

/// Writes to `out` whether both stores have deeply equal entities.
///
/// # Status
///
/// - `Closed`: one of the handles is closed.
///
/// After an error nothing is written.
#[unsafe(no_mangle)]
pub extern "C" fn cedar_store_equal(
    alloc: Global,
    one: &mut Store,
    other: &mut Store,
    out: &mut bool,
) -> u32
    ensures one { one.new.held.value ≡ one.old.held.value }
    ensures other { other.new.held.value ≡ other.old.held.value }
    ensures compares { Compares one.old.held.value other.old.held.value result out.old out.new }
{
    on_both!(in alloc; one, other, |state, beside| {
        *out = state.is_equal(beside);
        0
    })
}

/// Copies the bytes of the result, from position `from` on, as many as fit. Returns the number of all bytes, which is 0
/// for a closed handle.
#[unsafe(no_mangle)]
pub extern "C" fn cedar_store_result(
    alloc: Global,
    handle: &mut Store,
    from: usize,
    out: &mut [u8],
) -> usize
    ensures same { handle.new.held.value ≡ handle.old.held.value }
    ensures copies { CopiesResult handle.old.held.value from out.old result out.new }
{
    on_open!(in alloc; handle, 0, |state| copy_out(state.answer.bytes(), from, out))
}

/// Copies the spans of the texts of the result within its bytes, from the text at position `from` on, as many as fit.
/// Returns the number of all texts, which is 0 for a closed handle.
#[unsafe(no_mangle)]
pub extern "C" fn cedar_store_result_spans(
    alloc: Global,
    handle: &mut Store,
    from: usize,
    out: &mut [Span],
) -> usize
    ensures same { handle.new.held.value ≡ handle.old.held.value }
    ensures copies { CopiesSpans handle.old.held.value from out.old result out.new }
{
    on_open!(in alloc; handle, 0, |state| copy_out(state.answer.spans(), from, out))
}

/// Copies the text of the last error of a call on the store, as much as fits. Returns the length of the whole text,
/// which is 0 for a closed handle.
#[unsafe(no_mangle)]
pub extern "C" fn cedar_store_error_text(alloc: Global, handle: &mut Store, out: &mut [u8]) -> usize
    ensures same { handle.new.held.value ≡ handle.old.held.value }
    ensures copies { CopiesErrorText handle.old.held.value out.old result out.new }
{
    on_open!(in alloc; handle, 0, |state| copy_out(&state.refusal, 0, out))
}
