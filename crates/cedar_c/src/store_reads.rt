//! Calls that read the store of a handle or one of its entities.
ghost use Rattle.std.specs.Prelude.{◌≡◌};
ghost use Rattle.cedar_c_stores.specs.Stores.{Listing, has_parent};
ghost use Rattle.cedar_c_stores.specs.Reads.{AnswersAt, AnswersOf, AreAllUids, AreKeysOf, ReadsRelation, ReadsValue};
ghost use Rattle.cedar_c_stores.specs.Reads.{ComparesAt, FindsAt, IsIndirectAncestorIn, IsOneText, attrs_count, attrs_of};
ghost use Rattle.cedar_c_stores.specs.Reads.{has_indirect, tags_count, tags_of};
ghost use Rattle.cedar_c.specs.StoreCalls.{ReadsBoolOfStore, Changes};
ghost use Rattle.cedar_c.specs.StoreReads.{ReadsBoolOfBoth, ReadsPartial, BecomesPartial, CountsHandle};

use crate::handles::{CLOSED, on_both, on_open};
use crate::store::{Store, opened, take};
use cedar_c_lists::{status_of, write_bool, write_result};
use std::alloc::Global;

/// Stores the uids of all entities as the result, in an unspecified order.
///
/// # Status
///
/// - `Closed`: the handle is closed.
/// - `NoMemory`: an allocation failed.
///
/// After an error nothing has changed.
#[unsafe(no_mangle)]
pub extern "C" fn cedar_store_uids(alloc: Global, handle: &mut Store) -> u32
    ensures { Changes (AnswersOf AreAllUids) handle.old.held.value result handle.new.held.value }
{
    on_open!(in alloc; handle, CLOSED, |state| status_of(state.uids(alloc)))
}

/// Writes 2 to `found` if the store has an entity with a uid. Otherwise writes 1 for a partial store, and 0 for another
/// store.
///
/// # Status
///
/// - `Closed`: the handle is closed.
/// - `NotAUid`: the uid is invalid.
/// - `NoMemory`: an allocation failed.
///
/// After an error nothing is written.
#[unsafe(no_mangle)]
pub extern "C" fn cedar_store_entity(
    alloc: Global,
    handle: &mut Store,
    uid: &[u8],
    found: &mut u32,
) -> u32
    ensures same { handle.new.held.value ≡ handle.old.held.value }
    ensures tells { CountsHandle (λ S r. FindsAt S uid.now r) handle.old.held.value result found.old found.new }
{
    on_open!(in alloc; handle, CLOSED, |state| write_result(state.entity(alloc, uid), found))
}

/// Makes the store partial. A missing entity is then unknown.
///
/// # Status
///
/// - `Closed`: the handle is closed.
#[unsafe(no_mangle)]
pub extern "C" fn cedar_store_partial(alloc: Global, handle: &mut Store) -> u32
    ensures { BecomesPartial handle.old.held.value result handle.new.held.value }
{
    on_open!(in alloc; handle, CLOSED, |state| {
        state.make_partial(alloc);
        0
    })
}

/// Writes to `out` whether the store is partial.
///
/// # Status
///
/// - `Closed`: the handle is closed.
///
/// After an error nothing is written.
#[unsafe(no_mangle)]
pub extern "C" fn cedar_store_is_partial(alloc: Global, handle: &mut Store, out: &mut bool) -> u32
    ensures same { handle.new.held.value ≡ handle.old.held.value }
    ensures asks { ReadsPartial handle.old.held.value result out.old out.new }
{
    on_open!(in alloc; handle, CLOSED, |state| {
        *out = state.is_partial();
        0
    })
}

/// Stores the indirect ancestors of the entity with a uid as the result, in ascending order of uid.
///
/// # Status
///
/// - `Closed`: the handle is closed.
/// - `NotAUid`: the uid is invalid.
/// - `NoEntity`: the store has no entity with the uid.
/// - `NoMemory`: an allocation failed.
///
/// After an error nothing has changed.
#[unsafe(no_mangle)]
pub extern "C" fn cedar_store_indirect_ancestors(
    alloc: Global,
    handle: &mut Store,
    uid: &[u8],
) -> u32
    ensures { Changes (Listing has_indirect IsIndirectAncestorIn uid.now) handle.old.held.value result handle.new.held.value }
{
    on_open!(in alloc; handle, CLOSED, |state| status_of(state.indirect_ancestors(alloc, uid)))
}

/// Writes to `out` whether the uid in `parent` is a parent of the entity with the uid in `child`.
///
/// # Status
///
/// - `Closed`: the handle is closed.
/// - `NotAUid`: a uid is invalid.
/// - `NoEntity`: the store has no entity with the uid in `child`.
/// - `NoMemory`: an allocation failed.
///
/// After an error nothing is written.
#[unsafe(no_mangle)]
pub extern "C" fn cedar_store_is_child_of(
    alloc: Global,
    handle: &mut Store,
    child: &[u8],
    parent: &[u8],
    out: &mut bool,
) -> u32
    ensures same { handle.new.held.value ≡ handle.old.held.value }
    ensures asks { ReadsBoolOfStore (λ S r. ReadsRelation has_parent S child.now parent.now r)
        handle.old.held.value result out.old out.new }
{
    on_open!(in alloc; handle, CLOSED, |state| write_bool(state.is_child_of(alloc, child, parent), out))
}

/// Writes to `out` whether the uid in `ancestor` is an indirect ancestor of the entity with the uid in `child`.
///
/// # Status
///
/// - `Closed`: the handle is closed.
/// - `NotAUid`: a uid is invalid.
/// - `NoEntity`: the store has no entity with the uid in `child`.
/// - `NoMemory`: an allocation failed.
///
/// After an error nothing is written.
#[unsafe(no_mangle)]
pub extern "C" fn cedar_store_is_indirect_descendant_of(
    alloc: Global,
    handle: &mut Store,
    child: &[u8],
    ancestor: &[u8],
    out: &mut bool,
) -> u32
    ensures same { handle.new.held.value ≡ handle.old.held.value }
    ensures asks { ReadsBoolOfStore (λ S r. ReadsRelation has_indirect S child.now ancestor.now r)
        handle.old.held.value result out.old out.new }
{
    on_open!(in alloc; handle, CLOSED, |state| write_bool(state.is_indirect_descendant_of(alloc, child, ancestor), out))
}

/// Stores the keys of the attributes of the entity with a uid as the result, in byte order.
///
/// # Status
///
/// - `Closed`: the handle is closed.
/// - `NotAUid`: the uid is invalid.
/// - `NoEntity`: the store has no entity with the uid.
/// - `NoMemory`: an allocation failed.
///
/// After an error nothing has changed.
#[unsafe(no_mangle)]
pub extern "C" fn cedar_store_keys(alloc: Global, handle: &mut Store, uid: &[u8]) -> u32
    ensures { Changes (AnswersAt (AreKeysOf attrs_of) uid.now) handle.old.held.value result handle.new.held.value }
{
    on_open!(in alloc; handle, CLOSED, |state| status_of(state.keys(alloc, uid)))
}

/// Stores the keys of the tags of the entity with a uid as the result, in byte order.
///
/// # Status
///
/// - `Closed`: the handle is closed.
/// - `NotAUid`: the uid is invalid.
/// - `NoEntity`: the store has no entity with the uid.
/// - `NoMemory`: an allocation failed.
///
/// After an error nothing has changed.
#[unsafe(no_mangle)]
pub extern "C" fn cedar_store_tag_keys(alloc: Global, handle: &mut Store, uid: &[u8]) -> u32
    ensures { Changes (AnswersAt (AreKeysOf tags_of) uid.now) handle.old.held.value result handle.new.held.value }
{
    on_open!(in alloc; handle, CLOSED, |state| status_of(state.tag_keys(alloc, uid)))
}

/// Writes the number of attributes of the entity with a uid to `count`.
///
/// # Status
///
/// - `Closed`: the handle is closed.
/// - `NotAUid`: the uid is invalid.
/// - `NoEntity`: the store has no entity with the uid.
/// - `NoMemory`: an allocation failed.
///
/// After an error nothing is written.
#[unsafe(no_mangle)]
pub extern "C" fn cedar_store_attrs_len(
    alloc: Global,
    handle: &mut Store,
    uid: &[u8],
    count: &mut usize,
) -> u32
    ensures same { handle.new.held.value ≡ handle.old.held.value }
    ensures tells { CountsHandle
        (λ S r. ReadsValue attrs_count S uid.now r) handle.old.held.value result count.old count.new }
{
    on_open!(in alloc; handle, CLOSED, |state| write_result(state.attrs_len(alloc, uid), count))
}

/// Writes the number of tags of the entity with a uid to `count`.
///
/// # Status
///
/// - `Closed`: the handle is closed.
/// - `NotAUid`: the uid is invalid.
/// - `NoEntity`: the store has no entity with the uid.
/// - `NoMemory`: an allocation failed.
///
/// After an error nothing is written.
#[unsafe(no_mangle)]
pub extern "C" fn cedar_store_tags_len(
    alloc: Global,
    handle: &mut Store,
    uid: &[u8],
    count: &mut usize,
) -> u32
    ensures same { handle.new.held.value ≡ handle.old.held.value }
    ensures tells { CountsHandle
        (λ S r. ReadsValue tags_count S uid.now r) handle.old.held.value result count.old count.new }
{
    on_open!(in alloc; handle, CLOSED, |state| write_result(state.tags_len(alloc, uid), count))
}

/// Writes to `out` whether the entities with a uid are deeply equal in both stores.
///
/// # Status
///
/// - `Closed`: one of the handles is closed.
/// - `NotAUid`: the uid is invalid.
/// - `NoEntity`: one of the stores has no entity with the uid.
/// - `NoMemory`: an allocation failed.
///
/// After an error nothing is written.
#[unsafe(no_mangle)]
pub extern "C" fn cedar_store_entity_equal(
    alloc: Global,
    handle: &mut Store,
    uid: &[u8],
    other: &mut Store,
    out: &mut bool,
) -> u32
    ensures one { handle.new.held.value ≡ handle.old.held.value }
    ensures other { other.new.held.value ≡ other.old.held.value }
    ensures asks { ReadsBoolOfBoth (λ S T r. ComparesAt S T uid.now r)
        handle.old.held.value other.old.held.value result out.old out.new }
{
    on_both!(in alloc; handle, other, |state, beside| write_bool(state.entity_is_equal(alloc, uid, beside), out))
}

/// Stores the text of the store, from its `Display`, as the result.
///
/// # Status
///
/// - `Closed`: the handle is closed.
/// - `NoMemory`: an allocation failed.
///
/// After an error nothing has changed.
#[unsafe(no_mangle)]
pub extern "C" fn cedar_store_text(alloc: Global, handle: &mut Store) -> u32
    ensures { Changes (AnswersOf (λ _ texts. IsOneText texts)) handle.old.held.value result handle.new.held.value }
{
    on_open!(in alloc; handle, CLOSED, |state| status_of(state.text(alloc)))
}

/// Stores the text of the entity with a uid, from its `Display`, as the result.
///
/// # Status
///
/// - `Closed`: the handle is closed.
/// - `NotAUid`: the uid is invalid.
/// - `NoEntity`: the store has no entity with the uid.
/// - `NoMemory`: an allocation failed.
///
/// After an error nothing has changed.
#[unsafe(no_mangle)]
pub extern "C" fn cedar_store_entity_text(alloc: Global, handle: &mut Store, uid: &[u8]) -> u32
    ensures { Changes
        (AnswersAt (λ _ texts. IsOneText texts) uid.now) handle.old.held.value result handle.new.held.value }
{
    on_open!(in alloc; handle, CLOSED, |state| status_of(state.entity_text(alloc, uid)))
}
