//! Calls on handles of stores with the content of entities: attributes, tags and indirect ancestors. Values are encoded
//! as nodes.
ghost use Rattle.std.specs.Prelude.{◌≡◌};
ghost use Rattle.cedar_c_stores.specs.Contents.{AddsFromLists, BuildsFromLists, UpsertsFromLists};
ghost use Rattle.cedar_c_stores.specs.Reads.{attrs_of, tags_of};
ghost use Rattle.cedar_c_stores.specs.Values.{GetsAt};
ghost use Rattle.cedar_c.specs.StoreCalls.{Changes};
ghost use Rattle.cedar_c.specs.StoreValues.{CopiesNodes, GetsFrom};

use crate::copying::copy_out;
use crate::handles::{CLOSED, on_open};
use crate::store::{Store, opened, take};
use cedar_c_lists::{Edge, Span, status_of, write_bool};
use cedar_c_stores::{Content, EntityLists, Term};
use cedar_c_trees::Node;
use std::alloc::Global;

/// Replaces the store by the entities in lists, as `cedar_store_build` does. The edges `above` lead from entities to
/// indirect ancestors. The terms are attributes and tags, with values in the nodes.
///
/// # Status
///
/// - `Closed`: the handle is closed.
/// - `BadArgument`: there is no mode with this number, there are fewer uids than entities, or a part, an edge, a term
///   or the nodes of a term are out of range.
/// - `NotAUid`: a uid is invalid.
/// - `NotUtf8`: a key is not UTF-8.
/// - The errors of `partial_value_of` for the nodes of a term.
/// - `Duplicate`: two entities have the same uid, but are not deeply equal.
/// - `Cycle`: an entity reaches itself.
/// - `NotClosed`: an ancestor of an ancestor is missing, in the mode `EnforceAlreadyComputed`.
/// - `NoMemory`: an allocation failed.
///
/// After an error the store is unchanged. The text of an error of the store becomes the text of the last error.
#[unsafe(no_mangle)]
pub extern "C" fn cedar_store_build_with(
    alloc: Global,
    handle: &mut Store,
    text: &[u8],
    uids: &[Span],
    count: usize,
    edges: &[Edge],
    above: &[Edge],
    terms: &[Term],
    nodes: &[Node],
    mode: u32,
) -> u32
    ensures { Changes (BuildsFromLists (record {
      text = text.now;
      uids = uids.now;
      count = count;
      edges = edges.now;
      above = above.now;
      terms = terms.now;
      nodes = nodes.now;
    }) mode) handle.old.held.value result handle.new.held.value }
{
    let lists = EntityLists {
        text,
        uids,
        count,
        edges,
    };
    let content = Content {
        above,
        terms,
        nodes,
    };
    on_open!(in alloc; handle, CLOSED, |state| status_of(state.build_with(alloc, lists, content, mode)))
}

/// Adds the entities in lists with their content, as `cedar_store_add` does. The content has the form that
/// `cedar_store_build_with` takes.
///
/// # Status
///
/// - `Closed`: the handle is closed.
/// - `BadArgument`: there is no mode with this number, there are fewer uids than entities, or a part, an edge, a term
///   or the nodes of a term are out of range.
/// - `NotAUid`: a uid is invalid.
/// - `NotUtf8`: a key is not UTF-8.
/// - The errors of `partial_value_of` for the nodes of a term.
/// - `Duplicate`: two entities have the same uid, but are not deeply equal.
/// - `Cycle`: an entity reaches itself.
/// - `NotClosed`: an ancestor of an ancestor is missing, in the mode `EnforceAlreadyComputed`.
/// - `NoMemory`: an allocation failed.
///
/// After an error the store is unchanged. Only an allocation failure can instead leave it empty, and partial exactly if
/// it was partial before. The text of an error of the store becomes the text of the last error.
#[unsafe(no_mangle)]
pub extern "C" fn cedar_store_add_with(
    alloc: Global,
    handle: &mut Store,
    text: &[u8],
    uids: &[Span],
    count: usize,
    edges: &[Edge],
    above: &[Edge],
    terms: &[Term],
    nodes: &[Node],
    mode: u32,
) -> u32
    ensures { Changes (AddsFromLists (record {
      text = text.now;
      uids = uids.now;
      count = count;
      edges = edges.now;
      above = above.now;
      terms = terms.now;
      nodes = nodes.now;
    }) mode) handle.old.held.value result handle.new.held.value }
{
    let lists = EntityLists {
        text,
        uids,
        count,
        edges,
    };
    let content = Content {
        above,
        terms,
        nodes,
    };
    on_open!(in alloc; handle, CLOSED, |state| status_of(state.add_with(alloc, lists, content, mode)))
}

/// Upserts the entities in lists with their content, as `cedar_store_upsert` does. The content has the form that
/// `cedar_store_build_with` takes.
///
/// # Status
///
/// - `Closed`: the handle is closed.
/// - `BadArgument`: there is no mode with this number, there are fewer uids than entities, or a part, an edge, a term
///   or the nodes of a term are out of range.
/// - `NotAUid`: a uid is invalid.
/// - `NotUtf8`: a key is not UTF-8.
/// - The errors of `partial_value_of` for the nodes of a term.
/// - `Cycle`, `NotClosed`: the ancestors are invalid, as in `cedar_store_build`.
/// - `NoMemory`: an allocation failed.
///
/// After an error the store is unchanged. Only an allocation failure can instead leave it empty, and partial exactly if
/// it was partial before. The text of an error of the store becomes the text of the last error.
#[unsafe(no_mangle)]
pub extern "C" fn cedar_store_upsert_with(
    alloc: Global,
    handle: &mut Store,
    text: &[u8],
    uids: &[Span],
    count: usize,
    edges: &[Edge],
    above: &[Edge],
    terms: &[Term],
    nodes: &[Node],
    mode: u32,
) -> u32
    ensures { Changes (UpsertsFromLists (record {
      text = text.now;
      uids = uids.now;
      count = count;
      edges = edges.now;
      above = above.now;
      terms = terms.now;
      nodes = nodes.now;
    }) mode) handle.old.held.value result handle.new.held.value }
{
    let lists = EntityLists {
        text,
        uids,
        count,
        edges,
    };
    let content = Content {
        above,
        terms,
        nodes,
    };
    on_open!(in alloc; handle, CLOSED, |state| status_of(state.upsert_with(alloc, lists, content, mode)))
}

/// Writes to `has` whether the entity with a uid has an attribute at a key. If it has, stores the nodes of its partial
/// value, and their text as the result.
///
/// # Status
///
/// - `Closed`: the handle is closed.
/// - `NotAUid`: the uid is invalid.
/// - `NoEntity`: the store has no entity with the uid.
/// - `NotUtf8`: the key is not UTF-8.
/// - `NoMemory`: an allocation failed.
///
/// After an error nothing has changed.
#[unsafe(no_mangle)]
pub extern "C" fn cedar_store_get(
    alloc: Global,
    handle: &mut Store,
    uid: &[u8],
    key: &[u8],
    has: &mut bool,
) -> u32
    ensures { GetsFrom (GetsAt attrs_of uid.now key.now)
        handle.old.held.value result handle.new.held.value has.old has.new }
{
    on_open!(in alloc; handle, CLOSED, |state| write_bool(state.get(alloc, uid, key), has))
}

/// Writes to `has` whether the entity with a uid has a tag at a key. Stores the nodes and their text as
/// `cedar_store_get` does.
///
/// # Status
///
/// - `Closed`: the handle is closed.
/// - `NotAUid`: the uid is invalid.
/// - `NoEntity`: the store has no entity with the uid.
/// - `NotUtf8`: the key is not UTF-8.
/// - `NoMemory`: an allocation failed.
///
/// After an error nothing has changed.
#[unsafe(no_mangle)]
pub extern "C" fn cedar_store_get_tag(
    alloc: Global,
    handle: &mut Store,
    uid: &[u8],
    key: &[u8],
    has: &mut bool,
) -> u32
    ensures { GetsFrom (GetsAt tags_of uid.now key.now)
        handle.old.held.value result handle.new.held.value has.old has.new }
{
    on_open!(in alloc; handle, CLOSED, |state| write_bool(state.get_tag(alloc, uid, key), has))
}

/// Copies the nodes of the last value, from position `from` on, as many as fit. Returns the number of all nodes, which
/// is 0 for a closed handle.
#[unsafe(no_mangle)]
pub extern "C" fn cedar_store_result_nodes(
    alloc: Global,
    handle: &mut Store,
    from: usize,
    out: &mut [Node],
) -> usize
    ensures same { handle.new.held.value ≡ handle.old.held.value }
    ensures copies { CopiesNodes handle.old.held.value from out.old result out.new }
{
    on_open!(in alloc; handle, 0, |state| copy_out(&state.nodes, from, out))
}
