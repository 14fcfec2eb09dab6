//! The shortest paths over parents.
ghost use Rattle.std.specs.Prelude.{◌≡◌, ◌↔◌, suc, IfOk, IsTrue};
ghost use Rattle.std.specs.Option.{option_map};
ghost use Rattle.std.specs.HashMap.{get};
ghost use Rattle.cedar_graph.specs.Graph.{Reach};
ghost use Rattle.cedar_ids.specs.UidOf.{same_uid};
ghost use Rattle.cedar_queries.specs.Queries.{FindsPath, parent_graph};
ghost use Rattle.cedar_queries.specs.laws.Searches.{LeadsBack, trace};

use crate::search::{has_ancestor_at, search};
use cedar_entities::{Entities, SharedUid};
use cedar_ids::entity::EntityUID;
use std::alloc::{AllocError, Global};
use std::collections::HashMap;
use std::hash::BuildHasher;

// Follows a search back from `to`, and returns the uids in the order of the path. There are `between` uids between its
// two ends.
fn walk_back<S: BuildHasher>(
    alloc: Global,
    reached: &HashMap<SharedUid, SharedUid, S>,
    to: &EntityUID,
    between: usize,
) -> Result<Vec<SharedUid>, AllocError>
    requires { LeadsBack (get same_uid reached.now) (suc between) to.now }
    ensures { IfOk result (λ v. v.items ≡ trace (get same_uid reached.now) (suc between) to.now) }
{
    let mut uids = Vec::new(alloc);
    uids.push(SharedUid::copy_of(alloc, to)?)?;
    let mut at = reached[to].clone()?;
    for _step in 0..between {
        let before = reached[&at].clone()?;
        uids.push(at)?;
        at = before;
    }
    uids.push(at)?;
    uids.reverse();
    Ok(uids)
}

/// Returns a shortest path over parents from one uid to another: a list that begins with `from` and ends with `to`, in
/// which each uid is a parent of the one before. Returns `None` if there is no such path.
///
/// A path has at least one step. So `path` from a uid to itself is `None`, unless the uid is on a cycle of parents. In a
/// plain store, a path exists exactly to an ancestor. In other stores, an ancestor without a path is an indirect ancestor
/// that the parents do not explain (see [`reaches`]).
///
/// Neither uid needs an entity in the store. If several paths are shortest, the result is one of them.
///
/// # Errors
///
/// Returns `AllocError` if an allocation fails.
///
/// # Complexity
///
/// Searches over parents, layer by layer, up to the distance of `to`. Each uid that the search reaches is visited once,
/// and its parents are looked up once. If the store is known to be plain (see [`Entities`]), the search visits only uids
/// that have `to` as an ancestor. Allocates in proportion to the number of visited uids.
///
/// # Differences from cedar-policy-core
///
/// The original has no such function.
pub fn path<S: BuildHasher + Clone>(
    alloc: Global,
    store: &Entities<S>,
    from: &EntityUID,
    to: &EntityUID,
) -> Result<Option<Vec<SharedUid>>, AllocError>
    ensures { IfOk result (λ o. FindsPath store.now.entities from.now to.now (option_map (λ v. v.items) o)) }
{
    let mut reached = HashMap::with_hasher(alloc, store.hasher().clone()?);
    let first = SharedUid::copy_of(alloc, from)?;
    let plain = store.is_known_plain();
    match search(alloc, store, &mut reached, first, to, plain)? {
        Some(between) => Ok(Some(walk_back(alloc, &reached, to, between)?)),
        None => Ok(None),
    }
}

/// Returns whether a uid reaches another over one or more parents.
///
/// If `to` is an ancestor of the entity `from` and the result is `false`, the parents do not explain the ancestor: it is
/// an indirect ancestor that the store was given.
///
/// # Errors
///
/// Returns `AllocError` if an allocation fails.
///
/// # Complexity
///
/// Makes one lookup if the store is known to be plain (see [`Entities`]). Does not allocate then. Otherwise as [`path`].
///
/// # Differences from cedar-policy-core
///
/// The original has no such function.
pub fn reaches<S: BuildHasher + Clone>(
    alloc: Global,
    store: &Entities<S>,
    from: &EntityUID,
    to: &EntityUID,
) -> Result<bool, AllocError>
    ensures { IfOk result (λ b. IsTrue b ↔ Reach (parent_graph store.now.entities) from.now to.now) }
{
    if store.is_known_plain() {
        return Ok(has_ancestor_at(store, from, to));
    }
    let mut reached = HashMap::with_hasher(alloc, store.hasher().clone()?);
    let first = SharedUid::copy_of(alloc, from)?;
    let found = search(alloc, store, &mut reached, first, to, false)?;
    Ok(found.is_some())
}
