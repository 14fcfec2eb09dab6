//! Dry runs of adding a list to a store, and of overwriting a store with a list.
ghost use Rattle.std.specs.Prelude.{◌≡◌, ◌↔◌, IfOk, IfErr, IsTrue, map};
ghost use Rattle.cedar_entity.specs.declared.err.EntitiesError.TheVariants.{Memory};
ghost use Rattle.cedar_entities.specs.Calls.{Add, Upsert};
ghost use Rattle.cedar_entity_maps.specs.Plain.{HaveNoIndirect, HasNoIndirect, IsPlainStore, entities_in, input_of};
ghost use Rattle.cedar_entity_maps.specs.InputStore.{InputStore};
ghost use Rattle.cedar_dry_run.specs.Trials.{IsDryAddError, IsDryUpsertError, Tries};
ghost use Rattle.cedar_dry_run.specs.laws.Requested.{IsPartFor};

use crate::requested::{share_all, uids_and_parents};
use cedar_entities::{Entities, EntitiesError, Entity, TCComputation};
use cedar_slice::slice;
use std::alloc::Global;
use std::hash::BuildHasher;
use std::rc::Rc;

// Returns the part of a store that a dry run reads: the slice at the uids of the list and of its parents.
fn part_for<S: BuildHasher + Clone>(
    alloc: Global,
    store: &Entities<S>,
    list: &[Rc<Entity>],
) -> Result<Entities<S>, EntitiesError>
    ensures ok { IfOk result (IsPartFor store.now (entities_in list.now)) }
    ensures err { IfErr result (λ e. e ≡ Memory) }
{
    let uids = uids_and_parents(alloc, list)?;
    slice(alloc, store, &uids)
}

/// Checks whether [`Entities::add_entities`] of this store and list would fail under [`TCComputation::ComputeNow`]. The
/// store and the list do not change.
///
/// In a plain store, and if no entity of the list has indirect ancestors, the edit succeeds after `Ok`. Only an
/// allocation failure of the edit is still possible. In any other case `Ok` means nothing.
///
/// # Errors
///
/// An error has a meaning in every store: the edit can fail with it. A duplicate names the uid that the edit names. A
/// cycle is a cycle that the edit would create, but the edit may name another one.
///
/// - `Memory`: an allocation of the dry run failed.
///
/// # Complexity
///
/// Takes the slice of the store at the uids of the list and of their parents (see [`slice`]), and adds the list to it.
/// The cost depends on the list and on its ancestors, and not on the size of the store.
pub fn would_add<S: BuildHasher + Clone>(
    alloc: Global,
    store: &Entities<S>,
    list: &[Rc<Entity>],
) -> Result<(), EntitiesError>
    ensures refused { IfErr result (IsDryAddError store.now.entities (entities_in list.now)) }
    ensures plain { (W : InputStore) → IsPlainStore W store.now → HaveNoIndirect (entities_in list.now) →
        Tries W (Add (map input_of (entities_in list.now))) result }
{
    let part = part_for(alloc, store, list)?;
    let copies = share_all(alloc, list)?;
    match part.add_entities(alloc, copies, TCComputation::ComputeNow) {
        Ok(_tried) => Ok(()),
        Err(error) => Err(error),
    }
}

/// Checks whether [`Entities::upsert_entities`] of this store and list would fail under [`TCComputation::ComputeNow`].
/// The store and the list do not change. The result has the meaning of [`would_add`].
///
/// # Errors
///
/// The errors of [`would_add`], except duplicates.
pub fn would_upsert<S: BuildHasher + Clone>(
    alloc: Global,
    store: &Entities<S>,
    list: &[Rc<Entity>],
) -> Result<(), EntitiesError>
    ensures refused { IfErr result (IsDryUpsertError store.now.entities (entities_in list.now)) }
    ensures plain { (W : InputStore) → IsPlainStore W store.now → HaveNoIndirect (entities_in list.now) →
        Tries W (Upsert (map input_of (entities_in list.now))) result }
{
    let part = part_for(alloc, store, list)?;
    let again = share_all(alloc, list)?;
    match part.upsert_entities(alloc, again, TCComputation::ComputeNow) {
        Ok(_tried) => Ok(()),
        Err(fault) => Err(fault),
    }
}

// Checks whether an entity has no indirect ancestors.
fn has_no_indirect(entity: &Entity) -> bool
    ensures { IsTrue result ↔ HasNoIndirect entity.now }
{
    entity.indirect_ancestors().next().is_none()
}

/// Returns whether no entity of a list has indirect ancestors. The results of the dry runs are exact only for such
/// lists. Does not allocate.
pub fn have_no_indirect(list: &[Rc<Entity>]) -> bool
    ensures { IsTrue result ↔ HaveNoIndirect (entities_in list.now) }
{
    for entity in list {
        if !has_no_indirect(entity) {
            return false;
        }
    }
    true
}
