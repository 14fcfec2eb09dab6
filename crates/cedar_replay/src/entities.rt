//! Lists of calls on an entity store.
ghost use Rattle.std.specs.Prelude.{◌≡◌, IfOk, IfErr, OnOk, map};
ghost use Rattle.std.specs.List.{AllByRecursion};
ghost use Rattle.cedar_entity_maps.specs.Plain.{IsPlainStore};
ghost use Rattle.cedar_entity_maps.specs.InputStore.{InputStore, empty_input};
ghost use Rattle.cedar_entities.specs.Calls.{apply_call, apply_calls, Passes, AllPass, IsErrorAs, StopsAt};
ghost use Rattle.cedar_replay.specs.CallsOf.{call_of, EntitiesHaveNoIndirect};

use cedar_entities::{Entities, EntitiesError, Entity, TCComputation};
use cedar_ids::entity::EntityUID;
use std::alloc::Global;
use std::hash::{BuildHasher, BuildHasherDefault};
use std::rc::Rc;

/// A call on an entity store, with its arguments.
#[derive(Debug, Drop)]
pub enum EntityCall {
    /// [`Entities::from_entities`]: a store of the given entities replaces the store.
    From(Vec<Entity>),
    /// [`Entities::add_entities`].
    Add(Vec<Rc<Entity>>),
    /// [`Entities::upsert_entities`].
    Upsert(Vec<Rc<Entity>>),
    /// [`Entities::remove_entities`].
    Remove(Vec<EntityUID>),
    /// [`Entities::partial`].
    Partial,
}

// Returns the store after one call.
fn replay_one<S: BuildHasher + Copy>(
    alloc: Global,
    store: Entities<S>,
    call: EntityCall,
) -> Result<Entities<S>, EntitiesError>
    requires { EntitiesHaveNoIndirect call }
    ensures passes { OnOk result ((W : InputStore) → IsPlainStore W store → Passes W (call_of call)) }
    ensures ok { IfOk result (λ s. (W : InputStore) → IsPlainStore W store →
        IsPlainStore (apply_call W (call_of call)) s) }
    ensures err { IfErr result (λ e. (W : InputStore) → IsPlainStore W store →
        IsErrorAs W (call_of call) e) }
{
    match call {
        EntityCall::From(list) => {
            let hasher = *store.hasher();
            Entities::from_entities_with_hasher(alloc, hasher, list, TCComputation::ComputeNow)
        }
        EntityCall::Add(list) => store.add_entities(alloc, list, TCComputation::ComputeNow),
        EntityCall::Upsert(list) => store.upsert_entities(alloc, list, TCComputation::ComputeNow),
        EntityCall::Remove(list) => store.remove_entities(alloc, list, TCComputation::ComputeNow),
        EntityCall::Partial => Ok(store.partial()),
    }
}

/// Runs calls on an initially empty store, one after another, and returns the final store. Each call computes the
/// ancestors, as with [`TCComputation::ComputeNow`].
///
/// The caller must ensure that the given entities have no indirect ancestors. Then the store contains the result of
/// plain insertion, replacement by the last version, and deletion. The ancestors of each entity are exactly the uids
/// that it reaches over parents.
///
/// The stores hash uids with a fixed seed. If untrusted parties choose the uids, use [`replay_entities_with_hasher`]
/// with a randomly keyed builder.
///
/// # Errors
///
/// The first error ends the list, and the store is dropped. The error contains the number of calls before it, which all
/// succeeded, and one of the following errors:
///
/// - [`EntitiesError::Duplicate`]: as the failed call.
/// - [`EntitiesError::TransitiveClosureError`]: as the failed call.
/// - `Memory`: an allocation failed.
///
/// # Complexity
///
/// The sum of the calls' costs.
///
/// # Differences from cedar-policy-core
///
/// The original has no such function.
pub fn replay_entities(
    alloc: Global,
    calls: Vec<EntityCall>,
) -> Result<Entities, (usize, EntitiesError)>
    requires { AllByRecursion EntitiesHaveNoIndirect calls.items }

    // If the result is `Ok`, all calls succeeded, and it is the plain store of the entities that the calls produce.
    ensures pass { OnOk result (AllPass empty_input (map call_of calls.items)) }
    ensures ok { IfOk result (λ s.
        IsPlainStore (apply_calls empty_input (map call_of calls.items)) s) }

    // The calls before the number succeed, and the next one fails with this error.
    ensures err { IfErr result (λ r. StopsAt (map call_of calls.items) r.0 r.1) }
{
    replay_entities_with_hasher(alloc, BuildHasherDefault::new(), calls)
}

/// Runs calls as [`replay_entities`] does. The stores hash uids with the hashers that `hasher` builds.
///
/// # Errors
///
/// As [`replay_entities`].
pub fn replay_entities_with_hasher<S: BuildHasher + Copy>(
    alloc: Global,
    hasher: S,
    calls: Vec<EntityCall>,
) -> Result<Entities<S>, (usize, EntitiesError)>
    requires { AllByRecursion EntitiesHaveNoIndirect calls.items }

    // All calls succeed, and the result is the plain store of the entities that the calls produce.
    ensures pass { OnOk result (AllPass empty_input (map call_of calls.items)) }
    ensures ok { IfOk result (λ s.
        IsPlainStore (apply_calls empty_input (map call_of calls.items)) s) }

    // The calls before the number succeed, and the next one fails with this error.
    ensures err { IfErr result (λ r. StopsAt (map call_of calls.items) r.0 r.1) }
{
    let mut store = Entities::with_hasher(alloc, hasher);
    let mut done = 0;
    for call in calls {
        match replay_one(alloc, store, call) {
            Ok(next) => store = next,
            Err(error) => return Err((done, error)),
        }
        done += 1;
    }
    Ok(store)
}
