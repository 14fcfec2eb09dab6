//! Stores of users and the groups to which they belong.
ghost use Rattle.std.specs.Prelude.{◌≡◌, ◌↔◌, ◌∷◌, [], IfOk, IfErr, IsTrue, map};
ghost use Rattle.std.specs.List.{AllByRecursion};
ghost use Rattle.cedar_graph.specs.Graph.{Reach};
ghost use Rattle.cedar_entities.specs.Calls.{StopsAt, apply_calls};
ghost use Rattle.cedar_entity_maps.specs.Plain.{IsPlainStore};
ghost use Rattle.cedar_entity_maps.specs.EditErrors.{IsAddError, IsOverwriteError};
ghost use Rattle.cedar_entity_maps.specs.InputStore.{InputStore, added, deleted, empty_input, input_entity, graph, overwritten};
ghost use Rattle.cedar_replay.specs.CallsOf.{EntitiesHaveNoIndirect, call_of};

use cedar_store::{
    Entities, EntitiesError, Entity, EntityCall, EntityUID, SharedUid, TCComputation,
    replay_entities,
};
use std::alloc::Global;
use std::rc::Rc;

// Checks whether a store has an entity with the first uid, and this entity has the second uid as an ancestor.
fn is_below(store: &Entities, user: &EntityUID, group: &EntityUID) -> bool
    ensures { (W : InputStore) → IsPlainStore W store.now → (IsTrue result ↔ Reach (graph W) user.now group.now) }
{
    match store.stored(user) {
        Some(entity) => entity.is_descendant_of(group),
        None => false,
    }
}

/// Returns whether a user belongs to a group, directly or through other groups. The input is a list of users and
/// groups, each with the groups to which it belongs.
///
/// # Errors
///
/// - `Duplicate`: a uid is in the list twice, with different groups.
/// - `TransitiveClosureError`: a group belongs to itself.
/// - `Memory`: an allocation failed.
pub fn is_member(
    alloc: Global,
    members: Vec<(EntityUID, Vec<SharedUid>)>,
    user: &EntityUID,
    group: &EntityUID,
) -> Result<bool, EntitiesError>
    // The result is whether the group is reached from the user in the input.
    ensures ok { IfOk result (λ answer. IsTrue answer
        ↔ Reach (graph (added empty_input (map (λ m. input_entity m.0 m.1.items) members.items))) user.now group.now) }
    // The error names the first uid that differs, or a uid that reaches itself.
    ensures err { IfErr result (IsAddError empty_input (map (λ m. input_entity m.0 m.1.items) members.items)) }
{
    let mut entities = Vec::new(alloc);
    for (uid, groups) in members {
        entities.push(Entity::with_shared_parents(alloc, uid, groups)?)?;
    }
    let store = Entities::from_entities(alloc, entities, TCComputation::ComputeNow)?;
    Ok(is_below(&store, user, group))
}

/// Moves a user to other groups, and then deletes a group. Returns the store.
///
/// # Errors
///
/// - `TransitiveClosureError`: the user would belong to itself.
/// - `Memory`: an allocation failed.
///
/// After an error the store is dropped.
pub fn moved(
    alloc: Global,
    store: Entities,
    user: EntityUID,
    groups: Vec<SharedUid>,
    closed: EntityUID,
) -> Result<Entities, EntitiesError>
    // The store is the plain store of the input store after plain overwriting and then plain deletion.
    ensures ok { IfOk result (λ s. (W : InputStore) → IsPlainStore W store →
        IsPlainStore (deleted (overwritten W (input_entity user groups.items ∷ [])) (closed ∷ [])) s) }
    // The removal fails only if an allocation fails.
    ensures err { IfErr result (λ e. (W : InputStore) → IsPlainStore W store →
        IsOverwriteError W (input_entity user groups.items ∷ []) e) }
{
    let entity = Rc::new(alloc, Entity::with_shared_parents(alloc, user, groups)?)?;
    let store = store.upsert_entities(alloc, vec![in alloc; entity]?, TCComputation::ComputeNow)?;
    store.remove_entities(alloc, vec![in alloc; closed]?, TCComputation::ComputeNow)
}

/// Returns whether a user belonged to a group after a log of calls on a store.
///
/// # Errors
///
/// Returns the error of the first call that fails, with the number of calls before it.
///
/// - `Memory`: an allocation failed.
pub fn was_member(
    alloc: Global,
    log: Vec<EntityCall>,
    user: &EntityUID,
    group: &EntityUID,
) -> Result<bool, (usize, EntitiesError)>
    requires { AllByRecursion EntitiesHaveNoIndirect log.items }
    // The result is whether the group is reached from the user in the input store after plain insertion, overwriting
    // and deletion, call after call.
    ensures ok { IfOk result (λ answer. IsTrue answer
        ↔ Reach (graph (apply_calls empty_input (map call_of log.items))) user.now group.now) }
    // The calls before that number succeed, and the next call fails with the error.
    ensures err { IfErr result (λ r. StopsAt (map call_of log.items) r.0 r.1) }
{
    let store = replay_entities(alloc, log)?;
    Ok(is_below(&store, user, group))
}
