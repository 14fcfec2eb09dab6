//! The first invalid entity of a store.
ghost use Rattle.std.specs.Prelude.{MatchOption, OnOk, IfErr};
ghost use Rattle.std.specs.Option.{option_copied};
ghost use Rattle.cedar_entity_maps.specs.laws.EntityMap.{held_map, UidsMatch};
ghost use Rattle.cedar_entities.specs.StoreFaults.{AreAllValid, IsFirstFaulty, IsFirstFault};
ghost use Rattle.cedar_entities.specs.laws.StoreFaults.{TakesFaulty};

use cedar_entity::entity::Entity;
use cedar_entity::err::EntitiesError;
use cedar_entity::node::SharedEntity;
use cedar_ids::entity::EntityUID;
use cedar_uid_sets::SharedUid;
use std::alloc::Global;
use std::collections::HashMap;
use std::hash::BuildHasher;

// Returns the lesser of an invalid entity and the least one so far.
fn min_faulty<'a>(entity: &'a Entity, least: Option<&'a Entity>) -> Option<&'a Entity>
    ensures { TakesFaulty entity.now (option_copied least.entry) (option_copied result) }
{
    if entity.is_valid() {
        return least;
    }
    match least {
        None => Some(entity),
        Some(other) => {
            if entity.uid().cmp(other.uid()).is_lt() {
                Some(entity)
            } else {
                Some(other)
            }
        }
    }
}

// Returns the invalid entity with the least uid.
fn first_faulty<'a, S: BuildHasher>(
    entities: &'a HashMap<SharedUid, SharedEntity, S>,
) -> Option<&'a Entity>
    requires { UidsMatch entities.now }
    ensures { MatchOption (option_copied result)
        (AreAllValid (held_map entities.now)) (IsFirstFaulty (held_map entities.now)) }
{
    let mut least = None;
    for (_uid, node) in entities {
        least = min_faulty(&node.0, least);
    }
    least
}

// Returns the fault of the invalid entity with the least uid, if there is one.
pub(crate) fn check_each<S: BuildHasher>(
    alloc: Global,
    entities: &HashMap<SharedUid, SharedEntity, S>,
) -> Result<(), EntitiesError>
    requires { UidsMatch entities.now }
    ensures ok { OnOk result (AreAllValid (held_map entities.now)) }
    ensures err { IfErr result (IsFirstFault (held_map entities.now)) }
{
    match first_faulty(entities) {
        None => Ok(()),
        Some(entity) => entity.validate(alloc),
    }
}
