//! The comparison of two stores: deeply equal entities, and equal uids.
ghost use Rattle.std.specs.Prelude.{◌≡◌, true, Some, IsTrue, is_some, ◌↔◌};
ghost use Rattle.std.specs.HashMap.{get};
ghost use Rattle.std.specs.Option.{IfSome};
ghost use Rattle.cedar_ids.specs.UidOf.{same_uid};
ghost use Rattle.cedar_ids.specs.declared.entity.EntityUID.{EntityUID};
ghost use Rattle.cedar_entities.specs.Answers.{HasDeepEqual};
ghost use Rattle.cedar_entity_maps.specs.laws.EntityMap.{entity_at};

use cedar_entity::entity::Entity;
use cedar_entity::node::SharedEntity;
use cedar_uid_sets::SharedUid;
use std::collections::HashMap;
use std::hash::BuildHasher;

// Checks whether the map has a deeply equal entity at a uid.
fn has_deep_equal_at<S: BuildHasher>(
    entity: &Entity,
    uid: &SharedUid,
    other: &HashMap<SharedUid, SharedEntity, S>,
) -> bool
    ensures { IsTrue result ↔ HasDeepEqual (Some entity.now) (entity_at other.now uid.now) }
{
    match other.get(uid) {
        Some(node) => entity.deep_eq(&node.0),
        None => false,
    }
}

// Checks whether `other` has a deeply equal entity for each entity of `one`.
pub(crate) fn have_deep_equals<S: BuildHasher>(
    one: &HashMap<SharedUid, SharedEntity, S>,
    other: &HashMap<SharedUid, SharedEntity, S>,
) -> bool
    ensures { IsTrue result ↔ ((q : EntityUID) →
        IfSome (entity_at one.now q) (λ e. HasDeepEqual (Some e) (entity_at other.now q))) }
{
    for (uid, node) in one {
        if !has_deep_equal_at(&node.0, uid, other) {
            return false;
        }
    }
    true
}

// Checks whether `one` has each uid of `other`.
pub(crate) fn have_keys_of<S: BuildHasher>(
    one: &HashMap<SharedUid, SharedEntity, S>,
    other: &HashMap<SharedUid, SharedEntity, S>,
) -> bool
    ensures { IsTrue result ↔ ((q : EntityUID) →
        is_some (get same_uid other.now q) ≡ true → is_some (get same_uid one.now q) ≡ true) }
{
    for (uid, _node) in other {
        if !one.contains_key(uid) {
            return false;
        }
    }
    true
}
