//! The faults of an entity. `Entity::validate` and `Entity::is_valid` search for the first one.

use cedar_ids::entity::EntityUID;

// A fault of an entity, in the order of the checks. Nothing is copied.
#[derive(Debug, Drop)]
pub(crate) enum Fault<'a> {
    // The entity is its own ancestor.
    SelfAncestor,
    // This parent is also an indirect ancestor.
    DuplicateAncestor(&'a EntityUID),
    // The entity is an action, and this ancestor is not.
    ActionParentIsNotAction(&'a EntityUID),
    // A record in a value has this key.
    ReservedKey(&'a str),
}
