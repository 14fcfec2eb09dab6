//! The errors of entities and of stores of entities.
ghost use Rattle.std.specs.Prelude.{◌≡◌, IfOk};
ghost use Rattle.cedar_entity.specs.declared.err.EntitiesError.TheVariants.{Memory};
ghost use Rattle.cedar_entity.specs.ClosureErrors.{refusal_of, ReportsClosureError};

use cedar_graph::{HasCycle, MissingTcEdge, TcError};
use cedar_ids::entity::EntityUID;
use cedar_uid_sets::SharedUid;
use std::alloc::{AllocError, AllocFailed};
use thiserror::Error;

/// The error of an invalid entity, or of a call on a store of entities.
///
/// # Differences from cedar-policy-core
///
/// The original nests the errors, and has further kinds for its JSON formats.
#[derive(Debug, Drop, Error)]
pub enum EntitiesError {
    /// Two entities with this uid differ by `Entity::deep_eq`.
    #[error("duplicate entity `{0}`")]
    Duplicate(EntityUID),
    /// The check of the closure failed. A call on a store reports a failed allocation as `Memory` instead.
    #[error("{0}")]
    TransitiveClosureError(TcError<EntityUID>),
    /// An entity is one of its own ancestors.
    #[error("entity `{uid}` is its own ancestor")]
    SelfAncestor {
        /// The uid of the entity.
        uid: EntityUID,
    },
    /// A uid is both a parent and an indirect ancestor.
    #[error("entity `{uid}` has `{ancestor}` as parent and as indirect ancestor")]
    DuplicateAncestor {
        /// The uid of the entity.
        uid: EntityUID,
        /// The least uid that is both.
        ancestor: EntityUID,
    },
    /// An action has an ancestor that is not an action.
    #[error("action `{uid}` has the ancestor `{parent}`, which is not an action")]
    ActionParentIsNotAction {
        /// The uid of the action.
        uid: EntityUID,
        /// The least parent that is not an action or, if there is none, the least such indirect ancestor.
        parent: EntityUID,
    },
    /// A record in an attribute or a tag has a reserved key.
    #[error("the key `{0}` is reserved")]
    ReservedKey(String),
    /// An allocation failed.
    #[error("out of memory")]
    Memory,
}

impl From<AllocError> for EntitiesError {
    ghost from_gives = { λ _ e. e ≡ Memory };

    fn from(_error: AllocError) -> EntitiesError {
        EntitiesError::Memory
    }
}

impl<T: Drop> From<AllocFailed<T>> for EntitiesError {
    ghost from_gives = { λ _ e. e ≡ Memory };

    fn from(_error: AllocFailed<T>) -> EntitiesError {
        EntitiesError::Memory
    }
}

/// Converts an error of the closure. `Memory` becomes `Memory`. Any other error becomes `TransitiveClosureError`.
impl From<TcError<EntityUID>> for EntitiesError {
    ghost from_gives = { λ t e. e ≡ refusal_of t };

    fn from(error: TcError<EntityUID>) -> EntitiesError {
        match error {
            TcError::MissingTcEdge(edge) => {
                EntitiesError::TransitiveClosureError(TcError::MissingTcEdge(edge))
            }
            TcError::HasCycle(cycle) => {
                EntitiesError::TransitiveClosureError(TcError::HasCycle(cycle))
            }
            TcError::Memory => EntitiesError::Memory,
        }
    }
}

// Converts the shared uids of an error to plain uids.
fn unshared(fault: TcError<SharedUid>) -> Result<TcError<EntityUID>, AllocError>
    ensures { IfOk result (λ t. t ≡ fault) }
{
    match fault {
        TcError::MissingTcEdge(edge) => {
            let MissingTcEdge {
                child,
                parent,
                grandparent,
            } = edge;
            let child = child.into_uid()?;
            let parent = parent.into_uid()?;
            let grandparent = grandparent.into_uid()?;
            Ok(TcError::MissingTcEdge(MissingTcEdge {
                child,
                parent,
                grandparent,
            }))
        }
        TcError::HasCycle(cycle) => {
            let vertex = cycle.into_vertex().into_uid()?;
            Ok(TcError::HasCycle(HasCycle::new(vertex)))
        }
        TcError::Memory => Ok(TcError::Memory),
    }
}

/// Converts an error of the closure, with plain uids in place of the shared ones. A uid that is still shared is copied.
///
/// `Memory` becomes `Memory`. Any other error becomes `TransitiveClosureError`. If the allocation of a copy fails, the
/// result is `Memory` too.
impl From<TcError<SharedUid>> for EntitiesError {
    ghost from_gives = { λ t e. ReportsClosureError t e };

    fn from(error: TcError<SharedUid>) -> EntitiesError {
        match unshared(error) {
            Ok(fault) => EntitiesError::from(fault),
            Err(_want) => EntitiesError::Memory,
        }
    }
}
