//! The errors of creating static policies and of validating templates.
ghost use Rattle.std.specs.Prelude.{◌≡◌, IfOk, map};
ghost use Rattle.cedar_ids.specs.NonEmpties.{all_of};
ghost use Rattle.cedar_ids.specs.UidOf.{uid_parts};
ghost use Rattle.cedar_policy.specs.Faults.{fault_of};

use cedar_action::action::UidPairs;
use cedar_ids::entity::EntityUID;
use cedar_ids::non_empty::NonEmpty;
use cedar_terms::err::ExprValidationError;
use cedar_terms::slot::Slot;
use std::alloc::{AllocError, AllocFailed};
use std::rc::Rc;
use thiserror::Error;

/// The reason why a body is not a static policy. Two errors are equal if they contain the same slot, regardless of its
/// location.
///
/// # Differences from cedar-policy-core
///
/// The original has no variant for allocation failures.
#[derive(Clone, Debug, Drop, PartialEq, Eq, Error)]
pub enum UnexpectedSlotError {
    /// The body has this slot, which is the first one of its condition.
    #[error("found slot `{}` where slots are not allowed", .0.id)]
    FoundSlot(Slot),
    /// An allocation failed.
    #[error("out of memory")]
    Memory,
}

impl From<AllocError> for UnexpectedSlotError {
    ghost use Rattle.cedar_policy.specs.declared.err.UnexpectedSlotError.TheVariants.{Memory};

    ghost from_gives = { λ _ e. e ≡ Memory };

    fn from(_error: AllocError) -> UnexpectedSlotError {
        UnexpectedSlotError::Memory
    }
}

impl<T: Drop> From<AllocFailed<T>> for UnexpectedSlotError {
    ghost use Rattle.cedar_policy.specs.declared.err.UnexpectedSlotError.TheVariants.{Memory};

    ghost from_gives = { λ _ e. e ≡ Memory };

    fn from(_error: AllocFailed<T>) -> UnexpectedSlotError {
        UnexpectedSlotError::Memory
    }
}

/// The reason why a template is invalid. `clone` allocates for a list of uids, which are shared, and for a name.
///
/// # Differences from cedar-policy-core
///
/// The original has no variant for allocation failures. In the original, the variants for slots and actions contain
/// structs of its parser.
#[derive(Debug, Drop, Error)]
pub enum TemplateValidationError {
    /// The clause contains this slot, which is the first one in it.
    #[error("found slot `{}` in a condition clause", .0.id)]
    SlotsInConditionClause(Slot),
    /// These uids of the action constraint are not actions. They are in the order of its list.
    #[error("the action constraint holds uids that are not actions: {}", UidPairs(.0))]
    InvalidActionType(NonEmpty<Rc<EntityUID>>),
    /// The stored slots of a template differ from the slots of its condition. This error is never returned, because no
    /// such template can be created.
    #[error("template slot cache is inconsistent with condition expression")]
    SlotCacheMismatch,
    /// The clause is invalid: it calls an unknown function.
    #[error("{0}")]
    InvalidExpression(ExprValidationError),
    /// An allocation failed.
    #[error("out of memory")]
    Memory,
}

impl From<AllocError> for TemplateValidationError {
    ghost use Rattle.cedar_policy.specs.declared.err.TemplateValidationError.TheVariants.{Memory};

    ghost from_gives = { λ _ e. e ≡ Memory };

    fn from(_error: AllocError) -> TemplateValidationError {
        TemplateValidationError::Memory
    }
}

impl<T: Drop> From<AllocFailed<T>> for TemplateValidationError {
    ghost use Rattle.cedar_policy.specs.declared.err.TemplateValidationError.TheVariants.{Memory};

    ghost from_gives = { λ _ e. e ≡ Memory };

    fn from(_error: AllocFailed<T>) -> TemplateValidationError {
        TemplateValidationError::Memory
    }
}

impl Clone for TemplateValidationError {
    ghost is_clone = { λ x y. fault_of y ≡ fault_of x };

    fn clone(&self) -> Result<TemplateValidationError, AllocError> {
        match self {
            TemplateValidationError::SlotsInConditionClause(slot) => {
                let slot = slot.clone()?;
                Ok(TemplateValidationError::SlotsInConditionClause(slot))
            }
            TemplateValidationError::InvalidActionType(euids) => {
                let euids = copy_of_uids(euids)?;
                Ok(TemplateValidationError::InvalidActionType(euids))
            }
            TemplateValidationError::SlotCacheMismatch => {
                Ok(TemplateValidationError::SlotCacheMismatch)
            }
            TemplateValidationError::InvalidExpression(error) => {
                let error = error.clone()?;
                Ok(TemplateValidationError::InvalidExpression(error))
            }
            TemplateValidationError::Memory => Ok(TemplateValidationError::Memory),
        }
    }
}

// Copies a list of uids, which are shared.
fn copy_of_uids(euids: &NonEmpty<Rc<EntityUID>>) -> Result<NonEmpty<Rc<EntityUID>>, AllocError>
    ensures { IfOk result (λ copy. map (λ u. uid_parts u.value) (all_of copy)
        ≡ map (λ u. uid_parts u.value) (all_of euids.now)) }
{
    Ok(NonEmpty {
        head: euids.head.clone()?,
        tail: euids.tail.clone()?,
    })
}
