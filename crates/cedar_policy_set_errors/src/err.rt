//! The errors of policy set operations.
ghost use Rattle.std.specs.Prelude.{◌≡◌};
ghost use Rattle.cedar_policy_set_errors.specs.SetFaults.{set_fault_of};

use cedar_ids::policy_id::PolicyID;
use cedar_policy::TemplateValidationError;
use std::alloc::{AllocError, AllocFailed};
use thiserror::Error;

/// The reason why a policy or template could not be added to a set.
///
/// # Differences from cedar-policy-core
///
/// The original has no variant for allocation failures.
#[derive(Debug, Drop, Error)]
pub enum PolicySetError {
    /// The id is already in use.
    #[error("duplicate template or policy id `{id}`")]
    Occupied {
        /// The id.
        id: PolicyID,
    },
    /// An allocation failed.
    #[error("out of memory")]
    Memory,
}

impl From<AllocError> for PolicySetError {
    ghost use Rattle.cedar_policy_set_errors.specs.declared.err.PolicySetError.TheVariants.{Memory};

    ghost from_gives = { λ _ e. e ≡ Memory };

    fn from(_error: AllocError) -> PolicySetError {
        PolicySetError::Memory
    }
}

impl<T: Drop> From<AllocFailed<T>> for PolicySetError {
    ghost use Rattle.cedar_policy_set_errors.specs.declared.err.PolicySetError.TheVariants.{Memory};

    ghost from_gives = { λ _ e. e ≡ Memory };

    fn from(_error: AllocFailed<T>) -> PolicySetError {
        PolicySetError::Memory
    }
}

/// The reason why the policies of a template or static policy could not be listed.
///
/// # Differences from cedar-policy-core
///
/// The original has no variant for allocation failures.
#[derive(Debug, Drop, Error)]
pub enum PolicySetGetLinksError {
    /// There is no body with this id.
    #[error("No template `{0}`")]
    MissingTemplate(PolicyID),
    /// An allocation failed.
    #[error("out of memory")]
    Memory,
}

impl From<AllocError> for PolicySetGetLinksError {
    ghost use Rattle.cedar_policy_set_errors.specs.declared.err.PolicySetGetLinksError.TheVariants.{Memory};

    ghost from_gives = { λ _ e. e ≡ Memory };

    fn from(_error: AllocError) -> PolicySetGetLinksError {
        PolicySetGetLinksError::Memory
    }
}

impl<T: Drop> From<AllocFailed<T>> for PolicySetGetLinksError {
    ghost use Rattle.cedar_policy_set_errors.specs.declared.err.PolicySetGetLinksError.TheVariants.{Memory};

    ghost from_gives = { λ _ e. e ≡ Memory };

    fn from(_error: AllocFailed<T>) -> PolicySetGetLinksError {
        PolicySetGetLinksError::Memory
    }
}

/// The reason why a link could not be removed.
///
/// # Differences from cedar-policy-core
///
/// The original has no variant for allocation failures.
#[derive(Debug, Drop, Error)]
pub enum PolicySetUnlinkError {
    /// The id is not in use.
    #[error("unable to unlink policy id `{0}` because it does not exist")]
    UnlinkingError(PolicyID),
    /// The id belongs to a static policy or a template.
    #[error("unable to remove link with policy id `{0}` because it is a static policy")]
    NotLinkError(PolicyID),
    /// An allocation failed.
    #[error("out of memory")]
    Memory,
}

impl From<AllocError> for PolicySetUnlinkError {
    ghost use Rattle.cedar_policy_set_errors.specs.declared.err.PolicySetUnlinkError.TheVariants.{Memory};

    ghost from_gives = { λ _ e. e ≡ Memory };

    fn from(_error: AllocError) -> PolicySetUnlinkError {
        PolicySetUnlinkError::Memory
    }
}

impl<T: Drop> From<AllocFailed<T>> for PolicySetUnlinkError {
    ghost use Rattle.cedar_policy_set_errors.specs.declared.err.PolicySetUnlinkError.TheVariants.{Memory};

    ghost from_gives = { λ _ e. e ≡ Memory };

    fn from(_error: AllocFailed<T>) -> PolicySetUnlinkError {
        PolicySetUnlinkError::Memory
    }
}

/// The reason why a template could not be removed.
///
/// # Differences from cedar-policy-core
///
/// The original has no variant for allocation failures.
#[derive(Debug, Drop, Error)]
pub enum PolicySetTemplateRemovalError {
    /// The id is not in use.
    #[error("unable to remove template id `{0}` from template list because it does not exist")]
    RemovePolicyNoTemplateError(PolicyID),
    /// The template with this id has links.
    #[error("unable to remove template id `{0}` from template list because it still has active links")]
    RemoveTemplateWithLinksError(PolicyID),
    /// The id belongs to a static policy or a link.
    #[error("unable to remove template with policy id `{0}` because it is a static policy")]
    NotTemplateError(PolicyID),
    /// An allocation failed.
    #[error("out of memory")]
    Memory,
}

impl From<AllocError> for PolicySetTemplateRemovalError {
    ghost use Rattle.cedar_policy_set_errors.specs.declared.err.PolicySetTemplateRemovalError.TheVariants.{Memory};

    ghost from_gives = { λ _ e. e ≡ Memory };

    fn from(_error: AllocError) -> PolicySetTemplateRemovalError {
        PolicySetTemplateRemovalError::Memory
    }
}

impl<T: Drop> From<AllocFailed<T>> for PolicySetTemplateRemovalError {
    ghost use Rattle.cedar_policy_set_errors.specs.declared.err.PolicySetTemplateRemovalError.TheVariants.{Memory};

    ghost from_gives = { λ _ e. e ≡ Memory };

    fn from(_error: AllocFailed<T>) -> PolicySetTemplateRemovalError {
        PolicySetTemplateRemovalError::Memory
    }
}

/// The reason why a static policy could not be removed.
///
/// # Differences from cedar-policy-core
///
/// The original has no variant for allocation failures.
#[derive(Debug, Drop, Error)]
pub enum PolicySetPolicyRemovalError {
    /// No policy has this id.
    #[error("unable to remove static policy id `{0}` from link list because it does not exist")]
    RemovePolicyNoLinkError(PolicyID),
    /// The id belongs to a link.
    #[error("unable to remove static policy id `{0}` from template list because it does not exist")]
    RemovePolicyNoTemplateError(PolicyID),
    /// An allocation failed.
    #[error("out of memory")]
    Memory,
}

impl From<AllocError> for PolicySetPolicyRemovalError {
    ghost use Rattle.cedar_policy_set_errors.specs.declared.err.PolicySetPolicyRemovalError.TheVariants.{Memory};

    ghost from_gives = { λ _ e. e ≡ Memory };

    fn from(_error: AllocError) -> PolicySetPolicyRemovalError {
        PolicySetPolicyRemovalError::Memory
    }
}

impl<T: Drop> From<AllocFailed<T>> for PolicySetPolicyRemovalError {
    ghost use Rattle.cedar_policy_set_errors.specs.declared.err.PolicySetPolicyRemovalError.TheVariants.{Memory};

    ghost from_gives = { λ _ e. e ≡ Memory };

    fn from(_error: AllocFailed<T>) -> PolicySetPolicyRemovalError {
        PolicySetPolicyRemovalError::Memory
    }
}

/// The reason why a policy set is invalid. `clone` allocates copies of the ids and of the template's error.
///
/// # Differences from cedar-policy-core
///
/// The original has no variant for allocation failures.
#[derive(Debug, Drop, Error)]
pub enum PolicySetValidationError {
    /// A body is invalid. It is the first invalid one in the order of the bodies.
    #[error("invalid template `{id}`: {error}")]
    InvalidTemplate {
        /// The id of the body.
        id: PolicyID,
        /// The first error of the body.
        error: TemplateValidationError,
    },
    /// A link has a template without slots. It is the first one in the order of the policies.
    #[error("link `{link_id}` references template `{template_id}` which has no slots")]
    LinkToSlotlessTemplate {
        /// The id of the link.
        link_id: PolicyID,
        /// The id of its template.
        template_id: PolicyID,
    },
    /// An allocation failed.
    #[error("out of memory")]
    Memory,
}

impl From<AllocError> for PolicySetValidationError {
    ghost use Rattle.cedar_policy_set_errors.specs.declared.err.PolicySetValidationError.TheVariants.{Memory};

    ghost from_gives = { λ _ e. e ≡ Memory };

    fn from(_error: AllocError) -> PolicySetValidationError {
        PolicySetValidationError::Memory
    }
}

impl<T: Drop> From<AllocFailed<T>> for PolicySetValidationError {
    ghost use Rattle.cedar_policy_set_errors.specs.declared.err.PolicySetValidationError.TheVariants.{Memory};

    ghost from_gives = { λ _ e. e ≡ Memory };

    fn from(_error: AllocFailed<T>) -> PolicySetValidationError {
        PolicySetValidationError::Memory
    }
}

impl Clone for PolicySetValidationError {
    ghost is_clone = { λ x y. set_fault_of y ≡ set_fault_of x };

    fn clone(&self) -> Result<PolicySetValidationError, AllocError> {
        match self {
            PolicySetValidationError::InvalidTemplate { id, error } => {
                let id = id.clone()?;
                let error = error.clone()?;
                Ok(PolicySetValidationError::InvalidTemplate { id, error })
            }
            PolicySetValidationError::LinkToSlotlessTemplate {
                link_id,
                template_id,
            } => {
                let link_id = link_id.clone()?;
                let template_id = template_id.clone()?;
                Ok(PolicySetValidationError::LinkToSlotlessTemplate {
                    link_id,
                    template_id,
                })
            }
            PolicySetValidationError::Memory => Ok(PolicySetValidationError::Memory),
        }
    }
}
