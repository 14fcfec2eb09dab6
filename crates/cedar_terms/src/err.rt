//! The errors of validating an expression.
ghost use Rattle.std.specs.Prelude.{◌≡◌};
ghost use Rattle.cedar_terms.specs.declared.err.ExprValidationError.TheVariants.{Memory};

use cedar_ids::name::Name;
use std::alloc::{AllocError, AllocFailed};
use thiserror::Error;

/// The reason why an expression is invalid.
///
/// # Differences from cedar-policy-core
///
/// The original has no variant for allocation failures.
#[derive(Debug, Drop, Error)]
pub enum ExprValidationError {
    /// The expression calls a function other than `ip`, `decimal`, `datetime` and `duration`.
    #[error("`{name}` is not a known function")]
    UnknownFunction {
        /// The name of the function.
        name: Name,
    },
    /// An allocation failed.
    #[error("out of memory")]
    Memory,
}

impl Clone for ExprValidationError {
    ghost is_clone = { λ x y. y ≡ x };

    /// Copies the error.
    ///
    /// # Errors
    ///
    /// Returns `AllocError` if an allocation fails.
    fn clone(&self) -> Result<ExprValidationError, AllocError> {
        match self {
            ExprValidationError::UnknownFunction { name } => {
                Ok(ExprValidationError::UnknownFunction {
                    name: name.clone()?,
                })
            }
            ExprValidationError::Memory => Ok(ExprValidationError::Memory),
        }
    }
}

impl From<AllocError> for ExprValidationError {
    ghost from_gives = { λ _ e. e ≡ Memory };

    fn from(_error: AllocError) -> ExprValidationError {
        ExprValidationError::Memory
    }
}

impl<T: Drop> From<AllocFailed<T>> for ExprValidationError {
    ghost from_gives = { λ _ e. e ≡ Memory };

    fn from(_error: AllocFailed<T>) -> ExprValidationError {
        ExprValidationError::Memory
    }
}
