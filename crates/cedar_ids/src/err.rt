//! The errors of parsing ids, names and uids.
ghost use Rattle.std.specs.Prelude.{◌≡◌};
ghost use Rattle.cedar_ids.specs.declared.err.ParseErrors.TheVariants.{Memory};

use std::alloc::{AllocError, AllocFailed};
use thiserror::Error;

/// The reason why a text could not be parsed.
///
/// # Differences from cedar-policy-core
///
/// The original stores the errors of its parser here.
#[derive(Debug, Drop, Error)]
pub enum ParseErrors {
    /// The text of a uid does not end in `"`, has no `::"` before that, or has an invalid escaped text between the two.
    /// Only [`EntityUID::from_normalized_str`](crate::EntityUID::from_normalized_str) returns this error.
    #[error("not a normalized entity uid")]
    NotNormalized,
    /// The text is not an identifier or not a name, whichever the function reads. For a uid, the text before the first
    /// `::"` is not a name.
    #[error("not a valid name")]
    InvalidName,
    /// An allocation failed. The text may be valid or invalid.
    #[error("out of memory")]
    Memory,
}

impl From<AllocError> for ParseErrors {
    ghost from_gives = { λ _ e. e ≡ Memory };

    fn from(_error: AllocError) -> ParseErrors {
        ParseErrors::Memory
    }
}

impl<T: Drop> From<AllocFailed<T>> for ParseErrors {
    ghost from_gives = { λ _ e. e ≡ Memory };

    fn from(_error: AllocFailed<T>) -> ParseErrors {
        ParseErrors::Memory
    }
}
