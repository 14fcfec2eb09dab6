//! The texts of uids.
ghost use Rattle.std.specs.Prelude.{◌≡◌, ◌∷◌, ◌++◌, IfOk, List, OnOk, [], ℕ};
ghost use Rattle.cedar_c_lists.specs.Texts.{IsAsciiUid, IsTextOf, spaced};

use crate::answer::Answer;
use cedar_ids::entity::EntityUID;
use std::alloc::{AllocError, Global};

/// Appends a blank and the text of a uid.
///
/// # Errors
///
/// Returns `AllocError` if an allocation fails.
pub fn push_uid(alloc: Global, out: &mut Vec<u8>, uid: &EntityUID) -> Result<(), AllocError>
    ensures { OnOk result (IsAsciiUid uid.now → out.new.items ≡ out.old.items ++ spaced uid.now) }
{
    let text = format!(in alloc; " {uid}")?;
    out.extend_from_slice(text.as_bytes())
}

/// Appends the text of a uid to a list of texts, and returns the list.
///
/// # Errors
///
/// Returns `AllocError` if an allocation fails.
pub fn with_uid(alloc: Global, answer: Answer, uid: &EntityUID) -> Result<Answer, AllocError>
    ensures { IfOk result (λ a. (t : List ℕ) × IsTextOf uid.now t × (a ≡ answer ++ t ∷ [])) }
{
    let text = uid.to_string(alloc)?;
    answer.with(text.as_bytes())
}
