//! Reading of a field as a uid.
ghost use Rattle.std.specs.Prelude.{◌≡◌, IfOk};
ghost use Rattle.cedar_ids.specs.Escape.{is_ascii};
ghost use Rattle.cedar_ids.specs.TextOf.{IsPrinted};
ghost use Rattle.cedar_ids.specs.UidOf.{uid_parts};
ghost use Rattle.cedar_ids.specs.declared.entity.EntityUID.{EntityUID};
ghost use Rattle.cedar_lines.specs.Reads.{ReadsAs};

use cedar_ids::entity::EntityUID;
use cedar_ids::err::ParseErrors;
use std::alloc::{AllocError, Global};

// Returns whether the eid of a uid is ASCII.
fn has_ascii_eid(uid: &EntityUID) -> bool
    ensures { result ≡ is_ascii (uid_parts uid.now).eid }
{
    uid.eid().as_ref().is_ascii()
}

/// Reads a field as a uid with an ASCII eid. Returns nothing if the field is not the text of such a uid.
///
/// # Errors
///
/// Returns `AllocError` if an allocation fails.
///
/// # Complexity
///
/// O(n), where n is the length of the field. Allocates the uid.
///
/// # Differences from cedar-policy-core
///
/// The original has no such function.
pub fn uid_field(alloc: Global, text: &str) -> Result<Option<EntityUID>, AllocError>
    ensures { IfOk result (ReadsAs (λ (u : EntityUID). IsPrinted (uid_parts u) text.now) (λ u. u)) }
{
    match EntityUID::from_normalized_str(alloc, text) {
        Ok(uid) => {
            if has_ascii_eid(&uid) {
                Ok(Some(uid))
            } else {
                Ok(None)
            }
        }
        Err(ParseErrors::Memory) => Err(AllocError),
        Err(ParseErrors::NotNormalized) => Ok(None),
        Err(ParseErrors::InvalidName) => Ok(None),
    }
}
