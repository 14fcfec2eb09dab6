//! Uids from a type and an eid, and the type and eid of a uid.
ghost use Rattle.std.specs.Prelude.{◌≡◌, IfOk, MatchResult, length};
ghost use Rattle.std.specs.String.{string_bytes};
ghost use Rattle.cedar_ids.specs.Printed.{printed_name};
ghost use Rattle.cedar_ids.specs.UidOf.{uid_parts};
ghost use Rattle.cedar_c_lists.specs.Texts.{IsUnread};
ghost use Rattle.cedar_c_lists.specs.Uids.{IsSplitOf, IsTextOfUid, IsUnmade, CreatesUid, ReadsType, uid_bytes};

use crate::reading::uid_of;
use crate::reason::Reason;
use cedar_ids::entity::{Eid, EntityType, EntityUID};
use cedar_ids::err::ParseErrors;
use std::alloc::{AllocError, Global};
use std::str;

/// Parses the name of a type.
///
/// # Errors
///
/// - `NotAName`: the text is not a name.
/// - `NoMemory`: an allocation failed.
pub fn type_of(alloc: Global, text: &[u8]) -> Result<EntityType, Reason>
    ensures { ReadsType result text.now }
{
    let Ok(text) = str::from_utf8(text) else {
        return Err(Reason::NotAName);
    };
    match EntityType::from_normalized_str(alloc, text) {
        Ok(ty) => Ok(ty),
        Err(ParseErrors::Memory) => Err(Reason::NoMemory),
        Err(ParseErrors::NotNormalized) => Err(Reason::NotAName),
        Err(ParseErrors::InvalidName) => Err(Reason::NotAName),
    }
}

/// Creates a uid from the name of its type and the bytes of its eid.
///
/// # Errors
///
/// - `NotAName`: the text of the type is not a name.
/// - `NotUtf8`: the bytes of the eid are not UTF-8.
/// - `NoMemory`: an allocation failed.
pub fn uid_with(alloc: Global, ty: &[u8], eid: &[u8]) -> Result<EntityUID, Reason>
    ensures { CreatesUid result ty.now eid.now }
{
    let ty = type_of(alloc, ty)?;
    let Ok(eid) = str::from_utf8(eid) else {
        return Err(Reason::NotUtf8);
    };
    let eid = String::from_str(alloc, eid)?;
    Ok(EntityUID::from_components(ty, Eid::new(eid), None))
}

/// Returns the text of the uid with a type and an eid.
///
/// # Errors
///
/// The errors of [`uid_with`].
pub fn uid_text(alloc: Global, ty: &[u8], eid: &[u8]) -> Result<String, Reason>
    ensures { MatchResult result (λ t. IsTextOfUid ty.now eid.now (string_bytes t)) (IsUnmade ty.now eid.now) }
{
    let uid = uid_with(alloc, ty, eid)?;
    Ok(uid.to_string(alloc)?)
}

/// The text of a uid's type followed by the bytes of its eid, and the length of the first.
#[derive(Drop)]
pub struct UidTexts {
    /// Both texts, one after the other.
    pub bytes: Vec<u8>,
    /// The number of bytes of the type's text.
    pub type_len: usize,
}

// Returns the texts of a uid's type and eid.
fn apart(alloc: Global, uid: &EntityUID) -> Result<UidTexts, AllocError>
    ensures bytes { IfOk result (λ t. t.bytes.items ≡ uid_bytes uid.now) }
    ensures length { IfOk result (λ t. t.type_len ≡ length (printed_name (uid_parts uid.now).name)) }
{
    let ty = uid.entity_type();
    let text = ty.to_string(alloc)?;
    let mut bytes = Vec::new(alloc);
    bytes.extend_from_slice(text.as_bytes())?;
    let type_len = bytes.len();
    bytes.extend_from_slice(uid.eid().as_ref().as_bytes())?;
    Ok(UidTexts { bytes, type_len })
}

/// Parses a uid and returns the texts of its type and eid.
///
/// # Errors
///
/// - `NotAUid`: the text is not the text of a uid.
/// - `NoMemory`: an allocation failed.
pub fn parts_of(alloc: Global, text: &[u8]) -> Result<UidTexts, Reason>
    ensures { MatchResult result (λ t. IsSplitOf t text.now) (IsUnread text.now) }
{
    let uid = uid_of(alloc, text)?;
    Ok(apart(alloc, &uid)?)
}
