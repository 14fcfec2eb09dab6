//! Deep copies of names, types and uids.
ghost use Rattle.std.specs.Prelude.{◌≡◌, IfOk};
ghost use Rattle.cedar_ids.specs.Views.{type_name};
ghost use Rattle.cedar_ids.specs.UidOf.{uid_parts};

use cedar_ids::entity::{Eid, EntityType, EntityUID};
use cedar_ids::name::Name;
use std::alloc::{AllocError, Global};

/// Returns a deep copy of a name. It parses the text of the name, and the location of the copy is that text. Linear in
/// the length of the text.
///
/// # Errors
///
/// Returns `AllocError` if an allocation fails.
pub fn deep_copy_name(alloc: Global, name: &Name) -> Result<Name, AllocError>
    ensures { IfOk result (λ n. n ≡ name.now) }
{
    // No effect at run time: the contract of this call states that the components are ids.
    let _ = name.basename();
    let text = name.to_string(alloc)?;
    match Name::from_normalized_str(alloc, text.as_str()) {
        Ok(copy) => Ok(copy),
        Err(_want) => Err(AllocError),
    }
}

/// Returns a deep copy of a type, without a location.
///
/// # Errors
///
/// Returns `AllocError` if an allocation fails.
pub fn deep_copy_type(alloc: Global, ty: &EntityType) -> Result<EntityType, AllocError>
    ensures { IfOk result (λ t. type_name t ≡ type_name ty.now) }
{
    let name = deep_copy_name(alloc, ty.name())?;
    EntityType::EntityType(name).with_loc(None)
}

// Creates a uid from its own copy of the type and a copy of the eid of `uid`. It has no location.
pub(crate) fn uid_of_type(
    alloc: Global,
    ty: EntityType,
    uid: &EntityUID,
) -> Result<EntityUID, AllocError>
    requires { type_name ty ≡ (uid_parts uid.now).name }
    ensures { IfOk result (λ u. u ≡ uid.now) }
{
    let eid = String::from_str(alloc, uid.eid().as_ref())?;
    Ok(EntityUID::from_components(ty, Eid::new(eid), None))
}

/// Returns a deep copy of a uid, without a location. Linear in the length of the uid's text.
///
/// # Errors
///
/// Returns `AllocError` if an allocation fails.
pub fn deep_copy_uid(alloc: Global, uid: &EntityUID) -> Result<EntityUID, AllocError>
    ensures { IfOk result (λ u. u ≡ uid.now) }
{
    let ty = deep_copy_type(alloc, uid.entity_type())?;
    uid_of_type(alloc, ty, uid)
}
