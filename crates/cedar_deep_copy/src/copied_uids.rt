//! The uids of a copy, each once.
ghost use Rattle.std.specs.Prelude.{◌≡◌, IfOk, IfSome};
ghost use Rattle.cedar_ids.specs.Views.{type_name};

use crate::uids::{deep_copy_type, uid_of_type};
use cedar_ids::entity::{EntityType, EntityUID};
use cedar_uid_sets::SharedUid;
use std::alloc::{AllocError, Global};
use std::collections::HashSet;
use std::hash::BuildHasher;

// The greatest number of types that are shared.
const MOST: usize = 16;

/// The uids of a copy, each once, and up to 16 of their types. An equal uid or type is shared within the copy. So a
/// copy of a source with at most 16 types needs no more memory than its source.
#[derive(Drop)]
pub struct CopiedUids<S: BuildHasher> {
    uids: HashSet<SharedUid, S>,
    types: Vec<EntityType>,
}

// Returns the known type with the same name, shared once more, if there is one.
fn known_type(types: &[EntityType], ty: &EntityType) -> Result<Option<EntityType>, AllocError>
    ensures { IfOk result (λ o. IfSome o (λ t. type_name t ≡ type_name ty.now)) }
{
    for known in types {
        if known.name() == ty.name() {
            let copy = known.with_loc(None)?;
            return Ok(Some(copy));
        }
    }
    Ok(None)
}

// Returns the type of the copy that is equal to `ty`: a known one, or a copy. The copy becomes known, unless there are
// too many.
fn copied_type(
    alloc: Global,
    types: &mut Vec<EntityType>,
    ty: &EntityType,
) -> Result<EntityType, AllocError>
    ensures { IfOk result (λ t. type_name t ≡ type_name ty.now) }
{
    if let Some(known) = known_type(types, ty)? {
        return Ok(known);
    }
    let own = deep_copy_type(alloc, ty)?;
    if types.len() < MOST {
        types.push(own.with_loc(None)?)?;
    }
    Ok(own)
}

impl<S: BuildHasher + Clone> CopiedUids<S> {
    /// Creates an empty set of uids. Does not allocate.
    pub fn new(alloc: Global, hasher: S) -> CopiedUids<S> {
        CopiedUids {
            uids: HashSet::with_hasher(alloc, hasher),
            types: Vec::new(alloc),
        }
    }

    /// Returns the hasher builder. Does not allocate.
    pub fn hasher(&self) -> &S {
        self.uids.hasher()
    }

    // Returns the known uid, shared once more, if there is one.
    fn known(&self, uid: &EntityUID) -> Result<Option<SharedUid>, AllocError>
        ensures { IfOk result (λ o. IfSome o (λ s. s ≡ uid.now)) }
    {
        match self.uids.get(uid) {
            None => Ok(None),
            Some(known) => Ok(Some(known.clone()?)),
        }
    }

    /// Returns a uid that is equal to `uid` and shares nothing with it: a known uid of this set, or a new copy, which
    /// is then known.
    ///
    /// # Errors
    ///
    /// Returns `AllocError` if an allocation fails.
    pub fn shared(&mut self, alloc: Global, uid: &EntityUID) -> Result<SharedUid, AllocError>
        ensures { IfOk result (λ s. s ≡ uid.now) }
    {
        if let Some(known) = self.known(uid)? {
            return Ok(known);
        }
        let ty = copied_type(alloc, &mut self.types, uid.entity_type())?;
        let own = SharedUid::new(alloc, uid_of_type(alloc, ty, uid)?)?;
        self.uids.insert(own.clone()?)?;
        Ok(own)
    }
}
