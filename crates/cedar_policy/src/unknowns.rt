//! The entities that unknowns represent.
ghost use Rattle.std.specs.Prelude.{◌≡◌, ◌||◌, map, IfOk, OnOk};
ghost use Rattle.std.specs.HashSet.{contains};
ghost use Rattle.cedar_ids.specs.UidOf.{same_uid};
ghost use Rattle.cedar_ids.specs.declared.entity.EntityUID.{EntityUID};
ghost use Rattle.cedar_policy.specs.Unknowns.{AreUnknownEntities};
ghost use Rattle.cedar_policy.specs.laws.UnknownSteps.{is_this, NamesOnly, ReadsOnly};

use cedar_ids::entity::EntityUID;
use cedar_ids::err::ParseErrors;
use cedar_terms::unknown::Unknown;
use std::alloc::{AllocError, Global};
use std::collections::HashSet;
use std::hash::BuildHasher;

// Returns the uids that some unknowns represent.
pub(crate) fn are_entity_names<S: BuildHasher + Drop>(
    alloc: Global,
    hasher: S,
    unknowns: &[&Unknown],
) -> Result<HashSet<EntityUID, S>, AllocError>
    ensures { IfOk result (λ uids. AreUnknownEntities uids (map (λ u. u.now) unknowns.now)) }
{
    let mut uids = HashSet::with_hasher(alloc, hasher);
    for unknown in unknowns {
        let uid = is_entity_name(alloc, unknown)?;
        put(&mut uids, uid)?;
    }
    Ok(uids)
}

// Inserts a uid into a set, if there is one.
fn put<S: BuildHasher>(
    uids: &mut HashSet<EntityUID, S>,
    uid: Option<EntityUID>,
) -> Result<(), AllocError>
    ensures { OnOk result ((u : EntityUID) →
        contains same_uid uids.new u ≡ (contains same_uid uids.old u || is_this uid u)) }
{
    match uid {
        None => Ok(()),
        Some(uid) => {
            uids.insert(uid)?;
            Ok(())
        }
    }
}

// Returns the uid that an unknown represents, if there is one.
fn is_entity_name(alloc: Global, unknown: &Unknown) -> Result<Option<EntityUID>, AllocError>
    ensures { IfOk result (λ uid. NamesOnly uid unknown.now) }
{
    if unknown.type_annotation.is_none() {
        return Ok(None);
    }
    uid_read(alloc, unknown.name.as_str())
}

// Returns the uid whose printed form is the text, if there is one.
fn uid_read(alloc: Global, text: &str) -> Result<Option<EntityUID>, AllocError>
    ensures { IfOk result (λ uid. ReadsOnly uid text.now) }
{
    match EntityUID::from_normalized_str(alloc, text) {
        Ok(uid) => Ok(Some(uid)),
        Err(ParseErrors::Memory) => Err(AllocError),
        Err(_) => Ok(None),
    }
}
