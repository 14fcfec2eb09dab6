//! The entity of a line. It is created in one place, so that neither the uid nor the entity is moved again.
ghost use Rattle.std.specs.Prelude.{◌≡◌, [], ◌∷◌, List, IfOk, MatchOption, map};
ghost use Rattle.std.specs.FinSet as set;
ghost use Rattle.cedar_ids.specs.TextOf.{IsPrinted};
ghost use Rattle.cedar_ids.specs.UidOf.{uid_parts};
ghost use Rattle.cedar_ids.specs.declared.entity.EntityUID.{EntityUID};
ghost use Rattle.cedar_entity_lines.specs.EntityCommand.{AreTexts};
ghost use Rattle.cedar_entity_lines.specs.laws.Made.{IsMade};

use crate::parent_fields::{KnownUids, parent_of_text, parents_of_fields};
use cedar_entities::Entity;
use cedar_ids::entity::EntityUID;
use cedar_lines::known_types::uid_of_text;
use cedar_uid_sets::{SharedUid, UidSet};
use std::alloc::{AllocError, Global};
use std::rc::Rc;

// Creates the shared entity with this uid and these parents.
#[inline(always)]
pub(crate) fn shared_entity(
    alloc: Global,
    uid: EntityUID,
    parents: UidSet,
) -> Result<Rc<Entity>, AllocError>
    ensures { IfOk result (λ e. (ps : List EntityUID) → parents ≡ set.from_list ps → IsMade e.value uid ps) }
{
    match Rc::new(alloc, Entity::with_parent_set(alloc, uid, parents)) {
        Ok(entity) => Ok(entity),
        Err(_refused) => Err(AllocError),
    }
}

// Reads the uid of an entity, and creates the entity with these parents. Returns nothing if the text is not a uid.
fn entity_of_text(
    alloc: Global,
    known: &mut KnownUids,
    text: &str,
    parents: UidSet,
) -> Result<Option<Rc<Entity>>, AllocError>
    ensures { IfOk result (λ o. (ps : List EntityUID) → parents ≡ set.from_list ps → MatchOption o
        ((u : EntityUID) → IsPrinted (uid_parts u) text.now → ⊥)
        (λ e. (u : EntityUID) × IsPrinted (uid_parts u) text.now × IsMade e.value u ps)) }
{
    match uid_of_text(alloc, &mut known.types, text) {
        Ok(Some(uid)) => Ok(Some(shared_entity(alloc, uid, parents)?)),
        Ok(None) => Ok(None),
        Err(error) => Err(error),
    }
}

// Creates the set with one parent.
fn set_of_one(alloc: Global, parent: SharedUid) -> Result<UidSet, AllocError>
    ensures { IfOk result (λ s. s ≡ set.from_list (parent ∷ [])) }
{
    Ok(UidSet::from_ascending(vec![in alloc; parent]?))
}

// Reads each field as a parent, and creates the set of parents. Returns nothing if one is not a uid. Most entities have
// at most one parent, and their sets need no sorting.
fn parent_set(
    alloc: Global,
    known: &mut KnownUids,
    fields: &[&str],
) -> Result<Option<UidSet>, AllocError>
    ensures { IfOk result (λ o. MatchOption o
        ((ps : List EntityUID) → AreTexts ps (map (λ f. f.now) fields.now) → ⊥)
        (λ s. (ps : List EntityUID) × AreTexts ps (map (λ f. f.now) fields.now) × (s ≡ set.from_list ps))) }
{
    let Some((first, rest)) = fields.split_first() else {
        return Ok(Some(UidSet::new(alloc)));
    };
    if rest.is_empty() {
        let Some(parent) = parent_of_text(alloc, known, first)? else {
            return Ok(None);
        };
        return Ok(Some(set_of_one(alloc, parent)?));
    }
    let Some(parents) = parents_of_fields(alloc, known, fields)? else {
        return Ok(None);
    };
    Ok(Some(UidSet::from_pointers(parents)?))
}

// Creates the entity with the uid of the first field and the parents of the others. Returns nothing if a field is not a
// uid.
pub(crate) fn entity_of_fields(
    alloc: Global,
    known: &mut KnownUids,
    fields: &[&str],
) -> Result<Option<Rc<Entity>>, AllocError>
    ensures { IfOk result (λ o. MatchOption o
        ((u : EntityUID) (ps : List EntityUID) → AreTexts (u ∷ ps) (map (λ f. f.now) fields.now) → ⊥)
        (λ e. (u : EntityUID) × (ps : List EntityUID) × AreTexts (u ∷ ps) (map (λ f. f.now) fields.now)
        × IsMade e.value u ps)) }
{
    let Some((first, rest)) = fields.split_first() else {
        return Ok(None);
    };
    let Some(parents) = parent_set(alloc, known, rest)? else {
        return Ok(None);
    };
    entity_of_text(alloc, known, first, parents)
}
