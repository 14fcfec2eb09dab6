//! Commands on the store, and how to read them from the fields of a line.
ghost use Rattle.std.specs.Prelude.{◌≡◌, ◌∷◌, [], List, IfOk, map};
ghost use Rattle.cedar_ids.specs.declared.entity.EntityUID.{EntityUID};
ghost use Rattle.cedar_lines.specs.Reads.{ReadsAs};
ghost use Rattle.cedar_entity_lines.specs.EntityCommand.{AreTexts, IsEntityCommand};
ghost use Rattle.cedar_entity_lines.specs.CommandOf.{entity_command_of};

use crate::parent_fields::{KnownUids, parents_of_fields};
use cedar_ids::entity::EntityUID;
use cedar_lines::known_types::{KnownTypes, uid_of_text};
use cedar_uid_sets::SharedUid;
use std::alloc::{AllocError, Global};

/// A command on the store of entities.
///
/// # Differences from cedar-policy-core
///
/// The original has no such type.
#[derive(Debug, Drop)]
pub enum EntityCommand {
    /// Queues an entity with this uid and these parents.
    Ent(EntityUID, Vec<SharedUid>),
    /// Replaces the store by a store of the queued entities.
    Build,
    /// Adds the queued entities to the store.
    Add,
    /// Adds the queued entities to the store, and replaces entities with the same uids.
    Upsert,
    /// Removes the entities with these uids.
    Remove(Vec<EntityUID>),
    /// Replaces the store by its slice at these uids: the entities with these uids and their ancestors.
    Slice(Vec<EntityUID>),
    /// Writes the ancestors of the entity with this uid.
    Anc(EntityUID),
}

// Reads each field as a uid. Returns nothing if one is not.
fn uid_fields(
    alloc: Global,
    known: &mut KnownTypes,
    fields: &[&str],
) -> Result<Option<Vec<EntityUID>>, AllocError>
    ensures { IfOk result (ReadsAs
        (λ (us : List EntityUID). AreTexts us (map (λ f. f.now) fields.now))
        (λ us. us.items)) }
{
    let mut uids = Vec::with_capacity(alloc, fields.len())?;
    for field in fields {
        match uid_of_text(alloc, known, field)? {
            None => return Ok(None),
            Some(uid) => uids.push(uid)?,
        }
    }
    Ok(Some(uids))
}

// Reads the uid of the first field, and the others as parents. Returns nothing if one is not a uid.
fn ent_fields(
    alloc: Global,
    known: &mut KnownUids,
    fields: &[&str],
) -> Result<Option<(EntityUID, Vec<SharedUid>)>, AllocError>
    ensures { IfOk result (ReadsAs
        (λ (p : EntityUID × List EntityUID). AreTexts (p.0 ∷ p.1) (map (λ f. f.now) fields.now))
        (λ p. (p.0, p.1.items))) }
{
    let Some((first, rest)) = fields.split_first() else {
        return Ok(None);
    };
    let Some(uid) = uid_of_text(alloc, &mut known.types, first)? else {
        return Ok(None);
    };
    let Some(parents) = parents_of_fields(alloc, known, rest)? else {
        return Ok(None);
    };
    Ok(Some((uid, parents)))
}

// Reads one or more fields as uids. Returns nothing if there is no field, or if one is not a uid.
fn some_fields(
    alloc: Global,
    known: &mut KnownUids,
    fields: &[&str],
) -> Result<Option<Vec<EntityUID>>, AllocError>
    ensures { IfOk result (ReadsAs
        (λ (us : List EntityUID). (us ≡ [] → ⊥) × AreTexts us (map (λ f. f.now) fields.now))
        (λ us. us.items)) }
{
    if fields.is_empty() {
        return Ok(None);
    }
    uid_fields(alloc, &mut known.types, fields)
}

// Reads the only field as a uid. Returns nothing if there is another number of fields, or if it is not a uid.
fn anc_fields(
    alloc: Global,
    known: &mut KnownUids,
    fields: &[&str],
) -> Result<Option<EntityUID>, AllocError>
    ensures { IfOk result (ReadsAs
        (λ (u : EntityUID). AreTexts (u ∷ []) (map (λ f. f.now) fields.now))
        (λ u. u)) }
{
    let Some((first, rest)) = fields.split_first() else {
        return Ok(None);
    };
    if !rest.is_empty() {
        return Ok(None);
    }
    uid_of_text(alloc, &mut known.types, first)
}

// Returns the command that consists of only this word.
fn command_of_word(word: &str) -> Option<EntityCommand>
    ensures { ReadsAs (λ c. IsEntityCommand c (word.now ∷ [])) entity_command_of result }
{
    if word == "build" {
        return Some(EntityCommand::Build);
    }
    if word == "add" {
        return Some(EntityCommand::Add);
    }
    if word == "upsert" {
        return Some(EntityCommand::Upsert);
    }
    None
}

/// Reads a command on the store from the fields of a line. Returns nothing if the fields are not such a command. The
/// first field is the word of the command, and the others are texts of uids with ASCII eids. The entity types and
/// parents are cached in `known` and shared with later lines.
///
/// # Errors
///
/// Returns `AllocError` if an allocation fails.
///
/// # Complexity
///
/// O(n), where n is the total length of the fields. Allocates the uids and new cache entries.
///
/// # Differences from cedar-policy-core
///
/// The original has no such function.
pub fn read_entity_command(
    alloc: Global,
    known: &mut KnownUids,
    fields: &[&str],
) -> Result<Option<EntityCommand>, AllocError>
    ensures { IfOk result (ReadsAs
        (λ c. IsEntityCommand c (map (λ f. f.now) fields.now)) entity_command_of) }
{
    let Some((word, rest)) = fields.split_first() else {
        return Ok(None);
    };
    if *word == "ent" {
        return match ent_fields(alloc, known, rest)? {
            None => Ok(None),
            Some((uid, parents)) => Ok(Some(EntityCommand::Ent(uid, parents))),
        };
    }
    if *word == "anc" {
        return match anc_fields(alloc, known, rest)? {
            None => Ok(None),
            Some(uid) => Ok(Some(EntityCommand::Anc(uid))),
        };
    }
    if *word == "remove" {
        return match some_fields(alloc, known, rest)? {
            None => Ok(None),
            Some(uids) => Ok(Some(EntityCommand::Remove(uids))),
        };
    }
    if *word == "slice" {
        return match some_fields(alloc, known, rest)? {
            None => Ok(None),
            Some(uids) => Ok(Some(EntityCommand::Slice(uids))),
        };
    }
    if !rest.is_empty() {
        return Ok(None);
    }
    Ok(command_of_word(word))
}
