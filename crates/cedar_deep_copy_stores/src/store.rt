//! Deep copies of stores.
ghost use Rattle.std.specs.Prelude.{◌≡◌, IfOk, false};
ghost use Rattle.std.specs.Option.{IfSome};
ghost use Rattle.cedar_entities.specs.Answers.{ListsEntityMap};
ghost use Rattle.cedar_entity_maps.specs.Plain.{IsPlainStore, StoreView};
ghost use Rattle.cedar_entity_maps.specs.InputStore.{InputStore};

use crate::entity::deep_copy_entity;
use cedar_deep_copy::CopiedUids;
use cedar_entities::{Entities, Entity, Iter, TCComputation};
use std::alloc::{AllocError, Global};
use std::hash::BuildHasher;

// Copies entities. The copies use the uids in `own`.
fn deep_copy_all<S: BuildHasher + Clone>(
    alloc: Global,
    own: &mut CopiedUids<S>,
    entities: Iter<'_>,
) -> Result<Vec<Entity>, AllocError>
    ensures { IfOk result (λ v. v.items ≡ entities.entry) }
{
    let mut copies = Vec::new(alloc);
    for entity in entities {
        copies.push(deep_copy_entity(alloc, own, entity)?)?;
    }
    Ok(copies)
}

// Creates a store of copies of the entities of a store. The result is not partial, and does not know that it is plain.
fn deep_copy_map<S: BuildHasher + Clone>(
    alloc: Global,
    store: &Entities<S>,
) -> Result<Entities<S>, AllocError>
    ensures entities { IfOk result (λ s. s.entities ≡ store.now.entities) }
    ensures partial { IfOk result (λ s. s.partial ≡ false) }
{
    let mut own = CopiedUids::new(alloc, store.hasher().clone()?);
    let list = deep_copy_all(alloc, &mut own, store.iter())?;
    let hasher = store.hasher().clone()?;
    let mode = TCComputation::AssumeAlreadyComputed;
    match Entities::from_entities_with_hasher(alloc, hasher, list, mode) {
        Ok(made) => Ok(made),
        Err(_want) => Err(AllocError),
    }
}

// Returns the store with the same entities, partial exactly if `other` is.
fn partial_as<S: BuildHasher + Clone>(store: Entities<S>, other: &Entities<S>) -> Entities<S>
    requires { store.partial ≡ false }
    ensures { result ≡ record store { partial = other.now.partial } }
{
    if other.is_partial() {
        store.partial()
    } else {
        store
    }
}

/// Creates a deep copy of a store, which shares nothing with it and has no locations. The copy is partial exactly if
/// the store is, and uses the same hasher builder. Uids that occur in several places are shared within the copy, as in
/// the store.
///
/// If the store knows that it is plain, so does the copy. Edits of the copy then cost the same as edits of the store.
///
/// # Errors
///
/// Returns `AllocError` if an allocation fails, or if the copy of an entity fails as [`deep_copy_entity`] describes.
///
/// # Complexity
///
/// Copies every entity. Encodes and decodes each attribute and each tag. Computes no ancestors.
pub fn deep_copy_entities<S: BuildHasher + Clone>(
    alloc: Global,
    store: &Entities<S>,
) -> Result<Entities<S>, AllocError>
    ensures value { IfOk result (λ s. s ≡ store.now) }
    ensures plain { IfOk result (λ s. (W : InputStore) → IsPlainStore W store.now → IsPlainStore W s) }
{
    let copied = deep_copy_map(alloc, store)?;
    let copy = partial_as(copied, store);
    Ok(copy.known_plain_with(store))
}
