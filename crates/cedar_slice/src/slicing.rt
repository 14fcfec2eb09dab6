//! The slice of a store at some uids.
ghost use Rattle.std.specs.Prelude.{◌≡◌, ◌++◌, ◌||◌, IfOk, IfErr, OnOk, true, false, filter_map, option_to_list};
ghost use Rattle.std.specs.FinMap as finmap;
ghost use Rattle.std.specs.HashSet.{contains};
ghost use Rattle.std.specs.List.{AllByRecursion};
ghost use Rattle.std.specs.Option.{IfSome};
ghost use Rattle.std.specs.Set.{is_member};
ghost use Rattle.cedar_ids.specs.UidOf.{same_uid};
ghost use Rattle.cedar_ids.specs.declared.entity.EntityUID.{EntityUID};
ghost use Rattle.cedar_entity.specs.declared.err.EntitiesError.TheVariants.{Memory};
ghost use Rattle.cedar_entity_maps.specs.Modes.{ancestry};
ghost use Rattle.cedar_entity_maps.specs.Plain.{IsKeyed, IsPlainStore};
ghost use Rattle.cedar_entity_maps.specs.InputStore.{InputStore};
ghost use Rattle.cedar_slice.specs.Slices.{IsPartWith, IsPlainSlice, is_wanted, sliced};

use cedar_entities::{Entities, EntitiesError, Entity, SharedUid, SharedUids, TCComputation};
use cedar_ids::entity::EntityUID;
use std::alloc::{AllocError, Global};
use std::collections::HashSet;
use std::hash::BuildHasher;

// Inserts uids into a set.
fn insert_uids<S: BuildHasher>(
    noted: &mut HashSet<SharedUid, S>,
    uids: SharedUids<'_>,
) -> Result<(), AllocError>
    ensures { OnOk result ((q : EntityUID) → contains same_uid noted.new q
        ≡ (contains same_uid noted.old q || is_member same_uid uids.entry q)) }
{
    for uid in uids {
        noted.insert(uid.clone()?)?;
    }
    Ok(())
}

// Inserts the ancestors of the entity with a uid into a set, if the store has that entity.
fn cache_ancestors<S: BuildHasher + Clone>(
    store: &Entities<S>,
    noted: &mut HashSet<SharedUid, S>,
    uid: &EntityUID,
) -> Result<(), AllocError>
    ensures { OnOk result ((q : EntityUID) → contains same_uid noted.new q
        ≡ (contains same_uid noted.old q || ancestry store.now.entities uid.now q)) }
{
    match store.stored(uid) {
        Some(entity) => insert_uids(noted, entity.shared_ancestors()),
        None => Ok(()),
    }
}

// Inserts a requested uid, and the ancestors of the entity with this uid.
fn want<S: BuildHasher + Clone>(
    alloc: Global,
    store: &Entities<S>,
    wanted: &mut HashSet<SharedUid, S>,
    uid: &EntityUID,
) -> Result<(), AllocError>
    ensures { OnOk result ((q : EntityUID) → contains same_uid wanted.new q
        ≡ (contains same_uid wanted.old q
        || (same_uid uid.now q || ancestry store.now.entities uid.now q))) }
{
    cache_ancestors(store, wanted, uid)?;
    wanted.insert(SharedUid::copy_of(alloc, uid)?)?;
    Ok(())
}

// Returns the requested uids and the ancestors of the entities with these uids. Skips repeated uids.
fn all_wanted<S: BuildHasher + Clone>(
    alloc: Global,
    store: &Entities<S>,
    uids: &[EntityUID],
) -> Result<HashSet<SharedUid, S>, AllocError>
    ensures { IfOk result (λ s. (q : EntityUID) →
        contains same_uid s q ≡ is_wanted store.now.entities uids.now q) }
{
    let mut wanted = HashSet::with_hasher(alloc, store.hasher().clone()?);
    let mut asked: HashSet<SharedUid, S> = HashSet::with_hasher(alloc, store.hasher().clone()?);
    for uid in uids {
        if asked.contains(uid) {
            continue;
        }
        want(alloc, store, &mut wanted, uid)?;
        asked.insert(SharedUid::copy_of(alloc, uid)?)?;
    }
    Ok(wanted)
}

// Appends a copy of the entity with a uid to a list, if the store has that entity.
fn copy_held<S: BuildHasher + Clone>(
    store: &Entities<S>,
    list: &mut Vec<Entity>,
    uid: &SharedUid,
) -> Result<(), AllocError>
    ensures copies { OnOk result (list.new.items
        ≡ list.old.items ++ option_to_list (finmap.get store.now.entities uid.now)) }
    ensures keyed { OnOk result (IsKeyed store.now.entities) }
{
    if let Some(entity) = store.stored(uid.uid()) {
        list.push(entity.clone()?)?;
    }
    Ok(())
}

// Returns copies of the entities with the uids.
fn copies_of<S: BuildHasher + Clone>(
    alloc: Global,
    store: &Entities<S>,
    uids: &HashSet<SharedUid, S>,
) -> Result<Vec<Entity>, AllocError>
    ensures copies { IfOk result (λ v. v.items ≡ filter_map (finmap.get store.now.entities) uids.now.keys) }
    ensures keyed { OnOk result (AllByRecursion
        (λ k. IfSome (finmap.get store.now.entities k) (λ e. e.uid ≡ k)) uids.now.keys) }
{
    let mut list = Vec::new(alloc);
    for uid in uids {
        copy_held(store, &mut list, uid)?;
    }
    Ok(list)
}

// Returns the slice of a store that is not known to be plain.
fn part_of<S: BuildHasher + Clone>(
    alloc: Global,
    store: &Entities<S>,
    uids: &[EntityUID],
) -> Result<Entities<S>, EntitiesError>
    ensures entities { IfOk result (λ s. (s.entities ≡ sliced store.now.entities uids.now) × (s.partial ≡ false)) }
    ensures asked { IfOk result (λ s. (q : EntityUID) → is_member same_uid uids.now q ≡ true →
        finmap.get s.entities q ≡ finmap.get store.now.entities q) }
    ensures plain { IfOk result (λ s. (W : InputStore) → IsPlainStore W store.now →
        IsPlainSlice W uids.now s) }
    ensures least { IfOk result (λ s. (W : InputStore) → IsPlainStore W store.now →
        (V : InputStore) → IsPartWith W uids.now V → (q : EntityUID) →
        finmap.contains_key s.entities q ≡ true → finmap.contains_key V.entities q ≡ true) }
    ensures err { IfErr result (λ e. e ≡ Memory) }
{
    let wanted = all_wanted(alloc, store, uids)?;
    let list = copies_of(alloc, store, &wanted)?;
    let hasher = store.hasher().clone()?;
    Entities::from_entities_with_hasher(alloc, hasher, list, TCComputation::AssumeAlreadyComputed)
}

/// Returns the slice of a store at some uids: a store with copies of the requested entities and of all their stored
/// ancestors.
///
/// The copies have the attributes, tags, parents and ancestors of the originals. Uids that are not in the store, and
/// repeated uids, have no effect. The slice is not partial. It uses a clone of the store's hasher builder. If the store
/// is known to be plain (see `would_add`), so is the slice, and edits of the slice are as cheap as edits of such a
/// store.
///
/// # Errors
///
/// Returns `EntitiesError::Memory` if an allocation fails. An allocation failure is the only error, whatever the store
/// contains.
///
/// # Complexity
///
/// Looks up each requested uid, inserts its ancestors into a set, and looks up each uid of this set once. The rest of
/// the store is not read. Attributes and tags are copied, and the uids of ancestors are shared.
pub fn slice<S: BuildHasher + Clone>(
    alloc: Global,
    store: &Entities<S>,
    uids: &[EntityUID],
) -> Result<Entities<S>, EntitiesError>
    ensures entities { IfOk result (λ s. s ≡ record {
      entities = sliced store.now.entities uids.now;
      partial = false;
      known_plain = store.now.known_plain;
    }) }
    ensures asked { IfOk result (λ s. (q : EntityUID) → is_member same_uid uids.now q ≡ true →
        finmap.get s.entities q ≡ finmap.get store.now.entities q) }
    ensures plain { IfOk result (λ s. (W : InputStore) → IsPlainStore W store.now →
        IsPlainSlice W uids.now s) }
    ensures least { IfOk result (λ s. (W : InputStore) → IsPlainStore W store.now →
        (V : InputStore) → IsPartWith W uids.now V → (q : EntityUID) →
        finmap.contains_key s.entities q ≡ true → finmap.contains_key V.entities q ≡ true) }
    ensures err { IfErr result (λ e. e ≡ Memory) }
{
    let part = part_of(alloc, store, uids)?;
    Ok(part.known_plain_with(store))
}
