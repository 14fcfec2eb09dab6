//! The store of entities.
ghost use Rattle.std.specs.Prelude.{◌≡◌, true, false, cond, map, Some, None, IfOk, IfErr, OnOk, OnErr, IsTrue, ◌↔◌};
ghost use Rattle.std.specs.Option.{option_or, option_map, IfSome};
ghost use Rattle.std.specs.FinMap as finmap;
ghost use Rattle.std.specs.Set.{is_member};
ghost use Rattle.cedar_ids.specs.UidOf.{same_uid};
ghost use Rattle.cedar_ids.specs.declared.entity.EntityUID.{EntityUID};
ghost use Rattle.cedar_entity.specs.View.{EntityView, IsDeepEqual, IsEquivalenceRelation};
ghost use Rattle.cedar_entities.specs.Answers.{AreDeepEqual, Finds, ListsEntityMap};
ghost use Rattle.cedar_entities.specs.Changes.{AddsEntities, AddsPlain, RemovesEntities, RemovesPlain};
ghost use Rattle.cedar_entities.specs.Changes.{StripsPlain, UpsertsEntities, UpsertsPlain};
ghost use Rattle.cedar_entity_maps.specs.Affected.{is_affected};
ghost use Rattle.cedar_entity_maps.specs.Edits.{overwrite, uids_of};
ghost use Rattle.cedar_entity_maps.specs.laws.Indexes.{HasChildren, IsIndexOf, IsPlainHeld, parentage};
ghost use Rattle.cedar_entity_maps.specs.laws.EntityMap.{entity_at, held_map, shared, UidsMatch};
ghost use Rattle.cedar_entity_maps.specs.Plain.{StoreView, entities_in, IsPlainStore, IsKeyed, HaveNoIndirect, input_of};
ghost use Rattle.cedar_entity_maps.specs.Plain.{no_entities};
ghost use Rattle.cedar_entities.specs.Present.{first_entity, AllMatch, FirstMismatch};
ghost use Rattle.cedar_entity_maps.specs.EditErrors.{MatchError};
ghost use Rattle.cedar_entity.specs.declared.err.EntitiesError.TheVariants.{Memory};
ghost use Rattle.cedar_entities.specs.SameUids.{HaveSameUids, same_uids_and_mode};
ghost use Rattle.cedar_entities.specs.StoreFaults.{IsStoreFault, IsValidStore};
ghost use Rattle.cedar_entity_maps.specs.InputStore.{InputStore, empty_input, graph};

use crate::dereference::{Dereference, unknown_of};
use crate::edits::{overwrite_and_finalize, remove_and_finalize, renews_adding};
use crate::incoming::{Incoming, shared_all, stays_plain, uids_in, with_uids};
use crate::lists::absent_uids;
use crate::store_iters::{IntoIter, Iter};
use crate::store_same::{have_deep_equals, have_keys_of};
use crate::store_valid::check_each;
use cedar_children::{Children, listed};
use cedar_entity::entity::Entity;
use cedar_entity::err::EntitiesError;
use cedar_entity::node::SharedEntity;
pub use cedar_entity_maps::TCComputation;
use cedar_entity_maps::affected::{forget_each, insert_uids};
use cedar_entity_maps::finalize::{check, finalize_affected, finalize_all};
use cedar_entity_maps::index::{Index, affected_by, join, list_if_it_pays};
use cedar_entity_maps::modes::rules_of;
use cedar_ids::entity::EntityUID;
use cedar_uid_sets::SharedUid;
use std::alloc::{AllocError, Global};
use std::collections::hash_map::Entry;
use std::collections::{HashMap, HashSet};
use std::hash::{BuildHasher, BuildHasherDefault, FoldHasher};
use std::marker::Model;
use std::rc::Rc;

/// A store of entities, keyed by uid. A store is partial or not. In a partial store, an entity that is absent is
/// unknown; otherwise it does not exist.
///
/// Entities are shared: a copy of a store copies no entity.
///
/// # Complexity
///
/// An edit finds the affected entities by scanning all entities. In each entity it looks up the edit's uids, or its
/// ancestors among these, whichever are fewer.
///
/// A store of 40 or more entities uses an index instead, if all of its edits were calls with `ComputeNow`, of
/// entities without indirect ancestors, or removals. Such a store is known to be plain: its ancestors are exactly
/// what the parents imply. After sixteen scans it lists the children of each uid. A scan for more uids counts more:
/// an edit of 64 uids lists the children at once. From then on an edit searches down from its own uids. The list
/// needs 8 to 16 bytes for each parent of each entity, and a set for each uid that is a parent. A copy of the store
/// has no list at first. If an allocation for the list fails, the store continues without it, and no edit fails
/// because of it.
///
/// In such a store, an edit that overwrites entities with the same parents changes no ancestor. It copies the pointers
/// to the ancestors of these entities, and affects no other entity. In every store, an affected entity none of whose
/// parents is affected gets the ancestors of its parents. The other affected entities are closed together.
///
/// # Hashing
///
/// The map, and the sets of its calls, hash uids with hashers of `S`. The default hasher has a fixed seed. If untrusted
/// parties choose the uids, they can force collisions and slow every call down. Use [`Entities::with_hasher`] with a
/// randomly keyed builder in that case. The choice of hasher never changes a result.
#[derive(Drop)]
pub struct Entities<S: BuildHasher = BuildHasherDefault<FoldHasher>> {
    pub(crate) entities: HashMap<SharedUid, SharedEntity, S>,
    pub(crate) partial: bool,
    index: Index<S>,
}

impl<S: BuildHasher> Model for Entities<S> {
    ghost use Rattle.cedar_entity_maps.specs.laws.EntityMap.{held_map, UidsMatch};
    ghost use Rattle.cedar_entity_maps.specs.laws.Indexes.{IsIndexOf};
    ghost use Rattle.cedar_entity_maps.specs.Plain.{StoreView, entities_in};
    ghost use Rattle.cedar_entities.specs.Codes.{store_code};

    ghost Value = { StoreView };

    ghost coded = { store_code };

    ghost view = { λ s. record {
      entities = held_map s.entities;
      partial = s.partial;
      known_plain = s.index.plain;
    } };

    ghost invariant = { λ s. UidsMatch s.entities × IsIndexOf s.index (held_map s.entities) };
}

// Inserts an entity if its uid is new. Otherwise the existing entity must be deeply equal to it. If it is not, the new
// entity is returned.
fn insert_if_new<S: BuildHasher>(
    entities: &mut HashMap<SharedUid, SharedEntity, S>,
    incoming: Incoming,
) -> Result<Option<Rc<Entity>>, AllocError>
    requires { UidsMatch entities.old }
    ensures keys { UidsMatch entities.new }
    ensures agrees { IfOk result (λ o. o ≡ None →
        IfSome (entity_at entities.old incoming.uid) (λ h. IsDeepEqual h incoming)) }
    ensures ok { IfOk result (λ o. o ≡ None → (q : EntityUID) → entity_at entities.new q ≡ option_or
        (entity_at entities.old q) (cond (same_uid incoming.uid q) (Some incoming) None)) }
    ensures differs { IfOk result (λ o. IfSome o (λ e. (e.value ≡ incoming) × (h : EntityView)
        × (entity_at entities.old incoming.uid ≡ Some h) × (IsDeepEqual h incoming → ⊥))) }
{
    let Incoming { uid, entity } = incoming;
    match entities.entry(uid)? {
        Entry::Occupied(place) => {
            if place.get().0.deep_eq(&entity) {
                return Ok(None);
            }
            Ok(Some(entity))
        }
        Entry::Vacant(place) => {
            place.insert(SharedEntity(entity));
            Ok(None)
        }
    }
}

// Inserts the entities one after another.
fn insert_each<S: BuildHasher>(
    entities: &mut HashMap<SharedUid, SharedEntity, S>,
    list: Vec<Incoming>,
) -> Result<(), EntitiesError>
    requires { UidsMatch entities.old }
    ensures keys { UidsMatch entities.new }
    ensures agree { OnOk result (AllMatch (entity_at entities.old) list.items) }
    ensures ok { OnOk result ((q : EntityUID) → entity_at entities.new q ≡ option_or
        (entity_at entities.old q) (first_entity list.items q)) }
    ensures err { IfErr result (λ e. MatchError e
        (FirstMismatch (entity_at entities.old) list.items) (λ _. ⊥)) }
{
    for entity in list {
        if let Some(other) = insert_if_new(entities, entity)? {
            return Err(EntitiesError::Duplicate(other.uid().clone()?));
        }
    }
    Ok(())
}

// Reserves space for `count` more entities.
fn make_room<S: BuildHasher>(
    entities: &mut HashMap<SharedUid, SharedEntity, S>,
    count: usize,
) -> Result<(), AllocError>
    requires { UidsMatch entities.old }
    ensures keys { UidsMatch entities.new }
    ensures entities { (q : EntityUID) → entity_at entities.new q ≡ entity_at entities.old q }
{
    entities.reserve(count)
}

// Adds entities to an empty map. All of them are affected.
fn fill<S: BuildHasher + Clone>(
    alloc: Global,
    entities: &mut HashMap<SharedUid, SharedEntity, S>,
    list: Vec<Incoming>,
    tc_computation: TCComputation,
) -> Result<(), EntitiesError>
    requires keys { UidsMatch entities.old }
    requires empty { (q : EntityUID) → entity_at entities.old q ≡ None }
    ensures keys { UidsMatch entities.new }
    ensures adds { AddsEntities tc_computation (held_map entities.old) list.items result
        (λ _. held_map entities.new) }
{
    make_room(entities, list.len())?;
    insert_each(entities, list)?;
    finalize_all(alloc, entities, tc_computation)
}

// Adds entities, and finalizes the affected entities. In a plain store, all indirect ancestors of the affected entities
// are removed first and recomputed from the parents.
fn add_to<S: BuildHasher + Clone>(
    alloc: Global,
    entities: &mut HashMap<SharedUid, SharedEntity, S>,
    index: &mut Index<S>,
    list: Vec<Incoming>,
    tc_computation: TCComputation,
) -> Result<(), EntitiesError>
    requires keys { UidsMatch entities.old }
    requires index { IsIndexOf index.old (held_map entities.old) }
    ensures plain { index.new.plain ≡ index.old.plain }
    ensures children { OnOk result (IfSome index.new.children (HasChildren (parentage (entity_at entities.new)))) }
    ensures keys { OnOk result (UidsMatch entities.new) }
    ensures adds { AddsEntities tc_computation (held_map entities.old) list.items result
        (λ _. held_map entities.new) }
{
    let uids = uids_in(alloc, &list)?;
    let fresh = absent_uids(alloc, entities, uids)?;
    let mut inserted = HashSet::with_hasher(alloc, entities.hasher().clone()?);
    insert_uids(&mut inserted, fresh)?;
    let joining = listed(alloc, &inserted)?;
    list_if_it_pays(alloc, entities, index, inserted.len());
    insert_each(entities, list)?;
    let affected = affected_by(alloc, entities, index, &inserted)?;
    let recompute_all = renews_adding(index, rules_of(tc_computation));
    forget_each(alloc, entities, &inserted, &affected, recompute_all)?;
    join(alloc, index, entities, &joining);
    finalize_affected(alloc, entities, &affected, tc_computation)
}

// Adds entities.
fn add_all<S: BuildHasher + Clone>(
    alloc: Global,
    entities: &mut HashMap<SharedUid, SharedEntity, S>,
    index: &mut Index<S>,
    list: Vec<Incoming>,
    tc_computation: TCComputation,
) -> Result<(), EntitiesError>
    requires keys { UidsMatch entities.old }
    requires index { IsIndexOf index.old (held_map entities.old) }
    ensures plain { index.new.plain ≡ index.old.plain }
    ensures children { OnOk result (IfSome index.new.children (HasChildren (parentage (entity_at entities.new)))) }
    ensures keys { OnOk result (UidsMatch entities.new) }
    ensures adds { AddsEntities tc_computation (held_map entities.old) list.items result
        (λ _. held_map entities.new) }
{
    if entities.is_empty() {
        index.children = None;
        return fill(alloc, entities, list, tc_computation);
    }
    add_to(alloc, entities, index, list, tc_computation)
}

// Copies the map. The copy shares the entities.
fn copy_of_map<S: BuildHasher + Clone>(
    entities: &HashMap<SharedUid, SharedEntity, S>,
) -> Result<HashMap<SharedUid, SharedEntity, S>, AllocError>
    requires { UidsMatch entities.now }
    ensures entities { IfOk result (λ copy. held_map copy ≡ held_map entities.now) }
    ensures keys { IfOk result (λ copy. UidsMatch copy) }
{
    let copy = entities.clone()?;
    Ok(copy)
}

impl<S: BuildHasher + Clone> Entities<S> {
    /// Creates a store without entities, not partial. It hashes uids with hashers of `hasher`. Does not allocate.
    ///
    /// # Differences from cedar-policy-core
    ///
    /// The original has a fixed hasher.
    pub fn with_hasher(alloc: Global, hasher: S) -> Entities<S>
        ensures value { result ≡ record { entities = finmap.empty; partial = false; known_plain = true } }
        ensures plain { IsPlainStore empty_input result }
    {
        Entities {
            entities: HashMap::with_hasher(alloc, hasher),
            partial: false,
            index: Index::unlisted(true),
        }
    }

    /// Returns the hasher builder of the store. Does not allocate.
    pub fn hasher(&self) -> &S {
        self.entities.hasher()
    }

    /// Returns the store with the same entities, now partial. Does not allocate.
    pub fn partial(self) -> Entities<S>
        ensures value { result ≡ record self { partial = true } }
        ensures plain { (W : InputStore) → IsPlainStore W self →
            IsPlainStore (record W { partial = true }) result }
    {
        Entities {
            entities: self.entities,
            partial: true,
            index: self.index,
        }
    }

    /// Marks the store as known to be plain, if `other` is. Edits of it then cost as much as edits of `other`. Use it
    /// for a store that consists of a part of `other`. The caller must ensure that the store is plain if `other` is.
    /// Does not allocate.
    ///
    /// # Differences from cedar-policy-core
    ///
    /// The original has no such function.
    pub fn known_plain_with(self, other: &Entities<S>) -> Entities<S>
        requires { (W : InputStore) → IsPlainStore W other.now → (V : InputStore) × IsPlainStore V self }
        ensures { result ≡ record self { known_plain = other.now.known_plain } }
    {
        Entities {
            entities: self.entities,
            partial: self.partial,
            index: Index::unlisted(other.index.plain),
        }
    }

    /// Returns whether the store is partial. Does not allocate.
    pub fn is_partial(&self) -> bool
        ensures { result ≡ self.now.partial }
    {
        self.partial
    }

    /// Returns whether the store is known to be plain: whether its ancestors are known to be exactly what the parents
    /// imply. Does not allocate.
    ///
    /// # Differences from cedar-policy-core
    ///
    /// The original has no such function.
    pub fn is_known_plain(&self) -> bool
        ensures value { result ≡ self.now.known_plain }
        ensures plain { IsTrue result → IsPlainHeld self.now.entities }
    {
        self.index.plain
    }

    /// Returns the index of the children of each uid, if the store has one. Does not allocate.
    ///
    /// # Differences from cedar-policy-core
    ///
    /// The original has no such function.
    pub fn children(&self) -> Option<&Children<S>>
        ensures { IfSome result (λ c. HasChildren (parentage (finmap.get self.now.entities)) c.now) }
    {
        self.index.children.as_ref()
    }

    /// Returns the uids of all entities that an edit of `uids` affects, in no specified order: the uids themselves, and
    /// the uids of the entities that have one of them as an ancestor.
    ///
    /// # Errors
    ///
    /// Returns `Memory` if an allocation fails.
    ///
    /// # Complexity
    ///
    /// Costs as much as the search of an edit. If the store lists its children (see [`Entities`]), the call searches
    /// down from the uids: it looks up each result once, and each again for each of its parents in the result.
    /// Otherwise it scans all entities. The call does not list the children. Allocates in proportion to the result.
    ///
    /// # Differences from cedar-policy-core
    ///
    /// The original has no such function.
    pub fn affected(
        &self,
        alloc: Global,
        uids: Vec<SharedUid>,
    ) -> Result<Vec<SharedUid>, EntitiesError>
        ensures ok { IfOk result (λ v. (q : EntityUID) →
            is_member same_uid v.items q ≡ is_affected self.now.entities uids.items q) }
        ensures err { IfErr result (λ e. e ≡ Memory) }
    {
        let mut edited = HashSet::with_hasher(alloc, self.hasher().clone()?);
        insert_uids(&mut edited, uids)?;
        let affected = affected_by(alloc, &self.entities, &self.index, &edited)?;
        Ok(listed(alloc, &affected)?)
    }

    /// Creates a store with these entities, not partial. It hashes uids with hashers of `hasher`. The result is the
    /// same as adding the entities to an empty store.
    ///
    /// # Errors
    ///
    /// The errors of [`Entities::add_entities`].
    pub fn from_entities_with_hasher(
        alloc: Global,
        hasher: S,
        list: Vec<Entity>,
        tc_computation: TCComputation,
    ) -> Result<Entities<S>, EntitiesError>
        ensures partial { IfOk result (λ s. s.partial ≡ false) }
        ensures adds { AddsEntities tc_computation no_entities list.items result (λ s. s.entities) }
        ensures plain { HaveNoIndirect list.items
            → AddsPlain tc_computation empty_input (map input_of list.items) result }
    {
        let list = shared_all(alloc, list)?;
        Entities::with_hasher(alloc, hasher).add_entities(alloc, list, tc_computation)
    }

    /// Adds entities to the store, in list order. If a uid is new, the first entity with that uid is inserted. Every
    /// later entity with the same uid must be deeply equal to the stored one, which is kept.
    ///
    /// An indirect ancestor that an entity of the list already has counts as an ancestor. The call affects the inserted
    /// entities, and the entities that have one of them as an ancestor. All other entities are unchanged in every mode.
    ///
    /// # Errors
    ///
    /// - `Duplicate`: an entity of the list differs from the stored one. The error names the first such uid. This is
    ///   checked before the closure.
    /// - `TransitiveClosureError`: the repair or the check of the mode fails; see [`TCComputation`].
    /// - `Memory`: an allocation failed.
    ///
    /// After an error the store is dropped.
    ///
    /// # Complexity
    ///
    /// Looks up each entity of the list a few times, finds the affected entities (see [`Entities`]), and closes them or
    /// checks the whole store. An empty store is closed as a whole. If the store is known to be plain and the mode
    /// computes, only the parents of affected stored entities are read, and their indirect ancestors are recomputed.
    pub fn add_entities(
        self,
        alloc: Global,
        list: Vec<Rc<Entity>>,
        tc_computation: TCComputation,
    ) -> Result<Entities<S>, EntitiesError>
        ensures partial { IfOk result (λ s. s.partial ≡ self.partial) }
        ensures adds { AddsEntities tc_computation self.entities (entities_in list.items) result (λ s. s.entities) }
        ensures plain { (W : InputStore) → IsPlainStore W self → HaveNoIndirect (entities_in list.items)
            → AddsPlain tc_computation W (map input_of (entities_in list.items)) result }
    {
        let Entities {
            mut entities,
            partial,
            mut index,
        } = self;
        let incoming = with_uids(alloc, list)?;
        let stays = stays_plain(tc_computation, &incoming);
        add_all(alloc, &mut entities, &mut index, incoming, tc_computation)?;
        Ok(Entities {
            entities,
            partial,
            index: index.plain_if(stays),
        })
    }

    /// Overwrites entities. Each entity of the list is inserted, and replaces the entity with its uid. If several have
    /// the same uid, the last one is used.
    ///
    /// The call affects the overwritten entities, and the entities that have one of the uids as an ancestor. An
    /// affected entity loses its stale indirect ancestors: the uids of the list that the store contained, and the
    /// ancestors of their old entities. In a mode that computes, it gets back all that it still reaches; in the other
    /// modes it does not. All other entities are unchanged. An indirect ancestor that an entity of the list already has
    /// counts as an ancestor.
    ///
    /// # Errors
    ///
    /// - `TransitiveClosureError`: the repair or the check of the mode fails; see [`TCComputation`].
    /// - `Memory`: an allocation failed.
    ///
    /// After an error the store is dropped.
    ///
    /// # Complexity
    ///
    /// Finds all affected entities once for the whole list (see [`Entities`]). From each affected entity that is not
    /// itself in the list, it removes the stale ancestors in one pass. Then it closes the affected entities or checks
    /// the whole store. If the store is known to be plain and the mode computes, it removes all of their indirect
    /// ancestors instead, reads only their parents, and recomputes the ancestors. The edit then costs about as much as
    /// building the affected entities. Allocates one pointer per stale ancestor.
    ///
    /// # Differences from cedar-policy-core
    ///
    /// The original takes a schema and extensions.
    pub fn upsert_entities(
        self,
        alloc: Global,
        list: Vec<Rc<Entity>>,
        tc_computation: TCComputation,
    ) -> Result<Entities<S>, EntitiesError>
        ensures partial { IfOk result (λ s. s.partial ≡ self.partial) }
        ensures upserts { UpsertsEntities tc_computation self.entities (entities_in list.items) result }
        ensures strips { (W : InputStore) → IsPlainStore W self
            → StripsPlain tc_computation W self.entities (uids_of (entities_in list.items)) result }
        ensures plain { (W : InputStore) → IsPlainStore W self → HaveNoIndirect (entities_in list.items)
            → UpsertsPlain tc_computation W (map input_of (entities_in list.items)) result }
    {
        let Entities {
            mut entities,
            partial,
            mut index,
        } = self;
        let incoming = with_uids(alloc, list)?;
        let stays = stays_plain(tc_computation, &incoming);
        overwrite_and_finalize(alloc, &mut entities, &mut index, incoming, tc_computation)?;
        Ok(Entities {
            entities,
            partial,
            index: index.plain_if(stays),
        })
    }

    /// Removes the entities with the uids, also as parents. A uid that is not in the store has no effect: it remains a
    /// parent where it is one.
    ///
    /// The call affects the entities that have a removed uid as an ancestor. An affected entity loses its stale
    /// ancestors: the removed uids, and the ancestors of their entities. In every mode it gets back all that it still
    /// reaches. All other entities are unchanged.
    ///
    /// # Errors
    ///
    /// - `TransitiveClosureError`: the repair or the check of the mode fails; see [`TCComputation`]. This never happens
    ///   in a plain store.
    /// - `Memory`: an allocation failed.
    ///
    /// After an error the store is dropped.
    ///
    /// # Complexity
    ///
    /// As in [`Entities::upsert_entities`] in a mode that computes, once for the whole list. In a mode that checks, it
    /// then checks the whole store.
    pub fn remove_entities(
        self,
        alloc: Global,
        list: Vec<EntityUID>,
        tc_computation: TCComputation,
    ) -> Result<Entities<S>, EntitiesError>
        ensures partial { IfOk result (λ s. s.partial ≡ self.partial) }
        ensures removes { RemovesEntities tc_computation self.entities list.items result }
        ensures plain { (W : InputStore) → IsPlainStore W self → RemovesPlain W list.items result }
    {
        let Entities {
            mut entities,
            partial,
            mut index,
        } = self;
        remove_and_finalize(alloc, &mut entities, &mut index, list, tc_computation)?;
        Ok(Entities {
            entities,
            partial,
            index,
        })
    }

    /// Returns the number of entities. Does not allocate.
    pub fn len(&self) -> usize
        ensures value { result ≡ finmap.len self.now.entities }
        ensures plain { (W : InputStore) → IsPlainStore W self.now → result ≡ finmap.len W.entities }
    {
        self.entities.len()
    }

    /// Returns whether the store has no entities. Does not allocate.
    pub fn is_empty(&self) -> bool
        ensures { IsTrue result ↔ (self.now.entities ≡ no_entities) }
    {
        self.len() == 0
    }

    /// Returns the entity with a uid, if the store has one. Does not allocate.
    ///
    /// # Differences from cedar-policy-core
    ///
    /// The original has no such function.
    pub fn stored(&self, uid: &EntityUID) -> Option<&Entity>
        ensures value { option_map (λ e. e.now) result ≡ finmap.get self.now.entities uid.now }
        ensures keyed { IsKeyed self.now.entities }
    {
        match self.entities.get(uid) {
            Some(node) => Some(&*node.0),
            None => None,
        }
    }

    /// Looks up the entity with a uid. If there is none, the result is `NoSuchEntity`, or in a partial store a
    /// residual. The residual is an unknown whose name is the printed uid and whose type is the entity type.
    ///
    /// # Errors
    ///
    /// Returns `AllocError` if the allocation of an unknown fails. There is no other allocation.
    pub fn entity(
        &self,
        alloc: Global,
        uid: &EntityUID,
    ) -> Result<Dereference<'_, Entity>, AllocError>
        ensures ok { IfOk result (Finds
            (finmap.get self.now.entities uid.now) self.now.partial uid.now) }
        ensures err { OnErr result ((finmap.get self.now.entities uid.now ≡ None)
            × (self.now.partial ≡ true)) }
    {
        match self.stored(uid) {
            Some(entity) => Ok(Dereference::Data(entity)),
            None => {
                if !self.partial {
                    return Ok(Dereference::NoSuchEntity);
                }
                Ok(Dereference::Residual(unknown_of(alloc, uid)?))
            }
        }
    }

    /// Iterates over the entities, each once, in no specified order. Does not allocate.
    pub fn iter(&self) -> Iter<'_>
        ensures lists { ListsEntityMap self.now.entities result }
        ensures keyed { IsKeyed self.now.entities }
    {
        Iter::of(&self.entities)
    }

    /// Returns whether both stores are partial or neither is, and both have the same uids with entities that are equal
    /// by [`Entity::deep_eq`]. Looks up each uid of one store in the other. Does not allocate.
    pub fn deep_eq(&self, other: &Entities<S>) -> bool
        ensures equal { IsTrue result ↔ AreDeepEqual self.now other.now }
        ensures equivalence { IsEquivalenceRelation AreDeepEqual }
    {
        if self.partial != other.partial {
            return false;
        }
        if !have_deep_equals(&self.entities, &other.entities) {
            return false;
        }
        have_keys_of(&self.entities, &other.entities)
    }

    /// Returns the store itself if it is valid.
    ///
    /// # Errors
    ///
    /// The checks are made in this order. After an error the store is dropped.
    ///
    /// - `TransitiveClosureError`: the ancestors are not closed. If they are closed, an entity is its own ancestor.
    ///   This is the check of [`TCComputation::EnforceAlreadyComputed`].
    /// - The error of [`Entity::validate`] for the invalid entity with the least uid.
    /// - `Memory`: an allocation failed. The check of the closure allocates; the check of the entities allocates only
    ///   for an error.
    ///
    /// # Complexity
    ///
    /// Checks the closure of the whole store, and then each entity once. An invalid entity that is reported is checked
    /// twice.
    ///
    /// # Differences from cedar-policy-core
    ///
    /// If several entities are invalid, the original reports any of them.
    pub fn try_validate(self, alloc: Global) -> Result<Entities<S>, EntitiesError>
        ensures ok { IfOk result (λ s. (s ≡ self) × IsValidStore self.entities) }
        ensures err { IfErr result (IsStoreFault self.entities) }
    {
        check(alloc, &self.entities)?;
        check_each(alloc, &self.entities)?;
        Ok(self)
    }

    // Checks whether both have the same uids and are both partial or both not.
    fn has_same_uids(&self, other: &Entities<S>) -> bool
        ensures { IsTrue result ↔ HaveSameUids self.now other.now }
    {
        if other.partial != self.partial {
            return false;
        }
        if !have_keys_of(&self.entities, &other.entities) {
            return false;
        }
        have_keys_of(&other.entities, &self.entities)
    }
}

impl<S: BuildHasher + Clone> PartialEq for Entities<S> {
    ghost use Rattle.std.specs.Cmp.{partial_equiv_from_equiv};
    ghost use Rattle.cedar_entities.specs.SameUids.{same_uids_and_mode};
    ghost use Rattle.cedar_entities.specs.laws.SameUids.{same_uids_and_mode_equiv};

    ghost eq = { same_uids_and_mode };

    ghost laws = { partial_equiv_from_equiv same_uids_and_mode_equiv };

    /// Returns whether both have the same uids, and both are partial or neither is. The content of the entities is not
    /// compared. Looks up each uid of either store in the other. Does not allocate.
    fn eq(&self, other: &Entities<S>) -> bool
        ensures value { result ≡ same_uids_and_mode self.now other.now }
        ensures uids { IsTrue result ↔ HaveSameUids self.now other.now }
    {
        self.has_same_uids(other)
    }
}

impl<S: BuildHasher + Clone> Eq for Entities<S> {
    ghost use Rattle.cedar_entities.specs.laws.SameUids.{same_uids_and_mode_equiv};

    ghost laws = { same_uids_and_mode_equiv };
}

impl<S: BuildHasher + Clone> Clone for Entities<S> {
    ghost is_clone = { λ x y. y ≡ x };

    /// Returns a copy that shares the entities.
    ///
    /// # Errors
    ///
    /// Returns `AllocError` if an allocation fails.
    fn clone(&self) -> Result<Entities<S>, AllocError> {
        Ok(Entities {
            entities: copy_of_map(&self.entities)?,
            partial: self.partial,
            index: Index::unlisted(self.index.plain),
        })
    }
}

impl<S: BuildHasher + Clone> IntoIterator for Entities<S> {
    type Item = Result<Entity, AllocError>;

    type IntoIter = IntoIter;

    ghost into_iter_gives = { λ s r. ListsEntityMap s.entities r };

    /// Iterates over the entities, each once, in no specified order. This call does not allocate, but each item may.
    fn into_iter(self) -> IntoIter {
        IntoIter::of(self.entities)
    }
}
