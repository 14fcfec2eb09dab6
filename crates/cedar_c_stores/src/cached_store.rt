//! A store, with the knowledge whether it is plain. An edit of a plain store can be tried before it is made.
ghost use Rattle.std.specs.Prelude.{◌≡◌, ◌↔◌, IfErr, IfOk, IfSome, IsTrue, None, Ok, OnErr, false, true};
ghost use Rattle.std.specs.FinMap as finmap;
ghost use Rattle.std.specs.Option.{option_map};
ghost use Rattle.cedar_entity.specs.declared.err.EntitiesError.TheVariants.{Memory};
ghost use Rattle.cedar_entities.specs.Answers.{AreDeepEqual, Finds, ListsEntityMap};
ghost use Rattle.cedar_entity_maps.specs.Plain.{IsKeyed, IsPlainStore, entities_in};
ghost use Rattle.cedar_entities.specs.StoreFaults.{IsStoreFault, IsValidStore};
ghost use Rattle.cedar_entity_maps.specs.InputStore.{InputStore, empty_input};
ghost use Rattle.cedar_slice.specs.Slices.{IsPlainSlice, sliced};
ghost use Rattle.cedar_c_lists.specs.Texts.{IsReadOf};
ghost use Rattle.cedar_entity.specs.View.{has_ancestor};
ghost use Rattle.cedar_c_stores.specs.Edits.{Edits};
ghost use Rattle.cedar_c_stores.specs.Reads.{ReadsRelation};
ghost use Rattle.cedar_c_stores.specs.SomePlain.{IsSomePlain};
ghost use Rattle.cedar_c_stores.specs.Stores.{IsAddResult, empty_store};

use crate::edits::{Edit, edit_store, made, stays_plain};
use crate::query_cache::QueryCache;
use cedar_deep_copy_stores::deep_copy_entities;
use cedar_entities::{Dereference, Entities, EntitiesError, Entity, Iter, TCComputation};
use cedar_ids::entity::EntityUID;
use cedar_slice::slice;
use std::alloc::{AllocError, Global};
use std::hash::BuildHasher;
use std::marker::Model;
use std::rc::Rc;

/// A store, whether it is known to be plain, and cached query results. A method with the name of a method of `Entities`
/// does the same. Contracts see the store.
#[derive(Drop)]
pub struct CachedStore<S: BuildHasher> {
    entities: Entities<S>,
    plain: bool,
    noted: QueryCache<S>,
    // The number of queries before the cache is used. It is at most the number of entities.
    asked: usize,
}

impl<S: BuildHasher> Model for CachedStore<S> {
    ghost use Rattle.std.specs.Prelude.{IsTrue};
    ghost use Rattle.cedar_entities.specs.Codes.{store_code};
    ghost use Rattle.cedar_entity_maps.specs.Plain.{StoreView};
    ghost use Rattle.cedar_c_stores.specs.QueryCaches.{AreCached};
    ghost use Rattle.cedar_c_stores.specs.SomePlain.{IsSomePlain};

    ghost Value = { StoreView };

    ghost coded = { store_code };

    ghost view = { λ w. w.entities };

    ghost invariant = { λ w. (IsTrue w.plain → IsSomePlain w.entities) × AreCached w.entities w.noted };
}

impl<S: BuildHasher + Copy> CachedStore<S> {
    // Creates the value for a store without cached results. `plain` states that the store is known to be plain.
    fn of(alloc: Global, hasher: S, entities: Entities<S>, plain: bool) -> CachedStore<S>
        requires { IsTrue plain → IsSomePlain entities }
        ensures { result ≡ entities }
    {
        CachedStore {
            entities,
            plain,
            noted: QueryCache::new(alloc, hasher),
            asked: 0,
        }
    }

    // Creates an empty store, which is plain.
    pub(crate) fn with_hasher(alloc: Global, hasher: S) -> CachedStore<S>
        ensures value { result ≡ empty_store }
        ensures plain { IsPlainStore empty_input result }
    {
        CachedStore {
            entities: Entities::with_hasher(alloc, hasher),
            plain: true,
            noted: QueryCache::new(alloc, hasher),
            asked: 0,
        }
    }

    // Returns the store with the same entities, now partial. A plain store stays plain.
    pub(crate) fn partial(self) -> CachedStore<S>
        ensures value { result ≡ record self { partial = true } }
        ensures plain { (W : InputStore) → IsPlainStore W self →
            IsPlainStore (record W { partial = true }) result }
    {
        let CachedStore {
            entities,
            plain,
            noted,
            asked,
        } = self;
        CachedStore {
            entities: entities.partial(),
            plain,
            noted,
            asked,
        }
    }

    // Creates a store by adding the entities to an empty store.
    pub(crate) fn built(
        alloc: Global,
        hasher: S,
        list: Vec<Rc<Entity>>,
        mode: TCComputation,
    ) -> Result<CachedStore<S>, EntitiesError>
        ensures { IsAddResult mode (entities_in list.items) empty_store result }
    {
        let edit = Edit::Add(list);
        let plain = stays_plain(true, &edit, mode);
        match made(alloc, Entities::with_hasher(alloc, hasher), edit, mode) {
            Ok(entities) => Ok(CachedStore::of(alloc, hasher, entities, plain)),
            Err(error) => Err(error),
        }
    }

    // Makes an edit, and clears the cache. After an error the store is unchanged, except that an allocation failure can
    // leave it empty. It is then partial exactly if it was before.
    pub(crate) fn edit(
        &mut self,
        alloc: Global,
        hasher: S,
        edit: Edit,
        mode: TCComputation,
    ) -> Result<(), EntitiesError>
        ensures { Edits mode edit self.old result self.new }
    {
        self.noted = QueryCache::new(alloc, hasher);
        self.asked = 0;
        let plain = stays_plain(self.plain, &edit, mode);
        match edit_store(alloc, &mut self.entities, hasher, edit, mode, plain) {
            Ok(()) => {
                self.plain = plain;
                Ok(())
            }
            Err(error) => Err(error),
        }
    }

    // Returns a deep copy, which shares nothing with the store. The copy of a plain store is plain.
    pub(crate) fn deep_copy_store(
        &self,
        alloc: Global,
        hasher: S,
    ) -> Result<CachedStore<S>, AllocError>
        ensures { IfOk result (λ w. w ≡ self.now) }
    {
        let entities = deep_copy_entities(alloc, &self.entities)?;
        Ok(CachedStore::of(alloc, hasher, entities, self.plain))
    }

    // Returns a copy, which shares the entities. The copy of a plain store is plain.
    pub(crate) fn store_copy(&self, alloc: Global, hasher: S) -> Result<CachedStore<S>, AllocError>
        ensures { IfOk result (λ w. w ≡ self.now) }
    {
        let entities = self.entities.clone()?;
        Ok(CachedStore::of(alloc, hasher, entities, self.plain))
    }

    // Returns the slice at uids. The slice of a plain store is plain.
    pub(crate) fn slice(
        &self,
        alloc: Global,
        hasher: S,
        uids: &[EntityUID],
    ) -> Result<CachedStore<S>, EntitiesError>
        ensures entities { IfOk result (λ s. s ≡ record {
          entities = sliced self.now.entities uids.now;
          partial = false;
          known_plain = self.now.known_plain;
        }) }
        ensures plain { IfOk result (λ s. (W : InputStore) → IsPlainStore W self.now →
            IsPlainSlice W uids.now s) }
        ensures err { IfErr result (λ e. e ≡ Memory) }
    {
        match slice(alloc, &self.entities, uids) {
            Ok(entities) => Ok(CachedStore::of(alloc, hasher, entities, self.plain)),
            Err(error) => Err(error),
        }
    }

    /// Returns the store without the cache. Does not allocate.
    pub fn entities(&self) -> &Entities<S>
        ensures { result.now ≡ self.now }
    {
        &self.entities
    }

    /// Returns whether the store is partial. Does not allocate.
    pub fn is_partial(&self) -> bool
        ensures { result ≡ self.now.partial }
    {
        self.entities.is_partial()
    }

    /// Returns the number of entities. Does not allocate.
    pub fn len(&self) -> usize
        ensures value { result ≡ finmap.len self.now.entities }
        ensures plain { (W : InputStore) → IsPlainStore W self.now → result ≡ finmap.len W.entities }
    {
        self.entities.len()
    }

    /// Returns the entity with a uid, if the store has one. Does not allocate.
    pub fn stored(&self, uid: &EntityUID) -> Option<&Entity>
        ensures value { option_map (λ e. e.now) result ≡ finmap.get self.now.entities uid.now }
        ensures keyed { IsKeyed self.now.entities }
    {
        self.entities.stored(uid)
    }

    /// Looks up a uid, as `Entities::entity` does. Allocates only if the result is an unknown.
    ///
    /// # Errors
    ///
    /// Returns `AllocError` if an allocation fails.
    pub fn entity(
        &self,
        alloc: Global,
        uid: &EntityUID,
    ) -> Result<Dereference<'_, Entity>, AllocError>
        ensures ok { IfOk result (Finds
            (finmap.get self.now.entities uid.now) self.now.partial uid.now) }
        ensures err { OnErr result ((finmap.get self.now.entities uid.now ≡ None)
            × (self.now.partial ≡ true)) }
    {
        self.entities.entity(alloc, uid)
    }

    /// Iterates over the entities, in an unspecified order. Does not allocate.
    pub fn iter(&self) -> Iter<'_>
        ensures lists { ListsEntityMap self.now.entities result }
        ensures keyed { IsKeyed self.now.entities }
    {
        self.entities.iter()
    }

    /// Returns whether both stores have deeply equal entities. Does not allocate.
    pub fn deep_eq(&self, other: &CachedStore<S>) -> bool
        ensures { IsTrue result ↔ AreDeepEqual self.now other.now }
    {
        self.entities.deep_eq(&other.entities)
    }

    // Returns whether the uid in `ancestor` is an ancestor of the entity with the uid in `child`, or `None` if a text
    // is not cached. Does not allocate.
    pub(crate) fn is_cached_ancestor(&self, child: &[u8], ancestor: &[u8]) -> Option<bool>
        ensures { IfSome result (λ b. ReadsRelation has_ancestor self.now child.now ancestor.now (Ok b)) }
    {
        self.noted.is_below(child, ancestor)
    }

    // Caches the entity with a uid, if there is one, by the text of its uid, and the uid that was looked up by its
    // text. Does nothing for the first queries, as many as there are entities, so that querying each entity once costs
    // no cache. An allocation failure is ignored, because every cached result is still correct.
    pub(crate) fn note(
        &mut self,
        alloc: Global,
        child: &[u8],
        uid: &EntityUID,
        ancestor: &[u8],
        above: EntityUID,
    )
        requires child { IsReadOf uid.now child.now }
        requires ancestor { IsReadOf above ancestor.now }
        ensures { self.new ≡ self.old }
    {
        if self.asked < self.entities.len() {
            self.asked += 1;
            return;
        }
        if let Some(entity) = self.entities.stored(uid) {
            drop(self.noted.note(alloc, child, entity, ancestor, above));
        }
    }

    // Returns the store if it is valid.
    pub(crate) fn try_validate(self, alloc: Global) -> Result<Entities<S>, EntitiesError>
        ensures ok { IfOk result (λ s. (s ≡ self) × IsValidStore self.entities) }
        ensures err { IfErr result (IsStoreFault self.entities) }
    {
        let CachedStore { entities, .. } = self;
        entities.try_validate(alloc)
    }
}
