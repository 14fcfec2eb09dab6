//! A store of entities with the last results for its caller, and its calls.
ghost use Rattle.std.specs.Prelude.{◌≡◌, [], ◌∷◌, ◌++◌, ◌↔◌, IfOk, MatchResult, IsTrue, List, ℕ, true};
ghost use Rattle.cedar_entities.specs.Answers.{AreDeepEqual};
ghost use Rattle.cedar_entity_maps.specs.Plain.{IsPlainStore};
ghost use Rattle.cedar_entity_maps.specs.InputStore.{InputStore, empty_input};
ghost use Rattle.cedar_entity.specs.View.{has_ancestor};
ghost use Rattle.cedar_c_stores.specs.Stores.{ReadsAncestry, ReadsPresence, Copies, IsAncestorIn, IsParent, IsSlice, IsErrorTextBy};
ghost use Rattle.cedar_c_stores.specs.Stores.{IsUntold, Listing, SlicesAt, Validates, empty_store, has_parent};
ghost use Rattle.cedar_c_stores.specs.Reads.{StateBecomesPartial};
ghost use Rattle.cedar_c_lists.specs.Texts.{AreTextsOf, IsTextOf};
ghost use Rattle.cedar_c_lists.specs.declared.reason.Reason.TheVariants as reasons;

use crate::cached_store::CachedStore;
use crate::known::Known;
use crate::numbers::Numbers;
use crate::refusal::error_text_of;
use cedar_c_lists::{Answer, Reason, Span, with_uid};
use cedar_c_trees::Node;
use cedar_entities::{EntitiesError, Uids};
use cedar_ids::entity::EntityUID;
use cedar_uid_sets::Union;
use std::alloc::{AllocError, Global};
use std::hash::BuildHasher;
use std::mem;

/// A store of entities with the last results for its caller: the texts, the nodes of the last value, the text of the
/// last error, and the numbered uids.
///
/// The store, and the stores of its calls, hash uids with hashers of `S`. Contracts do not mention the builder. Generic
/// code cannot create a builder, so every store uses the builder of the caller.
#[derive(Drop)]
pub struct StoreState<S: BuildHasher> {
    /// The store, and whether it is known to be plain.
    pub store: CachedStore<S>,
    /// The texts of the last call that returned texts.
    pub answer: Answer,
    /// The nodes of the last attribute or tag, over the text that was stored in `answer`.
    pub nodes: Vec<Node>,
    /// The text of the last error of a call on the store.
    pub refusal: Vec<u8>,
    /// The numbered uids, in the order of their numbers.
    pub numbers: Numbers<S>,
    // The types in earlier texts of uids.
    pub(crate) known: Known,
    // The hasher builder of the next store.
    pub(crate) hasher: S,
}

// Returns the ancestors as texts.
fn texts_of_union(alloc: Global, uids: Union<'_>) -> Result<Answer, AllocError>
    ensures { IfOk result (AreTextsOf uids.entry) }
{
    let mut answer = Answer::new(alloc);
    for uid in uids {
        answer = with_uid(alloc, answer, uid)?;
    }
    Ok(answer)
}

// Returns uids as texts.
pub(crate) fn texts_of_set(alloc: Global, uids: Uids<'_>) -> Result<Answer, AllocError>
    ensures { IfOk result (AreTextsOf uids.entry) }
{
    let mut answer = Answer::new(alloc);
    for uid in uids {
        answer = with_uid(alloc, answer, uid)?;
    }
    Ok(answer)
}

impl<S: BuildHasher + Copy> StoreState<S> {
    // Creates the state for a store, with an empty `answer`, no numbers and no last error.
    pub(crate) fn cached(alloc: Global, hasher: S, store: CachedStore<S>) -> StoreState<S>
        ensures store { result.store ≡ store }
        ensures answer { result.answer ≡ [] }
        ensures nodes { result.nodes.items ≡ [] }
        ensures refusal { result.refusal.items ≡ [] }
        ensures numbers { result.numbers ≡ [] }
    {
        StoreState {
            store,
            answer: Answer::new(alloc),
            nodes: Vec::new(alloc),
            refusal: Vec::new(alloc),
            numbers: Numbers::new(alloc, hasher),
            known: Known::new(alloc),
            hasher,
        }
    }

    /// Creates an empty store that hashes uids with hashers of `hasher`. Does not allocate.
    pub fn new(alloc: Global, hasher: S) -> StoreState<S>
        ensures store { result.store ≡ empty_store }
        ensures plain { IsPlainStore empty_input result.store }
        ensures answer { result.answer ≡ [] }
        ensures nodes { result.nodes.items ≡ [] }
        ensures refusal { result.refusal.items ≡ [] }
        ensures numbers { result.numbers ≡ [] }
    {
        StoreState::cached(alloc, hasher, CachedStore::with_hasher(alloc, hasher))
    }

    // Stores the text of an error and returns its reason. If an allocation failed, for the text or before, the old text
    // is kept.
    pub(crate) fn refuse(&mut self, alloc: Global, error: EntitiesError) -> Reason
        ensures store { self.new.store ≡ self.old.store }
        ensures answer { self.new.answer ≡ self.old.answer }
        ensures nodes { self.new.nodes.items ≡ self.old.nodes.items }
        ensures numbers { self.new.numbers ≡ self.old.numbers }
        ensures told { IsErrorTextBy error result self.new.refusal.items }
        ensures kept { result ≡ reasons.NoMemory → self.new.refusal.items ≡ self.old.refusal.items }
    {
        let told = error_text_of(alloc, &error);
        drop(error);
        match told {
            Ok(told) => {
                self.refusal = told.text;
                told.reason
            }
            Err(_want) => Reason::NoMemory,
        }
    }

    /// Returns whether the store has an entity with the uid in a text. Allocates the uid.
    ///
    /// # Errors
    ///
    /// - `NotAUid`: the text is not the text of a uid.
    /// - `NoMemory`: an allocation failed.
    pub fn has(&mut self, alloc: Global, text: &[u8]) -> Result<bool, Reason>
        ensures same { self.new ≡ self.old }
        ensures asks { ReadsPresence self.old.store text.now result }
    {
        let uid = self.known.uid_of(alloc, text)?;
        Ok(self.store.stored(&uid).is_some())
    }

    /// Returns whether the entity with the uid in `child` is a descendant of the uid in `ancestor`.
    ///
    /// # Errors
    ///
    /// - `NotAUid`: a text is not the text of a uid.
    /// - `NoEntity`: the store has no entity with the uid in `child`.
    /// - `NoMemory`: an allocation failed.
    ///
    /// # Complexity
    ///
    /// Allocates both uids, unless the query is cached. The call caches queries once there were as many queries since
    /// the last edit as the store has entities. For the text `child` it caches the numbers of the ancestors, if there
    /// are at most 32. For the text `ancestor` it caches the number of the uid. The cache has at most 65,536 texts of
    /// each kind and at most 4 MiB of text. A full cache is cleared. A text of more than 1,024 bytes is not cached. A
    /// cached query takes two lookups and parses no uid. A cached query does not allocate. A failed allocation for the
    /// cache is not an error.
    pub fn is_descendant_of(
        &mut self,
        alloc: Global,
        child: &[u8],
        ancestor: &[u8],
    ) -> Result<bool, Reason>
        ensures same { self.new ≡ self.old }
        ensures asks { ReadsAncestry self.old.store child.now ancestor.now result }
    {
        if let Some(below) = self.store.is_cached_ancestor(child, ancestor) {
            return Ok(below);
        }
        let uid = self.known.uid_of(alloc, child)?;
        let above = match self.known.uid_of(alloc, ancestor) {
            Ok(uid) => uid,
            Err(reason) => return Err(reason),
        };
        let below = match self.store.stored(&uid) {
            None => return Err(Reason::NoEntity),
            Some(entity) => entity.is_descendant_of(&above),
        };
        self.store.note(alloc, child, &uid, ancestor, above);
        Ok(below)
    }

    /// Stores the ancestors of the entity with the uid in a text in `answer`, in ascending order of uid.
    ///
    /// # Errors
    ///
    /// - `NotAUid`: the text is not the text of a uid.
    /// - `NoEntity`: the store has no entity with the uid.
    /// - `NoMemory`: an allocation failed.
    ///
    /// After an error nothing has changed.
    pub fn ancestors(&mut self, alloc: Global, text: &[u8]) -> Result<(), Reason>
        ensures { Listing has_ancestor IsAncestorIn text.now result self.old self.new }
    {
        let uid = self.known.uid_of(alloc, text)?;
        let answer = match self.store.stored(&uid) {
            None => return Err(Reason::NoEntity),
            Some(entity) => texts_of_union(alloc, entity.ancestors_in_order())?,
        };
        self.answer = answer;
        Ok(())
    }

    /// Stores the parents of the entity with the uid in a text in `answer`, in ascending order of uid.
    ///
    /// # Errors
    ///
    /// The errors of `ancestors`. After an error nothing has changed.
    pub fn parents(&mut self, alloc: Global, text: &[u8]) -> Result<(), Reason>
        ensures { Listing has_parent IsParent text.now result self.old self.new }
    {
        let uid = self.known.uid_of(alloc, text)?;
        let answer = match self.store.stored(&uid) {
            None => return Err(Reason::NoEntity),
            Some(entity) => texts_of_set(alloc, entity.parents())?,
        };
        self.answer = answer;
        Ok(())
    }

    /// Validates a copy of the store, as `Entities::try_validate` does.
    ///
    /// # Errors
    ///
    /// - `NotClosed`: an ancestor of an ancestor is missing.
    /// - `Cycle`: a uid is one of its own ancestors.
    /// - `SelfAncestor`: an entity is one of its own ancestors.
    /// - `DuplicateAncestor`: a uid is both a parent and an indirect ancestor.
    /// - `ActionParentIsNotAction`: an action has an ancestor that is not an action.
    /// - `ReservedKey`: a record has a reserved key.
    /// - `NoMemory`: an allocation failed.
    ///
    /// Stores the text of the error in `refusal`. After `NoMemory` the old text is kept.
    pub fn validate(&mut self, alloc: Global) -> Result<(), Reason>
        ensures { Validates result self.old self.new }
    {
        let copy = self.store.store_copy(alloc, self.hasher)?;
        match copy.try_validate(alloc) {
            Ok(_valid) => Ok(()),
            Err(error) => Err(self.refuse(alloc, error)),
        }
    }

    /// Makes the store partial. Its entities and all results are unchanged. Does not allocate.
    pub fn make_partial(&mut self, alloc: Global)
        ensures partial { StateBecomesPartial self.old self.new }
        ensures plain { (W : InputStore) → IsPlainStore W self.old.store →
            IsPlainStore (record W { partial = true }) self.new.store }
    {
        let store = mem::replace(
            &mut self.store,
            CachedStore::with_hasher(alloc, self.hasher),
        );
        self.store = store.partial();
    }

    /// Returns whether the store is partial. Does not allocate.
    pub fn is_partial(&self) -> bool
        ensures { result ≡ self.now.store.partial }
    {
        self.store.is_partial()
    }

    // Returns the slice of the store at uids.
    fn slice_of(&self, alloc: Global, uids: Vec<EntityUID>) -> Result<StoreState<S>, Reason>
        ensures { MatchResult result (λ k. IsSlice uids.items self.now.store k.store
            × IsUntold k) (λ w. w ≡ reasons.NoMemory) }
    {
        match self.store.slice(alloc, self.hasher, &uids) {
            Ok(store) => Ok(StoreState::cached(alloc, self.hasher, store)),
            Err(_want) => Err(Reason::NoMemory),
        }
    }

    /// Returns the slice of the store at the uids in parts of a text. The slice has an empty `answer`, no numbers and
    /// no last error.
    ///
    /// # Errors
    ///
    /// - `BadArgument`: a part is not within the text.
    /// - `NotAUid`: a part is not the text of a uid.
    /// - `NoMemory`: an allocation failed.
    pub fn slice(
        &mut self,
        alloc: Global,
        text: &[u8],
        spans: &[Span],
    ) -> Result<StoreState<S>, Reason>
        ensures same { self.new ≡ self.old }
        ensures slices { SlicesAt text.now spans.now self.old.store result }
    {
        let uids = self.known.uids_of(alloc, text, spans)?;
        self.slice_of(alloc, uids)
    }

    /// Returns a copy, with an empty `answer`, no numbers and no last error.
    ///
    /// # Errors
    ///
    /// Returns `NoMemory` if an allocation fails.
    pub fn copy(&self, alloc: Global) -> Result<StoreState<S>, Reason>
        ensures { Copies self.now.store result }
    {
        let store = self.store.store_copy(alloc, self.hasher)?;
        Ok(StoreState::cached(alloc, self.hasher, store))
    }

    /// Returns whether both stores have deeply equal entities. Does not allocate.
    pub fn is_equal(&self, other: &StoreState<S>) -> bool
        ensures { IsTrue result ↔ AreDeepEqual self.now.store other.now.store }
    {
        self.store.deep_eq(&other.store)
    }
}
