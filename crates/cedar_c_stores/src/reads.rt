//! The calls that read a store or one of its entities.
ghost use Rattle.std.specs.Prelude.{◌≡◌, [], ◌∷◌, ◌++◌, IfOk, List, map, ℕ};
ghost use Rattle.cedar_c_stores.specs.Stores.{Listing, has_parent};
ghost use Rattle.cedar_c_stores.specs.Reads.{AnswersAt, AnswersOf, AreAllUids, AreKeysOf, ReadsRelation, ReadsValue};
ghost use Rattle.cedar_c_stores.specs.Reads.{ComparesAt, FindsAt, IsIndirectAncestorIn, IsOneText, attrs_count, attrs_of};
ghost use Rattle.cedar_c_stores.specs.Reads.{has_indirect, tags_count, tags_of, uid_held};
ghost use Rattle.cedar_c_lists.specs.Texts.{AreTextsOf};

use crate::store_state::{StoreState, texts_of_set};
use cedar_c_lists::{Answer, Reason, with_uid};
use cedar_entities::{Dereference, Iter, Keys};
use std::alloc::{AllocError, Global};
use std::hash::BuildHasher;

// Returns the uids of entities as texts.
fn texts_of_entities(alloc: Global, entities: Iter<'_>) -> Result<Answer, AllocError>
    ensures { IfOk result (AreTextsOf (map uid_held entities.entry)) }
{
    let mut answer = Answer::new(alloc);
    for entity in entities {
        answer = with_uid(alloc, answer, entity.uid())?;
    }
    Ok(answer)
}

// Returns keys as texts.
fn texts_of_keys(alloc: Global, keys: Keys<'_>) -> Result<Answer, AllocError>
    ensures { IfOk result (λ a. a ≡ keys.entry) }
{
    let mut answer = Answer::new(alloc);
    for key in keys {
        answer = answer.with(key.as_bytes())?;
    }
    Ok(answer)
}

// Returns the list of one text.
fn one_text(alloc: Global, text: &str) -> Result<Answer, AllocError>
    ensures { IfOk result (λ a. a ≡ text.now ∷ []) }
{
    Answer::new(alloc).with(text.as_bytes())
}

impl<S: BuildHasher + Copy> StoreState<S> {
    /// Returns 2 if the store has an entity with the uid in a text. Otherwise returns 1 in a partial store, where it is
    /// unknown whether the entity exists, and 0 in another store.
    ///
    /// # Errors
    ///
    /// - `NotAUid`: the text is not the text of a uid.
    /// - `NoMemory`: an allocation failed.
    pub fn entity(&mut self, alloc: Global, text: &[u8]) -> Result<u32, Reason>
        ensures same { self.new ≡ self.old }
        ensures tells { FindsAt self.old.store text.now result }
    {
        let uid = self.known.uid_of(alloc, text)?;
        match self.store.entity(alloc, &uid)? {
            Dereference::NoSuchEntity => Ok(0),
            Dereference::Residual(_) => Ok(1),
            Dereference::Data(_) => Ok(2),
        }
    }

    /// Returns the number of attributes of the entity with the uid in a text. Allocates the uid.
    ///
    /// # Errors
    ///
    /// - `NotAUid`: the text is not the text of a uid.
    /// - `NoEntity`: the store has no entity with the uid.
    /// - `NoMemory`: an allocation failed.
    pub fn attrs_len(&mut self, alloc: Global, text: &[u8]) -> Result<usize, Reason>
        ensures same { self.new ≡ self.old }
        ensures tells { ReadsValue attrs_count self.old.store text.now result }
    {
        let uid = self.known.uid_of(alloc, text)?;
        match self.store.stored(&uid) {
            None => Err(Reason::NoEntity),
            Some(entity) => Ok(entity.attrs_len()),
        }
    }

    /// Returns the number of tags of the entity with the uid in a text. Allocates the uid.
    ///
    /// # Errors
    ///
    /// The errors of `attrs_len`.
    pub fn tags_len(&mut self, alloc: Global, text: &[u8]) -> Result<usize, Reason>
        ensures same { self.new ≡ self.old }
        ensures tells { ReadsValue tags_count self.old.store text.now result }
    {
        let uid = self.known.uid_of(alloc, text)?;
        match self.store.stored(&uid) {
            None => Err(Reason::NoEntity),
            Some(entity) => Ok(entity.tags_len()),
        }
    }

    /// Returns whether the uid in `parent` is a parent of the entity with the uid in `child`. Allocates both uids.
    ///
    /// # Errors
    ///
    /// - `NotAUid`: a text is not the text of a uid.
    /// - `NoEntity`: the store has no entity with the uid in `child`.
    /// - `NoMemory`: an allocation failed.
    pub fn is_child_of(
        &mut self,
        alloc: Global,
        child: &[u8],
        parent: &[u8],
    ) -> Result<bool, Reason>
        ensures same { self.new ≡ self.old }
        ensures asks { ReadsRelation has_parent self.old.store child.now parent.now result }
    {
        let child = self.known.uid_of(alloc, child)?;
        let parent = match self.known.uid_of(alloc, parent) {
            Ok(uid) => uid,
            Err(reason) => return Err(reason),
        };
        match self.store.stored(&child) {
            None => Err(Reason::NoEntity),
            Some(entity) => Ok(entity.is_child_of(&parent)),
        }
    }

    /// Returns whether the uid in `ancestor` is an indirect ancestor of the entity with the uid in `child`. Allocates
    /// both uids.
    ///
    /// # Errors
    ///
    /// The errors of `is_child_of`.
    pub fn is_indirect_descendant_of(
        &mut self,
        alloc: Global,
        child: &[u8],
        ancestor: &[u8],
    ) -> Result<bool, Reason>
        ensures same { self.new ≡ self.old }
        ensures asks { ReadsRelation has_indirect self.old.store child.now ancestor.now result }
    {
        let child = self.known.uid_of(alloc, child)?;
        let ancestor = match self.known.uid_of(alloc, ancestor) {
            Ok(uid) => uid,
            Err(reason) => return Err(reason),
        };
        match self.store.stored(&child) {
            None => Err(Reason::NoEntity),
            Some(entity) => Ok(entity.is_indirect_descendant_of(&ancestor)),
        }
    }

    /// Returns whether the entities with the uid in a text are deeply equal in this store and in `other`. Allocates the
    /// uid.
    ///
    /// # Errors
    ///
    /// - `NotAUid`: the text is not the text of a uid.
    /// - `NoEntity`: one of the stores has no entity with the uid.
    /// - `NoMemory`: an allocation failed.
    pub fn entity_is_equal(
        &mut self,
        alloc: Global,
        text: &[u8],
        other: &StoreState<S>,
    ) -> Result<bool, Reason>
        ensures same { self.new ≡ self.old }
        ensures compares { ComparesAt self.old.store other.now.store text.now result }
    {
        let uid = self.known.uid_of(alloc, text)?;
        let Some(one) = self.store.stored(&uid) else {
            return Err(Reason::NoEntity);
        };
        match other.store.stored(&uid) {
            None => Err(Reason::NoEntity),
            Some(entity) => Ok(one.deep_eq(entity)),
        }
    }

    /// Stores the uids of all entities in `answer`, in an unspecified order.
    ///
    /// # Errors
    ///
    /// Returns `NoMemory` if an allocation fails. After an error nothing has changed.
    pub fn uids(&mut self, alloc: Global) -> Result<(), Reason>
        ensures { AnswersOf AreAllUids result self.old self.new }
    {
        self.answer = texts_of_entities(alloc, self.store.iter())?;
        Ok(())
    }

    /// Stores the indirect ancestors of the entity with the uid in a text in `answer`, in ascending order of uid.
    ///
    /// # Errors
    ///
    /// - `NotAUid`: the text is not the text of a uid.
    /// - `NoEntity`: the store has no entity with the uid.
    /// - `NoMemory`: an allocation failed.
    ///
    /// After an error nothing has changed.
    pub fn indirect_ancestors(&mut self, alloc: Global, text: &[u8]) -> Result<(), Reason>
        ensures { Listing has_indirect IsIndirectAncestorIn text.now result self.old self.new }
    {
        let uid = self.known.uid_of(alloc, text)?;
        let answer = match self.store.stored(&uid) {
            None => return Err(Reason::NoEntity),
            Some(entity) => texts_of_set(alloc, entity.indirect_ancestors())?,
        };
        self.answer = answer;
        Ok(())
    }

    /// Stores the keys of the attributes of the entity with the uid in a text in `answer`, in byte order.
    ///
    /// # Errors
    ///
    /// The errors of `indirect_ancestors`. After an error nothing has changed.
    pub fn keys(&mut self, alloc: Global, text: &[u8]) -> Result<(), Reason>
        ensures { AnswersAt (AreKeysOf attrs_of) text.now result self.old self.new }
    {
        let uid = self.known.uid_of(alloc, text)?;
        let answer = match self.store.stored(&uid) {
            None => return Err(Reason::NoEntity),
            Some(entity) => texts_of_keys(alloc, entity.keys())?,
        };
        self.answer = answer;
        Ok(())
    }

    /// Stores the keys of the tags of the entity with the uid in a text in `answer`, in byte order.
    ///
    /// # Errors
    ///
    /// The errors of `indirect_ancestors`. After an error nothing has changed.
    pub fn tag_keys(&mut self, alloc: Global, text: &[u8]) -> Result<(), Reason>
        ensures { AnswersAt (AreKeysOf tags_of) text.now result self.old self.new }
    {
        let uid = self.known.uid_of(alloc, text)?;
        let answer = match self.store.stored(&uid) {
            None => return Err(Reason::NoEntity),
            Some(entity) => texts_of_keys(alloc, entity.tag_keys())?,
        };
        self.answer = answer;
        Ok(())
    }

    /// Stores the text of the store, as its `Display` writes it, in `answer`. Scans all entities once for each entity.
    ///
    /// # Errors
    ///
    /// Returns `NoMemory` if an allocation fails. After an error nothing has changed.
    pub fn text(&mut self, alloc: Global) -> Result<(), Reason>
        ensures { AnswersOf (λ _ texts. IsOneText texts) result self.old self.new }
    {
        let text = self.store.entities().to_string(alloc)?;
        self.answer = one_text(alloc, &text)?;
        Ok(())
    }

    /// Stores the text of the entity with the uid in a text, as its `Display` writes it, in `answer`.
    ///
    /// # Errors
    ///
    /// The errors of `indirect_ancestors`. After an error nothing has changed.
    pub fn entity_text(&mut self, alloc: Global, text: &[u8]) -> Result<(), Reason>
        ensures { AnswersAt (λ _ texts. IsOneText texts) text.now result self.old self.new }
    {
        let uid = self.known.uid_of(alloc, text)?;
        let written = match self.store.stored(&uid) {
            None => return Err(Reason::NoEntity),
            Some(entity) => entity.to_string(alloc)?,
        };
        self.answer = one_text(alloc, &written)?;
        Ok(())
    }
}
