//! The calls that return the descendants of a uid, and the paths between two uids.
ghost use Rattle.std.specs.Prelude.{◌≡◌, IfOk};
ghost use Rattle.cedar_ids.specs.Views.{type_name};
ghost use Rattle.cedar_c_lists.specs.Texts.{AreTextsOf};
ghost use Rattle.cedar_c_stores.specs.Queries.{AnswersDescendants, AnswersDescendantsOfType, AnswersPath, ReadsReach};
ghost use Rattle.cedar_c_stores.specs.Queries.{ListsDescendants, ListsDescendantsOfType, ReportsPath};

use crate::store_state::StoreState;
use cedar_c_lists::{Answer, Reason, with_uid};
use cedar_entities::{Entities, SharedUid};
use cedar_ids::entity::{EntityType, EntityUID};
use cedar_queries::{descendants, descendants_of_type, path, reaches};
use std::alloc::{AllocError, Global};
use std::hash::BuildHasher;

// Returns uids as texts.
fn texts_of_uids(alloc: Global, uids: &[SharedUid]) -> Result<Answer, AllocError>
    ensures { IfOk result (AreTextsOf uids.now) }
{
    let mut answer = Answer::new(alloc);
    for uid in uids {
        answer = with_uid(alloc, answer, uid.uid())?;
    }
    Ok(answer)
}

// Returns the descendants of a uid as texts.
fn descendant_texts<S: BuildHasher + Copy>(
    alloc: Global,
    store: &Entities<S>,
    uid: &EntityUID,
) -> Result<Answer, AllocError>
    ensures { IfOk result (ListsDescendants uid.now store.now) }
{
    let uids = descendants(alloc, store, uid)?;
    texts_of_uids(alloc, &uids)
}

// Returns the descendants of a uid that have a type as texts.
fn descendant_texts_of_type<S: BuildHasher + Copy>(
    alloc: Global,
    store: &Entities<S>,
    uid: &EntityUID,
    ty: &EntityType,
) -> Result<Answer, AllocError>
    ensures { IfOk result (ListsDescendantsOfType uid.now (type_name ty.now) store.now) }
{
    let uids = descendants_of_type(alloc, store, uid, ty)?;
    texts_of_uids(alloc, &uids)
}

// Returns whether there is a path, and a shortest one as texts, or no texts.
fn path_texts<S: BuildHasher + Copy>(
    alloc: Global,
    store: &Entities<S>,
    from: &EntityUID,
    to: &EntityUID,
) -> Result<(bool, Answer), AllocError>
    ensures { IfOk result (λ p. ReportsPath from.now to.now p.0 store.now p.1) }
{
    match path(alloc, store, from, to)? {
        None => Ok((false, Answer::new(alloc))),
        Some(uids) => Ok((true, texts_of_uids(alloc, &uids)?)),
    }
}

impl<S: BuildHasher + Copy> StoreState<S> {
    /// Stores the descendants of the uid in a text in `answer`, in ascending order of uid: the uids of all entities that
    /// reach it over one or more parents. The store need not have an entity for the uid.
    ///
    /// # Errors
    ///
    /// - `NotAUid`: the text is not the text of a uid.
    /// - `NoMemory`: an allocation failed.
    ///
    /// After an error nothing has changed.
    pub fn descendants(&mut self, alloc: Global, text: &[u8]) -> Result<(), Reason>
        ensures { AnswersDescendants text.now result self.old self.new }
    {
        let uid = self.known.uid_of(alloc, text)?;
        self.answer = descendant_texts(alloc, self.store.entities(), &uid)?;
        Ok(())
    }

    /// Stores the descendants of the uid in a text that have a type in `answer`, in ascending order of uid.
    ///
    /// # Errors
    ///
    /// - `NotAUid`: the text is not the text of a uid.
    /// - `NotAName`: the text `ty` is not the name of a type.
    /// - `NoMemory`: an allocation failed.
    ///
    /// After an error nothing has changed.
    pub fn descendants_of_type(
        &mut self,
        alloc: Global,
        text: &[u8],
        ty: &[u8],
    ) -> Result<(), Reason>
        ensures { AnswersDescendantsOfType text.now ty.now result self.old self.new }
    {
        let (uid, ty) = self.known.uid_and_type_of(alloc, text, ty)?;
        self.answer = descendant_texts_of_type(alloc, self.store.entities(), &uid, &ty)?;
        Ok(())
    }

    /// Returns whether there is a path over one or more parents from the uid in `from` to the uid in `to`. Stores a
    /// shortest path in `answer`: the two uids and all uids between them, in order. Without a path, `answer` becomes
    /// empty. The store need not have an entity for either uid.
    ///
    /// # Errors
    ///
    /// - `NotAUid`: a text is not the text of a uid.
    /// - `NoMemory`: an allocation failed.
    ///
    /// After an error nothing has changed.
    pub fn path(&mut self, alloc: Global, from: &[u8], to: &[u8]) -> Result<bool, Reason>
        ensures { AnswersPath from.now to.now result self.old self.new }
    {
        let (from, to) = self.known.pair_of(alloc, from, to)?;
        let (has, answer) = path_texts(alloc, self.store.entities(), &from, &to)?;
        self.answer = answer;
        Ok(has)
    }

    /// Returns whether the uid in `from` reaches the uid in `to` over one or more parents.
    ///
    /// # Errors
    ///
    /// - `NotAUid`: a text is not the text of a uid.
    /// - `NoMemory`: an allocation failed.
    pub fn reaches(&mut self, alloc: Global, from: &[u8], to: &[u8]) -> Result<bool, Reason>
        ensures same { self.new ≡ self.old }
        ensures asks { ReadsReach self.old.store from.now to.now result }
    {
        let (from, to) = self.known.pair_of(alloc, from, to)?;
        Ok(reaches(alloc, self.store.entities(), &from, &to)?)
    }
}
