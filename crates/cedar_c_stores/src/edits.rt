//! Edits that leave a store unchanged if they fail, and the calls that make them.
//!
//! The edits in `cedar_entities` consume the store, and return none after an error. If the store is known to be plain
//! and the edit keeps it plain, a dry run of the edit comes first. The dry run costs as much as the edited entities.
//! After the dry run only an allocation failure can make the edit fail. Otherwise the store is copied first, and the
//! copy is restored after an error.
ghost use Rattle.std.specs.Prelude.{◌≡◌, IfErr, IfOk, IsTrue, OnOk, Result, Err};
ghost use Rattle.cedar_entity.specs.declared.err.EntitiesError.{EntitiesError};
ghost use Rattle.cedar_entity_maps.specs.Plain.{StoreView, entities_in};
ghost use Rattle.cedar_entity_maps.specs.declared.modes.TCComputation.TheVariants.{ComputeNow};
ghost use Rattle.cedar_c_stores.specs.Edits.{IsEditResult, Edits, EditsState, IsSure, StaysPlain, RemainsOrEmpties};
ghost use Rattle.cedar_c_stores.specs.SomePlain.{IsSomePlain};
ghost use Rattle.cedar_c_stores.specs.Stores.{Adds, Builds, KeepsTexts, Removes, Upserts, emptied};

use crate::cached_store::CachedStore;
use crate::store_state::StoreState;
use cedar_c_lists::Reason;
use cedar_dry_run::{have_no_indirect, would_add, would_upsert};
use cedar_entities::{Entities, EntitiesError, Entity, TCComputation};
use cedar_ids::entity::EntityUID;
use std::alloc::Global;
use std::hash::BuildHasher;
use std::mem;
use std::rc::Rc;

// An edit of a store.
#[derive(Drop)]
pub(crate) enum Edit {
    // Adds entities.
    Add(Vec<Rc<Entity>>),
    // Upserts entities.
    Upsert(Vec<Rc<Entity>>),
    // Removes the entities with these uids.
    Remove(Vec<EntityUID>),
}

// Returns whether the mode computes the ancestors.
fn computes(mode: TCComputation) -> bool
    ensures { IsTrue result → mode ≡ ComputeNow }
{
    match mode {
        TCComputation::ComputeNow => true,
        TCComputation::AssumeAlreadyComputed | TCComputation::EnforceAlreadyComputed => false,
    }
}

// Returns whether the store is known to be plain and stays plain after the edit.
pub(crate) fn stays_plain(plain: bool, edit: &Edit, mode: TCComputation) -> bool
    ensures plain { IsTrue result → IsTrue plain }
    ensures keeps { IsTrue result → StaysPlain mode edit.now }
{
    if !plain {
        return false;
    }
    match edit {
        Edit::Add(list) => computes(mode) && have_no_indirect(list),
        Edit::Upsert(list) => computes(mode) && have_no_indirect(list),
        Edit::Remove(_) => true,
    }
}

// Makes an edit.
pub(crate) fn made<S: BuildHasher + Clone>(
    alloc: Global,
    store: Entities<S>,
    edit: Edit,
    mode: TCComputation,
) -> Result<Entities<S>, EntitiesError>
    ensures { IsEditResult mode edit store result }
{
    match edit {
        Edit::Add(list) => store.add_entities(alloc, list, mode),
        Edit::Upsert(list) => store.upsert_entities(alloc, list, mode),
        Edit::Remove(uids) => store.remove_entities(alloc, uids, mode),
    }
}

// Returns an empty store that is partial exactly if `store` is.
fn emptied<S: BuildHasher + Copy>(alloc: Global, hasher: S, store: &Entities<S>) -> Entities<S>
    ensures { result ≡ emptied store.now }
{
    let empty = Entities::with_hasher(alloc, hasher);
    if store.is_partial() {
        empty.partial()
    } else {
        empty
    }
}

// Makes an edit. After an error the store is empty, and partial exactly if it was before.
fn make<S: BuildHasher + Copy>(
    alloc: Global,
    store: &mut Entities<S>,
    hasher: S,
    edit: Edit,
    mode: TCComputation,
) -> Result<(), EntitiesError>
    ensures { (given : Result StoreView EntitiesError) × IsEditResult mode edit store.old given
        × RemainsOrEmpties store.old given result store.new }
{
    let empty = emptied(alloc, hasher, store);
    let old = mem::replace(store, empty);
    match made(alloc, old, edit, mode) {
        Ok(new) => {
            *store = new;
            Ok(())
        }
        Err(error) => Err(error),
    }
}

// Makes a dry run of an edit that keeps a plain store plain. If it succeeds, only an allocation failure can make the
// edit fail. A removal needs no dry run.
fn try_edit<S: BuildHasher + Clone>(
    alloc: Global,
    store: &Entities<S>,
    edit: &Edit,
    mode: TCComputation,
) -> Result<(), EntitiesError>
    requires plain { IsSomePlain store.now }
    requires keeps { StaysPlain mode edit.now }
    ensures refused { IfErr result (λ e. IsEditResult mode edit.now store.now (Err e)) }
    ensures passes { OnOk result (IsSure mode edit.now store.now) }
{
    match edit {
        Edit::Add(list) => would_add(alloc, store, list),
        Edit::Upsert(list) => would_upsert(alloc, store, list),
        Edit::Remove(_) => Ok(()),
    }
}

// Makes an edit that keeps a plain store plain, after a dry run.
fn edit_plain<S: BuildHasher + Copy>(
    alloc: Global,
    store: &mut Entities<S>,
    hasher: S,
    edit: Edit,
    mode: TCComputation,
) -> Result<(), EntitiesError>
    requires plain { IsSomePlain store.old }
    requires keeps { StaysPlain mode edit }
    ensures { Edits mode edit store.old result store.new }
{
    match try_edit(alloc, store, &edit, mode) {
        Ok(()) => make(alloc, store, hasher, edit, mode),
        Err(error) => Err(error),
    }
}

// Makes an edit. Restores a copy of the store after an error.
fn edit_copied<S: BuildHasher + Copy>(
    alloc: Global,
    store: &mut Entities<S>,
    hasher: S,
    edit: Edit,
    mode: TCComputation,
) -> Result<(), EntitiesError>
    ensures { Edits mode edit store.old result store.new }
{
    let copy = store.clone()?;
    match make(alloc, store, hasher, edit, mode) {
        Ok(()) => Ok(()),
        Err(error) => {
            *store = copy;
            Err(error)
        }
    }
}

// Makes an edit. `plain` states that the store is plain and that the edit keeps it plain.
pub(crate) fn edit_store<S: BuildHasher + Copy>(
    alloc: Global,
    store: &mut Entities<S>,
    hasher: S,
    edit: Edit,
    mode: TCComputation,
    plain: bool,
) -> Result<(), EntitiesError>
    requires plain { IsTrue plain → IsSomePlain store.old }
    requires keeps { IsTrue plain → StaysPlain mode edit }
    ensures edits { Edits mode edit store.old result store.new }
    ensures stays { OnOk result (IsTrue plain → IsSomePlain store.new) }
{
    if plain {
        return edit_plain(alloc, store, hasher, edit, mode);
    }
    edit_copied(alloc, store, hasher, edit, mode)
}

impl<S: BuildHasher + Copy> StoreState<S> {
    // Makes an edit. After an error the store is unchanged, except that an allocation failure can leave it empty. It is
    // then partial exactly if it was before.
    fn edit(&mut self, alloc: Global, edit: Edit, mode: TCComputation) -> Result<(), Reason>
        ensures edits { EditsState mode edit self.old.store result self.new }
        ensures texts { KeepsTexts result self.old self.new }
    {
        match self.store.edit(alloc, self.hasher, edit, mode) {
            Ok(()) => Ok(()),
            Err(error) => Err(self.refuse(alloc, error)),
        }
    }

    // Adds entities, as `Entities::add_entities` does. After an error the store is as after an error of `edit`.
    //
    // If the store is known to be plain, the mode is `ComputeNow` and no entity has indirect ancestors, the extra cost
    // is a dry run, as `would_add` describes. Otherwise the extra cost is a copy of the store, and a copy of each
    // entity whose ancestors are recomputed.
    pub(crate) fn add_list(
        &mut self,
        alloc: Global,
        list: Vec<Rc<Entity>>,
        mode: TCComputation,
    ) -> Result<(), Reason>
        ensures adds { Adds mode (entities_in list.items) self.old.store result self.new }
        ensures texts { KeepsTexts result self.old self.new }
    {
        self.edit(alloc, Edit::Add(list), mode)
    }

    // Replaces the store by the result of adding the entities to an empty store. After an error the store is unchanged.
    // The old store is dropped after the new one is created.
    pub(crate) fn build_list(
        &mut self,
        alloc: Global,
        list: Vec<Rc<Entity>>,
        mode: TCComputation,
    ) -> Result<(), Reason>
        ensures builds { Builds mode (entities_in list.items) self.old.store result self.new }
        ensures texts { KeepsTexts result self.old self.new }
    {
        match CachedStore::built(alloc, self.hasher, list, mode) {
            Ok(store) => {
                self.store = store;
                Ok(())
            }
            Err(error) => Err(self.refuse(alloc, error)),
        }
    }

    // Upserts entities, as `Entities::upsert_entities` does. The extra cost, and the state after an error, are those of
    // `add_list`.
    pub(crate) fn upsert_list(
        &mut self,
        alloc: Global,
        list: Vec<Rc<Entity>>,
        mode: TCComputation,
    ) -> Result<(), Reason>
        ensures upserts { Upserts mode (entities_in list.items) self.old.store result self.new }
        ensures texts { KeepsTexts result self.old self.new }
    {
        self.edit(alloc, Edit::Upsert(list), mode)
    }

    // Removes entities, as `Entities::remove_entities` does. After an error the store is as after an error of
    // `add_list`. If the store is not known to be plain, the extra cost is a copy of the store. In a plain store a
    // removal fails only if an allocation fails.
    pub(crate) fn remove_uids(
        &mut self,
        alloc: Global,
        uids: Vec<EntityUID>,
        mode: TCComputation,
    ) -> Result<(), Reason>
        ensures removes { Removes mode uids.items self.old.store result self.new }
        ensures texts { KeepsTexts result self.old self.new }
    {
        self.edit(alloc, Edit::Remove(uids), mode)
    }
}
