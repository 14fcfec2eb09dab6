//! The calls on a store that take entities with content.
ghost use Rattle.cedar_c_stores.specs.Contents.{AddsFromLists, BuildsFromLists, from_lists_by, UpsertsFromLists};

use crate::content::Content;
use crate::from_lists::entities_from_lists;
use crate::listing::mode_of;
use crate::store_calls::EntityLists;
use crate::store_state::StoreState;
use cedar_c_lists::Reason;
use std::alloc::Global;
use std::hash::BuildHasher;

impl<S: BuildHasher + Copy> StoreState<S> {
    /// Replaces the store by the entities in `lists` with their `content`, with the mode of this number. The new store
    /// is the result of adding these entities to an empty store.
    ///
    /// # Errors
    ///
    /// The errors of `build`, and:
    ///
    /// - `BadArgument`: an edge, a term, or the nodes of a term are out of range.
    /// - `NotUtf8`: a key is not UTF-8.
    /// - The errors of `partial_value_of` for the nodes of a term.
    /// - `NoMemory`: an allocation failed.
    ///
    /// After an error the store is unchanged.
    pub fn build_with(
        &mut self,
        alloc: Global,
        lists: EntityLists<'_>,
        content: Content<'_>,
        mode: u32,
    ) -> Result<(), Reason>
        ensures { BuildsFromLists (from_lists_by lists.entry content.entry) mode result self.old self.new }
    {
        let mode = mode_of(mode)?;
        let list = match entities_from_lists(alloc, &mut self.known, lists, content) {
            Ok(list) => list,
            Err(reason) => return Err(reason),
        };
        self.build_list(alloc, list, mode)
    }

    /// Adds the entities in `lists` with their `content`, as `Entities::add_entities` does, with the mode of this
    /// number.
    ///
    /// # Errors
    ///
    /// The errors of `build_with`. After an error the store is as after an error of `add`.
    pub fn add_with(
        &mut self,
        alloc: Global,
        lists: EntityLists<'_>,
        content: Content<'_>,
        mode: u32,
    ) -> Result<(), Reason>
        ensures { AddsFromLists (from_lists_by lists.entry content.entry) mode result self.old self.new }
    {
        let mode = mode_of(mode)?;
        let list = match entities_from_lists(alloc, &mut self.known, lists, content) {
            Ok(list) => list,
            Err(reason) => return Err(reason),
        };
        self.add_list(alloc, list, mode)
    }

    /// Upserts the entities in `lists` with their `content`, as `Entities::upsert_entities` does, with the mode of this
    /// number.
    ///
    /// # Errors
    ///
    /// The errors of `build_with`, except `Duplicate`. After an error the store is as after an error of `add`.
    pub fn upsert_with(
        &mut self,
        alloc: Global,
        lists: EntityLists<'_>,
        content: Content<'_>,
        mode: u32,
    ) -> Result<(), Reason>
        ensures { UpsertsFromLists (from_lists_by lists.entry content.entry) mode result self.old self.new }
    {
        let mode = mode_of(mode)?;
        let list = match entities_from_lists(alloc, &mut self.known, lists, content) {
            Ok(list) => list,
            Err(reason) => return Err(reason),
        };
        self.upsert_list(alloc, list, mode)
    }
}
