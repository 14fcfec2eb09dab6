//! The calls on a store that take lists of entities.
ghost use Rattle.std.specs.Prelude.{◌≡◌, MatchResult};
ghost use Rattle.cedar_entity_maps.specs.Plain.{entities_in};
ghost use Rattle.cedar_c_stores.specs.Lists.{AreListed, IsUnlisted};
ghost use Rattle.cedar_c_stores.specs.Stores.{AddsListed, BuildsListed, RemovesListed, UpsertsListed};

use crate::known::Known;
use crate::listing::{entities_of, mode_of};
use crate::store_state::StoreState;
use cedar_c_lists::{Edge, Reason, Span};
use cedar_entities::Entity;
use std::alloc::Global;
use std::hash::BuildHasher;
use std::rc::Rc;

/// A list of entities as a caller passes it: uids in parts of a text, and edges between positions among the uids. The
/// first `count` uids are the uids of the entities. The edges lead from entities to parents.
#[derive(Clone, Copy)]
pub struct EntityLists<'a> {
    /// The text with the uids.
    pub text: &'a [u8],
    /// The parts of the text that are uids: the uids of the entities, then the uids of other parents.
    pub uids: &'a [Span],
    /// The number of entities.
    pub count: usize,
    /// The edges from entities to parents.
    pub edges: &'a [Edge],
}

impl EntityLists<'_> {
    // Creates the entities in the lists.
    fn entities(&self, alloc: Global, known: &mut Known) -> Result<Vec<Rc<Entity>>, Reason>
        ensures { MatchResult result
            (λ v. AreListed self.now.text.now self.now.uids.now self.now.count self.now.edges.now
            (entities_in v.items))
            (IsUnlisted self.now.text.now self.now.uids.now self.now.count self.now.edges.now) }
    {
        entities_of(alloc, known, self.text, self.uids, self.count, self.edges)
    }
}

impl<S: BuildHasher + Copy> StoreState<S> {
    /// Replaces the store by the entities in `lists`, with the mode of this number. The new store is the result of
    /// adding these entities to an empty store. The old store is dropped after the new one is created.
    ///
    /// # Errors
    ///
    /// - `BadArgument`: there is no mode with this number, there are fewer uids than entities, or a part or an edge is
    ///   out of range.
    /// - `NotAUid`: a part is not the text of a uid.
    /// - `Duplicate`: two entities have the same uid, but are not deeply equal.
    /// - `Cycle`: an entity reaches itself.
    /// - `NotClosed`: an ancestor of an ancestor is missing, in the mode `EnforceAlreadyComputed`.
    /// - `NoMemory`: an allocation failed.
    ///
    /// After an error the store is unchanged. The text of an error of the store becomes the text of the last error.
    /// After `BadArgument` and `NotAUid` the old text is kept. After `NoMemory` it is kept too.
    pub fn build(&mut self, alloc: Global, lists: EntityLists<'_>, mode: u32) -> Result<(), Reason>
        ensures { BuildsListed lists.entry.text.now lists.entry.uids.now lists.entry.count
            lists.entry.edges.now mode result self.old self.new }
    {
        let mode = mode_of(mode)?;
        let list = match lists.entities(alloc, &mut self.known) {
            Ok(list) => list,
            Err(reason) => return Err(reason),
        };
        self.build_list(alloc, list, mode)
    }

    /// Adds the entities in `lists`, as `Entities::add_entities` does, with the mode of this number.
    ///
    /// # Errors
    ///
    /// The errors of `build`. After an error the store is unchanged. Only an allocation failure can instead leave it
    /// empty, and partial exactly if it was partial before.
    pub fn add(&mut self, alloc: Global, lists: EntityLists<'_>, mode: u32) -> Result<(), Reason>
        ensures { AddsListed lists.entry.text.now lists.entry.uids.now lists.entry.count
            lists.entry.edges.now mode result self.old self.new }
    {
        let mode = mode_of(mode)?;
        let list = match lists.entities(alloc, &mut self.known) {
            Ok(list) => list,
            Err(reason) => return Err(reason),
        };
        self.add_list(alloc, list, mode)
    }

    /// Upserts the entities in `lists`, as `Entities::upsert_entities` does, with the mode of this number.
    ///
    /// # Errors
    ///
    /// The errors of `add`, except `Duplicate`. After an error the store is as after an error of `add`.
    pub fn upsert(&mut self, alloc: Global, lists: EntityLists<'_>, mode: u32) -> Result<(), Reason>
        ensures { UpsertsListed lists.entry.text.now lists.entry.uids.now lists.entry.count
            lists.entry.edges.now mode result self.old self.new }
    {
        let mode = mode_of(mode)?;
        let list = match lists.entities(alloc, &mut self.known) {
            Ok(list) => list,
            Err(reason) => return Err(reason),
        };
        self.upsert_list(alloc, list, mode)
    }

    /// Removes the entities with the uids in parts of a text, as `Entities::remove_entities` does, with the mode of
    /// this number.
    ///
    /// # Errors
    ///
    /// - `BadArgument`: there is no mode with this number, or a part is not within the text.
    /// - `NotAUid`: a part is not the text of a uid.
    /// - `Cycle`: an entity reaches itself.
    /// - `NotClosed`: an ancestor of an ancestor is missing, in the mode `EnforceAlreadyComputed`.
    /// - `NoMemory`: an allocation failed.
    ///
    /// After an error the store is as after an error of `add`.
    pub fn remove(
        &mut self,
        alloc: Global,
        text: &[u8],
        uids: &[Span],
        mode: u32,
    ) -> Result<(), Reason>
        ensures { RemovesListed text.now uids.now mode result self.old self.new }
    {
        let mode = mode_of(mode)?;
        let uids = match self.known.uids_of(alloc, text, uids) {
            Ok(uids) => uids,
            Err(reason) => return Err(reason),
        };
        self.remove_uids(alloc, uids, mode)
    }
}
