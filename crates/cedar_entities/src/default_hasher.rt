//! Constructors of stores with the default hasher builder.
ghost use Rattle.std.specs.Prelude.{◌≡◌, false, true, map, IfOk};
ghost use Rattle.std.specs.FinMap as finmap;
ghost use Rattle.cedar_entities.specs.Changes.{AddsEntities, AddsPlain};
ghost use Rattle.cedar_entity_maps.specs.Plain.{IsPlainStore, HaveNoIndirect, input_of, no_entities};
ghost use Rattle.cedar_entity_maps.specs.InputStore.{empty_input};

use crate::entities::Entities;
use cedar_entity::entity::Entity;
use cedar_entity::err::EntitiesError;
use cedar_entity_maps::TCComputation;
use std::alloc::Global;
use std::hash::BuildHasherDefault;

impl Entities {
    /// Creates a store without entities, not partial. Does not allocate.
    pub fn new(alloc: Global) -> Entities
        ensures value { result ≡ record { entities = finmap.empty; partial = false; known_plain = true } }
        ensures plain { IsPlainStore empty_input result }
    {
        Entities::with_hasher(alloc, BuildHasherDefault::new())
    }

    /// Creates a store with these entities, not partial. The result is the same as adding them to an empty store.
    ///
    /// # Errors
    ///
    /// The errors of [`Entities::add_entities`].
    pub fn from_entities(
        alloc: Global,
        list: Vec<Entity>,
        tc_computation: TCComputation,
    ) -> Result<Entities, EntitiesError>
        ensures partial { IfOk result (λ s. s.partial ≡ false) }
        ensures adds { AddsEntities tc_computation no_entities list.items result (λ s. s.entities) }
        ensures plain { HaveNoIndirect list.items
            → AddsPlain tc_computation empty_input (map input_of list.items) result }
    {
        Entities::from_entities_with_hasher(alloc, BuildHasherDefault::new(), list, tc_computation)
    }
}
