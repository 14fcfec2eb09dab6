//! The iterators of a store. In contracts, an iterator is the list of its remaining items.
ghost use Rattle.std.specs.Prelude.{◌≡◌, List, map};
ghost use Rattle.std.specs.Iterator.{YieldsFirstRef, item_count};
ghost use Rattle.std.specs.List.{IsDistinct};
ghost use Rattle.std.specs.HashMap.{keys};
ghost use Rattle.cedar_ids.specs.UidOf.{same_uid};
ghost use Rattle.cedar_entities.specs.Answers.{ListsEntityMap};
ghost use Rattle.cedar_entity_maps.specs.laws.EntityMap.{held_map, shared, UidsMatch};

use cedar_entity::entity::Entity;
use cedar_entity::node::SharedEntity;
use cedar_ids::entity::EntityUID;
use cedar_uid_sets::SharedUid;
use std::alloc::AllocError;
use std::collections::{HashMap, hash_map};
use std::hash::BuildHasher;
use std::marker::Model;
use std::rc::Rc;

/// An iterator over the entities of a store, each once, in no specified order.
#[derive(Drop)]
pub struct Iter<'a> {
    inner: hash_map::Iter<'a, SharedUid, SharedEntity>,
}

impl<'a> Model for Iter<'a> {
    ghost use Rattle.std.specs.Prelude.{List, map};
    ghost use Rattle.std.specs.Coded.{coded_list};
    ghost use Rattle.cedar_entity_maps.specs.laws.EntityMap.{shared};
    ghost use Rattle.cedar_entity.specs.View.{EntityView};
    ghost use Rattle.cedar_entity.specs.Codes.{view_code};

    ghost Value = { List EntityView };

    ghost coded = { coded_list view_code };

    ghost view = { λ i. map (λ e. shared e.1) i.inner };
}

impl<'a> Iter<'a> {
    pub(crate) fn of<S: BuildHasher>(entities: &'a HashMap<SharedUid, SharedEntity, S>) -> Iter<'a>
        requires { UidsMatch entities.now }
        ensures { ListsEntityMap (held_map entities.now) result }
    {
        Iter {
            inner: entities.iter(),
        }
    }
}

impl<'a> Iterator for Iter<'a> {
    type Item = &'a Entity;

    ghost next_gives = { YieldsFirstRef (λ s. s) };

    ghost remaining = { item_count (λ s. s) };

    fn next(&mut self) -> Option<&'a Entity> {
        let (_uid, node) = self.inner.next()?;
        Some(&*node.0)
    }
}

/// An iterator over the entities of a store, each once, in no specified order. An entity that is shared elsewhere is
/// copied. If the allocation of a copy fails, the item is an error.
#[derive(Drop)]
pub struct IntoIter {
    inner: hash_map::IntoIter<SharedUid, SharedEntity>,
}

impl Model for IntoIter {
    ghost use Rattle.std.specs.Prelude.{List, map};
    ghost use Rattle.std.specs.Coded.{coded_list};
    ghost use Rattle.cedar_entity_maps.specs.laws.EntityMap.{shared};
    ghost use Rattle.cedar_entity.specs.View.{EntityView};
    ghost use Rattle.cedar_entity.specs.Codes.{view_code};

    ghost Value = { List EntityView };

    ghost coded = { coded_list view_code };

    ghost view = { λ i. map (λ e. shared e.1) i.inner };
}

impl IntoIter {
    pub(crate) fn of<S: BuildHasher + Drop>(
        entities: HashMap<SharedUid, SharedEntity, S>,
    ) -> IntoIter
        requires { UidsMatch entities }
        ensures { ListsEntityMap (held_map entities) result }
    {
        // No effect at run time: the contract of this call states that each entry is found in the map.
        let _ = entities.iter();
        IntoIter {
            inner: entities.into_iter(),
        }
    }
}

impl Iterator for IntoIter {
    type Item = Result<Entity, AllocError>;

    ghost use Rattle.cedar_entities.specs.Answers.{RemovesUids};

    ghost next_gives = { RemovesUids };

    ghost remaining = { item_count (λ s. s) };

    fn next(&mut self) -> Option<Result<Entity, AllocError>> {
        let (_uid, node) = self.inner.next()?;
        Some(Rc::unwrap_or_clone(node.0))
    }
}
