//! Cached results of earlier queries on a store, by the texts of the queries.
ghost use Rattle.std.specs.Prelude.{◌≡◌, IfOk, IfSome, Ok, Some};
ghost use Rattle.std.specs.FinMap as finmap;
ghost use Rattle.cedar_ids.specs.declared.entity.EntityUID.{EntityUID};
ghost use Rattle.cedar_entity.specs.View.{has_ancestor};
ghost use Rattle.cedar_entity_maps.specs.Plain.{StoreView};
ghost use Rattle.cedar_c_lists.specs.Texts.{IsReadOf};
ghost use Rattle.cedar_c_stores.specs.QueryCaches.{AreCached, AreNumbersOf, KeepsNumbers};
ghost use Rattle.cedar_c_stores.specs.Reads.{ReadsRelation};

use crate::numbers::Numbers;
use cedar_entities::Entity;
use cedar_ids::entity::EntityUID;
use std::alloc::{AllocError, Global};
use std::collections::HashMap;
use std::hash::BuildHasher;

// The maximum number of ancestors of a cached entity. A lookup scans them.
const FEW: usize = 32;

// The maximum number of texts in each of the two maps.
const MOST: usize = 65_536;

// The maximum length of a cached text, in bytes.
const LONGEST: usize = 1024;

// The maximum number of bytes of all texts: 32 for each possible text of both maps.
const MOST_BYTES: usize = 4_194_304;

// Returns the numbers of the ancestors of an entity, or `None` if there are more than `FEW`. Numbers new uids.
fn row_of<S: BuildHasher + Copy>(
    alloc: Global,
    numbers: &mut Numbers<S>,
    entity: &Entity,
) -> Result<Option<Vec<usize>>, AllocError>
    ensures keeps { KeepsNumbers numbers.old numbers.new }
    ensures row { IfOk result (λ o. IfSome o (λ row.
        AreNumbersOf numbers.new (has_ancestor entity.now) row.items)) }
{
    let mut row = Vec::new(alloc);
    for uid in entity.shared_ancestors() {
        if row.len() >= FEW {
            return Ok(None);
        }
        row.push(numbers.number_of_shared(uid.clone()?)?)?;
    }
    Ok(Some(row))
}

/// A cache of earlier queries. For the text of an entity's uid it has the numbers of the ancestors, if there are at
/// most `FEW`. For a text that was looked up among ancestors it has the number of its uid. A number is a position among
/// the cached uids, so a lookup compares numbers and parses no uid.
///
/// The cache has at most `MOST` texts in each map, and at most `MOST_BYTES` bytes of texts. A text longer than
/// `LONGEST` is not cached. A full cache is cleared before the next text is cached.
#[derive(Drop)]
pub(crate) struct QueryCache<S: BuildHasher> {
    numbers: Numbers<S>,
    above: HashMap<Vec<u8>, Option<Vec<usize>>, S>,
    names: HashMap<Vec<u8>, usize, S>,
    // The number of bytes of all texts of both maps.
    bytes: usize,
    // The hasher builder of a cleared cache.
    hasher: S,
}

impl<S: BuildHasher + Copy> QueryCache<S> {
    // Creates an empty cache. Does not allocate.
    pub(crate) fn new(alloc: Global, hasher: S) -> QueryCache<S>
        ensures { (S : StoreView) → AreCached S result }
    {
        QueryCache {
            numbers: Numbers::new(alloc, hasher),
            above: HashMap::with_hasher(alloc, hasher),
            names: HashMap::with_hasher(alloc, hasher),
            bytes: 0,
            hasher,
        }
    }

    // Returns whether the cache may have no room for two more texts.
    fn is_full(&self) -> bool {
        self.above.len() >= MOST
            || self.names.len() >= MOST
            || self.bytes > MOST_BYTES - 2 * LONGEST
    }

    // Clears a full cache. Does not allocate.
    fn make_room(&mut self, alloc: Global)
        ensures { (S : StoreView) → AreCached S self.old → AreCached S self.new }
    {
        if self.is_full() {
            *self = QueryCache::new(alloc, self.hasher);
        }
    }

    // Returns whether the uid in `ancestor` is an ancestor of the entity with the uid in `child`, or `None` if a text
    // is not cached. Does not allocate.
    pub(crate) fn is_below(&self, child: &[u8], ancestor: &[u8]) -> Option<bool>
        ensures { (S : StoreView) → AreCached S self.now → IfSome result (λ b.
            ReadsRelation has_ancestor S child.now ancestor.now (Ok b)) }
    {
        let Some(Some(row)) = self.above.get(child) else {
            return None;
        };
        match self.names.get(ancestor) {
            None => None,
            Some(number) => Some(row.contains(number)),
        }
    }

    // Caches the ancestors of the entity with the uid in a text, unless they are cached. After an error the cache is
    // unchanged, except that more uids may have numbers.
    fn cache_ancestors(
        &mut self,
        alloc: Global,
        text: &[u8],
        entity: &Entity,
    ) -> Result<(), AllocError>
        ensures { (S : StoreView) → (u : EntityUID) → IsReadOf u text.now
            → finmap.get S.entities u ≡ Some entity.now → AreCached S self.old → AreCached S self.new }
    {
        if self.above.contains_key(text) {
            return Ok(());
        }
        let row = row_of(alloc, &mut self.numbers, entity)?;
        let key = Vec::from_slice(alloc, text)?;
        self.above.insert(key, row)?;
        self.bytes = self.bytes.saturating_add(text.len());
        Ok(())
    }

    // Caches the number of the uid in a text, unless it is cached. After an error the cache is unchanged, except that
    // the uid may have a number.
    fn cache_name(&mut self, alloc: Global, text: &[u8], uid: EntityUID) -> Result<(), AllocError>
        ensures { (S : StoreView) → IsReadOf uid text.now → AreCached S self.old → AreCached S self.new }
    {
        if self.names.contains_key(text) {
            return Ok(());
        }
        let number = self.numbers.number_of(alloc, uid)?;
        let key = Vec::from_slice(alloc, text)?;
        self.names.insert(key, number)?;
        self.bytes = self.bytes.saturating_add(text.len());
        Ok(())
    }

    // Caches the queried entity by the text of its uid, and the other uid by its text. Does nothing if a text is too
    // long. After an allocation failure every cached result is still correct.
    pub(crate) fn note(
        &mut self,
        alloc: Global,
        child: &[u8],
        entity: &Entity,
        ancestor: &[u8],
        uid: EntityUID,
    ) -> Result<(), AllocError>
        ensures { (S : StoreView) → (u : EntityUID) → IsReadOf u child.now
            → finmap.get S.entities u ≡ Some entity.now → IsReadOf uid ancestor.now → AreCached S self.old
            → AreCached S self.new }
    {
        if child.len() > LONGEST || ancestor.len() > LONGEST {
            return Ok(());
        }
        self.make_room(alloc);
        self.cache_name(alloc, ancestor, uid)?;
        self.cache_ancestors(alloc, child, entity)
    }
}
