//! The index of a store: facts and children by which an edit finds the affected entities without scanning all entities.
ghost use Rattle.std.specs.Prelude.{◌≡◌, ◌&&◌, ◌||◌, Bool, None, not, is_some, IfErr, IfOk, IsTrue};
ghost use Rattle.std.specs.FinMap as finmap;
ghost use Rattle.std.specs.HashSet.{contains};
ghost use Rattle.std.specs.Option.{IfSome};
ghost use Rattle.std.specs.Set.{is_member};
ghost use Rattle.cedar_ids.specs.UidOf.{same_uid};
ghost use Rattle.cedar_ids.specs.declared.entity.EntityUID.{EntityUID};
ghost use Rattle.cedar_children.specs.Children.{is_child};
ghost use Rattle.cedar_entity.specs.declared.err.EntitiesError.TheVariants.{Memory};
ghost use Rattle.cedar_entity_maps.specs.Plain.{EntityMap};
ghost use Rattle.cedar_entity_maps.specs.Affected.{is_affected};
ghost use Rattle.cedar_entity_maps.specs.laws.EntityMap.{entity_at, held_map};
ghost use Rattle.cedar_entity_maps.specs.laws.Indexes.{HasChildren, IsIndexOf, is_parent_at, parentage};

use crate::affected::{affected_by_any, insert_uids};
use cedar_children::{Children, listed};
use cedar_entity::err::EntitiesError;
use cedar_entity::node::SharedEntity;
use cedar_uid_sets::{SharedUid, UidSet};
use std::alloc::{AllocError, Global};
use std::collections::{HashMap, HashSet};
use std::fmt;
use std::hash::BuildHasher;

// A store with fewer entities is scanned, which costs less than an index.
const SMALL: usize = 40;

// The children are listed after edits have scanned this many times the number of entities, since listing them costs
// about as much.
const WALKS: usize = 16;

// A scan for this many more uids counts as one more scan.
const UIDS: usize = 4;

/// What a store knows in addition to its entities.
#[derive(Drop)]
pub struct Index<S: BuildHasher> {
    /// Whether the store is known to be plain: the ancestors of each entity are exactly the uids that it reaches over
    /// parents, and no entity is its own ancestor.
    pub plain: bool,
    /// The number of entities that edits have scanned since the index was created.
    pub walked: usize,
    /// The children of each uid, once they are listed.
    pub children: Option<Children<S>>,
}

impl<S: BuildHasher> fmt::Debug for Index<S> {
    /// Writes the three fields, with the children in the order of their map.
    fn fmt<W: fmt::Write>(&self, f: &mut fmt::Formatter<W>) -> fmt::Result {
        f.debug_struct("Index")
            .field("plain", &self.plain)
            .field("walked", &self.walked)
            .field("children", &self.children)
            .finish()
    }
}

impl<S: BuildHasher> Index<S> {
    /// Creates an index without listed children. The caller states whether the store is plain. Does not allocate.
    pub fn unlisted(plain: bool) -> Index<S>
        ensures { result ≡ record { plain = plain; walked = 0; children = None } }
    {
        Index {
            plain,
            walked: 0,
            children: None,
        }
    }
}

impl<S: BuildHasher + Clone> Index<S> {
    /// Returns the index unchanged if `stays` is true, and otherwise an index that knows nothing. Does not allocate.
    pub fn plain_if(self, stays: bool) -> Index<S>
        ensures plain { IsTrue result.plain → IsTrue self.plain × IsTrue stays }
        ensures children { (f : EntityUID → EntityUID → Bool) → IfSome self.children (HasChildren f)
            → IfSome result.children (HasChildren f) }
    {
        if stays { self } else { Index::unlisted(false) }
    }
}

// Returns the uids of a map, in ascending order.
fn keys_in_order<S: BuildHasher>(
    alloc: Global,
    entities: &HashMap<SharedUid, SharedEntity, S>,
) -> Result<Vec<SharedUid>, AllocError>
    ensures { IfOk result (λ v. (q : EntityUID) → is_member same_uid v.items q ≡ is_some (entity_at entities.now q)) }
{
    let mut keys = Vec::new(alloc);
    for (key, _) in entities {
        keys.push(key.clone()?)?;
    }
    let set = UidSet::from_pointers(keys)?;
    Ok(set.into_pointers())
}

// Adds the entity at a uid, if there is one, as a child of its parents.
fn with_at<S: BuildHasher + Clone>(
    alloc: Global,
    children: Children<S>,
    entities: &HashMap<SharedUid, SharedEntity, S>,
    uid: &SharedUid,
) -> Result<Children<S>, AllocError>
    ensures { IfOk result (λ c. (p q : EntityUID) → is_child c p q
        ≡ (is_child children p q || (same_uid uid.now q && is_parent_at (entity_at entities.now q) p))) }
{
    match entities.get(uid) {
        Some(node) => children.with(alloc, uid, &node.0),
        None => Ok(children),
    }
}

// Adds the entities at the uids as children of their parents.
fn with_all<S: BuildHasher + Clone>(
    alloc: Global,
    children: Children<S>,
    entities: &HashMap<SharedUid, SharedEntity, S>,
    uids: &[SharedUid],
) -> Result<Children<S>, AllocError>
    ensures { IfOk result (λ c. (p q : EntityUID) → is_child c p q
        ≡ (is_child children p q || (is_member same_uid uids.now q && is_parent_at (entity_at entities.now q) p))) }
{
    let mut all = children;
    for uid in uids {
        all = with_at(alloc, all, entities, uid)?;
    }
    Ok(all)
}

// Lists the children of each uid. Entities are added in ascending order of uid, so each is appended after its siblings.
fn children_of<S: BuildHasher + Clone>(
    alloc: Global,
    entities: &HashMap<SharedUid, SharedEntity, S>,
) -> Result<Children<S>, AllocError>
    ensures { IfOk result (HasChildren (parentage (entity_at entities.now))) }
{
    let keys = keys_in_order(alloc, entities)?;
    let none = Children::with_hasher(alloc, entities.hasher().clone()?);
    with_all(alloc, none, entities, &keys)
}

/// Counts a scan of the store for `count` uids. Builds an index of children before the scan if the scans, with this one,
/// cost about as much. Does nothing if the store is small or not known to be plain. If an allocation fails, there is
/// still no index.
pub fn list_if_it_pays<S: BuildHasher + Clone>(
    alloc: Global,
    entities: &HashMap<SharedUid, SharedEntity, S>,
    index: &mut Index<S>,
    count: usize,
)
    requires { IsIndexOf index.old (held_map entities.now) }
    ensures index { IsIndexOf index.new (held_map entities.now) }
    ensures plain { index.new.plain ≡ index.old.plain }
{
    if !index.plain || index.children.is_some() || entities.len() < SMALL {
        return;
    }
    let cost = entities.len().saturating_mul(1 + count / UIDS);
    let walked = index.walked.saturating_add(cost);
    if walked / WALKS <= entities.len() {
        index.walked = walked;
        return;
    }
    index.walked = 0;
    index.children = children_of(alloc, entities).ok();
}

// Returns the uids and their descendants, if the children are listed. In a plain store these are exactly the entities
// that an edit of the uids affects.
fn walk_down<S: BuildHasher + Clone>(
    alloc: Global,
    index: &Index<S>,
    uids: &HashSet<SharedUid, S>,
) -> Result<Option<HashSet<SharedUid, S>>, AllocError>
    ensures { (D : EntityMap) → IsIndexOf index.now D → IfOk result (λ o. IfSome o (λ s.
        (q : EntityUID) → contains same_uid s q ≡ is_affected D uids.now.keys q)) }
{
    if !index.plain {
        return Ok(None);
    }
    match &index.children {
        Some(children) => Ok(Some(children.below(alloc, uids)?)),
        None => Ok(None),
    }
}

// Returns the uids, and the uids of all entities that have one of them as an ancestor, by scanning all entities.
fn walk_all<S: BuildHasher + Clone>(
    alloc: Global,
    entities: &HashMap<SharedUid, SharedEntity, S>,
    uids: &HashSet<SharedUid, S>,
) -> Result<HashSet<SharedUid, S>, EntitiesError>
    ensures ok { IfOk result (λ s. (q : EntityUID) → contains same_uid s q
        ≡ is_affected (held_map entities.now) uids.now.keys q) }
    ensures err { IfErr result (λ e. e ≡ Memory) }
{
    let by = affected_by_any(alloc, entities, uids)?;
    let mut affected = HashSet::with_hasher(alloc, entities.hasher().clone()?);
    insert_uids(&mut affected, listed(alloc, uids)?)?;
    insert_uids(&mut affected, by)?;
    Ok(affected)
}

/// Returns the uids of all entities that an edit of `uids` affects. The index may belong to another map if the edit
/// affects the same entities in both.
///
/// Searches down from the uids if the children are listed, and scans all entities otherwise.
///
/// # Errors
///
/// Returns `Memory` if an allocation fails.
pub fn affected_by<S: BuildHasher + Clone>(
    alloc: Global,
    entities: &HashMap<SharedUid, SharedEntity, S>,
    index: &Index<S>,
    uids: &HashSet<SharedUid, S>,
) -> Result<HashSet<SharedUid, S>, EntitiesError>
    ensures ok { (D : EntityMap) → IsIndexOf index.now D
        → ((q : EntityUID) → is_affected (held_map entities.now) uids.now.keys q ≡ is_affected D uids.now.keys q)
        → IfOk result (λ s. (q : EntityUID) → contains same_uid s q ≡ is_affected D uids.now.keys q) }
    ensures err { IfErr result (λ e. e ≡ Memory) }
{
    if let Some(below) = walk_down(alloc, index, uids)? {
        return Ok(below);
    }
    walk_all(alloc, entities, uids)
}

// Removes the entity at a uid from the children of its parents.
fn leave_at<S: BuildHasher + Clone>(
    children: &mut Children<S>,
    entities: &HashMap<SharedUid, SharedEntity, S>,
    uid: &SharedUid,
)
    ensures { (p q : EntityUID) → is_child children.new p q
        ≡ (is_child children.old p q && not (same_uid uid.now q && is_parent_at (entity_at entities.now q) p)) }
{
    if let Some(node) = entities.get(uid) {
        children.remove(uid, &node.0);
    }
}

// Removes the entities at the uids from the children of their parents.
fn leave_all<S: BuildHasher + Clone>(
    children: &mut Children<S>,
    entities: &HashMap<SharedUid, SharedEntity, S>,
    uids: &[SharedUid],
)
    ensures { (p q : EntityUID) → is_child children.new p q
        ≡ (is_child children.old p q && not (is_member same_uid uids.now q && is_parent_at (entity_at entities.now q) p)) }
{
    for uid in uids {
        leave_at(children, entities, uid);
    }
}

// Removes the uids as parents.
fn forget_all<S: BuildHasher + Clone>(children: &mut Children<S>, uids: &[SharedUid])
    ensures { (p q : EntityUID) → is_child children.new p q
        ≡ (not (is_member same_uid uids.now p) && is_child children.old p q) }
{
    for uid in uids {
        children.remove_parent(uid);
    }
}

/// Removes the entities at `uids` from the listed children, and removes the uids in `removed` as parents. Call it before
/// the entities are changed. Does not allocate.
pub fn part<S: BuildHasher + Clone>(
    index: &mut Index<S>,
    entities: &HashMap<SharedUid, SharedEntity, S>,
    uids: &[SharedUid],
    removed: &[SharedUid],
)
    ensures plain { index.new.plain ≡ index.old.plain }
    ensures children { IfSome index.old.children (HasChildren (parentage (entity_at entities.now)))
        → IfSome index.new.children (HasChildren (λ p q. not (is_member same_uid removed.now p)
        && (not (is_member same_uid uids.now q) && is_parent_at (entity_at entities.now q) p))) }
{
    if let Some(children) = &mut index.children {
        leave_all(children, entities, uids);
        forget_all(children, removed);
    }
}

/// Adds the entities at `uids` to the listed children. If an allocation fails, the children are dropped and stay
/// unlisted.
pub fn join<S: BuildHasher + Clone>(
    alloc: Global,
    index: &mut Index<S>,
    entities: &HashMap<SharedUid, SharedEntity, S>,
    uids: &[SharedUid],
)
    ensures plain { index.new.plain ≡ index.old.plain }
    ensures children { (f : EntityUID → EntityUID → Bool) → IfSome index.old.children (HasChildren f)
        → IfSome index.new.children (HasChildren (λ p q. f p q
        || (is_member same_uid uids.now q && is_parent_at (entity_at entities.now q) p))) }
{
    if let Some(children) = index.children.take() {
        index.children = with_all(alloc, children, entities, uids).ok();
    }
}
