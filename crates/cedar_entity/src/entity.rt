//! An entity: creation, access, changes, comparison and validation.
ghost use Rattle.std.specs.Prelude.{◌≡◌, IfOk, OnOk, IfErr, OnErr, MatchOption, None, IsTrue, ◌↔◌, [], false, length};
ghost use Rattle.std.specs.Option.{option_map, option_copied};
ghost use Rattle.std.specs.FinSet as set;
ghost use Rattle.std.specs.Set.{is_member};
ghost use Rattle.std.specs.Cmp.Lexicographic.{pointwise};
ghost use Rattle.cedar_ids.specs.UidOf.{same_uid, uid_order};
ghost use Rattle.cedar_ids.specs.declared.entity.EntityUID.{EntityUID};
ghost use Rattle.cedar_uid_sets.specs.UidSets.{Ascend};
ghost use Rattle.cedar_entity.specs.Fields.{Fields, AreFieldsOf, KeysAscend, fields_of, field_at, field_keys};
ghost use Rattle.cedar_entity.specs.laws.Least.{LeastOf};
ghost use Rattle.cedar_entity.specs.Listing.{Lists, ListsAncestors};
ghost use Rattle.cedar_entity.specs.Validity.{HasOnlyActionAncestors, IsLeastNonAction, IsValid, IsFault, is_in_both};
ghost use Rattle.cedar_entity.specs.Validity.{is_action, reserved_key};
ghost use Rattle.cedar_entity.specs.laws.Faults.{IsFound};
ghost use Rattle.cedar_entity.specs.laws.Views.{AreNewTo};
ghost use Rattle.cedar_entity.specs.View.{EntityView, has_ancestor, with_indirect_ancestor, IsDeepEqual};
ghost use Rattle.cedar_entity.specs.View.{IsEquivalenceRelation};

use crate::err::EntitiesError;
use crate::fault::Fault;
use crate::iters::{Ancestors, Keys, Pairs, SharedUids};
use crate::least::{least_common, least_non_action};
use crate::reserved::in_fields;
use cedar_ids::entity::EntityUID;
use cedar_terms::{PartialValue, StaticType, StaticallyTyped};
use cedar_uid_sets::{SharedUid, UidSet, Uids, Union, are_equal};
use std::alloc::{AllocError, Global};
use std::collections::{BTreeMap, HashSet};
use std::hash::{BuildHasher, Hash, Hasher};
use std::marker::Model;

/// An entity: its uid, its attributes and tags, its parents and its indirect ancestors.
///
/// `==` and the hash use only the uid. [`Entity::deep_eq`] compares the rest too.
///
/// A lookup of a key takes O(log n), where n is the number of keys. A lookup of a uid in a set compares with each uid
/// if there are at most sixteen, and takes O(log n) otherwise. The iterators return references and copy nothing.
#[derive(Debug, Drop)]
pub struct Entity {
    uid: EntityUID,
    attrs: BTreeMap<String, PartialValue>,
    pub(crate) indirect_ancestors: UidSet,
    pub(crate) parents: UidSet,
    tags: BTreeMap<String, PartialValue>,
}

impl Model for Entity {
    ghost use Rattle.cedar_entity.specs.Fields.{fields_of};
    ghost use Rattle.cedar_entity.specs.View.{EntityView};
    ghost use Rattle.cedar_entity.specs.Codes.{view_code};

    ghost Value = { EntityView };

    ghost coded = { view_code };

    ghost view = { λ e. record {
      uid = e.uid;
      attrs = fields_of e.attrs.entries;
      tags = fields_of e.tags.entries;
      parents = e.parents;
      indirect = e.indirect_ancestors;
    } };
}

impl Clone for Entity {
    ghost is_clone = { λ x y. y ≡ x };

    /// Returns a copy.
    ///
    /// # Errors
    ///
    /// Returns `AllocError` if an allocation fails.
    fn clone(&self) -> Result<Entity, AllocError> {
        Ok(Entity {
            uid: self.uid.clone()?,
            attrs: copy_of_fields(&self.attrs)?,
            indirect_ancestors: self.indirect_ancestors.clone()?,
            parents: self.parents.clone()?,
            tags: copy_of_fields(&self.tags)?,
        })
    }
}

impl PartialEq for Entity {
    ghost use Rattle.std.specs.Cmp.{on_per, partial_equiv_from_equiv};
    ghost use Rattle.cedar_ids.specs.UidOf.{same_uid};
    ghost use Rattle.cedar_ids.specs.laws.UidOfLaws.{same_uid_equiv};

    ghost eq = { λ x y. same_uid x.uid y.uid };

    ghost laws = { on_per (λ (e : EntityView). e.uid) (partial_equiv_from_equiv same_uid_equiv) };

    /// Returns whether both have the same uid. Compares nothing else.
    fn eq(&self, other: &Entity) -> bool {
        self.uid == other.uid
    }
}

impl Eq for Entity {
    ghost use Rattle.std.specs.Cmp.{on_equiv};
    ghost use Rattle.cedar_ids.specs.laws.UidOfLaws.{same_uid_equiv};

    ghost laws = { on_equiv (λ (e : EntityView). e.uid) same_uid_equiv };
}

impl Hash for Entity {
    ghost use Rattle.cedar_ids.specs.UidOf.{uid_hash};
    ghost use Rattle.cedar_ids.specs.laws.UidOfLaws.{uid_hash_respects};

    ghost hash_input = { λ e. uid_hash e.uid };

    ghost respects_eq = { λ x y. uid_hash_respects x.uid y.uid };

    fn hash<H: Hasher>(&self, state: &mut H) {
        self.uid.hash(state);
    }
}

impl StaticallyTyped for Entity {
    ghost use Rattle.cedar_ids.specs.UidOf.{uid_parts};

    ghost static_name = { λ e. (uid_parts e.uid).name };

    /// Returns the type of the uid.
    ///
    /// # Errors
    ///
    /// Returns `AllocError` if an allocation fails.
    fn type_of(&self, alloc: Global) -> Result<StaticType, AllocError> {
        self.uid.type_of(alloc)
    }
}

// Copies attributes or tags.
fn copy_of_fields(
    fields: &BTreeMap<String, PartialValue>,
) -> Result<BTreeMap<String, PartialValue>, AllocError>
    ensures { IfOk result (λ copy. fields_of copy.entries ≡ fields_of fields.now.entries) }
{
    fields.clone()
}

// Checks whether two maps of attributes or tags have the same keys and the same values.
fn same_fields(one: &BTreeMap<String, PartialValue>, other: &BTreeMap<String, PartialValue>) -> bool
    ensures { IsTrue result ↔ (fields_of one.now.entries ≡ fields_of other.now.entries) }
{
    one == other
}

// Checks whether two iterators return equal uids in the same order.
fn give_same(one: Union<'_>, mut other: Union<'_>) -> bool
    ensures { result ≡ pointwise same_uid one.entry other.entry }
{
    for uid in one {
        match other.next() {
            None => return false,
            Some(next) => {
                if !are_equal(uid, next) {
                    return false;
                }
            }
        }
    }
    other.next().is_none()
}

// Collects pairs into a map. For a repeated key the last pair is used.
fn fields(
    alloc: Global,
    pairs: Vec<(String, PartialValue)>,
) -> Result<BTreeMap<String, PartialValue>, AllocError>
    ensures { IfOk result (λ m. AreFieldsOf (fields_of pairs.items) (fields_of m.entries)) }
{
    let mut fields = BTreeMap::new(alloc);
    for (key, value) in pairs {
        drop(fields.insert(key, value)?);
    }
    Ok(fields)
}

impl Entity {
    /// Creates an entity from attributes, tags, indirect ancestors and parents. If several pairs have the same key, the
    /// last one is used. It is not checked whether a uid is both a parent and an indirect ancestor; see
    /// [`Entity::validate`].
    ///
    /// # Errors
    ///
    /// Returns `AllocError` if an allocation fails.
    ///
    /// # Complexity
    ///
    /// Makes one lookup for each pair, and sorts the uids of both sets.
    pub fn new_with_attr_partial_value<S: BuildHasher + Drop>(
        alloc: Global,
        uid: EntityUID,
        attrs: Vec<(String, PartialValue)>,
        indirect_ancestors: HashSet<EntityUID, S>,
        parents: HashSet<EntityUID, S>,
        tags: Vec<(String, PartialValue)>,
    ) -> Result<Entity, AllocError>
        ensures uid { IfOk result (λ e. e.uid ≡ uid) }
        ensures attrs { IfOk result (λ e. AreFieldsOf (fields_of attrs.items) e.attrs) }
        ensures tags { IfOk result (λ e. AreFieldsOf (fields_of tags.items) e.tags) }
        ensures parents { IfOk result (λ e. e.parents ≡ set.from_list parents.keys) }
        ensures indirect { IfOk result (λ e. e.indirect ≡ set.from_list indirect_ancestors.keys) }
    {
        let attrs = fields(alloc, attrs)?;
        let tags = fields(alloc, tags)?;
        Ok(Entity {
            uid,
            attrs,
            indirect_ancestors: UidSet::from_set(alloc, indirect_ancestors)?,
            parents: UidSet::from_set(alloc, parents)?,
            tags,
        })
    }

    /// Creates an entity with a uid and nothing else. Does not allocate.
    pub fn with_uid(alloc: Global, uid: EntityUID) -> Entity
        ensures { result ≡ record {
          uid = uid;
          attrs = [];
          tags = [];
          parents = set.empty;
          indirect = set.empty;
        } }
    {
        let parents = UidSet::new(alloc);
        Entity {
            uid,
            attrs: BTreeMap::new(alloc),
            indirect_ancestors: UidSet::new(alloc),
            parents,
            tags: BTreeMap::new(alloc),
        }
    }

    /// Creates an entity with a uid and parents, in any order and with or without duplicates, and nothing else.
    ///
    /// # Errors
    ///
    /// Returns `AllocError` if an allocation fails.
    ///
    /// # Complexity
    ///
    /// O(n) comparisons for n parents in ascending order without duplicates. The vector is then taken over, and nothing
    /// is allocated. Otherwise the parents are sorted. Duplicates require an allocation.
    ///
    /// # Differences from cedar-policy-core
    ///
    /// The original creates an entity from a hash set of parents.
    pub fn with_shared_parents(
        alloc: Global,
        uid: EntityUID,
        parents: Vec<SharedUid>,
    ) -> Result<Entity, AllocError>
        ensures { IfOk result (λ e. e ≡ record {
          uid = uid;
          attrs = [];
          tags = [];
          parents = set.from_list parents.items;
          indirect = set.empty;
        }) }
    {
        let parents = UidSet::from_pointers(parents)?;
        Ok(Entity::with_parent_set(alloc, uid, parents))
    }

    /// Creates an entity with a uid and parents, and nothing else. Takes constant time. Does not allocate.
    /// Differs from cedar-policy-core: the original has no such function.
    pub fn with_parent_set(alloc: Global, uid: EntityUID, parents: UidSet) -> Entity
        ensures { result ≡ record {
          uid = uid;
          attrs = [];
          tags = [];
          parents = parents;
          indirect = set.empty;
        } }
    {
        Entity {
            uid,
            attrs: BTreeMap::new(alloc),
            indirect_ancestors: UidSet::new(alloc),
            parents,
            tags: BTreeMap::new(alloc),
        }
    }

    /// Returns the uid. Does not allocate.
    pub fn uid(&self) -> &EntityUID
        ensures { result.now ≡ self.now.uid }
    {
        let Entity { uid, .. } = self;
        uid
    }

    /// Returns the attribute with a key. Does not allocate.
    pub fn get(&self, key: &str) -> Option<&PartialValue>
        ensures { option_map (λ v. v.now) result ≡ field_at key.now self.now.attrs }
    {
        self.attrs.get(key)
    }

    /// Returns the tag with a key. Does not allocate.
    pub fn get_tag(&self, key: &str) -> Option<&PartialValue>
        ensures { option_map (λ v. v.now) result ≡ field_at key.now self.now.tags }
    {
        self.tags.get(key)
    }

    /// Returns the number of attributes. Does not allocate.
    pub fn attrs_len(&self) -> usize
        ensures { result ≡ length self.now.attrs }
    {
        self.attrs.len()
    }

    /// Returns the number of tags. Does not allocate.
    pub fn tags_len(&self) -> usize
        ensures { result ≡ length self.now.tags }
    {
        self.tags.len()
    }

    /// Returns whether a uid is a parent. Makes one lookup. Does not allocate.
    pub fn is_child_of(&self, other: &EntityUID) -> bool
        ensures { result ≡ set.contains self.now.parents other.now }
    {
        self.parents.contains(other)
    }

    /// Returns whether a uid is an indirect ancestor. Makes one lookup. Does not allocate.
    pub fn is_indirect_descendant_of(&self, other: &EntityUID) -> bool
        ensures { result ≡ set.contains self.now.indirect other.now }
    {
        self.indirect_ancestors.contains(other)
    }

    /// Returns whether a uid is a parent or an indirect ancestor. Makes at most two lookups. Does not allocate.
    pub fn is_descendant_of(&self, other: &EntityUID) -> bool
        ensures { result ≡ has_ancestor self.now other.now }
    {
        self.is_child_of(other) || self.is_indirect_descendant_of(other)
    }

    /// Returns what [`Entity::is_descendant_of`] does, for a shared uid and by cheaper lookups. Does not allocate.
    #[inline(always)]
    pub fn is_descendant_of_shared(&self, other: &SharedUid) -> bool
        ensures { result ≡ has_ancestor self.now other.now }
    {
        UidSet::either_contains(&self.parents, &self.indirect_ancestors, other)
    }

    // Returns `false` only if the entity has no ancestor. Does not allocate.
    pub(crate) fn has_ancestors(&self) -> bool
        ensures { result ≡ false → (q : EntityUID) → has_ancestor self.now q ≡ false }
    {
        if !self.parents.is_empty() {
            return true;
        }
        !self.indirect_ancestors.is_empty()
    }

    /// Iterates over the keys of the attributes, in byte order. Does not allocate.
    pub fn keys(&self) -> Keys<'_>
        ensures keys { result ≡ field_keys self.now.attrs }
        ensures ascending { KeysAscend self.now.attrs }
    {
        Keys::of(&self.attrs)
    }

    /// Iterates over the keys of the tags, in byte order. Does not allocate.
    pub fn tag_keys(&self) -> Keys<'_>
        ensures keys { result ≡ field_keys self.now.tags }
        ensures ascending { KeysAscend self.now.tags }
    {
        Keys::of(&self.tags)
    }

    /// Iterates over the attributes with their keys, in byte order of the keys. Does not allocate.
    pub fn attrs(&self) -> Pairs<'_>
        ensures pairs { result ≡ self.now.attrs }
        ensures ascending { KeysAscend self.now.attrs }
    {
        Pairs::of(&self.attrs)
    }

    /// Iterates over the tags with their keys, in byte order of the keys. Does not allocate.
    pub fn tags(&self) -> Pairs<'_>
        ensures pairs { result ≡ self.now.tags }
        ensures ascending { KeysAscend self.now.tags }
    {
        Pairs::of(&self.tags)
    }

    /// Iterates over the parents: each once, in ascending order of uid. Does not allocate.
    pub fn parents(&self) -> Uids<'_>
        ensures lists { Lists self.now.parents result }
        ensures ascending { Ascend result }
    {
        self.parents.iter()
    }

    /// Iterates over the indirect ancestors: each once, in ascending order of uid. Does not allocate.
    pub fn indirect_ancestors(&self) -> Uids<'_>
        ensures lists { Lists self.now.indirect result }
        ensures ascending { Ascend result }
    {
        self.indirect_ancestors.iter()
    }

    /// Iterates over the parents and then over the indirect ancestors. Each of the two groups is in ascending order of
    /// uid. A uid that is in both groups is returned twice. Does not allocate.
    pub fn ancestors(&self) -> Ancestors<'_>
        ensures { ListsAncestors self.now result }
    {
        Ancestors::of(&self.parents, &self.indirect_ancestors)
    }

    /// Iterates over the parents as shared uids: each once, in ascending order of uid. Does not allocate.
    /// Differs from cedar-policy-core: the original has no such function.
    pub fn shared_parents(&self) -> SharedUids<'_>
        ensures lists { Lists self.now.parents result }
        ensures ascending { Ascend result }
    {
        SharedUids::of(self.parents.pointers(), &[])
    }

    /// Iterates over the parents and then over the indirect ancestors, as shared uids. Each of the two groups is in
    /// ascending order of uid. A uid that is in both groups is returned twice. Does not allocate.
    /// Differs from cedar-policy-core: the original has no such function.
    pub fn shared_ancestors(&self) -> SharedUids<'_>
        ensures { ListsAncestors self.now result }
    {
        SharedUids::of(self.parents.pointers(), self.indirect_ancestors.pointers())
    }

    // Iterates over the indirect ancestors and then over the parents, as shared uids. A closure processes the last
    // edges first. The parents reach most of the other ancestors, so these are then known already.
    pub(crate) fn ancestors_parents_last(&self) -> SharedUids<'_>
        ensures { (q : EntityUID) → is_member same_uid result q ≡ has_ancestor self.now q }
    {
        SharedUids::of(self.indirect_ancestors.pointers(), self.parents.pointers())
    }

    /// Iterates over the parents and the indirect ancestors together: each once, in ascending order of uid. Makes one
    /// or two comparisons per uid. Does not allocate.
    /// Differs from cedar-policy-core: the original has no such function.
    pub fn ancestors_in_order(&self) -> Union<'_>
        ensures members { (q : EntityUID) → is_member same_uid result q ≡ has_ancestor self.now q }
        ensures ascending { Ascend result }
    {
        self.parents.union(&self.indirect_ancestors)
    }

    // Checks whether both have the same ancestors.
    fn has_same_ancestors(&self, other: &Entity) -> bool
        ensures { IsTrue result ↔
            ((q : EntityUID) → has_ancestor self.now q ≡ has_ancestor other.now q) }
    {
        give_same(self.ancestors_in_order(), other.ancestors_in_order())
    }

    /// Returns whether both have the same uid, attributes, tags and ancestors. It does not matter which ancestors are
    /// parents. Iterates over the ancestors of both once, in order. Does not allocate.
    pub fn deep_eq(&self, other: &Entity) -> bool
        ensures equal { IsTrue result ↔ IsDeepEqual self.now other.now }
        ensures equivalence { IsEquivalenceRelation IsDeepEqual }
    {
        let same = self.uid == other.uid;
        if !same {
            return false;
        }
        if !same_fields(&self.attrs, &other.attrs) {
            return false;
        }
        if !same_fields(&self.tags, &other.tags) {
            return false;
        }
        self.has_same_ancestors(other)
    }

    /// Returns the uid, the attributes, the indirect ancestors, the parents and the tags. Does not allocate.
    ///
    /// # Differences from cedar-policy-core
    ///
    /// The original returns hash sets.
    pub fn into_inner(
        self,
    ) -> (
        EntityUID,
        BTreeMap<String, PartialValue>,
        UidSet,
        UidSet,
        BTreeMap<String, PartialValue>,
    )
        ensures uid { result.0 ≡ self.uid }
        ensures attrs { fields_of result.1.entries ≡ self.attrs }
        ensures indirect { result.2 ≡ self.indirect }
        ensures parents { result.3 ≡ self.parents }
        ensures tags { fields_of result.4.entries ≡ self.tags }
    {
        let Entity {
            uid,
            attrs,
            indirect_ancestors,
            parents,
            tags,
        } = self;
        (uid, attrs, indirect_ancestors, parents, tags)
    }

    // Returns the least uid that is both a parent and an indirect ancestor.
    fn least_duplicate(&self) -> Option<&EntityUID>
        ensures { LeastOf (is_in_both self.now) (option_copied result) }
    {
        least_common(&self.parents, &self.indirect_ancestors)
    }

    // Returns the least parent that is not an action, or else the least indirect ancestor that is not an action.
    fn least_non_action_ancestor(&self) -> Option<&EntityUID>
        ensures { MatchOption (option_copied result) (HasOnlyActionAncestors self.now) (IsLeastNonAction self.now) }
    {
        match least_non_action(&self.parents) {
            Some(parent) => Some(parent),
            None => least_non_action(&self.indirect_ancestors),
        }
    }

    // Returns the ancestor that an error for an action names: one that is not an action. `None` for other entities.
    fn invalid_action_ancestor(&self) -> Option<&EntityUID>
        ensures { MatchOption (option_copied result)
            (IsTrue (is_action self.now.uid) → HasOnlyActionAncestors self.now)
            (λ p. IsTrue (is_action self.now.uid) × IsLeastNonAction self.now p) }
    {
        if !self.uid.is_action() {
            return None;
        }
        self.least_non_action_ancestor()
    }

    // Returns the first reserved key in the attributes. If there is none, returns the first reserved key in the tags.
    fn reserved_key(&self) -> Option<&str>
        ensures { option_copied result ≡ reserved_key self.now }
    {
        if let Some(key) = in_fields(&self.attrs) {
            return Some(key);
        }
        in_fields(&self.tags)
    }

    // Returns the first fault of the entity, in the order of `validate`.
    fn fault(&self) -> Option<Fault<'_>>
        ensures { MatchOption result (IsValid self.now) (IsFound self.now) }
    {
        if self.is_descendant_of(&self.uid) {
            return Some(Fault::SelfAncestor);
        }
        if let Some(ancestor) = self.least_duplicate() {
            return Some(Fault::DuplicateAncestor(ancestor));
        }
        if let Some(parent) = self.invalid_action_ancestor() {
            return Some(Fault::ActionParentIsNotAction(parent));
        }
        match self.reserved_key() {
            Some(key) => Some(Fault::ReservedKey(key)),
            None => None,
        }
    }

    // Creates the error for a fault.
    fn refuse(&self, alloc: Global, fault: Fault<'_>) -> Result<(), EntitiesError>
        ensures ok { OnOk result ⊥ }
        ensures err { IfErr result (λ e. IsFound self.now fault.entry → IsFault self.now e) }
    {
        match fault {
            Fault::SelfAncestor => {
                let uid = self.uid.clone()?;
                Err(EntitiesError::SelfAncestor { uid })
            }
            Fault::DuplicateAncestor(ancestor) => {
                let ancestor = ancestor.clone()?;
                let uid = self.uid.clone()?;
                Err(EntitiesError::DuplicateAncestor { uid, ancestor })
            }
            Fault::ActionParentIsNotAction(parent) => {
                let parent = parent.clone()?;
                let uid = self.uid.clone()?;
                Err(EntitiesError::ActionParentIsNotAction { uid, parent })
            }
            Fault::ReservedKey(key) => {
                let key = String::from_str(alloc, key)?;
                Err(EntitiesError::ReservedKey(key))
            }
        }
    }

    /// Checks whether an entity is valid. Reports the first fault.
    ///
    /// # Errors
    ///
    /// The checks are made in this order, and the first that fails determines the error:
    ///
    /// - `SelfAncestor`: the entity is one of its own ancestors.
    /// - `DuplicateAncestor`: a uid is both a parent and an indirect ancestor. The error names the least such uid.
    /// - `ActionParentIsNotAction`: the entity is an action and has an ancestor that is not. The error names the least
    ///   such parent. If there is none, it names the least such indirect ancestor.
    /// - `ReservedKey`: a record in a value has a reserved key. Attributes are searched before tags, each in byte order
    ///   of keys. In a record, each key is checked before its value; in a set, the elements are searched in order. The
    ///   keys of attributes and tags themselves are not checked. Residuals are skipped.
    /// - `Memory`: an allocation for the copy of a uid or a key failed.
    ///
    /// # Complexity
    ///
    /// Recurses into values with a small stack frame per level. 10,000 levels are supported. Allocates only for an
    /// error.
    ///
    /// # Differences from cedar-policy-core
    ///
    /// If several uids violate a rule, the original names any of them.
    pub fn validate(&self, alloc: Global) -> Result<(), EntitiesError>
        ensures ok { OnOk result (IsValid self.now) }
        ensures err { IfErr result (IsFault self.now) }
        ensures refused { OnErr result (IsValid self.now → ⊥) }
    {
        match self.fault() {
            None => Ok(()),
            Some(fault) => self.refuse(alloc, fault),
        }
    }

    /// Returns whether [`Entity::validate`] finds no fault. Recurses into values as that does. Does not allocate.
    /// Differs from cedar-policy-core: the original has no such function.
    pub fn is_valid(&self) -> bool
        ensures { IsTrue result ↔ IsValid self.now }
    {
        self.fault().is_none()
    }

    /// Returns the entity itself if [`Entity::validate`] finds no fault.
    ///
    /// # Errors
    ///
    /// Returns the error of [`Entity::validate`]. The entity is then dropped.
    pub fn try_validate(self, alloc: Global) -> Result<Entity, EntitiesError>
        ensures ok { IfOk result (λ e. (e ≡ self) × IsValid self) }
        ensures err { IfErr result (IsFault self) }
        ensures refused { OnErr result (IsValid self → ⊥) }
    {
        self.validate(alloc)?;
        Ok(self)
    }

    // Inserts a shared uid as an indirect ancestor, unless it is a parent.
    pub(crate) fn add_shared_ancestor(&mut self, shared: SharedUid) -> Result<(), AllocError>
        ensures ok { OnOk result (self.new ≡ with_indirect_ancestor self.old shared) }
        ensures err { OnErr result (self.new ≡ self.old) }
    {
        if self.parents.contains_shared(&shared) {
            return Ok(());
        }
        self.indirect_ancestors.insert(shared)
    }

    /// Inserts shared uids as indirect ancestors, except uids that are parents. The parents do not change.
    ///
    /// # Errors
    ///
    /// Returns `AllocError` if an allocation fails, and then leaves the entity unchanged.
    pub fn add_shared_ancestors(&mut self, shared: Vec<SharedUid>) -> Result<(), AllocError>
        ensures ok { OnOk result (self.new ≡ record self.old {
          indirect = set.union self.old.indirect
              (set.difference (set.from_list shared.items) self.old.parents);
        }) }
        ensures err { OnErr result (self.new ≡ self.old) }
    {
        let mut added = UidSet::from_pointers(shared)?;
        added.difference(&self.parents);
        self.indirect_ancestors
            .extend_ascending(added.into_pointers())
    }

    // Inserts shared uids as indirect ancestors. None may be an ancestor, so they are not compared with the parents.
    pub(crate) fn add_new_ancestors(&mut self, shared: Vec<SharedUid>) -> Result<(), AllocError>
        requires { AreNewTo self.old shared.items }
        ensures ok { OnOk result (self.new ≡ record self.old {
          indirect = set.union self.old.indirect
              (set.difference (set.from_list shared.items) self.old.parents);
        }) }
        ensures err { OnErr result (self.new ≡ self.old) }
    {
        let added = UidSet::from_pointers(shared)?.into_pointers();
        self.indirect_ancestors.extend_ascending(added)
    }

    // Inserts shared uids as indirect ancestors. They must ascend, and none of them may be an ancestor already.
    pub(crate) fn add_ascending_ancestors(
        &mut self,
        shared: Vec<SharedUid>,
    ) -> Result<(), AllocError>
        requires new { AreNewTo self.old shared.items }
        requires ascending { Ascend shared.items }
        ensures ok { OnOk result (self.new ≡ record self.old {
          indirect = set.union self.old.indirect
              (set.difference (set.from_list shared.items) self.old.parents);
        }) }
        ensures err { OnErr result (self.new ≡ self.old) }
    {
        self.indirect_ancestors.extend_ascending(shared)
    }

    /// Inserts an indirect ancestor. A uid that is a parent or an indirect ancestor already has no effect.
    ///
    /// # Errors
    ///
    /// Returns `AllocError` if an allocation fails, and then leaves the entity unchanged.
    pub fn add_indirect_ancestor(&mut self, uid: EntityUID) -> Result<(), AllocError>
        ensures ok { OnOk result (self.new ≡ with_indirect_ancestor self.old uid) }
        ensures err { OnErr result (self.new ≡ self.old) }
    {
        let shared = SharedUid::new(self.indirect_ancestors.allocator(), uid)?;
        self.add_shared_ancestor(shared)
    }

    /// Inserts a parent. Removes it from the indirect ancestors.
    ///
    /// # Errors
    ///
    /// Returns `AllocError` if an allocation fails, and then leaves the entity unchanged.
    pub fn add_parent(&mut self, uid: EntityUID) -> Result<(), AllocError>
        ensures ok { OnOk result (self.new ≡ record self.old {
          parents = set.insert self.old.parents uid;
          indirect = set.remove self.old.indirect uid;
        }) }
        ensures err { OnErr result (self.new ≡ self.old) }
    {
        let shared = SharedUid::new(self.parents.allocator(), uid)?;
        self.add_shared_parent(shared)
    }

    /// Inserts a shared uid as a parent, without copying the uid. Removes it from the indirect ancestors.
    ///
    /// # Errors
    ///
    /// Returns `AllocError` if an allocation fails, and then leaves the entity unchanged.
    pub fn add_shared_parent(&mut self, shared: SharedUid) -> Result<(), AllocError>
        ensures ok { OnOk result (self.new ≡ record self.old {
          parents = set.insert self.old.parents shared;
          indirect = set.remove self.old.indirect shared;
        }) }
        ensures err { OnErr result (self.new ≡ self.old) }
    {
        let copy = shared.clone()?;
        self.parents.insert(shared)?;
        self.indirect_ancestors.remove_shared(&copy);
        Ok(())
    }

    /// Removes a uid from the indirect ancestors. The parents do not change. Does not allocate.
    pub fn remove_indirect_ancestor(&mut self, uid: &EntityUID)
        ensures { self.new ≡ record self.old { indirect = set.remove self.old.indirect uid.now } }
    {
        self.indirect_ancestors.remove(uid);
    }

    /// Removes a uid from the parents. The indirect ancestors do not change. Does not allocate.
    pub fn remove_parent(&mut self, uid: &EntityUID)
        ensures { self.new ≡ record self.old { parents = set.remove self.old.parents uid.now } }
    {
        self.parents.remove(uid);
    }

    /// Removes the uids of a set from the indirect ancestors. The parents do not change. Does not allocate.
    /// Differs from cedar-policy-core: the original has no such function.
    pub fn remove_ancestors_of(&mut self, uids: &UidSet)
        ensures { self.new ≡ record self.old { indirect = set.difference self.old.indirect uids.now } }
    {
        self.indirect_ancestors.difference(uids);
    }

    /// Removes the uids of a set from the parents. The indirect ancestors do not change. Does not allocate.
    /// Differs from cedar-policy-core: the original has no such function.
    pub fn remove_parents_of(&mut self, uids: &UidSet)
        ensures { self.new ≡ record self.old { parents = set.difference self.old.parents uids.now } }
    {
        self.parents.difference(uids);
    }

    /// Removes all indirect ancestors. The parents do not change. Does not allocate.
    pub fn remove_all_indirect_ancestors(&mut self)
        ensures { self.new ≡ record self.old { indirect = set.empty } }
    {
        self.indirect_ancestors.clear();
    }
}
