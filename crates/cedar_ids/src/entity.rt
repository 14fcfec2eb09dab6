//! Entity types, eids and uids: construction, parsing, comparison and printing.
ghost use Rattle.std.specs.Prelude.{◌≡◌, ◌↔◌, Some, IsTrue, IfOk, codes};
ghost use Rattle.std.specs.Option.{option_copied};
ghost use Rattle.std.specs.Ordering.{as_partial_cmp};
ghost use Rattle.std.specs.String.{string_bytes};
ghost use Rattle.std.specs.Cmp.{partial_equiv_from_equiv};
ghost use Rattle.std.proofs.Common.{refl};
ghost use Rattle.cedar_ids.specs.Name.{is_action_name};
ghost use Rattle.cedar_ids.specs.Uid.{UidParts, is_action_uid, uid_eq, uid_cmp, uid_hash_input};
ghost use Rattle.cedar_ids.specs.Views.{type_name, eid_bytes};
ghost use Rattle.cedar_ids.specs.TextOf.{IsName};
ghost use Rattle.cedar_ids.specs.Escape.{escaped, is_ascii};
ghost use Rattle.cedar_ids.specs.Printed.{printed_name, uid_output};
ghost use Rattle.cedar_ids.specs.Qualified.{qualified};
ghost use Rattle.cedar_ids.specs.Reads.{Reads, IsTypeText, IsTypeTextAndEid};
ghost use Rattle.cedar_ids.specs.laws.UidLaws.{uid_eq_equiv, uid_cmp_total, uid_ties, uid_po, uid_hash_respects};
ghost use Rattle.cedar_ids.specs.UidOf.{uid_parts, same_uid, uid_order, uid_hash};
ghost use Rattle.cedar_ids.specs.laws.UidOfLaws.{same_uid_equiv, uid_order_total, uid_order_ties, uid_order_po};
ghost use Rattle.cedar_ids.specs.laws.UidOfLaws.{uid_hash_respects as uid_hashes};

use crate::err::ParseErrors;
use crate::escape::Escaped;
use crate::loc::Loc;
use crate::name::Name;
use std::alloc::{AllocError, Global};
use std::cmp::Ordering;
use std::fmt;
use std::hash::{Hash, Hasher};
use std::marker::Model;

/// The last component of every action type's name.
///
/// # Differences from cedar-policy-core
///
/// This is a constant; the original has a static.
pub const ACTION_ENTITY_TYPE: &str = "Action";

/// The type of an entity: a name.
///
/// Equality, order and hash use only the name, so they ignore locations. `clone` shares the text of the name and copies
/// no characters. `Display` writes the name.
#[derive(Clone, Debug, Drop, PartialEq, Eq, PartialOrd, Ord, Hash)]
pub enum EntityType {
    /// The type with this name.
    EntityType(Name),
}

impl EntityType {
    /// Returns whether the last component of the name is `Action`, in any namespace. Does not allocate.
    pub fn is_action(&self) -> bool
        ensures { result ≡ is_action_name (type_name self.now) }
    {
        self.name().basename().as_ref() == ACTION_ENTITY_TYPE
    }

    /// Returns the name. Does not allocate.
    pub fn name(&self) -> &Name
        ensures value { result.now ≡ type_name self.now }
        ensures valid { IsName result.now }
    {
        let EntityType::EntityType(name) = self;
        // No effect at run time: the contract of this call states that the components are ids.
        let _ = name.basename();
        name
    }

    /// Returns the name. Does not allocate.
    pub fn into_name(self) -> Name
        ensures { result ≡ type_name self }
    {
        let EntityType::EntityType(name) = self;
        name
    }

    /// Returns the location of the name, if it has one. Does not allocate.
    pub fn loc(&self) -> Option<&Loc> {
        let EntityType::EntityType(name) = self;
        name.loc()
    }

    /// Returns the type with a copy of the given location, or without a location for `None`. Copies no characters.
    ///
    /// # Errors
    ///
    /// Returns `AllocError` if a shared part cannot be shared once more.
    pub fn with_loc(&self, loc: Option<&Loc>) -> Result<EntityType, AllocError>
        ensures { IfOk result (λ t. type_name t ≡ type_name self.now) }
    {
        let loc = match loc {
            Some(loc) => Some(loc.clone()?),
            None => None,
        };
        let name = self.name().with_loc(loc)?;
        Ok(EntityType::EntityType(name))
    }

    /// Returns the type whose name is [`Name::qualify_with_name`] of this type's name.
    ///
    /// # Errors
    ///
    /// Returns `AllocError` if an allocation fails.
    ///
    /// # Complexity
    ///
    /// As [`Name::qualify_with_name`].
    pub fn qualify_with(
        &self,
        alloc: Global,
        namespace: Option<&Name>,
    ) -> Result<EntityType, AllocError>
        ensures { IfOk result
            (λ t. type_name t ≡ qualified (option_copied namespace.entry) (type_name self.now)) }
    {
        let name = self.name().qualify_with_name(alloc, namespace)?;
        Ok(EntityType::EntityType(name))
    }

    /// Reads a printed name as an entity type. The location of the type is the whole text.
    ///
    /// # Errors
    ///
    /// - `InvalidName`: the text is not a name.
    /// - `Memory`: an allocation failed.
    ///
    /// # Complexity
    ///
    /// O(n), where n is the length of the text. Allocates O(n) bytes.
    pub fn from_normalized_str(alloc: Global, text: &str) -> Result<EntityType, ParseErrors>
        ensures { Reads IsTypeText result text.now }
    {
        let name = Name::from_normalized_str(alloc, text)?;
        Ok(EntityType::EntityType(name))
    }
}

impl From<Name> for EntityType {
    ghost from_gives = { λ n t. type_name t ≡ n };

    fn from(name: Name) -> EntityType {
        EntityType::EntityType(name)
    }
}

impl From<EntityType> for Name {
    ghost from_gives = { λ t n. n ≡ type_name t };

    fn from(ty: EntityType) -> Name {
        ty.into_name()
    }
}

impl AsRef<Name> for EntityType {
    fn as_ref(&self) -> &Name
        ensures { result.now ≡ type_name self.now }
    {
        self.name()
    }
}

/// The id of an entity within its type: any text.
///
/// Equality, order and hash use the text. The order compares bytes. `clone` allocates a copy of the text.
#[derive(Clone, Debug, Drop, PartialEq, Eq, PartialOrd, Ord, Hash)]
pub enum Eid {
    /// The eid with this text.
    Eid(String),
}

impl Eid {
    /// Creates an eid with this text. Does not allocate.
    pub fn new(text: String) -> Eid
        ensures { result ≡ Eid.Eid text }
    {
        Eid::Eid(text)
    }

    /// Returns the escaped text, as it is printed between the quotes of a uid. An ASCII text is escaped by the table of
    /// escapes. Any other text is written as by `str::escape_debug`.
    ///
    /// # Errors
    ///
    /// Returns `AllocError` if an allocation fails.
    pub fn escaped(&self, alloc: Global) -> Result<String, AllocError>
        ensures { IsTrue (is_ascii (eid_bytes self.now)) →
            IfOk result (λ s. string_bytes s ≡ escaped (eid_bytes self.now)) }
    {
        Escaped(self.as_ref()).to_string(alloc)
    }

    /// Returns the text. Does not allocate.
    ///
    /// # Differences from cedar-policy-core
    ///
    /// The original returns a `SmolStr`.
    pub fn into_smolstr(self) -> String
        ensures { self ≡ Eid.Eid result }
    {
        let Eid::Eid(text) = self;
        text
    }

    /// Returns the text. Does not allocate.
    pub fn as_ref(&self) -> &str
        ensures { result.now ≡ eid_bytes self.now }
    {
        let Eid::Eid(text) = self;
        text.as_str()
    }
}

/// The content of a uid: the type of the entity, its eid and an optional location.
///
/// Equality, order and hash use the type and then the eid. Contracts see the components of the type's name and the
/// bytes of the eid.
#[derive(Debug, Drop)]
pub struct EntityUIDImpl {
    ty: EntityType,
    eid: Eid,
    loc: Option<Loc>,
}

impl Model for EntityUIDImpl {
    ghost use Rattle.cedar_ids.specs.Uid.{UidParts};
    ghost use Rattle.cedar_ids.specs.Views.{type_name, eid_bytes};

    ghost Value = { UidParts };

    ghost view = { λ u. record { name = type_name u.ty; eid = eid_bytes u.eid } };
}

impl EntityUIDImpl {
    /// Returns the location, if there is one. Does not allocate.
    ///
    /// # Differences from cedar-policy-core
    ///
    /// The original returns a copy.
    pub fn loc(&self) -> Option<&Loc> {
        self.loc.as_ref()
    }
}

impl Clone for EntityUIDImpl {
    ghost is_clone = { λ x y. y ≡ x };

    fn clone(&self) -> Result<EntityUIDImpl, AllocError> {
        Ok(EntityUIDImpl {
            ty: self.ty.clone()?,
            eid: self.eid.clone()?,
            loc: self.loc.clone()?,
        })
    }
}

impl PartialEq for EntityUIDImpl {
    ghost eq = { uid_eq };

    ghost laws = { partial_equiv_from_equiv uid_eq_equiv };

    fn eq(&self, other: &EntityUIDImpl) -> bool {
        self.ty == other.ty && self.eid == other.eid
    }
}

impl Eq for EntityUIDImpl {
    ghost laws = { uid_eq_equiv };
}

impl PartialOrd for EntityUIDImpl {
    ghost partial_cmp = { as_partial_cmp uid_cmp };

    ghost laws = { uid_po };

    fn partial_cmp(&self, other: &EntityUIDImpl) -> Option<Ordering> {
        Some(self.cmp(other))
    }
}

impl Ord for EntityUIDImpl {
    ghost cmp = { uid_cmp };

    ghost total = { uid_cmp_total };

    ghost matches_partial_cmp = { λ x y. refl };

    ghost matches_eq = { uid_ties };

    fn cmp(&self, other: &EntityUIDImpl) -> Ordering {
        self.ty
            .cmp(&other.ty)
            .then_with(|| self.eid.cmp(&other.eid))
    }
}

impl Hash for EntityUIDImpl {
    ghost hash_input = { uid_hash_input };

    ghost respects_eq = { uid_hash_respects };

    fn hash<H: Hasher>(&self, state: &mut H) {
        self.ty.name().hash(state);
        self.eid.as_ref().hash(state);
    }
}

/// The uid of an entity: its type and its eid.
///
/// Equality, order and hash use the type and then the eid, and ignore locations. `clone` allocates only a copy of the
/// eid's text. `Display` writes the type, `::"`, the escaped eid and `"`. If the eid is not ASCII, it is written as by
/// `str::escape_debug`.
#[derive(Clone, Debug, Drop)]
pub enum EntityUID {
    /// The uid with this content.
    EntityUID(EntityUIDImpl),
}

impl PartialEq for EntityUID {
    ghost eq = { same_uid };

    ghost laws = { partial_equiv_from_equiv same_uid_equiv };

    fn eq(&self, other: &EntityUID) -> bool {
        let EntityUID::EntityUID(a) = self;
        let EntityUID::EntityUID(b) = other;
        a == b
    }
}

impl Eq for EntityUID {
    ghost laws = { same_uid_equiv };
}

impl PartialOrd for EntityUID {
    ghost partial_cmp = { as_partial_cmp uid_order };

    ghost laws = { uid_order_po };

    fn partial_cmp(&self, other: &EntityUID) -> Option<Ordering> {
        Some(self.cmp(other))
    }
}

impl Ord for EntityUID {
    ghost cmp = { uid_order };

    ghost total = { uid_order_total };

    ghost matches_partial_cmp = { λ x y. refl };

    ghost matches_eq = { uid_order_ties };

    fn cmp(&self, other: &EntityUID) -> Ordering {
        let EntityUID::EntityUID(a) = self;
        let EntityUID::EntityUID(b) = other;
        a.cmp(b)
    }
}

impl Hash for EntityUID {
    ghost hash_input = { uid_hash };

    ghost respects_eq = { uid_hashes };

    fn hash<H: Hasher>(&self, state: &mut H) {
        let EntityUID::EntityUID(a) = self;
        a.hash(state);
    }
}

impl EntityUID {
    /// Creates a uid from a type name of one identifier and an eid. The eid is taken as it is, without unescaping.
    /// Neither the uid nor its type has a location.
    ///
    /// # Errors
    ///
    /// - `InvalidName`: `typename` is not an identifier, or it is a reserved word.
    /// - `Memory`: an allocation failed.
    ///
    /// # Complexity
    ///
    /// O(n), where n is the length of both texts. Allocates O(n) bytes.
    ///
    /// # Differences from cedar-policy-core
    ///
    /// The original parses `typename` with its parser, which allows blanks around the identifier.
    pub fn with_eid_and_type(
        alloc: Global,
        typename: &str,
        eid: &str,
    ) -> Result<EntityUID, ParseErrors>
        ensures { Reads (IsTypeTextAndEid eid.now) result typename.now }
    {
        let name = Name::parse_unqualified_name(alloc, typename)?;
        let eid = String::from_str(alloc, eid)?;
        let ty = EntityType::EntityType(name);
        Ok(EntityUID::from_components(ty, Eid::Eid(eid), None))
    }

    /// Returns the type and the eid, and drops the location. Does not allocate.
    pub fn components(self) -> (EntityType, Eid)
        ensures name { type_name result.0 ≡ (uid_parts self).name }
        ensures eid { eid_bytes result.1 ≡ (uid_parts self).eid }
    {
        let EntityUID::EntityUID(EntityUIDImpl { ty, eid, loc: _ }) = self;
        (ty, eid)
    }

    /// Returns the location, if there is one. Does not allocate.
    pub fn loc(&self) -> Option<&Loc> {
        let EntityUID::EntityUID(uid) = self;
        uid.loc()
    }

    /// Creates a uid from a type, an eid and an optional location. Does not allocate.
    pub fn from_components(ty: EntityType, eid: Eid, loc: Option<Loc>) -> EntityUID
        ensures { uid_parts result ≡ record { name = type_name ty; eid = eid_bytes eid } }
    {
        EntityUID::EntityUID(EntityUIDImpl { ty, eid, loc })
    }

    /// Returns the type. Does not allocate.
    pub fn entity_type(&self) -> &EntityType
        ensures value { type_name result.now ≡ (uid_parts self.now).name }
        ensures valid { IsName (uid_parts self.now).name }
    {
        let EntityUID::EntityUID(uid) = self;
        // No effect at run time: the contract of this call states that the components are ids.
        let _ = uid.ty.name();
        &uid.ty
    }

    /// Returns the eid. Does not allocate.
    pub fn eid(&self) -> &Eid
        ensures { eid_bytes result.now ≡ (uid_parts self.now).eid }
    {
        let EntityUID::EntityUID(uid) = self;
        &uid.eid
    }

    /// Returns whether the uid has an action type: whether the last component of the type's name is `Action`. Does not
    /// allocate.
    pub fn is_action(&self) -> bool
        ensures { result ≡ is_action_uid (uid_parts self.now) }
    {
        self.entity_type().is_action()
    }
}

impl fmt::Display for EntityType {
    ghost output = { λ t. Some (printed_name (type_name t)) };

    fn fmt<W: fmt::Write>(&self, f: &mut fmt::Formatter<W>) -> fmt::Result {
        let name = self.name();
        write!(f, "{name}")
    }
}

impl fmt::Display for EntityUID {
    ghost output = { λ u. uid_output (uid_parts u) };

    fn fmt<W: fmt::Write>(&self, f: &mut fmt::Formatter<W>) -> fmt::Result {
        let ty = self.entity_type();
        let eid = Escaped(self.eid().as_ref());
        write!(f, "{ty}::\"{eid}\"")
    }
}
