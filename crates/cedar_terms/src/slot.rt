//! Slots of templates, and their ids.
ghost use Rattle.std.specs.Prelude.{◌≡◌, Some, IsTrue};
ghost use Rattle.std.proofs.Common.{refl};
ghost use Rattle.std.specs.Ordering.{as_partial_cmp};
ghost use Rattle.std.specs.Cmp.{partial_equiv_from_equiv};
ghost use Rattle.cedar_terms.specs.SlotTree.{all_slots, slot_index, same_slot, slot_cmp, slot_hash, slot_text};
ghost use Rattle.cedar_terms.specs.laws.SlotIdLaws.{same_slot_equiv, slot_cmp_total, slot_ties, slot_po};
ghost use Rattle.cedar_terms.specs.laws.SlotIdLaws.{slot_hash_respects};

use cedar_ids::loc::Loc;
use std::alloc::AllocError;
use std::cmp::Ordering;
use std::fmt;
use std::hash::{Hash, Hasher};
use std::marker::Model;

/// The id of a slot of a template. There are three.
///
/// The variants are in ascending order. Copying, comparing, hashing and writing do not allocate.
///
/// # Differences from cedar-policy-core
///
/// In the original the ids are behind a private field, and there is no slot for the action.
#[derive(Clone, Copy, Debug)]
pub enum SlotId {
    /// Written `?principal`.
    Principal,
    /// Written `?action`.
    Action,
    /// Written `?resource`.
    Resource,
}

impl SlotId {
    /// All slot ids, in ascending order.
    pub const ALL: [SlotId; 3] = [SlotId::Principal, SlotId::Action, SlotId::Resource];

    /// Returns the id of the principal's slot. Does not allocate.
    pub fn principal() -> SlotId
        ensures { result ≡ SlotId.Principal }
    {
        Self::Principal
    }

    /// Returns the id of the action's slot. Does not allocate.
    ///
    /// # Differences from cedar-policy-core
    ///
    /// The original has no such slot.
    pub fn action() -> SlotId
        ensures { result ≡ SlotId.Action }
    {
        Self::Action
    }

    /// Returns the id of the resource's slot. Does not allocate.
    pub fn resource() -> SlotId
        ensures { result ≡ SlotId.Resource }
    {
        Self::Resource
    }

    // Returns the index of the id in `ALL`.
    fn index(self) -> u8
        ensures { result ≡ slot_index self }
    {
        match self {
            SlotId::Principal => 0,
            SlotId::Action => 1,
            SlotId::Resource => 2,
        }
    }
}

impl PartialEq for SlotId {
    ghost eq = { same_slot };

    ghost laws = { partial_equiv_from_equiv same_slot_equiv };

    fn eq(&self, other: &SlotId) -> bool {
        self.index() == other.index()
    }
}

impl Eq for SlotId {
    ghost laws = { same_slot_equiv };
}

impl PartialOrd for SlotId {
    ghost partial_cmp = { as_partial_cmp slot_cmp };

    ghost laws = { slot_po };

    fn partial_cmp(&self, other: &SlotId) -> Option<Ordering> {
        Some(self.cmp(other))
    }
}

impl Ord for SlotId {
    ghost cmp = { slot_cmp };

    ghost total = { slot_cmp_total };

    ghost matches_partial_cmp = { λ x y. refl };

    ghost matches_eq = { slot_ties };

    fn cmp(&self, other: &SlotId) -> Ordering {
        self.index().cmp(&other.index())
    }
}

impl Hash for SlotId {
    ghost hash_input = { slot_hash };

    ghost respects_eq = { slot_hash_respects };

    fn hash<H: Hasher>(&self, state: &mut H) {
        self.index().hash(state);
    }
}

impl fmt::Display for SlotId {
    ghost output = { λ s. Some (slot_text s) };

    fn fmt<W: fmt::Write>(&self, f: &mut fmt::Formatter<W>) -> fmt::Result {
        match self {
            SlotId::Principal => f.write_str("?principal"),
            SlotId::Action => f.write_str("?action"),
            SlotId::Resource => f.write_str("?resource"),
        }
    }
}

/// A slot in an expression: its id and its optional location.
///
/// Equality and hash use only the id. Contracts see a slot as its id.
#[derive(Debug, Drop)]
pub struct Slot {
    /// The id of the slot.
    pub id: SlotId,
    /// The location of the slot, if it is known.
    pub loc: Option<Loc>,
}

impl Model for Slot {
    ghost use Rattle.cedar_terms.specs.declared.slot.SlotId.{SlotId};

    ghost Value = { SlotId };

    ghost view = { λ s. s.id };
}

impl Clone for Slot {
    ghost is_clone = { λ x y. y ≡ x };

    /// Copies the slot, with its location.
    ///
    /// # Errors
    ///
    /// Returns `AllocError` if an allocation fails.
    fn clone(&self) -> Result<Slot, AllocError> {
        Ok(Slot {
            id: self.id,
            loc: self.loc.clone()?,
        })
    }
}

impl PartialEq for Slot {
    ghost eq = { same_slot };

    ghost laws = { partial_equiv_from_equiv same_slot_equiv };

    fn eq(&self, other: &Slot) -> bool {
        self.id == other.id
    }
}

impl Eq for Slot {
    ghost laws = { same_slot_equiv };
}

impl Hash for Slot {
    ghost hash_input = { slot_hash };

    ghost respects_eq = { slot_hash_respects };

    fn hash<H: Hasher>(&self, state: &mut H) {
        self.id.hash(state);
    }
}
