//! A uid behind a reference-counted pointer, with the two numbers that abbreviate it.
ghost use Rattle.std.specs.Prelude.{◌≡◌, IfOk, IfErr, ◌⊎◌};
ghost use Rattle.cedar_ids.specs.UidOf.{same_uid, uid_order, uid_hash};
ghost use Rattle.cedar_ids.specs.laws.UidOfLaws.{same_uid_equiv, uid_order_total, uid_order_ties, uid_order_po};
ghost use Rattle.cedar_ids.specs.laws.UidOfLaws.{uid_hash_respects};
ghost use Rattle.std.specs.Cmp.{partial_equiv_from_equiv};
ghost use Rattle.std.specs.Ordering.{as_partial_cmp};
ghost use Rattle.std.proofs.Common.{refl};
ghost use Rattle.cedar_ids.specs.Printed.{uid_output};
ghost use Rattle.cedar_ids.specs.UidOf.{uid_parts};

use crate::fronts::{Fronted, Key, are_same, order_of};
use cedar_ids::entity::EntityUID;
use std::alloc::{AllocError, Global};
use std::cmp::Ordering;
use std::fmt;
use std::hash::{Hash, Hasher};
use std::marker::Model;
use std::rc::Rc;

/// A uid that several sets can share.
///
/// Next to the uid it stores two numbers. One abbreviates the type, if its name is short and has no path. The other
/// consists of the first eight bytes of the eid. If the numbers of two uids differ, they decide equality and order
/// without comparing texts. The numbers cost 16 bytes per shared uid.
///
/// In contracts it is the uid.
#[derive(Debug, Drop)]
pub struct SharedUid(Rc<Fronted>);

impl Model for SharedUid {
    ghost use Rattle.cedar_ids.specs.declared.entity.EntityUID.{EntityUID};
    ghost use Rattle.cedar_ids.specs.Codes.{uid_code};

    ghost Value = { EntityUID };

    ghost coded = { uid_code };

    ghost view = { λ s. s.0.value };
}

impl SharedUid {
    /// Creates a shared uid from a uid. Allocates the counted pointer.
    ///
    /// # Errors
    ///
    /// Returns `AllocError` if an allocation fails.
    #[inline(always)]
    pub fn new(alloc: Global, uid: EntityUID) -> Result<SharedUid, AllocError>
        ensures { IfOk result (λ s. s ≡ uid) }
    {
        match Rc::new(alloc, Fronted::new(uid)) {
            Ok(shared) => Ok(SharedUid(shared)),
            Err(_refused) => Err(AllocError),
        }
    }

    /// Creates a shared uid from a copy of `uid`.
    ///
    /// # Errors
    ///
    /// Returns `AllocError` if an allocation fails.
    pub fn copy_of(alloc: Global, uid: &EntityUID) -> Result<SharedUid, AllocError>
        ensures { IfOk result (λ s. s ≡ uid.now) }
    {
        let copy = uid.clone()?;
        SharedUid::new(alloc, copy)
    }

    /// Returns the uid. Does not allocate.
    pub fn uid(&self) -> &EntityUID
        ensures { result.now ≡ self.now }
    {
        self.0.uid()
    }

    /// Returns the uid itself, or a copy if the pointer is still shared.
    ///
    /// # Errors
    ///
    /// Returns `AllocError` if the allocation of a copy fails.
    pub fn into_uid(self) -> Result<EntityUID, AllocError>
        ensures { IfOk result (λ u. u ≡ self) }
    {
        let fronted = Rc::unwrap_or_clone(self.0)?;
        Ok(fronted.into_uid())
    }

    pub(crate) fn key(&self) -> Key<'_>
        ensures { result ≡ self.now }
    {
        self.0.key()
    }
}

impl Clone for SharedUid {
    ghost is_clone = { λ x y. y ≡ x };

    fn clone(&self) -> Result<SharedUid, AllocError> {
        Ok(SharedUid(self.0.clone()?))
    }
}

impl PartialEq for SharedUid {
    ghost eq = { same_uid };

    ghost laws = { partial_equiv_from_equiv same_uid_equiv };

    fn eq(&self, other: &SharedUid) -> bool {
        are_same(&self.key(), &other.key())
    }
}

impl Eq for SharedUid {
    ghost laws = { same_uid_equiv };
}

impl PartialOrd for SharedUid {
    ghost partial_cmp = { as_partial_cmp uid_order };

    ghost laws = { uid_order_po };

    fn partial_cmp(&self, other: &SharedUid) -> Option<Ordering> {
        Some(self.cmp(other))
    }
}

impl Ord for SharedUid {
    ghost cmp = { uid_order };

    ghost total = { uid_order_total };

    ghost matches_partial_cmp = { λ x y. refl };

    ghost matches_eq = { uid_order_ties };

    fn cmp(&self, other: &SharedUid) -> Ordering {
        order_of(&self.key(), &other.key())
    }
}

impl Hash for SharedUid {
    ghost hash_input = { uid_hash };

    ghost respects_eq = { uid_hash_respects };

    fn hash<H: Hasher>(&self, state: &mut H) {
        self.uid().hash(state);
    }
}

impl fmt::Display for SharedUid {
    ghost output = { λ u. uid_output (uid_parts u) };

    fn fmt<W: fmt::Write>(&self, f: &mut fmt::Formatter<W>) -> fmt::Result {
        let uid = self.uid();
        write!(f, "{uid}")
    }
}
