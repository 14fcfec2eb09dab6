//! References in constraints: a uid, or the slot of the variable.
ghost use Rattle.std.specs.Prelude.{◌≡◌, IfOk, true};
ghost use Rattle.std.specs.Fmt.{WritesOnOk};
ghost use Rattle.std.specs.Ordering.{on, as_partial_cmp};
ghost use Rattle.std.specs.Cmp.{partial_equiv_from_equiv, on_equiv, on_total, po};
ghost use Rattle.std.proofs.Common.{refl};
ghost use Rattle.cedar_ids.specs.UidOf.{uid_parts};
ghost use Rattle.cedar_scope.specs.Scope.{to_uid};
ghost use Rattle.cedar_scope.specs.ScopeOrder.{reference_cmp, same_reference, reference_hash};
ghost use Rattle.cedar_scope.specs.ScopeTrees.{reference_expr};
ghost use Rattle.cedar_scope.specs.ScopeTexts.{reference_text, is_ascii_reference};
ghost use Rattle.cedar_scope.specs.Views.{reference_of};
ghost use Rattle.cedar_scope.specs.laws.ScopeOrders.{reference_cmp_total, same_reference_equiv};
ghost use Rattle.cedar_scope.specs.laws.ScopeOrders.{reference_hash_respects};

use cedar_ids::entity::EntityUID;
use cedar_ids::loc::Loc;
use cedar_terms::expr::Expr;
use cedar_terms::literal::Literal;
use cedar_terms::slot::SlotId;
use std::alloc::{AllocError, Global};
use std::cmp::Ordering;
use std::fmt;
use std::hash::{Hash, Hasher};
use std::rc::Rc;

/// The entity that a constraint refers to: a uid, or the slot of its variable.
///
/// Uids have their order, and every uid is less than the slot. Equality, order and hash ignore locations. `clone`
/// shares the uid. Its only error is `AllocError`, if a shared part cannot be shared once more.
///
/// # Differences from cedar-policy-core
///
/// In the original the order may depend on the location of a slot.
#[derive(Debug, Drop)]
pub enum EntityReference {
    /// This uid.
    EUID(Rc<EntityUID>),
    /// The slot of the variable, with its location, if it is known.
    Slot(Option<Loc>),
}

impl EntityReference {
    /// Creates the reference to this uid. Does not allocate.
    pub fn euid(euid: Rc<EntityUID>) -> EntityReference
        ensures { reference_of result ≡ to_uid (uid_parts euid.value) }
    {
        Self::EUID(euid)
    }

    /// Creates the reference to this uid, and allocates a shared copy.
    ///
    /// # Errors
    ///
    /// Returns `AllocError` if an allocation fails.
    ///
    /// # Differences from cedar-policy-core
    ///
    /// In the original this is a conversion by `From`.
    pub fn from_uid(alloc: Global, uid: EntityUID) -> Result<EntityReference, AllocError>
        ensures { IfOk result (λ r. reference_of r ≡ to_uid (uid_parts uid)) }
    {
        let euid = Rc::new(alloc, uid)?;
        Ok(EntityReference::euid(euid))
    }

    /// Returns the reference as an expression: the uid, or the given slot. The node of the slot has the location of the
    /// reference. The uid is shared.
    ///
    /// # Errors
    ///
    /// Returns `AllocError` if an allocation fails.
    pub fn into_expr(&self, alloc: Global, slot: SlotId) -> Result<Expr, AllocError>
        ensures { IfOk result (λ e. e ≡ reference_expr slot (reference_of self.now)) }
    {
        match self {
            EntityReference::EUID(euid) => Expr::val(alloc, Literal::EntityUID(euid.clone()?)),
            EntityReference::Slot(loc) => {
                let expr = Expr::slot(alloc, slot)?;
                Ok(expr.with_maybe_source_loc(loc.clone()?))
            }
        }
    }

    // Compares two references.
    pub(crate) fn compare(&self, other: &EntityReference) -> Ordering
        ensures { result ≡ reference_cmp (reference_of self.now) (reference_of other.now) }
    {
        match self {
            EntityReference::EUID(u) => match other {
                EntityReference::EUID(v) => u.cmp(v),
                EntityReference::Slot(_) => Ordering::Less,
            },
            EntityReference::Slot(_) => match other {
                EntityReference::EUID(_) => Ordering::Greater,
                EntityReference::Slot(_) => Ordering::Equal,
            },
        }
    }

    // Writes the uid, or the given slot.
    pub(crate) fn write<W: fmt::Write>(
        &self,
        slot: SlotId,
        f: &mut fmt::Formatter<W>,
    ) -> fmt::Result
        ensures { is_ascii_reference (reference_of self.now) ≡ true
            → WritesOnOk W.write_str_gives f.old result (reference_text slot (reference_of self.now)) f.new }
    {
        match self {
            EntityReference::EUID(euid) => write!(f, "{euid}"),
            EntityReference::Slot(_) => write!(f, "{slot}"),
        }
    }
}

impl Clone for EntityReference {
    ghost is_clone = { λ x y. reference_of y ≡ reference_of x };

    fn clone(&self) -> Result<EntityReference, AllocError> {
        match self {
            EntityReference::EUID(euid) => Ok(EntityReference::EUID(euid.clone()?)),
            EntityReference::Slot(loc) => Ok(EntityReference::Slot(loc.clone()?)),
        }
    }
}

impl PartialEq for EntityReference {
    ghost eq = { on reference_of same_reference };

    ghost laws = { partial_equiv_from_equiv (on_equiv reference_of same_reference_equiv) };

    fn eq(&self, other: &EntityReference) -> bool {
        self.compare(other).is_eq()
    }
}

impl Eq for EntityReference {
    ghost laws = { on_equiv reference_of same_reference_equiv };
}

impl PartialOrd for EntityReference {
    ghost partial_cmp = { as_partial_cmp (on reference_of reference_cmp) };

    ghost laws = { po (on_total reference_of reference_cmp_total) (λ x y. refl) };

    fn partial_cmp(&self, other: &EntityReference) -> Option<Ordering> {
        Some(self.cmp(other))
    }
}

impl Ord for EntityReference {
    ghost cmp = { on reference_of reference_cmp };

    ghost total = { on_total reference_of reference_cmp_total };

    ghost matches_partial_cmp = { λ x y. refl };

    ghost matches_eq = { λ x y. refl };

    fn cmp(&self, other: &EntityReference) -> Ordering {
        self.compare(other)
    }
}

impl Hash for EntityReference {
    ghost hash_input = { λ r. reference_hash (reference_of r) };

    ghost respects_eq = { λ x y e. reference_hash_respects (reference_of x) (reference_of y) e };

    fn hash<H: Hasher>(&self, state: &mut H) {
        match self {
            EntityReference::EUID(euid) => {
                0u8.hash(state);
                euid.hash(state);
            }
            EntityReference::Slot(_) => 1u8.hash(state),
        }
    }
}
