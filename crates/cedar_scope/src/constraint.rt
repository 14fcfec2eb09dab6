//! The shared type of principal and resource constraints.
ghost use Rattle.std.specs.Prelude.{◌≡◌, IfOk, IsTrue, true, string_bytes};
ghost use Rattle.std.specs.Option.{option_map};
ghost use Rattle.std.specs.Fmt.{WritesOnOk};
ghost use Rattle.std.specs.Ordering.{on, as_partial_cmp};
ghost use Rattle.std.specs.Cmp.{partial_equiv_from_equiv, on_equiv, on_total, po};
ghost use Rattle.std.proofs.Common.{refl};
ghost use Rattle.cedar_ids.specs.UidOf.{uid_parts};
ghost use Rattle.cedar_ids.specs.Views.{type_name};
ghost use Rattle.cedar_scope.specs.Scope.{to_slot, to_uid, any, within, equals, of_type, of_type_within};
ghost use Rattle.cedar_scope.specs.ScopeReads.{constraint_kind, stated_type, reference_in, constraint_uid};
ghost use Rattle.cedar_scope.specs.ScopeReads.{constraint_types, filled};
ghost use Rattle.cedar_scope.specs.ScopeOrder.{constraint_cmp, same_constraint, constraint_hash};
ghost use Rattle.cedar_scope.specs.ScopeTrees.{constraint_expr};
ghost use Rattle.cedar_scope.specs.ScopeTexts.{constraint_text, constraint_output, is_ascii_constraint};
ghost use Rattle.cedar_scope.specs.Views.{reference_of, constraint_of};
ghost use Rattle.cedar_scope.specs.laws.ScopeOrders.{constraint_cmp_total, same_constraint_equiv};
ghost use Rattle.cedar_scope.specs.laws.ScopeOrders.{constraint_hash_respects};

use crate::iters::ConstraintTypeNames;
use crate::reference::EntityReference;
use crate::variable::PrincipalOrResource;
use cedar_ids::entity::{EntityType, EntityUID};
use cedar_terms::expr::Expr;
use cedar_terms::literal::Literal;
use cedar_terms::slot::SlotId;
use cedar_terms::var::Var;
use std::alloc::{AllocError, Global};
use std::cmp::Ordering;
use std::fmt;
use std::hash::{Hash, Hasher};
use std::rc::Rc;

/// The condition that a policy places on the principal or on the resource.
///
/// The order is by kind, in the order of the variants, then by the type, then by the reference. Equality, order and
/// hash ignore locations and do not allocate. `clone` shares types and uids. Its only error is `AllocError`, if a
/// shared part cannot be shared once more.
#[derive(Debug, Drop)]
pub enum PrincipalOrResourceConstraint {
    /// Any entity.
    Any,
    /// Any entity that is in the referenced entity.
    In(EntityReference),
    /// Only the referenced entity.
    Eq(EntityReference),
    /// Any entity of this type.
    Is(Rc<EntityType>),
    /// Any entity of this type that is in the referenced entity.
    IsIn(Rc<EntityType>, EntityReference),
}

impl PrincipalOrResourceConstraint {
    /// Returns the constraint that allows any entity. Does not allocate.
    pub fn any() -> PrincipalOrResourceConstraint
        ensures { constraint_of result ≡ any }
    {
        Self::Any
    }

    /// Returns the constraint `== euid`. Does not allocate.
    pub fn is_eq(euid: Rc<EntityUID>) -> PrincipalOrResourceConstraint
        ensures { constraint_of result ≡ equals (to_uid (uid_parts euid.value)) }
    {
        Self::Eq(EntityReference::euid(euid))
    }

    /// Returns the constraint `== slot`. The slot has no location. Does not allocate.
    pub fn is_eq_slot() -> PrincipalOrResourceConstraint
        ensures { constraint_of result ≡ equals to_slot }
    {
        Self::Eq(EntityReference::Slot(None))
    }

    /// Returns the constraint `in euid`. Does not allocate.
    pub fn is_in(euid: Rc<EntityUID>) -> PrincipalOrResourceConstraint
        ensures { constraint_of result ≡ within (to_uid (uid_parts euid.value)) }
    {
        Self::In(EntityReference::euid(euid))
    }

    /// Returns the constraint `in slot`. The slot has no location. Does not allocate.
    pub fn is_in_slot() -> PrincipalOrResourceConstraint
        ensures { constraint_of result ≡ within to_slot }
    {
        Self::In(EntityReference::Slot(None))
    }

    /// Returns the constraint `is entity_type`. Does not allocate.
    pub fn is_entity_type(entity_type: Rc<EntityType>) -> PrincipalOrResourceConstraint
        ensures { constraint_of result ≡ of_type (type_name entity_type.value) }
    {
        Self::Is(entity_type)
    }

    /// Returns the constraint `is entity_type in in_entity`. Does not allocate.
    pub fn is_entity_type_in(
        entity_type: Rc<EntityType>,
        in_entity: Rc<EntityUID>,
    ) -> PrincipalOrResourceConstraint
        ensures { constraint_of result
            ≡ of_type_within (type_name entity_type.value) (to_uid (uid_parts in_entity.value)) }
    {
        Self::IsIn(entity_type, EntityReference::euid(in_entity))
    }

    /// Returns the constraint `is entity_type in slot`. The slot has no location. Does not allocate.
    pub fn is_entity_type_in_slot(entity_type: Rc<EntityType>) -> PrincipalOrResourceConstraint
        ensures { constraint_of result ≡ of_type_within (type_name entity_type.value) to_slot }
    {
        Self::IsIn(entity_type, EntityReference::Slot(None))
    }

    /// Returns the constraint on the variable `v` and its slot, as an expression. For `Any` the expression is `true`.
    /// The node of a slot has the location of the reference.
    ///
    /// # Errors
    ///
    /// Returns `AllocError` if an allocation fails.
    ///
    /// # Complexity
    ///
    /// O(1). Allocates at most seven nodes.
    pub fn as_expr(&self, alloc: Global, v: PrincipalOrResource) -> Result<Expr, AllocError>
        ensures { IfOk result (λ e. e ≡ constraint_expr v (constraint_of self.now)) }
    {
        match self {
            PrincipalOrResourceConstraint::Any => Expr::val(alloc, Literal::Bool(true)),
            PrincipalOrResourceConstraint::In(reference) => in_expr(alloc, v, reference),
            PrincipalOrResourceConstraint::Eq(reference) => eq_expr(alloc, v, reference),
            PrincipalOrResourceConstraint::Is(ty) => is_expr(alloc, v, ty),
            PrincipalOrResourceConstraint::IsIn(ty, reference) => {
                is_in_expr(alloc, v, ty, reference)
            }
        }
    }

    /// Returns the text of the constraint on the variable `v` and its slot, for example `principal is T in ?principal`.
    /// An eid that is not ASCII is written as by `str::escape_debug`.
    ///
    /// # Errors
    ///
    /// Returns `AllocError` if an allocation fails.
    pub fn display(&self, alloc: Global, v: PrincipalOrResource) -> Result<String, AllocError>
        ensures { IsTrue (is_ascii_constraint (constraint_of self.now)) →
            IfOk result (λ s. string_bytes s ≡ constraint_text v (constraint_of self.now)) }
    {
        OnVariable {
            constraint: self,
            v,
        }
        .to_string(alloc)
    }

    /// Returns the referenced uid, if there is one. Does not allocate.
    pub fn get_euid(&self) -> Option<&Rc<EntityUID>>
        ensures { option_map (λ u. uid_parts u.now.value) result ≡ constraint_uid (constraint_of self.now) }
    {
        match self {
            PrincipalOrResourceConstraint::In(EntityReference::EUID(euid)) => Some(euid),
            PrincipalOrResourceConstraint::Eq(EntityReference::EUID(euid)) => Some(euid),
            PrincipalOrResourceConstraint::IsIn(_, EntityReference::EUID(euid)) => Some(euid),
            PrincipalOrResourceConstraint::In(EntityReference::Slot(_)) => None,
            PrincipalOrResourceConstraint::Eq(EntityReference::Slot(_)) => None,
            PrincipalOrResourceConstraint::IsIn(_, EntityReference::Slot(_)) => None,
            PrincipalOrResourceConstraint::Any => None,
            PrincipalOrResourceConstraint::Is(_) => None,
        }
    }

    /// Iterates over the types in the constraint: the type of the uid, then the stated type, each if there is one. Does
    /// not allocate.
    pub fn iter_entity_type_names(&self) -> ConstraintTypeNames<'_>
        ensures { result ≡ constraint_types (constraint_of self.now) }
    {
        let stated = self.stated_type();
        match self.get_euid() {
            Some(euid) => ConstraintTypeNames::of(Some(euid.entity_type()), stated),
            None => ConstraintTypeNames::of(None, stated),
        }
    }

    // Returns the index of the kind.
    fn kind(&self) -> u8
        ensures { result ≡ constraint_kind (constraint_of self.now) }
    {
        match self {
            PrincipalOrResourceConstraint::Any => 0,
            PrincipalOrResourceConstraint::In(_) => 1,
            PrincipalOrResourceConstraint::Eq(_) => 2,
            PrincipalOrResourceConstraint::Is(_) => 3,
            PrincipalOrResourceConstraint::IsIn(_, _) => 4,
        }
    }

    // Returns the stated type, if there is one.
    fn stated_type(&self) -> Option<&EntityType>
        ensures { option_map (λ t. type_name t.now) result ≡ stated_type (constraint_of self.now) }
    {
        match self {
            PrincipalOrResourceConstraint::Is(ty) => Some(&**ty),
            PrincipalOrResourceConstraint::IsIn(ty, _) => Some(&**ty),
            PrincipalOrResourceConstraint::Any => None,
            PrincipalOrResourceConstraint::In(_) => None,
            PrincipalOrResourceConstraint::Eq(_) => None,
        }
    }

    // Returns the reference, if there is one.
    fn reference(&self) -> Option<&EntityReference>
        ensures { option_map (λ r. reference_of r.now) result ≡ reference_in (constraint_of self.now) }
    {
        match self {
            PrincipalOrResourceConstraint::In(reference) => Some(reference),
            PrincipalOrResourceConstraint::Eq(reference) => Some(reference),
            PrincipalOrResourceConstraint::IsIn(_, reference) => Some(reference),
            PrincipalOrResourceConstraint::Any => None,
            PrincipalOrResourceConstraint::Is(_) => None,
        }
    }

    // Replaces the slot, if there is one, by the uid.
    pub(crate) fn with_filled_slot(self, euid: Rc<EntityUID>) -> PrincipalOrResourceConstraint
        ensures { constraint_of result ≡ filled (uid_parts euid.value) (constraint_of self) }
    {
        match self {
            PrincipalOrResourceConstraint::Eq(EntityReference::Slot(_)) => {
                PrincipalOrResourceConstraint::is_eq(euid)
            }
            PrincipalOrResourceConstraint::In(EntityReference::Slot(_)) => {
                PrincipalOrResourceConstraint::is_in(euid)
            }
            PrincipalOrResourceConstraint::IsIn(ty, EntityReference::Slot(_)) => {
                PrincipalOrResourceConstraint::is_entity_type_in(ty, euid)
            }
            other => other,
        }
    }

    // Compares two constraints.
    pub(crate) fn compare(&self, other: &PrincipalOrResourceConstraint) -> Ordering
        ensures { result ≡ constraint_cmp (constraint_of self.now) (constraint_of other.now) }
    {
        self.kind()
            .cmp(&other.kind())
            .then_with(|| compare_types(self.stated_type(), other.stated_type()))
            .then_with(|| compare_references(self.reference(), other.reference()))
    }

    // Writes the constraint on the variable `v`.
    pub(crate) fn write<W: fmt::Write>(
        &self,
        v: PrincipalOrResource,
        f: &mut fmt::Formatter<W>,
    ) -> fmt::Result
        ensures { is_ascii_constraint (constraint_of self.now) ≡ true
            → WritesOnOk W.write_str_gives f.old result (constraint_text v (constraint_of self.now)) f.new }
    {
        match self {
            PrincipalOrResourceConstraint::Any => write!(f, "{v}"),
            PrincipalOrResourceConstraint::In(reference) => {
                write!(f, "{v} in ")?;
                reference.write(SlotId::from(v), f)
            }
            PrincipalOrResourceConstraint::Eq(reference) => {
                write!(f, "{v} == ")?;
                reference.write(SlotId::from(v), f)
            }
            PrincipalOrResourceConstraint::Is(ty) => write!(f, "{v} is {ty}"),
            PrincipalOrResourceConstraint::IsIn(ty, reference) => {
                write!(f, "{v} is {ty} in ")?;
                reference.write(SlotId::from(v), f)
            }
        }
    }
}

ghost use Rattle.std.specs.Option.{option_cmp};
ghost use Rattle.cedar_ids.specs.Name.{name_cmp};
ghost use Rattle.cedar_scope.specs.ScopeOrder.{reference_cmp};

// Compares two optional types. `None` is less than any type.
fn compare_types(a: Option<&EntityType>, b: Option<&EntityType>) -> Ordering
    ensures { result ≡ option_cmp name_cmp
        (option_map (λ t. type_name t.now) a.entry) (option_map (λ t. type_name t.now) b.entry) }
{
    match a {
        None => match b {
            None => Ordering::Equal,
            Some(_) => Ordering::Less,
        },
        Some(a) => match b {
            None => Ordering::Greater,
            Some(b) => a.cmp(b),
        },
    }
}

// Compares two optional references. `None` is less than any reference.
fn compare_references(a: Option<&EntityReference>, b: Option<&EntityReference>) -> Ordering
    ensures { result ≡ option_cmp reference_cmp
        (option_map (λ r. reference_of r.now) a.entry) (option_map (λ r. reference_of r.now) b.entry) }
{
    match a {
        None => match b {
            None => Ordering::Equal,
            Some(_) => Ordering::Less,
        },
        Some(a) => match b {
            None => Ordering::Greater,
            Some(b) => a.compare(b),
        },
    }
}

// Returns the expression `v in reference`.
fn in_expr(
    alloc: Global,
    v: PrincipalOrResource,
    reference: &EntityReference,
) -> Result<Expr, AllocError>
    ensures { IfOk result (λ e. e ≡ constraint_expr v (within (reference_of reference.now))) }
{
    let left = Expr::var(alloc, Var::from(v))?;
    let right = reference.into_expr(alloc, SlotId::from(v))?;
    Expr::is_in(alloc, left, right)
}

// Returns the expression `v == reference`.
fn eq_expr(
    alloc: Global,
    v: PrincipalOrResource,
    reference: &EntityReference,
) -> Result<Expr, AllocError>
    ensures { IfOk result (λ e. e ≡ constraint_expr v (equals (reference_of reference.now))) }
{
    let left = Expr::var(alloc, Var::from(v))?;
    let right = reference.into_expr(alloc, SlotId::from(v))?;
    Expr::is_eq(alloc, left, right)
}

// Returns the expression `v is ty`.
fn is_expr(alloc: Global, v: PrincipalOrResource, ty: &EntityType) -> Result<Expr, AllocError>
    ensures { IfOk result (λ e. e ≡ constraint_expr v (of_type (type_name ty.now))) }
{
    let left = Expr::var(alloc, Var::from(v))?;
    let ty = ty.clone()?;
    Expr::is_entity_type(alloc, left, ty)
}

// Returns the expression `v is ty && v in reference`.
fn is_in_expr(
    alloc: Global,
    v: PrincipalOrResource,
    ty: &EntityType,
    reference: &EntityReference,
) -> Result<Expr, AllocError>
    ensures { IfOk result
        (λ e. e ≡ constraint_expr v (of_type_within (type_name ty.now) (reference_of reference.now))) }
{
    let left = is_expr(alloc, v, ty)?;
    let right = in_expr(alloc, v, reference)?;
    Expr::and(alloc, left, right)
}

// A constraint with its variable, for printing.
#[derive(Drop)]
struct OnVariable<'a> {
    constraint: &'a PrincipalOrResourceConstraint,
    v: PrincipalOrResource,
}

impl fmt::Display for OnVariable<'_> {
    ghost output = { λ s. constraint_output s.v (constraint_of s.constraint.now) };

    fn fmt<W: fmt::Write>(&self, f: &mut fmt::Formatter<W>) -> fmt::Result {
        self.constraint.write(self.v, f)
    }
}

impl Clone for PrincipalOrResourceConstraint {
    ghost is_clone = { λ x y. constraint_of y ≡ constraint_of x };

    fn clone(&self) -> Result<PrincipalOrResourceConstraint, AllocError> {
        match self {
            PrincipalOrResourceConstraint::Any => Ok(PrincipalOrResourceConstraint::Any),
            PrincipalOrResourceConstraint::In(reference) => {
                Ok(PrincipalOrResourceConstraint::In(reference.clone()?))
            }
            PrincipalOrResourceConstraint::Eq(reference) => {
                Ok(PrincipalOrResourceConstraint::Eq(reference.clone()?))
            }
            PrincipalOrResourceConstraint::Is(ty) => {
                Ok(PrincipalOrResourceConstraint::Is(ty.clone()?))
            }
            PrincipalOrResourceConstraint::IsIn(ty, reference) => Ok(
                PrincipalOrResourceConstraint::IsIn(ty.clone()?, reference.clone()?),
            ),
        }
    }
}

impl PartialEq for PrincipalOrResourceConstraint {
    ghost eq = { on constraint_of same_constraint };

    ghost laws = { partial_equiv_from_equiv (on_equiv constraint_of same_constraint_equiv) };

    fn eq(&self, other: &PrincipalOrResourceConstraint) -> bool {
        self.compare(other).is_eq()
    }
}

impl Eq for PrincipalOrResourceConstraint {
    ghost laws = { on_equiv constraint_of same_constraint_equiv };
}

impl PartialOrd for PrincipalOrResourceConstraint {
    ghost partial_cmp = { as_partial_cmp (on constraint_of constraint_cmp) };

    ghost laws = { po (on_total constraint_of constraint_cmp_total) (λ x y. refl) };

    fn partial_cmp(&self, other: &PrincipalOrResourceConstraint) -> Option<Ordering> {
        Some(self.cmp(other))
    }
}

impl Ord for PrincipalOrResourceConstraint {
    ghost cmp = { on constraint_of constraint_cmp };

    ghost total = { on_total constraint_of constraint_cmp_total };

    ghost matches_partial_cmp = { λ x y. refl };

    ghost matches_eq = { λ x y. refl };

    fn cmp(&self, other: &PrincipalOrResourceConstraint) -> Ordering {
        self.compare(other)
    }
}

impl Hash for PrincipalOrResourceConstraint {
    ghost hash_input = { λ c. constraint_hash (constraint_of c) };

    ghost respects_eq = { λ x y e. constraint_hash_respects (constraint_of x) (constraint_of y) e };

    fn hash<H: Hasher>(&self, state: &mut H) {
        self.kind().hash(state);
        match self {
            PrincipalOrResourceConstraint::Any => {}
            PrincipalOrResourceConstraint::In(reference) => reference.hash(state),
            PrincipalOrResourceConstraint::Eq(reference) => reference.hash(state),
            PrincipalOrResourceConstraint::Is(ty) => ty.hash(state),
            PrincipalOrResourceConstraint::IsIn(ty, reference) => {
                ty.hash(state);
                reference.hash(state);
            }
        }
    }
}
