//! Constraints with a fixed variable: one type for the principal and one for the resource. The methods call the shared
//! type.
ghost use Rattle.std.specs.Prelude.{◌≡◌, IfOk, false};
ghost use Rattle.std.specs.Ordering.{as_partial_cmp};
ghost use Rattle.std.specs.Cmp.{partial_equiv_from_equiv, po};
ghost use Rattle.std.proofs.Common.{refl};
ghost use Rattle.cedar_ids.specs.Uid.{UidParts};
ghost use Rattle.cedar_ids.specs.UidOf.{uid_parts};
ghost use Rattle.cedar_ids.specs.Views.{type_name};
ghost use Rattle.cedar_scope.specs.Scope.{to_slot, to_uid, any, within, equals, of_type, of_type_within};
ghost use Rattle.cedar_scope.specs.ScopeReads.{filled, has_slot};
ghost use Rattle.cedar_scope.specs.ScopeOrder.{constraint_cmp, same_constraint, constraint_hash};
ghost use Rattle.cedar_scope.specs.ScopeTrees.{constraint_expr};
ghost use Rattle.cedar_scope.specs.ScopeTexts.{constraint_output};
ghost use Rattle.cedar_scope.specs.Views.{constraint_of};
ghost use Rattle.cedar_scope.specs.laws.ScopeOrders.{constraint_cmp_total, same_constraint_equiv};
ghost use Rattle.cedar_scope.specs.laws.ScopeOrders.{constraint_hash_respects};
ghost use Rattle.cedar_scope.specs.declared.variable.PrincipalOrResource.{PrincipalOrResource};
ghost use Rattle.cedar_scope.specs.declared.variable.PrincipalOrResource.TheVariants as variables;

use crate::constraint::PrincipalOrResourceConstraint;
use crate::variable::PrincipalOrResource;
use cedar_ids::entity::{EntityType, EntityUID};
use cedar_terms::expr::Expr;
use std::alloc::{AllocError, Global};
use std::cmp::Ordering;
use std::fmt;
use std::hash::{Hash, Hasher};
use std::marker::{Model, PhantomData};
use std::rc::Rc;

/// A variable as a type: `Principal` or `Resource`. It distinguishes principal constraints from resource constraints.
pub trait ScopeVariable {
    ghost variable: { PrincipalOrResource };

    /// The name of the constraint type, as `Debug` writes it.
    const NAME: &'static str;

    /// Returns the variable.
    fn variable() -> PrincipalOrResource
        ensures { result ≡ variable };
}

/// The principal, as a type.
#[derive(Clone, Copy, Debug, Drop)]
pub struct Principal;

impl ScopeVariable for Principal {
    ghost variable = { variables.Principal };

    const NAME: &'static str = "PrincipalConstraint";

    fn variable() -> PrincipalOrResource {
        PrincipalOrResource::Principal
    }
}

/// The resource, as a type.
#[derive(Clone, Copy, Debug, Drop)]
pub struct Resource;

impl ScopeVariable for Resource {
    ghost variable = { variables.Resource };

    const NAME: &'static str = "ResourceConstraint";

    fn variable() -> PrincipalOrResource {
        PrincipalOrResource::Resource
    }
}

/// The condition on the principal of a request.
pub type PrincipalConstraint = VariableConstraint<Principal>;

/// The condition on the resource of a request.
pub type ResourceConstraint = VariableConstraint<Resource>;

/// The condition on one variable of a request: [`PrincipalConstraint`] or [`ResourceConstraint`].
///
/// Equality, order and hash use only the constraint, and ignore locations. `clone` shares types and uids. Its only
/// error is `AllocError`, if a shared part cannot be shared once more. `Display` writes the constraint with its
/// variable, for example `principal`, and with its slot, for example `?principal`. An eid that is not ASCII is written
/// as by `str::escape_debug`. Writing does not allocate. Contracts see the constraint without its locations.
#[derive(Drop)]
pub struct VariableConstraint<V: ScopeVariable> {
    constraint: PrincipalOrResourceConstraint,
    variable: PhantomData<V>,
}

impl<V: ScopeVariable> Model for VariableConstraint<V> {
    ghost use Rattle.cedar_scope.specs.Scope.{Constraint};
    ghost use Rattle.cedar_scope.specs.Codes.{constraint_code};

    ghost Value = { Constraint };

    ghost coded = { constraint_code };

    ghost use Rattle.cedar_scope.specs.Views.{constraint_of};

    ghost view = { λ c. constraint_of c.constraint };
}

impl<V: ScopeVariable> VariableConstraint<V> {
    /// Creates the constraint on the variable. Does not allocate.
    pub fn new(constraint: PrincipalOrResourceConstraint) -> VariableConstraint<V>
        ensures { result ≡ constraint_of constraint }
    {
        VariableConstraint {
            constraint,
            variable: PhantomData,
        }
    }

    /// Returns the constraint. Does not allocate.
    pub fn as_inner(&self) -> &PrincipalOrResourceConstraint
        ensures { constraint_of result.now ≡ self.now }
    {
        &self.constraint
    }

    /// Returns the constraint. Does not allocate.
    pub fn into_inner(self) -> PrincipalOrResourceConstraint
        ensures { constraint_of result ≡ self }
    {
        let VariableConstraint { constraint, .. } = self;
        constraint
    }

    /// Returns the constraint as an expression, as [`PrincipalOrResourceConstraint::as_expr`] does for the variable.
    ///
    /// # Errors
    ///
    /// Returns `AllocError` if an allocation fails.
    pub fn as_expr(&self, alloc: Global) -> Result<Expr, AllocError>
        ensures { IfOk result (λ e. e ≡ constraint_expr V.variable self.now) }
    {
        self.constraint.as_expr(alloc, V::variable())
    }

    /// Returns the constraint that allows any entity. Does not allocate.
    pub fn any() -> VariableConstraint<V>
        ensures { result ≡ any }
    {
        VariableConstraint::<V>::new(PrincipalOrResourceConstraint::any())
    }

    /// Returns the constraint `== euid`. Does not allocate.
    pub fn is_eq(euid: Rc<EntityUID>) -> VariableConstraint<V>
        ensures { result ≡ equals (to_uid (uid_parts euid.value)) }
    {
        VariableConstraint::<V>::new(PrincipalOrResourceConstraint::is_eq(euid))
    }

    /// Returns the constraint `== slot`. Does not allocate.
    pub fn is_eq_slot() -> VariableConstraint<V>
        ensures { result ≡ equals to_slot }
    {
        VariableConstraint::<V>::new(PrincipalOrResourceConstraint::is_eq_slot())
    }

    /// Returns the constraint `in euid`. Does not allocate.
    pub fn is_in(euid: Rc<EntityUID>) -> VariableConstraint<V>
        ensures { result ≡ within (to_uid (uid_parts euid.value)) }
    {
        VariableConstraint::<V>::new(PrincipalOrResourceConstraint::is_in(euid))
    }

    /// Returns the constraint `in slot`. Does not allocate.
    pub fn is_in_slot() -> VariableConstraint<V>
        ensures { result ≡ within to_slot }
    {
        VariableConstraint::<V>::new(PrincipalOrResourceConstraint::is_in_slot())
    }

    /// Returns the constraint `is entity_type`. Does not allocate.
    pub fn is_entity_type(entity_type: Rc<EntityType>) -> VariableConstraint<V>
        ensures { result ≡ of_type (type_name entity_type.value) }
    {
        VariableConstraint::<V>::new(PrincipalOrResourceConstraint::is_entity_type(entity_type))
    }

    /// Returns the constraint `is entity_type in in_entity`. Does not allocate.
    pub fn is_entity_type_in(
        entity_type: Rc<EntityType>,
        in_entity: Rc<EntityUID>,
    ) -> VariableConstraint<V>
        ensures { result
            ≡ of_type_within (type_name entity_type.value) (to_uid (uid_parts in_entity.value)) }
    {
        let constraint = PrincipalOrResourceConstraint::is_entity_type_in(entity_type, in_entity);
        VariableConstraint::<V>::new(constraint)
    }

    /// Returns the constraint `is entity_type in slot`. Does not allocate.
    pub fn is_entity_type_in_slot(entity_type: Rc<EntityType>) -> VariableConstraint<V>
        ensures { result ≡ of_type_within (type_name entity_type.value) to_slot }
    {
        VariableConstraint::<V>::new(PrincipalOrResourceConstraint::is_entity_type_in_slot(
            entity_type,
        ))
    }

    /// Replaces the slot, if there is one, by the uid. A constraint without a slot is returned unchanged. The result
    /// has no slot, so a second call changes nothing. Does not allocate.
    #[tactic(auto, using(crate::proofs::Filled::holds_no_slot, crate::proofs::Filled::stays_filled))]
    pub fn with_filled_slot(self, euid: Rc<EntityUID>) -> VariableConstraint<V>
        ensures fills { result ≡ filled (uid_parts euid.value) self }
        ensures no_slot { has_slot result ≡ false }
        ensures again { (u : UidParts) → filled u result ≡ result }
    {
        VariableConstraint::<V>::new(self.constraint.with_filled_slot(euid))
    }
}

impl<V: ScopeVariable> fmt::Debug for VariableConstraint<V> {
    fn fmt<W: fmt::Write>(&self, f: &mut fmt::Formatter<W>) -> fmt::Result {
        f.debug_struct(V::NAME)
            .field("constraint", &self.constraint)
            .finish()
    }
}

impl<V: ScopeVariable> fmt::Display for VariableConstraint<V> {
    ghost output = { constraint_output V.variable };

    fn fmt<W: fmt::Write>(&self, f: &mut fmt::Formatter<W>) -> fmt::Result {
        self.constraint.write(V::variable(), f)
    }
}

impl<V: ScopeVariable> Clone for VariableConstraint<V> {
    ghost is_clone = { λ x y. y ≡ x };

    fn clone(&self) -> Result<VariableConstraint<V>, AllocError> {
        Ok(VariableConstraint::<V>::new(self.constraint.clone()?))
    }
}

impl<V: ScopeVariable> PartialEq for VariableConstraint<V> {
    ghost eq = { same_constraint };

    ghost laws = { partial_equiv_from_equiv same_constraint_equiv };

    fn eq(&self, other: &VariableConstraint<V>) -> bool {
        self.constraint == other.constraint
    }
}

impl<V: ScopeVariable> Eq for VariableConstraint<V> {
    ghost laws = { same_constraint_equiv };
}

impl<V: ScopeVariable> PartialOrd for VariableConstraint<V> {
    ghost partial_cmp = { as_partial_cmp constraint_cmp };

    ghost laws = { po constraint_cmp_total (λ x y. refl) };

    fn partial_cmp(&self, other: &VariableConstraint<V>) -> Option<Ordering> {
        Some(self.cmp(other))
    }
}

impl<V: ScopeVariable> Ord for VariableConstraint<V> {
    ghost cmp = { constraint_cmp };

    ghost total = { constraint_cmp_total };

    ghost matches_partial_cmp = { λ x y. refl };

    ghost matches_eq = { λ x y. refl };

    fn cmp(&self, other: &VariableConstraint<V>) -> Ordering {
        self.constraint.cmp(&other.constraint)
    }
}

impl<V: ScopeVariable> Hash for VariableConstraint<V> {
    ghost hash_input = { constraint_hash };

    ghost respects_eq = { constraint_hash_respects };

    fn hash<H: Hasher>(&self, state: &mut H) {
        self.constraint.hash(state);
    }
}
