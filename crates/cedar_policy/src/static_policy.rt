//! Static policies: bodies without slots.
ghost use Rattle.std.specs.Prelude.{◌≡◌, [], IfOk};
ghost use Rattle.std.specs.Option.{option_copied, option_map};
ghost use Rattle.std.specs.Cmp.{partial_equiv_from_equiv};
ghost use Rattle.cedar_terms.specs.Walk.{slots_of};
ghost use Rattle.cedar_annotation.specs.Annotations.{value_at, KeysAscend};
ghost use Rattle.cedar_action.specs.Views.{rule_of};
ghost use Rattle.cedar_body.specs.Bodies.{principal_expr, action_expr, resource_expr, condition, body_slots, with_id};
ghost use Rattle.cedar_body.specs.BodyEquality.{same_body, body_hash};
ghost use Rattle.cedar_body.specs.BodyTexts.{body_output};
ghost use Rattle.cedar_body.specs.Views.{body_of};
ghost use Rattle.cedar_body.specs.laws.BodyLaws.{same_body_equiv, body_hash_respects};
ghost use Rattle.cedar_policy.specs.Statics.{IsStaticOf, CreatesStaticBody};

use crate::err::UnexpectedSlotError;
use crate::template::Template;
use cedar_action::ActionConstraint;
use cedar_annotation::annotation::Iter;
use cedar_annotation::{Annotation, Annotations};
use cedar_body::{Effect, TemplateBody};
use cedar_ids::id::AnyId;
use cedar_ids::loc::Loc;
use cedar_ids::policy_id::PolicyID;
use cedar_scope::{PrincipalConstraint, ResourceConstraint};
use cedar_terms::expr::Expr;
use std::alloc::{AllocError, Global};
use std::fmt;
use std::hash::{Hash, Hasher};
use std::marker::Model;

/// A static policy: a body without slots.
///
/// Equality and hash use the body. They ignore locations and do not allocate. `clone` copies the body. `Display` writes
/// the body and does not allocate. Contracts see the parts of the body, without locations.
#[derive(Debug, Drop)]
pub struct StaticPolicy {
    pub(crate) body: TemplateBody,
}

impl Model for StaticPolicy {
    ghost use Rattle.std.specs.Prelude.{◌≡◌, []};
    ghost use Rattle.cedar_body.specs.Bodies.{BodyParts, body_slots};
    ghost use Rattle.cedar_body.specs.Codes.{body_code};
    ghost use Rattle.cedar_body.specs.Views.{body_of};

    ghost Value = { BodyParts };

    ghost coded = { body_code };

    ghost view = { λ s. body_of s.body };

    ghost invariant = { λ s. body_slots (body_of s.body) ≡ [] };
}

impl StaticPolicy {
    /// Creates a static policy from its parts.
    ///
    /// # Errors
    ///
    /// - `FoundSlot`: the parts contain a slot. The error contains the first one, in the order of [`Template::slots`].
    /// - `Memory`: an allocation failed.
    ///
    /// After an error the parts are dropped.
    ///
    /// # Complexity
    ///
    /// O(n), where n is the number of nodes of the clause. Allocates O(n).
    pub fn new(
        alloc: Global,
        id: PolicyID,
        loc: Option<Loc>,
        annotations: Annotations,
        effect: Effect,
        principal_constraint: PrincipalConstraint,
        action_constraint: ActionConstraint,
        resource_constraint: ResourceConstraint,
        non_scope_constraints: Option<Expr>,
    ) -> Result<StaticPolicy, UnexpectedSlotError>
        ensures { CreatesStaticBody result (record {
          id = id;
          annotations = annotations;
          effect = effect;
          principal = principal_constraint;
          action = rule_of action_constraint;
          resource = resource_constraint;
          clause = non_scope_constraints;
        }) }
    {
        let template = Template::new(
            alloc,
            id,
            loc,
            annotations,
            effect,
            principal_constraint,
            action_constraint,
            resource_constraint,
            non_scope_constraints,
        )?;
        StaticPolicy::try_from(template)
    }

    /// Returns the id. Does not allocate.
    pub fn id(&self) -> &PolicyID
        ensures value { result.now ≡ self.now.id }
        ensures no_slot { body_slots self.now ≡ [] }
    {
        self.body.id()
    }

    /// Returns the location of the whole policy, if it is known. Does not allocate.
    pub fn loc(&self) -> Option<&Loc> {
        self.body.loc()
    }

    /// Copies the policy, with another id. This policy does not change.
    ///
    /// # Errors
    ///
    /// Returns `AllocError` if an allocation fails.
    ///
    /// # Complexity
    ///
    /// Allocates as `clone` does, except for the id.
    pub fn new_id(&self, id: PolicyID) -> Result<StaticPolicy, AllocError>
        ensures { IfOk result (λ s. s ≡ with_id id self.now) }
    {
        Ok(StaticPolicy {
            body: self.body.new_id(id)?,
        })
    }

    /// Returns the effect. Does not allocate.
    pub fn effect(&self) -> Effect
        ensures { result ≡ self.now.effect }
    {
        self.body.effect()
    }

    /// Returns the annotation with this key, if there is one. Does not allocate.
    ///
    /// # Complexity
    ///
    /// O(log n), where n is the number of annotations.
    pub fn annotation(&self, key: &AnyId) -> Option<&Annotation>
        ensures { option_map (λ a. a.now) result ≡ value_at key.now self.now.annotations }
    {
        self.body.annotation(key)
    }

    /// Iterates over the annotations with their keys, in ascending order of the keys. Does not allocate.
    pub fn annotations(&self) -> Iter<'_>
        ensures pairs { result ≡ self.now.annotations }
        ensures ascending { KeysAscend self.now.annotations }
    {
        self.body.annotations()
    }

    /// Returns the constraint on the principal. Does not allocate.
    pub fn principal_constraint(&self) -> &PrincipalConstraint
        ensures { result.now ≡ self.now.principal }
    {
        self.body.principal_constraint()
    }

    /// Returns the constraint on the principal as an expression, as `PrincipalConstraint::as_expr` does.
    ///
    /// # Errors
    ///
    /// Returns `AllocError` if an allocation fails.
    pub fn principal_constraint_expr(&self, alloc: Global) -> Result<Expr, AllocError>
        ensures { IfOk result (λ e. e ≡ principal_expr self.now) }
    {
        self.body.principal_constraint_expr(alloc)
    }

    /// Returns the constraint on the action. Does not allocate.
    pub fn action_constraint(&self) -> &ActionConstraint
        ensures { rule_of result.now ≡ self.now.action }
    {
        self.body.action_constraint()
    }

    /// Returns the constraint on the action as an expression, as `ActionConstraint::as_expr` does.
    ///
    /// # Errors
    ///
    /// Returns `AllocError` if an allocation fails.
    pub fn action_constraint_expr(&self, alloc: Global) -> Result<Expr, AllocError>
        ensures { IfOk result (λ e. e ≡ action_expr self.now) }
    {
        self.body.action_constraint_expr(alloc)
    }

    /// Returns the constraint on the resource. Does not allocate.
    pub fn resource_constraint(&self) -> &ResourceConstraint
        ensures { result.now ≡ self.now.resource }
    {
        self.body.resource_constraint()
    }

    /// Returns the constraint on the resource as an expression, as `ResourceConstraint::as_expr` does.
    ///
    /// # Errors
    ///
    /// Returns `AllocError` if an allocation fails.
    pub fn resource_constraint_expr(&self, alloc: Global) -> Result<Expr, AllocError>
        ensures { IfOk result (λ e. e ≡ resource_expr self.now) }
    {
        self.body.resource_constraint_expr(alloc)
    }

    /// Returns the clause, if there is one. Does not allocate.
    pub fn non_scope_constraints(&self) -> Option<&Expr>
        ensures { option_copied result ≡ self.now.clause }
    {
        self.body.non_scope_constraints()
    }

    /// Returns the condition, as `TemplateBody::condition` does. The condition contains no slot.
    ///
    /// # Errors
    ///
    /// Returns `AllocError` if an allocation fails.
    pub fn condition(&self, alloc: Global) -> Result<Expr, AllocError>
        ensures value { IfOk result (λ e. e ≡ condition self.now) }
        ensures no_slot { IfOk result (λ e. slots_of e ≡ []) }
    {
        self.body.condition(alloc)
    }
}

/// Converts a template without slots. If it has slots, the error contains the first one. Does not allocate, so the
/// error is never `Memory`.
impl TryFrom<Template> for StaticPolicy {
    type Error = UnexpectedSlotError;

    ghost try_from_gives = { λ t r. IsStaticOf r t };

    fn try_from(template: Template) -> Result<StaticPolicy, UnexpectedSlotError> {
        let Template { body, slots } = template;
        match slots.into_iter().next() {
            Some(slot) => Err(UnexpectedSlotError::FoundSlot(slot)),
            None => Ok(StaticPolicy { body }),
        }
    }
}

impl From<StaticPolicy> for TemplateBody {
    ghost from_gives = { λ s b. (body_of b ≡ s) × (body_slots s ≡ []) };

    fn from(policy: StaticPolicy) -> TemplateBody {
        let StaticPolicy { body } = policy;
        body
    }
}

impl Clone for StaticPolicy {
    ghost is_clone = { λ x y. y ≡ x };

    fn clone(&self) -> Result<StaticPolicy, AllocError> {
        Ok(StaticPolicy {
            body: self.body.clone()?,
        })
    }
}

impl PartialEq for StaticPolicy {
    ghost eq = { same_body };

    ghost laws = { partial_equiv_from_equiv same_body_equiv };

    fn eq(&self, other: &StaticPolicy) -> bool {
        self.body == other.body
    }
}

impl Eq for StaticPolicy {
    ghost laws = { same_body_equiv };
}

impl Hash for StaticPolicy {
    ghost hash_input = { body_hash };

    ghost respects_eq = { body_hash_respects };

    fn hash<H: Hasher>(&self, state: &mut H) {
        self.body.hash(state);
    }
}

impl fmt::Display for StaticPolicy {
    ghost output = { body_output };

    fn fmt<W: fmt::Write>(&self, f: &mut fmt::Formatter<W>) -> fmt::Result {
        self.body.fmt(f)
    }
}
