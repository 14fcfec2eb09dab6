//! Templates: bodies with their slots.
ghost use Rattle.std.specs.Prelude.{◌≡◌, ◌↔◌, [], IfOk, IsTrue};
ghost use Rattle.std.specs.Option.{option_copied, option_map};
ghost use Rattle.std.specs.Cmp.{partial_equiv_from_equiv};
ghost use Rattle.cedar_annotation.specs.Annotations.{value_at, KeysAscend};
ghost use Rattle.cedar_action.specs.Views.{rule_of};
ghost use Rattle.cedar_binding.specs.Checks.{Binds};
ghost use Rattle.cedar_binding.specs.Views.{env_of};
ghost use Rattle.cedar_body.specs.Bodies.{condition, body_slots, with_id};
ghost use Rattle.cedar_body.specs.BodyEquality.{same_body, body_hash};
ghost use Rattle.cedar_body.specs.BodyTexts.{body_output};
ghost use Rattle.cedar_body.specs.Views.{body_of};
ghost use Rattle.cedar_body.specs.laws.BodyLaws.{same_body_equiv, body_hash_respects};
ghost use Rattle.cedar_policy.specs.Links.{Links, CreatesStaticPolicy};
ghost use Rattle.cedar_policy.specs.Policies.{static_policy};
ghost use Rattle.cedar_policy.specs.Validation.{Validated};

use crate::err::TemplateValidationError;
use crate::policy::Policy;
use crate::slots::{Slots, slots_in};
use crate::static_policy::StaticPolicy;
use crate::validate::check;
use cedar_action::ActionConstraint;
use cedar_annotation::annotation::Iter;
use cedar_annotation::{Annotation, Annotations};
use cedar_binding::{
    LinkingError, SlotEnv, check_bindings, copy_of_bindings, fitted_bindings, no_bindings,
};
use cedar_body::{Effect, TemplateBody};
use cedar_ids::id::AnyId;
use cedar_ids::loc::Loc;
use cedar_ids::policy_id::PolicyID;
use cedar_scope::{PrincipalConstraint, ResourceConstraint};
use cedar_terms::expr::Expr;
use cedar_terms::slot::Slot;
use std::alloc::{AllocError, Global};
use std::fmt;
use std::hash::{Hash, Hasher};
use std::marker::Model;
use std::rc::Rc;

/// A template: a body with the slots of its condition. A template without slots represents a static policy.
///
/// Equality and hash use the body. They ignore locations and do not allocate. `clone` copies the body and the list of
/// slots. `Display` writes the body and does not allocate. Contracts see the parts of the body, without locations.
#[derive(Debug, Drop)]
pub struct Template {
    pub(crate) body: TemplateBody,
    pub(crate) slots: Vec<Slot>,
}

impl Model for Template {
    ghost use Rattle.std.specs.Prelude.{◌≡◌};
    ghost use Rattle.cedar_body.specs.Bodies.{BodyParts, body_slots};
    ghost use Rattle.cedar_body.specs.Codes.{body_code};
    ghost use Rattle.cedar_body.specs.Views.{body_of};

    ghost Value = { BodyParts };

    ghost coded = { body_code };

    ghost view = { λ t. body_of t.body };

    ghost invariant = { λ t. t.slots.items ≡ body_slots (body_of t.body) };
}

impl Template {
    /// Creates a template from its parts.
    ///
    /// # Errors
    ///
    /// Returns `AllocError` if an allocation fails.
    ///
    /// # Complexity
    ///
    /// O(n), where n is the number of nodes of the clause. Allocates O(n), and shared blocks for the annotations and
    /// the clause.
    pub fn new(
        alloc: Global,
        id: PolicyID,
        loc: Option<Loc>,
        annotations: Annotations,
        effect: Effect,
        principal_constraint: PrincipalConstraint,
        action_constraint: ActionConstraint,
        resource_constraint: ResourceConstraint,
        non_scope_constraint: Option<Expr>,
    ) -> Result<Template, AllocError>
        ensures { IfOk result (λ t. t ≡ record {
          id = id;
          annotations = annotations;
          effect = effect;
          principal = principal_constraint;
          action = rule_of action_constraint;
          resource = resource_constraint;
          clause = non_scope_constraint;
        }) }
    {
        let body = TemplateBody::new(
            alloc,
            id,
            loc,
            annotations,
            effect,
            principal_constraint,
            action_constraint,
            resource_constraint,
            non_scope_constraint,
        )?;
        Template::from_body(alloc, body)
    }

    /// Creates a template from its parts, with annotations and clause that are already shared.
    ///
    /// # Errors
    ///
    /// Returns `AllocError` if an allocation fails.
    ///
    /// # Complexity
    ///
    /// As [`Template::from_body`].
    pub fn new_shared(
        alloc: Global,
        id: PolicyID,
        loc: Option<Loc>,
        annotations: Rc<Annotations>,
        effect: Effect,
        principal_constraint: PrincipalConstraint,
        action_constraint: ActionConstraint,
        resource_constraint: ResourceConstraint,
        non_scope_constraint: Option<Rc<Expr>>,
    ) -> Result<Template, AllocError>
        ensures { IfOk result (λ t. t ≡ record {
          id = id;
          annotations = annotations.value;
          effect = effect;
          principal = principal_constraint;
          action = rule_of action_constraint;
          resource = resource_constraint;
          clause = option_map (λ e. e.value) non_scope_constraint;
        }) }
    {
        let body = TemplateBody::new_shared(
            id,
            loc,
            annotations,
            effect,
            principal_constraint,
            action_constraint,
            resource_constraint,
            non_scope_constraint,
        );
        Template::from_body(alloc, body)
    }

    /// Creates the template of a body. The condition is not built.
    ///
    /// # Errors
    ///
    /// Returns `AllocError` if an allocation fails.
    ///
    /// # Complexity
    ///
    /// O(n), where n is the number of nodes of the clause. Allocates O(n). Does not allocate if there are no slots and
    /// no clause.
    ///
    /// # Differences from cedar-policy-core
    ///
    /// In the original this is a conversion by `From`.
    pub fn from_body(alloc: Global, body: TemplateBody) -> Result<Template, AllocError>
        ensures { IfOk result (λ t. t ≡ body_of body) }
    {
        let slots = slots_in(alloc, &body)?;
        Ok(Template { body, slots })
    }

    /// Does nothing. Every template has the slots of its condition, which is proved.
    ///
    /// # Differences from cedar-policy-core
    ///
    /// In a debug build, the original checks the slots and panics if they differ.
    pub fn check_invariant(&self) {}

    /// Returns the id. Does not allocate.
    pub fn id(&self) -> &PolicyID
        ensures { result.now ≡ self.now.id }
    {
        self.body.id()
    }

    /// Returns the location of the whole template, if it is known. Does not allocate.
    pub fn loc(&self) -> Option<&Loc> {
        self.body.loc()
    }

    /// Copies the template, with another id. This template does not change.
    ///
    /// # Errors
    ///
    /// Returns `AllocError` if an allocation fails.
    ///
    /// # Complexity
    ///
    /// Allocates as `clone` does, except for the id.
    pub fn new_id(&self, id: PolicyID) -> Result<Template, AllocError>
        ensures { IfOk result (λ t. t ≡ with_id id self.now) }
    {
        Ok(Template {
            body: self.body.new_id(id)?,
            slots: self.slots.clone()?,
        })
    }

    /// Returns the effect. Does not allocate.
    pub fn effect(&self) -> Effect
        ensures { result ≡ self.now.effect }
    {
        self.body.effect()
    }

    /// Returns the annotation with this key, if there is one. Does not allocate.
    ///
    /// # Complexity
    ///
    /// O(log n), where n is the number of annotations.
    pub fn annotation(&self, key: &AnyId) -> Option<&Annotation>
        ensures { option_map (λ a. a.now) result ≡ value_at key.now self.now.annotations }
    {
        self.body.annotation(key)
    }

    /// Iterates over the annotations with their keys, in ascending order of the keys. Does not allocate.
    pub fn annotations(&self) -> Iter<'_>
        ensures pairs { result ≡ self.now.annotations }
        ensures ascending { KeysAscend self.now.annotations }
    {
        self.body.annotations()
    }

    /// Returns the shared annotations. Does not allocate.
    pub fn annotations_arc(&self) -> &Rc<Annotations>
        ensures { result.now.value ≡ self.now.annotations }
    {
        self.body.annotations_arc()
    }

    /// Returns the constraint on the principal. Does not allocate.
    pub fn principal_constraint(&self) -> &PrincipalConstraint
        ensures { result.now ≡ self.now.principal }
    {
        self.body.principal_constraint()
    }

    /// Returns the constraint on the action. Does not allocate.
    pub fn action_constraint(&self) -> &ActionConstraint
        ensures { rule_of result.now ≡ self.now.action }
    {
        self.body.action_constraint()
    }

    /// Returns the constraint on the resource. Does not allocate.
    pub fn resource_constraint(&self) -> &ResourceConstraint
        ensures { result.now ≡ self.now.resource }
    {
        self.body.resource_constraint()
    }

    /// Returns the clause, if there is one. Does not allocate.
    pub fn non_scope_constraints(&self) -> Option<&Expr>
        ensures { option_copied result ≡ self.now.clause }
    {
        self.body.non_scope_constraints()
    }

    /// Returns the shared clause, if there is one. Does not allocate.
    pub fn non_scope_constraints_arc(&self) -> Option<&Rc<Expr>>
        ensures { option_map (λ e. e.now.value) result ≡ self.now.clause }
    {
        self.body.non_scope_constraints_arc()
    }

    /// Returns the condition, as `TemplateBody::condition` does.
    ///
    /// # Errors
    ///
    /// Returns `AllocError` if an allocation fails.
    pub fn condition(&self, alloc: Global) -> Result<Expr, AllocError>
        ensures { IfOk result (λ e. e ≡ condition self.now) }
    {
        self.body.condition(alloc)
    }

    /// Iterates over the slots of the condition, with repetitions. The slots of the clause come first, then the
    /// resource's, the action's and the principal's. Within the clause, a node comes before its children, and the
    /// children come from the last to the first. Does not allocate.
    pub fn slots(&self) -> Slots<'_>
        ensures { result ≡ body_slots self.now }
    {
        Slots::of(&self.slots)
    }

    /// Returns whether there are no slots, so that the template represents a static policy. Does not allocate.
    pub fn is_static(&self) -> bool
        ensures { IsTrue result ↔ (body_slots self.now ≡ []) }
    {
        self.slots.is_empty()
    }

    /// Checks that the bound slot ids are exactly the ids of the template's slots. If the action's slot is bound, its
    /// uid must be an action.
    ///
    /// # Errors
    ///
    /// - `ArityError`: the bound ids are not the ids of the slots. `unbound_values` has the slots that are not bound,
    ///   in their order and with repetitions. `extra_values` has the bound ids that are no slots, in the order of ids.
    /// - `NotAnAction`: the ids fit, but the action's slot is bound to this uid, which is not an action.
    /// - `Memory`: an allocation failed, which is possible only if the bindings do not fit.
    ///
    /// # Complexity
    ///
    /// Reads each slot a few times. Allocates only for the error.
    pub fn check_binding(
        alloc: Global,
        template: &Template,
        values: &SlotEnv,
    ) -> Result<(), LinkingError>
        ensures { Binds result (body_slots template.now) (env_of values.now) }
    {
        check_bindings(alloc, &template.slots, values)
    }

    /// Creates the link of this template with this id and these bindings. The map of the bindings is shrunk to fit.
    ///
    /// # Errors
    ///
    /// - `ArityError` or `NotAnAction`: as [`Template::check_binding`].
    /// - `Memory`: an allocation failed.
    ///
    /// After an error all arguments are dropped.
    pub fn link(
        alloc: Global,
        template: Rc<Template>,
        new_id: PolicyID,
        values: SlotEnv,
    ) -> Result<Policy, LinkingError>
        ensures { Links result template.value new_id (env_of values) }
    {
        Template::check_binding(alloc, &template, &values)?;
        let values = fitted_bindings(values);
        Ok(Policy::of(alloc, template, Some(new_id), values)?)
    }

    /// Creates the link of this template with this id and a copy of these bindings. The bindings are checked before
    /// they are copied. So a caller can reuse one map for many links.
    ///
    /// # Errors
    ///
    /// - `ArityError` or `NotAnAction`: as [`Template::check_binding`].
    /// - `Memory`: an allocation failed.
    ///
    /// # Differences from cedar-policy-core
    ///
    /// The original has no such function.
    pub fn link_copying(
        alloc: Global,
        template: Rc<Template>,
        new_id: PolicyID,
        values: &SlotEnv,
    ) -> Result<Policy, LinkingError>
        ensures { Links result template.value new_id (env_of values.now) }
    {
        Template::check_binding(alloc, &template, values)?;
        let values = copy_of_bindings(values)?;
        Ok(Policy::of(alloc, template, Some(new_id), values)?)
    }

    /// Creates the static policy of this template, if it has no slots.
    ///
    /// # Errors
    ///
    /// - `ArityError`: the template has slots. `unbound_values` has all of them.
    /// - `Memory`: an allocation failed.
    pub fn try_as_policy(alloc: Global, template: Rc<Template>) -> Result<Policy, LinkingError>
        ensures { CreatesStaticPolicy result template.value }
    {
        let nothing = no_bindings(alloc);
        Template::check_binding(alloc, &template, &nothing)?;
        Ok(Policy::unlinked(alloc, template)?)
    }

    /// Returns the template of a static policy, and the policy of that template. Both have the id of the static policy.
    ///
    /// # Errors
    ///
    /// Returns `AllocError` if an allocation fails.
    pub fn link_static_policy(
        alloc: Global,
        policy: StaticPolicy,
    ) -> Result<(Rc<Template>, Policy), AllocError>
        ensures template { IfOk result (λ r. r.0.value ≡ policy) }
        ensures policy { IfOk result (λ r. r.1 ≡ static_policy policy) }
    {
        let template = Rc::new(alloc, Template::of_static(alloc, policy))?;
        let policy = Policy::unlinked(alloc, template.clone()?)?;
        Ok((template, policy))
    }

    // Returns the template of a static policy.
    pub(crate) fn of_static(alloc: Global, policy: StaticPolicy) -> Template
        ensures value { result ≡ policy }
        ensures no_slot { body_slots policy ≡ [] }
    {
        let StaticPolicy { body } = policy;
        Template {
            body,
            slots: Vec::new(alloc),
        }
    }

    /// Returns the template itself, if it satisfies all rules of the parser.
    ///
    /// # Errors
    ///
    /// The first failed check in this order decides:
    ///
    /// - `SlotsInConditionClause`: the clause contains a slot. The error contains the first one.
    /// - `InvalidActionType`: some uids of the action constraint are not actions. The error contains all of them, in
    ///   the order of the list.
    /// - `InvalidExpression`: the clause calls an unknown function. The error contains the first one.
    /// - `Memory`: an allocation failed.
    ///
    /// `SlotCacheMismatch` is never returned. After an error the template is dropped.
    ///
    /// # Complexity
    ///
    /// O(n), where n is the number of nodes of the clause and of uids in the action constraint. Allocates O(n).
    pub fn try_validate(self, alloc: Global) -> Result<Template, TemplateValidationError>
        ensures { Validated result self }
    {
        match check(
            alloc,
            self.non_scope_constraints(),
            self.action_constraint(),
        ) {
            Ok(()) => Ok(self),
            Err(error) => Err(error),
        }
    }
}

impl From<Template> for TemplateBody {
    ghost from_gives = { λ t b. body_of b ≡ t };

    fn from(template: Template) -> TemplateBody {
        let Template {
            body,
            slots: _slots,
        } = template;
        body
    }
}

impl Clone for Template {
    ghost is_clone = { λ x y. y ≡ x };

    fn clone(&self) -> Result<Template, AllocError> {
        Ok(Template {
            body: self.body.clone()?,
            slots: self.slots.clone()?,
        })
    }
}

impl PartialEq for Template {
    ghost eq = { same_body };

    ghost laws = { partial_equiv_from_equiv same_body_equiv };

    fn eq(&self, other: &Template) -> bool {
        self.body == other.body
    }
}

impl Eq for Template {
    ghost laws = { same_body_equiv };
}

impl Hash for Template {
    ghost hash_input = { body_hash };

    ghost respects_eq = { body_hash_respects };

    fn hash<H: Hasher>(&self, state: &mut H) {
        self.body.hash(state);
    }
}

impl fmt::Display for Template {
    ghost output = { body_output };

    fn fmt<W: fmt::Write>(&self, f: &mut fmt::Formatter<W>) -> fmt::Result {
        self.body.fmt(f)
    }
}
