//! Policies: templates with a uid for each of their slots.
ghost use Rattle.std.specs.Prelude.{◌≡◌, ◌↔◌, [], None, false, IfOk, IsTrue};
ghost use Rattle.std.specs.Option.{option_copied, option_map};
ghost use Rattle.std.specs.Cmp.{partial_equiv_from_equiv};
ghost use Rattle.cedar_terms.specs.Walk.{slots_of, unknowns_of};
ghost use Rattle.cedar_annotation.specs.Annotations.{value_at, KeysAscend};
ghost use Rattle.cedar_scope.specs.ScopeReads.{has_slot};
ghost use Rattle.cedar_action.specs.RuleReads.{rule_has_slot};
ghost use Rattle.cedar_action.specs.Views.{rule_of};
ghost use Rattle.cedar_binding.specs.Bindings.{BindsExactly, wrong_action};
ghost use Rattle.cedar_binding.specs.Views.{env_of};
ghost use Rattle.cedar_body.specs.Bodies.{condition, body_slots};
ghost use Rattle.cedar_policy.specs.Policies.{IsPolicy, policy_id, static_policy, unconstrained, with_policy_id};
ghost use Rattle.cedar_policy.specs.Policies.{with_template_id, principal_of, action_of, resource_of};
ghost use Rattle.cedar_policy.specs.PolicyEquality.{same_policy};
ghost use Rattle.cedar_policy.specs.PolicyTexts.{policy_output};
ghost use Rattle.cedar_policy.specs.Unknowns.{AreUnknownEntities};
ghost use Rattle.cedar_policy.specs.laws.PolicyLaws.{same_policy_equiv};

use crate::static_policy::StaticPolicy;
use crate::template::Template;
use crate::unknowns::are_entity_names;
use cedar_action::ActionConstraint;
use cedar_annotation::annotation::Iter;
use cedar_annotation::{Annotation, Annotations};
use cedar_binding::{
    BindingPairs, SlotEnv, bound_to, copy_of_bindings, no_bindings, same_bindings,
};
use cedar_body::Effect;
use cedar_ids::entity::EntityUID;
use cedar_ids::id::AnyId;
use cedar_ids::loc::Loc;
use cedar_ids::policy_id::PolicyID;
use cedar_scope::{PrincipalConstraint, ResourceConstraint};
use cedar_terms::expr::Expr;
use cedar_terms::slot::SlotId;
use std::alloc::{AllocError, Global};
use std::boxed::Box;
use std::collections::HashSet;
use std::fmt;
use std::hash::{BuildHasher, BuildHasherDefault};
use std::marker::Model;
use std::rc::Rc;

/// A policy: a shared template with a uid for each of its slots. It is either a link, with an id of its own, or a
/// static policy, whose template has no slots.
///
/// Equality uses the template, the link's id and the bindings. It ignores locations and does not allocate. `clone`
/// shares the template, and allocates for the policy's own block, the id and the bindings. Contracts see the same
/// parts, without locations.
///
/// `Display` writes a static policy as its template. It writes a link as the id of its template and its bindings, in
/// the order of slots. Writing does not allocate.
///
/// A policy is one pointer to a block of its own, so moving a policy is cheap.
#[derive(Drop)]
pub struct Policy {
    parts: Box<Parts>,
}

// The parts of a policy.
#[derive(Drop)]
struct Parts {
    template: Rc<Template>,
    link: Option<PolicyID>,
    values: SlotEnv,
}

impl Model for Policy {
    ghost use Rattle.cedar_binding.specs.Views.{env_of};
    ghost use Rattle.cedar_policy.specs.Codes.{policy_code};
    ghost use Rattle.cedar_policy.specs.Policies.{PolicyParts, IsPolicy};

    ghost Value = { PolicyParts };

    ghost coded = { policy_code };

    ghost view = { λ p. record {
      template = p.parts.value.template.value;
      link = p.parts.value.link;
      env = env_of p.parts.value.values;
    } };

    ghost invariant = { λ p. IsPolicy (record {
      template = p.parts.value.template.value;
      link = p.parts.value.link;
      env = env_of p.parts.value.values;
    }) };
}

impl Policy {
    // Creates a policy from its parts. Allocates its block.
    pub(crate) fn of(
        alloc: Global,
        template: Rc<Template>,
        link: Option<PolicyID>,
        values: SlotEnv,
    ) -> Result<Policy, AllocError>
        requires { IsPolicy (record { template = template.value; link = link; env = env_of values }) }
        ensures { IfOk result (λ p. p ≡ record { template = template.value; link = link; env = env_of values }) }
    {
        let parts = Box::new(
            alloc,
            Parts {
                template,
                link,
                values,
            },
        )?;
        Ok(Policy { parts })
    }

    // Creates the static policy of a template without slots. Allocates its block.
    pub(crate) fn unlinked(alloc: Global, template: Rc<Template>) -> Result<Policy, AllocError>
        requires { body_slots template.value ≡ [] }
        ensures { IfOk result (λ p. p ≡ static_policy template.value) }
    {
        Policy::of(alloc, template, None, no_bindings(alloc))
    }

    /// Creates a policy from a static policy. Its body is moved into a shared template.
    ///
    /// # Errors
    ///
    /// Returns `AllocError` if an allocation fails.
    ///
    /// # Differences from cedar-policy-core
    ///
    /// In the original this is a conversion by `From`.
    pub fn from_static(alloc: Global, policy: StaticPolicy) -> Result<Policy, AllocError>
        ensures { IfOk result (λ p. p ≡ static_policy policy) }
    {
        let template = Rc::new(alloc, Template::of_static(alloc, policy))?;
        Policy::unlinked(alloc, template)
    }

    /// Creates a static policy with this effect, clause and id. It has no annotations, and its scope constraints allow
    /// any request. The caller must ensure that the clause contains no slot.
    ///
    /// # Errors
    ///
    /// Returns `AllocError` if an allocation fails.
    ///
    /// # Complexity
    ///
    /// O(n), where n is the number of nodes of the clause. Allocates O(n).
    ///
    /// # Differences from cedar-policy-core
    ///
    /// In a debug build, the original checks the clause for slots and panics if it finds one.
    pub fn from_when_clause(
        alloc: Global,
        effect: Effect,
        when: Expr,
        id: PolicyID,
        loc: Option<Loc>,
    ) -> Result<Policy, AllocError>
        requires { slots_of when ≡ [] }
        ensures { IfOk result (λ p. p ≡ static_policy (unconstrained id [] effect when)) }
    {
        let when = Rc::new(alloc, when)?;
        let annotations = Rc::new(alloc, Annotations::new(alloc))?;
        Policy::from_when_clause_annos(alloc, effect, when, id, loc, annotations)
    }

    /// Creates a static policy with this effect, clause, id and annotations. Its scope constraints allow any request.
    /// The caller must ensure that the clause contains no slot.
    ///
    /// # Errors
    ///
    /// Returns `AllocError` if an allocation fails.
    ///
    /// # Complexity
    ///
    /// O(n), where n is the number of nodes of the clause. Allocates O(n).
    ///
    /// # Differences from cedar-policy-core
    ///
    /// In a debug build, the original checks the clause for slots and panics if it finds one.
    pub fn from_when_clause_annos(
        alloc: Global,
        effect: Effect,
        when: Rc<Expr>,
        id: PolicyID,
        loc: Option<Loc>,
        annotations: Rc<Annotations>,
    ) -> Result<Policy, AllocError>
        requires { slots_of when.value ≡ [] }
        ensures { IfOk result
            (λ p. p ≡ static_policy (unconstrained id annotations.value effect when.value)) }
    {
        let template = Template::new_shared(
            alloc,
            id,
            loc,
            annotations,
            effect,
            PrincipalConstraint::any(),
            ActionConstraint::any(),
            ResourceConstraint::any(),
            Some(when),
        )?;
        let template = Rc::new(alloc, template)?;
        Policy::unlinked(alloc, template)
    }

    /// Returns the template. Does not allocate.
    pub fn template(&self) -> &Template
        ensures { result.now ≡ self.now.template }
    {
        &self.parts.template
    }

    /// Returns the shared template. Does not allocate.
    ///
    /// # Differences from cedar-policy-core
    ///
    /// The original returns a further shared pointer, and this function is private to its crate.
    pub fn template_arc(&self) -> &Rc<Template>
        ensures { result.now.value ≡ self.now.template }
    {
        &self.parts.template
    }

    /// Returns the effect. Does not allocate.
    pub fn effect(&self) -> Effect
        ensures { result ≡ self.now.template.effect }
    {
        self.parts.template.effect()
    }

    /// Returns the annotation with this key, if there is one. Does not allocate.
    ///
    /// # Complexity
    ///
    /// O(log n), where n is the number of annotations.
    pub fn annotation(&self, key: &AnyId) -> Option<&Annotation>
        ensures { option_map (λ a. a.now) result ≡ value_at key.now self.now.template.annotations }
    {
        self.parts.template.annotation(key)
    }

    /// Iterates over the annotations with their keys, in ascending order of the keys. Does not allocate.
    pub fn annotations(&self) -> Iter<'_>
        ensures pairs { result ≡ self.now.template.annotations }
        ensures ascending { KeysAscend self.now.template.annotations }
    {
        self.parts.template.annotations()
    }

    /// Returns the shared annotations. Does not allocate.
    pub fn annotations_arc(&self) -> &Rc<Annotations>
        ensures { result.now.value ≡ self.now.template.annotations }
    {
        self.parts.template.annotations_arc()
    }

    /// Returns the template's constraint on the principal, with the bound uid in place of the slot. The result contains
    /// no slot. Copies the bound uid.
    ///
    /// # Errors
    ///
    /// Returns `AllocError` if an allocation fails.
    pub fn principal_constraint(&self, alloc: Global) -> Result<PrincipalConstraint, AllocError>
        ensures fills { IfOk result (λ c. c ≡ principal_of self.now) }
        ensures no_slot { IfOk result (λ c. has_slot c ≡ false) }
    {
        let constraint = self.parts.template.principal_constraint().clone()?;
        match bound_to(&self.parts.values, SlotId::Principal) {
            None => Ok(constraint),
            Some(uid) => Ok(constraint.with_filled_slot(Rc::new(alloc, uid.clone()?)?)),
        }
    }

    /// Returns the template's constraint on the action, with the bound uid in place of the slot. The result contains no
    /// slot. Copies a list of uids and the bound uid.
    ///
    /// # Errors
    ///
    /// Returns `AllocError` if an allocation fails.
    ///
    /// # Differences from cedar-policy-core
    ///
    /// The original has no slot for the action, and returns a reference.
    pub fn action_constraint(&self, alloc: Global) -> Result<ActionConstraint, AllocError>
        ensures fills { IfOk result (λ c. rule_of c ≡ action_of self.now) }
        ensures no_slot { IfOk result (λ c. rule_has_slot (rule_of c) ≡ false) }
    {
        let constraint = self.parts.template.action_constraint().clone()?;
        match bound_to(&self.parts.values, SlotId::Action) {
            None => Ok(constraint),
            Some(uid) => constraint.with_filled_slot(alloc, Rc::new(alloc, uid.clone()?)?),
        }
    }

    /// Returns the template's constraint on the resource, with the bound uid in place of the slot. The result contains
    /// no slot. Copies the bound uid.
    ///
    /// # Errors
    ///
    /// Returns `AllocError` if an allocation fails.
    pub fn resource_constraint(&self, alloc: Global) -> Result<ResourceConstraint, AllocError>
        ensures fills { IfOk result (λ c. c ≡ resource_of self.now) }
        ensures no_slot { IfOk result (λ c. has_slot c ≡ false) }
    {
        let constraint = self.parts.template.resource_constraint().clone()?;
        match bound_to(&self.parts.values, SlotId::Resource) {
            None => Ok(constraint),
            Some(uid) => Ok(constraint.with_filled_slot(Rc::new(alloc, uid.clone()?)?)),
        }
    }

    /// Returns the clause, if there is one. Does not allocate.
    pub fn non_scope_constraints(&self) -> Option<&Expr>
        ensures { option_copied result ≡ self.now.template.clause }
    {
        self.parts.template.non_scope_constraints()
    }

    /// Returns the shared clause, if there is one. Does not allocate.
    pub fn non_scope_constraints_arc(&self) -> Option<&Rc<Expr>>
        ensures { option_map (λ e. e.now.value) result ≡ self.now.template.clause }
    {
        self.parts.template.non_scope_constraints_arc()
    }

    /// Returns the condition of the template, with its slots unfilled, as `TemplateBody::condition` does.
    ///
    /// # Errors
    ///
    /// Returns `AllocError` if an allocation fails.
    pub fn condition(&self, alloc: Global) -> Result<Expr, AllocError>
        ensures { IfOk result (λ e. e ≡ condition self.now.template) }
    {
        self.parts.template.condition(alloc)
    }

    /// Returns the bindings. The bound ids are exactly the slots of the template. If the action's slot is bound, its
    /// uid is an action. Does not allocate.
    pub fn env(&self) -> &SlotEnv
        ensures value { env_of result.now ≡ self.now.env }
        ensures total { BindsExactly (body_slots self.now.template) self.now.env }
        ensures action { wrong_action self.now.env ≡ None }
    {
        &self.parts.values
    }

    /// Returns the id: the link's id, or the template's id for a static policy. Does not allocate.
    pub fn id(&self) -> &PolicyID
        ensures { result.now ≡ policy_id self.now }
    {
        match &self.parts.link {
            Some(link) => link,
            None => self.parts.template.id(),
        }
    }

    /// Copies the policy, with another id. A link gets the new id and shares its template. For a static policy, the
    /// template gets the new id. This policy does not change.
    ///
    /// # Errors
    ///
    /// Returns `AllocError` if an allocation fails.
    pub fn new_id(&self, alloc: Global, id: PolicyID) -> Result<Policy, AllocError>
        ensures { IfOk result (λ p. p ≡ with_policy_id id self.now) }
    {
        // No effect at run time: the contract of this call states that a policy without a link binds nothing.
        let _whole = self.is_static();
        match &self.parts.link {
            None => {
                let template = Rc::new(alloc, self.parts.template.new_id(id)?)?;
                Policy::unlinked(alloc, template)
            }
            Some(_) => {
                let template = self.parts.template.clone()?;
                let values = copy_of_bindings(&self.parts.values)?;
                Policy::of(alloc, template, Some(id), values)
            }
        }
    }

    /// Returns the same link, with another id for its template. Returns `None` for a static policy. The template is
    /// copied.
    ///
    /// # Errors
    ///
    /// Returns `AllocError` if an allocation fails.
    ///
    /// # Differences from cedar-policy-core
    ///
    /// In the original this function is private to its crate.
    pub fn new_template_id(self, alloc: Global, id: PolicyID) -> Result<Option<Policy>, AllocError>
        ensures { IfOk result (λ p. p ≡ with_template_id id self) }
    {
        let Policy { mut parts } = self;
        if parts.link.is_none() {
            return Ok(None);
        }
        parts.template = Rc::new(alloc, parts.template.new_id(id)?)?;
        Ok(Some(Policy { parts }))
    }

    /// Returns the template, the id of the link, if it is one, and the bindings. Does not allocate.
    ///
    /// # Differences from cedar-policy-core
    ///
    /// In the original this function is private to its crate.
    pub fn into_components(self) -> (Rc<Template>, Option<PolicyID>, SlotEnv)
        ensures { record { template = result.0.value; link = result.1; env = env_of result.2 } ≡ self }
    {
        let Policy { parts } = self;
        let Parts {
            template,
            link,
            values,
        } = Box::into_inner(parts);
        (template, link, values)
    }

    /// Returns the location of the whole template, if it is known. Does not allocate.
    pub fn loc(&self) -> Option<&Loc> {
        self.parts.template.loc()
    }

    /// Returns whether the policy is a static policy and not a link. The template of a static policy has no slots, and
    /// the policy has no bindings. Does not allocate.
    pub fn is_static(&self) -> bool
        ensures value { IsTrue result ↔ (self.now.link ≡ None) }
        ensures unlinked { self.now.link ≡ None → body_slots self.now.template ≡ [] }
        ensures whole { self.now.link ≡ None → self.now ≡ static_policy self.now.template }
    {
        // No effect at run time: this borrow makes the invariant of policies known to the proof.
        let _ = &self.parts;
        self.parts.link.is_none()
    }

    /// Returns the uids of the unknown entities in the condition, each once. An unknown counts if it has an entity type
    /// and its name can be parsed by `EntityUID::from_normalized_str`.
    ///
    /// The default hasher has a fixed seed. If untrusted parties choose the names, they can force collisions and slow
    /// this function down. Use [`Policy::unknown_entities_with_hasher`] with a randomly keyed builder in that case.
    ///
    /// # Errors
    ///
    /// Returns `AllocError` if an allocation fails.
    ///
    /// # Complexity
    ///
    /// Allocates the condition, the list of its nodes and the set.
    ///
    /// # Differences from cedar-policy-core
    ///
    /// The original parses the names with its parser, which accepts more than the printed form.
    pub fn unknown_entities(&self, alloc: Global) -> Result<HashSet<EntityUID>, AllocError>
        ensures { IfOk result
            (λ uids. AreUnknownEntities uids (unknowns_of (condition self.now.template))) }
    {
        self.unknown_entities_with_hasher(alloc, BuildHasherDefault::new())
    }

    /// Returns the uids of the unknown entities in the condition, as [`Policy::unknown_entities`] does. The set uses
    /// the given builder of hashers.
    ///
    /// # Errors
    ///
    /// Returns `AllocError` if an allocation fails.
    pub fn unknown_entities_with_hasher<S: BuildHasher + Drop>(
        &self,
        alloc: Global,
        hasher: S,
    ) -> Result<HashSet<EntityUID, S>, AllocError>
        ensures { IfOk result
            (λ uids. AreUnknownEntities uids (unknowns_of (condition self.now.template))) }
    {
        let condition = self.condition(alloc)?;
        let unknowns = condition.unknowns(alloc)?;
        are_entity_names(alloc, hasher, &unknowns)
    }
}

/// Replaces the template of a policy by a shared one, if the two are equal. The policy then has the locations of the
/// new template. Otherwise nothing changes. The merging of policy sets uses this function. Does not allocate.
pub fn share_template(policy: &mut Policy, template: Rc<Template>)
    ensures { policy.new ≡ policy.old }
{
    if is_template(&template, policy.template()) {
        policy.parts.template = template;
    } else {
        drop(template);
    }
}

// Returns whether two templates are equal.
fn is_template(template: &Template, other: &Template) -> bool
    ensures { IsTrue result → (template.now ≡ other.now) }
{
    template == other
}

impl Clone for Policy {
    ghost is_clone = { λ x y. y ≡ x };

    fn clone(&self) -> Result<Policy, AllocError> {
        let alloc = *Box::allocator(&self.parts);
        let template = self.parts.template.clone()?;
        if self.is_static() {
            return Policy::unlinked(alloc, template);
        }
        let link = self.parts.link.clone()?;
        let values = copy_of_bindings(&self.parts.values)?;
        Policy::of(alloc, template, link, values)
    }
}

impl PartialEq for Policy {
    ghost eq = { same_policy };

    ghost laws = { partial_equiv_from_equiv same_policy_equiv };

    fn eq(&self, other: &Policy) -> bool {
        let template: &Template = &self.parts.template;
        let others: &Template = &other.parts.template;
        template == others
            && self.parts.link == other.parts.link
            && same_bindings(&self.parts.values, &other.parts.values)
    }
}

impl Eq for Policy {
    ghost laws = { same_policy_equiv };
}

// Writes the parts as if they were fields of `Policy`.
impl fmt::Debug for Policy {
    fn fmt<W: fmt::Write>(&self, f: &mut fmt::Formatter<W>) -> fmt::Result {
        f.debug_struct("Policy")
            .field("template", &self.parts.template)
            .field("link", &self.parts.link)
            .field("values", &self.parts.values)
            .finish()
    }
}

impl fmt::Display for Policy {
    ghost output = { policy_output };

    fn fmt<W: fmt::Write>(&self, f: &mut fmt::Formatter<W>) -> fmt::Result {
        match &self.parts.link {
            None => self.parts.template.fmt(f),
            Some(_) => {
                let id = self.parts.template.id();
                let bindings = BindingPairs(&self.parts.values);
                write!(f, "Template Instance of {id}, slots: [{bindings}]")
            }
        }
    }
}
