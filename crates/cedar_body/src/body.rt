//! The body of a policy or template: its parts, condition, equality and text.
ghost use Rattle.std.specs.Prelude.{◌≡◌, IfOk, fold, true};
ghost use Rattle.std.specs.Option.{option_copied, option_map};
ghost use Rattle.std.specs.Ordering.{on};
ghost use Rattle.std.specs.Fmt.{WritesOnOk};
ghost use Rattle.std.specs.Cmp.{partial_equiv_from_equiv, on_equiv};
ghost use Rattle.cedar_terms.specs.ExprTree.{and_node};
ghost use Rattle.cedar_annotation.specs.Annotations.{value_at, KeysAscend};
ghost use Rattle.cedar_action.specs.Views.{rule_of};
ghost use Rattle.cedar_body.specs.Bodies.{principal_expr, action_expr, resource_expr, clause_expr, condition, with_id};
ghost use Rattle.cedar_body.specs.BodyEquality.{same_clause, same_body, clause_hash, body_hash};
ghost use Rattle.cedar_body.specs.BodyTexts.{head_text, clause_text, is_ascii_head, is_ascii_clause, body_output};
ghost use Rattle.cedar_body.specs.Views.{body_of};
ghost use Rattle.cedar_body.specs.laws.BodyLaws.{same_body_equiv, body_hash_respects};

use crate::effect::Effect;
use cedar_action::ActionConstraint;
use cedar_annotation::annotation::Iter;
use cedar_annotation::{Annotation, Annotations};
use cedar_ids::id::AnyId;
use cedar_ids::loc::Loc;
use cedar_ids::policy_id::PolicyID;
use cedar_scope::{PrincipalConstraint, ResourceConstraint};
use cedar_terms::expr::Expr;
use cedar_terms::literal::Literal;
use std::alloc::{AllocError, Global};
use std::fmt;
use std::hash::{Hash, Hasher};
use std::marker::Model;
use std::rc::Rc;

/// The parts of a policy's or template's body: id, annotations, effect, three scope constraints, an optional clause and
/// an optional location.
///
/// Equality and hash use all parts except locations, and do not allocate. `clone` allocates for the id and for a list
/// of actions, and shares the rest. Contracts see all parts except locations.
#[derive(Debug, Drop)]
pub struct TemplateBodyImpl {
    id: PolicyID,
    loc: Option<Loc>,
    annotations: Rc<Annotations>,
    effect: Effect,
    principal_constraint: PrincipalConstraint,
    action_constraint: ActionConstraint,
    resource_constraint: ResourceConstraint,
    non_scope_constraints: Option<Rc<Expr>>,
}

impl Model for TemplateBodyImpl {
    ghost use Rattle.cedar_body.specs.Bodies.{BodyParts};
    ghost use Rattle.cedar_body.specs.Codes.{body_code};

    ghost Value = { BodyParts };

    ghost coded = { body_code };

    ghost use Rattle.std.specs.Option.{option_map};
    ghost use Rattle.cedar_action.specs.Views.{rule_of};

    ghost view = { λ b. record {
      id = b.id;
      annotations = b.annotations.value;
      effect = b.effect;
      principal = b.principal_constraint;
      action = rule_of b.action_constraint;
      resource = b.resource_constraint;
      clause = option_map (λ e. e.value) b.non_scope_constraints;
    } };
}

impl TemplateBodyImpl {
    // Copies the body, with another id.
    fn with_id(&self, id: PolicyID) -> Result<TemplateBodyImpl, AllocError>
        ensures { IfOk result (λ b. b ≡ with_id id self.now) }
    {
        Ok(TemplateBodyImpl {
            id,
            loc: self.loc.clone()?,
            annotations: self.annotations.clone()?,
            effect: self.effect,
            principal_constraint: self.principal_constraint.clone()?,
            action_constraint: self.action_constraint.clone()?,
            resource_constraint: self.resource_constraint.clone()?,
            non_scope_constraints: copied_clause(&self.non_scope_constraints)?,
        })
    }
}

// Shares the clause once more, if there is one.
fn copied_clause(clause: &Option<Rc<Expr>>) -> Result<Option<Rc<Expr>>, AllocError>
    ensures { IfOk result (λ c. option_map (λ e. e.value) c ≡ option_map (λ e. e.value) clause.now) }
{
    match clause {
        Some(clause) => Ok(Some(clause.clone()?)),
        None => Ok(None),
    }
}

impl Clone for TemplateBodyImpl {
    ghost is_clone = { λ x y. y ≡ x };

    fn clone(&self) -> Result<TemplateBodyImpl, AllocError> {
        self.with_id(self.id.clone()?)
    }
}

/// The body of a policy or template. The body of a static policy has no slots.
///
/// Equality and hash use the id, the annotations, the effect, the three constraints and the clause. They ignore
/// locations and do not allocate. `clone` allocates for the id and for a list of actions, and shares the rest.
/// Contracts see these parts without locations.
///
/// `Display` writes, in this order:
///
/// - the annotations, each on its own line;
/// - the effect and `(`;
/// - the three constraints, each on its own line, with commas between them;
/// - `)` on the next line;
/// - `;` if there is no clause, else ` when {`, the clause on its own line, and `};`.
///
/// Text that is not ASCII is written as by `str::escape_debug`. Writing does not allocate.
#[derive(Debug, Drop)]
pub enum TemplateBody {
    /// The body with these parts.
    TemplateBody(TemplateBodyImpl),
}

impl TemplateBody {
    /// Creates a body from its parts. Moves the annotations and the clause into shared pointers.
    ///
    /// # Errors
    ///
    /// Returns `AllocError` if an allocation fails.
    pub fn new(
        alloc: Global,
        id: PolicyID,
        loc: Option<Loc>,
        annotations: Annotations,
        effect: Effect,
        principal_constraint: PrincipalConstraint,
        action_constraint: ActionConstraint,
        resource_constraint: ResourceConstraint,
        non_scope_constraints: Option<Expr>,
    ) -> Result<TemplateBody, AllocError>
        ensures { IfOk result (λ b. body_of b ≡ record {
          id = id;
          annotations = annotations;
          effect = effect;
          principal = principal_constraint;
          action = rule_of action_constraint;
          resource = resource_constraint;
          clause = non_scope_constraints;
        }) }
    {
        let annotations = Rc::new(alloc, annotations)?;
        let non_scope_constraints = shared_clause(alloc, non_scope_constraints)?;
        Ok(TemplateBody::new_shared(
            id,
            loc,
            annotations,
            effect,
            principal_constraint,
            action_constraint,
            resource_constraint,
            non_scope_constraints,
        ))
    }

    /// Creates a body from its parts, with annotations and clause that are already shared. Does not allocate.
    pub fn new_shared(
        id: PolicyID,
        loc: Option<Loc>,
        annotations: Rc<Annotations>,
        effect: Effect,
        principal_constraint: PrincipalConstraint,
        action_constraint: ActionConstraint,
        resource_constraint: ResourceConstraint,
        non_scope_constraints: Option<Rc<Expr>>,
    ) -> TemplateBody
        ensures { body_of result ≡ record {
          id = id;
          annotations = annotations.value;
          effect = effect;
          principal = principal_constraint;
          action = rule_of action_constraint;
          resource = resource_constraint;
          clause = option_map (λ e. e.value) non_scope_constraints;
        } }
    {
        TemplateBody::TemplateBody(TemplateBodyImpl {
            id,
            loc,
            annotations,
            effect,
            principal_constraint,
            action_constraint,
            resource_constraint,
            non_scope_constraints,
        })
    }

    /// Returns the id. Does not allocate.
    pub fn id(&self) -> &PolicyID
        ensures { result.now ≡ (body_of self.now).id }
    {
        let TemplateBody::TemplateBody(body) = self;
        &body.id
    }

    /// Returns the location of the whole policy, if it is known. Does not allocate.
    pub fn loc(&self) -> Option<&Loc> {
        let TemplateBody::TemplateBody(body) = self;
        body.loc.as_ref()
    }

    /// Copies the body, with another id and the same location. This body does not change.
    ///
    /// # Errors
    ///
    /// Returns `AllocError` if an allocation fails.
    ///
    /// # Complexity
    ///
    /// Allocates as `clone` does, except for the id.
    pub fn new_id(&self, id: PolicyID) -> Result<TemplateBody, AllocError>
        ensures { IfOk result (λ b. body_of b ≡ with_id id (body_of self.now)) }
    {
        let TemplateBody::TemplateBody(body) = self;
        Ok(TemplateBody::TemplateBody(body.with_id(id)?))
    }

    /// Returns the effect. Does not allocate.
    pub fn effect(&self) -> Effect
        ensures { result ≡ (body_of self.now).effect }
    {
        let TemplateBody::TemplateBody(body) = self;
        body.effect
    }

    /// Returns the annotation with this key, if there is one. Does not allocate.
    ///
    /// # Complexity
    ///
    /// O(log n), where n is the number of annotations.
    pub fn annotation(&self, key: &AnyId) -> Option<&Annotation>
        ensures { option_map (λ a. a.now) result ≡ value_at key.now (body_of self.now).annotations }
    {
        let TemplateBody::TemplateBody(body) = self;
        body.annotations.get(key)
    }

    /// Iterates over the annotations with their keys, in ascending order of the keys. Does not allocate.
    pub fn annotations(&self) -> Iter<'_>
        ensures pairs { result ≡ (body_of self.now).annotations }
        ensures ascending { KeysAscend (body_of self.now).annotations }
    {
        let TemplateBody::TemplateBody(body) = self;
        body.annotations.iter()
    }

    /// Returns the shared annotations. Does not allocate.
    pub fn annotations_arc(&self) -> &Rc<Annotations>
        ensures { result.now.value ≡ (body_of self.now).annotations }
    {
        let TemplateBody::TemplateBody(body) = self;
        &body.annotations
    }

    /// Returns the constraint on the principal. Does not allocate.
    pub fn principal_constraint(&self) -> &PrincipalConstraint
        ensures { result.now ≡ (body_of self.now).principal }
    {
        let TemplateBody::TemplateBody(body) = self;
        &body.principal_constraint
    }

    /// Returns the constraint on the principal as an expression, as `PrincipalConstraint::as_expr` does.
    ///
    /// # Errors
    ///
    /// Returns `AllocError` if an allocation fails.
    pub fn principal_constraint_expr(&self, alloc: Global) -> Result<Expr, AllocError>
        ensures { IfOk result (λ e. e ≡ principal_expr (body_of self.now)) }
    {
        self.principal_constraint().as_expr(alloc)
    }

    /// Returns the constraint on the action. Does not allocate.
    pub fn action_constraint(&self) -> &ActionConstraint
        ensures { rule_of result.now ≡ (body_of self.now).action }
    {
        let TemplateBody::TemplateBody(body) = self;
        &body.action_constraint
    }

    /// Returns the constraint on the action as an expression, as `ActionConstraint::as_expr` does.
    ///
    /// # Errors
    ///
    /// Returns `AllocError` if an allocation fails.
    pub fn action_constraint_expr(&self, alloc: Global) -> Result<Expr, AllocError>
        ensures { IfOk result (λ e. e ≡ action_expr (body_of self.now)) }
    {
        self.action_constraint().as_expr(alloc)
    }

    /// Returns the constraint on the resource. Does not allocate.
    pub fn resource_constraint(&self) -> &ResourceConstraint
        ensures { result.now ≡ (body_of self.now).resource }
    {
        let TemplateBody::TemplateBody(body) = self;
        &body.resource_constraint
    }

    /// Returns the constraint on the resource as an expression, as `ResourceConstraint::as_expr` does.
    ///
    /// # Errors
    ///
    /// Returns `AllocError` if an allocation fails.
    pub fn resource_constraint_expr(&self, alloc: Global) -> Result<Expr, AllocError>
        ensures { IfOk result (λ e. e ≡ resource_expr (body_of self.now)) }
    {
        self.resource_constraint().as_expr(alloc)
    }

    /// Returns the clause, if there is one. Does not allocate.
    pub fn non_scope_constraints(&self) -> Option<&Expr>
        ensures { option_copied result ≡ (body_of self.now).clause }
    {
        match self.non_scope_constraints_arc() {
            Some(clause) => Some(&**clause),
            None => None,
        }
    }

    /// Returns the shared clause, if there is one. Does not allocate.
    pub fn non_scope_constraints_arc(&self) -> Option<&Rc<Expr>>
        ensures { option_map (λ e. e.now.value) result ≡ (body_of self.now).clause }
    {
        let TemplateBody::TemplateBody(body) = self;
        body.non_scope_constraints.as_ref()
    }

    /// Returns the condition as an expression: `principal && (action && (resource && clause))`. The first three
    /// operands are the constraints. A missing clause counts as `true`.
    ///
    /// The three `&&` nodes are always created, and have the location of the body. The node of a slot has the location
    /// of its reference.
    ///
    /// # Errors
    ///
    /// Returns `AllocError` if an allocation fails.
    ///
    /// # Complexity
    ///
    /// O(n), where n is the number of uids in the action constraint. Allocates the new nodes and shares the clause.
    pub fn condition(&self, alloc: Global) -> Result<Expr, AllocError>
        ensures { IfOk result (λ e. e ≡ condition (body_of self.now)) }
    {
        let rest = self.clause_expr(alloc)?;
        let rest = self.resource_and(alloc, rest)?;
        let rest = self.action_and(alloc, rest)?;
        self.principal_and(alloc, rest)
    }

    // Returns the principal's constraint `&&` the rest.
    fn principal_and(&self, alloc: Global, rest: Expr) -> Result<Expr, AllocError>
        ensures { IfOk result (λ e. e ≡ and_node (principal_expr (body_of self.now)) rest) }
    {
        let principal = self.principal_constraint_expr(alloc)?;
        self.both(alloc, principal, rest)
    }

    // Returns the action's constraint `&&` the rest.
    fn action_and(&self, alloc: Global, rest: Expr) -> Result<Expr, AllocError>
        ensures { IfOk result (λ e. e ≡ and_node (action_expr (body_of self.now)) rest) }
    {
        let action = self.action_constraint_expr(alloc)?;
        self.both(alloc, action, rest)
    }

    // Returns the resource's constraint `&&` the rest.
    fn resource_and(&self, alloc: Global, rest: Expr) -> Result<Expr, AllocError>
        ensures { IfOk result (λ e. e ≡ and_node (resource_expr (body_of self.now)) rest) }
    {
        let resource = self.resource_constraint_expr(alloc)?;
        self.both(alloc, resource, rest)
    }

    // Returns the clause, or `true` if there is none.
    fn clause_expr(&self, alloc: Global) -> Result<Expr, AllocError>
        ensures { IfOk result (λ e. e ≡ clause_expr (body_of self.now).clause) }
    {
        match self.non_scope_constraints() {
            Some(clause) => clause.clone(),
            None => Expr::val(alloc, Literal::Bool(true)),
        }
    }

    // Returns `left && right`, with the location of the body.
    fn both(&self, alloc: Global, left: Expr, right: Expr) -> Result<Expr, AllocError>
        ensures { IfOk result (λ e. e ≡ and_node left right) }
    {
        let both = Expr::and(alloc, left, right)?;
        let TemplateBody::TemplateBody(body) = self;
        Ok(both.with_maybe_source_loc(body.loc.clone()?))
    }
}

// Moves the clause into a shared allocation, if there is one.
fn shared_clause(alloc: Global, clause: Option<Expr>) -> Result<Option<Rc<Expr>>, AllocError>
    ensures { IfOk result (λ c. option_map (λ e. e.value) c ≡ clause) }
{
    match clause {
        Some(clause) => Ok(Some(Rc::new(alloc, clause)?)),
        None => Ok(None),
    }
}

impl Clone for TemplateBody {
    ghost is_clone = { λ x y. body_of y ≡ body_of x };

    fn clone(&self) -> Result<TemplateBody, AllocError> {
        let TemplateBody::TemplateBody(body) = self;
        Ok(TemplateBody::TemplateBody(body.clone()?))
    }
}

impl PartialEq for TemplateBodyImpl {
    ghost eq = { same_body };

    ghost laws = { partial_equiv_from_equiv same_body_equiv };

    fn eq(&self, other: &TemplateBodyImpl) -> bool {
        self.id == other.id
            && self.annotations == other.annotations
            && self.effect == other.effect
            && self.principal_constraint == other.principal_constraint
            && self.action_constraint == other.action_constraint
            && self.resource_constraint == other.resource_constraint
            && same_clause(&self.non_scope_constraints, &other.non_scope_constraints)
    }
}

// Returns whether both clauses are missing, or both are equal.
#[tactic(auto, using(crate::proofs::Clauses::clauses_told))]
fn same_clause(clause: &Option<Rc<Expr>>, other: &Option<Rc<Expr>>) -> bool
    ensures { result ≡ same_clause (option_map (λ e. e.value) clause.now) (option_map (λ e. e.value) other.now) }
{
    clause == other
}

impl Eq for TemplateBodyImpl {
    ghost laws = { same_body_equiv };
}

impl Hash for TemplateBodyImpl {
    ghost hash_input = { body_hash };

    ghost respects_eq = { body_hash_respects };

    fn hash<H: Hasher>(&self, state: &mut H) {
        self.id.hash(state);
        self.annotations.hash(state);
        self.effect.hash(state);
        self.principal_constraint.hash(state);
        self.action_constraint.hash(state);
        self.resource_constraint.hash(state);
        feed_clause(&self.non_scope_constraints, state);
    }
}

// Feeds whether there is a clause, and then the clause.
#[tactic(auto, using(crate::proofs::Clauses::clause_fed))]
fn feed_clause<H: Hasher>(clause: &Option<Rc<Expr>>, state: &mut H)
    ensures { state.new ≡ fold H.write state.old (clause_hash (option_map (λ e. e.value) clause.now)) }
{
    clause.hash(state);
}

impl PartialEq for TemplateBody {
    ghost eq = { on body_of same_body };

    ghost laws = { partial_equiv_from_equiv (on_equiv body_of same_body_equiv) };

    fn eq(&self, other: &TemplateBody) -> bool {
        let TemplateBody::TemplateBody(a) = self;
        let TemplateBody::TemplateBody(b) = other;
        a == b
    }
}

impl Eq for TemplateBody {
    ghost laws = { on_equiv body_of same_body_equiv };
}

impl Hash for TemplateBody {
    ghost hash_input = { λ b. body_hash (body_of b) };

    ghost respects_eq = { λ x y e. body_hash_respects (body_of x) (body_of y) e };

    fn hash<H: Hasher>(&self, state: &mut H) {
        let TemplateBody::TemplateBody(body) = self;
        body.hash(state);
    }
}

impl fmt::Display for TemplateBody {
    ghost output = { λ b. body_output (body_of b) };

    fn fmt<W: fmt::Write>(&self, f: &mut fmt::Formatter<W>) -> fmt::Result {
        let TemplateBody::TemplateBody(body) = self;
        let annotations: &Annotations = &body.annotations;
        write!(f, "{annotations}")?;
        body.write_head(f)?;
        write_clause(&body.non_scope_constraints, f)
    }
}

impl TemplateBodyImpl {
    // Writes the effect and the constraints.
    fn write_head<W: fmt::Write>(&self, f: &mut fmt::Formatter<W>) -> fmt::Result
        ensures { is_ascii_head self.now ≡ true
            → WritesOnOk W.write_str_gives f.old result (head_text self.now) f.new }
    {
        let effect = self.effect;
        let principal = &self.principal_constraint;
        let action = &self.action_constraint;
        let resource = &self.resource_constraint;
        write!(f, "{effect}(\n  {principal},\n  {action},\n  {resource}\n)")
    }
}

// Writes the text after the constraints: `;`, or the clause.
fn write_clause<W: fmt::Write>(clause: &Option<Rc<Expr>>, f: &mut fmt::Formatter<W>) -> fmt::Result
    ensures { is_ascii_clause (option_map (λ e. e.value) clause.now) ≡ true
        → WritesOnOk W.write_str_gives f.old result (clause_text (option_map (λ e. e.value) clause.now)) f.new }
{
    match clause {
        None => f.write_str(";"),
        Some(clause) => write!(f, " when {{\n  {clause}\n}};"),
    }
}
