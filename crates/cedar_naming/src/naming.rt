//! Searches for a uid in policies and templates.
ghost use Rattle.std.specs.Prelude.{◌≡◌, map, IfOk};
ghost use Rattle.std.specs.List.{filter, list_any};
ghost use Rattle.std.specs.Option.{option_copied, option_map};
ghost use Rattle.cedar_ids.specs.Uid.{uid_eq};
ghost use Rattle.cedar_ids.specs.UidOf.{uid_parts};
ghost use Rattle.cedar_terms.specs.ExprNodes.{expr_at};
ghost use Rattle.cedar_scope.specs.ScopeReads.{constraint_uid};
ghost use Rattle.cedar_scope.specs.Views.{constraint_of};
ghost use Rattle.cedar_action.specs.Views.{rule_of};
ghost use Rattle.cedar_binding.specs.Views.{env_of};
ghost use Rattle.cedar_policy_maps.specs.Lists.{slotted_in};
ghost use Rattle.cedar_naming.specs.Naming.{body_names as names_body, policy_names as names_policy};
ghost use Rattle.cedar_naming.specs.Naming.{clause_names as names_clause, env_names as names_env};
ghost use Rattle.cedar_naming.specs.Naming.{is_uid, is_uid_node as names_node, rule_names};

use cedar_action::action::ActionConstraint;
use cedar_binding::slot_env::{SlotEnv, bound_to};
use cedar_ids::entity::EntityUID;
use cedar_policy::policy::Policy;
use cedar_policy::template::Template;
use cedar_policy_set::policy_set::PolicySet;
use cedar_scope::constraint::PrincipalOrResourceConstraint;
use cedar_terms::literal::Literal;
use cedar_terms::slot::SlotId;
use cedar_terms::{Expr, ExprNode};
use std::alloc::{AllocError, Global};
use std::hash::BuildHasher;
use std::rc::Rc;

// Returns whether a constraint on the principal or the resource contains a uid.
fn constraint_names(constraint: &PrincipalOrResourceConstraint, uid: &EntityUID) -> bool
    ensures { result ≡ is_uid (uid_parts uid.now) (constraint_uid (constraint_of constraint.now)) }
{
    match constraint.get_euid() {
        Some(one) => **one == *uid,
        None => false,
    }
}

// Returns whether a list contains a uid.
fn is_listed(uids: &[Rc<EntityUID>], uid: &EntityUID) -> bool
    ensures { result ≡ list_any (λ u. uid_eq u (uid_parts uid.now)) (map (λ u. uid_parts u.value) uids.now) }
{
    for one in uids {
        if **one == *uid {
            return true;
        }
    }
    false
}

// Returns whether a constraint on the action contains a uid.
fn action_names(constraint: &ActionConstraint, uid: &EntityUID) -> bool
    ensures { result ≡ rule_names (uid_parts uid.now) (rule_of constraint.now) }
{
    match constraint {
        ActionConstraint::Any | ActionConstraint::InSlot(_) | ActionConstraint::EqSlot(_) => false,
        ActionConstraint::In(uids) => is_listed(uids, uid),
        ActionConstraint::Eq(one) => **one == *uid,
    }
}

// Returns whether a root node is a uid.
fn is_uid_at(node: ExprNode<'_>, uid: &EntityUID) -> bool
    ensures { result ≡ names_node (uid_parts uid.now) (expr_at node.entry) }
{
    match node {
        ExprNode::Val(Literal::EntityUID(one)) => **one == *uid,
        _ => false,
    }
}

// Returns whether an expression is a uid.
fn is_uid_node(expr: &Expr, uid: &EntityUID) -> bool
    ensures { result ≡ names_node (uid_parts uid.now) expr.now }
{
    is_uid_at(expr.node(), uid)
}

// Returns whether one of some expressions is a uid.
fn any_is_uid(exprs: &[&Expr], uid: &EntityUID) -> bool
    ensures { result ≡ list_any (names_node (uid_parts uid.now)) (map (λ e. e.now) exprs.now) }
{
    for expr in exprs {
        if is_uid_node(expr, uid) {
            return true;
        }
    }
    false
}

// Returns whether a clause contains a uid.
fn clause_names(alloc: Global, clause: Option<&Expr>, uid: &EntityUID) -> Result<bool, AllocError>
    ensures { IfOk result (λ b. b ≡ names_clause (uid_parts uid.now) (option_copied clause.entry)) }
{
    match clause {
        None => Ok(false),
        Some(expr) => {
            let nodes = expr.subexpressions(alloc)?;
            Ok(any_is_uid(&nodes, uid))
        }
    }
}

// Returns whether a uid is bound to a slot.
fn is_bound_to(values: &SlotEnv, slot: SlotId, uid: &EntityUID) -> bool
    ensures { result ≡ is_uid (uid_parts uid.now) (env_of values.now slot) }
{
    match bound_to(values, slot) {
        Some(one) => *one == *uid,
        None => false,
    }
}

// Returns whether a uid is bound to one of the slots.
fn env_names(values: &SlotEnv, uid: &EntityUID) -> bool
    ensures { result ≡ names_env (uid_parts uid.now) (env_of values.now) }
{
    is_bound_to(values, SlotId::Principal, uid)
        || is_bound_to(values, SlotId::Action, uid)
        || is_bound_to(values, SlotId::Resource, uid)
}

/// Returns whether a template names a uid: whether its constraints on principal, action and resource, or its clause,
/// contain the uid. Unknowns that represent an entity are not looked at; see [`Policy::unknown_entities`].
///
/// # Errors
///
/// Returns `AllocError` if an allocation fails.
///
/// # Complexity
///
/// O(n), where n is the number of nodes of the clause and of uids of the action constraint. Allocates a list of
/// references to the nodes of the clause, if no constraint contains the uid.
///
/// # Differences from cedar-policy-core
///
/// The original has no such function.
pub fn template_names(
    alloc: Global,
    template: &Template,
    uid: &EntityUID,
) -> Result<bool, AllocError>
    ensures { IfOk result (λ b. b ≡ names_body (uid_parts uid.now) template.now) }
{
    let in_scope = constraint_names(template.principal_constraint().as_inner(), uid)
        || action_names(template.action_constraint(), uid)
        || constraint_names(template.resource_constraint().as_inner(), uid);
    if in_scope {
        return Ok(true);
    }
    clause_names(alloc, template.non_scope_constraints(), uid)
}

/// Returns whether a policy names a uid: whether its bindings contain the uid, or its template names it. See
/// [`template_names`].
///
/// # Errors
///
/// Returns `AllocError` if an allocation fails.
///
/// # Complexity
///
/// As in [`template_names`].
///
/// # Differences from cedar-policy-core
///
/// The original has no such function.
pub fn policy_names(alloc: Global, policy: &Policy, uid: &EntityUID) -> Result<bool, AllocError>
    ensures { IfOk result (λ b. b ≡ names_policy (uid_parts uid.now) policy.now) }
{
    if env_names(policy.env(), uid) {
        return Ok(true);
    }
    template_names(alloc, policy.template(), uid)
}

/// Returns the policies of a set, static policies and links, that name a uid, in the order of the set. See
/// [`policy_names`].
///
/// # Errors
///
/// Returns `AllocError` if an allocation fails.
///
/// # Complexity
///
/// Visits each policy once, as in [`policy_names`]. Allocates the list.
///
/// # Differences from cedar-policy-core
///
/// The original has no such function.
pub fn policies_naming<'a, S: BuildHasher + Copy>(
    alloc: Global,
    set: &'a PolicySet<S>,
    uid: &EntityUID,
) -> Result<Vec<&'a Policy>, AllocError>
    ensures { IfOk result (λ v. map (λ p. p.now) v.items
        ≡ filter (names_policy (uid_parts uid.now)) set.now.policies) }
{
    let mut naming = Vec::new(alloc);
    for policy in set.policies() {
        if policy_names(alloc, policy, uid)? {
            naming.push(policy)?;
        }
    }
    Ok(naming)
}

/// Returns the templates of a set that name a uid, in the order of the set. See [`template_names`]. A template is listed
/// even if it has no links. A static policy is not a template.
///
/// # Errors
///
/// Returns `AllocError` if an allocation fails.
///
/// # Complexity
///
/// Visits each template once, as in [`template_names`]. Allocates the list.
///
/// # Differences from cedar-policy-core
///
/// The original has no such function.
pub fn templates_naming<'a, S: BuildHasher + Copy>(
    alloc: Global,
    set: &'a PolicySet<S>,
    uid: &EntityUID,
) -> Result<Vec<&'a Template>, AllocError>
    ensures { IfOk result (λ v. map (λ t. t.now) v.items
        ≡ filter (names_body (uid_parts uid.now)) (slotted_in set.now.bodies)) }
{
    let mut naming = Vec::new(alloc);
    for template in set.templates() {
        if template_names(alloc, template, uid)? {
            naming.push(template)?;
        }
    }
    Ok(naming)
}
