// Policies as short texts: an id, followed by words.
//
// - `principal` and `resource`: the scope has the slot of that variable.
// - `acting`: the action constraint is `in ?action`; `acts`: it is `== ?action`.
// - `action` and `user`: the action is `Action::"x"` or `User::"x"`.
// - `forbid`: the policy forbids.
// - `noted`: the policy has the annotation `@k("v")`.
//
// The clause is one of these words: `clause` for `true`, `slot` for `?principal`, `resource_slot` and `action_slot` for
// the other slots, `foo` for `foo()`, and `unknown` for an unknown with a uid as its name.
use super::actions::action;
use super::annotations::annotations;
use super::id;
use cedar_action::ActionConstraint;
use cedar_alloc_failures::{both, owned};
use cedar_annotation::Annotations;
use cedar_ids::entity::EntityType;
use cedar_ids::name::Name;
use cedar_ids::policy_id::PolicyID;
use cedar_policy::{Effect, SlotEnv};
use cedar_scope::{PrincipalConstraint, ResourceConstraint};
use cedar_terms::expr::Expr;
use cedar_terms::literal::Literal;
use cedar_terms::slot::SlotId;
use cedar_terms::static_type::StaticType;
use cedar_terms::unknown::Unknown;
use std::alloc::Global;
use std::collections::HashMap;

pub(super) fn has(text: &str, word: &str) -> bool {
    text.split_whitespace().any(|other| other == word)
}

pub(super) fn effect(text: &str) -> Effect {
    if has(text, "forbid") {
        return Effect::Forbid;
    }
    Effect::Permit
}

pub(super) fn principal(text: &str) -> PrincipalConstraint {
    if has(text, "principal") {
        return PrincipalConstraint::is_eq_slot();
    }
    PrincipalConstraint::any()
}

pub(super) fn resource(text: &str) -> ResourceConstraint {
    if has(text, "resource") {
        return ResourceConstraint::is_in_slot();
    }
    ResourceConstraint::any()
}

fn action_of(alloc: Global, text: &str) -> Option<ActionConstraint> {
    if has(text, "action") {
        return action(alloc, "== Action.x");
    }
    if has(text, "user") {
        return action(alloc, "== User.x");
    }
    if has(text, "acting") {
        return action(alloc, "in ?");
    }
    if has(text, "acts") {
        return action(alloc, "== ?");
    }
    Some(ActionConstraint::any())
}

fn notes(alloc: Global, text: &str) -> Option<Annotations> {
    if has(text, "noted") {
        return annotations(alloc, "k=v");
    }
    Some(Annotations::new(alloc))
}

// Returns a call of the function `foo` without arguments.
fn call_of_foo(alloc: Global) -> Option<Expr> {
    match Name::from_normalized_str(alloc, "foo") {
        Ok(name) => Expr::call(alloc, name, Vec::new(alloc)).ok(),
        Err(_) => None,
    }
}

// Returns an unknown of type `A` with the name `A::"u"`.
fn unknown_of_uid(alloc: Global) -> Option<Expr> {
    let ty = EntityType::from_normalized_str(alloc, "A").ok();
    match both(owned(alloc, "A::\"u\""), ty) {
        Some((name, ty)) => {
            Expr::unknown(
                alloc,
                Unknown::new_with_type(name, StaticType::Entity { ty }),
            )
            .ok()
        }
        None => None,
    }
}

// Returns the negation of the uid `A::"x"`.
fn negated_uid(alloc: Global) -> Option<Expr> {
    match super::shared(alloc, "x") {
        Some(uid) => match Expr::val(alloc, Literal::EntityUID(uid)) {
            Ok(expr) => Expr::not(alloc, expr).ok(),
            Err(_) => None,
        },
        None => None,
    }
}

// Returns the clause for a word.
pub(super) fn clause_of(alloc: Global, word: &str) -> Option<Expr> {
    match word {
        "clause" => Expr::val(alloc, Literal::Bool(true)).ok(),
        "slot" => Expr::slot(alloc, SlotId::Principal).ok(),
        "resource_slot" => Expr::slot(alloc, SlotId::Resource).ok(),
        "action_slot" => Expr::slot(alloc, SlotId::Action).ok(),
        "foo" => call_of_foo(alloc),
        "unknown" => unknown_of_uid(alloc),
        "negated" => negated_uid(alloc),
        _ => None,
    }
}

// Wraps a value in a further `Some`, if it exists.
fn some<T>(made: Option<T>) -> Option<Option<T>> {
    match made {
        Some(thing) => Some(Some(thing)),
        None => None,
    }
}

fn clause(alloc: Global, text: &str) -> Option<Option<Expr>> {
    for word in &[
        "clause",
        "slot",
        "resource_slot",
        "action_slot",
        "foo",
        "unknown",
        "negated",
    ] {
        if has(text, word) {
            return some(clause_of(alloc, word));
        }
    }
    Some(None)
}

// The parts of a body that must be created: the id, the annotations, the action constraint and the clause.
pub(super) type Parts = ((PolicyID, Annotations), (ActionConstraint, Option<Expr>));

pub(super) fn parts(alloc: Global, text: &str) -> Option<Parts> {
    let (name, _) = text.split_once(' ').unwrap_or((text, ""));
    both(
        both(id(alloc, name), notes(alloc, text)),
        both(action_of(alloc, text), clause(alloc, text)),
    )
}

// Binds a slot. Returns whether that succeeded.
fn bind(alloc: Global, values: &mut SlotEnv, slot: SlotId, name: &str) -> bool {
    match super::uid(alloc, name) {
        Some(uid) => match values.insert(slot, uid) {
            Ok(former) => {
                drop(former);
                true
            }
            Err(_) => false,
        },
        None => false,
    }
}

// Returns the slot for a word.
pub(super) fn slot_of(word: &str) -> SlotId {
    match word {
        "principal" => SlotId::Principal,
        "action" => SlotId::Action,
        _ => SlotId::Resource,
    }
}

// Returns bindings, written `principal=x action=Action.y resource=z`.
pub(super) fn values(alloc: Global, text: &str) -> Option<SlotEnv> {
    let mut values = HashMap::new(alloc);
    for pair in text.split_whitespace() {
        let (slot, name) = pair.split_once('=').unwrap_or((pair, ""));
        if !bind(alloc, &mut values, slot_of(slot), name) {
            drop(values);
            return None;
        }
    }
    Some(values)
}
