// Tests of principal and resource constraints. They are written `any`, `in a`, `== a`, `is T` and `is T in a`, with `?`
// for the slot.
use super::{shared, shared_type, uid};
use cedar_alloc_failures::{
    CallOutcome, Calls, Row, both, check_failures, is_worded, judged, made, on, same_copied,
    unmade, with,
};
use cedar_scope::{
    EntityReference, PrincipalConstraint, PrincipalOrResource, PrincipalOrResourceConstraint,
    ResourceConstraint,
};
use cedar_terms::slot::SlotId;
use std::alloc::Global;

fn reference(alloc: Global, name: &str) -> Option<EntityReference> {
    if name == "?" {
        return Some(EntityReference::Slot(None));
    }
    match shared(alloc, name) {
        Some(uid) => Some(EntityReference::EUID(uid)),
        None => None,
    }
}

fn typed(alloc: Global, text: &str) -> Option<PrincipalOrResourceConstraint> {
    match text.split_once(" in ") {
        Some((ty, name)) => match both(shared_type(alloc, ty), reference(alloc, name)) {
            Some((ty, reference)) => Some(PrincipalOrResourceConstraint::IsIn(ty, reference)),
            None => None,
        },
        None => match shared_type(alloc, text) {
            Some(ty) => Some(PrincipalOrResourceConstraint::is_entity_type(ty)),
            None => None,
        },
    }
}

fn constraint(alloc: Global, text: &str) -> Option<PrincipalOrResourceConstraint> {
    let (word, rest) = text.split_once(' ').unwrap_or((text, ""));
    match word {
        "in" => match reference(alloc, rest) {
            Some(reference) => Some(PrincipalOrResourceConstraint::In(reference)),
            None => None,
        },
        "==" => match reference(alloc, rest) {
            Some(reference) => Some(PrincipalOrResourceConstraint::Eq(reference)),
            None => None,
        },
        "is" => typed(alloc, rest),
        _ => Some(PrincipalOrResourceConstraint::any()),
    }
}

pub(super) fn of_principal(alloc: Global, text: &str) -> Option<PrincipalConstraint> {
    match constraint(alloc, text) {
        Some(constraint) => Some(PrincipalConstraint::new(constraint)),
        None => None,
    }
}

pub(super) fn of_resource(alloc: Global, text: &str) -> Option<ResourceConstraint> {
    match constraint(alloc, text) {
        Some(constraint) => Some(ResourceConstraint::new(constraint)),
        None => None,
    }
}

pub(super) struct OnConstraints;

const CONSTRAINTS: &str = "
    EntityReference::from_uid | a | A::\"a\"
    - EntityReference::into_expr | a | A::\"a\"
    - EntityReference::into_expr | ? | ?principal
    - EntityReference::clone | a
    - EntityReference::clone | ?
    - PrincipalOrResourceConstraint::as_expr | any | true
    PrincipalOrResourceConstraint::as_expr | in a | resource in A::\"a\"
    PrincipalOrResourceConstraint::as_expr | == ? | resource == ?resource
    PrincipalOrResourceConstraint::as_expr | is T | resource is T
    PrincipalOrResourceConstraint::as_expr | is T in a | (resource is T) && (resource in A::\"a\")
    PrincipalOrResourceConstraint::display | any | resource
    PrincipalOrResourceConstraint::display | is T in a | resource is T in A::\"a\"
    - PrincipalOrResourceConstraint::clone | is T in a
    PrincipalConstraint::as_expr | == a | principal == A::\"a\"
    - PrincipalConstraint::clone | in a
    ResourceConstraint::as_expr | in ? | resource in ?resource
    - ResourceConstraint::clone | in a
";

// Returns whether a reference is the uid with this text.
fn is_uid(alloc: Global, reference: &EntityReference, want: &str) -> bool {
    match reference {
        EntityReference::EUID(uid) => is_worded(alloc, &**uid, want),
        EntityReference::Slot(_) => false,
    }
}

fn made_of_uid(alloc: Global, number: usize, row: Row<'_>) -> CallOutcome {
    with(alloc, number, uid(alloc, row.given), |uid| {
        judged(
            alloc,
            EntityReference::from_uid(alloc, uid),
            row.want,
            |reference| { is_uid(alloc, reference, row.want) },
        )
    })
}

impl Calls for OnConstraints {
    fn tried(&self, alloc: Global, number: usize, row: Row<'_>) -> CallOutcome {
        let resource = PrincipalOrResource::Resource;
        match row.call {
            "EntityReference::from_uid" => made_of_uid(alloc, number, row),
            "EntityReference::into_expr" => {
                on(alloc, number, reference(alloc, row.given), |reference| {
                    made(
                        alloc,
                        reference.into_expr(alloc, SlotId::Principal),
                        row.want,
                    )
                })
            }
            "PrincipalOrResourceConstraint::as_expr" => {
                on(alloc, number, constraint(alloc, row.given), |constraint| {
                    made(alloc, constraint.as_expr(alloc, resource), row.want)
                })
            }
            "PrincipalOrResourceConstraint::display" => {
                on(alloc, number, constraint(alloc, row.given), |constraint| {
                    made(alloc, constraint.display(alloc, resource), row.want)
                })
            }
            "PrincipalConstraint::as_expr" => {
                on(
                    alloc,
                    number,
                    of_principal(alloc, row.given),
                    |constraint| { made(alloc, constraint.as_expr(alloc), row.want) },
                )
            }
            "ResourceConstraint::as_expr" => {
                on(alloc, number, of_resource(alloc, row.given), |constraint| {
                    made(alloc, constraint.as_expr(alloc), row.want)
                })
            }
            _ => copies(alloc, number, row),
        }
    }
}

fn copies(alloc: Global, number: usize, row: Row<'_>) -> CallOutcome {
    match row.call {
        "EntityReference::clone" => same_copied(alloc, number, reference(alloc, row.given)),
        "PrincipalOrResourceConstraint::clone" => {
            same_copied(alloc, number, constraint(alloc, row.given))
        }
        "PrincipalConstraint::clone" => same_copied(alloc, number, of_principal(alloc, row.given)),
        "ResourceConstraint::clone" => same_copied(alloc, number, of_resource(alloc, row.given)),
        _ => unmade(),
    }
}

#[test]
fn each_call_on_constraints(rt: HostRuntime) {
    assert!(rt; check_failures(rt, &OnConstraints, CONSTRAINTS));
}
