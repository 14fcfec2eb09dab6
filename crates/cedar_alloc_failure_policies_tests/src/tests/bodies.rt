// Tests of bodies.
use super::cases::{made_on, of_parts, under_another_id};
use super::id;
use super::parts::{effect, parts, principal, resource};
use cedar_alloc_failures::{
    CallOutcome, Calls, Row, both, check_failures, is_worded, judged, made, on, same_copied,
    unmade, with,
};
use cedar_body::{TemplateBody, TemplateBodyImpl};
use cedar_ids::policy_id::PolicyID;
use std::alloc::{AllocError, Global};
use std::fmt::Display;

pub(super) fn body(alloc: Global, text: &str) -> Option<TemplateBody> {
    match parts(alloc, text) {
        Some(made) => of_parts!(TemplateBody, alloc, text, made).ok(),
        None => None,
    }
}

fn inner(alloc: Global, text: &str) -> Option<TemplateBodyImpl> {
    match body(alloc, text) {
        Some(TemplateBody::TemplateBody(inner)) => Some(inner),
        None => None,
    }
}

struct OnBodies;

const BODIES: &str = "
    TemplateBody::new | a noted principal clause | @k(\"v\") permit( principal == ?principal, action, resource ) when { true };
    TemplateBody::new | a forbid | forbid( principal, action, resource );
    - TemplateBody::new_id | a noted clause, b | b: @k(\"v\") permit( principal, action, resource ) when { true };
    TemplateBody::principal_constraint_expr | a principal | principal == ?principal
    - TemplateBody::principal_constraint_expr | a | true
    TemplateBody::action_constraint_expr | a action | action == Action::\"x\"
    TemplateBody::resource_constraint_expr | a resource | resource in ?resource
    TemplateBody::condition | a principal clause | (principal == ?principal) && (true && (true && true))
    TemplateBody::clone | a noted action clause
    TemplateBodyImpl::clone | a noted action clause
";

fn new(alloc: Global, number: usize, row: Row<'_>) -> CallOutcome {
    with(alloc, number, parts(alloc, row.given), |parts| {
        made(
            alloc,
            of_parts!(TemplateBody, alloc, row.given, parts),
            row.want,
        )
    })
}

// Returns whether a value has the id before the colon, and is printed as the text after it.
pub(super) fn has_id_and_text<T: Display>(
    alloc: Global,
    id: &PolicyID,
    thing: &T,
    want: &str,
) -> bool {
    let (name, text) = want.split_once(": ").unwrap_or((want, ""));
    is_worded(alloc, id, name) && is_worded(alloc, thing, text)
}

fn under_another_id(alloc: Global, number: usize, row: Row<'_>) -> CallOutcome {
    under_another_id!(alloc, number, row, body, ", ", |body, id| body.new_id(id))
}

impl Calls for OnBodies {
    fn tried(&self, alloc: Global, number: usize, row: Row<'_>) -> CallOutcome {
        match row.call {
            "TemplateBody::new" => new(alloc, number, row),
            "TemplateBody::new_id" => under_another_id(alloc, number, row),
            "TemplateBody::principal_constraint_expr" => made_on!(
                alloc,
                number,
                row,
                body,
                principal_constraint_expr
            ),
            "TemplateBody::action_constraint_expr" => made_on!(
                alloc,
                number,
                row,
                body,
                action_constraint_expr
            ),
            "TemplateBody::resource_constraint_expr" => made_on!(
                alloc,
                number,
                row,
                body,
                resource_constraint_expr
            ),
            "TemplateBody::condition" => made_on!(alloc, number, row, body, condition),
            "TemplateBody::clone" => same_copied(alloc, number, body(alloc, row.given)),
            "TemplateBodyImpl::clone" => same_copied(alloc, number, inner(alloc, row.given)),
            _ => unmade(),
        }
    }
}

#[test]
fn each_call_on_bodies(rt: HostRuntime) {
    assert!(rt; check_failures(rt, &OnBodies, BODIES));
}
