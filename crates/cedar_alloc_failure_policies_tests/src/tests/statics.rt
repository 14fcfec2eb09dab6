// Tests of static policies.
use super::bodies::has_id_and_text;
use super::cases::{of_parts, under_another_id};
use super::id;
use super::parts::{effect, parts, principal, resource};
use super::templates::{template, two};
use cedar_alloc_failures::{
    CallOutcome, Calls, Row, both, check_failures, is_worded, judged, made, on, same_copied,
    unmade, with,
};
use cedar_policy::{Policy, StaticPolicy, Template, UnexpectedSlotError};
use std::alloc::{AllocError, Global};

pub(super) fn unlinked(alloc: Global, text: &str) -> Option<StaticPolicy> {
    match parts(alloc, text) {
        Some(made) => of_parts!(StaticPolicy, alloc, text, made).ok(),
        None => None,
    }
}

pub(super) struct OnStatics;

const STATICS: &str = "
    StaticPolicy::new | a noted action | @k(\"v\") permit( principal, action == Action::\"x\", resource );
    StaticPolicy::new | a principal | ! found slot `?principal` where slots are not allowed
    StaticPolicy::new | a acting | ! found slot `?action` where slots are not allowed
    - StaticPolicy::try_from | a clause | permit( principal, action, resource ) when { true };
    - StaticPolicy::try_from | a resource | ! found slot `?resource` where slots are not allowed
    - StaticPolicy::new_id | a noted, b | b: @k(\"v\") permit( principal, action, resource );
    - StaticPolicy::principal_constraint_expr | a | true
    StaticPolicy::action_constraint_expr | a action | action == Action::\"x\"
    - StaticPolicy::resource_constraint_expr | a | true
    StaticPolicy::condition | a clause | true && (true && (true && true))
    StaticPolicy::clone | a noted action clause
    Policy::from_static | a clause | permit( principal, action, resource ) when { true };
    Template::link_static_policy | a noted | a
";

fn under_another_id(alloc: Global, number: usize, row: Row<'_>) -> CallOutcome {
    under_another_id!(
        alloc,
        number,
        row,
        unlinked,
        ", ",
        |policy, id| policy.new_id(id)
    )
}

fn linked(alloc: Global, number: usize, row: Row<'_>) -> CallOutcome {
    with(alloc, number, unlinked(alloc, row.given), |policy| {
        judged(
            alloc,
            Template::link_static_policy(alloc, policy),
            row.want,
            |(template, policy)| {
                is_worded(alloc, template.id(), row.want) && is_worded(alloc, policy.id(), row.want)
            },
        )
    })
}

impl Calls for OnStatics {
    fn tried(&self, alloc: Global, number: usize, row: Row<'_>) -> CallOutcome {
        match row.call {
            "StaticPolicy::new" => {
                with(alloc, number, parts(alloc, row.given), |parts| {
                    made(
                        alloc,
                        of_parts!(StaticPolicy, alloc, row.given, parts),
                        row.want,
                    )
                })
            }
            "StaticPolicy::try_from" => {
                with(alloc, number, template(alloc, row.given), |template| {
                    made(alloc, StaticPolicy::try_from(template), row.want)
                })
            }
            "StaticPolicy::new_id" => under_another_id(alloc, number, row),
            "StaticPolicy::clone" => same_copied(alloc, number, unlinked(alloc, row.given)),
            "Policy::from_static" => {
                with(alloc, number, unlinked(alloc, row.given), |policy| {
                    made(alloc, Policy::from_static(alloc, policy), row.want)
                })
            }
            "Template::link_static_policy" => linked(alloc, number, row),
            _ => expressions(alloc, number, row),
        }
    }
}

fn expressions(alloc: Global, number: usize, row: Row<'_>) -> CallOutcome {
    on(alloc, number, unlinked(alloc, row.given), |policy| {
        let answer = expression(alloc, policy, row.call);
        made(alloc, answer, row.want)
    })
}

// Returns the expression that a function returns for a policy.
fn expression(
    alloc: Global,
    policy: &StaticPolicy,
    call: &str,
) -> Result<cedar_terms::Expr, AllocError> {
    match call {
        "StaticPolicy::principal_constraint_expr" => policy.principal_constraint_expr(alloc),
        "StaticPolicy::action_constraint_expr" => policy.action_constraint_expr(alloc),
        "StaticPolicy::resource_constraint_expr" => policy.resource_constraint_expr(alloc),
        _ => policy.condition(alloc),
    }
}

#[test]
fn each_call_on_static_policies(rt: HostRuntime) {
    assert!(rt; check_failures(rt, &OnStatics, STATICS));
}
