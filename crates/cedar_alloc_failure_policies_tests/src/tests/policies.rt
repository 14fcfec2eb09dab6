// Tests of policies. A static policy is written as its body. A link is written as its template, a comma and the
// bindings.
ghost use Rattle.std.specs.Prelude.{◌≡◌, [], IfSome};
ghost use Rattle.cedar_terms.specs.Walk.{slots_of};

use super::bodies::has_id_and_text;
use super::cases::{made_on, under_another_id};
use super::parts::values;
use super::statics::unlinked;
use super::templates::shared;
use super::{annotations, id};
use cedar_alloc_failures::{
    CallOutcome, Calls, Row, both, check_failures, counted, is_worded, judged, made, on, refuse,
    same_copied, unmade, with,
};
use cedar_annotation::Annotations;
use cedar_ids::policy_id::PolicyID;
use cedar_policy::{Effect, Policy, Template};
use cedar_terms::expr::Expr;
use cedar_terms::literal::Literal;
use std::alloc::Global;
use std::hash::{BuildHasherDefault, FoldHasher};
use std::rc::Rc;

// Returns the link with this id of a template with these bindings.
pub(super) fn link(alloc: Global, name: &str, text: &str, bound: &str) -> Option<Policy> {
    let given = both(shared(alloc, text), values(alloc, bound));
    match both(id(alloc, name), given) {
        Some((id, (template, values))) => Template::link(alloc, template, id, values).ok(),
        None => None,
    }
}

fn policy(alloc: Global, text: &str) -> Option<Policy> {
    match text.split_once(", ") {
        Some((template, bound)) => link(alloc, "l", template, bound),
        None => match unlinked(alloc, text) {
            Some(policy) => Policy::from_static(alloc, policy).ok(),
            None => None,
        },
    }
}

struct OnPolicies;

const POLICIES: &str = "
    Policy::from_when_clause | w | permit( principal, action, resource ) when { true };
    Policy::from_when_clause_annos | w | @k(\"v\") permit( principal, action, resource ) when { true };
    - Policy::principal_constraint | a | principal
    Policy::principal_constraint | t principal, principal=x | principal == A::\"x\"
    - Policy::resource_constraint | a | resource
    Policy::resource_constraint | t resource, resource=x | resource in A::\"x\"
    - Policy::action_constraint | a action | action == Action::\"x\"
    Policy::action_constraint | t acting, action=Action.y | action in [Action::\"y\"]
    - Policy::action_constraint | a | action
    Policy::condition | t principal, principal=x | (principal == ?principal) && (true && (true && true))
    Policy::new_id | a noted; b | b: @k(\"v\") permit( principal, action, resource );
    Policy::new_id | t principal, principal=x; b | b: Template Instance of t, slots: [?principal -> A::\"x\"]
    - Policy::new_template_id | a; b | none
    Policy::new_template_id | t principal, principal=x; b | b
    Policy::unknown_entities | a unknown | 1
    Policy::unknown_entities | a clause | 0
    Policy::unknown_entities_with_hasher | a unknown | 1
    Policy::unknown_entities_with_hasher | a clause | 0
    Policy::clone | t principal, principal=x
    Policy::clone | a clause
";

// Returns the clause `true`, which contains no slot.
fn truth(alloc: Global) -> Option<Expr>
    ensures { IfSome result (λ e. slots_of e ≡ []) }
{
    Expr::val(alloc, Literal::Bool(true)).ok()
}

// Returns the same clause in an `Rc`.
fn counted_truth(alloc: Global) -> Option<Rc<Expr>>
    ensures { IfSome result (λ e. slots_of e.value ≡ []) }
{
    match truth(alloc) {
        Some(when) => Rc::new(alloc, when).ok(),
        None => None,
    }
}

fn of_clause(alloc: Global, number: usize, name: PolicyID, want: &str) -> CallOutcome {
    match truth(alloc) {
        Some(when) => {
            refuse(alloc, number);
            let answer = Policy::from_when_clause(alloc, Effect::Permit, when, name, None);
            made(alloc, answer, want)
        }
        None => {
            drop(name);
            unmade()
        }
    }
}

fn of_shared_clause(
    alloc: Global,
    number: usize,
    name: PolicyID,
    notes: Rc<Annotations>,
    want: &str,
) -> CallOutcome {
    match counted_truth(alloc) {
        Some(when) => {
            refuse(alloc, number);
            let answer = Policy::from_when_clause_annos(
                alloc,
                Effect::Permit,
                when,
                name,
                None,
                notes,
            );
            made(alloc, answer, want)
        }
        None => {
            drop(name);
            drop(notes);
            unmade()
        }
    }
}

fn from_clause(alloc: Global, number: usize, row: Row<'_>) -> CallOutcome {
    match id(alloc, row.given) {
        Some(name) => of_clause(alloc, number, name, row.want),
        None => unmade(),
    }
}

fn from_shared_clause(alloc: Global, number: usize, row: Row<'_>) -> CallOutcome {
    let notes = counted(alloc, annotations::annotations(alloc, "k=v"));
    match both(id(alloc, row.given), notes) {
        Some((name, notes)) => of_shared_clause(alloc, number, name, notes, row.want),
        None => unmade(),
    }
}

fn under_another_id(alloc: Global, number: usize, row: Row<'_>) -> CallOutcome {
    under_another_id!(
        alloc,
        number,
        row,
        policy,
        "; ",
        |policy, id| policy.new_id(alloc, id)
    )
}

// Returns whether the template of a link has this id, or there is no link.
fn has_template(alloc: Global, policy: &Option<Policy>, want: &str) -> bool {
    match policy {
        Some(policy) => is_worded(alloc, policy.template().id(), want),
        None => want == "none",
    }
}

fn under_another_template_id(alloc: Global, number: usize, row: Row<'_>) -> CallOutcome {
    let (text, name) = row.given.split_once("; ").unwrap_or((row.given, ""));
    with(
        alloc,
        number,
        both(id(alloc, name), policy(alloc, text)),
        |(name, policy)| {
            judged(
                alloc,
                policy.new_template_id(alloc, name),
                row.want,
                |policy| { has_template(alloc, policy, row.want) },
            )
        },
    )
}

impl Calls for OnPolicies {
    fn tried(&self, alloc: Global, number: usize, row: Row<'_>) -> CallOutcome {
        match row.call {
            "Policy::from_when_clause" => from_clause(alloc, number, row),
            "Policy::from_when_clause_annos" => from_shared_clause(alloc, number, row),
            "Policy::new_id" => under_another_id(alloc, number, row),
            "Policy::new_template_id" => under_another_template_id(alloc, number, row),
            "Policy::principal_constraint" => made_on!(
                alloc,
                number,
                row,
                policy,
                principal_constraint
            ),
            "Policy::resource_constraint" => made_on!(
                alloc,
                number,
                row,
                policy,
                resource_constraint
            ),
            "Policy::action_constraint" => made_on!(alloc, number, row, policy, action_constraint),
            "Policy::condition" => made_on!(alloc, number, row, policy, condition),
            "Policy::unknown_entities" => {
                on(alloc, number, policy(alloc, row.given), |policy| {
                    judged(alloc, policy.unknown_entities(alloc), row.want, |uids| {
                        is_worded(alloc, &uids.len(), row.want)
                    })
                })
            }
            "Policy::unknown_entities_with_hasher" => {
                on(alloc, number, policy(alloc, row.given), |policy| {
                    let hasher: BuildHasherDefault<FoldHasher> = BuildHasherDefault::new();
                    let uids = policy.unknown_entities_with_hasher(alloc, hasher);
                    judged(alloc, uids, row.want, |uids| {
                        is_worded(alloc, &uids.len(), row.want)
                    })
                })
            }
            "Policy::clone" => same_copied(alloc, number, policy(alloc, row.given)),
            _ => unmade(),
        }
    }
}

#[test]
fn each_call_on_policies(rt: HostRuntime) {
    assert!(rt; check_failures(rt, &OnPolicies, POLICIES));
}
