// Tests of action constraints. They are written `any`, `in a b`, `== a`, and `in ?` or `== ?` with the slot.
use super::{shared, uid};
use cedar_action::iters::ActionTypeNames;
use cedar_action::{ActionConstraint, EntityIterator};
use cedar_alloc_failures::{
    Answer, CallOutcome, Calls, Row, ample_if, are_worded, both, check_failures, is_worded, judged,
    made, on, same_copied, stop_failing, unmade, with, with_last,
};
use cedar_ids::entity::EntityUID;
use std::alloc::Global;

fn uids(alloc: Global, names: &str) -> Option<Vec<EntityUID>> {
    let mut all = Some(Vec::new(alloc));
    for name in names.split_whitespace() {
        all = with_last(all, uid(alloc, name));
    }
    all
}

pub(super) fn action(alloc: Global, text: &str) -> Option<ActionConstraint> {
    let (word, rest) = text.split_once(' ').unwrap_or((text, ""));
    match word {
        "in" if rest == "?" => Some(ActionConstraint::is_in_slot()),
        "==" if rest == "?" => Some(ActionConstraint::is_eq_slot()),
        "in" => match uids(alloc, rest) {
            Some(uids) => ActionConstraint::is_in(alloc, uids).ok(),
            None => None,
        },
        "==" => match uid(alloc, rest) {
            Some(uid) => ActionConstraint::is_eq(alloc, uid).ok(),
            None => None,
        },
        _ => Some(ActionConstraint::any()),
    }
}

// Returns whether the remaining uids of an iterator are these, in this order.
fn are_uids(alloc: Global, uids: &EntityIterator<'_>, want: &str) -> bool {
    match uids {
        EntityIterator::None => want == "none",
        EntityIterator::One(uid) => is_worded(alloc, *uid, want),
        EntityIterator::Bunch(all) => are_worded(alloc, all.as_slice(), want),
    }
}

// Returns whether an iterator returns these type names, in order.
fn are_types(alloc: Global, names: ActionTypeNames<'_>, want: &str) -> bool {
    let mut due = want.split_whitespace();
    for name in names {
        match due.next() {
            Some(word) if is_worded(alloc, name, word) => {}
            _ => return false,
        }
    }
    due.next().is_none()
}

// Runs the iterator over the types in a constraint.
fn types_named(alloc: Global, number: usize, row: Row<'_>) -> CallOutcome {
    on(alloc, number, action(alloc, row.given), |action| {
        let answer = action.iter_entity_type_names(alloc);
        let refused = stop_failing(alloc);
        let answer = match answer {
            Ok(names) => ample_if(are_types(alloc, names, row.want)),
            Err(_) => Answer::Memory,
        };
        CallOutcome { answer, refused }
    })
}

pub(super) struct OnActions;

const ACTIONS: &str = "
    ActionConstraint::is_in | Action.a Action.b | action in [Action::\"a\",Action::\"b\"]
    ActionConstraint::is_eq | Action.a | action == Action::\"a\"
    - ActionConstraint::as_expr | any | true
    ActionConstraint::as_expr | in Action.a Action.b | action in [Action::\"a\", Action::\"b\"]
    ActionConstraint::as_expr | == a | action == A::\"a\"
    ActionConstraint::as_expr | in ? | action in ?action
    ActionConstraint::as_expr | == ? | action == ?action
    ActionConstraint::with_filled_slot | in ?, Action.x | action in [Action::\"x\"]
    - ActionConstraint::with_filled_slot | == ?, Action.x | action == Action::\"x\"
    - ActionConstraint::with_filled_slot | in a b, Action.x | action in [A::\"a\",A::\"b\"]
    - ActionConstraint::iter_euids | any | none
    - ActionConstraint::iter_euids | in ? | none
    ActionConstraint::iter_euids | in a b | A::\"a\" ; A::\"b\" ;
    - ActionConstraint::iter_euids | == a | A::\"a\"
    ActionConstraint::iter_entity_type_names | in a B.b | B A
    - ActionConstraint::check_action_types | == Action.a | ok
    - ActionConstraint::check_action_types | in Action.a Action.b | ok
    - ActionConstraint::check_action_types | == b | ! the action constraint holds uids that are not actions: A::\"b\"
    ActionConstraint::check_action_types | in Action.a b c | ! the action constraint holds uids that are not actions: A::\"b\",A::\"c\"
    - ActionConstraint::contains_only_action_types | == Action.a | action == Action::\"a\"
    ActionConstraint::contains_only_action_types | in b c Action.a | ! the action constraint holds uids that are not actions: A::\"b\",A::\"c\"
    ActionConstraint::clone | in a b
    - ActionConstraint::clone | == a
    - ActionConstraint::clone | in ?
    - ActionConstraint::clone | == ?
";

impl Calls for OnActions {
    fn tried(&self, alloc: Global, number: usize, row: Row<'_>) -> CallOutcome {
        let want = row.want;
        match row.call {
            "ActionConstraint::is_in" => {
                with(alloc, number, uids(alloc, row.given), |uids| {
                    made(alloc, ActionConstraint::is_in(alloc, uids), want)
                })
            }
            "ActionConstraint::is_eq" => {
                with(alloc, number, uid(alloc, row.given), |uid| {
                    made(alloc, ActionConstraint::is_eq(alloc, uid), want)
                })
            }
            "ActionConstraint::as_expr" => {
                on(alloc, number, action(alloc, row.given), |action| {
                    made(alloc, action.as_expr(alloc), want)
                })
            }
            "ActionConstraint::iter_euids" => {
                on(alloc, number, action(alloc, row.given), |action| {
                    judged(
                        alloc,
                        action.iter_euids(alloc),
                        want,
                        |uids| are_uids(alloc, uids, want),
                    )
                })
            }
            "ActionConstraint::iter_entity_type_names" => types_named(alloc, number, row),
            _ => checks(alloc, number, row),
        }
    }
}

fn checks(alloc: Global, number: usize, row: Row<'_>) -> CallOutcome {
    let want = row.want;
    match row.call {
        "ActionConstraint::check_action_types" => {
            on(alloc, number, action(alloc, row.given), |action| {
                judged(
                    alloc,
                    action.check_action_types(alloc),
                    want,
                    |_| want == "ok",
                )
            })
        }
        "ActionConstraint::contains_only_action_types" => {
            with(alloc, number, action(alloc, row.given), |action| {
                made(alloc, action.contains_only_action_types(alloc), want)
            })
        }
        "ActionConstraint::with_filled_slot" => filled(alloc, number, row),
        "ActionConstraint::clone" => same_copied(alloc, number, action(alloc, row.given)),
        _ => unmade(),
    }
}

fn filled(alloc: Global, number: usize, row: Row<'_>) -> CallOutcome {
    let (text, name) = row.given.split_once(", ").unwrap_or((row.given, ""));
    with(
        alloc,
        number,
        both(action(alloc, text), shared(alloc, name)),
        |(action, uid)| made(alloc, action.with_filled_slot(alloc, uid), row.want),
    )
}

#[test]
fn each_call_on_actions(rt: HostRuntime) {
    assert!(rt; check_failures(rt, &OnActions, ACTIONS));
}
