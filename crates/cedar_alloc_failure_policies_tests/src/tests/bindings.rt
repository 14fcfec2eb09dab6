// Tests of bindings, and of the errors of linking.
use super::parts::{slot_of, values};
use super::{id, uid};
use cedar_alloc_failures::{
    CallOutcome, Calls, Row, both, check_failures, copied, judged, on, unmade, with_last,
};
use cedar_binding::{LinkingError, SlotEnv, check_bindings, copy_of_bindings, same_bindings};
use cedar_terms::slot::{Slot, SlotId};
use std::alloc::Global;

fn slots(alloc: Global, words: &str) -> Option<Vec<Slot>> {
    let mut all = Some(Vec::new(alloc));
    for word in words.split_whitespace() {
        let slot = Slot {
            id: slot_of(word),
            loc: None,
        };
        all = with_last(all, Some(slot));
    }
    all
}

fn given(alloc: Global, text: &str) -> Option<(Vec<Slot>, SlotEnv)> {
    let (words, bound) = text.split_once(',').unwrap_or((text, ""));
    both(slots(alloc, words), values(alloc, bound))
}

pub(super) struct OnBindings;

const BINDINGS: &str = "
    - check_bindings | principal resource, principal=x resource=y | ok
    check_bindings | principal resource, principal=x | ! the following slots were not provided as arguments: ?resource
    check_bindings | principal, principal=x resource=y | ! the following slots were provided as arguments, but did not exist in the template: ?resource
    - check_bindings | action, action=Action.x | ok
    check_bindings | action, action=x | ! the action slot is bound to `A::\"x\"`, which is not an action
    copy_of_bindings | principal=x resource=y
    - copy_of_bindings
    LinkingError::clone | slots | the following slots were not provided as arguments: ?principal
    LinkingError::clone | t | failed to find a template with id `t`
    LinkingError::clone | taken l | template-linked policy id `l` conflicts with an existing policy id
    LinkingError::clone | action x | the action slot is bound to `A::\"x\"`, which is not an action
";

// Runs the copy of bindings. The copy must equal the original.
fn copied_bindings(alloc: Global, number: usize, row: Row<'_>) -> CallOutcome {
    on(alloc, number, values(alloc, row.given), |values| {
        judged(
            alloc,
            copy_of_bindings(values),
            row.want,
            |copy| same_bindings(values, copy),
        )
    })
}

fn arity(alloc: Global) -> Option<LinkingError> {
    match with_last(Some(Vec::new(alloc)), Some(SlotId::Principal)) {
        Some(unbound_values) => Some(LinkingError::ArityError {
            unbound_values,
            extra_values: Vec::new(alloc),
        }),
        None => None,
    }
}

fn no_action(alloc: Global, name: &str) -> Option<LinkingError> {
    match uid(alloc, name) {
        Some(uid) => Some(LinkingError::NotAnAction { uid }),
        None => None,
    }
}

fn at_id(alloc: Global, word: &str, name: &str) -> Option<LinkingError> {
    match id(alloc, name) {
        Some(id) if word == "taken" => Some(LinkingError::PolicyIdConflict { id }),
        Some(id) => Some(LinkingError::NoSuchTemplate { id }),
        None => None,
    }
}

// Returns an error of linking: `slots`, `action x`, `taken l`, or the id of a missing template.
fn fault(alloc: Global, text: &str) -> Option<LinkingError> {
    let (word, rest) = text.split_once(' ').unwrap_or(("", text));
    match word {
        "action" => no_action(alloc, rest),
        "" if rest == "slots" => arity(alloc),
        _ => at_id(alloc, word, rest),
    }
}

impl Calls for OnBindings {
    fn tried(&self, alloc: Global, number: usize, row: Row<'_>) -> CallOutcome {
        let want = row.want;
        match row.call {
            "check_bindings" => {
                on(alloc, number, given(alloc, row.given), |(slots, values)| {
                    judged(
                        alloc,
                        check_bindings(alloc, slots.as_slice(), values),
                        want,
                        |_| want == "ok",
                    )
                })
            }
            "copy_of_bindings" => copied_bindings(alloc, number, row),
            "LinkingError::clone" => copied(alloc, number, fault(alloc, row.given), want),
            _ => unmade(),
        }
    }
}

#[test]
fn each_call_on_bindings(rt: HostRuntime) {
    assert!(rt; check_failures(rt, &OnBindings, BINDINGS));
}
