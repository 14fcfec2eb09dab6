// Tests of sets that are created from policies, validated or copied.
use super::id;
use super::raw::raw;
use super::reads::has_orders;
use super::sets::{ids_of, policy, set_of};
use cedar_alloc_failures::{
    CallOutcome, Calls, Row, both, check_failures, copied, has_words, judged, refuse, same_copied,
    unmade, with, with_last,
};
use cedar_policy::{Policy, TemplateValidationError};
use cedar_policy_set::{PolicySet, PolicySetValidationError};
use cedar_terms::slot::{Slot, SlotId};
use std::alloc::Global;
use std::hash::BuildHasherDefault;

fn policies(alloc: Global, texts: &str) -> Option<Vec<Policy>> {
    let mut all = Some(Vec::new(alloc));
    for text in texts.split(';') {
        if !text.trim().is_empty() {
            all = with_last(all, policy(alloc, text.trim()));
        }
    }
    all
}

// Returns whether a set has these ids, or has these bodies and policies in the form of `reads`.
fn has_ids(alloc: Global, set: &PolicySet, want: &str) -> bool {
    if want.contains(['?', '=']) {
        return has_orders(alloc, set, want);
    }
    match ids_of(alloc, set) {
        Some(text) => {
            let told = has_words(text.as_str(), want);
            drop(text);
            told
        }
        None => false,
    }
}

pub(super) struct OnWholeSets;

const WHOLE: &str = "
    PolicySet::singleton | a noted | a / a
    PolicySet::singleton | l = t principal, principal=x | t / l
    PolicySet::from_raw_components | a noted | a / a
    PolicySet::from_raw_components | l = t principal, principal=x | t / l
    PolicySet::try_from_iter | b; l = t principal, principal=x; a | b t a / b l a
    PolicySet::try_from_iter | a; b; a forbid | ! duplicate template or policy id `a`
    PolicySet::try_from_iter_with_hasher | b; l = t principal, principal=x; a | b t a / b l a
    PolicySet::try_from_iter_with_hasher | a; b; a forbid | ! duplicate template or policy id `a`
    PolicySet::try_validate | static a clause; template t principal; link t l principal=x | a t / a l
    PolicySet::try_validate | template t; link t l | ! link `l` references template `t` which has no slots
    PolicySet::try_validate | static a; template b foo | ! invalid template `b`: `foo` is not a known function
    PolicySet::clone | static a clause; template t principal; link t l principal=x
    - PolicySet::clone
    PolicySetValidationError::clone | t | invalid template `t`: found slot `?principal` in a condition clause
    PolicySetValidationError::clone | l of t | link `l` references template `t` which has no slots
";

// Runs the creation of the set of one policy. Does nothing for a link with its template's id.
fn alone(alloc: Global, number: usize, policy: Policy, want: &str) -> CallOutcome {
    if !policy.is_static() && policy.id() == policy.template().id() {
        drop(policy);
        return unmade();
    }
    let _total = policy.env();
    refuse(alloc, number);
    judged(
        alloc,
        PolicySet::singleton(alloc, policy),
        want,
        |set| has_ids(alloc, set, want),
    )
}

fn fault(alloc: Global, text: &str) -> Option<PolicySetValidationError> {
    match text.split_once(" of ") {
        Some((link, template)) => match both(id(alloc, link), id(alloc, template)) {
            Some((link_id, template_id)) => Some(
                PolicySetValidationError::LinkToSlotlessTemplate {
                    link_id,
                    template_id,
                },
            ),
            None => None,
        },
        None => match id(alloc, text) {
            Some(id) => {
                let slot = Slot {
                    id: SlotId::Principal,
                    loc: None,
                };
                let error = TemplateValidationError::SlotsInConditionClause(slot);
                Some(PolicySetValidationError::InvalidTemplate { id, error })
            }
            None => None,
        },
    }
}

impl Calls for OnWholeSets {
    fn tried(&self, alloc: Global, number: usize, row: Row<'_>) -> CallOutcome {
        let want = row.want;
        match row.call {
            "PolicySet::singleton" => match policy(alloc, row.given) {
                Some(policy) => alone(alloc, number, policy, want),
                None => unmade(),
            },
            "PolicySet::from_raw_components" => match raw(alloc, number, row.given) {
                Some(answer) => judged(alloc, answer, want, |set| has_ids(alloc, set, want)),
                None => unmade(),
            },
            "PolicySet::try_from_iter" => {
                with(alloc, number, policies(alloc, row.given), |policies| {
                    judged(
                        alloc,
                        PolicySet::try_from_iter(alloc, policies),
                        want,
                        |set| { has_ids(alloc, set, want) },
                    )
                })
            }
            "PolicySet::try_from_iter_with_hasher" => {
                with(alloc, number, policies(alloc, row.given), |policies| {
                    let hasher = BuildHasherDefault::new();
                    judged(
                        alloc,
                        PolicySet::try_from_iter_with_hasher(alloc, hasher, policies),
                        want,
                        |set| { has_ids(alloc, set, want) },
                    )
                })
            }
            "PolicySet::try_validate" => {
                with(alloc, number, set_of(alloc, row.given), |set| {
                    judged(
                        alloc,
                        set.try_validate(alloc),
                        want,
                        |set| has_ids(alloc, set, want),
                    )
                })
            }
            "PolicySet::clone" => same_copied(alloc, number, set_of(alloc, row.given)),
            "PolicySetValidationError::clone" => {
                copied(alloc, number, fault(alloc, row.given), want)
            }
            _ => unmade(),
        }
    }
}

#[test]
fn each_call_on_a_whole_set(rt: HostRuntime) {
    assert!(rt; check_failures(rt, &OnWholeSets, WHOLE));
}
