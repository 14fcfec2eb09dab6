// Tests of the difference of two policy sets. A case has the calls that create each set, with a semicolon between the two
// lists of calls. The result lists ids after a word for the list that they are in. A changed policy or template is written
// as its effects before and after, and its id.
use super::naming::{are_ids, set_by};
use cedar_alloc_failures::{
    CallOutcome, Calls, Row, both, check_failures, judged, on, unmade, with_word, worked_rows,
};
use cedar_policy::{Effect, Policy, Template};
use cedar_policy_diff::{PolicySetDiff, diff_policy_sets};
use std::alloc::Global;

struct OnDiffs;

const DIFFS: &str = "
    diff_policy_sets | static a, add b forbid; static c, add b | removed a added c changed forbid permit b
    diff_policy_sets | template t principal, link t l principal=x; template t principal forbid, link t l principal=x | changed_template permit forbid t relinked permit forbid l
    diff_policy_sets | template t principal; template s resource | removed_template t added_template s
    - diff_policy_sets | static a; static a | none
    - diff_policy_sets | ; | none
";

const WORKED: &str = "
# the order of the sets does not count, and the order of each list is that of a set
    diff_policy_sets | static a, static b; static b, static a | none
    diff_policy_sets | static c, static a, static b; static b | removed c a
    diff_policy_sets | ; static c, static a | added c a
    diff_policy_sets | static a, static b; static b forbid, static a forbid | changed permit forbid b changed permit forbid a
    diff_policy_sets | static a, static b noted; static b, static a forbid | changed permit permit b changed permit forbid a
# templates with and without links and slots, and no bodies of static policies
    diff_policy_sets | template t, template s principal; template s principal, template u resource | removed_template t added_template u
    diff_policy_sets | template t; template t forbid | changed_template permit forbid t
    diff_policy_sets | static t; template t | added_template t removed t
    diff_policy_sets | template t; static t | removed_template t added t
# a link whose template changed, and links with other bindings or another template
    diff_policy_sets | template t principal, link t l principal=x; template t principal forbid, link t l principal=y | changed_template permit forbid t changed permit forbid l
    diff_policy_sets | template t principal, link t l principal=x; template t principal, link t l principal=y | changed permit permit l
    diff_policy_sets | template t principal, template s principal, link t l principal=x; template t principal, template s principal, link s l principal=x | changed permit permit l
    diff_policy_sets | template t, link t l; template t, static l | changed permit permit l
    diff_policy_sets | template t, static l; template t, link t l | changed permit permit l
    diff_policy_sets | template t, link t l, link t k; template t forbid, link t k, link t l | changed_template permit forbid t relinked permit forbid k relinked permit forbid l
    diff_policy_sets | template t principal, link t l principal=x; template t principal | removed l
    diff_policy_sets | template l; template t, link t l | removed_template l added_template t added l
";

fn effect_word(effect: Effect) -> &'static str {
    match effect {
        Effect::Permit => "permit",
        Effect::Forbid => "forbid",
    }
}

fn with_templates(text: Option<String>, list: &str, templates: &[&Template]) -> Option<String> {
    let mut text = text;
    for (place, template) in templates.iter().enumerate() {
        if place == 0 {
            text = with_word(text, list);
        }
        text = with_word(text, template.id().as_ref());
    }
    text
}

fn with_policies(text: Option<String>, list: &str, policies: &[&Policy]) -> Option<String> {
    let mut text = text;
    for (place, policy) in policies.iter().enumerate() {
        if place == 0 {
            text = with_word(text, list);
        }
        text = with_word(text, policy.id().as_ref());
    }
    text
}

fn with_changed_template(
    text: Option<String>,
    before: &Template,
    after: &Template,
) -> Option<String> {
    let text = with_word(text, "changed_template");
    let text = with_word(text, effect_word(before.effect()));
    with_word(
        with_word(text, effect_word(after.effect())),
        after.id().as_ref(),
    )
}

fn with_changed_templates(
    text: Option<String>,
    changes: &[(&Template, &Template)],
) -> Option<String> {
    let mut text = text;
    for change in changes {
        text = with_changed_template(text, change.0, change.1);
    }
    text
}

fn with_change(
    text: Option<String>,
    list: &str,
    before: &Policy,
    after: &Policy,
) -> Option<String> {
    let text = with_word(with_word(text, list), effect_word(before.effect()));
    with_word(
        with_word(text, effect_word(after.effect())),
        after.id().as_ref(),
    )
}

fn with_changes(
    text: Option<String>,
    list: &str,
    changes: &[(&Policy, &Policy)],
) -> Option<String> {
    let mut text = text;
    for change in changes {
        text = with_change(text, list, change.0, change.1);
    }
    text
}

// Returns the ids of a difference, list by list.
fn text_of(alloc: Global, difference: &PolicySetDiff<'_>) -> Option<String> {
    let text = Some(String::new(alloc));
    let text = with_templates(text, "removed_template", difference.removed_templates());
    let text = with_templates(text, "added_template", difference.added_templates());
    let text = with_changed_templates(text, difference.changed_templates());
    let text = with_policies(text, "removed", difference.removed());
    let text = with_policies(text, "added", difference.added());
    let text = with_changes(text, "changed", difference.changed());
    with_changes(text, "relinked", difference.relinked())
}

fn is_right(alloc: Global, difference: &PolicySetDiff<'_>, want: &str) -> bool {
    difference.is_empty() == (want == "none") && are_ids(text_of(alloc, difference), want)
}

impl Calls for OnDiffs {
    fn tried(&self, alloc: Global, number: usize, row: Row<'_>) -> CallOutcome {
        if row.call != "diff_policy_sets" {
            return unmade();
        }
        let (before, after) = row.given.split_once(';').unwrap_or((row.given, ""));
        let sets = both(set_by(alloc, before), set_by(alloc, after));
        on(alloc, number, sets, |(before, after)| {
            judged(
                alloc,
                diff_policy_sets(alloc, before, after),
                row.want,
                |found| is_right(alloc, found, row.want),
            )
        })
    }
}

#[test]
fn each_difference_of_sets(rt: HostRuntime) {
    assert!(rt; check_failures(rt, &OnDiffs, DIFFS));
}

#[test]
fn what_differs_between_sets(rt: HostRuntime) {
    assert!(rt; worked_rows(rt, &OnDiffs, WORKED));
}
