// Tests of the policies and templates that name a uid. A case has the calls that create the set and, after the last
// semicolon, the uid. A case of a policy or a template has its text and the uid, after a semicolon.
use super::sets::{policy, set_of};
use super::templates::template;
use super::uid;
use cedar_alloc_failures::{
    CallOutcome, Calls, Row, both, check_failures, has_words, judged, on, unmade, with_word,
    worked_rows,
};
use cedar_naming::{policies_naming, policy_names, template_names, templates_naming};
use cedar_policy::{Policy, Template};
use cedar_policy_set::PolicySet;
use std::alloc::Global;

struct OnNaming;

const NAMING: &str = "
    policies_naming | static a action, add b negated; Action.x | a
    policies_naming | template t principal, link t l principal=x, static b negated, static c; x | l b
    policies_naming | static a clause; x | none
    templates_naming | template t principal negated, template s resource clause, static a negated; x | t
    templates_naming | template s resource clause; x | none
    - policy_names | a action; Action.x | yes
    - policy_names | l = t principal, principal=x; x | yes
    policy_names | a negated; x | yes
    policy_names | a clause; x | no
    - template_names | t principal action; Action.x | yes
    template_names | t principal negated; x | yes
    template_names | t principal clause; x | no
";

const WORKED: &str = "
# the order of the set, each policy once, static policies and links
    policies_naming | ; x | none
    policies_naming | static c negated, static b, static a negated; x | c a
    policies_naming | template t principal, link t l principal=x, link t k principal=y; y | k
    policies_naming | template t principal resource, link t l principal=x resource=x; x | l
    policies_naming | template t resource negated, link t l resource=y; x | l
    policies_naming | template t acting, link t l action=Action.y; Action.y | l
    policies_naming | template t principal negated; x | none
# the whole uid counts
    policies_naming | static a action; User.x | none
    policies_naming | static a negated; B.x | none
    policies_naming | static a negated; y | none
# unknowns are not looked at
    policies_naming | static a unknown; u | none
# templates with and without links, no static policies
    templates_naming | ; x | none
    templates_naming | template s principal action, template t principal action, link s l principal=x; Action.x | s t
    templates_naming | template t principal, link t l principal=x; x | none
    templates_naming | static a action; Action.x | none
    policy_names | l = t resource, resource=y; y | yes
    policy_names | l = t resource, resource=y; x | no
    policy_names | a; x | no
    template_names | t principal; x | no
";

// Returns the text of some ids, or `none`.
pub(super) fn are_ids(text: Option<String>, want: &str) -> bool {
    match text {
        Some(text) => {
            let is = if want == "none" {
                text.is_empty()
            } else {
                has_words(text.as_str(), want)
            };
            drop(text);
            is
        }
        None => false,
    }
}

fn has_policies(alloc: Global, policies: &[&Policy], want: &str) -> bool {
    let mut text = Some(String::new(alloc));
    for policy in policies {
        text = with_word(text, policy.id().as_ref());
    }
    are_ids(text, want)
}

fn has_templates(alloc: Global, templates: &[&Template], want: &str) -> bool {
    let mut text = Some(String::new(alloc));
    for template in templates {
        text = with_word(text, template.id().as_ref());
    }
    are_ids(text, want)
}

// Returns whether a word stands for the Boolean.
fn is_word(found: bool, want: &str) -> bool {
    want == if found { "yes" } else { "no" }
}

// Runs a query of the set that the calls create. In a case a comma separates the calls.
fn of_set(alloc: Global, number: usize, row: Row<'_>) -> CallOutcome {
    let (calls, name) = row.given.rsplit_once(';').unwrap_or(("", row.given));
    on(
        alloc,
        number,
        both(set_by(alloc, calls), uid(alloc, name.trim())),
        |(set, uid)| {
            if row.call == "templates_naming" {
                return judged(
                    alloc,
                    templates_naming(alloc, set, uid),
                    row.want,
                    |found| has_templates(alloc, found.as_slice(), row.want),
                );
            }
            judged(
                alloc,
                policies_naming(alloc, set, uid),
                row.want,
                |found| has_policies(alloc, found.as_slice(), row.want),
            )
        },
    )
}

// Returns the set that some calls create, with commas between them.
pub(super) fn set_by(alloc: Global, calls: &str) -> Option<PolicySet> {
    match calls_of(alloc, calls) {
        Some(calls) => {
            let set = set_of(alloc, calls.as_str());
            drop(calls);
            set
        }
        None => None,
    }
}

// Returns the calls with semicolons between them.
fn calls_of(alloc: Global, calls: &str) -> Option<String> {
    let mut text = Some(String::new(alloc));
    for call in calls.split(", ") {
        text = with_word(text, call);
        text = with_word(text, ";");
    }
    text
}

fn of_policy(alloc: Global, number: usize, row: Row<'_>) -> CallOutcome {
    let (text, name) = row.given.rsplit_once(';').unwrap_or(("", row.given));
    let given = both(policy(alloc, text), uid(alloc, name.trim()));
    on(alloc, number, given, |(policy, uid)| {
        judged(
            alloc,
            policy_names(alloc, policy, uid),
            row.want,
            |found| is_word(*found, row.want),
        )
    })
}

fn of_template(alloc: Global, number: usize, row: Row<'_>) -> CallOutcome {
    let (text, name) = row.given.rsplit_once(';').unwrap_or(("", row.given));
    let given = both(template(alloc, text), uid(alloc, name.trim()));
    on(alloc, number, given, |(template, uid)| {
        judged(
            alloc,
            template_names(alloc, template, uid),
            row.want,
            |found| is_word(*found, row.want),
        )
    })
}

impl Calls for OnNaming {
    fn tried(&self, alloc: Global, number: usize, row: Row<'_>) -> CallOutcome {
        match row.call {
            "policies_naming" | "templates_naming" => of_set(alloc, number, row),
            "policy_names" => of_policy(alloc, number, row),
            "template_names" => of_template(alloc, number, row),
            _ => unmade(),
        }
    }
}

#[test]
fn each_search_for_a_uid_in_policies(rt: HostRuntime) {
    assert!(rt; check_failures(rt, &OnNaming, NAMING));
}

#[test]
fn which_policies_name_a_uid(rt: HostRuntime) {
    assert!(rt; worked_rows(rt, &OnNaming, WORKED));
}
