// Tests of comparing, reading and printing policy sets. They do not allocate in the tested layer, or test no function
// of its own.
//
// A set is given by calls as in `sets`. A body is printed as its id, its slots in the order of the template, and
// `forbid` if it forbids. A link is printed as its id, its template's id and its bindings.
use super::id;
use super::raw::is_raw;
use super::sets::set_of;
use cedar_alloc_failures::{
    CallOutcome, Calls, Row, both, has_words, made, on, unmade, with_word, worked_rows,
};
use cedar_ids::policy_id::PolicyID;
use cedar_policy::{Effect, Policy, Template};
use cedar_policy_set::{IntoPolicies, PolicySet};
use cedar_terms::slot::SlotId;
use std::alloc::{AllocError, Global};

pub(super) fn slot_word(slot: SlotId) -> &'static str {
    match slot {
        SlotId::Principal => "?principal",
        SlotId::Resource => "?resource",
        SlotId::Action => "?action",
    }
}

// Appends a body to a text.
fn with_body(text: Option<String>, template: &Template) -> Option<String> {
    let mut text = with_word(text, template.id().as_ref());
    for slot in template.slots() {
        text = with_word(text, slot_word(slot.id));
    }
    match template.effect() {
        Effect::Forbid => with_word(text, "forbid"),
        Effect::Permit => text,
    }
}

// Appends a slot and its bound eid to a text, if the slot is bound.
fn with_bound(text: Option<String>, policy: &Policy, slot: SlotId) -> Option<String> {
    match policy.env().get(&slot) {
        Some(uid) => with_word(with_word(text, slot_word(slot)), uid.eid().as_ref()),
        None => text,
    }
}

// Appends a policy to a text.
fn with_policy(text: Option<String>, policy: &Policy) -> Option<String> {
    let text = with_word(text, policy.id().as_ref());
    if policy.is_static() {
        return text;
    }
    let text = with_word(with_word(text, "="), policy.template().id().as_ref());
    let text = with_bound(text, policy, SlotId::Principal);
    let text = with_bound(text, policy, SlotId::Action);
    with_bound(text, policy, SlotId::Resource)
}

// Returns the bodies and the policies of a set, in order.
fn orders_of(alloc: Global, set: &PolicySet) -> Option<String> {
    let mut text = Some(String::new(alloc));
    for template in set.all_templates() {
        text = with_body(text, template);
    }
    text = with_word(text, "/");
    for policy in set.policies() {
        text = with_policy(text, policy);
    }
    text
}

// Returns whether a set has these bodies and policies, in order.
pub(super) fn has_orders(alloc: Global, set: &PolicySet, want: &str) -> bool {
    match orders_of(alloc, set) {
        Some(text) => {
            let told = has_words(text.as_str(), want);
            drop(text);
            told
        }
        None => false,
    }
}

// Returns the bodies that have slots, and the static policies.
fn filtered(alloc: Global, set: &PolicySet) -> Option<String> {
    let mut text = Some(String::new(alloc));
    for template in set.templates() {
        text = with_body(text, template);
    }
    text = with_word(text, "/");
    for policy in set.static_policies() {
        text = with_policy(text, policy);
    }
    text
}

// Returns the policies of a consumed set.
fn apart(alloc: Global, policies: IntoPolicies) -> Option<String> {
    let mut text = Some(String::new(alloc));
    for policy in policies {
        text = with_policy(text, &policy);
        drop(policy);
    }
    text
}

// Returns the body and the policy with an id.
fn found(alloc: Global, set: &PolicySet, id: &PolicyID) -> Option<String> {
    let mut text = Some(String::new(alloc));
    if let Some(template) = set.get_template(id) {
        text = with_body(text, template);
    }
    text = with_word(text, "/");
    match set.get(id) {
        Some(policy) => with_policy(text, policy),
        None => text,
    }
}

// Returns the outcome for a text, or for `None` the outcome of an allocation failure.
fn told(alloc: Global, text: Option<String>, want: &str) -> CallOutcome {
    made(alloc, text.ok_or(AllocError), want)
}

fn compared(alloc: Global, number: usize, row: Row<'_>) -> CallOutcome {
    let (one, other) = row.given.split_once('~').unwrap_or((row.given, ""));
    on(
        alloc,
        number,
        both(set_of(alloc, one), set_of(alloc, other)),
        |(one, other)| {
            let stand: Result<&'static str, AllocError> = Ok(match (one == other, other == one) {
                (true, true) => "equal",
                (false, false) => "other",
                _ => "neither equal nor other",
            });
            made(alloc, stand, row.want)
        },
    )
}

fn looked_up(alloc: Global, number: usize, name: &str, row: Row<'_>) -> CallOutcome {
    on(
        alloc,
        number,
        both(set_of(alloc, row.given), id(alloc, name)),
        |(set, id)| told(alloc, found(alloc, set, id), row.want),
    )
}

struct OnReads;

const READS: &str = "
# sets of equal orders are equal
    compare |  ~ static a; remove_static a | equal
    compare | static a ~ add a | equal
    compare | add l = t principal, principal=x ~ template t principal; link t l principal=x | equal
    compare | static b ~ static a; static b; remove_static a | equal
    compare | template t principal; static a; link t l principal=x ~ add l = t principal, principal=x; unlink l; static a; link t l principal=x | equal
# a removal keeps the order of the others
    compare | static b; static c; static d ~ static a; static b; static c; static d; remove_static a | equal
    compare | static a; static c; static d ~ static a; static b; static c; static d; remove_static b | equal
    compare | static a; static b; static c ~ static a; static b; static c; static d; remove_static d | equal
    compare | static a; static d ~ static a; static b; static c; static d; remove_static b; remove_static c | equal
    compare | static a; static d ~ static a; static b; static c; static d; remove_static c; remove_static b | equal
    compare | static b; static c ~ static a; static b; static c; static d; remove_static d; remove_static a | equal
    compare | static a; static c; static d; static b ~ static a; static b; static c; static d; remove_static b; static b | equal
    compare | template u; template t principal; link t m principal=x; link t n principal=y ~ template u; template t principal; link t l principal=x; link t m principal=x; link t n principal=y; unlink l | equal
    compare | template t principal; link t l principal=x; link t n principal=y ~ template t principal; link t l principal=x; link t m principal=x; link t n principal=y; unlink m | equal
    compare | template t principal; link t l principal=x; link t m principal=x ~ template t principal; link t l principal=x; link t m principal=x; link t n principal=y; unlink n | equal
    compare | template t principal; link t n principal=y; link t l principal=x ~ template t principal; link t l principal=x; link t m principal=x; link t n principal=y; unlink m; unlink l; link t l principal=x | equal
    compare | template v; template u ~ template t; template v; template u; remove_template t | equal
    compare | template t; template u ~ template t; template v; template u; remove_template v | equal
    compare | template t; static a; template u ~ template t; static a; template v; static b; template u; remove_template v; remove_static b | equal
# sets of other orders or values are not
    compare |  ~ template a | other
    compare | static a ~ static a; static b | other
    compare | static a; static b ~ static b; static a | other
    compare | template a; template b ~ template b; template a | other
    compare | add l = t,; add m = t, ~ add m = t,; add l = t, | other
    compare | template t; static a ~ static a; template t | other
    compare | static a ~ template a | other
    compare | static a ~ static a forbid | other
    compare | template t principal ~ template t resource | other
    compare | add l = t principal, principal=x ~ add l = t principal, principal=y | other
    compare | add l = t principal, principal=x ~ add m = t principal, principal=x | other
    compare | template t acts ~ template t acting | other
    compare | template t acts ~ template t principal | other
    compare | add l = t acts, action=Action.v ~ add l = t acts, action=Action.w | other
    compare | template t acting; link t l action=Action.v ~ add l = t acting, action=Action.v | equal
    compare | add l = t, ~ template t | other
# sets that are made of their maps as they stand
    raw l = t principal, principal=x | template t principal; link t l principal=x | yes
    raw a forbid | static a forbid | yes
    raw l = t principal resource acts, principal=x action=Action.v resource=y | template t principal resource acts; link t l principal=x action=Action.v resource=y | yes
# templates have slots, and static policies no link
    filtered |  | /
    filtered | template t principal; static s | t ?principal / s
    filtered | template t principal; static s; link t l principal=x | t ?principal / s
    filtered | static b; template t; static a; template u resource; add l = v principal resource, principal=x resource=y | u ?resource v ?resource ?principal / b a
    filtered | template t slot | t ?principal /
    filtered | template t acts; template u acting; static s action; link t l action=Action.v | t ?action u ?action / s
# a set falls apart into its policies
    apart | template t | 
    apart | add d; add b; add c; add a | d b c a
    apart | add m = t principal, principal=x; static a; link t l principal=y | m = t ?principal x a l = t ?principal y
    apart | add d; add b; add c; add a; remove_static b | d c a
    apart | add d; add b; add c; add a; remove_static d; remove_static c; add d | b a d
    apart | add m = t acting, action=Action.v; static a | m = t ?action v a
# an id finds its policy and its body
    find a | static b; template t; static a forbid; add l = u principal, principal=x; link u m principal=y | a forbid / a
    find b | static b; template t; static a forbid; add l = u principal, principal=x; link u m principal=y | b / b
    find t | static b; template t; static a forbid; add l = u principal, principal=x; link u m principal=y | t /
    find u | static b; template t; static a forbid; add l = u principal, principal=x; link u m principal=y | u ?principal /
    find l | static b; template t; static a forbid; add l = u principal, principal=x; link u m principal=y | / l = u ?principal x
    find m | static b; template t; static a forbid; add l = u principal, principal=x; link u m principal=y | / m = u ?principal y
    find n | static b; template t; static a forbid; add l = u principal, principal=x; link u m principal=y | /
# a set is written by its two orders
    write |  | <empty policyset>
    write | static a | Templates: permit( principal, action, resource );, Template Linked Policies: permit( principal, action, resource );
    write | template t principal | Templates: permit( principal == ?principal, action, resource );, Template Linked Policies:
    write | template t principal; link t m principal=x; link t l principal=y | Templates: permit( principal == ?principal, action, resource );, Template Linked Policies: Template Instance of t, slots: [?principal -> A::\"x\"] Template Instance of t, slots: [?principal -> A::\"y\"]
    write | static a forbid; add l = t resource, resource=y | Templates: forbid( principal, action, resource ); permit( principal, action, resource in ?resource );, Template Linked Policies: forbid( principal, action, resource ); Template Instance of t, slots: [?resource -> A::\"y\"]
    write | template t acting; link t l action=Action.v | Templates: permit( principal, action in ?action, resource );, Template Linked Policies: Template Instance of t, slots: [?action -> Action::\"v\"]
    write | add l = t principal resource acts, principal=x action=Action.v resource=y | Templates: permit( principal == ?principal, action == ?action, resource in ?resource );, Template Linked Policies: Template Instance of t, slots: [?principal -> A::\"x\",?action -> Action::\"v\",?resource -> A::\"y\"]
";

impl Calls for OnReads {
    fn tried(&self, alloc: Global, number: usize, row: Row<'_>) -> CallOutcome {
        let (word, rest) = row.call.split_once(' ').unwrap_or((row.call, ""));
        match word {
            "compare" => compared(alloc, number, row),
            "find" => looked_up(alloc, number, rest, row),
            "raw" => is_raw(alloc, number, rest, row),
            "apart" => match set_of(alloc, row.given) {
                Some(set) => told(alloc, apart(alloc, set.into_policies()), row.want),
                None => unmade(),
            },
            "filtered" => on(alloc, number, set_of(alloc, row.given), |set| {
                told(alloc, filtered(alloc, set), row.want)
            }),
            "write" => on(alloc, number, set_of(alloc, row.given), |set| {
                made(alloc, set.to_string(alloc), row.want)
            }),
            _ => unmade(),
        }
    }
}

#[test]
fn what_sets_are(rt: HostRuntime) {
    assert!(rt; worked_rows(rt, &OnReads, READS));
}
