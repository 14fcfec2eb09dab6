// Policy sets as short texts of calls. A policy is written as in `parts`. A link is written as its id, an equals sign,
// its template, a comma and its bindings: `l = t principal, principal=x`.
//
// Calls are separated by semicolons: `static a`, `template t principal`, `add a`, `add l = t principal, principal=x`,
// `link t l principal=x`, `unlink l`, `remove_static a`, `remove_template t`, `links t`, and `keep` or `rename` to
// merge the other set. The first call starts from an empty set.
use super::id;
use super::parts::values;
use super::policies::link;
use super::reads::has_orders;
use super::statics::unlinked;
use super::templates::template;
use cedar_alloc_failures::{
    Answer, CallOutcome, Calls, Row, ample_if, both, check_failures, has_words, memory_if, owned,
    refuse, stop_failing, unmade, with_word,
};
use cedar_ids::policy_id::PolicyID;
use cedar_policy::{LinkingError, Policy, SlotEnv};
use cedar_policy_set::{AllTemplates, LinkedIds, Policies, PolicySet, PolicySetError};
use indexmap::IndexMap;
use std::alloc::{AllocError, Global};
use std::fmt::Display;

// The result of a call as a text, and whether an allocation was forced to fail.
#[derive(Drop)]
pub(super) struct Said {
    pub(super) text: Option<String>,
    pub(super) refused: bool,
}

fn text_of<T: Display + Drop>(alloc: Global, thing: T) -> Option<String> {
    let text = thing.to_string(alloc).ok();
    drop(thing);
    text
}

fn refusal_of<E: Display + Drop>(alloc: Global, error: E) -> Option<String> {
    let text = format!(in alloc; "! {error}").ok();
    drop(error);
    text
}

// Returns the result of a call that returns a value.
fn told<T: Display + Drop, E: Display + Drop>(alloc: Global, answer: Result<T, E>) -> Said {
    let refused = stop_failing(alloc);
    let text = match answer {
        Ok(thing) => text_of(alloc, thing),
        Err(error) => refusal_of(alloc, error),
    };
    Said { text, refused }
}

// Returns the result of a call that returns nothing.
fn told_done<E: Display + Drop>(alloc: Global, answer: Result<(), E>) -> Said {
    let refused = stop_failing(alloc);
    let text = match answer {
        Ok(()) => owned(alloc, "ok"),
        Err(error) => refusal_of(alloc, error),
    };
    Said { text, refused }
}

// Returns the policy with this text.
pub(super) fn policy(alloc: Global, text: &str) -> Option<Policy> {
    match text.split_once(" = ") {
        Some((name, rest)) => {
            let (body, bound) = rest.split_once(',').unwrap_or((rest, ""));
            link(alloc, name, body, bound)
        }
        None => match unlinked(alloc, text) {
            Some(policy) => Policy::from_static(alloc, policy).ok(),
            None => None,
        },
    }
}

fn insert_static(alloc: Global, number: usize, set: &mut PolicySet, text: &str) -> Option<Said> {
    match unlinked(alloc, text) {
        Some(policy) => {
            refuse(alloc, number);
            Some(told_done(alloc, set.add_static(alloc, policy)))
        }
        None => None,
    }
}

fn insert_template(alloc: Global, number: usize, set: &mut PolicySet, text: &str) -> Option<Said> {
    match template(alloc, text) {
        Some(template) => {
            refuse(alloc, number);
            Some(told_done(alloc, set.add_template(alloc, template)))
        }
        None => None,
    }
}

fn insert_policy(alloc: Global, number: usize, set: &mut PolicySet, text: &str) -> Option<Said> {
    match policy(alloc, text) {
        Some(policy) => {
            refuse(alloc, number);
            Some(told_done(alloc, set.add(alloc, policy)))
        }
        None => None,
    }
}

// Returns the result of linking: a reference to the link.
fn linking_error_of(
    alloc: Global,
    set: &mut PolicySet,
    ids: (PolicyID, PolicyID),
    values: SlotEnv,
) -> Said {
    let (template, name) = ids;
    match set.link(alloc, template, name, values) {
        Ok(linked) => {
            let refused = stop_failing(alloc);
            let text = linked.id().to_string(alloc).ok();
            drop(linked);
            Said { text, refused }
        }
        Err(error) => told_done::<LinkingError>(alloc, Err(error)),
    }
}

fn insert_link(alloc: Global, number: usize, set: &mut PolicySet, text: &str) -> Option<Said> {
    let (template, rest) = text.split_once(' ').unwrap_or((text, ""));
    let (name, bound) = rest.split_once(' ').unwrap_or((rest, ""));
    let ids = both(id(alloc, template), id(alloc, name));
    match both(ids, values(alloc, bound)) {
        Some((ids, values)) => {
            refuse(alloc, number);
            Some(linking_error_of(alloc, set, ids, values))
        }
        None => None,
    }
}

fn put_copy(alloc: Global, number: usize, set: &mut PolicySet, text: &str) -> Option<Said> {
    let (template, rest) = text.split_once(' ').unwrap_or((text, ""));
    let (name, bound) = rest.split_once(' ').unwrap_or((rest, ""));
    let ids = both(id(alloc, template), id(alloc, name));
    match both(ids, values(alloc, bound)) {
        Some(((template, name), values)) => {
            refuse(alloc, number);
            let said = told_done(alloc, set.link_copying(alloc, &template, name, &values));
            drop(values);
            Some(said)
        }
        None => None,
    }
}

// Returns the ids of policies, in order.
fn told_ids(alloc: Global, ids: LinkedIds<'_>) -> Option<String> {
    let mut text = Some(String::new(alloc));
    for id in ids {
        text = with_word(text, id.as_ref());
    }
    text
}

fn told_links(alloc: Global, set: &PolicySet, id: &PolicyID) -> Said {
    match set.get_linked_policies(id) {
        Ok(ids) => {
            let refused = stop_failing(alloc);
            let text = told_ids(alloc, ids);
            Said { text, refused }
        }
        Err(error) => told_done(alloc, Err(error)),
    }
}

// Runs a call that takes an id.
fn at_id(alloc: Global, set: &mut PolicySet, word: &str, id: &PolicyID) -> Said {
    match word {
        "unlink" => told(alloc, set.unlink(id)),
        "remove_static" => told(alloc, set.remove_static(id)),
        "remove_template" => told(alloc, set.remove_template(id)),
        _ => told_links(alloc, set, id),
    }
}

fn named(
    alloc: Global,
    number: usize,
    set: &mut PolicySet,
    word: &str,
    name: &str,
) -> Option<Said> {
    match id(alloc, name) {
        Some(id) => {
            refuse(alloc, number);
            let told = at_id(alloc, set, word, &id);
            drop(id);
            Some(told)
        }
        None => None,
    }
}

// Returns the renamed ids, each with its new id.
fn told_renaming(alloc: Global, renaming: &IndexMap<PolicyID, PolicyID>) -> Option<String> {
    let mut text = owned(alloc, "merged ");
    for (old, new) in renaming {
        text = with_word(with_word(text, old.as_ref()), new.as_ref());
    }
    text
}

fn merged(
    alloc: Global,
    number: usize,
    set: &mut PolicySet,
    other: &PolicySet,
    rename: bool,
) -> Said {
    refuse(alloc, number);
    match set.merge_policyset(alloc, other, rename) {
        Ok(renaming) => {
            let refused = stop_failing(alloc);
            let text = told_renaming(alloc, &renaming);
            drop(renaming);
            Said { text, refused }
        }
        Err(error) => told_done::<PolicySetError>(alloc, Err(error)),
    }
}

// Runs one call on a set, while the allocation with this number is forced to fail.
fn step(
    alloc: Global,
    number: usize,
    set: &mut PolicySet,
    other: &PolicySet,
    call: &str,
) -> Option<Said> {
    let (word, rest) = call.split_once(' ').unwrap_or((call, ""));
    match word {
        "static" => insert_static(alloc, number, set, rest),
        "template" => insert_template(alloc, number, set, rest),
        "add" => insert_policy(alloc, number, set, rest),
        "link" => insert_link(alloc, number, set, rest),
        "link_copying" => put_copy(alloc, number, set, rest),
        "keep" | "rename" => Some(merged(alloc, number, set, other, word == "rename")),
        _ => named(alloc, number, set, word, rest),
    }
}

// The number of an allocation that no call reaches.
const NEVER: usize = 1 << 32;

// Returns the set after some calls.
pub(super) fn set_of(alloc: Global, calls: &str) -> Option<PolicySet> {
    let mut set = PolicySet::new(alloc);
    let none = PolicySet::new(alloc);
    for call in calls.split(';') {
        if !call.trim().is_empty() {
            drop(step(alloc, NEVER, &mut set, &none, call.trim()));
        }
    }
    drop(none);
    Some(set)
}

// Returns the ids of bodies and then of policies, in order.
pub(super) fn ids_in(
    alloc: Global,
    templates: AllTemplates<'_>,
    policies: Policies<'_>,
) -> Option<String> {
    let mut text = Some(String::new(alloc));
    for template in templates {
        text = with_word(text, template.id().as_ref());
    }
    text = with_word(text, "/");
    for policy in policies {
        text = with_word(text, policy.id().as_ref());
    }
    text
}

// Returns the ids of a set's bodies and policies.
pub(super) fn ids_of(alloc: Global, set: &PolicySet) -> Option<String> {
    ids_in(alloc, set.all_templates(), set.policies())
}

// Returns the ids of bodies and policies in order, and for each body the ids of the policies that use it.
fn lists_of(alloc: Global, set: &PolicySet) -> Option<String> {
    let mut text = ids_of(alloc, set);
    for template in set.all_templates() {
        match set.get_linked_policies(template.id()) {
            Ok(ids) => {
                for id in ids {
                    text = with_word(text, id.as_ref());
                }
                text = with_word(text, "/");
            }
            Err(error) => {
                drop(error);
                drop(text);
                return None;
            }
        }
    }
    text
}

// Returns whether two sets are equal, have the same orders, and list the same policies for each body.
pub(super) fn is_same(alloc: Global, one: &PolicySet, other: &PolicySet) -> bool {
    match both(lists_of(alloc, one), lists_of(alloc, other)) {
        Some((lists, others)) => {
            let told = one == other && lists.as_str() == others.as_str();
            drop(lists);
            drop(others);
            told
        }
        None => false,
    }
}

fn copy_of(set: &PolicySet) -> Option<PolicySet> {
    let copy: Result<PolicySet, AllocError> = set.clone();
    copy.ok()
}

// Returns a set and two copies of it.
fn three(alloc: Global, calls: &str) -> Option<(PolicySet, (PolicySet, PolicySet))> {
    match set_of(alloc, calls) {
        Some(set) => {
            let copies = both(copy_of(&set), copy_of(&set));
            both(Some(set), copies)
        }
        None => None,
    }
}

// Returns the outcome of a call from its text and the text with enough memory.
fn answer_of(told: &str, ample: &str, want: &str, left: (bool, bool)) -> Answer {
    let (kept, same) = left;
    if told == "! out of memory" {
        return memory_if(kept);
    }
    ample_if(told == ample && has_words(ample, want) && same)
}

// Returns the outcome of a call. `ample` is its result with enough memory. `left` states whether the set equals its
// copy from before, and the set after the call with enough memory.
fn tried(alloc: Global, told: Said, ample: Said, want: &str, left: (bool, bool)) -> CallOutcome {
    let refused = told.refused;
    let text = told.text.unwrap_or(String::new(alloc));
    let due = ample.text.unwrap_or(String::new(alloc));
    let answer = answer_of(text.as_str(), due.as_str(), want, left);
    drop(text);
    drop(due);
    CallOutcome { answer, refused }
}

// Runs a call on the first of three equal sets. The second set runs it with enough memory, and the third does not
// change.
fn compared(
    alloc: Global,
    number: usize,
    sets: (PolicySet, (PolicySet, PolicySet)),
    other: &PolicySet,
    row: (&str, &str),
) -> CallOutcome {
    let (mut set, (mut ample, before)) = sets;
    let (call, want) = row;
    let (want, orders) = want.split_once('@').unwrap_or((want, ""));
    let due = step(alloc, NEVER, &mut ample, other, call);
    let told = step(alloc, number, &mut set, other, call);
    let ordered = orders.is_empty() || has_orders(alloc, &ample, orders);
    let left = (
        is_same(alloc, &set, &before),
        ordered && is_same(alloc, &set, &ample),
    );
    drop(set);
    drop(ample);
    drop(before);
    match both(told, due) {
        Some((told, due)) => tried(alloc, told, due, want, left),
        None => unmade(),
    }
}

pub(super) struct OnSets;

const SETS: &str = "
    PolicySet::add_static | static b; static a noted | ok
    PolicySet::add_static | static a | ok
    PolicySet::add_static | static a; static a forbid | ! duplicate template or policy id `a`
    PolicySet::add_template | static b; template t principal | ok
    PolicySet::add_template | template t | ok
    PolicySet::add_template | template t; template t principal | ! duplicate template or policy id `t`
    PolicySet::add | static b; add a | ok
    PolicySet::add | add a | ok
    PolicySet::add | add l = t principal, principal=y | ok
    PolicySet::add | template t principal; link t k principal=x; add l = t principal, principal=y | ok
    PolicySet::add | static b; add l = t principal, principal=y | ok
    PolicySet::add | static a; add a | ! duplicate template or policy id `a`
    PolicySet::add | static t; add l = t principal, principal=y | ! duplicate template or policy id `t`
    PolicySet::add | static l; add l = t principal, principal=y | ! duplicate template or policy id `l`
    PolicySet::link | template t principal; link t l principal=x | l
    PolicySet::link | template t principal resource; link t k principal=x resource=y; link t l principal=y resource=x | l
    PolicySet::link | template t principal; link t l resource=x | ! the following slots were not provided as arguments: ?principal. The following slots were provided as arguments, but did not exist in the template: ?resource
    PolicySet::link | template t acting; link t l action=x | ! the action slot is bound to `A::\"x\"`, which is not an action
    PolicySet::link | template t acting principal; link t l action=Action.x principal=x | l
    - PolicySet::link | static s; link s l | ! failed to find a template with id `s`
    PolicySet::link | template t; static l; link t l | ! template-linked policy id `l` conflicts with an existing policy id
    PolicySet::link_copying | template t principal; link_copying t l principal=x | ok
    PolicySet::link_copying | template t principal; link_copying t l resource=x | ! the following slots were not provided as arguments: ?principal. The following slots were provided as arguments, but did not exist in the template: ?resource
    PolicySet::link_copying | template t; static l; link_copying t l | ! template-linked policy id `l` conflicts with an existing policy id
    PolicySet::link_copying | static s; link_copying s l | ! failed to find a template with id `s`
    - PolicySet::unlink | template t; link t l; unlink l | Template Instance of t, slots: []
    PolicySet::unlink | template t; static l; unlink l | ! unable to remove link with policy id `l` because it is a static policy
    PolicySet::unlink | template t; unlink l | ! unable to unlink policy id `l` because it does not exist
    - PolicySet::remove_static | static a; remove_static a | permit( principal, action, resource );
    PolicySet::remove_static | template a; remove_static a | ! unable to remove static policy id `a` from link list because it does not exist
    PolicySet::remove_static | template t; link t a; remove_static a | ! unable to remove static policy id `a` from template list because it does not exist
    PolicySet::remove_template | template t; remove_template t | permit( principal, action, resource );
    PolicySet::remove_template | template t; link t l; remove_template t | ! unable to remove template id `t` from template list because it still has active links
    PolicySet::remove_template | static t; remove_template t | ! unable to remove template with policy id `t` because it is a static policy
    PolicySet::remove_template | static a; remove_template t | ! unable to remove template id `t` from template list because it does not exist
    - PolicySet::get_linked_policies | template t; link t l; link t m; links t | l m
    PolicySet::get_linked_policies | template t; links u | ! No template `u`
";

// Returns the word for a function in the texts.
fn word_of(call: &str) -> &str {
    match call {
        "PolicySet::add_static" => "static",
        "PolicySet::add_template" => "template",
        "PolicySet::add" => "add",
        "PolicySet::link" => "link",
        "PolicySet::link_copying" => "link_copying",
        "PolicySet::unlink" => "unlink",
        "PolicySet::remove_static" => "remove_static",
        "PolicySet::remove_template" => "remove_template",
        "PolicySet::get_linked_policies" => "links",
        _ => "",
    }
}

impl Calls for OnSets {
    fn tried(&self, alloc: Global, number: usize, row: Row<'_>) -> CallOutcome {
        let (calls, call) = row.given.rsplit_once(';').unwrap_or(("", row.given));
        let word = call.trim().split_once(' ').unwrap_or((call.trim(), "")).0;
        if word != word_of(row.call) {
            return unmade();
        }
        match three(alloc, calls) {
            Some(sets) => {
                let none = PolicySet::new(alloc);
                let tried = compared(alloc, number, sets, &none, (call.trim(), row.want));
                drop(none);
                tried
            }
            None => unmade(),
        }
    }
}

#[test]
fn each_call_that_changes_a_set(rt: HostRuntime) {
    assert!(rt; check_failures(rt, &OnSets, SETS));
}

pub(super) struct OnMerging;

const MERGING: &str = "
    PolicySet::merge_policyset | static a; static c; template t principal; link t l principal=x // static b; static a forbid; template t resource; link t l resource=y // rename | merged a policy0 t policy1 l policy2
    PolicySet::merge_policyset | static a; template t // static t; template u principal; link u v principal=x // rename | merged t policy0
    PolicySet::merge_policyset | static a // static b; template t principal; link t l principal=x // keep | merged
    PolicySet::merge_policyset | static a // static b; static a // keep | merged
    PolicySet::merge_policyset | static a; template t principal; link t l principal=x; template s // static b; static a; template t principal; link t m principal=y; link t l principal=x; link t n principal=x; template u principal; link u v principal=x; link u w principal=y // keep | merged
    PolicySet::merge_policyset | template s principal; template t principal; link t l principal=x; link s k principal=x // template t principal; template s principal; link s k principal=x; link t m principal=y; link s l principal=x; link s o principal=y; link t p principal=x; static q // rename | merged l policy0
    PolicySet::merge_policyset | static b; static a // static b; static a forbid // keep | ! duplicate template or policy id `a`
";

// Runs a merge of one of two equal sets. Both must not change.
fn beside_other(
    alloc: Global,
    number: usize,
    here: &str,
    others: (PolicySet, PolicySet),
    row: (&str, &str),
) -> CallOutcome {
    let (other, copy) = others;
    let tried = match three(alloc, here) {
        Some(sets) => compared(alloc, number, sets, &other, row),
        None => unmade(),
    };
    let stays = is_same(alloc, &other, &copy);
    drop(other);
    drop(copy);
    if stays { tried } else { unmade() }
}

impl Calls for OnMerging {
    fn tried(&self, alloc: Global, number: usize, row: Row<'_>) -> CallOutcome {
        let (here, rest) = row.given.split_once(" // ").unwrap_or((row.given, ""));
        let (there, word) = rest.split_once(" // ").unwrap_or((rest, ""));
        match both(set_of(alloc, there), set_of(alloc, there)) {
            Some(others) => beside_other(alloc, number, here, others, (word, row.want)),
            None => unmade(),
        }
    }
}

#[test]
fn each_merge(rt: HostRuntime) {
    assert!(rt; check_failures(rt, &OnMerging, MERGING));
}
