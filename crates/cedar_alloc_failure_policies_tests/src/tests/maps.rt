// Tests of the maps of a policy set: insertion, bulk insertion, merging and copying.
//
// A policy is written as in `sets`. A merge is written as a policy for each of the maps and `keep` or `rename`,
// separated by `//`. The expected result is the list of the ids of bodies and policies, in order.
ghost use Rattle.std.specs.Prelude.{◌≡◌, ◌∷◌, [], IfOk, IsTrue};
ghost use Rattle.cedar_body.specs.BodyEquality.{same_body};
ghost use Rattle.cedar_policy_maps.specs.PolicySets.{empty_set};
ghost use Rattle.cedar_policy_maps.specs.Insertions.{CanInsert, CanInsertWithBody};
ghost use Rattle.cedar_policy_maps.specs.BulkInsert.{CanBulkInsert};
ghost use Rattle.cedar_policy_maps.specs.Views.{bodies_of};

use super::raw::raw_maps;
use super::sets::{ids_in, policy};
use super::templates::shared;
use cedar_alloc_failures::{
    CallOutcome, Calls, Row, ample_if, both, check_failures, has_words, is_worded, judged,
    memory_if, on, refuse, stop_failing, unmade,
};
use cedar_policy::{Policy, Template};
use cedar_policy_maps::{PolicyMaps, PolicyOrTemplate, SharedAndNew};
use cedar_policy_merge::merge_maps;
use cedar_policy_set_errors::PolicySetError;
use std::alloc::{AllocError, Global};
use std::fmt::Display;
use std::hash::{BuildHasherDefault, FoldHasher};
use std::rc::Rc;

type Maps = PolicyMaps<BuildHasherDefault<FoldHasher>>;

fn empty(alloc: Global) -> Maps
    ensures { result ≡ empty_set }
{
    PolicyMaps::with_hasher(alloc, BuildHasherDefault::new())
}

// Returns whether a policy can be inserted into empty maps together with its template. A link must have another id than
// its template.
#[tactic(auto, using(cedar_policy_maps::specs::laws::SetLaws::alone))]
fn may_go_first(policy: &Policy) -> bool
    ensures { IsTrue result → CanInsertWithBody empty_set policy.now }
{
    let _total = policy.env();
    if !policy.is_static() && policy.id() == policy.template().id() {
        return false;
    }
    true
}

// Returns whether a policy is a link with an unused id, and its template is in the maps.
fn may_join(maps: &Maps, policy: &Policy) -> bool
    ensures { IsTrue result → CanInsert maps.now policy.now }
{
    let _total = policy.env();
    if policy.is_static() || maps.is_bound(policy.id()) {
        return false;
    }
    match maps.found(policy.template().id()) {
        Some(PolicyOrTemplate::Template(template)) => is_same(template, policy.template()),
        _ => false,
    }
}

fn is_same(template: &Template, other: &Template) -> bool
    ensures { result ≡ same_body template.now other.now }
{
    template == other
}

// Returns the maps, or the allocation error.
fn left(maps: Maps, answer: Result<(), AllocError>) -> Result<Maps, AllocError> {
    match answer {
        Ok(()) => Ok(maps),
        Err(error) => {
            drop(maps);
            Err(error)
        }
    }
}

// Returns the outcome of a call after which the maps must have these ids, or after an allocation error the ids from
// before.
fn judged_left<E: Display + Drop>(
    alloc: Global,
    maps: Maps,
    answer: Result<(), E>,
    ids: (&str, &str),
) -> CallOutcome {
    let refused = stop_failing(alloc);
    let (before, want) = ids;
    let answer = match answer {
        Ok(()) => ample_if(has_ids(alloc, &maps, want)),
        Err(error) => {
            let stands = has_ids(alloc, &maps, before);
            let is_wanted = match want.strip_prefix("! ") {
                Some(text) => is_worded(alloc, &error, text),
                None => false,
            };
            drop(error);
            if is_wanted {
                ample_if(stands)
            } else {
                memory_if(stands)
            }
        }
    };
    drop(maps);
    CallOutcome { answer, refused }
}

fn has_ids(alloc: Global, maps: &Maps, want: &str) -> bool {
    match ids_in(alloc, maps.all_templates(), maps.policies()) {
        Some(text) => {
            let told = has_words(text.as_str(), want);
            drop(text);
            told
        }
        None => false,
    }
}

fn insert_template(
    alloc: Global,
    number: usize,
    template: Rc<Template>,
    want: &str,
) -> CallOutcome {
    let mut maps = empty(alloc);
    refuse(alloc, number);
    let answer = maps.insert_template(template);
    judged_left(alloc, maps, answer, ("/", want))
}

fn insert_with_body(alloc: Global, number: usize, policy: Policy, want: &str) -> CallOutcome {
    if !may_go_first(&policy) {
        drop(policy);
        return unmade();
    }
    let mut maps = empty(alloc);
    refuse(alloc, number);
    let answer = maps.insert_with_body(policy);
    judged_left(alloc, maps, answer, ("/", want))
}

// Shares the template of a policy once more.
fn template_of(policy: &Policy) -> Result<Rc<Template>, AllocError>
    ensures { IfOk result (λ t. t.value ≡ policy.now.template) }
{
    policy.template_arc().clone()
}

// Returns maps that contain only the template of a policy.
fn of_template(alloc: Global, policy: &Policy) -> Option<Maps> {
    match template_of(policy) {
        Ok(template) => {
            let mut maps = empty(alloc);
            let answer = maps.insert_template(template);
            left(maps, answer).ok()
        }
        Err(_) => None,
    }
}

fn insert_policy(alloc: Global, number: usize, policy: Policy, want: &str) -> CallOutcome {
    match of_template(alloc, &policy) {
        Some(maps) => {
            let mut maps = maps;
            if !may_join(&maps, &policy) {
                drop(maps);
                drop(policy);
                return unmade();
            }
            refuse(alloc, number);
            let answer = maps.insert_policy(policy);
            judged_left(alloc, maps, answer, ("t /", want))
        }
        None => {
            drop(policy);
            unmade()
        }
    }
}

// Returns two groups of entries for a bulk insertion: one new value, and no existing ones.
fn joining<T: Drop>(alloc: Global, thing: T) -> Result<SharedAndNew<T>, AllocError>
    ensures stand { IfOk result (λ p. p.stand.items ≡ []) }
    ensures join { IfOk result (λ p. p.join.items ≡ thing ∷ []) }
{
    let mut parted = SharedAndNew::new(alloc);
    match parted.join.push(thing) {
        Ok(()) => Ok(parted),
        Err(error) => {
            drop(error);
            drop(parted);
            Err(AllocError)
        }
    }
}

// Returns the entries for inserting a policy and its template into empty maps.
fn both_joining(
    alloc: Global,
    policy: Policy,
) -> Result<(SharedAndNew<Rc<Template>>, SharedAndNew<Policy>), AllocError>
    requires { CanInsertWithBody empty_set policy }
    ensures { IfOk result (λ r. CanBulkInsert empty_set (bodies_of r.0.stand.items)
        (bodies_of r.0.join.items) r.1.join.items) }
{
    let template = template_of(&policy)?;
    let bodies = joining(alloc, template)?;
    let policies = joining(alloc, policy)?;
    Ok((bodies, policies))
}

fn insert_bulk(alloc: Global, number: usize, policy: Policy, want: &str) -> CallOutcome {
    if !may_go_first(&policy) {
        drop(policy);
        return unmade();
    }
    match both_joining(alloc, policy) {
        Ok((bodies, policies)) => {
            let mut maps = empty(alloc);
            refuse(alloc, number);
            let answer = maps.insert_bulk(alloc, bodies, policies);
            judged_left(alloc, maps, answer, ("/", want))
        }
        Err(_) => unmade(),
    }
}

// Returns maps that contain a policy and its template.
fn of_both(alloc: Global, policy: Policy) -> Option<Maps> {
    if !may_go_first(&policy) {
        drop(policy);
        return None;
    }
    let mut maps = empty(alloc);
    let answer = maps.insert_with_body(policy);
    left(maps, answer).ok()
}

fn copied(alloc: Global, number: usize, policy: Policy, want: &str) -> CallOutcome {
    on(alloc, number, of_both(alloc, policy), |maps| {
        let copy: Result<Maps, AllocError> = maps.clone();
        judged(alloc, copy, want, |maps| has_ids(alloc, maps, want))
    })
}

fn maps_of(alloc: Global, text: &str) -> Option<Maps> {
    match policy(alloc, text) {
        Some(policy) => of_both(alloc, policy),
        None => None,
    }
}

// Merges other maps into some maps, and drops the renamed ids.
fn merge_in(
    alloc: Global,
    maps: &mut Maps,
    other: &Maps,
    rename: bool,
) -> Result<(), PolicySetError> {
    match merge_maps(alloc, maps, other, rename) {
        Ok(renaming) => {
            drop(renaming);
            Ok(())
        }
        Err(error) => Err(error),
    }
}

// Returns the expected ids of the maps of a policy, in the form of `has_ids`.
fn ids_before(text: &str) -> &str {
    if text.starts_with("l =") {
        "t / l"
    } else {
        "a / a"
    }
}

fn merged(alloc: Global, number: usize, row: Row<'_>) -> CallOutcome {
    let (here, rest) = row.given.split_once(" // ").unwrap_or((row.given, ""));
    let (there, word) = rest.split_once(" // ").unwrap_or((rest, ""));
    match both(maps_of(alloc, here), maps_of(alloc, there)) {
        Some((maps, other)) => {
            let mut maps = maps;
            refuse(alloc, number);
            let answer = merge_in(alloc, &mut maps, &other, word == "rename");
            let tried = judged_left(alloc, maps, answer, (ids_before(here), row.want));
            let stays = has_ids(alloc, &other, ids_before(there));
            drop(other);
            if stays { tried } else { unmade() }
        }
        None => unmade(),
    }
}

struct OnMaps;

const MAPS: &str = "
    PolicyMaps::insert_template | t principal | t /
    PolicyMaps::insert_with_body | a noted | a / a
    PolicyMaps::insert_with_body | l = t principal, principal=x | t / l
    PolicyMaps::insert_policy | l = t principal, principal=x | t / l
    PolicyMaps::insert_bulk | a noted | a / a
    PolicyMaps::insert_bulk | l = t principal, principal=x | t / l
    PolicyMaps::from_raw_components | a noted | a / a
    PolicyMaps::from_raw_components | l = t principal, principal=x | t / l
    PolicyMaps::clone | a noted | a / a
    PolicyMaps::clone | l = t principal, principal=x | t / l
    merge_maps | a // l = t principal, principal=x // keep | a t / a l
    merge_maps | a // a forbid // rename | a policy0 / a policy0
    merge_maps | l = t principal, principal=x // a // keep | t a / l a
    merge_maps | a // a forbid // keep | ! duplicate template or policy id `a`
";

impl Calls for OnMaps {
    fn tried(&self, alloc: Global, number: usize, row: Row<'_>) -> CallOutcome {
        if row.call == "PolicyMaps::insert_template" {
            return match shared(alloc, row.given) {
                Some(template) => insert_template(alloc, number, template, row.want),
                None => unmade(),
            };
        }
        if row.call == "PolicyMaps::from_raw_components" {
            return match raw_maps(alloc, number, row.given) {
                Some(answer) => judged(
                    alloc,
                    answer,
                    row.want,
                    |maps| has_ids(alloc, maps, row.want),
                ),
                None => unmade(),
            };
        }
        if row.call == "merge_maps" {
            return merged(alloc, number, row);
        }
        match policy(alloc, row.given) {
            Some(policy) => match row.call {
                "PolicyMaps::insert_with_body" => insert_with_body(alloc, number, policy, row.want),
                "PolicyMaps::insert_policy" => insert_policy(alloc, number, policy, row.want),
                "PolicyMaps::insert_bulk" => insert_bulk(alloc, number, policy, row.want),
                "PolicyMaps::clone" => copied(alloc, number, policy, row.want),
                _ => {
                    drop(policy);
                    unmade()
                }
            },
            None => unmade(),
        }
    }
}

#[test]
fn each_call_on_the_maps_of_a_set(rt: HostRuntime) {
    assert!(rt; check_failures(rt, &OnMaps, MAPS));
}
