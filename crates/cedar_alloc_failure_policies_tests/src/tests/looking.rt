// Functions that do not allocate succeed while every allocation is forced to fail.
use super::constraints::{of_principal, of_resource};
use super::policies::link;
use super::sets::set_of;
use super::{id, shared};
use cedar_alloc_failures::{both, refuse, stop_failing};
use cedar_binding::bound_to;
use cedar_ids::id::AnyId;
use cedar_ids::policy_id::PolicyID;
use cedar_policy::{Effect, Policy, Template};
use cedar_policy_set::PolicySet;
use cedar_scope::{PrincipalConstraint, ResourceConstraint};
use cedar_terms::slot::SlotId;
use std::alloc::Global;

fn has_two_policies(set: &PolicySet) -> bool {
    let mut all = set.policies();
    all.next().is_some() && all.next().is_some() && all.next().is_none()
}

fn has_one_static(set: &PolicySet) -> bool {
    let mut all = set.static_policies();
    all.next().is_some() && all.next().is_none()
}

fn has_two_bodies(set: &PolicySet) -> bool {
    let mut all = set.all_templates();
    all.next().is_some() && all.next().is_some() && all.next().is_none()
}

// Reads a set with a static policy, a template without slots and a link of it. Returns whether all results are right.
fn is_read(set: &PolicySet, id: &PolicyID) -> bool {
    let found = set.get(id).is_some() && set.get_template(id).is_some();
    let shared = set.get_template_arc(id).is_some() && !set.is_empty();
    let policies = has_two_policies(set) && has_one_static(set);
    let bodies = has_two_bodies(set) && set.templates().next().is_none();
    found && shared && policies && bodies
}

fn is_made(alloc: Global) -> bool {
    let set = PolicySet::new(alloc);
    let told = set.is_empty();
    drop(set);
    told
}

fn reads_a_set(alloc: Global) -> bool {
    match both(
        set_of(alloc, "static a; template t; link t l"),
        id(alloc, "a"),
    ) {
        Some((set, id)) => {
            refuse(alloc, 0);
            let told = is_read(&set, &id) && is_made(alloc);
            let refused = stop_failing(alloc);
            drop(set);
            drop(id);
            told && !refused
        }
        None => false,
    }
}

#[test]
fn to_read_a_set_takes_no_memory(rt: HostRuntime) {
    assert!(rt; reads_a_set(rt.alloc()));
}

// Removes a link and a static policy from a set, and reads the ids of the template's links between the two removals.
fn is_emptied(
    set: &mut PolicySet,
    link: &PolicyID,
    template: &PolicyID,
    policy: &PolicyID,
) -> bool {
    let unlinked = set.unlink(link).is_ok();
    let listed = set.get_linked_policies(template).is_ok();
    let removed = set.remove_static(policy).is_ok();
    unlinked && listed && removed && set.policies().next().is_none()
}

fn empties_a_set(alloc: Global) -> bool {
    let ids = both(id(alloc, "l"), both(id(alloc, "t"), id(alloc, "a")));
    match both(set_of(alloc, "static a; template t; link t l"), ids) {
        Some((mut set, (link, (template, policy)))) => {
            refuse(alloc, 0);
            let told = is_emptied(&mut set, &link, &template, &policy);
            let refused = stop_failing(alloc);
            drop(set);
            drop(link);
            drop(template);
            drop(policy);
            told && !refused
        }
        None => false,
    }
}

#[test]
fn to_take_out_of_a_set_takes_no_memory(rt: HostRuntime) {
    assert!(rt; empties_a_set(rt.alloc()));
}

fn compares_sets(alloc: Global) -> bool {
    let calls = "static a; template t noted principal clause; link t l principal=x";
    match both(set_of(alloc, calls), set_of(alloc, calls)) {
        Some((one, other)) => {
            refuse(alloc, 0);
            let same = one == other;
            let refused = stop_failing(alloc);
            drop(one);
            drop(other);
            same && !refused
        }
        None => false,
    }
}

#[test]
fn to_compare_sets_takes_no_memory(rt: HostRuntime) {
    assert!(rt; compares_sets(rt.alloc()));
}

// Reads the template of a link, with an annotation, a slot and a clause. Returns whether all results are right.
fn is_template_read(template: &Template, key: &AnyId) -> bool {
    let noted = template.annotation(key).is_some() && template.annotations().next().is_some();
    let clause = template.non_scope_constraints().is_some();
    let slots = template.slots().next().is_some() && !template.is_static();
    let scope = template
        .principal_constraint()
        .as_inner()
        .get_euid()
        .is_none()
        && template
            .resource_constraint()
            .as_inner()
            .get_euid()
            .is_none();
    noted && clause && slots && scope && template.effect() == Effect::Permit
}

// Reads a link, and returns whether all results are right.
fn is_link_read(link: &Policy, key: &AnyId) -> bool {
    let named = link.id().as_ref() == "l" && link.template().id().as_ref() == "t";
    let noted = link.annotation(key).is_some() && link.non_scope_constraints().is_some();
    let bound = bound_to(link.env(), SlotId::Principal).is_some() && !link.is_static();
    named && noted && bound && link == link && is_template_read(link.template(), key)
}

// Returns whether a link can be split into its id and its other parts.
fn falls_apart(link: Policy) -> bool {
    let (template, id, values) = link.into_components();
    let told = id.is_some();
    drop(template);
    drop(id);
    drop(values);
    told
}

fn reads_a_link(alloc: Global) -> bool {
    let key = AnyId::from_normalized_str(alloc, "k").ok();
    let made = link(alloc, "l", "t noted principal clause", "principal=x");
    match both(made, key) {
        Some((link, key)) => {
            refuse(alloc, 0);
            let read = is_link_read(&link, &key);
            let apart = falls_apart(link);
            let refused = stop_failing(alloc);
            drop(key);
            read && apart && !refused
        }
        None => false,
    }
}

#[test]
fn to_read_a_policy_takes_no_memory(rt: HostRuntime) {
    assert!(rt; reads_a_link(rt.alloc()));
}

fn is_filled_principal(constraint: PrincipalConstraint) -> bool {
    let told = constraint.as_inner().get_euid().is_some();
    drop(constraint);
    told
}

fn is_filled_resource(constraint: ResourceConstraint) -> bool {
    let told = constraint.as_inner().get_euid().is_some();
    drop(constraint);
    told
}

fn fills(alloc: Global) -> bool {
    let constraints = both(of_principal(alloc, "== ?"), of_resource(alloc, "in ?"));
    let uids = both(shared(alloc, "a"), shared(alloc, "b"));
    match both(constraints, uids) {
        Some(((principal, resource), (one, other))) => {
            refuse(alloc, 0);
            let first = is_filled_principal(principal.with_filled_slot(one));
            let second = is_filled_resource(resource.with_filled_slot(other));
            let refused = stop_failing(alloc);
            first && second && !refused
        }
        None => false,
    }
}

#[test]
fn to_fill_a_slot_takes_no_memory(rt: HostRuntime) {
    assert!(rt; fills(rt.alloc()));
}
