//! Deep copies of policy sets.
ghost use Rattle.std.specs.Prelude.{◌≡◌, IfOk};

use crate::bindings::deep_copy_bindings;
use crate::bodies::{deep_copy_static, deep_copy_template};
use cedar_ids::policy_id::PolicyID;
use cedar_policy::{LinkingError, Policy, SlotEnv, Template};
use cedar_policy_maps::Policies;
use cedar_policy_set::PolicySet;
use std::alloc::{AllocError, Global};
use std::hash::BuildHasher;

// Links a template. Drops the returned policy.
fn link<S: BuildHasher + Copy>(
    alloc: Global,
    set: &mut PolicySet<S>,
    template: PolicyID,
    id: PolicyID,
    values: SlotEnv,
) -> Result<(), LinkingError> {
    set.link(alloc, template, id, values)?;
    Ok(())
}

// Adds a copy of a link to `own`.
fn insert_link_body<S: BuildHasher + Copy>(
    alloc: Global,
    own: &mut PolicySet<S>,
    policy: &Policy,
) -> Result<(), AllocError> {
    let values = deep_copy_bindings(alloc, policy.env())?;
    let template = policy.template().id().clone()?;
    match link(alloc, own, template, policy.id().clone()?, values) {
        Ok(()) => Ok(()),
        Err(_refused) => Err(AllocError),
    }
}

// Adds copies of the links before the policy with an id, in order.
fn insert_links_before<S: BuildHasher + Copy>(
    alloc: Global,
    own: &mut PolicySet<S>,
    policies: &mut Policies<'_>,
    id: &PolicyID,
) -> Result<(), AllocError> {
    while let Some(policy) = policies.next() {
        if policy.id() == id {
            return Ok(());
        }
        insert_link_body(alloc, own, policy)?;
    }
    Ok(())
}

// Adds copies of the remaining links, in order.
fn insert_links<S: BuildHasher + Copy>(
    alloc: Global,
    own: &mut PolicySet<S>,
    policies: Policies<'_>,
) -> Result<(), AllocError> {
    for policy in policies {
        insert_link_body(alloc, own, policy)?;
    }
    Ok(())
}

// Adds a copy of a template.
fn insert_template_body<S: BuildHasher + Copy>(
    alloc: Global,
    own: &mut PolicySet<S>,
    template: &Template,
) -> Result<(), AllocError> {
    let copy = deep_copy_template(alloc, template)?;
    match own.add_template(alloc, copy) {
        Ok(()) => Ok(()),
        Err(_refused) => Err(AllocError),
    }
}

// Adds a copy of a static policy.
fn insert_static_body<S: BuildHasher + Copy>(
    alloc: Global,
    own: &mut PolicySet<S>,
    template: &Template,
) -> Result<(), AllocError> {
    let copy = deep_copy_static(alloc, template)?;
    match own.add_static(alloc, copy) {
        Ok(()) => Ok(()),
        Err(_refused) => Err(AllocError),
    }
}

// Builds a copy of a set in the order of its bodies and policies. The links before a static policy are added before it.
fn deep_copy_bound<S: BuildHasher + Copy>(
    alloc: Global,
    set: &PolicySet<S>,
) -> Result<PolicySet<S>, AllocError> {
    let mut own = PolicySet::with_hasher(alloc, *set.hasher());
    let mut policies = set.policies();
    for body in set.all_templates() {
        if set.get(body.id()).is_none() {
            insert_template_body(alloc, &mut own, body)?;
        } else {
            insert_links_before(alloc, &mut own, &mut policies, body.id())?;
            insert_static_body(alloc, &mut own, body)?;
        }
    }
    insert_links(alloc, &mut own, policies)?;
    Ok(own)
}

/// Returns a deep copy of a policy set, without locations. It has the same hasher builder. The copy is compared with
/// the set, so it is equal.
///
/// # Errors
///
/// - `AllocError`: an allocation failed.
/// - `AllocError`: a clause has more than `CEDAR_LEVELS` levels. A clause that was decoded from nodes never has more.
/// - `AllocError`: a link comes before a static policy, and its template comes after that policy. A set that was built
///   by `add`, `link` and the other calls that add one policy never has such a link.
///
/// # Complexity
///
/// Visits the whole set, and encodes and decodes each clause.
pub fn deep_copy_set<S: BuildHasher + Copy>(
    alloc: Global,
    set: &PolicySet<S>,
) -> Result<PolicySet<S>, AllocError>
    ensures { IfOk result (λ s. s ≡ set.now) }
{
    let own = deep_copy_bound(alloc, set)?;
    if own == *set {
        Ok(own)
    } else {
        Err(AllocError)
    }
}
