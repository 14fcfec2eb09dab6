//! The policies and templates in which two sets differ.
ghost use Rattle.std.specs.Prelude.{◌≡◌, IfOk, map, not};
ghost use Rattle.std.specs.List.{filter, list_any};
ghost use Rattle.std.specs.Option.{option_copied, option_map};
ghost use Rattle.cedar_body.specs.BodyEquality.{same_body};
ghost use Rattle.cedar_policy.specs.Policies.{policy_id};
ghost use Rattle.cedar_policy.specs.PolicyEquality.{same_policy};
ghost use Rattle.cedar_policy_maps.specs.PolicySets.{is_policy_at};
ghost use Rattle.cedar_policy_diff.specs.Diff.{body_id, is_relinking as is_relinking_pair, templates_of};
ghost use Rattle.cedar_policy_diff.specs.Diff.{policy_changes as changed_policies};
ghost use Rattle.cedar_policy_diff.specs.ListDiff.{change, changes, has_id, only_in_first, value_at};
ghost use Rattle.cedar_policy_diff.specs.Views.{pair_of};

use cedar_binding::same_bindings;
use cedar_ids::policy_id::PolicyID;
use cedar_policy::{Policy, Template};
use cedar_policy_maps::is_link;
use cedar_policy_set::policy_set::PolicySet;
use std::alloc::{AllocError, Global};
use std::hash::BuildHasher;

// Returns whether a policy of a set has this id.
#[tactic(auto, using(crate::specs::laws::ListDiffLaws::any_is_found))]
fn has_policy<S: BuildHasher + Copy>(set: &PolicySet<S>, id: &PolicyID) -> bool
    ensures { result ≡ has_id policy_id set.now.policies id.now }
{
    set.get(id).is_some()
}

// Returns the template of a set with this id. The body of a static policy is not a template.
fn template_at<'a, S: BuildHasher + Copy>(
    set: &'a PolicySet<S>,
    id: &PolicyID,
) -> Option<&'a Template>
    ensures { option_copied result ≡ value_at body_id (templates_of set.now) id.now }
{
    if has_policy(set, id) {
        return None;
    }
    set.get_template(id)
}

// Returns whether a template of a set has this id.
#[tactic(auto, using(crate::specs::laws::ListDiffLaws::any_is_found))]
fn has_template<S: BuildHasher + Copy>(set: &PolicySet<S>, id: &PolicyID) -> bool
    ensures { result ≡ has_id body_id (templates_of set.now) id.now }
{
    template_at(set, id).is_some()
}

// Returns whether a body is a template of a set, and not the body of a static policy.
fn is_template<S: BuildHasher + Copy>(set: &PolicySet<S>, body: &Template) -> bool
    ensures { result ≡ not (list_any (is_policy_at body.now.id) set.now.policies) }
{
    !has_policy(set, body.id())
}

// Returns the templates of a set, in the order of its bodies.
pub(crate) fn templates<'a, S: BuildHasher + Copy>(
    alloc: Global,
    set: &'a PolicySet<S>,
) -> Result<Vec<&'a Template>, AllocError>
    ensures { IfOk result (λ v. map (λ t. t.now) v.items ≡ templates_of set.now) }
{
    let mut templates = Vec::new(alloc);
    for body in set.all_templates() {
        if is_template(set, body) {
            templates.push(body)?;
        }
    }
    Ok(templates)
}

// Returns the policies of a set whose ids no policy of another set has.
pub(crate) fn policies_only_in<'a, S: BuildHasher + Copy>(
    alloc: Global,
    set: &'a PolicySet<S>,
    other: &PolicySet<S>,
) -> Result<Vec<&'a Policy>, AllocError>
    ensures { IfOk result (λ v. map (λ p. p.now) v.items
        ≡ only_in_first policy_id set.now.policies other.now.policies) }
{
    let mut only = Vec::new(alloc);
    for policy in set.policies() {
        if !has_policy(other, policy.id()) {
            only.push(policy)?;
        }
    }
    Ok(only)
}

// Returns the templates of a list whose ids no template of a set has.
pub(crate) fn templates_not_in<'a, S: BuildHasher + Copy>(
    alloc: Global,
    templates: &[&'a Template],
    other: &PolicySet<S>,
) -> Result<Vec<&'a Template>, AllocError>
    ensures { IfOk result (λ v. map (λ t. t.now) v.items
        ≡ only_in_first body_id (map (λ t. t.now) templates.now) (templates_of other.now)) }
{
    let mut only = Vec::new(alloc);
    for template in templates {
        if !has_template(other, template.id()) {
            only.push(*template)?;
        }
    }
    Ok(only)
}

// Returns a policy or a template before and after a change. Returns `None` if the two are equal, or if there is none
// before.
fn change<'a, T: PartialEq>(before: Option<&'a T>, after: &'a T) -> Option<(&'a T, &'a T)>
    ensures { option_map pair_of result ≡ change T.eq (option_copied before.entry) after.now }
{
    match before {
        None => None,
        Some(before) => {
            if before == after {
                None
            } else {
                Some((before, after))
            }
        }
    }
}

// Returns the policy of a set with the id of another policy, and that policy, if the two are not equal.
fn policy_change<'a, S: BuildHasher + Copy>(
    before: &'a PolicySet<S>,
    after: &'a Policy,
) -> Option<(&'a Policy, &'a Policy)>
    ensures { option_map pair_of result
        ≡ change same_policy (value_at policy_id before.now.policies (policy_id after.now)) after.now }
{
    change(before.get(after.id()), after)
}

// Returns the policies of both sets that are not equal, in the order of the second set.
pub(crate) fn policy_changes<'a, S: BuildHasher + Copy>(
    alloc: Global,
    before: &'a PolicySet<S>,
    after: &'a PolicySet<S>,
) -> Result<Vec<(&'a Policy, &'a Policy)>, AllocError>
    ensures { IfOk result (λ v. map pair_of v.items ≡ changed_policies before.now after.now) }
{
    let mut changes = Vec::new(alloc);
    for policy in after.policies() {
        if let Some(pair) = policy_change(before, policy) {
            changes.push(pair)?;
        }
    }
    Ok(changes)
}

// Returns the template of a set with the id of another template, and that template, if the two are not equal.
fn template_change<'a, S: BuildHasher + Copy>(
    before: &'a PolicySet<S>,
    after: &'a Template,
) -> Option<(&'a Template, &'a Template)>
    ensures { option_map pair_of result
        ≡ change same_body (value_at body_id (templates_of before.now) after.now.id) after.now }
{
    change(template_at(before, after.id()), after)
}

// Returns the templates of a list that a set has under the same ids, but not equal.
pub(crate) fn template_changes<'a, S: BuildHasher + Copy>(
    alloc: Global,
    before: &'a PolicySet<S>,
    templates: &[&'a Template],
) -> Result<Vec<(&'a Template, &'a Template)>, AllocError>
    ensures { IfOk result (λ v. map pair_of v.items
        ≡ changes body_id same_body (templates_of before.now) (map (λ t. t.now) templates.now)) }
{
    let mut changes = Vec::new(alloc);
    for template in templates {
        if let Some(pair) = template_change(before, template) {
            changes.push(pair)?;
        }
    }
    Ok(changes)
}

// Returns whether two policies are links with equal bindings, of templates with the same id.
fn is_relinking(before: &Policy, after: &Policy) -> bool
    ensures { result ≡ is_relinking_pair (before.now, after.now) }
{
    is_link(before)
        && is_link(after)
        && before.template().id() == after.template().id()
        && same_bindings(before.env(), after.env())
}

// Returns the changes of links in which only the body of the template changed.
pub(crate) fn relinked<'a>(
    alloc: Global,
    changes: &[(&'a Policy, &'a Policy)],
) -> Result<Vec<(&'a Policy, &'a Policy)>, AllocError>
    ensures { IfOk result (λ v. map pair_of v.items ≡ filter is_relinking_pair (map pair_of changes.now)) }
{
    let mut relinked = Vec::new(alloc);
    for change in changes {
        if is_relinking(change.0, change.1) {
            relinked.push(*change)?;
        }
    }
    Ok(relinked)
}

// Returns the changes in which more changed than the body of a link's template.
pub(crate) fn not_relinked<'a>(
    alloc: Global,
    changes: &[(&'a Policy, &'a Policy)],
) -> Result<Vec<(&'a Policy, &'a Policy)>, AllocError>
    ensures { IfOk result (λ v. map pair_of v.items
        ≡ filter (λ c. not (is_relinking_pair c)) (map pair_of changes.now)) }
{
    let mut changed = Vec::new(alloc);
    for change in changes {
        if !is_relinking(change.0, change.1) {
            changed.push(*change)?;
        }
    }
    Ok(changed)
}
