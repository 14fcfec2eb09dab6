//! The difference of two policy sets.
ghost use Rattle.std.specs.Prelude.{◌≡◌, ◌↔◌, IfOk, IsTrue, map};
ghost use Rattle.cedar_policy_diff.specs.Diff.{apply_diff, content_of, diff_of, empty_diff, IsSameContent};
ghost use Rattle.cedar_policy_diff.specs.Views.{pair_of};
ghost use Rattle.cedar_policy_diff.specs.laws.Emptiness.{HasNoPolicies, HasNoTemplates};

use crate::changes::{
    not_relinked, policies_only_in, policy_changes, relinked, template_changes, templates,
    templates_not_in,
};
use cedar_policy::{Policy, Template};
use cedar_policy_set::policy_set::PolicySet;
use std::alloc::{AllocError, Global};
use std::hash::BuildHasher;
use std::marker::Model;

/// The difference of two policy sets, which borrows from both. [`diff_policy_sets`] computes it.
///
/// Policies and templates are compared by their ids. What is in both sets under the same id is changed if the two are
/// not equal. A changed policy is a relinked one if it is a link before and after, and only the body of its template
/// changed. A template is a body that does not belong to a static policy. An id that is a policy in one set and a
/// template in the other is removed as the one and added as the other. The order of a set is not part of its
/// difference.
#[derive(Debug, Drop)]
pub struct PolicySetDiff<'a> {
    removed_templates: Vec<&'a Template>,
    added_templates: Vec<&'a Template>,
    changed_templates: Vec<(&'a Template, &'a Template)>,
    removed: Vec<&'a Policy>,
    added: Vec<&'a Policy>,
    changed: Vec<(&'a Policy, &'a Policy)>,
    relinked: Vec<(&'a Policy, &'a Policy)>,
}

impl<'a> Model for PolicySetDiff<'a> {
    ghost use Rattle.std.specs.Prelude.{map};
    ghost use Rattle.cedar_policy_diff.specs.Diff.{SetDiff};
    ghost use Rattle.cedar_policy_diff.specs.Codes.{diff_code};
    ghost use Rattle.cedar_policy_diff.specs.Views.{pair_of};

    ghost Value = { SetDiff };

    ghost coded = { diff_code };

    ghost view = { λ s. record {
      removed_templates = map (λ t. t.now) s.removed_templates.items;
      added_templates = map (λ t. t.now) s.added_templates.items;
      changed_templates = map pair_of s.changed_templates.items;
      removed = map (λ p. p.now) s.removed.items;
      added = map (λ p. p.now) s.added.items;
      changed = map pair_of s.changed.items;
      relinked = map pair_of s.relinked.items;
    } };
}

impl<'a> PolicySetDiff<'a> {
    /// Returns the templates of the first set whose ids no template of the second set has, in the order of the first
    /// set. Does not allocate.
    pub fn removed_templates(&self) -> &[&'a Template]
        ensures { map (λ t. t.now) result.now ≡ self.now.removed_templates }
    {
        &self.removed_templates
    }

    /// Returns the templates of the second set whose ids no template of the first set has, in the order of the second
    /// set. Does not allocate.
    pub fn added_templates(&self) -> &[&'a Template]
        ensures { map (λ t. t.now) result.now ≡ self.now.added_templates }
    {
        &self.added_templates
    }

    /// Returns the templates of both sets that are not equal, as they are before and after, in the order of the second
    /// set. Does not allocate.
    pub fn changed_templates(&self) -> &[(&'a Template, &'a Template)]
        ensures { map pair_of result.now ≡ self.now.changed_templates }
    {
        &self.changed_templates
    }

    /// Returns the policies of the first set, static policies and links, whose ids no policy of the second set has, in
    /// the order of the first set. Does not allocate.
    pub fn removed(&self) -> &[&'a Policy]
        ensures { map (λ p. p.now) result.now ≡ self.now.removed }
    {
        &self.removed
    }

    /// Returns the policies of the second set, static policies and links, whose ids no policy of the first set has, in
    /// the order of the second set. Does not allocate.
    pub fn added(&self) -> &[&'a Policy]
        ensures { map (λ p. p.now) result.now ≡ self.now.added }
    {
        &self.added
    }

    /// Returns the policies of both sets that are not equal, as they are before and after, in the order of the second
    /// set. Links in which only the body of the template changed are in [`PolicySetDiff::relinked`] instead. Does not
    /// allocate.
    pub fn changed(&self) -> &[(&'a Policy, &'a Policy)]
        ensures { map pair_of result.now ≡ self.now.changed }
    {
        &self.changed
    }

    /// Returns the links whose template changed, as they are before and after, in the order of the second set: links of
    /// both sets with equal bindings, of templates with the same id and unequal bodies. Does not allocate.
    pub fn relinked(&self) -> &[(&'a Policy, &'a Policy)]
        ensures { map pair_of result.now ≡ self.now.relinked }
    {
        &self.relinked
    }

    /// Returns whether the sets have the same policies and templates. Their orders may differ. Does not allocate.
    pub fn is_empty(&self) -> bool
        ensures { IsTrue result ↔ (self.now ≡ empty_diff) }
    {
        self.has_no_templates() && self.has_no_policies()
    }

    // Returns whether no templates are listed.
    fn has_no_templates(&self) -> bool
        ensures { IsTrue result ↔ HasNoTemplates self.now }
    {
        self.removed_templates.is_empty()
            && self.added_templates.is_empty()
            && self.changed_templates.is_empty()
    }

    // Returns whether no policies are listed.
    fn has_no_policies(&self) -> bool
        ensures { IsTrue result ↔ HasNoPolicies self.now }
    {
        self.removed.is_empty()
            && self.added.is_empty()
            && self.changed.is_empty()
            && self.relinked.is_empty()
    }
}

/// Returns the difference of two policy sets: what is removed, added and changed from `before` to `after`.
///
/// The difference applied to `before` gives the policies and templates of `after`. The difference is empty exactly if
/// the sets have the same policies and templates, in any order. Equality is that of [`Policy`] and [`Template`], so
/// locations do not count.
///
/// # Errors
///
/// Returns `AllocError` if an allocation fails.
///
/// # Complexity
///
/// Looks up each policy and each template of both sets in the other set, and compares those with equal ids. Allocates
/// the lists of the result, and a list of the templates of each set.
///
/// # Differences from cedar-policy-core
///
/// The original has no such function.
pub fn diff_policy_sets<'a, S: BuildHasher + Copy>(
    alloc: Global,
    before: &'a PolicySet<S>,
    after: &'a PolicySet<S>,
) -> Result<PolicySetDiff<'a>, AllocError>
    ensures exact { IfOk result (λ d. d ≡ diff_of before.now after.now) }
    ensures applies { IfOk result
        (λ d. IsSameContent (apply_diff (content_of before.now) d) (content_of after.now)) }
    ensures empty { IfOk result
        (λ d. (d ≡ empty_diff) ↔ IsSameContent (content_of before.now) (content_of after.now)) }
{
    // No effect at run time: for the proof, this call states that the second set is a policy set.
    let _whole = after.is_empty();
    Ok(difference(alloc, before, after)?)
}

// Returns the difference of two policy sets.
fn difference<'a, S: BuildHasher + Copy>(
    alloc: Global,
    before: &'a PolicySet<S>,
    after: &'a PolicySet<S>,
) -> Result<PolicySetDiff<'a>, AllocError>
    ensures { IfOk result (λ d. d ≡ diff_of before.now after.now) }
{
    let templates_before = templates(alloc, before)?;
    let templates_after = templates(alloc, after)?;
    let changes = policy_changes(alloc, before, after)?;
    Ok(PolicySetDiff {
        removed_templates: templates_not_in(alloc, &templates_before, after)?,
        added_templates: templates_not_in(alloc, &templates_after, before)?,
        changed_templates: template_changes(alloc, before, &templates_after)?,
        removed: policies_only_in(alloc, before, after)?,
        added: policies_only_in(alloc, after, before)?,
        changed: not_relinked(alloc, &changes)?,
        relinked: relinked(alloc, &changes)?,
    })
}
