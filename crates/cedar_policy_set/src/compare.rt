//! Clone and equality of policy sets.
ghost use Rattle.std.specs.Prelude.{◌≡◌};
ghost use Rattle.std.specs.Option.{option_copied};
ghost use Rattle.std.specs.Cmp.{partial_equiv_from_equiv};
ghost use Rattle.std.specs.Cmp.Lexicographic.{pointwise};
ghost use Rattle.cedar_body.specs.BodyEquality.{same_body};
ghost use Rattle.cedar_policy.specs.PolicyEquality.{same_policy};
ghost use Rattle.cedar_policy_set.specs.SetEquality.{same_policy_set};
ghost use Rattle.cedar_policy_set.specs.laws.EqualityLaws.{is_given};
ghost use Rattle.cedar_policy_set.specs.laws.EqualityLaws.{same_policy_set_equiv};

use crate::policy_set::PolicySet;
use cedar_policy::{Policy, Template};
use cedar_policy_maps::{AllTemplates, Policies};
use std::alloc::AllocError;
use std::hash::BuildHasher;

impl<S: BuildHasher + Copy> Clone for PolicySet<S> {
    ghost is_clone = { λ x y. y ≡ x };

    fn clone(&self) -> Result<PolicySet<S>, AllocError> {
        let maps = self.maps.clone()?;
        Ok(PolicySet { maps })
    }
}

impl<S: BuildHasher + Copy> PartialEq for PolicySet<S> {
    ghost eq = { same_policy_set };

    ghost laws = { partial_equiv_from_equiv same_policy_set_equiv };

    fn eq(&self, other: &PolicySet<S>) -> bool {
        same_bodies(self.maps.all_templates(), other.maps.all_templates())
            && same_policies(self.maps.policies(), other.maps.policies())
    }
}

impl<S: BuildHasher + Copy> Eq for PolicySet<S> {
    ghost laws = { same_policy_set_equiv };
}

// Returns whether two lists of bodies are equal, element by element.
fn same_bodies(bodies: AllTemplates<'_>, mut others: AllTemplates<'_>) -> bool
    ensures { result ≡ pointwise same_body bodies.entry others.entry }
{
    for body in bodies {
        if !is_same_body(body, others.next()) {
            return false;
        }
    }
    others.next().is_none()
}

// Returns whether a body is equal to an optional one.
fn is_same_body(body: &Template, other: Option<&Template>) -> bool
    ensures { result ≡ is_given same_body body.now (option_copied other.entry) }
{
    match other {
        None => false,
        Some(other) => body == other,
    }
}

// Returns whether two lists of policies are equal, element by element.
fn same_policies(policies: Policies<'_>, mut others: Policies<'_>) -> bool
    ensures { result ≡ pointwise same_policy policies.entry others.entry }
{
    for policy in policies {
        if !is_same_policy(policy, others.next()) {
            return false;
        }
    }
    others.next().is_none()
}

// Returns whether a policy is equal to an optional one.
fn is_same_policy(policy: &Policy, other: Option<&Policy>) -> bool
    ensures { result ≡ is_given same_policy policy.now (option_copied other.entry) }
{
    match other {
        None => false,
        Some(other) => policy == other,
    }
}
