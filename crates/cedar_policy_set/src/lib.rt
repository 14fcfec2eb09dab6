//! Policy sets. A policy set binds each id to a static policy, a template, or a link of a template in the set.
//!
//! The set is stored in the three ordered maps of `cedar_policy_maps`, which also has the iterators. The error types
//! are in `cedar_policy_set_errors`, and `cedar_policy_merge` merges two sets.
//!
//! Contracts see a set as a list of bodies and a list of policies. See `PolicySets.antt` of `cedar_policy_maps`, which
//! also defines the invariant. For each call, `specs/Steps.antt` defines the set after it, or the first error in a
//! fixed order. `specs/Refusals.antt` states that a failed call leaves the set unchanged.
#![tactic(auto)]

mod compare;
mod default_hasher;
mod insertion;
pub mod linked;
mod merge;
pub mod policy_set;
mod remove;
mod text;
mod validate;

pub use cedar_policy_maps::{
    AllTemplates, IntoPolicies, LinkedIds, Policies, StaticPolicies, Templates, iters,
};
pub use cedar_policy_set_errors::{
    PolicySetError, PolicySetGetLinksError, PolicySetPolicyRemovalError,
    PolicySetTemplateRemovalError, PolicySetUnlinkError, PolicySetValidationError, err,
};
pub use linked::Linked;
pub use policy_set::PolicySet;
