//! Constructors of policy sets with the default hasher.
ghost use Rattle.std.specs.Prelude.{◌≡◌, IfOk, Ok};
ghost use Rattle.cedar_policy_maps.specs.PolicySets.{empty_set, HasDistinctId};
ghost use Rattle.cedar_policy_set.specs.Refusals.{BuildsSet, set_error_of};
ghost use Rattle.cedar_policy_set.specs.Steps.{add_step, add_then};

use crate::policy_set::PolicySet;
use cedar_policy::Policy;
use cedar_policy_set_errors::err::PolicySetError;
use std::alloc::{AllocError, Global};
use std::hash::BuildHasherDefault;

impl PolicySet {
    /// Creates an empty policy set. Does not allocate.
    pub fn new(alloc: Global) -> PolicySet
        ensures { result ≡ empty_set }
    {
        PolicySet::with_hasher(alloc, BuildHasherDefault::new())
    }

    /// Creates a policy set from one policy. If the policy is a link, its template is inserted too. The result is the
    /// same as adding the policy to an empty set with [`PolicySet::add`].
    ///
    /// The caller must ensure that a link does not have the id of its template.
    ///
    /// # Errors
    ///
    /// Returns `AllocError` if an allocation fails.
    ///
    /// # Differences from cedar-policy-core
    ///
    /// The original accepts any link.
    #[tactic(auto, using(cedar_policy_maps::specs::laws::SetLaws::alone))]
    pub fn singleton(alloc: Global, policy: Policy) -> Result<PolicySet, AllocError>
        requires { HasDistinctId policy }
        ensures { IfOk result (λ s. add_step empty_set policy ≡ Ok s) }
    {
        // No effect at run time: these calls show the prover that exactly the slots of the policy's template are bound.
        let _whole = policy.is_static();
        let _total = policy.env();
        let mut set = PolicySet::new(alloc);
        set.maps.insert_with_body(policy)?;
        Ok(set)
    }

    /// Creates a policy set from a list of policies. Adds them one after another with [`PolicySet::add`].
    ///
    /// # Errors
    ///
    /// Returns the first error of [`PolicySet::add`]. There is no set then.
    ///
    /// - `Occupied`: an id is already in use.
    /// - `Memory`: an allocation failed.
    pub fn try_from_iter(alloc: Global, policies: Vec<Policy>) -> Result<PolicySet, PolicySetError>
        ensures { BuildsSet set_error_of result (add_then (Ok empty_set) policies.items) }
    {
        PolicySet::try_from_iter_with_hasher(alloc, BuildHasherDefault::new(), policies)
    }
}
