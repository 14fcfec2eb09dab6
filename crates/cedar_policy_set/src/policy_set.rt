//! The type of policy sets, and its readers.
ghost use Rattle.std.specs.Prelude.{◌≡◌, ◌↔◌, IfErr, IfOk, IsErr, IsTrue};
ghost use Rattle.std.specs.List.{find};
ghost use Rattle.std.specs.Option.{option_copied, option_map};
ghost use Rattle.cedar_policy_maps.specs.PolicySets.{empty_set, is_body_at, is_policy_at, IsPolicySet};
ghost use Rattle.cedar_policy_maps.specs.Lists.{slotted_in, statics_in};
ghost use Rattle.cedar_policy_maps.specs.Maps.{set_in, maps_of, CanMakeSet};
ghost use Rattle.cedar_policy_set.specs.Refusals.{Answers, listing_error_of};
ghost use Rattle.cedar_policy_set.specs.Steps.{get_linked_step};

use cedar_ids::policy_id::PolicyID;
use cedar_policy::{Policy, Template};
use cedar_policy_maps::{
    AllTemplates, IntoPolicies, LinkedIds, Policies, PolicyMaps, StaticPolicies, Templates,
};
use cedar_policy_set_errors::err::PolicySetGetLinksError;
use indexmap::{IndexMap, IndexSet};
use std::alloc::{AllocError, Global};
use std::fmt;
use std::hash::{BuildHasher, BuildHasherDefault, FoldHasher};
use std::marker::Model;
use std::rc::Rc;

/// A policy set. It binds each id to a static policy, to a template, or to a link of a template in the set.
///
/// A set has two orders. The bodies belong to static policies and templates, in insertion order. The policies are the
/// static policies and links, in insertion order. Contracts see the two lists.
///
/// Equality compares both orders and all values. It ignores locations and does not allocate. `clone` allocates three
/// maps and the copies of the policies. `Display` does not allocate. A lookup by id scans nothing.
///
/// # Hashing
///
/// The maps hash ids with a fixed seed. If untrusted parties choose the ids, use [`PolicySet::with_hasher`] with a
/// randomly keyed builder. `S` is the type of the builder. The maps that the calls create use the same builder. The
/// choice of hasher never changes a result.
#[derive(Drop)]
pub struct PolicySet<S: BuildHasher = BuildHasherDefault<FoldHasher>> {
    pub(crate) maps: PolicyMaps<S>,
}

impl<S: BuildHasher> Model for PolicySet<S> {
    ghost use Rattle.cedar_policy_maps.specs.PolicySets.{SetParts};
    ghost use Rattle.cedar_policy_maps.specs.Codes.{set_code};

    ghost Value = { SetParts };

    ghost coded = { set_code };

    ghost view = { λ s. s.maps };
}

impl<S: BuildHasher> fmt::Debug for PolicySet<S> {
    /// Writes the three maps of the set.
    fn fmt<W: fmt::Write>(&self, f: &mut fmt::Formatter<W>) -> fmt::Result {
        fmt::Debug::fmt(&self.maps, f)
    }
}

impl<S: BuildHasher + Copy> PolicySet<S> {
    /// Creates an empty policy set with this builder of hashers. Does not allocate.
    ///
    /// # Differences from cedar-policy-core
    ///
    /// The original has only one hasher.
    pub fn with_hasher(alloc: Global, hasher: S) -> PolicySet<S>
        ensures { result ≡ empty_set }
    {
        PolicySet {
            maps: PolicyMaps::with_hasher(alloc, hasher),
        }
    }

    /// Returns the builder of hashers. Does not allocate.
    pub fn hasher(&self) -> &S {
        self.maps.hasher()
    }

    /// Creates a policy set from three maps. `templates` contains the bodies of templates and static policies, and
    /// `links` the policies. `template_to_links_map` contains the ids of the policies that use each body. All maps use
    /// the first map's builder of hashers.
    ///
    /// The caller must ensure that the maps agree:
    ///
    /// - Bodies and policies have their own ids as keys.
    /// - The template of each policy is among the bodies.
    /// - A link has an id that no body has, and its template is not the body of a static policy.
    /// - The third map has the ids of all bodies as keys, in their order.
    /// - Each list has the ids of the policies that use the body, in the order of the policies.
    ///
    /// # Errors
    ///
    /// Returns `AllocError` if an allocation fails.
    ///
    /// # Complexity
    ///
    /// O(n), where n is the number of policies and bodies. Allocates three maps, and the lists of templates.
    ///
    /// # Differences from cedar-policy-core
    ///
    /// In the original the third map can have any order.
    pub fn from_raw_components(
        templates: IndexMap<PolicyID, Rc<Template>, S>,
        links: IndexMap<PolicyID, Policy, S>,
        template_to_links_map: IndexMap<PolicyID, IndexSet<PolicyID, S>, S>,
    ) -> Result<PolicySet<S>, AllocError>
        requires { CanMakeSet (maps_of templates.entries links.entries template_to_links_map.entries) }
        ensures { IfOk result (λ s. s ≡ set_in (maps_of templates.entries links.entries
            template_to_links_map.entries)) }
    {
        let maps = PolicyMaps::from_raw_components(templates, links, template_to_links_map)?;
        Ok(PolicySet { maps })
    }

    /// Returns whether nothing is bound. Does not allocate.
    pub fn is_empty(&self) -> bool
        ensures value { IsTrue result ↔ (self.now ≡ empty_set) }
        ensures policy_set { IsPolicySet self.now }
    {
        self.maps.is_empty()
    }

    /// Returns the policy with this id, a static policy or a link. Makes one lookup, and does not allocate.
    pub fn get(&self, id: &PolicyID) -> Option<&Policy>
        ensures { option_copied result ≡ find (is_policy_at id.now) self.now.policies }
    {
        self.maps.policy_at(id)
    }

    /// Returns the shared body of the static policy or template with this id. Makes one lookup, and does not allocate.
    ///
    /// # Differences from cedar-policy-core
    ///
    /// The original returns a new reference to the body.
    pub fn get_template_arc(&self, id: &PolicyID) -> Option<&Rc<Template>>
        ensures { option_map (λ t. t.now.value) result ≡ find (is_body_at id.now) self.now.bodies }
    {
        self.maps.body_at(id)
    }

    /// Returns the body of the static policy or template with this id. Makes one lookup, and does not allocate.
    pub fn get_template(&self, id: &PolicyID) -> Option<&Template>
        ensures { option_copied result ≡ find (is_body_at id.now) self.now.bodies }
    {
        self.maps.template_at(id)
    }

    /// Iterates over the policies, static policies and links, in insertion order. Does not allocate.
    pub fn policies(&self) -> Policies<'_>
        ensures { result ≡ self.now.policies }
    {
        self.maps.policies()
    }

    /// Iterates over the policies, static policies and links, in insertion order. Consumes the set. Does not allocate.
    pub fn into_policies(self) -> IntoPolicies<S>
        ensures { result ≡ self.policies }
    {
        let PolicySet { maps } = self;
        maps.into_policies()
    }

    /// Iterates over the bodies of all static policies and templates, in insertion order. Does not allocate.
    pub fn all_templates(&self) -> AllTemplates<'_>
        ensures { result ≡ self.now.bodies }
    {
        self.maps.all_templates()
    }

    /// Iterates over the bodies that have slots, in insertion order. Does not allocate.
    pub fn templates(&self) -> Templates<'_>
        ensures { result ≡ slotted_in self.now.bodies }
    {
        self.maps.templates()
    }

    /// Iterates over the static policies, in insertion order. Does not allocate.
    pub fn static_policies(&self) -> StaticPolicies<'_>
        ensures { result ≡ statics_in self.now.policies }
    {
        self.maps.static_policies()
    }

    /// Iterates over the ids of the policies that use the body with this id, in insertion order. For a template they
    /// are its links. For a static policy it is the policy itself.
    ///
    /// # Errors
    ///
    /// - `MissingTemplate`: no body has the id.
    /// - `Memory`: an allocation failed, for the id of the other error.
    ///
    /// # Complexity
    ///
    /// At most two lookups. Allocates only for an error.
    #[tactic(auto, using(crate::specs::laws::StepLaws::listed))]
    pub fn get_linked_policies(
        &self,
        id: &PolicyID,
    ) -> Result<LinkedIds<'_>, PolicySetGetLinksError>
        ensures listed { Answers listing_error_of (λ i. i) result (get_linked_step self.now id.now) }
        ensures refused { IfErr result (λ e. IsErr (get_linked_step self.now id.now)) }
    {
        match self.maps.linked_ids(id) {
            None => Err(PolicySetGetLinksError::MissingTemplate(id.clone()?)),
            Some(ids) => Ok(ids),
        }
    }
}
