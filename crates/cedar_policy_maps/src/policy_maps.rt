//! The type of the three maps, with its constructors and iterators.
ghost use Rattle.std.specs.Prelude.{◌≡◌, ◌↔◌, [], IfOk, IsTrue};
ghost use Rattle.cedar_policy_maps.specs.PolicySets.{empty_set, IsPolicySet};
ghost use Rattle.cedar_policy_maps.specs.Lists.{slotted_in, statics_in};
ghost use Rattle.cedar_policy_maps.specs.Maps.{set_in, maps_of, CanMakeSet};

use crate::iters::{AllTemplates, IntoPolicies, Policies, SharedBodies, StaticPolicies, Templates};
use crate::lists::read_policies;
use crate::maps::{copy_of_bodies, copy_of_ids, copy_of_policies, filter_templates, linked_lists};
use cedar_ids::policy_id::PolicyID;
use cedar_linked_map::{LinkedMap, LinkedSet};
use cedar_policy::{Policy, Template};
use indexmap::{IndexMap, IndexSet};
use std::alloc::{AllocError, Global};
use std::fmt;
use std::hash::BuildHasher;
use std::marker::Model;
use std::rc::Rc;

/// The maps of a policy set. They contain the bodies of templates and static policies by id, the policies by id, and
/// the ids of the links of each template. `S` builds the hashers for ids.
///
/// `clone` copies the three maps and the policies. Lookups use hashing. A removal takes constant time and keeps the order
/// of the other entries.
/// Contracts see two lists: the bodies and the policies, each in insertion order.
#[derive(Drop)]
pub struct PolicyMaps<S: BuildHasher> {
    pub(crate) templates: LinkedMap<PolicyID, Rc<Template>, S>,
    pub(crate) links: LinkedMap<PolicyID, Policy, S>,
    // The ids of the links of each template. Bodies of static policies are not keys, because each has only its own
    // policy.
    pub(crate) template_to_links_map: LinkedMap<PolicyID, LinkedSet<PolicyID, S>, S>,
}

impl<S: BuildHasher> Model for PolicyMaps<S> {
    ghost use Rattle.cedar_policy_maps.specs.PolicySets.{SetParts};
    ghost use Rattle.cedar_policy_maps.specs.Codes.{set_code};
    ghost use Rattle.cedar_policy_maps.specs.Maps.{set_in, maps_of, DoAgree};

    ghost Value = { SetParts };

    ghost coded = { set_code };

    ghost view = { λ s. set_in (maps_of s.templates.entries s.links.entries s.template_to_links_map.entries) };

    ghost invariant = { λ s. DoAgree (maps_of s.templates.entries s.links.entries s.template_to_links_map.entries) };
}

impl<S: BuildHasher + Copy> PolicyMaps<S> {
    /// Creates empty maps, with this builder of hashers. Does not allocate.
    pub fn with_hasher(alloc: Global, hasher: S) -> PolicyMaps<S>
        ensures { result ≡ empty_set }
    {
        PolicyMaps {
            templates: LinkedMap::with_hasher(alloc, hasher),
            links: LinkedMap::with_hasher(alloc, hasher),
            template_to_links_map: LinkedMap::with_hasher(alloc, hasher),
        }
    }

    /// Returns the builder of hashers. Does not allocate.
    pub fn hasher(&self) -> &S {
        self.templates.hasher()
    }

    /// Creates the maps of a set from three maps. `templates` contains the bodies of templates and static policies, and
    /// `links` the policies. The third map contains the ids of the policies that use each body. From the third map only
    /// the lists of templates are kept. All maps use the first map's builder of hashers.
    ///
    /// The caller must ensure that the maps agree:
    ///
    /// - Bodies and policies have their own ids as keys.
    /// - The template of each policy is among the bodies.
    /// - A link has an id that no body has, and its template is not the body of a static policy.
    /// - The third map has the ids of all bodies as keys, in their order.
    /// - Each list has the ids of the policies that use the body, in the order of the policies.
    ///
    /// # Errors
    ///
    /// Returns `AllocError` if an allocation fails.
    ///
    /// # Complexity
    ///
    /// O(n), where n is the number of policies and bodies. Allocates three maps, and the lists of templates.
    pub fn from_raw_components(
        templates: IndexMap<PolicyID, Rc<Template>, S>,
        links: IndexMap<PolicyID, Policy, S>,
        template_to_links_map: IndexMap<PolicyID, IndexSet<PolicyID, S>, S>,
    ) -> Result<PolicyMaps<S>, AllocError>
        requires { CanMakeSet (maps_of templates.entries links.entries template_to_links_map.entries) }
        ensures { IfOk result (λ s. s ≡ set_in (maps_of templates.entries links.entries
            template_to_links_map.entries)) }
    {
        // No effect at run time: the contracts of these calls state that no two keys of a map are equal, and the
        // invariant of each policy.
        let _bodies = templates.len();
        let _policies = links.len();
        read_policies(links.values().as_slice());
        let mut template_to_links_map = template_to_links_map;
        filter_templates(&mut template_to_links_map, &links);
        let alloc = *templates.allocator();
        let template_to_links_map = linked_lists(alloc, template_to_links_map)?;
        let templates = LinkedMap::from_index_map(alloc, templates)?;
        let links = LinkedMap::from_index_map(alloc, links)?;
        Ok(PolicyMaps {
            templates,
            links,
            template_to_links_map,
        })
    }

    /// Returns whether the set is empty. Does not allocate.
    pub fn is_empty(&self) -> bool
        ensures value { IsTrue result ↔ (self.now ≡ empty_set) }
        ensures policy_set { IsPolicySet self.now }
    {
        // No effect at run time: for the proof, this borrow states that the maps contain a policy set.
        let _ = &self.templates;
        are_empty(self.shared_bodies(), self.policies())
    }

    /// Iterates over all policies, static policies and links, in insertion order. Does not allocate.
    pub fn policies(&self) -> Policies<'_>
        ensures { result ≡ self.now.policies }
    {
        Policies::of(self.links.values())
    }

    /// Consumes the maps and iterates over all policies, static policies and links, in insertion order. Does not
    /// allocate.
    pub fn into_policies(self) -> IntoPolicies<S>
        ensures { result ≡ self.policies }
    {
        let PolicyMaps {
            templates,
            links,
            template_to_links_map: map,
        } = self;
        drop(templates);
        drop(map);
        IntoPolicies::of(links)
    }

    /// Iterates over all bodies, of static policies and of templates, in insertion order. Does not allocate.
    pub fn all_templates(&self) -> AllTemplates<'_>
        ensures { result ≡ self.now.bodies }
    {
        AllTemplates::of(self.shared_bodies())
    }

    /// Iterates over the bodies that have slots, in insertion order. Does not allocate.
    pub fn templates(&self) -> Templates<'_>
        ensures { result ≡ slotted_in self.now.bodies }
    {
        Templates::of(self.shared_bodies())
    }

    /// Iterates over the static policies, in insertion order. Does not allocate.
    pub fn static_policies(&self) -> StaticPolicies<'_>
        ensures { result ≡ statics_in self.now.policies }
    {
        StaticPolicies::of(self.policies())
    }
}

// Returns whether both iterators have no items.
fn are_empty(mut bodies: SharedBodies<'_>, mut policies: Policies<'_>) -> bool
    ensures { IsTrue result ↔ ((bodies.entry ≡ []) × (policies.entry ≡ [])) }
{
    bodies.next().is_none() && policies.next().is_none()
}

impl<S: BuildHasher + Copy> Clone for PolicyMaps<S> {
    ghost is_clone = { λ x y. y ≡ x };

    fn clone(&self) -> Result<PolicyMaps<S>, AllocError> {
        let templates = copy_of_bodies(&self.templates)?;
        let links = copy_of_policies(&self.links)?;
        let template_to_links_map = copy_of_ids(&self.template_to_links_map)?;
        Ok(PolicyMaps {
            templates,
            links,
            template_to_links_map,
        })
    }
}

impl<S: BuildHasher> fmt::Debug for PolicyMaps<S> {
    /// Writes the three maps as the fields of a `PolicySet`.
    fn fmt<W: fmt::Write>(&self, f: &mut fmt::Formatter<W>) -> fmt::Result {
        f.debug_struct("PolicySet")
            .field("templates", &self.templates)
            .field("links", &self.links)
            .field("template_to_links_map", &self.template_to_links_map)
            .finish()
    }
}
