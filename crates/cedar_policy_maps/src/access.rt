//! Lookups in the three maps, insertions and removals.
ghost use Rattle.std.specs.Prelude.{◌≡◌, ◌^◌, OnOk, OnErr, None, Some, false, length, ◌<◌, not};
ghost use Rattle.std.specs.List.{find, list_any};
ghost use Rattle.std.specs.Option.{option_copied, option_map};
ghost use Rattle.cedar_policy_maps.specs.PolicySets.{bound_at, is_bound, is_body_at, is_policy_at, has_links};
ghost use Rattle.cedar_policy_maps.specs.PolicySets.{template_bound};
ghost use Rattle.cedar_policy_maps.specs.PolicySets.{with_template, with_policy, with_body_and_policy, without_id, last_policy};
ghost use Rattle.cedar_policy_maps.specs.Lists.{ids_in};
ghost use Rattle.cedar_policy_maps.specs.Maps.{templates_in};
ghost use Rattle.cedar_policy_maps.specs.Founds.{found_binding};
ghost use Rattle.cedar_policy_maps.specs.Insertions.{CanInsert, CanInsertWithBody};
ghost use Rattle.cedar_policy_maps.specs.laws.MapLaws.{has_ids};

use crate::iters::{LinkedIds, SharedBodies};
use crate::lists::{has_no_slots, is_link};
use crate::maps::{
    insert_reserved, list_policy, remove_body, reserve_with_body, room_for_body, room_for_list,
    unlist,
};
use crate::policy_maps::PolicyMaps;
use crate::policy_or_template::PolicyOrTemplate;
use cedar_ids::policy_id::PolicyID;
use cedar_linked_map::LinkedSet;
use cedar_policy::{Policy, Template};
use std::alloc::AllocError;
use std::hash::BuildHasher;
use std::rc::Rc;

impl<S: BuildHasher + Copy> PolicyMaps<S> {
    /// Iterates over the shared bodies, in insertion order. Does not allocate.
    pub fn shared_bodies(&self) -> SharedBodies<'_>
        ensures { result ≡ self.now.bodies }
    {
        SharedBodies::of(self.templates.values())
    }

    /// Returns the number of bodies, of static policies and of templates. Does not allocate.
    pub fn body_count(&self) -> usize
        ensures count { result ≡ length self.now.bodies }
        ensures small { result < 2 ^ 63 }
    {
        self.templates.len()
    }

    /// Returns the number of policies, static policies and links. Does not allocate.
    pub fn policy_count(&self) -> usize
        ensures count { result ≡ length self.now.policies }
        ensures small { result < 2 ^ 63 }
    {
        self.links.len()
    }

    /// Returns the shared body with this id, if there is one. Does not allocate.
    pub fn body_at(&self, id: &PolicyID) -> Option<&Rc<Template>>
        ensures { option_map (λ t. t.now.value) result ≡ find (is_body_at id.now) self.now.bodies }
    {
        self.templates.get(id)
    }

    /// Returns the body with this id, if there is one. Does not allocate.
    pub fn template_at(&self, id: &PolicyID) -> Option<&Template>
        ensures { option_copied result ≡ find (is_body_at id.now) self.now.bodies }
    {
        match self.body_at(id) {
            None => None,
            Some(template) => Some(&**template),
        }
    }

    /// Returns the policy with this id, if there is one. Does not allocate.
    pub fn policy_at(&self, id: &PolicyID) -> Option<&Policy>
        ensures { option_copied result ≡ find (is_policy_at id.now) self.now.policies }
    {
        self.links.get(id)
    }

    /// Returns the shared body with this id, if there is one. Tries the place `next` first, and sets it to the place after
    /// the body. Lookups in the order of the bodies do not hash. No contract states `next`, which only saves time. Does
    /// not allocate.
    pub fn body_near(&self, id: &PolicyID, next: &mut usize) -> Option<&Rc<Template>>
        ensures { option_map (λ t. t.now.value) result ≡ find (is_body_at id.now) self.now.bodies }
    {
        match self.templates.get_near(id, next) {
            None => None,
            Some((_, template)) => Some(template),
        }
    }

    /// Returns the policy with this id and its place, if there is one. Tries the place `next` first, and sets it to the
    /// place after the policy. Lookups in the order of the policies do not hash. No contract states the places, which only
    /// save time. Does not allocate.
    pub fn policy_near(&self, id: &PolicyID, next: &mut usize) -> Option<(usize, &Policy)>
        ensures { option_map (λ p. p.1.now) result ≡ find (is_policy_at id.now) self.now.policies }
    {
        self.links.get_near(id, next)
    }

    /// Returns whether a body has this id. Does not allocate.
    pub fn has_body(&self, id: &PolicyID) -> bool
        ensures { result ≡ list_any (is_body_at id.now) self.now.bodies }
    {
        self.templates.contains_key(id)
    }

    /// Returns whether a policy has this id. Does not allocate.
    pub fn has_policy(&self, id: &PolicyID) -> bool
        ensures { result ≡ list_any (is_policy_at id.now) self.now.policies }
    {
        self.links.contains_key(id)
    }

    // Returns the ids of the links of the template with this id, if there is one.
    fn links_of(&self, id: &PolicyID) -> Option<&LinkedSet<PolicyID, S>>
        ensures { option_map (λ s. s.now.keys) result ≡ option_map (λ t. ids_in t.id self.now.policies)
            (find (is_body_at id.now) (templates_in self.now.policies self.now.bodies)) }
    {
        self.template_to_links_map.get(id)
    }

    /// Returns the ids of the policies that use the body with this id, if there is one. For a template these are its
    /// links, and for a static policy it is the policy itself. Does not allocate.
    pub fn linked_ids(&self, id: &PolicyID) -> Option<LinkedIds<'_>>
        ensures { result ≡ option_map (λ t. ids_in t.id self.now.policies) (find (is_body_at id.now) self.now.bodies) }
    {
        // No effect at run time: for the proof, this borrow states that the maps contain a policy set.
        let _ = &self.templates;
        match self.policy_at(id) {
            None => match self.links_of(id) {
                None => None,
                Some(ids) => Some(LinkedIds::of(ids.iter())),
            },
            Some(policy) => {
                if is_link(policy) {
                    None
                } else {
                    Some(LinkedIds::of_one(policy.id()))
                }
            }
        }
    }

    /// Returns the policy or template with this id, if there is one. Does not allocate.
    pub fn found(&self, id: &PolicyID) -> Option<PolicyOrTemplate<'_>>
        ensures { option_map found_binding result ≡ bound_at self.now id.now }
    {
        match self.policy_at(id) {
            Some(policy) => Some(PolicyOrTemplate::Policy(policy)),
            None => match self.body_at(id) {
                Some(template) => Some(PolicyOrTemplate::Template(template)),
                None => None,
            },
        }
    }

    /// Returns the policy or template with this id, as [`PolicyMaps::found`] does. If it is a policy, sets `place` to its
    /// place, from which [`PolicyMaps::take_near`] removes it. No contract states the place, which only saves time. Does
    /// not allocate.
    pub fn found_near(&self, id: &PolicyID, place: &mut usize) -> Option<PolicyOrTemplate<'_>>
        ensures { option_map found_binding result ≡ bound_at self.now id.now }
    {
        let mut next = usize::MAX;
        match self.policy_near(id, &mut next) {
            Some((at, policy)) => {
                *place = at;
                Some(PolicyOrTemplate::Policy(policy))
            }
            None => self.found(id),
        }
    }

    /// Returns the shared template with this id, if there is one. A static policy or a link with the id does not count.
    /// A template with slots is found by a single lookup. Does not allocate.
    pub fn bound_template(&self, id: &PolicyID) -> Option<&Rc<Template>>
        ensures { option_map (λ t. t.now.value) result ≡ template_bound (bound_at self.now id.now) }
    {
        match self.body_at(id) {
            None => None,
            Some(template) => {
                if self.is_template(id, template) {
                    Some(template)
                } else {
                    None
                }
            }
        }
    }

    // Returns whether the body with this id is a template and not the body of a static policy. A body with slots is a
    // template, so no policy is looked up for it.
    fn is_template(&self, id: &PolicyID, body: &Template) -> bool
        requires { find (is_body_at id.now) self.now.bodies ≡ Some body.now }
        ensures { result ≡ not (list_any (is_policy_at id.now) self.now.policies) }
    {
        // No effect at run time: for the proof, this borrow states that the maps contain a policy set.
        let _ = &self.templates;
        if has_no_slots(body) {
            return !self.has_policy(id);
        }
        true
    }

    /// Returns whether an id is in use. Does not allocate.
    pub fn is_bound(&self, id: &PolicyID) -> bool
        ensures { result ≡ is_bound self.now id.now }
    {
        self.has_policy(id) || self.has_body(id)
    }

    /// Returns whether the template with this id has links. Does not allocate.
    pub fn is_linked(&self, id: &PolicyID) -> bool
        ensures { result ≡ has_links self.now id.now }
    {
        // No effect at run time: for the proof, this borrow states how the maps agree.
        let _ = &self.templates;
        has_ids(self.links_of(id))
    }

    /// Appends a template. The caller must ensure that its id is not in use.
    ///
    /// # Errors
    ///
    /// Returns `AllocError` if an allocation fails, and then leaves the content of the maps unchanged.
    ///
    /// # Complexity
    ///
    /// Allocates two entries and two copies of the id.
    pub fn insert_template(&mut self, template: Rc<Template>) -> Result<(), AllocError>
        requires { is_bound self.old template.value.id ≡ false }
        ensures ok { OnOk result (self.new ≡ with_template self.old template.value) }
        ensures err { OnErr result (self.new ≡ self.old) }
    {
        let (id, listed) = room_for_body(
            &mut self.templates,
            &mut self.template_to_links_map,
            &template,
        )?;
        let ids = LinkedSet::with_hasher(*self.templates.allocator(), *self.templates.hasher());
        insert_reserved(&mut self.templates, id, template);
        insert_reserved(&mut self.template_to_links_map, listed, ids);
        Ok(())
    }

    /// Appends a link of an existing template. The caller must ensure that the link's id is not in use, that its
    /// template is in the maps, and that its bindings fit.
    ///
    /// # Errors
    ///
    /// Returns `AllocError` if an allocation fails, and then leaves the content of the maps unchanged.
    ///
    /// # Complexity
    ///
    /// Allocates the entry, two copies of the id, and space in the list of the template's links.
    pub fn insert_policy(&mut self, policy: Policy) -> Result<(), AllocError>
        requires { CanInsert self.old policy }
        ensures ok { OnOk result (self.new ≡ with_policy self.old policy) }
        ensures err { OnErr result (self.new ≡ self.old) }
    {
        let id = list_policy(&mut self.links, &mut self.template_to_links_map, &policy)?;
        insert_reserved(&mut self.links, id, policy);
        Ok(())
    }

    /// Appends a policy and its template. The caller must ensure that their ids are not in use and, for a link, that
    /// they differ and the bindings fit.
    ///
    /// # Errors
    ///
    /// Returns `AllocError` if an allocation fails, and then leaves the content of the maps unchanged.
    ///
    /// # Complexity
    ///
    /// Allocates the entries, copies of the ids and, for a link, the list of the template's links.
    pub fn insert_with_body(&mut self, policy: Policy) -> Result<(), AllocError>
        requires { CanInsertWithBody self.old policy }
        ensures ok { OnOk result (self.new ≡ with_body_and_policy self.old policy.template policy) }
        ensures err { OnErr result (self.new ≡ self.old) }
    {
        if is_link(&policy) {
            self.insert_link_with_body(policy)
        } else {
            self.insert_static(policy)
        }
    }

    // Appends a static policy and its body.
    fn insert_static(&mut self, policy: Policy) -> Result<(), AllocError>
        requires joins { CanInsertWithBody self.old policy }
        requires no_link { policy.link ≡ None }
        ensures ok { OnOk result (self.new ≡ with_body_and_policy self.old policy.template policy) }
        ensures err { OnErr result (self.new ≡ self.old) }
    {
        let joining = reserve_with_body(&mut self.templates, &mut self.links, &policy)?;
        insert_reserved(&mut self.templates, joining.body_id, joining.body);
        insert_reserved(&mut self.links, joining.policy_id, policy);
        Ok(())
    }

    // Appends a link and its template.
    fn insert_link_with_body(&mut self, policy: Policy) -> Result<(), AllocError>
        requires joins { CanInsertWithBody self.old policy }
        requires link { policy.link ≡ None → ⊥ }
        ensures ok { OnOk result (self.new ≡ with_body_and_policy self.old policy.template policy) }
        ensures err { OnErr result (self.new ≡ self.old) }
    {
        let (under, ids) = room_for_list(&mut self.template_to_links_map, &policy)?;
        let both = reserve_with_body(&mut self.templates, &mut self.links, &policy)?;
        insert_reserved(&mut self.templates, both.body_id, both.body);
        insert_reserved(&mut self.links, both.policy_id, policy);
        insert_reserved(&mut self.template_to_links_map, under, ids);
        Ok(())
    }

    /// Removes the entries with this id, and returns the body and the policy. The order of the other entries does not
    /// change. The caller must ensure that no template with this id has links. Does not allocate.
    pub fn take(&mut self, id: &PolicyID) -> (Option<Rc<Template>>, Option<Policy>)
        requires { has_links self.old id.now ≡ false }
        ensures body { option_map (λ t. t.value) result.0 ≡ find (is_body_at id.now) self.old.bodies }
        ensures policy { result.1 ≡ find (is_policy_at id.now) self.old.policies }
        ensures taken { self.new ≡ without_id self.old id.now }
    {
        self.take_near(id, usize::MAX)
    }

    /// Removes the entries with this id, as [`PolicyMaps::take`] does. Tries this place of the policy first, so that a
    /// removal after [`PolicyMaps::found_near`] does not look the id up again. The caller must ensure that no template with
    /// this id has links. Does not allocate.
    pub fn take_near(
        &mut self,
        id: &PolicyID,
        place: usize,
    ) -> (Option<Rc<Template>>, Option<Policy>)
        requires { has_links self.old id.now ≡ false }
        ensures body { option_map (λ t. t.value) result.0 ≡ find (is_body_at id.now) self.old.bodies }
        ensures policy { result.1 ≡ find (is_policy_at id.now) self.old.policies }
        ensures taken { self.new ≡ without_id self.old id.now }
    {
        let policy = self.links.shift_remove_near(id, place);
        let template = remove_body(
            &mut self.templates,
            &mut self.template_to_links_map,
            &policy,
            id,
        );
        unlist(&mut self.template_to_links_map, &policy, id);
        (template, policy)
    }

    /// Returns the last policy. The caller must ensure that there is a policy. Does not allocate.
    pub fn last(&self) -> &Policy
        requires { 0 < length self.now.policies }
        ensures { Some result.now ≡ last_policy self.now }
    {
        // No effect at run time: for the proof, this call states the number of policies.
        let _count = self.policy_count();
        match self.links.last() {
            None => unreachable!(),
            Some((_, policy)) => policy,
        }
    }
}

// Returns whether there are ids.
fn has_ids<S: BuildHasher + Copy>(ids: Option<&LinkedSet<PolicyID, S>>) -> bool
    ensures { result ≡ has_ids (option_map (λ s. s.now.keys) ids.entry) }
{
    match ids {
        None => false,
        Some(ids) => !ids.is_empty(),
    }
}
