//! Removal from a policy set: links, static policies and templates.
ghost use Rattle.std.specs.Prelude.{◌≡◌, IfErr, IsErr};
ghost use Rattle.cedar_policy_maps.specs.PolicySets.{policy_binding, Template as template_binding};
ghost use Rattle.cedar_policy_set.specs.Refusals.{RemovesFromSet, unlinking_error_of, removal_error_of};
ghost use Rattle.cedar_policy_set.specs.Refusals.{template_removal_error_of};
ghost use Rattle.cedar_policy_set.specs.Steps.{unlink_step, remove_static_step, remove_template_step};

use crate::policy_set::PolicySet;
use cedar_ids::policy_id::PolicyID;
use cedar_policy::{Policy, Template};
use cedar_policy_maps::{PolicyOrTemplate, is_link};
use cedar_policy_set_errors::err::{
    PolicySetPolicyRemovalError, PolicySetTemplateRemovalError, PolicySetUnlinkError,
};
use std::hash::BuildHasher;

impl<S: BuildHasher + Copy> PolicySet<S> {
    /// Removes the link with this id and returns it. The order of the remaining policies does not change.
    ///
    /// # Errors
    ///
    /// After an error the set is unchanged.
    ///
    /// - `UnlinkingError`: the id is not in use.
    /// - `NotLinkError`: the id belongs to a static policy or a template.
    /// - `Memory`: an allocation failed for the id of another error, so the removal of a link never returns it.
    ///
    /// # Complexity
    ///
    /// O(1). Makes a few lookups. Allocates only for an error.
    ///
    /// # Differences from cedar-policy-core
    ///
    /// The original panics if its map of links does not contain the template.
    pub fn unlink(&mut self, id: &PolicyID) -> Result<Policy, PolicySetUnlinkError>
        ensures taken { RemovesFromSet unlinking_error_of policy_binding result self.old self.new id.now
            (unlink_step self.old id.now) }
        ensures refused { IfErr result (λ e. IsErr (unlink_step self.old id.now)) }
    {
        // No effect at run time: this call shows the prover that the maps satisfy the invariant of a policy set.
        let _policy_set = self.maps.is_empty();
        let mut place = usize::MAX;
        match self.maps.found_near(id, &mut place) {
            None => return Err(PolicySetUnlinkError::UnlinkingError(id.clone()?)),
            Some(PolicyOrTemplate::Template(_template)) => {
                return Err(PolicySetUnlinkError::NotLinkError(id.clone()?));
            }
            Some(PolicyOrTemplate::Policy(policy)) => {
                if !is_link(policy) {
                    return Err(PolicySetUnlinkError::NotLinkError(id.clone()?));
                }
            }
        }
        let (body, policy) = self.maps.take_near(id, place);
        drop(body);
        match policy {
            Some(policy) => Ok(policy),
            None => unreachable!(),
        }
    }

    /// Removes the static policy with this id and its body, and returns the policy. The order of the remaining policies
    /// and bodies does not change.
    ///
    /// # Errors
    ///
    /// After an error the set is unchanged.
    ///
    /// - `RemovePolicyNoLinkError`: no policy has the id. It may be the id of a template.
    /// - `RemovePolicyNoTemplateError`: the id belongs to a link.
    /// - `Memory`: an allocation failed for the id of another error, so the removal of a static policy never returns
    ///   it.
    ///
    /// # Complexity
    ///
    /// O(1). Makes a few lookups. Allocates only for an error.
    ///
    /// # Differences from cedar-policy-core
    ///
    /// In the original a call that fails because the id belongs to a link moves the link to the end.
    pub fn remove_static(&mut self, id: &PolicyID) -> Result<Policy, PolicySetPolicyRemovalError>
        ensures taken { RemovesFromSet removal_error_of policy_binding result self.old self.new id.now
            (remove_static_step self.old id.now) }
        ensures refused { IfErr result (λ e. IsErr (remove_static_step self.old id.now)) }
    {
        // No effect at run time: this call shows the prover that the maps satisfy the invariant of a policy set.
        let _policy_set = self.maps.is_empty();
        let mut place = usize::MAX;
        match self.maps.found_near(id, &mut place) {
            None => return Err(PolicySetPolicyRemovalError::RemovePolicyNoLinkError(id.clone()?)),
            Some(PolicyOrTemplate::Template(_template)) => {
                return Err(PolicySetPolicyRemovalError::RemovePolicyNoLinkError(id.clone()?));
            }
            Some(PolicyOrTemplate::Policy(policy)) => {
                if is_link(policy) {
                    return Err(PolicySetPolicyRemovalError::RemovePolicyNoTemplateError(
                        id.clone()?,
                    ));
                }
            }
        }
        let (body, policy) = self.maps.take_near(id, place);
        drop(body);
        match policy {
            Some(policy) => Ok(policy),
            None => unreachable!(),
        }
    }

    /// Removes the template with this id and returns it. The order of the remaining bodies does not change.
    ///
    /// # Errors
    ///
    /// After an error the set is unchanged.
    ///
    /// - `RemovePolicyNoTemplateError`: the id is not in use.
    /// - `NotTemplateError`: the id belongs to a static policy or a link.
    /// - `RemoveTemplateWithLinksError`: the template has links.
    /// - `Memory`: an allocation failed.
    ///
    /// # Complexity
    ///
    /// O(1). Makes a few lookups. Allocates a copy of the template, because it can be shared.
    ///
    /// # Differences from cedar-policy-core
    ///
    /// The original panics if its map of links does not contain the template.
    pub fn remove_template(
        &mut self,
        id: &PolicyID,
    ) -> Result<Template, PolicySetTemplateRemovalError>
        ensures { RemovesFromSet template_removal_error_of template_binding result self.old self.new id.now
            (remove_template_step self.old id.now) }
    {
        let template = match self.maps.found(id) {
            None => {
                return Err(PolicySetTemplateRemovalError::RemovePolicyNoTemplateError(id.clone()?));
            }
            Some(PolicyOrTemplate::Policy(_policy)) => {
                return Err(PolicySetTemplateRemovalError::NotTemplateError(id.clone()?));
            }
            Some(PolicyOrTemplate::Template(template)) => {
                let template: &Template = template;
                template
            }
        };
        if self.maps.is_linked(id) {
            return Err(PolicySetTemplateRemovalError::RemoveTemplateWithLinksError(id.clone()?));
        }
        let template = template.clone()?;
        let (body, policy) = self.maps.take(id);
        drop(body);
        drop(policy);
        Ok(template)
    }
}
