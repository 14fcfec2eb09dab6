//! Insertion into a policy set: policies, static policies, templates, and links of a template in the set.
ghost use Rattle.std.specs.Prelude.{◌≡◌, ◌<◌, length, false, IfOk, IfErr, OnOk, MatchOption, Ok, Some, None};
ghost use Rattle.cedar_body.specs.BodyEquality.{same_body};
ghost use Rattle.cedar_body.specs.Bodies.{body_slots};
ghost use Rattle.cedar_binding.specs.Views.{env_of};
ghost use Rattle.cedar_policy_maps.specs.PolicySets.{empty_set, bound_at, is_bound, Template as template_binding};
ghost use Rattle.cedar_policy_set.specs.Refusals.{IsRefusal, Steps, BuildsSet, set_error_of, linking_error_of};
ghost use Rattle.cedar_policy_set.specs.Steps.{add_static_step, add_template_step, add_step, link_onto, link_step};
ghost use Rattle.cedar_policy_set.specs.Steps.{add_then, UnlinksTo};
ghost use Rattle.cedar_policy_set.specs.laws.Standing.{HasNoTemplate, Stands, StandsThere, TellsBound, link_put};

use crate::policy_set::PolicySet;
use cedar_ids::policy_id::PolicyID;
use cedar_policy::{LinkingError, Policy, SlotEnv, StaticPolicy, Template};
use cedar_policy_maps::PolicyOrTemplate;
use cedar_policy_set_errors::err::PolicySetError;
use std::alloc::{AllocError, Global};
use std::hash::BuildHasher;
use std::rc::Rc;

impl<S: BuildHasher + Copy> PolicySet<S> {
    /// Creates a policy set from a list of policies, with this builder of hashers. Adds the policies one after another
    /// with [`PolicySet::add`].
    ///
    /// # Errors
    ///
    /// Returns the first error of [`PolicySet::add`]. There is no set then.
    ///
    /// - `Occupied`: an id is already in use.
    /// - `Memory`: an allocation failed.
    pub fn try_from_iter_with_hasher(
        alloc: Global,
        hasher: S,
        policies: Vec<Policy>,
    ) -> Result<PolicySet<S>, PolicySetError>
        ensures { BuildsSet set_error_of result (add_then (Ok empty_set) policies.items) }
    {
        let mut set = PolicySet::with_hasher(alloc, hasher);
        set.add_all(alloc, policies)?;
        Ok(set)
    }

    // Adds policies one after another, and stops at the first error.
    #[tactic(auto, using(crate::specs::laws::ListSteps::refused_then))]
    fn add_all(&mut self, alloc: Global, policies: Vec<Policy>) -> Result<(), PolicySetError>
        ensures ok { OnOk result (add_then (Ok self.old) policies.items ≡ Ok self.new) }
        ensures err { IfErr result (λ e. IsRefusal (set_error_of e) (add_then (Ok self.old) policies.items)) }
    {
        for policy in policies {
            self.add(alloc, policy)?;
        }
        Ok(())
    }

    // Returns an error if the id is in use.
    fn check_free(&self, id: &PolicyID) -> Result<(), PolicySetError>
        ensures free { OnOk result (is_bound self.now id.now ≡ false) }
        ensures bound { IfErr result (TellsBound self.now id.now) }
    {
        if self.maps.is_bound(id) {
            return Err(PolicySetError::Occupied { id: id.clone()? });
        }
        Ok(())
    }

    /// Adds a static policy. Its body is appended to the bodies, and the policy to the policies.
    ///
    /// # Errors
    ///
    /// After an error the set is unchanged.
    ///
    /// - `Occupied`: the policy's id is in use.
    /// - `Memory`: an allocation failed.
    ///
    /// # Complexity
    ///
    /// O(1) lookups. Allocates the shared body, the policy's block, and space in the two maps.
    pub fn add_static(&mut self, alloc: Global, policy: StaticPolicy) -> Result<(), PolicySetError>
        ensures { Steps set_error_of result self.old self.new (add_static_step self.old policy) }
    {
        self.check_free(policy.id())?;
        let policy = Policy::from_static(alloc, policy)?;
        self.maps.insert_with_body(policy)?;
        Ok(())
    }

    /// Adds a template, and appends it to the bodies.
    ///
    /// # Errors
    ///
    /// After an error the set is unchanged.
    ///
    /// - `Occupied`: the template's id is in use.
    /// - `Memory`: an allocation failed.
    ///
    /// # Complexity
    ///
    /// O(1) lookups. Allocates the shared template and space in the map.
    pub fn add_template(&mut self, alloc: Global, template: Template) -> Result<(), PolicySetError>
        ensures { Steps set_error_of result self.old self.new (add_template_step self.old template) }
    {
        // The template is dropped here if its id is in use.
        let template = self.check_free(template.id()).and(Ok(template))?;
        let template = Rc::new(alloc, template)?;
        self.maps.insert_template(template)?;
        Ok(())
    }

    /// Adds a policy, and appends it to the policies. If the policy is a link whose template is not in the set, the
    /// template is added first.
    ///
    /// # Errors
    ///
    /// The first failed check in this order decides. After an error the set is unchanged.
    ///
    /// - `Occupied`, with the id of a static policy: the id is in use.
    /// - `Occupied`, with the id of a link's template: the id is in use, but not by an equal template.
    /// - `Occupied`, with the id of a link: the id is in use, or it is the id of the link's template.
    /// - `Memory`: an allocation failed.
    ///
    /// # Complexity
    ///
    /// O(1) lookups. Allocates with the allocator of the set, and ignores the argument.
    ///
    /// # Differences from cedar-policy-core
    ///
    /// The original accepts four policies that this function rejects:
    ///
    /// - a link with the id of a template
    /// - a link whose missing template has the id of another link
    /// - a static policy whose id belongs to an equal template without slots
    /// - a link whose template is equal to a static policy
    pub fn add(&mut self, _alloc: Global, policy: Policy) -> Result<(), PolicySetError>
        ensures { Steps set_error_of result self.old self.new (add_step self.old policy) }
    {
        if policy.is_static() {
            return self.add_unlinked(policy);
        }
        self.add_link(policy)
    }

    // Adds a static policy.
    fn add_unlinked(&mut self, policy: Policy) -> Result<(), PolicySetError>
        requires { policy.link ≡ None }
        ensures { Steps set_error_of result self.old self.new (add_static_step self.old policy.template) }
    {
        // No effect at run time: this call shows the prover that a policy that is not a link is determined by its body.
        let _whole = policy.is_static();
        self.check_free(policy.id())?;
        self.maps.insert_with_body(policy)?;
        Ok(())
    }

    // Adds a link, according to the binding of its template's id.
    fn add_link(&mut self, policy: Policy) -> Result<(), PolicySetError>
        requires { policy.link ≡ None → ⊥ }
        ensures { Steps set_error_of result self.old self.new (add_step self.old policy) }
    {
        match self.maps.found(policy.template().id()) {
            None => self.add_with_template(policy),
            Some(PolicyOrTemplate::Template(template)) => {
                let same = are_same(template, policy.template());
                self.add_onto(policy, same)
            }
            Some(PolicyOrTemplate::Policy(_policy)) => Err(PolicySetError::Occupied {
                id: policy.template().id().clone()?,
            }),
        }
    }

    // Adds a link whose template's id is the id of a template in the set. `same` says whether the two templates are
    // equal.
    fn add_onto(&mut self, policy: Policy, same: bool) -> Result<(), PolicySetError>
        requires link { policy.link ≡ None → ⊥ }
        requires stands { StandsThere self.old policy.template.id same policy.template }
        ensures { Steps set_error_of result self.old self.new (add_step self.old policy) }
    {
        // No effect at run time: this call shows the prover that exactly the slots of the link's template are bound.
        let _total = policy.env();
        if !same {
            return Err(PolicySetError::Occupied {
                id: policy.template().id().clone()?,
            });
        }
        self.check_free(policy.id())?;
        self.maps.insert_policy(policy)?;
        Ok(())
    }

    // Adds a link whose template is not in the set.
    fn add_with_template(&mut self, policy: Policy) -> Result<(), PolicySetError>
        requires link { policy.link ≡ None → ⊥ }
        requires missing { bound_at self.old policy.template.id ≡ None }
        ensures { Steps set_error_of result self.old self.new (add_step self.old policy) }
    {
        // No effect at run time: this call shows the prover that exactly the slots of the link's template are bound.
        let _total = policy.env();
        let is_taken = policy.id() == policy.template().id() || self.maps.is_bound(policy.id());
        if is_taken {
            return Err(PolicySetError::Occupied {
                id: policy.id().clone()?,
            });
        }
        self.maps.insert_with_body(policy)?;
        Ok(())
    }

    // Appends a link of a template in the set. To unlink the new link restores the former set.
    #[tactic(auto, using(crate::specs::laws::StepLaws::no_template_step, crate::specs::laws::LinkLaws::link_undone, crate::specs::laws::LinkLaws::link_there))]
    pub(crate) fn insert_link_body(
        &mut self,
        alloc: Global,
        template_id: PolicyID,
        new_id: PolicyID,
        values: SlotEnv,
    ) -> Result<(), LinkingError>
        ensures steps { Steps linking_error_of result self.old self.new
            (link_step self.old template_id new_id (env_of values)) }
        ensures undone { OnOk result (UnlinksTo self.old template_id new_id (env_of values) self.new) }
        ensures there { OnOk result (0 < length self.new.policies) }
    {
        match self.template(&template_id)? {
            None => Err(LinkingError::NoSuchTemplate { id: template_id }),
            Some(template) => self.link_template(alloc, template, new_id, values),
        }
    }

    /// Links a template to a copy of these bindings under a new id, and appends the link to the policies. It differs
    /// from [`PolicySet::link`] in two ways:
    ///
    /// - It borrows the bindings and copies them only if they fit. So a caller can reuse one map for many links.
    /// - It returns no reference to the link.
    ///
    /// # Errors
    ///
    /// The first failed check in this order decides. After an error the set is unchanged.
    ///
    /// - `NoSuchTemplate`: the first id is not the id of a template. It may be the id of a static policy.
    /// - `ArityError` or `NotAnAction`: the bindings do not fit, as [`Template::check_binding`] reports.
    /// - `PolicyIdConflict`: the new id is in use.
    /// - `Memory`: an allocation failed.
    ///
    /// # Complexity
    ///
    /// O(1) lookups, and the check of the bindings. Allocates the link with its copy of the bindings, and space in the
    /// maps.
    ///
    /// # Differences from cedar-policy-core
    ///
    /// The original has no such function.
    #[tactic(auto, using(crate::specs::laws::StepLaws::no_template_step))]
    pub fn link_copying(
        &mut self,
        alloc: Global,
        template_id: &PolicyID,
        new_id: PolicyID,
        values: &SlotEnv,
    ) -> Result<(), LinkingError>
        ensures { Steps linking_error_of result self.old self.new
            (link_step self.old template_id.now new_id (env_of values.now)) }
    {
        match self.template(template_id)? {
            None => Err(LinkingError::NoSuchTemplate {
                id: template_id.clone()?,
            }),
            Some(template) => self.link_template_copying(alloc, template, new_id, values),
        }
    }

    // Returns a new reference to the template with this id, or nothing if the id is not a template's.
    fn template(&self, id: &PolicyID) -> Result<Option<Rc<Template>>, AllocError>
        ensures { IfOk result (λ o. MatchOption o (HasNoTemplate (bound_at self.now id.now))
            (λ t. bound_at self.now id.now ≡ Some (template_binding t.value))) }
    {
        match self.maps.bound_template(id) {
            None => Ok(None),
            Some(template) => Ok(Some(template.clone()?)),
        }
    }

    // Appends a link of this template, which is in the set under its id.
    #[tactic(auto, using(crate::specs::laws::StepLaws::unfit_is_refused, crate::specs::laws::StepLaws::fit_is_not_refused))]
    fn link_template(
        &mut self,
        alloc: Global,
        template: Rc<Template>,
        new_id: PolicyID,
        values: SlotEnv,
    ) -> Result<(), LinkingError>
        requires { Stands self.old template.value }
        ensures { Steps linking_error_of result self.old self.new
            (link_onto template.value self.old new_id (env_of values)) }
    {
        let policy = Template::link(alloc, template, new_id, values)?;
        self.insert_link(policy)
    }

    // Appends a link of this template, which is in the set under its id, to a copy of these bindings.
    #[tactic(auto, using(crate::specs::laws::StepLaws::unfit_is_refused, crate::specs::laws::StepLaws::fit_is_not_refused))]
    fn link_template_copying(
        &mut self,
        alloc: Global,
        template: Rc<Template>,
        new_id: PolicyID,
        values: &SlotEnv,
    ) -> Result<(), LinkingError>
        requires { Stands self.old template.value }
        ensures { Steps linking_error_of result self.old self.new
            (link_onto template.value self.old new_id (env_of values.now)) }
    {
        let policy = Template::link_copying(alloc, template, new_id, values)?;
        self.insert_link(policy)
    }

    // Appends a link whose template is in the set, if the link's id is free.
    fn insert_link(&mut self, policy: Policy) -> Result<(), LinkingError>
        requires link { policy.link ≡ None → ⊥ }
        requires stands { Stands self.old policy.template }
        ensures { Steps linking_error_of result self.old self.new (link_put self.old policy) }
    {
        // No effect at run time: this call shows the prover that exactly the slots of the link's template are bound.
        let _total = policy.env();
        let occupied = self.maps.is_bound(policy.id());
        if occupied {
            return Err(LinkingError::PolicyIdConflict {
                id: single_id_of(policy),
            });
        }
        self.maps.insert_policy(policy)?;
        Ok(())
    }
}

// Returns the id of a link, and drops the rest of the link.
fn single_id_of(link: Policy) -> PolicyID
    requires { link.link ≡ None → ⊥ }
    ensures { Some result ≡ link.link }
{
    let (template, id, values) = link.into_components();
    drop(template);
    drop(values);
    match id {
        Some(id) => id,
        None => unreachable!(),
    }
}

// Returns whether two templates are equal.
fn are_same(template: &Template, other: &Template) -> bool
    ensures { result ≡ same_body template.now other.now }
{
    template == other
}
