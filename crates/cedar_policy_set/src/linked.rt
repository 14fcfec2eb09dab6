//! A reference to the policy that `link` added.
ghost use Rattle.std.specs.Prelude.{◌≡◌, ◌<◌, IfOk, Some, length};
ghost use Rattle.std.specs.Borrow.{sem};
ghost use Rattle.cedar_binding.specs.Views.{env_of};
ghost use Rattle.cedar_policy_maps.specs.PolicySets.{last_policy};
ghost use Rattle.cedar_policy_set.specs.Refusals.{Answers, linking_error_of};
ghost use Rattle.cedar_policy_set.specs.Steps.{link_step, UnlinksTo};

use crate::policy_set::PolicySet;
use cedar_ids::policy_id::PolicyID;
use cedar_policy::{LinkingError, Policy, SlotEnv};
use std::alloc::Global;
use std::hash::{BuildHasher, BuildHasherDefault, FoldHasher};
use std::ops::Deref;

/// A reference to the link that [`PolicySet::link`] added. It borrows the set mutably and dereferences to the policy.
///
/// # Differences from cedar-policy-core
///
/// The original returns a plain reference to the policy. With a plain reference next to an error that owns an id, no
/// contract could state the set after the call.
#[derive(Debug)]
pub struct Linked<'a, S: BuildHasher = BuildHasherDefault<FoldHasher>> {
    set: &'a mut PolicySet<S>,
    ghost there: { 0 < length set.now.policies },
}

impl<S: BuildHasher + Copy> PolicySet<S> {
    ghost use Rattle.cedar_policy_set.specs.Lending.{LeavesUnchangedIfErr};

    /// Links the template with this id to these bindings under a new id, and appends the link to the policies. To
    /// unlink the new link returns it and restores the former set, including both orders.
    ///
    /// # Errors
    ///
    /// The first failed check in this order decides. After an error the set is unchanged.
    ///
    /// - `NoSuchTemplate`: the first id is not the id of a template. It may be the id of a static policy.
    /// - `ArityError` or `NotAnAction`: the bindings do not fit, as `Template::check_binding` reports.
    /// - `PolicyIdConflict`: the new id is in use.
    /// - `Memory`: an allocation failed.
    ///
    /// # Complexity
    ///
    /// O(1) lookups, and the check of the bindings. Allocates the link, space in the maps, and the lists of an error.
    pub fn link(
        &mut self,
        alloc: Global,
        template_id: PolicyID,
        new_id: PolicyID,
        values: SlotEnv,
    ) -> Result<Linked<'_, S>, LinkingError>
        ensures* refused { sem 𝓛 (LeavesUnchangedIfErr S.row S.Hasher.row S.BuildHasher S.Hasher.Hasher
            self.entry result) }
        ensures same_set { IfOk result (λ l. l.set.ghost_name ≡ self.entry.ghost_name) }
        ensures steps { Answers linking_error_of (λ l. l.set.now) result
            (link_step self.old template_id new_id (env_of values)) }
        ensures undone { IfOk result (λ l. UnlinksTo self.old template_id new_id (env_of values) l.set.now) }
    {
        self.insert_link_body(alloc, template_id, new_id, values)?;
        Ok(Linked { set: self })
    }

    // Returns the last policy.
    fn last(&self) -> &Policy
        requires { 0 < length self.now.policies }
        ensures { Some result.now ≡ last_policy self.now }
    {
        self.maps.last()
    }
}

impl<S: BuildHasher> Drop for Linked<'_, S> {
    fn drop(self)
        ensures { self.exit.0.now ≡ self.entry.set.now }
    {
        let Linked { set: _set } = self;
    }
}

impl<S: BuildHasher + Copy> Deref for Linked<'_, S> {
    type Target = Policy;

    ghost deref_gives = { λ l p. Some p ≡ last_policy l.set.now };

    fn deref(&self) -> &Policy
        ensures { Some result.now ≡ last_policy self.now.set.now }
    {
        self.set.last()
    }
}
