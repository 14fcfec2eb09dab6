//! Deep copies of a policy set, for another thread, and merging of a deep copy.
ghost use Rattle.cedar_c_sets.specs.Sets.{CopiesSet, MergesSet};

use crate::set_state::SetState;
use cedar_c_lists::Reason;
use cedar_deep_copy_policies::deep_copy_set;
use std::alloc::Global;
use std::hash::BuildHasher;

impl<S: BuildHasher + Copy> SetState<S> {
    /// Returns a deep copy of the set, with an empty `answer` and no last error. It can be sent to another thread. That
    /// nothing is shared is tested, not proved.
    ///
    /// # Errors
    ///
    /// Returns `NoMemory` if an allocation fails.
    pub fn deep_copy(&self, alloc: Global) -> Result<SetState<S>, Reason>
        ensures { CopiesSet self.now.set result }
    {
        let set = deep_copy_set(alloc, &self.set)?;
        Ok(SetState::of(alloc, set))
    }

    /// Merges a deep copy of another set, as [`SetState::merge`] does.
    ///
    /// # Errors
    ///
    /// The errors of [`SetState::merge`].
    pub fn merge_deep_copy(
        &mut self,
        alloc: Global,
        other: &SetState<S>,
        rename: bool,
    ) -> Result<(), Reason>
        ensures { MergesSet other.now.set rename result self.old self.new }
    {
        let copy = other.deep_copy(alloc)?;
        self.merge(alloc, &copy, rename)
    }
}
