//! Merge of two policy sets.
ghost use Rattle.cedar_policy_merge.specs.Merge.{MergesSets};

use crate::policy_set::PolicySet;
use cedar_ids::policy_id::PolicyID;
use cedar_policy_merge::merge_maps;
use cedar_policy_set_errors::err::PolicySetError;
use indexmap::IndexMap;
use std::alloc::Global;
use std::hash::BuildHasher;

impl<S: BuildHasher + Copy> PolicySet<S> {
    /// Merges another policy set into this one. Returns the renamed ids of the other set with their new ids. The other
    /// set does not change.
    ///
    /// An id is in conflict if the two sets bind it differently: to things of different kinds, or to unequal bodies,
    /// templates or bindings. If `rename_duplicates` is false, a conflict is an error. Otherwise each conflicting id of
    /// the other set is renamed to the next id of `policy0`, `policy1` and so on that neither set uses. The new ids are
    /// given in this order:
    ///
    /// - bodies of the other set that conflict with bodies of this set
    /// - policies that conflict with policies
    /// - templates of the other set that conflict with links of this set
    /// - links of the other set that conflict with templates of this set
    ///
    /// The bindings of the other set are appended in their order. A link gets the renamed template. An id that both
    /// sets bind equally keeps its place in this set. Its value is replaced by the other set's value, which differs
    /// only in locations.
    ///
    /// # Errors
    ///
    /// After an error the set is unchanged.
    ///
    /// - `Occupied`, with the first conflicting id: there is a conflict and `rename_duplicates` is false.
    /// - `Memory`: an allocation failed.
    ///
    /// # Complexity
    ///
    /// O(n), where n is the size of the other set: a few lookups for each of its ids, and copies. It also makes a
    /// lookup for each id `policyN` that is in use. This set is neither scanned nor copied, unless a map is full and
    /// doubles its size.
    ///
    /// Allocates the copies of the new bindings, and of policies of this set that get new locations. Allocates space in
    /// the maps, in the lists of links and for the renamed bindings, and the result.
    ///
    /// # Differences from cedar-policy-core
    ///
    /// The original moves ids that both sets bind to the end. It also treats a template without slots as equal to a
    /// static policy.
    pub fn merge_policyset(
        &mut self,
        alloc: Global,
        other: &PolicySet<S>,
        rename_duplicates: bool,
    ) -> Result<IndexMap<PolicyID, PolicyID, S>, PolicySetError>
        ensures { MergesSets (λ r. r.entries) result self.old other.now rename_duplicates self.new }
    {
        merge_maps(alloc, &mut self.maps, &other.maps, rename_duplicates)
    }
}
