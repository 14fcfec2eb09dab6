//! Lists of the keys of sets, without copying keys.
ghost use Rattle.std.specs.Prelude.{◌≡◌, length, map, IfOk};
ghost use Rattle.std.specs.Set.{is_member};
ghost use Rattle.std.specs.HashSet.{contains, hash_set_len, IsUnique};

use std::alloc::{AllocError, Global};
use std::collections::HashSet;
use std::hash::{BuildHasher, Hash};

// Lists the keys of a set.
pub(crate) fn members_of<K: Clone + Eq + Hash, S: BuildHasher>(
    alloc: Global,
    set: &HashSet<K, S>,
) -> Result<Vec<&K>, AllocError>
    ensures members { IfOk result (λ v. (q : K) →
        is_member K.eq (map (λ x. x.now) v.items) q ≡ contains K.eq set.now q) }
    ensures len { IfOk result (λ v. length v.items ≡ hash_set_len set.now) }
    ensures unique { IsUnique K.eq set.now }
{
    set.iter().collect(alloc)
}
