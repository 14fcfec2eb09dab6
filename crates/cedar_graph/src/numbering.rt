//! Numbers for keys: their positions in an insertion-ordered set.
ghost use Rattle.std.specs.Prelude.{IfOk};
ghost use Rattle.std.specs.Set.{ClonesAreEqual};
ghost use Rattle.cedar_graph.specs.laws.Readings.{HasPut};
ghost use Rattle.indexmap.specs.IndexSet.{IsUnique};

use indexmap::IndexSet;
use std::alloc::AllocError;
use std::hash::{BuildHasher, Hash};

// Inserts a copy of a key, if there is no equal key. Returns the number of the key.
pub(crate) fn insert_key_copy<K: Clone + Eq + Hash, S: BuildHasher>(
    keys: &mut IndexSet<K, S>,
    key: &K,
) -> Result<usize, AllocError>
    requires { ClonesAreEqual K.eq K.is_clone }
    ensures { IfOk result (HasPut K.eq key.now keys.old keys.new) }
{
    let (number, _) = keys.insert_full(key.clone()?)?;
    Ok(number)
}

// Returns the number of a key. A new key gets a new number.
pub(crate) fn number_of<K: Clone + Eq + Hash, S: BuildHasher>(
    keys: &mut IndexSet<K, S>,
    key: &K,
) -> Result<usize, AllocError>
    requires copies { ClonesAreEqual K.eq K.is_clone }
    requires unique { IsUnique K.eq keys.old }
    ensures { IfOk result (HasPut K.eq key.now keys.old keys.new) }
{
    if let Some(number) = keys.get_index_of(key) {
        return Ok(number);
    }
    insert_key_copy(keys, key)
}
