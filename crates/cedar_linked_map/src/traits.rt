//! The traits of std that the map and the set implement.
ghost use Rattle.indexmap.specs.IndexMap.{IsClone};
ghost use Rattle.indexmap.specs.IndexSet as sets;

use crate::chain::Chain;
use crate::map::LinkedMap;
use crate::set::LinkedSet;
use std::alloc::AllocError;
use std::fmt;
use std::hash::{BuildHasher, Hash};

impl<K: Eq + Hash + Clone, V: Clone, S: BuildHasher + Clone> Clone for LinkedMap<K, V, S> {
    ghost is_clone = { λ m n. IsClone K.is_clone V.is_clone m n };

    fn clone(&self) -> Result<LinkedMap<K, V, S>, AllocError> {
        let nodes = self.chain.nodes.clone()?;
        Ok(LinkedMap {
            chain: Chain {
                nodes,
                first: self.chain.first,
                last: self.chain.last,
            },
        })
    }
}

impl<T: Eq + Hash + Clone, S: BuildHasher + Clone> Clone for LinkedSet<T, S> {
    ghost is_clone = { λ s t. sets.IsClone T.is_clone s t };

    fn clone(&self) -> Result<LinkedSet<T, S>, AllocError> {
        let map = self.map.clone()?;
        Ok(LinkedSet { map })
    }
}

impl<K: Eq + Hash + fmt::Debug, V: fmt::Debug, S: BuildHasher> fmt::Debug for LinkedMap<K, V, S> {
    fn fmt<W: fmt::Write>(&self, f: &mut fmt::Formatter<W>) -> fmt::Result {
        let mut out = f.debug_map();
        for (key, value) in self.iter() {
            out.entry(key, value);
        }
        out.finish()
    }
}

impl<T: Eq + Hash + fmt::Debug, S: BuildHasher> fmt::Debug for LinkedSet<T, S> {
    fn fmt<W: fmt::Write>(&self, f: &mut fmt::Formatter<W>) -> fmt::Result {
        let mut out = f.debug_set();
        for value in self.iter() {
            out.entry(value);
        }
        out.finish()
    }
}
