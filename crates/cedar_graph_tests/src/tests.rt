// Tests of the closure functions over nodes with numbers as keys.
mod counted;
mod keys;
mod nodes;
mod told;

use cedar_keyed_hash::KeyedState;
use std::hash::{BuildHasherDefault, FoldHasher};

// The default hasher builder of a map.
type Fixed = BuildHasherDefault<FoldHasher>;

fn fixed() -> Fixed {
    BuildHasherDefault::new()
}

// Returns a hasher builder with a key.
fn keyed() -> KeyedState {
    KeyedState::with_keys(1, 2)
}
