//! The hasher builder of a handle.

use cedar_keyed_hash::KeyedState;

// Returns a hasher builder for the two numbers of a caller. They are mixed with constants, so that zeros give a valid
// key. Zeros give everyone the same key, so they are only for ids that no attacker chooses.
pub(crate) fn hasher_of(seed: u64, key: u64) -> KeyedState {
    KeyedState::with_keys(seed ^ 0x243F_6A88_85A3_08D3, key ^ 0x1319_8A2E_0370_7345)
}
