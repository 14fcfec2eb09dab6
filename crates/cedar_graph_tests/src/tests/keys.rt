// Tests of the key that a hasher builder draws.
use cedar_keyed_hash::KeyedState;
use std::hash::{BuildHasher, Hasher};
use std::io;
use std::random::RandomSource;

// A source whose bytes are 1, 2, 3 and so on.
struct Counting;

impl RandomSource for Counting {
    fn fill_bytes(&self, buf: &mut [u8]) -> io::Result<()> {
        let mut next = 1;
        for byte in buf {
            *byte = next;
            next = next.wrapping_add(1);
        }
        Ok(())
    }
}

// Returns the hash of a short text.
fn hash(state: KeyedState) -> u64 {
    let mut hasher = state.build_hasher();
    hasher.write(b"alice");
    hasher.finish()
}

#[test]
fn key_is_made_of_the_bytes_of_the_source(rt: HostRuntime) {
    let drawn = match KeyedState::new(&Counting) {
        Ok(state) => hash(state),
        Err(_) => 0,
    };
    let expected = hash(KeyedState::with_keys(0x0807_0605_0403_0201, 0x100F_0E0D_0C0B_0A09));
    let swapped = hash(KeyedState::with_keys(0x100F_0E0D_0C0B_0A09, 0x0807_0605_0403_0201));
    assert!(rt; drawn == expected && drawn != swapped);
}
