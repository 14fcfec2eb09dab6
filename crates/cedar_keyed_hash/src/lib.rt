//! Hashing with a random key, for maps whose keys untrusted parties choose.
//!
//! A map whose hasher has a fixed seed becomes slow if somebody chooses keys that collide under the seed. A
//! [`KeyedState`] has a key of 128 bits, which a program draws at random when it starts. Without the key nobody can
//! choose colliding keys.
//!
//! The hash is not a cryptographic hash: it does not hide its input. Whoever can see hash values or an order of
//! iteration may learn something of the key. No call of the store shows either. The hasher is made for speed: it
//! multiplies once for each eight bytes.
#![tactic(auto)]

ghost use Rattle.std.specs.Prelude.{◌≡◌, ◌+◌, ◌≤◌, ◌<◌, length};
ghost use Rattle.cedar_keyed_hash.specs.Keyed.{first_hasher, half_at, hasher_with, keyed, mixed, short, word_at};

use std::alloc::Global;
use std::hash::{BuildHasher, Hasher};
use std::random::RandomSource;
use std::{fmt, io};

/// A builder of keyed hashers. Hashers of one builder hash alike. Hashers of builders with different keys in general do
/// not.
///
/// The type is `Copy`.
#[derive(Clone, Copy)]
pub struct KeyedState {
    seed: u64,
    key: u64,
}

impl KeyedState {
    /// Creates a builder with a key of 16 random bytes from `source`. A program passes its `HostRuntime`.
    ///
    /// The result is [`from_bytes`](KeyedState::from_bytes) of the bytes that the source writes. A contract cannot name
    /// these bytes, so this is only tested.
    ///
    /// # Errors
    ///
    /// Returns the error of `source` if it cannot provide the bytes.
    pub fn new(source: &impl RandomSource) -> io::Result<KeyedState> {
        let mut bytes = [0; 16];
        source.fill_bytes(&mut bytes)?;
        Ok(KeyedState::from_bytes(&bytes))
    }

    /// Creates a builder with a key of 16 bytes. The first eight bytes are the seed and the last eight the key of
    /// [`with_keys`](KeyedState::with_keys). In each, the lowest byte comes first.
    pub fn from_bytes(bytes: &[u8; 16]) -> KeyedState
        ensures { first_hasher result ≡ hasher_with (word_at bytes.now 0) (word_at bytes.now 8) }
    {
        KeyedState::with_keys(word_at(bytes, 0), word_at(bytes, 8))
    }

    /// Creates a builder with a key of two halves. Use it to draw the key yourself, or to get the same hashes twice. An
    /// attacker who chooses the ids must know neither half.
    pub fn with_keys(seed: u64, key: u64) -> KeyedState
        ensures { first_hasher result ≡ hasher_with seed key }
    {
        KeyedState { seed, key }
    }
}

impl BuildHasher for KeyedState {
    ghost use Rattle.cedar_keyed_hash.specs.Keyed.{first_hasher};

    type Hasher = KeyedHasher;

    ghost build_hasher = { first_hasher };

    fn build_hasher(&self) -> KeyedHasher {
        KeyedHasher {
            state: self.seed,
            key: self.key,
        }
    }
}

impl fmt::Debug for KeyedState {
    /// Writes `KeyedState { .. }`. The key is not shown.
    fn fmt<W: fmt::Write>(&self, f: &mut fmt::Formatter<W>) -> fmt::Result {
        f.debug_struct("KeyedState").finish_non_exhaustive()
    }
}

/// A hasher with a key. It multiplies its state by the key once for each eight bytes.
#[derive(Clone, Copy)]
pub struct KeyedHasher {
    state: u64,
    key: u64,
}

impl Hasher for KeyedHasher {
    ghost use Rattle.cedar_keyed_hash.specs.Keyed.{finished};

    ghost write = { keyed };

    ghost finish = { finished };

    fn finish(&self) -> u64 {
        self.state
    }

    fn write(&mut self, bytes: &[u8]) {
        let length = bytes.len();
        let mut state = self.state ^ length as u64;
        if length < 8 {
            self.state = mixed(state ^ short(bytes), self.key);
            return;
        }
        let mut at = 0;
        while length - at > 8 {
            state = mixed(state ^ word_at(bytes, at), self.key);
            at += 8;
        }
        self.state = mixed(state ^ word_at(bytes, length - 8), self.key);
    }
}

// Returns the exclusive or of the two halves of the product.
#[tactic(auto, unfolding(crate::specs::Keyed::mixed))]
fn mixed(a: u64, b: u64) -> u64
    ensures { result ≡ mixed a b }
{
    let product = a as u128 * b as u128;
    (product & 0xFFFF_FFFF_FFFF_FFFF) as u64 ^ (product >> 64) as u64
}

// Returns the eight bytes from `at` on as a number, lowest byte first.
#[tactic(auto, unfolding(crate::specs::Keyed::word_at))]
fn word_at(bytes: &[u8], at: usize) -> u64
    requires { at + 8 ≤ length bytes.now }
    ensures { result ≡ word_at bytes.now at }
{
    half_at(bytes, at) | half_at(bytes, at + 4) << 32
}

// Returns the four bytes from `at` on as a number, lowest byte first.
#[tactic(auto, unfolding(crate::specs::Keyed::half_at))]
fn half_at(bytes: &[u8], at: usize) -> u64
    requires { at + 4 ≤ length bytes.now }
    ensures { result ≡ half_at bytes.now at }
{
    let four = [bytes[at], bytes[at + 1], bytes[at + 2], bytes[at + 3]];
    u32::from_le_bytes(four) as u64
}

// Returns fewer than eight bytes as a number. Different texts of the same length have different numbers.
fn short(bytes: &[u8]) -> u64
    ensures { result ≡ short bytes.now }
{
    let length = bytes.len();
    if length >= 4 {
        half_at(bytes, 0) | half_at(bytes, length - 4) << 32
    } else if length > 0 {
        let ends = bytes[0] as u64 | (bytes[length - 1] as u64) << 8;
        ends | (bytes[length / 2] as u64) << 16
    } else {
        0
    }
}
