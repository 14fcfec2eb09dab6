//! Locations in a source text. Comparisons and hashes of other types ignore them.
ghost use Rattle.std.specs.Prelude.{◌≡◌};

use std::rc::RcStr;

/// A location in a text: the bytes of `src` from `start` to before `end`.
///
/// No function checks that `start` and `end` lie in `src`. Equality compares all three fields. All other types of this
/// crate ignore their locations when they are compared, ordered or hashed. `clone` shares the text.
///
/// # Differences from cedar-policy-core
///
/// The original stores a span of its diagnostics library in place of the two numbers.
#[derive(Clone, Debug, Drop, PartialEq, Eq)]
pub struct Loc {
    /// The index of the first byte.
    pub start: usize,
    /// The index after the last byte.
    pub end: usize,
    /// The text that contains the location.
    pub src: RcStr,
}

impl Loc {
    /// Creates a location from `start` to before `end` in `src`. Does not allocate.
    pub fn new(start: usize, end: usize, src: RcStr) -> Loc
        ensures { result ≡ record { start = start; end = end; src = src } }
    {
        Loc { start, end, src }
    }
}
