// Checks of the bytes of an eid, eight at a time. Most eids are short, and a check of eight bytes costs no more than a
// check of two single bytes.
ghost use Rattle.std.specs.Prelude.{◌≡◌, ℕ, ◌+◌, ◌<◌, ◌≤◌, IsTrue, true, drop, length, slice_index};
ghost use Rattle.std.specs.Int.{bit_at};
ghost use Rattle.cedar_ids.specs.Escape.{is_extra_escape, is_extra_escape_byte};

use cedar_ids::escape::is_extra_escape;
use std::simd::prelude::*;

// Returns a mask of the bytes, of 8 from a place on, that need an escape.
#[inline(always)]
fn escapes_at(text: &[u8], at: usize) -> u64
    requires { at + 8 ≤ length text.now }
    ensures { (k : ℕ) → k < 8 → bit_at result k ≡ 0 → is_extra_escape_byte (slice_index text.now (at + k)) ≡ true }
{
    let v = u8x8::from_slice(&text[at..]);
    // Bytes below a blank become larger than all others.
    let from_blank = v - u8x8::splat(b' ');
    let quotes = v.simd_eq(u8x8::splat(b'"')) | v.simd_eq(u8x8::splat(b'\''));
    (from_blank.simd_gt(u8x8::splat(94)) | quotes | v.simd_eq(u8x8::splat(b'\\'))).to_bitmask()
}

// Returns whether no byte from a place on needs an escape. There are at least 8 bytes. The last eight may overlap the
// bytes before them. Bytes before the place are ignored.
#[inline(always)]
fn is_extra_escape_in(text: &[u8], from: usize) -> bool
    requires within { from ≤ length text.now }
    requires long { 8 ≤ length text.now }
    ensures { IsTrue result → IsTrue (is_extra_escape (drop from text.now)) }
{
    let last = text.len() - 8;
    let mut at = from;
    while at < last {
        if escapes_at(text, at) != 0 {
            return false;
        }
        at += 8;
    }
    escapes_at(text, last) >> (at - last) == 0
}

// The number of bytes from which a check of eight bytes is cheaper than one check for each byte.
const ENOUGH: usize = 3;

// Returns whether no byte from a place on needs an escape.
#[inline(always)]
pub(crate) fn is_extra_escape_from(text: &[u8], from: usize) -> bool
    requires { from ≤ length text.now }
    ensures { IsTrue result → IsTrue (is_extra_escape (drop from text.now)) }
{
    if 8 <= text.len() && ENOUGH <= text.len() - from {
        return is_extra_escape_in(text, from);
    }
    is_extra_escape(&text[from..])
}
