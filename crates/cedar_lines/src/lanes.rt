// Checks of the bytes of a line and masks of its tabs, sixteen bytes at a time. Most lines have 16 to 64 bytes. One
// step costs about six instructions, and wider vectors would not fit into such lines. A line of 8 to 15 bytes takes two
// steps of eight bytes.
ghost use Rattle.std.specs.Prelude.{◌≡◌, ◌≢◌, ℕ, ◌+◌, ◌<◌, ◌≤◌, IfSome, IsTrue, length};
ghost use Rattle.std.specs.Int.{bit_at};
ghost use Rattle.cedar_lines.specs.Lines.{HasLineBytesIn};
ghost use Rattle.cedar_lines.specs.laws.Fields.{MarksTabs};

use std::simd::prelude::*;

// Returns whether each of the 16 bytes from a place on is a tab or printable ASCII.
#[inline(always)]
fn has_line_bytes_at(line: &[u8], at: usize) -> bool
    requires { at + 16 ≤ length line.now }
    ensures { IsTrue result → HasLineBytesIn line.now at (at + 16) }
{
    let v = u8x16::from_slice(&line[at..]);
    // Bytes below a blank become larger than all others.
    let from_blank = v - u8x16::splat(b' ');
    (from_blank.simd_gt(u8x16::splat(94)) & v.simd_ne(u8x16::splat(b'\t'))).to_bitmask() == 0
}

// Returns whether each byte of a line is a tab or printable ASCII. The line has at least 16 bytes. The last sixteen may
// overlap the bytes before them.
#[inline(always)]
pub(crate) fn has_line_bytes(line: &[u8]) -> bool
    requires { 16 ≤ length line.now }
    ensures { IsTrue result → HasLineBytesIn line.now 0 (length line.now) }
{
    let mut at = 0;
    while 16 < line.len() - at {
        if !has_line_bytes_at(line, at) {
            return false;
        }
        at += 16;
    }
    has_line_bytes_at(line, line.len() - 16)
}

// Returns a mask of the tabs among the 16 bytes from a place on.
#[inline(always)]
fn tabs_at(line: &[u8], at: usize) -> u64
    requires { at + 16 ≤ length line.now }
    ensures { MarksTabs line.now at (at + 16) result }
{
    u8x16::from_slice(&line[at..])
        .simd_eq(u8x16::splat(b'\t'))
        .to_bitmask()
}

// Returns whether each of the 8 bytes from a place on is a tab or printable ASCII.
#[inline(always)]
fn has_eight_line_bytes(line: &[u8], at: usize) -> bool
    requires { at + 8 ≤ length line.now }
    ensures { IsTrue result → HasLineBytesIn line.now at (at + 8) }
{
    let v = u8x8::from_slice(&line[at..]);
    // Bytes below a blank become larger than all others.
    let from_blank = v - u8x8::splat(b' ');
    (from_blank.simd_gt(u8x8::splat(94)) & v.simd_ne(u8x8::splat(b'\t'))).to_bitmask() == 0
}

// Returns a mask of the tabs among the 8 bytes from a place on.
#[inline(always)]
fn tabs_of_eight(line: &[u8], at: usize) -> u64
    requires { at + 8 ≤ length line.now }
    ensures { MarksTabs line.now at (at + 8) result }
{
    u8x8::from_slice(&line[at..])
        .simd_eq(u8x8::splat(b'\t'))
        .to_bitmask()
}

// Returns a mask of the tabs among fewer than 16 bytes, which are checked one by one.
fn tabs_of_few(bytes: &[u8]) -> u64
    requires { length bytes.now < 16 }
    ensures { MarksTabs bytes.now 0 (length bytes.now) result }
{
    let mut tabs = 0;
    for i in 0..bytes.len() {
        if bytes[i] == b'\t' {
            tabs = with_bit(tabs, i);
        }
    }
    tabs
}

// Returns a mask of the tabs among at most 64 bytes. The last sixteen may overlap the bytes before them.
#[inline(always)]
fn tabs_of(bytes: &[u8]) -> u64
    requires { length bytes.now ≤ 64 }
    ensures { MarksTabs bytes.now 0 (length bytes.now) result }
{
    if bytes.len() < 16 {
        return tabs_of_few(bytes);
    }
    let last = bytes.len() - 16;
    let mut tabs = 0;
    let mut at = 0;
    while at < last {
        tabs |= tabs_at(bytes, at) << at;
        at += 16;
    }
    tabs | (tabs_at(bytes, last) << last)
}

// Returns a mask of the tabs of a line, if each byte is a tab or printable ASCII. The line has 16 to 64 bytes. One scan
// does both. The last sixteen bytes may overlap the bytes before them.
#[inline(always)]
pub(crate) fn tabs_of_line(line: &[u8]) -> Option<u64>
    requires long { 16 ≤ length line.now }
    requires few { length line.now ≤ 64 }
    ensures line_bytes { IfSome result (λ _tabs. HasLineBytesIn line.now 0 (length line.now)) }
    ensures tabs { IfSome result (λ tabs. MarksTabs line.now 0 (length line.now) tabs) }
{
    let last = line.len() - 16;
    let mut tabs = 0;
    let mut at = 0;
    while at < last {
        if !has_line_bytes_at(line, at) {
            return None;
        }
        tabs |= tabs_at(line, at) << at;
        at += 16;
    }
    if has_line_bytes_at(line, last) {
        return Some(tabs | (tabs_at(line, last) << last));
    }
    None
}

// Returns a mask of the tabs of a line, if each byte is a tab or printable ASCII. The line has 8 to 16 bytes. Its first
// eight and its last eight bytes may overlap.
#[inline(always)]
pub(crate) fn tabs_of_short_line(line: &[u8]) -> Option<u64>
    requires long { 8 ≤ length line.now }
    requires few { length line.now ≤ 16 }
    ensures line_bytes { IfSome result (λ _tabs. HasLineBytesIn line.now 0 (length line.now)) }
    ensures tabs { IfSome result (λ tabs. MarksTabs line.now 0 (length line.now) tabs) }
{
    let last = line.len() - 8;
    if has_eight_line_bytes(line, 0) && has_eight_line_bytes(line, last) {
        return Some(tabs_of_eight(line, 0) | (tabs_of_eight(line, last) << last));
    }
    None
}

// Returns a mask of the tabs from one place to another, which is at most 64 bytes further.
#[inline(always)]
pub(crate) fn tabs_in(line: &[u8], from: usize, to: usize) -> u64
    requires ordered { from ≤ to }
    requires within { to ≤ length line.now }
    requires few { to ≤ from + 64 }
    ensures { MarksTabs line.now from to result }
{
    tabs_of(&line[from..to])
}

// Returns the place of the lowest bit of a mask.
#[inline(always)]
pub(crate) fn lowest_bit(mask: u64) -> usize
    requires { mask ≢ 0 }
    ensures bound { result < 64 }
    ensures set { bit_at mask result ≡ 1 }
    ensures below { (k : ℕ) → k < result → bit_at mask k ≡ 0 }
{
    mask.trailing_zeros() as usize
}

// Returns a mask without one of its bits.
#[inline(always)]
pub(crate) fn without_bit(mask: u64, bit: usize) -> u64
    requires bound { bit < 64 }
    requires set { bit_at mask bit ≡ 1 }
    ensures smaller { result < mask }
    ensures kept { (k : ℕ) → k < 64 → k ≢ bit → bit_at result k ≡ bit_at mask k }
    ensures no_more { (k : ℕ) → bit_at result k ≡ 1 → (k ≢ bit) × (bit_at mask k ≡ 1) }
{
    mask & !(1 << bit)
}

// Returns a mask with one more bit.
#[inline(always)]
fn with_bit(mask: u64, bit: usize) -> u64
    requires { bit < 64 }
    ensures set { bit_at result bit ≡ 1 }
    ensures others { (k : ℕ) → k ≢ bit → bit_at result k ≡ bit_at mask k }
{
    mask | (1 << bit)
}
