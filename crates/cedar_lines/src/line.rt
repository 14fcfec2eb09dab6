//! The fields of a line.
ghost use Rattle.std.specs.Prelude.{◌≡◌, ◌==◌, ◌≤◌, ◌++◌, IfOk, IfSome, OnOk, IsTrue, true, length, drop, map};
ghost use Rattle.std.specs.List.{list_all, slice_split};
ghost use Rattle.std.specs.Str.{IsAscii};
ghost use Rattle.cedar_lines.specs.Lines.{is_line_byte};
ghost use Rattle.cedar_lines.specs.laws.Fields.{HasNoTabIn, MarksTabs, block_end};

use crate::lanes::{
    has_line_bytes, lowest_bit, tabs_in, tabs_of_line, tabs_of_short_line, without_bit,
};
use std::alloc::AllocError;

// Appends the fields that end at the tabs of a block, and returns the start of the field after them. The block has up
// to 64 bytes from the place `from` on, and `tabs` is the mask of its tabs. The first field starts at `start`.
#[inline(always)]
fn push_fields<'a>(
    fields: &mut Vec<&'a str>,
    line: &'a str,
    start: usize,
    from: usize,
    mut tabs: u64,
) -> Result<usize, AllocError>
    requires ascii { IsAscii line.now }
    requires within { from ≤ length line.now }
    requires begun { (start ≤ from) × HasNoTabIn line.now start from }
    requires marks { MarksTabs line.now from (block_end line.now from) tabs }
    ensures begun { IfOk result (λ next. (next ≤ block_end line.now from)
        × HasNoTabIn line.now next (block_end line.now from)) }
    ensures fields { IfOk result (λ next.
        map (λ x. x.now) fields.new.items ++ slice_split (λ b. b == 9) (drop next line.now)
        ≡ map (λ x. x.now) fields.old.items ++ slice_split (λ b. b == 9) (drop start line.now)) }
{
    let mut next = start;
    while tabs != 0 {
        let bit = lowest_bit(tabs);
        let tab = from + bit;
        fields.push(&line[next..tab])?;
        next = tab + 1;
        tabs = without_bit(tabs, bit);
    }
    Ok(next)
}

// Replaces `fields` by the fields of a line of at most 64 bytes, given the mask of its tabs.
#[inline(always)]
fn set_marked_fields<'a>(
    fields: &mut Vec<&'a str>,
    line: &'a str,
    tabs: u64,
) -> Result<(), AllocError>
    requires ascii { IsAscii line.now }
    requires few { length line.now ≤ 64 }
    requires marks { MarksTabs line.now 0 (length line.now) tabs }
    ensures { OnOk result (map (λ x. x.now) fields.new.items ≡ slice_split (λ b. b == 9) line.now) }
{
    fields.clear();
    let rest = push_fields(fields, line, 0, 0, tabs)?;
    fields.push(&line[rest..])?;
    Ok(())
}

// Replaces `fields` by the fields of a line.
fn set_fields<'a>(fields: &mut Vec<&'a str>, line: &'a str) -> Result<(), AllocError>
    requires { IsAscii line.now }
    ensures { OnOk result (map (λ x. x.now) fields.new.items ≡ slice_split (λ b. b == 9) line.now) }
{
    fields.clear();
    let mut start = 0;
    let mut seen = 0;
    while seen < line.len() {
        let to = seen + (line.len() - seen).min(64);
        let tabs = tabs_in(line.as_bytes(), seen, to);
        start = push_fields(fields, line, start, seen, tabs)?;
        seen = to;
    }
    fields.push(&line[start..])?;
    Ok(())
}

// Returns whether a byte is a tab or printable ASCII.
fn is_line_byte(b: u8) -> bool
    ensures { result ≡ is_line_byte b }
{
    b == b'\t' || (32 <= b && b <= 126)
}

// Returns whether a line has only tabs and printable ASCII characters. A short line is scanned to its end. That costs
// less for each byte than a loop that stops early.
fn has_only_line_bytes(line: &[u8]) -> bool
    ensures { result ≡ list_all is_line_byte line.now }
{
    if 16 <= line.len() && has_line_bytes(line) {
        return true;
    }
    let mut is_readable = true;
    for b in line {
        is_readable = is_readable & is_line_byte(*b);
    }
    is_readable
}

// Returns a mask of the tabs of a line of 8 to 64 bytes, if it has only tabs and printable ASCII characters.
#[inline(always)]
fn tabs_of_some(line: &[u8]) -> Option<u64>
    ensures few { IfSome result (λ _tabs. length line.now ≤ 64) }
    ensures readable { IfSome result (λ _tabs. list_all is_line_byte line.now ≡ true) }
    ensures tabs { IfSome result (λ tabs. MarksTabs line.now 0 (length line.now) tabs) }
{
    if line.len() < 16 {
        if 8 <= line.len() {
            return tabs_of_short_line(line);
        }
        return None;
    }
    if line.len() <= 64 {
        return tabs_of_line(line);
    }
    None
}

// Returns a line as a string.
#[inline(always)]
fn text_of(line: &[u8]) -> &str
    requires { list_all is_line_byte line.now ≡ true }
    ensures { result.now ≡ line.now }
{
    // SAFETY: these bytes are ASCII and so valid UTF-8, which the contract proves.
    unsafe { str::from_utf8_unchecked(line) }
}

// Reads a line of any length as `read_fields` does.
#[inline(never)]
fn read_remaining<'a>(fields: &mut Vec<&'a str>, line: &'a [u8]) -> Result<bool, AllocError>
    ensures readable { IfOk result (λ is_readable. is_readable ≡ list_all is_line_byte line.now) }
    ensures fields { IfOk result (λ is_readable. IsTrue is_readable →
        map (λ x. x.now) fields.new.items ≡ slice_split (λ b. b == 9) line.now) }
{
    if !has_only_line_bytes(line) {
        return Ok(false);
    }
    set_fields(fields, text_of(line))?;
    Ok(true)
}

/// Checks whether a line has only tabs and printable ASCII characters. If so, replaces `fields` by the texts between
/// its tabs.
///
/// # Errors
///
/// Returns `AllocError` if an allocation fails. The content of `fields` is then unspecified.
///
/// # Complexity
///
/// O(n), where n is the length of the line. Allocates only if `fields` has not enough capacity.
///
/// # Differences from cedar-policy-core
///
/// The original has no such function.
pub fn read_fields<'a>(fields: &mut Vec<&'a str>, line: &'a [u8]) -> Result<bool, AllocError>
    ensures readable { IfOk result (λ is_readable. is_readable ≡ list_all is_line_byte line.now) }
    ensures fields { IfOk result (λ is_readable. IsTrue is_readable →
        map (λ x. x.now) fields.new.items ≡ slice_split (λ b. b == 9) line.now) }
{
    if let Some(tabs) = tabs_of_some(line) {
        set_marked_fields(fields, text_of(line), tabs)?;
        return Ok(true);
    }
    read_remaining(fields, line)
}
