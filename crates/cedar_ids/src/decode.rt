//! Decodes the escape sequences of an eid's text.
ghost use Rattle.std.specs.Prelude.{◌≡◌, ◌++◌, ◌<◌, IfOk, OnOk};
ghost use Rattle.cedar_ids.specs.laws.Decode.{hex_value, more_digits, next_scan, short_value, code_bytes, emits};
ghost use Rattle.cedar_ids.specs.laws.Decode.{decode};

use std::alloc::{AllocError, Global};

// The state of the decoder before the next byte.
#[derive(Clone, Copy)]
enum Scan {
    // Outside an escape.
    Plain,
    // After a backslash.
    Slash,
    // Between `\u` and `}`, with the value of the digits read so far.
    Digits(u32),
}

// Returns the value of a lower-case hexadecimal digit, or 0 for any other byte.
fn hex_value(b: u8) -> u32
    ensures value { result ≡ hex_value b }
    ensures small { result < 16 }
{
    match b {
        b'0'..=b'9' => u32::from(b - b'0'),
        b'a'..=b'f' => u32::from(b - b'a') + 10,
        _ => 0,
    }
}

// Returns the value of the digits after one more byte. A value of 0x1000000 or more does not change: it is far above
// every code point.
fn more_digits(n: u32, b: u8) -> u32
    ensures { result ≡ more_digits n b }
{
    if b == b'{' {
        return n;
    }
    if n < 0x1000000 {
        n * 16 + hex_value(b)
    } else {
        n
    }
}

// Returns the state after this byte.
fn next_scan(scan: Scan, b: u8) -> Scan
    ensures { result ≡ next_scan scan b }
{
    match scan {
        Scan::Plain => if b == b'\\' { Scan::Slash } else { Scan::Plain },
        Scan::Slash => if b == b'u' {
            Scan::Digits(0)
        } else {
            Scan::Plain
        },
        Scan::Digits(n) => if b == b'}' {
            Scan::Plain
        } else {
            Scan::Digits(more_digits(n, b))
        },
    }
}

// Returns the byte that a one-letter escape denotes, given the letter after the backslash.
fn short_value(b: u8) -> u8
    ensures { result ≡ short_value b }
{
    match b {
        b'0' => 0,
        b't' => b'\t',
        b'r' => b'\r',
        b'n' => b'\n',
        _ => b,
    }
}

// Appends the UTF-8 bytes of this code point. Appends nothing if no character has the code point.
fn push_code(out: &mut Vec<u8>, n: u32) -> Result<(), AllocError>
    ensures { OnOk result (out.new.items ≡ out.old.items ++ code_bytes n) }
{
    if n < 128 {
        out.push(n as u8)?;
        return Ok(());
    }
    if let Some(c) = char::from_u32(n) {
        let mut buffer = [0u8; 4];
        let bytes = c.encode_utf8(&mut buffer);
        out.extend_from_slice(bytes.as_bytes())?;
    }
    Ok(())
}

// Appends the bytes that are complete once `b` is read.
fn emit(out: &mut Vec<u8>, scan: Scan, b: u8) -> Result<(), AllocError>
    ensures { OnOk result (out.new.items ≡ out.old.items ++ emits scan b) }
{
    match scan {
        Scan::Plain => {
            if b != b'\\' {
                out.push(b)?;
            }
        }
        Scan::Slash => {
            if b != b'u' {
                out.push(short_value(b))?;
            }
        }
        Scan::Digits(n) => {
            if b == b'}' {
                push_code(out, n)?;
            }
        }
    }
    Ok(())
}

// Decodes an escaped text. The result for a text with an invalid escape is unspecified.
pub(crate) fn decoded(alloc: Global, text: &[u8]) -> Result<Vec<u8>, AllocError>
    ensures { IfOk result (λ v. v.items ≡ decode text.now) }
{
    let mut out = Vec::new(alloc);
    let mut scan = Scan::Plain;
    for b in text {
        emit(&mut out, scan, *b)?;
        scan = next_scan(scan, *b);
    }
    Ok(out)
}
