//! The escaping of eids and policy ids.
ghost use Rattle.std.specs.Prelude.{◌≡◌, ◌<◌};
ghost use Rattle.std.specs.Str.{IsAscii};
ghost use Rattle.std.specs.Fmt.{WritesOnOk};
ghost use Rattle.cedar_ids.specs.Escape.{escape, escaped, escaped_output, is_extra_escape, is_extra_escape_byte};

use std::fmt;

/// A text in its escaped form, as it is printed between the quotes of a uid.
///
/// `Display` writes each character of an ASCII text by the table of escapes. It writes any other text as by
/// `str::escape_debug`. It reads the text at most three times and does not allocate. The output is proved only for an
/// ASCII text.
#[derive(Debug, Drop)]
pub struct Escaped<'a>(pub &'a str);

impl fmt::Display for Escaped<'_> {
    ghost output = { λ e. escaped_output e.0.now };

    fn fmt<W: fmt::Write>(&self, f: &mut fmt::Formatter<W>) -> fmt::Result {
        let text = self.0;
        if is_extra_escape(text.as_bytes()) {
            f.write_str(text)
        } else if text.is_ascii() {
            write_escapes(text.as_bytes(), f)
        } else {
            write!(f, "{}", text.escape_debug())
        }
    }
}

/// Returns whether a text is printable ASCII without quotes and backslashes. Such a text is its own escape, so it is
/// written unchanged.
///
/// # Complexity
///
/// O(n), where n is the length of the text. Does not allocate.
///
/// # Differences from cedar-policy-core
///
/// The original has no such function.
pub fn is_extra_escape(text: &[u8]) -> bool
    ensures { result ≡ is_extra_escape text.now }
{
    text.iter().all(|b| is_extra_escape_byte(*b))
}

// Returns whether a byte is an ASCII character that is its own escape.
fn is_extra_escape_byte(b: u8) -> bool
    ensures { result ≡ is_extra_escape_byte b }
{
    b >= 0x20 && b < 0x7f && b != b'\'' && b != b'"' && b != b'\\'
}

// Writes the escape of each byte.
fn write_escapes<W: fmt::Write>(text: &[u8], f: &mut fmt::Formatter<W>) -> fmt::Result
    ensures { IsAscii text.now → WritesOnOk W.write_str_gives f.old result (escaped text.now) f.new }
{
    for b in text {
        write_escape(*b, f)?;
    }
    Ok(())
}

// Writes the escape of one byte.
fn write_escape<W: fmt::Write>(b: u8, f: &mut fmt::Formatter<W>) -> fmt::Result
    ensures { b < 128 → WritesOnOk W.write_str_gives f.old result (escape b) f.new }
{
    match b {
        0 => f.write_str("\\0"),
        b'\t' => f.write_str("\\t"),
        b'\r' => f.write_str("\\r"),
        b'\n' => f.write_str("\\n"),
        b'\'' => f.write_str("\\'"),
        b'"' => f.write_str("\\\""),
        b'\\' => f.write_str("\\\\"),
        0x01..=0x1f | 0x7f => write!(f, "\\u{{{b:x}}}"),
        _ => f.write_char(char::from(b)),
    }
}
