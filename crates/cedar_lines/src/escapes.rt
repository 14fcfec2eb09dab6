// Reading of escaped texts of eids. Only the escapes of one letter are read here, which are those of all printable
// characters. Texts with other escapes are rare.
ghost use Rattle.std.specs.Prelude.{◌≡◌, ◌++◌, ◌+◌, ◌<◌, ◌≤◌, ◌∷◌, [], IfOk, IfSome, IsTrue, drop, length};
ghost use Rattle.std.specs.String.{string_bytes};
ghost use Rattle.cedar_ids.specs.Escape.{escape, escaped, is_ascii};

use cedar_ids::escape::is_extra_escape;
use std::alloc::{AllocError, Global};

// Returns the character whose escape is a backslash and this letter.
fn character_of(letter: u8) -> Option<u8>
    ensures escape { IfSome result (λ c. escape c ≡ 92 ∷ letter ∷ []) }
    ensures ascii { IfSome result (λ c. c < 128) }
{
    match letter {
        b'0' => Some(0),
        b't' => Some(b'\t'),
        b'r' => Some(b'\r'),
        b'n' => Some(b'\n'),
        b'\'' | b'"' | b'\\' => Some(letter),
        _ => None,
    }
}

// Returns the character whose escape is at a place of a text, and the length of the escape.
fn character_at(text: &[u8], at: usize) -> Option<(u8, usize)>
    requires { at < length text.now }
    ensures escape { IfSome result (λ r. drop at text.now ≡ escape r.0 ++ drop (at + r.1) text.now) }
    ensures ascii { IfSome result (λ r. r.0 < 128) }
    ensures within { IfSome result (λ r. (0 < r.1) × (at + r.1 ≤ length text.now)) }
{
    let b = text[at];
    if b == b'\\' {
        if at + 1 == text.len() {
            return None;
        }
        let c = character_of(text[at + 1])?;
        return Some((c, 2));
    }
    if b < 0x20 || b >= 0x7f || b == b'\'' || b == b'"' {
        return None;
    }
    Some((b, 1))
}

// Decodes an escaped text. Returns nothing if an escape has not one letter after its backslash.
fn decoded(alloc: Global, text: &[u8]) -> Result<Option<String>, AllocError>
    ensures ascii { IfOk result (λ o. IfSome o (λ t. IsTrue (is_ascii (string_bytes t)))) }
    ensures escaped { IfOk result (λ o. IfSome o (λ t. escaped (string_bytes t) ≡ text.now)) }
{
    let mut plain = String::with_capacity(alloc, text.len())?;
    let mut at = 0;
    while at < text.len() {
        let Some((c, length)) = character_at(text, at) else {
            return Ok(None);
        };
        plain.push(char::from(c))?;
        at += length;
    }
    Ok(Some(plain))
}

// Returns the ASCII text whose escaped form is `text`, if each escape has one letter after its backslash.
pub(crate) fn text_of_escapes(alloc: Global, text: &str) -> Result<Option<String>, AllocError>
    ensures ascii { IfOk result (λ o. IfSome o (λ t. IsTrue (is_ascii (string_bytes t)))) }
    ensures escaped { IfOk result (λ o. IfSome o (λ t. escaped (string_bytes t) ≡ text.now)) }
{
    if is_extra_escape(text.as_bytes()) {
        let plain = String::from_str(alloc, text)?;
        return Ok(Some(plain));
    }
    decoded(alloc, text.as_bytes())
}
