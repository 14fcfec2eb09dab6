//! Keys of attributes and tags.
ghost use Rattle.std.specs.Prelude.{◌≡◌, MatchResult, string_bytes};
ghost use Rattle.std.specs.Str.{IsUtf8};
ghost use Rattle.cedar_c_trees.specs.Reads.{IsTextAt};
ghost use Rattle.cedar_c_stores.specs.laws.Rows.{IsNoKeyAt};
ghost use Rattle.cedar_c_lists.specs.declared.reason.Reason.TheVariants.{NotUtf8};

use cedar_c_lists::{Reason, Span, text_at};
use std::alloc::Global;
use std::str;

// Returns bytes as a key, or `NotUtf8` if they are not UTF-8.
pub(crate) fn key_of(bytes: &[u8]) -> Result<&str, Reason>
    ensures { MatchResult result (λ k. IsUtf8 bytes.now × (k.now ≡ bytes.now))
        (λ w. (w ≡ NotUtf8) × (IsUtf8 bytes.now → ⊥)) }
{
    match str::from_utf8(bytes) {
        Ok(key) => Ok(key),
        Err(_error) => Err(Reason::NotUtf8),
    }
}

// Copies the key in a part of a text.
pub(crate) fn key_at(alloc: Global, text: &[u8], at: Span) -> Result<String, Reason>
    ensures { MatchResult result (λ k. IsTextAt text.now at (string_bytes k)) (IsNoKeyAt text.now at) }
{
    let bytes = text_at(text, at)?;
    let key = key_of(bytes)?;
    let copy = String::from_str(alloc, key)?;
    Ok(copy)
}
