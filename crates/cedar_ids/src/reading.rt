//! Parsing of uids.
ghost use Rattle.std.specs.Prelude.{◌≡◌, IfOk, codes, true, IsTrue};
ghost use Rattle.std.specs.Str.{bytes_eq};
ghost use Rattle.std.specs.Option.{option_map};
ghost use Rattle.cedar_ids.specs.Escape.{escaped, is_ascii};
ghost use Rattle.cedar_ids.specs.laws.UidReading.{first_text, uid_halves};
ghost use Rattle.cedar_ids.specs.laws.Decode.{eid_of};
ghost use Rattle.cedar_ids.specs.laws.Eids.{ascii_part};
ghost use Rattle.cedar_ids.specs.Uid.{UidParts};
ghost use Rattle.cedar_ids.specs.UidOf.{uid_parts};
ghost use Rattle.cedar_ids.specs.TextOf.{IsPrinted};
ghost use Rattle.cedar_ids.specs.Reads.{IsOkUnlessMemory};
ghost use Rattle.cedar_ids.specs.ReadsUid.{FollowsChecks};

use crate::decode::decoded;
use crate::entity::{Eid, EntityType, EntityUID};
use crate::err::ParseErrors;
use crate::escape::{Escaped, is_extra_escape};
use crate::loc::Loc;
use crate::name::read_name;
use std::alloc::{AllocError, Global};
use std::rc::RcStr;

// Returns the text before the first `::"` and the text after it, if there is a `::"`. The first `"` is looked for first,
// because a search for one byte costs less than a search for a text.
fn split_uid(text: &str) -> Option<(&str, &str)>
    ensures { option_map (λ x. (x.0.now, x.1.now)) result ≡ first_text (codes "::\"") text.now }
{
    let (front, back) = text.split_once('"')?;
    match front.strip_suffix("::") {
        Some(name) => Some((name, back)),
        None => text.split_once("::\""),
    }
}

// Returns the text before the first `::"`, and the text between that mark and a final `"`.
fn uid_halves(text: &str) -> Option<(&str, &str)>
    ensures { option_map (λ x. (x.0.now, x.1.now)) result ≡ uid_halves text.now }
{
    split_uid(text.strip_suffix('"')?)
}

// Returns whether `text` is the escaped text of `eid`.
fn is_escape_of(alloc: Global, eid: &str, text: &str) -> Result<bool, AllocError>
    ensures { IfOk result
        (λ b. is_ascii eid.now ≡ true → b ≡ bytes_eq (escaped eid.now) text.now) }
{
    let again = Escaped(eid).to_string(alloc)?;
    Ok(again.as_str() == text)
}

// Returns the eid whose escaped text is `text`, if there is one. Used for a text with a backslash, a quote, a control
// character or a non-ASCII character.
fn unescaped(alloc: Global, text: &str) -> Result<Option<String>, AllocError>
    ensures { IfOk result (λ o. ascii_part o ≡ eid_of text.now) }
{
    let Ok(eid) = String::from_utf8(decoded(alloc, text.as_bytes())?) else {
        return Ok(None);
    };
    if is_escape_of(alloc, eid.as_str(), text)? {
        Ok(Some(eid))
    } else {
        Ok(None)
    }
}

// Returns the eid whose escaped text is `text`, if there is one.
fn eid_text(alloc: Global, text: &str) -> Result<Option<String>, AllocError>
    ensures { IfOk result (λ o. ascii_part o ≡ eid_of text.now) }
{
    if is_extra_escape(text.as_bytes()) {
        let eid = String::from_str(alloc, text)?;
        Ok(Some(eid))
    } else {
        unescaped(alloc, text)
    }
}

impl EntityUID {
    /// Reads a printed uid: a name, `::"`, an escaped text and `"`, without blanks. The escaped text must be exactly
    /// the text that printing produces. For example, `\u{41}` in place of `A` is invalid, and so is a `'` without its
    /// `\`.
    ///
    /// The location of the uid is the whole text. The location of its type is the part of the text before the first
    /// `::"`.
    ///
    /// A text with a non-ASCII eid is valid if it is written as by `str::escape_debug`. For such a text only the order
    /// of the checks is proved.
    ///
    /// # Errors
    ///
    /// The first failed check in this order decides:
    ///
    /// - `NotNormalized`: the text has no final `"`, or no `::"` before it.
    /// - `InvalidName`: the text before the first `::"` is not a name.
    /// - `NotNormalized`: the rest is not an escaped text.
    /// - `Memory`: an allocation failed.
    ///
    /// # Complexity
    ///
    /// O(n), where n is the length of the text. Allocates O(n) bytes.
    ///
    /// # Differences from cedar-policy-core
    ///
    /// The location of the type lies in the text of the uid. In the original it lies in a text of its own.
    pub fn from_normalized_str(alloc: Global, text: &str) -> Result<EntityUID, ParseErrors>
        // A uid with an ASCII eid is returned only for its own printed text. For that text, every other result is an
        // allocation error.
        ensures printed { IfOk result
            (λ u. IsTrue (is_ascii (uid_parts u).eid) → IsPrinted (uid_parts u) text.now) }
        ensures exact { (v : EntityUID) → IsPrinted (uid_parts v) text.now →
            IsOkUnlessMemory result v }

        ensures order { FollowsChecks result text.now }

        // No text is the printed text of two uids.
        ensures only { (u v : UidParts) → IsPrinted u text.now → IsPrinted v text.now → u ≡ v }
    {
        let Some((name, eid)) = uid_halves(text) else {
            return Err(ParseErrors::NotNormalized);
        };
        let src = RcStr::from_str(alloc, text)?;
        let place = Loc::new(0, name.len(), src.clone()?);
        let name = read_name(alloc, name, Some(place))?;
        let Some(eid) = eid_text(alloc, eid)? else {
            return Err(ParseErrors::NotNormalized);
        };
        let loc = Loc::new(0, text.len(), src);
        let ty = EntityType::EntityType(name);
        Ok(EntityUID::from_components(ty, Eid::Eid(eid), Some(loc)))
    }
}
