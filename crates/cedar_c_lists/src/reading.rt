//! Reading uids and ids from the bytes of a caller.
ghost use Rattle.std.specs.Prelude.{◌≡◌, IfOk, IfErr, MatchResult};
ghost use Rattle.cedar_c_lists.specs.Answers.{part};
ghost use Rattle.cedar_c_lists.specs.Texts.{AreReadAt, ChecksUid, IsInside, IsOneUnread, ReadsId, ReadsUid, ReadsUidAt};
ghost use Rattle.cedar_c_lists.specs.declared.reason.Reason.TheVariants.{BadArgument};

use crate::layout::Span;
use crate::reason::Reason;
use cedar_ids::entity::EntityUID;
use cedar_ids::err::ParseErrors;
use cedar_ids::policy_id::PolicyID;
use std::alloc::Global;
use std::str;

/// Parses a uid.
///
/// # Errors
///
/// - `NotAUid`: the text is not the text of a uid.
/// - `NoMemory`: an allocation failed.
pub fn uid_of(alloc: Global, text: &[u8]) -> Result<EntityUID, Reason>
    ensures { ReadsUid result text.now }
{
    let Ok(text) = str::from_utf8(text) else {
        return Err(Reason::NotAUid);
    };
    match EntityUID::from_normalized_str(alloc, text) {
        Ok(uid) => Ok(uid),
        Err(ParseErrors::Memory) => Err(Reason::NoMemory),
        Err(ParseErrors::NotNormalized) => Err(Reason::NotAUid),
        Err(ParseErrors::InvalidName) => Err(Reason::NotAUid),
    }
}

/// Checks whether a text is the text of a uid. Parses the uid and drops it.
///
/// # Errors
///
/// - `NotAUid`: the text is not the text of a uid.
/// - `NoMemory`: an allocation failed.
pub fn check_uid(alloc: Global, text: &[u8]) -> Result<(), Reason>
    ensures { ChecksUid result text.now }
{
    match uid_of(alloc, text) {
        Ok(_uid) => Ok(()),
        Err(reason) => Err(reason),
    }
}

/// Creates the id with these bytes.
///
/// # Errors
///
/// - `NotUtf8`: the bytes are not UTF-8.
/// - `NoMemory`: an allocation failed.
pub fn id_of(alloc: Global, text: &[u8]) -> Result<PolicyID, Reason>
    ensures { ReadsId result text.now }
{
    let Ok(text) = str::from_utf8(text) else {
        return Err(Reason::NotUtf8);
    };
    match PolicyID::from_string(alloc, text) {
        Ok(id) => Ok(id),
        Err(_want) => Err(Reason::NoMemory),
    }
}

/// Returns a part of a text. Does not allocate.
///
/// # Errors
///
/// - `BadArgument`: the span is not within the text.
pub fn text_at(text: &[u8], at: Span) -> Result<&[u8], Reason>
    ensures ok { IfOk result (λ t. IsInside text.now at × (t.now ≡ part text.now at)) }
    ensures err { IfErr result (λ w. (w ≡ BadArgument) × (IsInside text.now at → ⊥)) }
{
    match text.get(at.start..at.end) {
        Some(text) => Ok(text),
        None => Err(Reason::BadArgument),
    }
}

/// Parses the uid in a part of a text.
///
/// # Errors
///
/// - `BadArgument`: the span is not within the text.
/// - `NotAUid`: the part is not the text of a uid.
/// - `NoMemory`: an allocation failed.
pub fn uid_at(alloc: Global, text: &[u8], at: Span) -> Result<EntityUID, Reason>
    ensures { ReadsUidAt result text.now at }
{
    match text_at(text, at) {
        Ok(text) => uid_of(alloc, text),
        Err(reason) => Err(reason),
    }
}

/// Parses the uids in parts of a text, one per span.
///
/// # Errors
///
/// The errors of [`uid_at`].
pub fn uids_of(alloc: Global, text: &[u8], spans: &[Span]) -> Result<Vec<EntityUID>, Reason>
    ensures { MatchResult result (λ v. AreReadAt text.now v.items spans.now)
        (IsOneUnread text.now spans.now) }
{
    let mut uids = Vec::new(alloc);
    for span in spans {
        uids.push(uid_at(alloc, text, *span)?)?;
    }
    Ok(uids)
}
