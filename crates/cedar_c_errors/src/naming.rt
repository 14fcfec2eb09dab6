//! The positions of the uids, the id or the key that an error names in its text.
ghost use Rattle.std.specs.Prelude.{◌≡◌, ◌≢◌, ◌≤◌, ◌∷◌, ◌++◌, List, ℕ, length};
ghost use Rattle.std.specs.Option.{MatchOption};
ghost use Rattle.std.specs.List.{flat_map};
ghost use Rattle.cedar_ids.specs.declared.entity.EntityUID.{EntityUID};
ghost use Rattle.cedar_c_lists.specs.Reasons.{words_of};
ghost use Rattle.cedar_c_lists.specs.Texts.{spaced};
ghost use Rattle.cedar_c_errors.specs.Named.{AreWritten, IsNameIn, IsPartOf, IsUidIn, PartsName, PartsSlots};
ghost use Rattle.cedar_c_errors.specs.Named.{PartsUids, names_one, names_uids};
ghost use Rattle.cedar_c_errors.specs.laws.Scans.{after_quote, after_uids};

use crate::arity::slot_part;
use cedar_c_lists::{Reason, Span, reason_with};

// Returns the text after the first quote that no backslash precedes, or an empty text.
#[tactic(auto, unfolding(crate::specs::laws::Scans::after))]
fn after_quoted(text: &[u8]) -> &[u8]
    ensures behind { result.now ≡ after_quote text.now }
    ensures length { length result.now ≤ length text.now }
{
    let mut is_escaped = false;
    let mut rest = text;
    while let Some((first, behind)) = rest.split_first() {
        if is_escaped {
            is_escaped = false;
        } else if *first == b'"' {
            return behind;
        } else {
            is_escaped = *first == b'\\';
        }
        rest = behind;
    }
    rest
}

// Returns the text after `count` uids, each with a blank before it.
#[tactic(auto, unfolding(crate::specs::laws::Scans::after_uids))]
fn after_uid_list(text: &[u8], count: usize) -> &[u8]
    ensures behind { result.now ≡ after_uids count text.now }
    ensures length { length result.now ≤ length text.now }
{
    let mut rest = text;
    for _ in 0..count {
        if rest.is_empty() {
            return rest;
        }
        rest = after_quoted(after_quoted(rest));
    }
    rest
}

// Returns the span of the uid at index `place`. The uids begin at position `from`, each with a blank before it.
fn uid_part(text: &[u8], from: usize, place: usize) -> Option<Span>
    ensures { (us : List EntityUID) → AreWritten us → (words : List ℕ) → length words ≡ from
        → text.now ≡ words ++ flat_map spaced us
        → MatchOption result (length us ≤ place) (IsUidIn text.now us place) }
{
    let names = text.get(from..)?;
    let rest = after_uid_list(names, place);
    if rest.is_empty() {
        return None;
    }
    let behind = after_uid_list(rest, 1);
    Some(Span {
        start: text.len() - rest.len() + 1,
        end: text.len() - behind.len(),
    })
}

// Returns the span of the single name that follows the words and a blank. The words are `from` bytes long.
fn name_part(text: &[u8], from: usize, place: usize) -> Option<Span>
    ensures { (name words : List ℕ) → length words ≡ from → text.now ≡ words ++ (32 ∷ name)
        → MatchOption result (place ≢ 0) (λ s. (place ≡ 0) × IsNameIn text.now name s) }
{
    if place != 0 || text.len() <= from {
        return None;
    }
    Some(Span {
        start: from + 1,
        end: text.len(),
    })
}

// Checks whether uids follow the words of an error.
fn names_uids(reason: Reason) -> bool
    ensures { result ≡ names_uids reason }
{
    matches!(
        reason,
        Reason::Duplicate
            | Reason::Cycle
            | Reason::NotClosed
            | Reason::SelfAncestor
            | Reason::DuplicateAncestor
            | Reason::ActionParentIsNotAction
            | Reason::NotAnAction
    )
}

// Checks whether a single name follows the words of an error: an id or a key.
fn names_one(reason: Reason) -> bool
    ensures { result ≡ names_one reason }
{
    matches!(
        reason,
        Reason::ReservedKey
            | Reason::Occupied
            | Reason::NoSuchTemplate
            | Reason::IdConflict
            | Reason::NoLink
            | Reason::NotALink
            | Reason::NoTemplate
            | Reason::WithLinks
            | Reason::NotATemplate
            | Reason::NoStatic
            | Reason::NotStatic
            | Reason::SlotInClause
            | Reason::NotActions
            | Reason::UnknownFunction
            | Reason::SlotlessLink
    )
}

/// Returns the span of the name at index `place` in the text of an error, if there is one. Indices begin at 0 and
/// follow the order of the text.
///
/// A name is a uid, an id, a key or a slot. For bindings that do not match the slots, the unbound slots come first. The
/// bound slots that the template does not have follow. The result for a uid with a non-ASCII eid is unspecified. Scans
/// the text once. Does not allocate.
pub fn item_at(reason: Reason, text: &[u8], place: usize) -> Option<Span>
    ensures uids { PartsUids reason text.now place result }
    ensures name { PartsName reason text.now place result }
    ensures slots { PartsSlots reason text.now place result }
{
    let from = reason.words().len();
    if names_uids(reason) {
        uid_part(text, from, place)
    } else if names_one(reason) {
        name_part(text, from, place)
    } else if matches!(reason, Reason::Arity) {
        slot_part(text, from, place)
    } else {
        None
    }
}

/// Returns the span of the name at index `place` in the text of the error with a status. Returns `None` if the number
/// is not a status. Does not allocate.
pub fn part_of(status: u32, text: &[u8], place: usize) -> Option<Span>
    ensures { IsPartOf status text.now place result }
{
    match reason_with(status) {
        Some(reason) => item_at(reason, text, place),
        None => None,
    }
}
