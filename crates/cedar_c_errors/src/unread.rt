//! The index of the invalid element in a list of uids.
ghost use Rattle.std.specs.Prelude.{◌≡◌, MatchResult};
ghost use Rattle.cedar_ids.specs.declared.entity.EntityUID.{EntityUID};
ghost use Rattle.cedar_c_lists.specs.Texts.{IsReadAt, IsUnreadAt};
ghost use Rattle.cedar_c_errors.specs.Unread.{AreAllRead, IsFirstUnread};

use cedar_c_lists::{Reason, Span, check_uid, text_at};
use std::alloc::Global;

/// An index in a list, from 0 on, and the reason why no uid is parsed there.
#[derive(Clone, Copy)]
pub struct Unread {
    /// The index.
    pub place: usize,
    /// The reason.
    ///
    /// - `BadArgument`: the span is not within the text.
    /// - `NotAUid`: the part is not the text of a uid.
    /// - `NoMemory`: an allocation failed.
    pub reason: Reason,
}

// Checks whether a part of a text is the text of a uid.
fn check_at(alloc: Global, text: &[u8], at: Span) -> Result<(), Reason>
    ensures { MatchResult result (λ _. (u : EntityUID) × IsReadAt text.now u at) (IsUnreadAt text.now at) }
{
    match text_at(text, at) {
        Ok(text) => check_uid(alloc, text),
        Err(reason) => Err(reason),
    }
}

/// Checks whether each of the parts of a text is the text of a uid. Parses each uid and drops it, up to the first
/// invalid part.
///
/// # Errors
///
/// Returns the index of the first invalid part, and the reason.
pub fn first_unread(alloc: Global, text: &[u8], spans: &[Span]) -> Result<(), Unread>
    ensures { MatchResult result (λ _. AreAllRead text.now spans.now) (IsFirstUnread text.now spans.now) }
{
    for place in 0..spans.len() {
        match check_at(alloc, text, spans[place]) {
            Ok(()) => {}
            Err(reason) => return Err(Unread { place, reason }),
        }
    }
    Ok(())
}
