//! Calls on the text of an error, and the position of an invalid uid in a list. They need no handle.
ghost use Rattle.cedar_c.specs.ErrorCalls.{ChecksUids, ReportsPart};

use cedar_c_errors::{first_unread, part_of};
use cedar_c_lists::Span;
use std::alloc::Global;

/// Writes the span of the name at position `place` in the text of an error with a status to `part`. Returns whether
/// there is such a name. Otherwise writes nothing. The names are the uids, ids, keys or slots in the text, counted from
/// 0.
#[unsafe(no_mangle)]
pub extern "C" fn cedar_error_part(status: u32, text: &[u8], place: usize, part: &mut Span) -> bool
    ensures { ReportsPart status text.now place result part.old part.new }
{
    match part_of(status, text, place) {
        Some(found) => {
            *part = found;
            true
        }
        None => false,
    }
}

/// Checks whether each part of a text is the text of a uid. After an error writes the position of the first invalid
/// part to `place`. If all are valid, writes nothing.
///
/// # Status
///
/// - `BadArgument`: a part is not within the text.
/// - `NotAUid`: a part is not the text of a uid.
/// - `NoMemory`: an allocation failed.
#[unsafe(no_mangle)]
pub extern "C" fn cedar_uids_check(
    alloc: Global,
    text: &[u8],
    uids: &[Span],
    place: &mut usize,
) -> u32
    ensures { ChecksUids text.now uids.now result place.old place.new }
{
    match first_unread(alloc, text, uids) {
        Ok(()) => 0,
        Err(unread) => {
            *place = unread.place;
            unread.reason.number()
        }
    }
}
