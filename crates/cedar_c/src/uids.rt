//! Calls that create the text of a uid from a type and an id, and split it into both. They need no handle.
ghost use Rattle.cedar_c.specs.UidCalls.{WritesUidText, SplitsUid};

use crate::copying::copy_out;
use cedar_c_lists::{parts_of, uid_text};
use std::alloc::Global;

/// Writes the text of the uid with a type and an id, as much as fits, to `out`, and its whole length to `told`.
///
/// # Status
///
/// - `NotAName`: the text of the type is not a name.
/// - `NotUtf8`: the id is not UTF-8.
/// - `NoMemory`: an allocation failed.
///
/// After an error nothing is written.
#[unsafe(no_mangle)]
pub extern "C" fn cedar_uid_make(
    alloc: Global,
    ty: &[u8],
    id: &[u8],
    out: &mut [u8],
    told: &mut usize,
) -> u32
    ensures { WritesUidText ty.now id.now result out.old out.new told.old told.new }
{
    match uid_text(alloc, ty, id) {
        Ok(text) => {
            *told = copy_out(text.as_bytes(), 0, out);
            0
        }
        Err(reason) => reason.number(),
    }
}

/// Writes the text of the type of a uid, followed by the bytes of its id, as much as fits, to `out`. Writes the length
/// of the type to `type_len`, and the length of both to `told`.
///
/// # Status
///
/// - `NotAUid`: the text is not the text of a uid.
/// - `NoMemory`: an allocation failed.
///
/// After an error nothing is written.
#[unsafe(no_mangle)]
pub extern "C" fn cedar_uid_parts(
    alloc: Global,
    text: &[u8],
    out: &mut [u8],
    type_len: &mut usize,
    told: &mut usize,
) -> u32
    ensures { SplitsUid text.now result out.old out.new told.old told.new type_len.old type_len.new }
{
    match parts_of(alloc, text) {
        Ok(parts) => {
            *told = copy_out(&parts.bytes, 0, out);
            *type_len = parts.type_len;
            0
        }
        Err(reason) => reason.number(),
    }
}
