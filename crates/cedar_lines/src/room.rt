//! Texts in reused buffers, so that values which are created for each line allocate once.
ghost use Rattle.std.specs.Prelude.{◌≡◌, IfOk};
ghost use Rattle.std.specs.String.{string_bytes};

use std::alloc::{AllocError, Global};
use std::mem;

/// Copies a text into the buffer of `room`, and returns it. `room` is empty afterwards. If `room` has no buffer, the
/// copy gets one of its own.
///
/// # Errors
///
/// Returns `AllocError` if an allocation fails.
///
/// # Complexity
///
/// O(n), where n is the length of the text. Allocates only if the buffer is too small.
///
/// # Differences from cedar-policy-core
///
/// The original has no such function.
#[inline(always)]
pub fn text_in(alloc: Global, room: &mut String, text: &str) -> Result<String, AllocError>
    ensures { IfOk result (λ t. string_bytes t ≡ text.now) }
{
    if room.capacity() == 0 {
        return String::from_str(alloc, text);
    }
    refilled(alloc, room, text)
}

// Copies a text into the buffer of `room`, which is empty afterwards.
#[inline(never)]
fn refilled(alloc: Global, room: &mut String, text: &str) -> Result<String, AllocError>
    ensures { IfOk result (λ t. string_bytes t ≡ text.now) }
{
    let mut copy = mem::replace(room, String::new(alloc));
    copy.clear();
    copy.push_str(text)?;
    Ok(copy)
}
