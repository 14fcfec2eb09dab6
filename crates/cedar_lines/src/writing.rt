//! Output lines.
ghost use Rattle.std.specs.Prelude.{◌≡◌, ◌++◌, OnOk};
ghost use Rattle.cedar_lines.specs.Lines.{written_line};

use std::alloc::AllocError;

/// Appends a text and a line feed to the output.
///
/// # Errors
///
/// Returns `AllocError` if an allocation fails. The bytes appended to `out` are then unspecified.
///
/// # Complexity
///
/// O(n), where n is the length of the text. Allocates only if `out` has not enough capacity.
///
/// # Differences from cedar-policy-core
///
/// The original has no such function.
pub fn push_line(out: &mut Vec<u8>, text: &str) -> Result<(), AllocError>
    ensures { OnOk result (out.new.items ≡ out.old.items ++ written_line text.now) }
{
    out.extend_from_slice(text.as_bytes())?;
    out.push(b'\n')?;
    Ok(())
}
