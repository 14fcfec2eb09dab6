//! The texts of statuses, and the version of the library.
ghost use Rattle.std.specs.Prelude.{◌≡◌};
ghost use Rattle.cedar_c.specs.StatusCalls.{CopiesStatus};
ghost use Rattle.cedar_c.specs.Versions.{version};

use crate::copying::copy_out;
use cedar_c_lists::status_text;

/// The version 0.1.0 as one number: 65536 times the major number, plus 256 times the minor number, plus the patch
/// number.
const VERSION: u32 = 0x0000_0100;

/// Copies the text of a status, as much as fits. Returns the length of the whole text, which is 0 if the number is not
/// a status.
#[unsafe(no_mangle)]
pub extern "C" fn cedar_status_text(status: u32, out: &mut [u8]) -> usize
    ensures { CopiesStatus status out.old result out.new }
{
    copy_out(status_text(status).as_bytes(), 0, out)
}

/// Returns the version of the library, 0.1.0, as one number.
#[unsafe(no_mangle)]
pub extern "C" fn cedar_version() -> u32
    ensures { result ≡ version 0 1 0 }
{
    VERSION
}
