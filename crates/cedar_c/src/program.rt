//! The whole program in one call, and a check of the text of a uid.
ghost use Rattle.std.specs.Prelude.{◌≡◌, ◌≢◌, IfOk};
ghost use Rattle.cedar_store.specs.Output.{IsOutput};
ghost use Rattle.cedar_c.specs.Checks.{Checks};
ghost use Rattle.cedar_c.specs.Statuses.{ok, no_memory};
ghost use Rattle.cedar_c.specs.Runs.{Runs};

use crate::copying::copy_out;
use crate::keys::hasher_of;
use cedar_c_lists::{Reason, check_uid, status_of};
use cedar_keyed_hash::KeyedState;
use cedar_store::{RunError, run_with};
use std::alloc::Global;

// Returns the output of an input, and the exit status.
fn output_of(alloc: Global, hasher: KeyedState, input: &[u8]) -> Result<(Vec<u8>, u8), RunError>
    ensures { IfOk result (λ r. IsOutput input.now (record { bytes = r.0.items; status = r.1 })) }
{
    let mut reader = input;
    let mut out = Vec::new(alloc);
    let status = run_with(alloc, hasher, &mut reader, &mut out)?;
    Ok((out, status))
}

/// Runs the program on all lines of an input, with the two numbers as the key of its hash maps. Writes as much of the
/// output as fits to `out`, and the length of the whole output to `told`. Writes the exit status of the run, 0 or 2, to
/// `ended`. Another call with more room gives the same output.
///
/// # Status
///
/// - `NoMemory`: an allocation failed.
#[unsafe(no_mangle)]
pub extern "C" fn cedar_run(
    alloc: Global,
    input: &[u8],
    seed: u64,
    key: u64,
    out: &mut [u8],
    told: &mut usize,
    ended: &mut u32,
) -> u32
    ensures runs { result ≡ ok → Runs input.now out.old out.new told.new ended.new }
    ensures err { result ≢ ok → result ≡ no_memory }
{
    let Ok((bytes, status)) = output_of(alloc, hasher_of(seed, key), input) else {
        return Reason::NoMemory.number();
    };
    *told = copy_out(&bytes, 0, out);
    *ended = u32::from(status);
    0
}

/// Checks whether a text is the text of a uid.
///
/// # Status
///
/// - `NotAUid`: the text is not the text of a uid.
/// - `NoMemory`: an allocation failed.
#[unsafe(no_mangle)]
pub extern "C" fn cedar_uid_check(alloc: Global, text: &[u8]) -> u32
    ensures { Checks text.now result }
{
    status_of(check_uid(alloc, text))
}
