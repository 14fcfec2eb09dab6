//! The program: reads its input, runs the lines, and writes the output.
ghost use Rattle.std.specs.Prelude.{◌≡◌, ◌≢◌, ◌<◌, ◌≤◌, ◌==◌, ◌∷◌, List, ℕ, length, take, IfOk, OnOk, IfSome, IfErr};
ghost use Rattle.std.specs.Option.{option_copied};
ghost use Rattle.std.specs.List.{slice_split};
ghost use Rattle.std.specs.Io.KnownBytes.{IsAtEnd, Appends, Consumes};
ghost use Rattle.std.specs.IoError.{error_kind};
ghost use Rattle.cedar_store.specs.laws.FirstLine.{lines_left};
ghost use Rattle.cedar_store.specs.Output.{IsOutput, HasOneOutput};
ghost use Rattle.cedar_store.specs.Faults.{Leaves};
ghost use Rattle.cedar_store.specs.Runs.{IsRun};

use crate::session::{Session, push_not_command};
use memchr::memchr;
use std::alloc::{AllocError, Global};
use std::hash::{BuildHasher, BuildHasherDefault, FoldHasher};
use std::io::{ErrorKind, Read, Write};
use std::{io, mem};
use thiserror::Error;

/// The reason why a run ended early.
#[derive(Debug, Drop, Error)]
pub enum RunError {
    /// A read failed. Nothing was written.
    #[error("read fault")]
    Read,
    /// A write or the flush after it failed. A part of the output may be written.
    #[error("write fault")]
    Write,
    /// An allocation failed, and nothing was written.
    #[error("out of memory")]
    Memory,
}

// Reads the next bytes into the front of the buffer, and returns their number, or 0 at the end of the input. Repeats an
// interrupted read, so the error is never `Interrupted`.
fn read_some<R: Read>(reader: &mut R, buffer: &mut [u8]) -> io::Result<usize>
    requires { 0 < length buffer.old }
    ensures bound { IfOk result (λ n. n ≤ length buffer.new) }
    ensures bytes { IfOk result (λ n. Consumes (R.remaining reader.old) (R.remaining reader.new) (take n buffer.new)) }
    ensures end { IfOk result (λ n. n ≡ 0 → IsAtEnd (R.remaining reader.new)) }
    ensures again { IfErr result (λ e. error_kind e ≢ ErrorKind.Interrupted) }
{
    for _ in 0..u64::MAX {
        match reader.read(buffer) {
            Ok(count) => return Ok(count),
            Err(error) => {
                if error.kind() != ErrorKind::Interrupted {
                    return Err(error);
                }
            }
        }
    }
    Err(io::Error::from(ErrorKind::Other))
}

// Reads a reader to its end.
fn read_all<R: Read>(alloc: Global, reader: &mut R) -> Result<Vec<u8>, RunError>
    ensures bytes { IfOk result (λ v. IfSome (R.remaining reader.old) (λ xs. v.items ≡ xs)) }
    ensures end { OnOk result (IsAtEnd (R.remaining reader.new)) }
{
    let mut input = Vec::new(alloc);
    let mut buffer = [0u8; 4096];
    for _ in 0..u64::MAX {
        let count = read_some(reader, &mut buffer).map_err(|_| RunError::Read)?;
        if count == 0 {
            return Ok(input);
        }
        input
            .extend_from_slice(&buffer[..count])
            .map_err(|_| RunError::Memory)?;
    }
    Err(RunError::Read)
}

// Splits at the first line feed. Returns the bytes before it, and the bytes after it if there is a line feed.
#[inline(never)]
fn first_line_by_search(input: &[u8]) -> (&[u8], Option<&[u8]>)
    ensures lines { slice_split (λ b. b == 10) input.now ≡ result.0.now ∷ lines_left (option_copied result.1) }
    ensures shorter { IfSome result.1 (λ rest. length rest.now < length input.now) }
{
    match memchr(b'\n', input) {
        None => (input, None),
        Some(i) => {
            let (line, rest) = input.split_at(i);
            match rest.split_first() {
                None => (input, None),
                Some((_feed, rest)) => (line, Some(rest)),
            }
        }
    }
}

// Splits at the first line feed, as `first_line_by_search` does. An empty line is found without a search.
#[inline(always)]
fn first_line(input: &[u8]) -> (&[u8], Option<&[u8]>)
    ensures lines { slice_split (λ b. b == 10) input.now ≡ result.0.now ∷ lines_left (option_copied result.1) }
    ensures shorter { IfSome result.1 (λ rest. length rest.now < length input.now) }
{
    match input.split_first() {
        None => (input, None),
        Some((first, rest)) => {
            if *first == b'\n' {
                (&input[..0], Some(rest))
            } else {
                first_line_by_search(input)
            }
        }
    }
}

// Runs all lines of the input. Returns the output, the status, and the session in its final state. All lines share one
// buffer of fields.
fn answer<S: BuildHasher + Copy>(
    alloc: Global,
    hasher: S,
    input: &[u8],
) -> Result<(Vec<u8>, u8, Session<S>), AllocError>
    ensures { IfOk result (λ r. IsOutput input.now (record { bytes = r.0.items; status = r.1 })) }
{
    let mut session = Session::with_hasher(alloc, hasher);
    let mut fields = Vec::new(alloc);
    let mut out = Vec::new(alloc);
    let mut number = 0;
    let mut left = Some(input);
    while let Some(rest) = left {
        let (line, behind) = first_line(rest);
        number += 1;
        if !session.apply_fields_of(alloc, &mut fields, line, &mut out)? {
            push_not_command(alloc, &mut out, number)?;
            return Ok((out, 2, session));
        }
        left = behind;
    }
    Ok((out, 0, session))
}

// Writes all of the bytes, and flushes.
fn send<W: Write>(writer: &mut W, bytes: &[u8]) -> Result<(), RunError>
    ensures sent { OnOk result (Appends (W.contents writer.old) (W.contents writer.new) bytes.now) }
    ensures err { IfErr result (λ e. Leaves e (writer.new ≡ writer.old)) }
{
    writer.write_all(bytes).map_err(|_| RunError::Write)?;
    writer.flush().map_err(|_| RunError::Write)
}

// Reads the input to its end and writes its output. Returns the status and the session in its final state.
fn run_by<S: BuildHasher + Copy, R: Read, W: Write>(
    alloc: Global,
    hasher: S,
    reader: &mut R,
    writer: &mut W,
) -> Result<(u8, Session<S>), RunError>
    ensures written { IfOk result (λ r. IfSome (R.remaining reader.old) (λ input.
        (bytes : List ℕ) × IsOutput input (record { bytes = bytes; status = r.0 })
        × Appends (W.contents writer.old) (W.contents writer.new) bytes)) }
    ensures end { OnOk result (IsAtEnd (R.remaining reader.new)) }
    ensures err { IfErr result (λ e. Leaves e (writer.new ≡ writer.old)) }
{
    let input = read_all(alloc, reader)?;
    let (out, status, session) = answer(alloc, hasher, &input).map_err(|_| RunError::Memory)?;
    send(writer, &out)?;
    Ok((status, session))
}

/// Runs the commands of an input. Reads the input to its end, and writes the output of each line. Stops at the first
/// line that is not a command. Returns 0, or 2 after a line that is not a command.
///
/// The maps hash ids with a fixed seed. If untrusted parties choose the ids, use [`run_with`] with a randomly keyed
/// builder.
///
/// # Errors
///
/// - `Read`: a read failed. Nothing was written.
/// - `Write`: a write or the flush failed. A part of the output may be written.
/// - `Memory`: an allocation failed, and nothing was written.
///
/// # Complexity
///
/// O(n) for reading and writing, where n is the size of the input and the output. The commands cost more:
///
/// - `build` computes the closure of the whole store.
/// - `add`, `upsert` and `remove` find the affected entities as `Entities` describes, and recompute their ancestors.
/// - `slice` costs as much as [`slice`](crate::slice).
/// - `anc` sorts the ancestors that it writes.
/// - A command on a policy set costs as much as the call on the set.
///
/// Allocates the whole input and output, the store and the policy sets.
///
/// # Differences from cedar-policy-core
///
/// The original has no such function.
pub fn run<R: Read, W: Write>(alloc: Global, reader: &mut R, writer: &mut W) -> Result<u8, RunError>
    ensures { IsRun R.remaining W.contents result reader.old reader.new writer.old writer.new }
{
    let hasher: BuildHasherDefault<FoldHasher> = BuildHasherDefault::new();
    run_with(alloc, hasher, reader, writer)
}

/// Runs the commands of an input as [`run`] does, with maps that use this builder of hashers. The choice of hasher
/// never changes the output.
///
/// # Errors
///
/// - `Read`, `Write`: in the same cases as [`run`].
/// - `Memory`: an allocation failed, and nothing was written.
pub fn run_with<S: BuildHasher + Copy, R: Read, W: Write>(
    alloc: Global,
    hasher: S,
    reader: &mut R,
    writer: &mut W,
) -> Result<u8, RunError>
    ensures { IsRun R.remaining W.contents result reader.old reader.new writer.old writer.new }
{
    let (status, session) = run_by(alloc, hasher, reader, writer)?;
    drop(session);
    Ok(status)
}

/// Runs the commands of an input as [`run`] does, and leaks the entities and policies that the input created. A program
/// that exits afterwards saves the time to drop them. After an error nothing is leaked.
///
/// The maps hash ids with a fixed seed. If untrusted parties choose the ids, use [`run_and_leave_with`] with a randomly
/// keyed builder.
///
/// # Errors
///
/// - `Read`, `Write`: in the same cases as [`run`].
/// - `Memory`: an allocation failed, and nothing was written.
///
/// # Differences from cedar-policy-core
///
/// The original has no such function.
pub fn run_and_leave<R: Read, W: Write>(
    alloc: Global,
    reader: &mut R,
    writer: &mut W,
) -> Result<u8, RunError>
    ensures { IsRun R.remaining W.contents result reader.old reader.new writer.old writer.new }
{
    let hasher: BuildHasherDefault<FoldHasher> = BuildHasherDefault::new();
    run_and_leave_with(alloc, hasher, reader, writer)
}

/// Runs the commands of an input as [`run_and_leave`] does, with maps that use this builder of hashers. The choice of
/// hasher never changes the output.
///
/// # Errors
///
/// - `Read`, `Write`: in the same cases as [`run`].
/// - `Memory`: an allocation failed, and nothing was written.
pub fn run_and_leave_with<S: BuildHasher + Copy, R: Read, W: Write>(
    alloc: Global,
    hasher: S,
    reader: &mut R,
    writer: &mut W,
) -> Result<u8, RunError>
    ensures { IsRun R.remaining W.contents result reader.old reader.new writer.old writer.new }
{
    let (status, session) = run_by(alloc, hasher, reader, writer)?;
    mem::forget(session);
    Ok(status)
}
