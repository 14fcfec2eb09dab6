//! A conversation over a reader and a writer.
ghost use Rattle.std.specs.Prelude.{◌≡◌, ◌<◌, ◌≤◌, ◌+◌, ◌^◌, ◌∷◌, List, ℕ, [], IfOk, OnOk, OnErr, IfSome, IfErr};
ghost use Rattle.std.specs.Prelude.{take, length};
ghost use Rattle.std.specs.Io.KnownBytes.{IsAtEnd, Appends, Consumes, Keeps};
ghost use Rattle.cedar_store.specs.Output.{IsOutput};
ghost use Rattle.cedar_repl.specs.Conversation.{AnswersAll, Leaves, RespondsToReadLines};
ghost use Rattle.cedar_repl.specs.Order.{Reads, RecordsCalls, IsInOrder, Sends, SendsAtMost};
ghost use Rattle.cedar_repl.specs.declared.error_mode.ErrorMode.TheVariants.{Lenient, Strict};
ghost use Rattle.cedar_repl.specs.declared.talking.TalkError.TheVariants.{Memory};
ghost use Rattle.cedar_repl.specs.laws.Hearing.{Has};
ghost use Rattle.cedar_repl.specs.laws.Talking.{Finishes, Converses, IsReadFault, IsWriteFault};

use crate::conversation::Conversation;
use crate::error_mode::ErrorMode;
use crate::streams::{Direct, Streams};
use std::alloc::{AllocError, Global};
use std::hash::BuildHasher;
use std::io::{Read, Write};
use thiserror::Error;

/// The reason why a conversation ended early.
#[derive(Debug, Drop, Error)]
pub enum TalkError {
    /// A read failed. The output consists of the outputs for all lines that were completed before.
    #[error("read fault")]
    Read,
    /// A write or a flush failed. The amount of output is unspecified.
    #[error("write fault")]
    Write,
    /// An allocation failed. The output consists of the outputs for all lines that were completed before the last read.
    #[error("out of memory")]
    Memory,
}

impl From<AllocError> for TalkError {
    ghost from_gives = { λ _ e. e ≡ Memory };

    fn from(_error: AllocError) -> TalkError {
        TalkError::Memory
    }
}

// The number of bytes requested by a read.
const ROOM: usize = 4096;

// A conversation ends after this many reads, so that a 64-bit counter can count the lines. No real input needs that
// many.
const READS: usize = 1 << 51;

// Writes all of the bytes, and flushes.
fn send<R, W, T: Streams<R, W>>(
    streams: &mut T,
    writer: &mut W,
    bytes: &[u8],
) -> Result<(), TalkError>
    ensures sent { OnOk result (Appends (T.contents writer.old) (T.contents writer.new) bytes.now) }
    ensures err { IfErr result IsWriteFault }
    ensures calls { OnOk result (Sends (T.calls streams.old) (T.calls streams.new) bytes.now) }
    ensures failed { OnErr result (SendsAtMost (T.calls streams.old) (T.calls streams.new)) }
{
    match streams.write_all(writer, bytes) {
        Ok(()) => streams.flush(writer).map_err(|_| TalkError::Write),
        Err(_) => Err(TalkError::Write),
    }
}

// Reads the next bytes into the beginning of the buffer. Returns their number, which is 0 at the end.
fn read_some<R, W, T: Streams<R, W>>(
    streams: &mut T,
    reader: &mut R,
    buffer: &mut [u8],
) -> Result<usize, TalkError>
    requires { 0 < length buffer.old }
    ensures bound { IfOk result (λ n. n ≤ length buffer.new) }
    ensures bytes { IfOk result (λ n. Consumes (T.remaining reader.old) (T.remaining reader.new) (take n buffer.new)) }
    ensures end { IfOk result (λ n. n ≡ 0 → IsAtEnd (T.remaining reader.new)) }
    ensures call { IfOk result (λ n.
        RecordsCalls (T.calls streams.old) (T.calls streams.new) (Reads (take n buffer.new) ∷ [])) }
    ensures err { IfErr result IsReadFault }
    ensures keeps { OnErr result (Keeps (T.remaining reader.old) (T.remaining reader.new)) }
    ensures failed { OnErr result (RecordsCalls (T.calls streams.old) (T.calls streams.new) (Reads [] ∷ [])) }
{
    streams.read(reader, buffer).map_err(|_| TalkError::Read)
}

// Finishes at the end of the input: writes the output for an incomplete last line, and returns the status.
fn finish<S: BuildHasher + Copy, R, W, T: Streams<R, W>>(
    alloc: Global,
    conversation: &mut Conversation<S>,
    streams: &mut T,
    writer: &mut W,
) -> Result<u8, TalkError>
    requires { conversation.old.ended + 1 < 2 ^ 64 }
    ensures finishes { Finishes result conversation.old (T.contents writer.old) (T.contents writer.new) }
    ensures calls { OnOk result ((bytes : List ℕ) × Sends (T.calls streams.old) (T.calls streams.new) bytes) }
    ensures failed { OnErr result (SendsAtMost (T.calls streams.old) (T.calls streams.new)) }
{
    let (last, on) = match conversation.close(alloc) {
        Ok((last, on)) => (last, on),
        Err(_want) => return Err(TalkError::Memory),
    };
    send::<R, W, T>(streams, writer, last.as_slice())?;
    if on { Ok(0) } else { Ok(2) }
}

// Processes the input until it ends or a line ends the conversation. Returns the status of `talk`.
fn converse<S: BuildHasher + Copy, R, W, T: Streams<R, W>>(
    alloc: Global,
    conversation: &mut Conversation<S>,
    streams: &mut T,
    reader: &mut R,
    writer: &mut W,
) -> Result<u8, TalkError>
    requires { conversation.old.ended ≡ 0 }

    // The output is the output of a conversation over the bytes that were read.
    ensures told { Has conversation.old [] [] → Converses conversation.old.manner result
        (T.remaining reader.old) (T.remaining reader.new) (T.contents writer.old) (T.contents writer.new) }

    // Before each read, the outputs for all completed lines are written and flushed. At the end, the whole output is
    // flushed.
    ensures order { Has conversation.old [] [] → IsInOrder conversation.old.manner result
        (T.calls streams.old) (T.calls streams.new) }
{
    let mut buffer = [0u8; ROOM];
    for turn in 0..READS {
        let count = match read_some::<R, W, T>(streams, reader, &mut buffer) {
            Ok(count) => count,
            Err(error) => return Err(error),
        };
        if count == 0 {
            return finish::<S, R, W, T>(alloc, conversation, streams, writer);
        }
        let (out, on) = match conversation.hear_all(alloc, &buffer[..count]) {
            Ok((out, on)) => (out, on),
            Err(_want) => return Err(TalkError::Memory),
        };
        send::<R, W, T>(streams, writer, out.as_slice())?;
        if !on {
            return Ok(2);
        }
    }
    Err(TalkError::Read)
}

/// Holds a conversation over the lines of [`run`](cedar_store::run). The output for each completed line is written and
/// flushed before more input is read. An incomplete last line is processed at the end of the input, unless it is empty.
/// An interrupted read is repeated.
///
/// - [`ErrorMode::Lenient`]: the output for a line that is not a command is `line N: not a command`, where N is its
///   number. The line has no other effect, and the conversation continues. The output for the line `help` is the help
///   text. The status is 0.
/// - [`ErrorMode::Strict`]: the first line that is not a command ends the conversation with status 2. The line `help` is
///   not a command here. `run` has the same output and status for the same input. No input is read after the read that
///   completed this line.
///
/// The maps hash with hashers of `hasher`, which has no effect on the output.
///
/// # Errors
///
/// - `Read`: a read failed, or 2^51 reads did not reach the end. The output consists of the outputs for all lines that
///   were completed before.
/// - `Write`: a write or a flush failed. The amount of output is unspecified.
/// - `Memory`: an allocation failed. The output consists of the outputs for all lines that were completed before the
///   last read.
///
/// # Complexity
///
/// Reads up to 4,096 bytes at a time by [`Read::read`]. The reader should return the available bytes, so that a pipe or
/// a terminal does not block. Each read causes one write and one flush. Each line costs as much as in `run`.
///
/// Allocates the session, the incomplete line, and the outputs for the lines of one read.
///
/// # Differences from cedar-policy-core
///
/// The original has no such function.
pub fn talk<S: BuildHasher + Copy, R: Read, W: Write>(
    alloc: Global,
    hasher: S,
    manner: ErrorMode,
    reader: &mut R,
    writer: &mut W,
) -> Result<u8, TalkError>
    // In strict mode, a run over the input of the reader has the same output and status. The bytes of reader and writer
    // must be known.
    ensures strict { manner ≡ Strict → IfOk result (λ status. IfSome (R.remaining reader.old) (λ input.
        (bytes : List ℕ) × IsOutput input (record { bytes = bytes; status = status })
        × Appends (W.contents writer.old) (W.contents writer.new) bytes)) }

    // In lenient mode the output consists of the outputs for all lines of the input, and the status is 0.
    ensures lenient { manner ≡ Lenient → IfOk result (λ status. (status ≡ 0) × IfSome (R.remaining reader.old) (λ input.
        (bytes : List ℕ) × AnswersAll Lenient input bytes
        × Appends (W.contents writer.old) (W.contents writer.new) bytes)) }

    // With status 0, the input was read to its end.
    ensures end { IfOk result (λ status. status ≡ 0 → IsAtEnd (R.remaining reader.new)) }

    // If a line ended the conversation, all earlier completed lines are commands, except in the last 4,096 bytes that
    // were read.
    ensures near { IfOk result (λ status.
        status ≡ 2 → RespondsToReadLines manner (R.remaining reader.old) (R.remaining reader.new)) }

    // If a read failed, the output consists of the outputs for all lines completed before. If an allocation failed, the
    // lines completed by the last read, of at most 4,096 bytes, are excluded.
    ensures err { IfErr result (λ e. Leaves manner e (R.remaining reader.old) (R.remaining reader.new)
        (W.contents writer.old) (W.contents writer.new)) }
{
    let mut conversation = Conversation::new(alloc, hasher, manner);
    let mut direct = Direct;
    let ended = converse::<S, R, W, Direct>(alloc, &mut conversation, &mut direct, reader, writer);
    drop(conversation);
    ended
}
