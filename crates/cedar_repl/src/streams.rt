//! The calls of a conversation on a reader and a writer.
ghost use Rattle.std.specs.Prelude.{◌≡◌, ◌≢◌, ◌<◌, ◌≤◌, ◌∷◌, List, ℕ, [], IfOk, OnOk, OnErr, IfErr, Option, None};
ghost use Rattle.std.specs.Prelude.{take, length};
ghost use Rattle.std.specs.Io.KnownBytes.{IsAtEnd, Appends, Consumes, Keeps};
ghost use Rattle.std.specs.IoError.{error_kind};
ghost use Rattle.cedar_repl.specs.Order.{Call, Reads, Writes, Flushes, RecordsCalls};

use std::io;
use std::io::{ErrorKind, Read, Write};

// The calls of a conversation on a reader and a writer. The conversation is generic over this trait. An implementation
// can record the calls in order, so a proof about recorded calls is a proof about the same code without recording.
pub(crate) trait Streams<R, W> {
    // The bytes that the reader will return, and the bytes that the writer contains, if they are known.
    ghost remaining: { R → Option (List ℕ) } = { λ _. None };

    ghost contents: { W → Option (List ℕ) } = { λ _. None };

    // The calls so far, if they are recorded.
    ghost calls: { Self → Option (List Call) } = { λ _. None };

    // Reads the next bytes into the beginning of the buffer. Returns their number, which is 0 at the end. Repeats an
    // interrupted read.
    fn read(&mut self, reader: &mut R, buffer: &mut [u8]) -> io::Result<usize>
        requires { 0 < length buffer.old }
        ensures bound { IfOk result (λ n. n ≤ length buffer.new) }
        ensures bytes { IfOk result (λ n. Consumes (remaining reader.old) (remaining reader.new) (take n buffer.new)) }
        ensures end { IfOk result (λ n. n ≡ 0 → IsAtEnd (remaining reader.new)) }
        ensures keeps { OnErr result (Keeps (remaining reader.old) (remaining reader.new)) }
        ensures again { IfErr result (λ e. error_kind e ≢ ErrorKind.Interrupted) }
        ensures call { IfOk result (λ n. RecordsCalls (calls self.old) (calls self.new) (Reads (take n buffer.new) ∷ [])) }
        ensures failed { OnErr result (RecordsCalls (calls self.old) (calls self.new) (Reads [] ∷ [])) };

    // Writes all of the bytes.
    fn write_all(&mut self, writer: &mut W, bytes: &[u8]) -> io::Result<()>
        ensures bytes { OnOk result (Appends (contents writer.old) (contents writer.new) bytes.now) }
        ensures call { OnOk result (RecordsCalls (calls self.old) (calls self.new) (Writes bytes.now ∷ [])) }
        ensures failed { OnErr result (RecordsCalls (calls self.old) (calls self.new) []) };

    // Flushes the writer.
    fn flush(&mut self, writer: &mut W) -> io::Result<()>
        ensures bytes { Keeps (contents writer.old) (contents writer.new) }
        ensures call { OnOk result (RecordsCalls (calls self.old) (calls self.new) (Flushes ∷ [])) }
        ensures failed { OnErr result (RecordsCalls (calls self.old) (calls self.new) []) };
}

// Reads, and repeats an interrupted read.
fn read_retrying<R: Read>(reader: &mut R, buffer: &mut [u8]) -> io::Result<usize>
    requires { 0 < length buffer.old }
    ensures bound { IfOk result (λ n. n ≤ length buffer.new) }
    ensures bytes { IfOk result (λ n. Consumes (R.remaining reader.old) (R.remaining reader.new) (take n buffer.new)) }
    ensures end { IfOk result (λ n. n ≡ 0 → IsAtEnd (R.remaining reader.new)) }
    ensures keeps { OnErr result (Keeps (R.remaining reader.old) (R.remaining reader.new)) }
    ensures again { IfErr result (λ e. error_kind e ≢ ErrorKind.Interrupted) }
{
    for _ in 0..u64::MAX {
        match reader.read(buffer) {
            Ok(count) => return Ok(count),
            Err(error) => {
                if error.kind() != ErrorKind::Interrupted {
                    return Err(error);
                }
            }
        }
    }
    Err(io::Error::from(ErrorKind::Other))
}

// The calls without recording.
#[derive(Clone, Copy)]
pub(crate) struct Direct;

impl<R: Read, W: Write> Streams<R, W> for Direct {
    ghost remaining = { R.remaining };

    ghost contents = { W.contents };

    fn read(&mut self, reader: &mut R, buffer: &mut [u8]) -> io::Result<usize> {
        read_retrying(reader, buffer)
    }

    fn write_all(&mut self, writer: &mut W, bytes: &[u8]) -> io::Result<()> {
        writer.write_all(bytes)
    }

    fn flush(&mut self, writer: &mut W) -> io::Result<()> {
        writer.flush()
    }
}
