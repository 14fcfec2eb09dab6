// Readers and writers that fail at one of their calls, each call in turn.
use super::{due_of, fixed, keys, lines_of};
use cedar_repl::{ErrorMode, TalkError, talk};
use std::alloc::Global;
use std::hash::BuildHasher;
use std::io;
use std::io::{ErrorKind, Read, Write};

// A reader that returns at most `most` bytes at a time, and fails after `good` reads.
#[derive(Drop)]
struct Failing<'a> {
    left: &'a [u8],
    most: usize,
    good: usize,
}

impl Read for Failing<'_> {
    fn read(&mut self, buf: &mut [u8]) -> io::Result<usize> {
        if self.good == 0 {
            return Err(io::Error::from(ErrorKind::Other));
        }
        self.good -= 1;
        let count = self.left.len().min(buf.len()).min(self.most);
        buf[..count].copy_from_slice(&self.left[..count]);
        self.left = &self.left[count..];
        Ok(count)
    }
}

// Returns the status of a conversation, 8 for a read error, and 9 for any other error.
fn status_of(answer: Result<u8, TalkError>) -> u8 {
    match answer {
        Ok(status) => status,
        Err(TalkError::Read) => 8,
        Err(TalkError::Write) => 9,
        Err(TalkError::Memory) => 9,
    }
}

// Checks a conversation over a reader that fails after `good` reads. It must write the expected outputs for all lines
// that these reads completed. In strict mode it ends with the last line, which is not a command, and otherwise at the
// end of the input.
fn is_due<S: BuildHasher + Copy>(
    alloc: Global,
    hasher: S,
    manner: ErrorMode,
    rows: &str,
    most: usize,
    good: usize,
) -> bool {
    let input = lines_of(alloc, rows);
    let all = input.len();
    let read = good.saturating_mul(most).min(all);
    let due = due_of(alloc, rows, read);
    let mut reader = Failing {
        left: input.as_slice(),
        most,
        good,
    };
    let mut out = Vec::new(alloc);
    let status = status_of(talk(alloc, hasher, manner, &mut reader, &mut out));
    let ended = match manner {
        ErrorMode::Lenient if good.saturating_sub(1).saturating_mul(most) >= all => 0,
        ErrorMode::Strict if read == all => 2,
        _ => 8,
    };
    let told = status == ended && out.as_slice() == due.as_slice() && all > 0;
    drop(input);
    drop(due);
    drop(out);
    told
}

// Calls `is_due` for any number of good reads.
fn are_due_by<S: BuildHasher + Copy>(
    alloc: Global,
    hasher: S,
    manner: ErrorMode,
    rows: &str,
    most: usize,
) -> bool {
    for good in 0..140 {
        if !is_due(alloc, hasher, manner, rows, most, good) {
            return false;
        }
    }
    true
}

// Calls `are_due_by` with the default hasher builder and with two keys.
fn are_due(alloc: Global, manner: ErrorMode, rows: &str, most: usize) -> bool {
    let (one, other) = keys();
    are_due_by(alloc, fixed(), manner, rows, most)
        && are_due_by(alloc, one, manner, rows, most)
        && are_due_by(alloc, other, manner, rows, most)
}

pub(super) const LENIENT: &str = "ent>A::\"a\">A::\"b\" =>
build => ok 1;
anc A::\"a\" => line 3: not a command;
anc>A::\"a\" => anc>A::\"b\";
 =>
ids~ => line 6: not a command;
help => HELP
frob => line 8: not a command;
static>p>permit => ok;
ids => bodies>p;policies>p;";

pub(super) const STRICT: &str = "ent>A::\"a\">A::\"b\" =>
build => ok 1;
 =>
anc>A::\"a\" => anc>A::\"b\";
static>p>permit => ok;
ids => bodies>p;policies>p;
help => line 7: not a command;";

#[test]
fn where_a_read_fails_all_lines_before_were_answered(rt: HostRuntime) {
    for most in 1..10 {
        assert!(rt;
            are_due(rt.alloc(), ErrorMode::Lenient, LENIENT, most),
            "leniently, {most} bytes at a time"
        );
        assert!(rt;
            are_due(rt.alloc(), ErrorMode::Strict, STRICT, most),
            "strictly, {most} bytes at a time"
        );
    }
}

// A writer that accepts at most `most` bytes at a time, and fails after `good` writes or at the flush.
#[derive(Drop)]
struct Full {
    taken: usize,
    most: usize,
    good: usize,
    flushes: bool,
}

impl Write for Full {
    fn write(&mut self, buf: &[u8]) -> io::Result<usize> {
        if self.good == 0 {
            return Err(io::Error::from(ErrorKind::Other));
        }
        self.good -= 1;
        let count = buf.len().min(self.most);
        self.taken = self.taken.saturating_add(count);
        Ok(count)
    }

    fn flush(&mut self) -> io::Result<()> {
        if self.flushes {
            Ok(())
        } else {
            Err(io::Error::from(ErrorKind::Other))
        }
    }
}

// Checks a conversation with nine bytes of output, over a writer that accepts `most` bytes at a time and `good` writes.
// It must fail if it needs more writes, or if the flush fails.
fn is_written_whole<S: BuildHasher + Copy>(
    alloc: Global,
    hasher: S,
    most: usize,
    good: usize,
    flushes: bool,
) -> bool {
    let mut reader = b"ent\tA::\"a\"\nbuild\nanc\tA::\"a\"\n".as_slice();
    let mut writer = Full {
        taken: 0,
        most,
        good,
        flushes,
    };
    let status = status_of(talk(alloc, hasher, ErrorMode::Strict, &mut reader, &mut writer));
    if good.saturating_mul(most) >= 9 && flushes {
        status == 0 && writer.taken == 9
    } else {
        status == 9
    }
}

// Calls `is_written_whole` for any number of good writes.
fn is_refused_by<S: BuildHasher + Copy>(alloc: Global, hasher: S, most: usize) -> bool {
    for good in 0..11 {
        let flushed = is_written_whole(alloc, hasher, most, good, true);
        if !flushed || !is_written_whole(alloc, hasher, most, good, false) {
            return false;
        }
    }
    true
}

// Calls `is_refused_by` with the default hasher builder and with two keys.
fn is_refused_for_writes(alloc: Global, most: usize) -> bool {
    let (one, other) = keys();
    is_refused_by(alloc, fixed(), most)
        && is_refused_by(alloc, one, most)
        && is_refused_by(alloc, other, most)
}

#[test]
fn a_failed_write_or_flush_is_a_write_fault(rt: HostRuntime) {
    for most in 1..10 {
        assert!(rt;
            is_refused_for_writes(rt.alloc(), most),
            "{most} bytes at a time"
        );
    }
}
