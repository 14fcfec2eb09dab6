// The flushed bytes of a buffered writer, observed by the reader at each of its reads.
use super::cut::{LENIENT, STRICT};
use super::{due_of, fixed, keys, lines_of};
use cedar_repl::{ErrorMode, talk};
use std::alloc::{AllocError, Global};
use std::cell::Cell;
use std::hash::BuildHasher;
use std::io;
use std::io::{ErrorKind, Read, Write};

// The number of flushed bytes, and the number of reads that observed an unexpected number.
#[derive(Drop)]
struct Seen {
    out: Cell<usize>,
    amiss: Cell<usize>,
}

// A reader that returns at most `most` bytes at a time. Before each read it is interrupted `often` times. At each read
// it checks whether the flushed bytes are the expected outputs for all lines completed so far.
#[derive(Drop)]
struct Looking<'a> {
    left: &'a [u8],
    due: &'a [usize],
    most: usize,
    often: usize,
    interrupted: usize,
    seen: &'a Seen,
}

impl Read for Looking<'_> {
    fn read(&mut self, buf: &mut [u8]) -> io::Result<usize> {
        if self.due.first().copied() != Some(self.seen.out.get()) {
            self.seen.amiss.set(self.seen.amiss.get().saturating_add(1));
        }
        if self.interrupted < self.often {
            self.interrupted = self.interrupted.saturating_add(1);
            return Err(io::Error::from(ErrorKind::Interrupted));
        }
        self.interrupted = 0;
        let count = self.left.len().min(buf.len()).min(self.most);
        buf[..count].copy_from_slice(&self.left[..count]);
        self.left = &self.left[count..];
        self.due = self.due.get(count..).unwrap_or(&[]);
        Ok(count)
    }
}

// A writer whose bytes are visible after a flush.
#[derive(Drop)]
struct Buffered<'a> {
    bytes: Vec<u8>,
    seen: &'a Seen,
}

impl Write for Buffered<'_> {
    fn write(&mut self, buf: &[u8]) -> io::Result<usize> {
        match self.bytes.extend_from_slice(buf) {
            Ok(()) => Ok(buf.len()),
            Err(_) => Err(io::Error::from(ErrorKind::OutOfMemory)),
        }
    }

    fn flush(&mut self) -> io::Result<()> {
        self.seen.out.set(self.bytes.len());
        Ok(())
    }
}

// Appends the number of expected bytes after 0 bytes of input, after one byte, and so on up to all bytes.
fn push_dues(
    alloc: Global,
    dues: &mut Vec<usize>,
    rows: &str,
    all: usize,
) -> Result<(), AllocError> {
    for count in 0..all.saturating_add(1) {
        let due = due_of(alloc, rows, count);
        let length = due.len();
        drop(due);
        dues.push(length)?;
    }
    Ok(())
}

// Returns the numbers of expected bytes, or nothing if an allocation fails.
fn dues_of(alloc: Global, rows: &str, all: usize) -> Vec<usize> {
    let mut dues = Vec::new(alloc);
    if push_dues(alloc, &mut dues, rows, all).is_err() {
        dues.clear();
    }
    dues
}

// Checks that at each read exactly the expected output was flushed, and at the end all of it.
fn is_in_turn<S: BuildHasher + Copy>(
    alloc: Global,
    hasher: S,
    manner: ErrorMode,
    rows: &str,
    most: usize,
    often: usize,
) -> bool {
    let input = lines_of(alloc, rows);
    let dues = dues_of(alloc, rows, input.len());
    let due = due_of(alloc, rows, usize::MAX);
    let seen = Seen {
        out: Cell::new(0),
        amiss: Cell::new(0),
    };
    let mut reader = Looking {
        left: input.as_slice(),
        due: dues.as_slice(),
        most,
        often,
        interrupted: 0,
        seen: &seen,
    };
    let mut writer = Buffered {
        bytes: Vec::new(alloc),
        seen: &seen,
    };
    let status = talk(alloc, hasher, manner, &mut reader, &mut writer).ok();
    let want = match manner {
        ErrorMode::Lenient => Some(0),
        ErrorMode::Strict => Some(2),
    };
    let whole = status == want && writer.bytes.as_slice() == due.as_slice() && !due.is_empty();
    let told = whole && seen.amiss.get() == 0 && seen.out.get() == due.len();
    drop(writer);
    drop(due);
    drop(dues);
    drop(input);
    told
}

// Calls `is_in_turn` in both modes, with the default hasher builder and with two keys.
fn are_in_turn(alloc: Global, most: usize, often: usize) -> bool {
    let (one, other) = keys();
    is_in_turn(alloc, fixed(), ErrorMode::Lenient, LENIENT, most, often)
        && is_in_turn(alloc, one, ErrorMode::Lenient, LENIENT, most, often)
        && is_in_turn(alloc, other, ErrorMode::Strict, STRICT, most, often)
        && is_in_turn(alloc, fixed(), ErrorMode::Strict, STRICT, most, often)
}

#[test]
fn each_answer_is_out_before_the_next_read(rt: HostRuntime) {
    for most in [1, 2, 3, 7, 11, 64, usize::MAX] {
        assert!(rt; are_in_turn(rt.alloc(), most, 0), "by {most} bytes a read");
    }
}

#[test]
fn an_interrupted_read_is_made_again(rt: HostRuntime) {
    for often in [1, 2, 50] {
        assert!(rt;
            are_in_turn(rt.alloc(), 5, often),
            "interrupted {often} times before each read"
        );
    }
}
