// The tests of lines and runs, and the variants of a run that they use.
mod edits;
mod known_lines;
mod line_by_line;
mod policies;
mod slices;
mod slots;
mod streams;

use cedar_keyed_hash::KeyedState;
use cedar_store::{RunError, run, run_and_leave, run_and_leave_with, run_with};
use std::alloc::Global;
use std::io;
use std::io::{ErrorKind, Read, Write};
use std::process::Abort;
use std::test::Fail;

// Returns two hasher builders with keys.
fn keys() -> (KeyedState, KeyedState) {
    (
        KeyedState::with_keys(1, 2),
        KeyedState::with_keys(u64::MAX, 3),
    )
}

// A variant of a run: with the default hasher builder or with a key, and freeing or leaking its memory.
#[derive(Clone, Copy, Drop)]
struct Way {
    key: Option<KeyedState>,
    leaves: bool,
}

// Returns the three variants that leak memory, or that free it: with the default hasher builder and with two keys.
fn ways(leaves: bool) -> [Way; 3] {
    let (one, other) = keys();
    [
        Way { key: None, leaves },
        Way {
            key: Some(one),
            leaves,
        },
        Way {
            key: Some(other),
            leaves,
        },
    ]
}

// Runs a variant and returns its result.
fn ran<R: Read, W: Write>(
    alloc: Global,
    way: Way,
    reader: &mut R,
    writer: &mut W,
) -> Result<u8, RunError> {
    match (way.key, way.leaves) {
        (None, false) => run(alloc, reader, writer),
        (None, true) => run_and_leave(alloc, reader, writer),
        (Some(key), false) => run_with(alloc, key, reader, writer),
        (Some(key), true) => run_and_leave_with(alloc, key, reader, writer),
    }
}

// Checks whether a run of a variant has this output and this status.
fn is_answered_by(alloc: Global, way: Way, input: &[u8], output: &[u8], status: u8) -> bool {
    let mut reader = input;
    let mut out = Vec::new(alloc);
    let found = ran(alloc, way, &mut reader, &mut out);
    let told = matches!(found, Ok(found) if found == status) && out.as_slice() == output;
    drop(out);
    told
}

// Checks whether a run with the default hasher builder, or with a key, has this output and this status.
fn is_answered_under(
    alloc: Global,
    key: Option<KeyedState>,
    input: &[u8],
    output: &[u8],
    status: u8,
) -> bool {
    let way = Way { key, leaves: false };
    is_answered_by(alloc, way, input, output, status)
}

// Checks whether runs with two keys have this output and this status.
fn are_answered(alloc: Global, input: &[u8], output: &[u8], status: u8) -> bool {
    let (one, other) = keys();
    is_answered_under(alloc, Some(one), input, output, status)
        && is_answered_under(alloc, Some(other), input, output, status)
}

// Checks whether a run with the default hasher builder, and runs with two keys, have this output and this status.
fn is_answered(alloc: Global, input: &[u8], output: &[u8], status: u8) -> bool {
    is_answered_under(alloc, None, input, output, status)
        && are_answered(alloc, input, output, status)
}

// Checks each input, with its expected output and status.
fn shows(rt: &impl Abort, alloc: Global, cases: &[(&[u8], &[u8], u8)]) -> Result<(), Fail> {
    for (input, output, status) in cases {
        assert!(rt; is_answered(alloc, input, output, *status), "{input:?}");
    }
    Ok(())
}

#[test]
fn ancestors_are_found_over_parents(rt: HostRuntime) -> Result<(), Fail> {
    shows(
        &rt,
        rt.alloc(),
        &[
            (
                b"ent\tA::\"a\"\tA::\"b\"\nent\tA::\"b\"\tA::\"c\"\nbuild\nanc\tA::\"a\"\nanc\tA::\"c\"\n",
                b"ok 2\nanc\tA::\"b\"\tA::\"c\"\nno entity\n",
                0,
            ),
            // A chain in reverse order, and a graph that forks and joins.
            (
                b"ent\tA::\"d\"\nent\tA::\"c\"\tA::\"d\"\nent\tA::\"b\"\tA::\"c\"\nent\tA::\"a\"\tA::\"b\"\nbuild\nanc\tA::\"a\"\n",
                b"ok 4\nanc\tA::\"b\"\tA::\"c\"\tA::\"d\"\n",
                0,
            ),
            (
                b"ent\tA::\"a\"\tA::\"d\"\tA::\"b\"\nent\tA::\"b\"\tA::\"c\"\nent\tA::\"d\"\tA::\"c\"\nent\tA::\"c\"\nbuild\nanc\tA::\"a\"\nanc\tA::\"c\"\n",
                b"ok 4\nanc\tA::\"b\"\tA::\"c\"\tA::\"d\"\nanc\n",
                0,
            ),
        ],
    )
}

#[test]
fn ancestors_come_in_the_order_of_uids(rt: HostRuntime) -> Result<(), Fail> {
    shows(
        &rt,
        rt.alloc(),
        &[(
            b"ent\tA::\"a\"\tB::A::\"x\"\tA::B::\"x\"\tB::\"z\"\tB::\"a\"\tA::\"zz\"\tA::\"z\"\tAA::\"a\"\nbuild\nanc\tA::\"a\"",
            b"ok 1\nanc\tA::\"z\"\tA::\"zz\"\tB::A::\"x\"\tAA::\"a\"\tB::\"a\"\tB::\"z\"\tA::B::\"x\"\n",
            0,
        )],
    )
}

#[test]
fn a_parent_that_is_given_twice_counts_once(rt: HostRuntime) -> Result<(), Fail> {
    shows(
        &rt,
        rt.alloc(),
        &[(
            b"ent\tA::\"a\"\tA::\"b\"\tA::\"b\"\nent\tA::\"a\"\tA::\"b\"\nbuild\nanc\tA::\"a\"\n",
            b"ok 1\nanc\tA::\"b\"\n",
            0,
        )],
    )
}

#[test]
fn a_differing_duplicate_is_refused_and_an_equal_one_is_not(rt: HostRuntime) -> Result<(), Fail> {
    shows(
        &rt,
        rt.alloc(),
        &[
            (
                b"ent\tA::\"a\"\tA::\"b\"\nent\tA::\"a\"\tA::\"c\"\nbuild\nanc\tA::\"a\"\n",
                b"refused: duplicate A::\"a\"\nno entity\n",
                0,
            ),
            (
                b"ent\tA::\"a\"\tA::\"b\"\nent\tA::\"a\"\tA::\"b\"\nbuild\nanc\tA::\"a\"\n",
                b"ok 1\nanc\tA::\"b\"\n",
                0,
            ),
            // Fewer and more parents are differences. The error names the first entity that differs.
            (
                b"ent\tA::\"a\"\tA::\"b\"\nent\tA::\"c\"\nent\tA::\"c\"\tA::\"d\"\nent\tA::\"a\"\nbuild\n",
                b"refused: duplicate A::\"c\"\n",
                0,
            ),
            // A duplicate is reported before a cycle, wherever the cycle is in the list.
            (
                b"ent\tA::\"x\"\tA::\"x\"\nent\tA::\"a\"\nent\tA::\"a\"\tA::\"b\"\nbuild\n",
                b"refused: duplicate A::\"a\"\n",
                0,
            ),
        ],
    )
}

#[test]
fn a_cycle_is_refused(rt: HostRuntime) -> Result<(), Fail> {
    shows(
        &rt,
        rt.alloc(),
        &[
            (b"ent\tA::\"a\"\tA::\"a\"\nbuild\n", b"refused: cycle\n", 0),
            (
                b"ent\tA::\"a\"\tA::\"b\"\nent\tA::\"b\"\tA::\"c\"\nent\tA::\"c\"\tA::\"a\"\nbuild\nanc\tA::\"a\"\n",
                b"refused: cycle\nno entity\n",
                0,
            ),
            // A cycle that does not contain the first entity.
            (
                b"ent\tA::\"z\"\tA::\"a\"\nent\tA::\"a\"\tA::\"b\"\nent\tA::\"b\"\tA::\"a\"\nbuild\n",
                b"refused: cycle\n",
                0,
            ),
        ],
    )
}

#[test]
fn each_build_starts_anew_and_empties_what_waits(rt: HostRuntime) -> Result<(), Fail> {
    shows(
        &rt,
        rt.alloc(),
        &[
            (
                b"build\nent\tA::\"a\"\nbuild\nanc\tA::\"a\"\n",
                b"ok 0\nok 1\nanc\n",
                0,
            ),
            (
                b"ent\tA::\"a\"\nbuild\nent\tA::\"b\"\nbuild\nanc\tA::\"a\"\nanc\tA::\"b\"\n",
                b"ok 1\nok 1\nno entity\nanc\n",
                0,
            ),
            // A failed build leaves an empty store and an empty queue.
            (
                b"ent\tA::\"a\"\nbuild\nent\tA::\"b\"\tA::\"b\"\nbuild\nanc\tA::\"a\"\nbuild\n",
                b"ok 1\nrefused: cycle\nno entity\nok 0\n",
                0,
            ),
            // A queued entity is not in the store yet.
            (
                b"ent\tA::\"a\"\nanc\tA::\"a\"\nbuild\nanc\tA::\"a\"\n",
                b"no entity\nok 1\nanc\n",
                0,
            ),
        ],
    )
}

#[test]
fn empty_input_and_empty_lines_write_nothing(rt: HostRuntime) -> Result<(), Fail> {
    shows(
        &rt,
        rt.alloc(),
        &[
            (b"", b"", 0),
            (b"\n", b"", 0),
            (b"\n\nbuild\n\n", b"ok 0\n", 0),
            (b"build", b"ok 0\n", 0),
        ],
    )
}

#[test]
fn the_first_line_that_is_no_command_ends_the_run(rt: HostRuntime) -> Result<(), Fail> {
    shows(
        &rt,
        rt.alloc(),
        &[
            (b"frob", b"line 1: not a command\n", 2),
            (b"\nfrob\n", b"line 2: not a command\n", 2),
            (b"build\nfrob\nbuild\n", b"ok 0\nline 2: not a command\n", 2),
            (
                b"ent\tA::\"a\"\nbuild\n\nanc\tA::\"a\"\nent\tA::a\nbuild\n",
                b"ok 1\nanc\nline 5: not a command\n",
                2,
            ),
        ],
    )
}

#[test]
fn lines_of_another_form_are_no_commands(rt: HostRuntime) -> Result<(), Fail> {
    let lines: &[&[u8]] = &[
        b"build\r",
        b"build\t",
        b"build ",
        b" build",
        b"build\tA::\"a\"",
        b"Build",
        b"\t",
        b"\tbuild",
        b"ent",
        b"ent\t",
        b"ent\tA::\"a\"\t",
        b"ent\t\tA::\"a\"",
        b"ent\tA::a",
        b"ent A::\"a\"",
        b"ent\tA::\"a\"\tA::b",
        b"ent\tA::\"it's\"",
        b"ent\tA::\"\\u{0041}\"",
        b"ent\tif::\"a\"",
        b"ent\tA::\"\\u{80}\"",
        b"ent\tA::\"\xc3\xa9\"",
        b"ent\tA::\"a\"\tA::\"\\u{80}\"",
        b"anc",
        b"anc\t",
        b"anc\tA::\"a\"\tA::\"b\"",
        b"anc\tA::\"a\"\t",
        b"anc\tA::\"\\u{80}\"",
        b"anc\tA::\"a\"\x80",
        b"anc\tA::\"a\x7f\"",
        b"anc\tA::\"a\0\"",
        b"\x80",
        b"b\xc3\xa9",
        b"\x0c",
    ];
    for line in lines {
        assert!(rt;
            is_answered(rt.alloc(), line, b"line 1: not a command\n", 2),
            "{line:?}"
        );
    }
    Ok(())
}

#[test]
fn escaped_eids_are_read_and_written_alike(rt: HostRuntime) -> Result<(), Fail> {
    shows(
        &rt,
        rt.alloc(),
        &[(
            b"ent\tA::\"it\\'s\\t\"\tA::\"\\u{1}\\0\"\nbuild\nanc\tA::\"it\\'s\\t\"\n",
            b"ok 1\nanc\tA::\"\\u{1}\\0\"\n",
            0,
        )],
    )
}

// A reader that returns at most `most` bytes at a time, and fails after `good` reads.
#[derive(Drop)]
struct Failing<'a> {
    left: &'a [u8],
    most: usize,
    good: usize,
}

impl Read for Failing<'_> {
    fn read(&mut self, buf: &mut [u8]) -> io::Result<usize> {
        if self.good == 0 {
            return Err(io::Error::from(ErrorKind::Other));
        }
        self.good -= 1;
        let count = self.left.len().min(buf.len()).min(self.most);
        buf[..count].copy_from_slice(&self.left[..count]);
        self.left = &self.left[count..];
        Ok(count)
    }
}

// The number of bytes of the input.
const READ: usize = 28;

// Checks a run whose reader returns at most `most` bytes at a time and fails after `good` reads. If the run needs more
// reads, it must fail and write nothing, and otherwise it must write everything.
fn is_read_whole(alloc: Global, way: Way, most: usize, good: usize) -> bool {
    let left = b"ent\tA::\"a\"\nbuild\nanc\tA::\"a\"\n".as_slice();
    let mut out = Vec::new(alloc);
    let answer = ran(alloc, way, &mut Failing { left, most, good }, &mut out);
    // The last read reports the end of the input.
    let is_enough = good.saturating_sub(1).saturating_mul(most) >= READ;
    let told = match answer {
        Ok(status) => status == 0 && out.as_slice() == b"ok 1\nanc\n".as_slice() && is_enough,
        Err(RunError::Read) => out.is_empty() && !is_enough,
        Err(_) => false,
    };
    drop(out);
    told
}

// Calls `is_read_whole` for any number of good reads.
fn is_refused_for_reads(alloc: Global, way: Way, most: usize) -> bool {
    for good in 0..32 {
        if !is_read_whole(alloc, way, most, good) {
            return false;
        }
    }
    true
}

// Calls `is_refused_for_reads` for the variants that leak memory, or that free it.
fn are_refused_for_reads(alloc: Global, leaves: bool, most: usize) -> bool {
    for way in ways(leaves) {
        if !is_refused_for_reads(alloc, way, most) {
            return false;
        }
    }
    true
}

#[test]
fn a_failed_read_writes_nothing(rt: HostRuntime) {
    for most in 1..10 {
        let told = are_refused_for_reads(rt.alloc(), false, most)
            && are_refused_for_reads(rt.alloc(), true, most);
        assert!(rt; told, "{most} bytes at a time");
    }
}

// A writer that accepts at most `most` bytes at a time, and fails after `good` writes or at the flush.
#[derive(Drop)]
struct Full {
    taken: usize,
    most: usize,
    good: usize,
    flushes: bool,
}

impl Write for Full {
    fn write(&mut self, buf: &[u8]) -> io::Result<usize> {
        if self.good == 0 {
            return Err(io::Error::from(ErrorKind::Other));
        }
        self.good -= 1;
        let count = buf.len().min(self.most);
        self.taken = self.taken.saturating_add(count);
        Ok(count)
    }

    fn flush(&mut self) -> io::Result<()> {
        if self.flushes {
            Ok(())
        } else {
            Err(io::Error::from(ErrorKind::Other))
        }
    }
}

// Checks a run whose writer accepts `most` bytes at a time and `good` writes, and flushes or not. The run must fail if
// it needs more.
fn is_written_whole(alloc: Global, way: Way, most: usize, good: usize, flushes: bool) -> bool {
    let mut reader = b"ent\tA::\"a\"\nbuild\nanc\tA::\"a\"\n".as_slice();
    let mut writer = Full {
        taken: 0,
        most,
        good,
        flushes,
    };
    let answer = ran(alloc, way, &mut reader, &mut writer);
    // The output has nine bytes.
    if good.saturating_mul(most) >= 9 && flushes {
        matches!(answer, Ok(0)) && writer.taken == 9
    } else {
        matches!(answer, Err(RunError::Write))
    }
}

// Calls `is_written_whole` for any number of good writes.
fn is_refused_for_writes(alloc: Global, way: Way, most: usize) -> bool {
    for good in 0..11 {
        let flushed = is_written_whole(alloc, way, most, good, true);
        if !flushed || !is_written_whole(alloc, way, most, good, false) {
            return false;
        }
    }
    true
}

// Calls `is_refused_for_writes` for the variants that leak memory, or that free it.
fn are_refused_for_writes(alloc: Global, leaves: bool, most: usize) -> bool {
    for way in ways(leaves) {
        if !is_refused_for_writes(alloc, way, most) {
            return false;
        }
    }
    true
}

#[test]
fn a_failed_write_or_flush_is_a_write_fault(rt: HostRuntime) {
    for most in 1..10 {
        let told = are_refused_for_writes(rt.alloc(), false, most)
            && are_refused_for_writes(rt.alloc(), true, most);
        assert!(rt; told, "{most} bytes at a time");
    }
}

// Checks whether an error has the expected text.
fn says(alloc: Global, fault: RunError, want: &str) -> Result<bool, Fail> {
    let text = fault.to_string(alloc)?;
    let told = text.as_str() == want;
    drop(text);
    Ok(told)
}

#[test]
fn faults_have_their_texts(rt: HostRuntime) -> Result<(), Fail> {
    let alloc = rt.alloc();
    assert!(rt; says(alloc, RunError::Read, "read fault")?);
    assert!(rt; says(alloc, RunError::Write, "write fault")?);
    assert!(rt; says(alloc, RunError::Memory, "out of memory")?);
    Ok(())
}
