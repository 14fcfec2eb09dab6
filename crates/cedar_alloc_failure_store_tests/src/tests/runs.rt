// Tests of runs of the program. In a case, input and output are written with `;` for the end of a line and `>` for a
// tab. The status comes before the output. A run that does not free its entities and policies begins with `~`.
use cedar_alloc_failures::{
    Answer, CallOutcome, Calls, Row, ample_if, both, check_failures, memory_if, refuse,
    stop_failing, unmade,
};
use cedar_keyed_hash::KeyedState;
use cedar_store::{RunError, run, run_and_leave, run_and_leave_with, run_with};
use std::alloc::Global;
use std::io;
use std::io::{ErrorKind, Read, Write};

// Returns the byte that a byte of a case stands for.
fn byte_of(byte: u8) -> u8 {
    match byte {
        b';' => b'\n',
        b'>' => b'\t',
        _ => byte,
    }
}

// Returns the bytes that a text of a case stands for.
pub(super) fn bytes_of(alloc: Global, text: &str) -> Option<Vec<u8>> {
    let mut bytes = Vec::new(alloc);
    for byte in text.as_bytes() {
        match bytes.push(byte_of(*byte)) {
            Ok(()) => {}
            Err(_) => {
                drop(bytes);
                return None;
            }
        }
    }
    Some(bytes)
}

// A reader that returns a few bytes at a time. If `fails` is true, it returns an error at the end.
#[derive(Drop)]
pub(super) struct Parts<'a> {
    pub(super) left: &'a [u8],
    pub(super) fails: bool,
}

impl Read for Parts<'_> {
    fn read(&mut self, buf: &mut [u8]) -> io::Result<usize> {
        if self.left.is_empty() && self.fails {
            return Err(io::Error::from(ErrorKind::Other));
        }
        let count = self.left.len().min(buf.len()).min(9);
        buf[..count].copy_from_slice(&self.left[..count]);
        self.left = &self.left[count..];
        Ok(count)
    }
}

// A writer with enough space, so that it does not allocate. If `fails` is true, the flush returns an error.
#[derive(Drop)]
pub(super) struct Kept {
    pub(super) bytes: Vec<u8>,
    fails: bool,
}

impl Write for Kept {
    fn write(&mut self, buf: &[u8]) -> io::Result<usize> {
        match self.bytes.extend_from_slice(buf) {
            Ok(()) => Ok(buf.len()),
            Err(_) => Err(io::Error::from(ErrorKind::OutOfMemory)),
        }
    }

    fn flush(&mut self) -> io::Result<()> {
        if self.fails {
            Err(io::Error::from(ErrorKind::Other))
        } else {
            Ok(())
        }
    }
}

// Returns a writer with enough space.
pub(super) fn writer(alloc: Global, fails: bool) -> Option<Kept> {
    match Vec::with_capacity(alloc, 4096) {
        Ok(bytes) => Some(Kept { bytes, fails }),
        Err(_) => None,
    }
}

// Returns the outcome of a run, given the expected status and output, or the expected error.
fn told(answer: Result<u8, RunError>, written: &[u8], due: &[u8], want: &str) -> Answer {
    match answer {
        Err(RunError::Memory) => memory_if(written.is_empty()),
        Err(RunError::Read) => ample_if(want == "read fault" && written.is_empty()),
        Err(RunError::Write) => ample_if(want == "write fault"),
        Ok(0) => ample_if(want.starts_with("0 ") && written == due),
        Ok(_) => ample_if(want.starts_with("2 ") && written == due),
    }
}

// Runs the program on these bytes.
fn tried(
    alloc: Global,
    number: usize,
    input: &[u8],
    out: Kept,
    due: &[u8],
    row: Row<'_>,
) -> CallOutcome {
    let mut reader = Parts {
        left: input,
        fails: row.want == "read fault",
    };
    let mut out = out;
    refuse(alloc, number);
    let hasher = KeyedState::with_keys(1, 2);
    let answer = match row.call {
        "run" => run(alloc, &mut reader, &mut out),
        "run_with" => run_with(alloc, hasher, &mut reader, &mut out),
        "run_and_leave_with" => run_and_leave_with(alloc, hasher, &mut reader, &mut out),
        _ => run_and_leave(alloc, &mut reader, &mut out),
    };
    let refused = stop_failing(alloc);
    let answer = told(answer, out.bytes.as_slice(), due, row.want);
    drop(out);
    CallOutcome { answer, refused }
}

// Returns the expected output, which follows the status.
pub(super) fn output_of(want: &str) -> &str {
    want.split_once(' ').unwrap_or((want, "")).1
}

struct OnRuns;

const RUNS: &str = "
    run | ent>A::\"a\">A::\"b\";ent>A::\"b\">A::\"c\";build;anc>A::\"a\";anc>A::\"c\"; | 0 ok 2;anc>A::\"b\">A::\"c\";no entity;
    run | ent>A::\"a\">A::\"b\";build;ent>A::\"b\">A::\"c\";add;anc>A::\"a\";ent>A::\"b\">A::\"d\";upsert;anc>A::\"a\";remove>A::\"b\";anc>A::\"a\"; | 0 ok 1;ok 2;anc>A::\"b\">A::\"c\";ok 2;anc>A::\"b\">A::\"d\";ok 1;anc;
    run | ent>A::\"a\">A::\"a\";build; | 0 refused: cycle;
    run | ent>A::\"a\">A::\"b\";ent>A::\"a\">A::\"c\";build; | 0 refused: duplicate A::\"a\";
    run | static>a>permit;template>t>principal;link>t>l>principal=A::\"x\";other;static>a>forbid;other;merge>keep;merge>rename;ids;unlink>l; | 0 ok;ok;ok;ok;ok;ok;refused: occupied a;ok>a>policy0;bodies>a>t>policy0;policies>a>l>policy0;ok;
    run | ent>A::\"a\">A::\"b\";ent>A::\"b\">A::\"c\";ent>A::\"d\";build;slice>A::\"b\";anc>A::\"b\";anc>A::\"a\"; | 0 ok 3;ok 1;anc>A::\"c\";no entity;
    run | template>t>all;link>t>l>action=A::\"x\">principal=A::\"y\">resource=A::\"z\";link>t>l>action=Action::\"x\">principal=A::\"y\">resource=A::\"z\";unlink>t;unlink>m; | 0 ok;refused: not an action A::\"x\";ok;refused: not a link t;refused: no link m;
    run | static>a>permit;frob; | 2 ok;line 2: not a command;
    run | ent>A::\"a\"; | read fault
    run | ent>A::\"a\";build; | write fault
    ~ run_and_leave | ent>A::\"a\">A::\"b\";ent>A::\"b\">A::\"c\";build;anc>A::\"a\"; | 0 ok 2;anc>A::\"b\">A::\"c\";
    ~ run_and_leave | static>a>permit;other;static>a>forbid;merge>rename;ids; | 0 ok;ok;ok;ok>a>policy0;bodies>a>policy0;policies>a>policy0;
    run_and_leave | frob; | 2 line 1: not a command;
    run_and_leave | ent>A::\"a\"; | read fault
    run_and_leave | ent>A::\"a\";build; | write fault
    run_with | ent>A::\"a\">A::\"b\";ent>A::\"b\">A::\"c\";ent>A::\"d\";build;slice>A::\"b\";anc>A::\"b\";anc>A::\"a\"; | 0 ok 3;ok 1;anc>A::\"c\";no entity;
    run_with | static>a>permit;template>t>principal;link>t>l>principal=A::\"x\";other;static>a>forbid;other;merge>keep;merge>rename;ids;unlink>l; | 0 ok;ok;ok;ok;ok;ok;refused: occupied a;ok>a>policy0;bodies>a>t>policy0;policies>a>l>policy0;ok;
    run_with | static>a>permit;frob; | 2 ok;line 2: not a command;
    run_with | ent>A::\"a\"; | read fault
    run_with | ent>A::\"a\";build; | write fault
    ~ run_and_leave_with | ent>A::\"a\">A::\"b\";ent>A::\"b\">A::\"c\";build;anc>A::\"a\"; | 0 ok 2;anc>A::\"b\">A::\"c\";
    run_and_leave_with | ent>A::\"a\"; | read fault
    run_and_leave_with | ent>A::\"a\";build; | write fault
";

impl Calls for OnRuns {
    fn tried(&self, alloc: Global, number: usize, row: Row<'_>) -> CallOutcome {
        let out = writer(alloc, row.want == "write fault");
        let bytes = both(
            bytes_of(alloc, row.given),
            bytes_of(alloc, output_of(row.want)),
        );
        match both(out, bytes) {
            Some((out, (input, due))) => {
                let tried = tried(alloc, number, input.as_slice(), out, due.as_slice(), row);
                drop(input);
                drop(due);
                tried
            }
            None => unmade(),
        }
    }
}

#[test]
fn each_run(rt: HostRuntime) {
    assert!(rt; check_failures(rt, &OnRuns, RUNS));
}
