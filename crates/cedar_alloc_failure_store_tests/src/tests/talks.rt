// Tests of interactive runs, and of sessions that run lines one by one.
//
// In a case, input and output are written with `;` for the end of a line and `>` for a tab. `HELP` is the help text,
// and `STORE` its first part. The input of an interactive run begins with the treatment of invalid lines. The status,
// or the error that ended the run, comes before its output. A session runs all lines except the last one with enough
// memory.
use super::runs::{Kept, Parts, bytes_of, output_of, writer};
use cedar_alloc_failures::{
    Answer, CallOutcome, Calls, Row, ample_if, both, check_failures, memory_if, owned, refuse,
    stop_failing, unmade,
};
use cedar_keyed_hash::KeyedState;
use cedar_repl::{ErrorMode, TalkError, help_texts, talk};
use cedar_store::{Session, push_not_command};
use std::alloc::{AllocError, Global};

// Returns the outcome of an interactive run, given the expected output. After an allocation error, a part of the
// expected output was written.
fn told(answer: Result<u8, TalkError>, written: &[u8], due: &[u8], want: &str) -> Answer {
    match answer {
        Err(TalkError::Memory) => memory_if(due.starts_with(written)),
        Err(TalkError::Read) => ample_if(want.starts_with("read ") && written == due),
        Err(TalkError::Write) => ample_if(want == "write"),
        Ok(0) => ample_if(want.starts_with("0 ") && written == due),
        Ok(_) => ample_if(want.starts_with("2 ") && written == due),
    }
}

// Holds a conversation over these bytes.
fn held(
    alloc: Global,
    number: usize,
    input: &[u8],
    out: Kept,
    due: &[u8],
    row: Row<'_>,
) -> CallOutcome {
    let mut reader = Parts {
        left: input,
        fails: row.want.starts_with("read "),
    };
    let mut out = out;
    let manner = if row.given.starts_with("strict ") {
        ErrorMode::Strict
    } else {
        ErrorMode::Lenient
    };
    refuse(alloc, number);
    let hasher = KeyedState::with_keys(1, 2);
    let answer = talk(alloc, hasher, manner, &mut reader, &mut out);
    let refused = stop_failing(alloc);
    let answer = told(answer, out.bytes.as_slice(), due, row.want);
    drop(out);
    CallOutcome { answer, refused }
}

// Returns the bytes of the whole help text.
fn whole_help(alloc: Global) -> Option<Vec<u8>> {
    let (store, policies, fields) = help_texts();
    let mut bytes = Vec::new(alloc);
    for text in [store, policies, fields] {
        if bytes.extend_from_slice(text.as_bytes()).is_err() {
            return None;
        }
    }
    Some(bytes)
}

// Returns the expected bytes.
fn due_of(alloc: Global, output: &str) -> Option<Vec<u8>> {
    match output {
        "HELP" => whole_help(alloc),
        "STORE" => owned(alloc, help_texts().0).map(|text| text.into_bytes()),
        _ => bytes_of(alloc, output),
    }
}

fn conversation(alloc: Global, number: usize, row: Row<'_>) -> CallOutcome {
    let out = writer(alloc, row.want == "write");
    let bytes = both(
        bytes_of(alloc, output_of(row.given)),
        due_of(alloc, output_of(row.want)),
    );
    match both(out, bytes) {
        Some((out, (input, due))) => {
            let tried = held(alloc, number, input.as_slice(), out, due.as_slice(), row);
            drop(input);
            drop(due);
            tried
        }
        None => unmade(),
    }
}

// Returns whether a session runs the lines of a text, each of which must be a command.
fn prepared(alloc: Global, session: &mut Session, text: &[u8]) -> bool {
    let mut out = Vec::new(alloc);
    let mut well = true;
    for line in text.split(|byte| *byte == b'\n') {
        well = well && matches!(session.apply_line(alloc, line, &mut out), Ok(true));
    }
    drop(out);
    well
}

// Returns whether a session rejects all further lines.
fn is_lost(alloc: Global, session: &mut Session) -> bool {
    let mut out = Vec::new(alloc);
    let lost = session.apply_line(alloc, b"build", &mut out).is_err() && out.is_empty();
    drop(out);
    lost
}

// Runs a line in a session, after the lines before it.
fn taken(
    alloc: Global,
    number: usize,
    before: &[u8],
    line: &[u8],
    due: &[u8],
    want: &str,
) -> CallOutcome {
    let mut session = Session::new(alloc);
    let well = before.is_empty() || prepared(alloc, &mut session, before);
    let mut out = Vec::new(alloc);
    refuse(alloc, number);
    let answer = session.apply_line(alloc, line, &mut out);
    let refused = stop_failing(alloc);
    let answer = match answer {
        Ok(known) => ample_if(well && known == want.starts_with("yes") && out.as_slice() == due),
        Err(AllocError) => memory_if(well && is_lost(alloc, &mut session)),
    };
    drop(session);
    drop(out);
    CallOutcome { answer, refused }
}

fn line(alloc: Global, number: usize, row: Row<'_>) -> CallOutcome {
    let (before, line) = row.given.rsplit_once(';').unwrap_or(("", row.given));
    let lines = both(bytes_of(alloc, before), bytes_of(alloc, line));
    match both(lines, bytes_of(alloc, output_of(row.want))) {
        Some(((before, line), due)) => {
            let tried = taken(
                alloc,
                number,
                before.as_slice(),
                line.as_slice(),
                due.as_slice(),
                row.want,
            );
            drop(before);
            drop(line);
            drop(due);
            tried
        }
        None => unmade(),
    }
}

// Runs the function that reports an invalid line.
fn refusal(alloc: Global, number: usize, row: Row<'_>) -> CallOutcome {
    let mut out = Vec::new(alloc);
    refuse(alloc, number);
    let answer = push_not_command(alloc, &mut out, row.given.len());
    let refused = stop_failing(alloc);
    let answer = match answer {
        Ok(()) => ample_if(out.as_slice().trim_ascii() == row.want.as_bytes()),
        Err(AllocError) => Answer::Memory,
    };
    drop(out);
    CallOutcome { answer, refused }
}

struct OnTalks;

const TALKS: &str = "
    talk | lenient ent>A::\"a\">A::\"b\";ent>A::\"b\">A::\"c\";build;anc>A::\"a\";frob;anc>A::\"c\"; | 0 ok 2;anc>A::\"b\">A::\"c\";line 5: not a command;no entity;
    talk | lenient help; | 0 HELP
    talk | lenient help store; | 0 STORE
    talk | lenient static>a>permit;template>t>principal;link>t>l>principal=A::\"x\";other;static>a>forbid;other;merge>keep;merge>rename;ids;unlink>l | 0 ok;ok;ok;ok;ok;ok;refused: occupied a;ok>a>policy0;bodies>a>t>policy0;policies>a>l>policy0;ok;
    talk | lenient ent>A::\"a\";build;ids | read ok 1;
    talk | lenient ent>A::\"a\";build; | write
    talk | strict ent>A::\"a\">A::\"a\";build;add | 0 refused: cycle;ok 0;
    talk | strict static>a>permit;frob;ids; | 2 ok;line 2: not a command;
    talk | strict build;help | 2 ok 0;line 2: not a command;
    talk | strict build;frob; | write
    Session::apply_line | ent>A::\"a\">A::\"b\" | yes
    Session::apply_line | ent>A::\"a\">A::\"b\";build | yes ok 1;
    Session::apply_line | ent>A::\"a\">A::\"b\";build;anc>A::\"a\" | yes anc>A::\"b\";
    Session::apply_line | ent>A::\"a\">A::\"a\";build | yes refused: cycle;
    Session::apply_line | ent>A::\"a\";build;ent>A::\"b\">A::\"a\";add | yes ok 2;
    Session::apply_line | static>a>permit;static>a>forbid | yes refused: occupied a;
    Session::apply_line | frob | no
    - Session::apply_line | ent>A::\"a\">A::\"b\"; | yes
    - Session::apply_line | \u{e9} | no
    push_not_command | four | line 4: not a command
";

impl Calls for OnTalks {
    fn tried(&self, alloc: Global, number: usize, row: Row<'_>) -> CallOutcome {
        match row.call {
            "talk" => conversation(alloc, number, row),
            "Session::apply_line" => line(alloc, number, row),
            "push_not_command" => refusal(alloc, number, row),
            _ => unmade(),
        }
    }
}

#[test]
fn each_talk(rt: HostRuntime) {
    assert!(rt; check_failures(rt, &OnTalks, TALKS));
}
