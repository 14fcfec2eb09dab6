// A session that runs single lines. A test case has a line and, after an arrow, whether it is a command and its output.
use super::keys;
use cedar_store::{Session, push_not_command};
use std::alloc::{AllocError, Global};
use std::hash::BuildHasher;

// Returns the word for whether a line is a command.
fn word_of(known: Result<bool, AllocError>) -> &'static str {
    match known {
        Ok(true) => "yes",
        Ok(false) => "no",
        Err(_) => "memory",
    }
}

// Checks whether the bytes are a text in which `;` stands for the end of a line and `>` for a tab.
fn are_spelled(bytes: &[u8], want: &str) -> bool {
    bytes.len() == want.len()
        && bytes.iter().zip(want.as_bytes()).all(|(one, other)| match *other {
            b';' => *one == b'\n',
            b'>' => *one == b'\t',
            _ => *one == *other,
        })
}

// Checks a session on the line of a test case.
fn is_taken<S: BuildHasher + Copy>(alloc: Global, session: &mut Session<S>, row: &str) -> bool {
    let (line, told) = row.split_once(" => ").unwrap_or((row, ""));
    let (known, due) = told.split_once(' ').unwrap_or((told, ""));
    let mut out = Vec::new(alloc);
    let taken = session.apply_line(alloc, line.as_bytes(), &mut out);
    let well = word_of(taken) == known && are_spelled(out.as_slice(), due);
    drop(out);
    well
}

// Checks a session on the lines of all test cases.
fn are_taken<S: BuildHasher + Copy>(alloc: Global, session: Session<S>, rows: &str) -> bool {
    let mut session = session;
    let mut well = true;
    for row in rows.lines() {
        well = well && is_taken(alloc, &mut session, row);
    }
    drop(session);
    well
}

const ROWS: &str = "ent\tA::\"a\"\tA::\"b\" => yes
build => yes ok 1;
anc\tA::\"a\" => yes anc>A::\"b\";
 => yes
build\r => no
frob => no
help => no
anc\tA::\"a\" => yes anc>A::\"b\";
static\tp\tpermit => yes ok;
ids => yes bodies>p;policies>p;";

#[test]
fn a_session_takes_lines_one_by_one(rt: HostRuntime) {
    let alloc = rt.alloc();
    let (one, other) = keys();
    assert!(rt; are_taken(alloc, Session::new(alloc), ROWS));
    assert!(rt;
        are_taken(alloc, Session::with_hasher(alloc, one), ROWS),
        "under the first key"
    );
    assert!(rt;
        are_taken(alloc, Session::with_hasher(alloc, other), ROWS),
        "under the second key"
    );
}

// Checks that a session, and the output for an invalid line, append to the existing output.
fn is_added<S: BuildHasher + Copy>(alloc: Global, session: Session<S>) -> bool {
    let mut session = session;
    let mut out = Vec::new(alloc);
    let told = session.apply_line(alloc, b"build", &mut out).is_ok()
        && push_not_command(alloc, &mut out, 7).is_ok();
    let well = told && are_spelled(out.as_slice(), "ok 0;line 7: not a command;");
    drop(session);
    drop(out);
    well
}

#[test]
fn what_is_added_comes_behind_what_stands(rt: HostRuntime) {
    let alloc = rt.alloc();
    let (one, other) = keys();
    assert!(rt; is_added(alloc, Session::new(alloc)));
    assert!(rt;
        is_added(alloc, Session::with_hasher(alloc, one)),
        "under the first key"
    );
    assert!(rt;
        is_added(alloc, Session::with_hasher(alloc, other)),
        "under the second key"
    );
}
