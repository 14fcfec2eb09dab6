// The output of a conversation for an input, compared with the output of a run.
use super::{due_of, fixed, keys, lines_of, push_bytes};
use cedar_repl::{ErrorMode, TalkError, help_texts, talk};
use cedar_store::run;
use std::alloc::Global;
use std::hash::BuildHasher;
use std::test::Fail;

// Holds a conversation over the bytes. Returns the status.
fn held<S: BuildHasher + Copy>(
    alloc: Global,
    hasher: S,
    manner: ErrorMode,
    input: &[u8],
    out: &mut Vec<u8>,
) -> Option<u8> {
    let mut reader = input;
    talk(alloc, hasher, manner, &mut reader, out).ok()
}

// Checks whether a lenient conversation over the input has the expected output and status 0.
fn is_answered<S: BuildHasher + Copy>(alloc: Global, hasher: S, input: &[u8], due: &[u8]) -> bool {
    let mut out = Vec::new(alloc);
    let status = held(alloc, hasher, ErrorMode::Lenient, input, &mut out);
    let told = status == Some(0) && out.as_slice() == due;
    drop(out);
    told
}

// Checks whether a strict conversation over the input has the output and the status of a run.
fn is_run<S: BuildHasher + Copy>(alloc: Global, hasher: S, input: &[u8]) -> bool {
    let mut out = Vec::new(alloc);
    let status = held(alloc, hasher, ErrorMode::Strict, input, &mut out);
    let mut due = Vec::new(alloc);
    let mut reader = input;
    let same = status == run(alloc, &mut reader, &mut due).ok() && out.as_slice() == due.as_slice();
    drop(out);
    drop(due);
    same && status.is_some()
}

// Returns the bytes for a text, or nothing if an allocation fails.
fn bytes_of(alloc: Global, text: &str) -> Vec<u8> {
    let mut bytes = Vec::new(alloc);
    if push_bytes(&mut bytes, text).is_err() {
        bytes.clear();
    }
    bytes
}

// Calls `bytes_of` for the bytes of a text, with the default hasher builder and with two keys.
fn is_run_of(alloc: Global, text: &str) -> bool {
    let (one, other) = keys();
    let input = bytes_of(alloc, text);
    let told = is_run(alloc, fixed(), input.as_slice())
        && is_run(alloc, one, input.as_slice())
        && is_run(alloc, other, input.as_slice());
    drop(input);
    told
}

#[test]
fn strictly_it_writes_what_a_run_writes(rt: HostRuntime) {
    for text in [
        "",
        ";",
        ";;build;;",
        "build",
        "frob",
        ";frob;build",
        "help;",
        "build;help",
        "ent>A::\"a\">A::\"b\";build;anc>A::\"a\";anc>A::\"b\"",
        "ent>A::\"a\">A::\"a\";build;ent>A::\"b\";add;anc>A::\"b\";",
        "static>p>permit;other;static>p>forbid;merge>rename;ids;merge>keep",
        "ent>A::\"a\";build~;anc>A::\"a\"",
    ] {
        assert!(rt; is_run_of(rt.alloc(), text), "{text}");
    }
}

// Checks whether a lenient conversation has the expected output for the lines of the test cases. The same lines without
// the last line feed must have the same output.
fn are_answered<S: BuildHasher + Copy>(alloc: Global, hasher: S, rows: &str) -> bool {
    let input = lines_of(alloc, rows);
    let due = due_of(alloc, rows, usize::MAX);
    let cut = input.len().saturating_sub(1);
    let told = is_answered(alloc, hasher, input.as_slice(), due.as_slice())
        && is_answered(alloc, hasher, &input.as_slice()[..cut], due.as_slice());
    drop(input);
    drop(due);
    told && cut > 0
}

const GOES_ON: &str = "help => HELP
help> => line 2: not a command;
Help => line 3: not a command;
>help => line 4: not a command;
 =>
ent>A::\"a\">A::\"b\" =>
ent A::\"c\" => line 7: not a command;
build => ok 1;
build~ => line 9: not a command;
help => HELP
anc>A::\"a\" => anc>A::\"b\";
ent>A::\"x\">A::\"x\" =>
frob => line 13: not a command;
build => refused: cycle;
anc>A::\"a\" => no entity;
help => HELP
help store => STORE
help policies => POLICIES
help fields => FIELDS
help stores => line 20: not a command;
help>store => line 21: not a command;
help  store => line 22: not a command;
help policies~ => line 23: not a command;
help => HELP";

#[test]
fn leniently_it_goes_on(rt: HostRuntime) {
    let (one, other) = keys();
    assert!(rt; are_answered(rt.alloc(), fixed(), GOES_ON));
    assert!(rt; are_answered(rt.alloc(), one, GOES_ON));
    assert!(rt; are_answered(rt.alloc(), other, GOES_ON));
}

#[test]
fn help_tells_lines_of_the_program(rt: HostRuntime) {
    let (store, policies, fields) = help_texts();
    for word in [
        "ent ", "build ", "add ", "upsert ", "remove ", "slice ", "anc ",
    ] {
        assert!(rt; store.lines().any(|line| line.starts_with(word)), "{word}");
    }
    for word in [
        "static ",
        "template ",
        "link ",
        "unlink ",
        "other ",
        "merge ",
        "ids ",
    ] {
        assert!(rt;
            policies.lines().any(|line| line.starts_with(word)),
            "{word}"
        );
    }
    assert!(rt; fields.lines().any(|line| line.contains("help store")));
}

// Checks whether an error has the expected text.
fn says(alloc: Global, fault: TalkError, want: &str) -> Result<bool, Fail> {
    let text = fault.to_string(alloc)?;
    let told = text.as_str() == want;
    drop(text);
    Ok(told)
}

#[test]
fn faults_have_their_texts(rt: HostRuntime) -> Result<(), Fail> {
    let alloc = rt.alloc();
    assert!(rt; says(alloc, TalkError::Read, "read fault")?);
    assert!(rt; says(alloc, TalkError::Write, "write fault")?);
    assert!(rt; says(alloc, TalkError::Memory, "out of memory")?);
    Ok(())
}
