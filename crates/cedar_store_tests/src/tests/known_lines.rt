// Lines that repeat earlier lines: types and parents that are known from earlier lines, and fields at the positions of
// earlier fields.
use super::{are_answered, is_answered_by, ways};
use cedar_store::{RunError, run};
use cedar_test_helpers::results::{beside, kept};
use std::alloc::Global;
use std::fmt::Write;
use std::test::Fail;

// Returns the status, or 9 for an error.
pub(super) fn status_of(ran: Result<u8, RunError>) -> u8 {
    match ran {
        Ok(status) => status,
        Err(error) => {
            drop(error);
            9
        }
    }
}

// Checks whether runs that leak memory, or that free it, have this output and this status.
fn is_same(alloc: Global, leaves: bool, input: &[u8], output: &[u8], status: u8) -> bool {
    for way in ways(leaves) {
        if !is_answered_by(alloc, way, input, output, status) {
            return false;
        }
    }
    true
}

// Checks whether runs that free memory and runs that leak it have the same output and this status, with the default
// hasher builder and with two keys.
fn are_same(alloc: Global, input: &str, status: u8) -> bool {
    let mut out = Vec::new(alloc);
    let ended = status_of(run(alloc, &mut input.as_bytes(), &mut out));
    let same = is_same(alloc, false, input.as_bytes(), &out, status)
        && is_same(alloc, true, input.as_bytes(), &out, status);
    drop(out);
    ended == status && same
}

// Checks whether a run has this output.
fn writes(alloc: Global, input: &str, want: &str) -> bool {
    let mut out = Vec::new(alloc);
    let status = status_of(run(alloc, &mut input.as_bytes(), &mut out));
    let told = out.as_slice() == want.as_bytes();
    drop(out);
    status == 0 && told && are_answered(alloc, input.as_bytes(), want.as_bytes(), 0)
}

#[test]
fn what_is_left_was_written_all_the_same(rt: HostRuntime) {
    let alloc = rt.alloc();
    for (input, status) in &[
        ("", 0),
        ("\n\n", 0),
        ("ent\tA::\"a\"\tB::\"b\"\nbuild\nanc\tA::\"a\"\n", 0),
        ("static\tp\tpermit\nids\n", 0),
        ("ent\tA::\"a\"\tA::\"a\"\nbuild\nbuild", 0),
        ("build\nnothing\nbuild", 2),
        ("ent\tA::\"a\"\nanc\n", 2),
    ] {
        assert!(rt; are_same(alloc, input, *status), "{input}");
    }
}

// Appends users with two parents each, out of 300 and out of seven.
fn push_users(text: &mut String, n: usize) -> Result<(), Fail> {
    for i in 0..n {
        let one = i % 300;
        let other = i % 7;
        write!(
            text,
            "ent\tUser::\"u{i}\"\tTeam::\"t{other}\"\tGroup::\"g{one}\"\n"
        )?;
    }
    Ok(())
}

// Appends the users, a build, and a query of the ancestors of each.
fn push_input(text: &mut String, n: usize) -> Result<(), Fail> {
    push_users(text, n)?;
    text.push_str("build\n")?;
    for i in 0..n {
        write!(text, "anc\tUser::\"u{i}\"\n")?;
    }
    Ok(())
}

// Appends the expected output.
fn push_due(text: &mut String, n: usize) -> Result<(), Fail> {
    write!(text, "ok {n}\n")?;
    for i in 0..n {
        let one = i % 300;
        let other = i % 7;
        write!(text, "anc\tGroup::\"g{one}\"\tTeam::\"t{other}\"\n")?;
    }
    Ok(())
}

// Checks whether a run has the expected output for `n` users.
fn users_are_answered(alloc: Global, n: usize) -> Result<bool, Fail> {
    let mut input = String::new(alloc);
    let added = push_input(&mut input, n);
    let input = kept(input, added)?;
    let mut want = String::new(alloc);
    let added = push_due(&mut want, n);
    let (input, want) = beside(input, kept(want, added))?;
    let told = writes(alloc, &input, &want);
    drop(input);
    drop(want);
    Ok(told)
}

// More parents than are cached at once, each of them more than once.
#[test]
fn parents_are_those_of_the_line(rt: HostRuntime) -> Result<(), Fail> {
    assert!(rt; users_are_answered(rt.alloc(), 700)?);
    Ok(())
}

#[test]
fn parents_that_end_alike_are_told_apart(rt: HostRuntime) {
    let alloc = rt.alloc();
    let input =
        "ent\tA::\"1\"\tB::\"first of the same end\"\nent\tA::\"2\"\tB::\"other of the same end\"\nent\tA::\"3\"\tB::\"first of the same end\"\nent\tA::\"4\"\tC::\"first of the same end\"\nbuild\nanc\tA::\"1\"\nanc\tA::\"2\"\nanc\tA::\"3\"\nanc\tA::\"4\"\n";
    let want =
        "ok 4\nanc\tB::\"first of the same end\"\nanc\tB::\"other of the same end\"\nanc\tB::\"first of the same end\"\nanc\tC::\"first of the same end\"\n";
    assert!(rt; writes(alloc, input, want));
}

// Types with a common prefix, and one that begins with another type's whole name.
#[test]
fn types_that_begin_alike_are_told_apart(rt: HostRuntime) {
    let alloc = rt.alloc();
    let input =
        "ent\tA::\"x\"\tAB::\"x\"\tA::B::\"x\"\tA::B::C::\"x\"\nbuild\nanc\tA::\"x\"\nanc\tAB::\"x\"\nanc\tA::B::\"x\"\n";
    let want = "ok 1\nanc\tAB::\"x\"\tA::B::\"x\"\tA::B::C::\"x\"\nno entity\nno entity\n";
    assert!(rt; writes(alloc, input, want));
}

// A line with few fields after a line with many.
#[test]
fn fields_are_those_of_the_line(rt: HostRuntime) {
    let alloc = rt.alloc();
    let input =
        "ent\tA::\"a\"\tA::\"b\"\tA::\"c\"\tA::\"d\"\tA::\"e\"\tA::\"f\"\tA::\"g\"\tA::\"h\"\tA::\"i\"\tA::\"j\"\nent\tA::\"k\"\nbuild\nanc\tA::\"k\"\n";
    assert!(rt; writes(alloc, input, "ok 2\nanc\n"));
}
