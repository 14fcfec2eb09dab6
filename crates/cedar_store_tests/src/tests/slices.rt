// Lines that replace the store by a slice.
use super::are_answered;
use cedar_store::{RunError, run};
use std::alloc::Global;

// Checks whether a run has this status.
fn is_status(ran: Result<u8, RunError>, status: u8) -> bool {
    match ran {
        Ok(found) => found == status,
        Err(error) => {
            drop(error);
            false
        }
    }
}

// Checks whether a run has this output and this status.
fn writes(alloc: Global, input: &str, want: &str, status: u8) -> bool {
    let mut out = Vec::new(alloc);
    let ended = is_status(run(alloc, &mut input.as_bytes(), &mut out), status);
    let told = out.as_slice() == want.as_bytes();
    drop(out);
    ended && told && are_answered(alloc, input.as_bytes(), want.as_bytes(), status)
}

#[test]
fn the_store_becomes_its_slice(rt: HostRuntime) {
    let alloc = rt.alloc();
    for (input, want, status) in &[
        // A uid that is not in the store, and a repeated uid. Then an empty slice.
        (
            "ent\tA::\"a\"\tA::\"b\"\nent\tA::\"b\"\tA::\"c\"\nent\tA::\"d\"\tA::\"b\"\nbuild\nslice\tA::\"a\"\tA::\"z\"\tA::\"a\"\nanc\tA::\"a\"\nanc\tA::\"d\"\nslice\tA::\"z\"\n",
            "ok 3\nok 2\nanc\tA::\"b\"\tA::\"c\"\nno entity\nok 0\n",
            0,
        ),
        // The queued entities and the policies are kept.
        (
            "static\tp\tpermit\nent\tA::\"a\"\tA::\"b\"\nbuild\nent\tA::\"c\"\nslice\tA::\"a\"\nadd\nanc\tA::\"a\"\nids\n",
            "ok\nok 1\nok 1\nok 2\nanc\tA::\"b\"\nbodies\tp\npolicies\tp\n",
            0,
        ),
        ("slice\tA::\"a\"\n", "ok 0\n", 0),
        ("slice\n", "line 1: not a command\n", 2),
        ("slice\t\n", "line 1: not a command\n", 2),
        (
            "build\nslice\tA::\"a\"\ta\nbuild\n",
            "ok 0\nline 2: not a command\n",
            2,
        ),
    ] {
        assert!(rt; writes(alloc, input, want, *status), "{input}");
    }
}
