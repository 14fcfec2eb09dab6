// The lines that change the store.
use super::shows;
use std::test::Fail;

#[test]
fn an_adding_goes_on_from_the_store(rt: HostRuntime) -> Result<(), Fail> {
    shows(
        &rt,
        rt.alloc(),
        &[
            (
                b"ent\tA::\"a\"\tA::\"b\"\nbuild\nent\tA::\"b\"\tA::\"c\"\nadd\nanc\tA::\"a\"\n",
                b"ok 1\nok 2\nanc\tA::\"b\"\tA::\"c\"\n",
                0,
            ),
            // An existing entity is compared by its ancestors, and is kept.
            (
                b"ent\tA::\"a\"\tA::\"b\"\nent\tA::\"b\"\tA::\"c\"\nbuild\nent\tA::\"a\"\tA::\"b\"\tA::\"c\"\nadd\nremove\tA::\"b\"\nanc\tA::\"a\"\n",
                b"ok 2\nok 2\nok 1\nanc\n",
                0,
            ),
            // If nothing is queued, nothing changes.
            (b"add\nent\tA::\"a\"\nadd\nadd\n", b"ok 0\nok 1\nok 1\n", 0),
        ],
    )
}

#[test]
fn a_refused_adding_empties_the_store(rt: HostRuntime) -> Result<(), Fail> {
    shows(
        &rt,
        rt.alloc(),
        &[
            (
                b"ent\tA::\"a\"\tA::\"b\"\nbuild\nent\tA::\"b\"\tA::\"a\"\nadd\nanc\tA::\"a\"\nent\tA::a",
                b"ok 1\nrefused: cycle\nno entity\nline 6: not a command\n",
                2,
            ),
            // The queued entities are dropped too.
            (
                b"ent\tA::\"a\"\tA::\"b\"\nent\tA::\"b\"\tA::\"c\"\nbuild\nent\tA::\"a\"\tA::\"b\"\nadd\nadd\nanc\tA::\"b\"\n",
                b"ok 2\nrefused: duplicate A::\"a\"\nok 0\nno entity\n",
                0,
            ),
        ],
    )
}

#[test]
fn an_overwriting_takes_the_last_of_a_uid(rt: HostRuntime) -> Result<(), Fail> {
    shows(
        &rt,
        rt.alloc(),
        &[
            (
                b"ent\tA::\"a\"\tA::\"b\"\nbuild\nent\tA::\"a\"\tA::\"c\"\nent\tA::\"a\"\tA::\"d\"\nupsert\nanc\tA::\"a\"\n",
                b"ok 1\nok 1\nanc\tA::\"d\"\n",
                0,
            ),
            // A cycle that occurs only in the middle of the list is not an error.
            (
                b"ent\tA::\"a\"\tA::\"b\"\nent\tA::\"b\"\tA::\"c\"\nent\tA::\"c\"\nbuild\nent\tA::\"c\"\tA::\"b\"\nent\tA::\"b\"\nupsert\nanc\tA::\"a\"\nanc\tA::\"c\"\n",
                b"ok 3\nok 3\nanc\tA::\"b\"\nanc\tA::\"b\"\n",
                0,
            ),
            (
                b"ent\tA::\"a\"\tA::\"b\"\nbuild\nent\tA::\"b\"\tA::\"a\"\nupsert\nanc\tA::\"a\"\nupsert\n",
                b"ok 1\nrefused: cycle\nno entity\nok 0\n",
                0,
            ),
        ],
    )
}

#[test]
fn a_removal_leaves_what_waits(rt: HostRuntime) -> Result<(), Fail> {
    shows(
        &rt,
        rt.alloc(),
        &[
            (
                b"ent\tA::\"a\"\tA::\"b\"\tA::\"d\"\nent\tA::\"b\"\tA::\"c\"\nent\tA::\"d\"\tA::\"c\"\nent\tA::\"c\"\nbuild\nent\tA::\"e\"\tA::\"a\"\nremove\tA::\"b\"\tA::\"z\"\tA::\"b\"\nanc\tA::\"a\"\nadd\nanc\tA::\"e\"\n",
                b"ok 4\nok 3\nanc\tA::\"c\"\tA::\"d\"\nok 4\nanc\tA::\"a\"\tA::\"c\"\tA::\"d\"\n",
                0,
            ),
            // A parent that is not in the store is kept.
            (
                b"ent\tA::\"a\"\tA::\"b\"\nbuild\nremove\tA::\"b\"\nanc\tA::\"a\"\nremove\tA::\"a\"\nanc\tA::\"a\"\n",
                b"ok 1\nok 1\nanc\tA::\"b\"\nok 0\nno entity\n",
                0,
            ),
        ],
    )
}

#[test]
fn edits_of_another_form_are_no_commands(rt: HostRuntime) -> Result<(), Fail> {
    shows(
        &rt,
        rt.alloc(),
        &[
            (b"remove\n", b"line 1: not a command\n", 2),
            (b"remove\t\n", b"line 1: not a command\n", 2),
            (b"remove\tA::\"a\"\tb\n", b"line 1: not a command\n", 2),
            (b"add\tA::\"a\"\n", b"line 1: not a command\n", 2),
            (b"upsert\t\n", b"line 1: not a command\n", 2),
            (b"Add\n", b"line 1: not a command\n", 2),
        ],
    )
}
