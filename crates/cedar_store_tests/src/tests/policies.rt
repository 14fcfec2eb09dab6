// The program's lines on policy sets: worked cases, the text of each error, and lines that are not commands.
use super::shows;
use std::test::Fail;

#[test]
fn sets_are_merged_with_renaming_and_without(rt: HostRuntime) -> Result<(), Fail> {
    shows(
        &rt,
        rt.alloc(),
        &[
            (
                b"static\tpolicy0\tpermit\nstatic\tpolicy1\tpermit\nother\nstatic\tpolicy1\tforbid\nstatic\tpolicy2\tpermit\nother\nmerge\tkeep\nmerge\trename\nids\n",
                b"ok\nok\nok\nok\nok\nok\nrefused: occupied policy1\nok\tpolicy1\tpolicy3\nbodies\tpolicy0\tpolicy1\tpolicy3\tpolicy2\npolicies\tpolicy0\tpolicy1\tpolicy3\tpolicy2\n",
                0,
            ),
            // The other set does not change, and equal policies are added once.
            (
                b"template\tt\tboth\nother\ntemplate\tt\tboth\nlink\tt\tl\tresource=A::\"x\"\tprincipal=A::\"y\"\nother\nmerge\tkeep\nids\nother\nids\n",
                b"ok\nok\nok\nok\nok\nok\nbodies\tt\npolicies\tl\nok\nbodies\tt\npolicies\tl\n",
                0,
            ),
            // Templates with the same id and different slots. The template of the other set has a link.
            (
                b"other\ntemplate\tt\tresource\nlink\tt\tl\tresource=A::\"x\"\nother\ntemplate\tt\tprincipal\nmerge\trename\nlink\tpolicy0\tm\tresource=A::\"y\"\nids\n",
                b"ok\nok\nok\nok\nok\nok\tt\tpolicy0\nok\nbodies\tt\tpolicy0\npolicies\tl\tm\n",
                0,
            ),
            // One id of each pair of kinds that always conflict, in the order in which they are renamed.
            (
                b"static\ta\tpermit\ntemplate\tt\tprincipal\nlink\tt\tb\tprincipal=A::\"x\"\nlink\tt\tc\tprincipal=A::\"x\"\nother\ntemplate\tu\tprincipal\nlink\tu\tt\tprincipal=A::\"x\"\ntemplate\tb\tresource\nstatic\tc\tpermit\nstatic\ta\tforbid\nother\nmerge\tkeep\nmerge\trename\nids\n",
                b"ok\nok\nok\nok\nok\nok\nok\nok\nok\nok\nok\nrefused: occupied a\nok\ta\tpolicy0\tc\tpolicy1\tb\tpolicy2\tt\tpolicy3\nbodies\ta\tt\tu\tpolicy2\tpolicy1\tpolicy0\npolicies\ta\tb\tc\tpolicy3\tpolicy1\tpolicy0\n",
                0,
            ),
            // A static policy and an equal template without slots.
            (
                b"other\ntemplate\tx\tnone\nother\nstatic\tx\tpermit\nmerge\tkeep\nmerge\trename\nids\n",
                b"ok\nok\nok\nok\nrefused: occupied x\nok\tx\tpolicy0\nbodies\tx\tpolicy0\npolicies\tx\n",
                0,
            ),
        ],
    )
}

#[test]
fn links_come_and_go(rt: HostRuntime) -> Result<(), Fail> {
    shows(
        &rt,
        rt.alloc(),
        &[
            (
                b"template\tt\tboth\nlink\tt\tl\tprincipal=A::\"x\"\nlink\tt\tl\tresource=A::\"y\"\tprincipal=A::\"x\"\nunlink\tt\nunlink\tl\nunlink\tl\nids\n",
                b"ok\nrefused: arity\nok\nrefused: not a link t\nok\nrefused: no link l\nbodies\tt\npolicies\n",
                0,
            ),
            (
                b"template\tn\tnone\nstatic\ts\tforbid\nlink\tn\tl\nlink\ts\tm\nlink\tu\tm\nlink\tn\tl\nlink\tn\tn\nstatic\tl\tpermit\ntemplate\ts\tprincipal\nlink\tn\tm\tprincipal=A::\"x\"\n",
                b"ok\nok\nok\nrefused: no template s\nrefused: no template u\nrefused: occupied l\nrefused: occupied n\nrefused: occupied l\nrefused: occupied s\nrefused: arity\n",
                0,
            ),
        ],
    )
}

#[test]
fn ids_are_any_field_and_are_written_escaped(rt: HostRuntime) -> Result<(), Fail> {
    shows(
        &rt,
        rt.alloc(),
        &[(
            b"static\t\tpermit\nstatic\tit's \"a\"\\\tpermit\nstatic\tit's \"a\"\\\tforbid\nids\nunlink\t\n",
            b"ok\nok\nrefused: occupied it\\'s \\\"a\\\"\\\\\nbodies\t\tit\\'s \\\"a\\\"\\\\\npolicies\t\tit\\'s \\\"a\\\"\\\\\nrefused: not a link \n",
            0,
        )],
    )
}

#[test]
fn malformed_lines_on_policy_sets_are_no_commands(rt: HostRuntime) -> Result<(), Fail> {
    let fault: &[u8] = b"line 1: not a command\n";
    shows(
        &rt,
        rt.alloc(),
        &[
            (b"static\n", fault, 2),
            (b"static\ta\n", fault, 2),
            (b"static\ta\tallow\n", fault, 2),
            (b"static\ta\tpermit\tb\n", fault, 2),
            (b"template\tt\n", fault, 2),
            (b"template\tt\tprincipals\n", fault, 2),
            (b"template\tt\tnone\tboth\n", fault, 2),
            (b"link\tt\n", fault, 2),
            (b"link\tt\tl\tA::\"x\"\n", fault, 2),
            (b"link\tt\tl\tprincipal=A::x\n", fault, 2),
            (b"link\tt\tl\taction=A::x\n", fault, 2),
            (
                b"link\tt\tl\tprincipal=A::\"x\"\tprincipal=A::\"x\"\n",
                fault,
                2,
            ),
            (
                b"link\tt\tl\tresource=A::\"x\"\tresource=A::\"y\"\n",
                fault,
                2,
            ),
            (
                b"link\tt\tl\tresource=A::\"x\"\tprincipal=A::\"y\"\tresource=A::\"x\"\n",
                fault,
                2,
            ),
            (b"unlink\n", fault, 2),
            (b"unlink\tl\tm\n", fault, 2),
            (b"other\tl\n", fault, 2),
            (b"merge\n", fault, 2),
            (b"merge\tkept\n", fault, 2),
            (b"merge\tkeep\trename\n", fault, 2),
            (b"ids\t\n", fault, 2),
            (b"slices\tA::\"a\"\n", fault, 2),
            (
                b"ent\tA::\"a\"\tA::\"b\"\nstatic\ta\tpermit\nbuild\nids\nstatics\ta\tpermit\n",
                b"ok\nok 1\nbodies\ta\npolicies\ta\nline 5: not a command\n",
                2,
            ),
        ],
    )
}
