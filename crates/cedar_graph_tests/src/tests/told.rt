// The counted functions on graphs with numbers as keys. Each is called only here, because its contract is long and no
// test needs it.
ghost use Rattle.std.specs.Prelude.{nat_eq};
ghost use Rattle.cedar_graph.specs.Graph.{KeysMatch};

use crate::tests::nodes::{Graph, keys};
use cedar_graph::{Work, compute_tc_counted, repair_tc_counted};
use std::alloc::Global;
use std::hash::BuildHasher;

/// Closes a graph. Returns the work, if that succeeds.
pub fn close_counted<S: BuildHasher + Copy>(alloc: Global, nodes: &mut Graph<S>) -> Option<Work>
    requires { KeysMatch nat_eq (λ n. n.number) nodes.old }
    ensures { KeysMatch nat_eq (λ n. n.number) nodes.new }
{
    compute_tc_counted(alloc, nodes, false).ok()
}

/// Repairs a graph that must not have a cycle, at the keys of the digits. Returns the work, if that succeeds.
pub fn repair_counted<S: BuildHasher + Copy>(
    alloc: Global,
    to_fix: &str,
    nodes: &mut Graph<S>,
) -> Option<Work>
    requires { KeysMatch nat_eq (λ n. n.number) nodes.old }
    ensures { KeysMatch nat_eq (λ n. n.number) nodes.new }
{
    match keys(alloc, *nodes.hasher(), to_fix) {
        Ok(fix) => {
            let work = repair_tc_counted(alloc, &fix, nodes, true);
            drop(fix);
            work.ok()
        }
        Err(_) => None,
    }
}
