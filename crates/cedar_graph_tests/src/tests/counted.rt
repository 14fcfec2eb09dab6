// The work of the functions: the visited nodes, and the number of listings of their edges.
ghost use Rattle.std.specs.Prelude.{nat_eq};
ghost use Rattle.cedar_graph.specs.Graph.{KeysMatch};

use super::{fixed, keyed};
use crate::tests::nodes::{Graph, chain, edge_count, graph, listed};
use crate::tests::told::{close_counted, repair_counted};
use cedar_graph::Work;
use std::alloc::Global;
use std::hash::BuildHasher;

// Checks whether a call did exactly this work.
fn did(work: Option<Work>, reads: usize, closings: usize) -> bool {
    work == Some(Work { reads, closings })
}

// Checks whether a graph is closed to this number of edges, and each of this number of nodes is visited and listed
// once.
fn takes<S: BuildHasher + Copy>(
    alloc: Global,
    nodes: &mut Graph<S>,
    count: usize,
    edges: usize,
) -> bool
    requires { KeysMatch nat_eq (λ n. n.number) nodes.old }
{
    let work = close_counted(alloc, nodes);
    did(work, count, count) && listed(nodes) == (count, 1) && edge_count(nodes) == edges
}

// Checks whether the edges of a cycle of three nodes, with an edge into it, are listed once.
fn are_listed_once<S: BuildHasher + Copy>(alloc: Global, hasher: S) -> bool {
    match graph(alloc, hasher, "12 23 31 41") {
        Ok(mut nodes) => {
            let told = takes(alloc, &mut nodes, 4, 12);
            drop(nodes);
            told
        }
        Err(_) => false,
    }
}

// Calls `are_listed_once` for a chain of two thousand keys.
fn chain_takes(alloc: Global) -> bool {
    match chain(alloc, 1, 2001) {
        Ok(mut nodes) => {
            let told = takes(alloc, &mut nodes, 2000, 2_001_000);
            drop(nodes);
            told
        }
        Err(_) => false,
    }
}

#[test]
fn edges_are_listed_once(rt: HostRuntime) {
    let alloc = rt.alloc();
    let told = are_listed_once(alloc, fixed()) && are_listed_once(alloc, keyed());
    assert!(rt; told);
}

#[test]
fn chain_of_two_thousand(rt: HostRuntime) {
    assert!(rt; chain_takes(rt.alloc()));
}

// Checks whether there is no work for no nodes.
fn nothing_is_done(alloc: Global) -> bool {
    match graph(alloc, fixed(), "") {
        Ok(mut nodes) => {
            let closed = close_counted(alloc, &mut nodes);
            let repaired = repair_counted(alloc, "1", &mut nodes);
            drop(nodes);
            did(closed, 0, 0) && did(repaired, 0, 0)
        }
        Err(_) => false,
    }
}

// Checks whether a repair visits each of three keys once or twice, and counts its reads.
fn visits_each(work: Option<Work>, after: usize) -> bool {
    match work {
        Some(work) => work.closings >= 3 && work.closings <= 6 && after == work.reads,
        None => false,
    }
}

// Checks whether the keys to fix of a chain are visited, and no absent keys. Three nodes of the chain need edges.
fn are_visited(alloc: Global) -> bool {
    let text = "0123456789 123 23456789 34 456789 56789 6789 78 89";
    match graph(alloc, fixed(), text) {
        Ok(mut nodes) => {
            let work = repair_counted(alloc, "137", &mut nodes);
            let visited = visits_each(work, listed(&nodes).0);
            let count = edge_count(&nodes);
            let further = repair_counted(alloc, "9", &mut nodes);
            drop(nodes);
            visited && count == 45 && did(further, 0, 0)
        }
        Err(_) => false,
    }
}

#[test]
fn each_key_to_fix_is_visited(rt: HostRuntime) {
    let told = nothing_is_done(rt.alloc()) && are_visited(rt.alloc());
    assert!(rt; told);
}
