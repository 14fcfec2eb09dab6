// Tests of the functions that compute the transitive closure of entities. A graph is a text of nodes, separated by
// commas. Each node is its key and the keys of its edges.
ghost use Rattle.std.specs.Prelude.{◌≡◌, IfSome};
ghost use Rattle.cedar_graph.specs.Graph.{KeysMatch};
ghost use Rattle.cedar_ids.specs.UidOf.{same_uid};

use super::entities::counted;
use super::nodes::is_listed_id;
use super::{eids, hashed, uid_of};
use cedar_alloc_failures::{
    Answer, CallOutcome, Calls, Row, check_failures, is_worded, judged, refuse, stop_failing,
    unmade, with_word,
};
use cedar_entity::node::SharedEntity;
use cedar_graph::{
    TCNode, close_dag, compute_tc, compute_tc_counted, enforce_tc_and_dag, repair_dag, repair_tc,
    repair_tc_counted,
};
use cedar_ids::entity::EntityUID;
use std::alloc::{AllocError, Global};
use std::collections::HashMap;
use std::fmt::Display;

type Store = HashMap<EntityUID, SharedEntity>;

// Inserts a node by its uid. Returns whether that succeeded.
fn put(alloc: Global, nodes: &mut Store, node: SharedEntity) -> bool
    requires { KeysMatch same_uid (λ n. n.0.value.uid) nodes.old }
    ensures { KeysMatch same_uid (λ n. n.0.value.uid) nodes.new }
{
    let key: Result<EntityUID, AllocError> = node.get_key(alloc);
    match key {
        Ok(key) => match nodes.insert(key, node) {
            Ok(former) => {
                drop(former);
                true
            }
            Err(_) => false,
        },
        Err(_) => {
            drop(node);
            false
        }
    }
}

// Inserts the node with this text by its uid. Returns whether that succeeded.
fn put_row(alloc: Global, nodes: &mut Store, text: &str) -> bool
    requires { KeysMatch same_uid (λ n. n.0.value.uid) nodes.old }
    ensures { KeysMatch same_uid (λ n. n.0.value.uid) nodes.new }
{
    match counted(alloc, text) {
        Some(node) => put(alloc, nodes, node),
        None => false,
    }
}

// Returns the graph with this text.
fn store(alloc: Global, text: &str) -> Option<Store>
    ensures { IfSome result (λ s. KeysMatch same_uid (λ n. n.0.value.uid) s) }
{
    let mut nodes = HashMap::new(alloc);
    for row in text.split(',') {
        if !put_row(alloc, &mut nodes, row.trim()) {
            drop(nodes);
            return None;
        }
    }
    Some(nodes)
}

// Returns the eids of a node's ancestors, separated by spaces.
fn edges_of(alloc: Global, node: Option<&SharedEntity>) -> Option<String> {
    match node {
        Some(node) => match eids(alloc, node.0.parents()) {
            Some(parents) => {
                let indirect = eids(alloc, node.0.indirect_ancestors());
                match indirect {
                    Some(indirect) => {
                        let text = with_word(Some(parents), indirect.as_str());
                        drop(indirect);
                        text
                    }
                    None => {
                        drop(parents);
                        None
                    }
                }
            }
            None => None,
        },
        None => None,
    }
}

// Returns the edges of the node with this name.
fn edges_at(alloc: Global, nodes: &Store, name: &str) -> Option<String> {
    match uid_of(alloc, name) {
        Some(key) => {
            let text = edges_of(alloc, nodes.get(&key));
            drop(key);
            text
        }
        None => None,
    }
}

// Returns the name of the node with this text.
fn name_in(text: &str) -> &str {
    text.split_once(' ').unwrap_or((text, "")).0
}

// Returns the names of the keys to which a node has edges.
fn keys_in(text: &str) -> &str {
    text.split_once(' ').unwrap_or((text, "")).1
}

// Returns whether a node has all its former edges and only expected new ones. If `closed`, it must have all expected
// edges.
fn is_node_between(alloc: Global, nodes: &Store, former: &str, due: &str, closed: bool) -> bool {
    let due = keys_in(due);
    let former_keys = keys_in(former);
    match edges_at(alloc, nodes, name_in(former)) {
        Some(edges) => {
            let told = is_listed_id(former_keys, edges.as_str())
                && is_listed_id(edges.as_str(), due)
                && (!closed || is_listed_id(due, edges.as_str()));
            drop(edges);
            told
        }
        None => false,
    }
}

// Returns whether a graph has its former keys and edges and only expected new ones. If `closed`, it must have all
// expected edges.
fn is_between(alloc: Global, nodes: &Store, former: &str, due: &str, closed: bool) -> bool {
    let mut count = 0_usize;
    let mut all = due.split(',');
    for row in former.split(',') {
        count = count.saturating_add(1);
        let due = all.next().unwrap_or("").trim();
        if !is_node_between(alloc, nodes, row.trim(), due, closed) {
            return false;
        }
    }
    nodes.len() == count
}

// Returns the outcome of a closure call on a graph that had the text `former`. With enough memory, the graph must be
// closed as expected, or the expected error must be returned.
fn told<T: Drop, E: Display + Drop>(
    alloc: Global,
    answer: Result<T, E>,
    nodes: &Store,
    former: &str,
    want: &str,
) -> CallOutcome {
    let (due, fault) = want.split_once(" ! ").unwrap_or((want, ""));
    let fault = fault.trim();
    let refused = stop_failing(alloc);
    let tried = match answer {
        Ok(done) => {
            drop(done);
            Answer::Ample
        }
        Err(error) => {
            let told = if is_worded(alloc, &error, "out of memory") {
                Answer::Memory
            } else if !fault.is_empty() && is_worded(alloc, &error, fault) {
                Answer::Ample
            } else {
                Answer::Wrong
            };
            drop(error);
            told
        }
    };
    let closed = matches!(tried, Answer::Ample);
    let answer = if is_between(alloc, nodes, former, due, closed) {
        tried
    } else {
        Answer::Wrong
    };
    CallOutcome { answer, refused }
}

// Runs a closure of a graph, with or without the check for cycles.
fn computed(alloc: Global, number: usize, row: Row<'_>) -> CallOutcome {
    let (dag, text) = dag_of(row.given);
    match store(alloc, text) {
        Some(nodes) => {
            let mut nodes = nodes;
            refuse(alloc, number);
            let tried = if row.call == "compute_tc" {
                let answer = compute_tc(alloc, &mut nodes, dag);
                told(alloc, answer, &nodes, text, row.want)
            } else {
                let answer = compute_tc_counted(alloc, &mut nodes, dag);
                told(alloc, answer, &nodes, text, row.want)
            };
            drop(nodes);
            tried
        }
        None => unmade(),
    }
}

// Returns whether a graph must be acyclic, and its text.
fn dag_of(text: &str) -> (bool, &str) {
    match text.strip_prefix("dag ") {
        Some(rest) => (true, rest),
        None => (false, text),
    }
}

// Runs a repair of a graph at keys.
macro_rules! repaired_by {
    ($alloc:ident, $number:ident, $names:ident, $text:ident, |$keys:ident, $nodes:ident| $call:expr) => {
        match (hashed($alloc, $names), store($alloc, $text)) {
            (Some($keys), Some(nodes)) => {
                let mut $nodes = nodes;
                refuse($alloc, $number);
                let tried = $call;
                drop($keys);
                drop($nodes);
                tried
            }
            (keys, nodes) => {
                drop(keys);
                drop(nodes);
                unmade()
            }
        }
    };
}

// Runs a repair of a graph at the keys before the colon.
fn repaired(alloc: Global, number: usize, row: Row<'_>) -> CallOutcome {
    let (dag, given) = dag_of(row.given);
    let (names, text) = given.split_once(": ").unwrap_or(("", given));
    repaired_by!(alloc, number, names, text, |keys, nodes| {
        if row.call == "repair_tc" {
            let answer = repair_tc(alloc, &keys, &mut nodes, dag);
            told(alloc, answer, &nodes, text, row.want)
        } else {
            let answer = repair_tc_counted(alloc, &keys, &mut nodes, dag);
            told(alloc, answer, &nodes, text, row.want)
        }
    })
}

// Runs a closure of a graph that must be acyclic.
fn closed_dag(alloc: Global, number: usize, row: Row<'_>) -> CallOutcome {
    match store(alloc, row.given) {
        Some(nodes) => {
            let mut nodes = nodes;
            refuse(alloc, number);
            let answer = close_dag(alloc, &mut nodes);
            let tried = told(alloc, answer, &nodes, row.given, row.want);
            drop(nodes);
            tried
        }
        None => unmade(),
    }
}

// Runs a repair of a graph at the keys before the colon. None of the keys may be on a cycle.
fn repaired_dag(alloc: Global, number: usize, row: Row<'_>) -> CallOutcome {
    let (names, text) = row.given.split_once(": ").unwrap_or(("", row.given));
    repaired_by!(alloc, number, names, text, |keys, nodes| {
        let answer = repair_dag(alloc, &keys, &mut nodes);
        told(alloc, answer, &nodes, text, row.want)
    })
}

// Runs the check of a graph.
fn checked(alloc: Global, number: usize, row: Row<'_>) -> CallOutcome {
    match store(alloc, row.given) {
        Some(nodes) => {
            refuse(alloc, number);
            let answer = enforce_tc_and_dag(alloc, &nodes);
            let tried = judged(alloc, answer, row.want, |_| row.want == "ok");
            drop(nodes);
            tried
        }
        None => unmade(),
    }
}

pub(super) struct OnGraphs;

const GRAPHS: &str = "
    close_dag | a b, b c, c d, d | a b c d, b c d, c d, d
    close_dag | a a, b a | a a, b a ! input graph has a cycle containing vertex `A::\"a\"`
    repair_dag | a b: a b, b c, c d, d | a b c d, b c d, c d, d
    repair_dag | a: a b, b a | a b, b a ! input graph has a cycle containing vertex `A::\"a\"`
    compute_tc | a b, b c, c a, d a | a a b c, b a b c, c a b c, d a b c
    compute_tc | a b, b c x, c | a b c x, b c x, c
    compute_tc | dag a b, b c, c | a b c, b c, c
    compute_tc | dag a a, b a | a a, b a ! input graph has a cycle containing vertex `A::\"a\"`
    compute_tc | a b, b c, c d, d e, e f, f g, g h, h i, i j, j k, k l, l m, m n, n o, o p, p q, q r, r s, s t, t u, u v, v w, w x, x y, y z, z za, za zb, zb zc, zc zd, zd | a b c d e f g h i j k l m n o p q r s t u v w x y z za zb zc zd, b c d e f g h i j k l m n o p q r s t u v w x y z za zb zc zd, c d e f g h i j k l m n o p q r s t u v w x y z za zb zc zd, d e f g h i j k l m n o p q r s t u v w x y z za zb zc zd, e f g h i j k l m n o p q r s t u v w x y z za zb zc zd, f g h i j k l m n o p q r s t u v w x y z za zb zc zd, g h i j k l m n o p q r s t u v w x y z za zb zc zd, h i j k l m n o p q r s t u v w x y z za zb zc zd, i j k l m n o p q r s t u v w x y z za zb zc zd, j k l m n o p q r s t u v w x y z za zb zc zd, k l m n o p q r s t u v w x y z za zb zc zd, l m n o p q r s t u v w x y z za zb zc zd, m n o p q r s t u v w x y z za zb zc zd, n o p q r s t u v w x y z za zb zc zd, o p q r s t u v w x y z za zb zc zd, p q r s t u v w x y z za zb zc zd, q r s t u v w x y z za zb zc zd, r s t u v w x y z za zb zc zd, s t u v w x y z za zb zc zd, t u v w x y z za zb zc zd, u v w x y z za zb zc zd, v w x y z za zb zc zd, w x y z za zb zc zd, x y z za zb zc zd, y z za zb zc zd, z za zb zc zd, za zb zc zd, zb zc zd, zc zd, zd
    compute_tc | a g h, b h i, c i j, d j k, e k l, f l, g m n, h n o, i o p, j p q, k q r, l r, m s t, n t u, o u v, p v w, q w x, r x, s y z, t z za, u za zb, v zb zc, w zc zd, x zd, y, z, za, zb, zc, zd | a g h m n o s t u v y z za zb zc, b h i n o p t u v w z za zb zc zd, c i j o p q u v w x za zb zc zd, d j k p q r v w x zb zc zd, e k l q r w x zc zd, f l r x zd, g m n s t u y z za zb, h n o t u v z za zb zc, i o p u v w za zb zc zd, j p q v w x zb zc zd, k q r w x zc zd, l r x zd, m s t y z za, n t u z za zb, o u v za zb zc, p v w zb zc zd, q w x zc zd, r x zd, s y z, t z za, u za zb, v zb zc, w zc zd, x zd, y, z, za, zb, zc, zd
    compute_tc_counted | a b, b c, c | a b c, b c, c
    compute_tc_counted | dag a a, b a | a a, b a ! input graph has a cycle containing vertex `A::\"a\"`
    repair_tc | a b: a b, b c, c d, d | a b c d, b c d, c d, d
    repair_tc | dag a: a b, b a | a b a, b a ! input graph has a cycle containing vertex `A::\"a\"`
    repair_tc | a b c d e f g h i j k l m n o p q r s t u v w x y z za zb zc: a b, b c, c d, d e, e f, f g, g h, h i, i j, j k, k l, l m, m n, n o, o p, p q, q r, r s, s t, t u, u v, v w, w x, x y, y z, z za, za zb, zb zc, zc zd, zd | a b c d e f g h i j k l m n o p q r s t u v w x y z za zb zc zd, b c d e f g h i j k l m n o p q r s t u v w x y z za zb zc zd, c d e f g h i j k l m n o p q r s t u v w x y z za zb zc zd, d e f g h i j k l m n o p q r s t u v w x y z za zb zc zd, e f g h i j k l m n o p q r s t u v w x y z za zb zc zd, f g h i j k l m n o p q r s t u v w x y z za zb zc zd, g h i j k l m n o p q r s t u v w x y z za zb zc zd, h i j k l m n o p q r s t u v w x y z za zb zc zd, i j k l m n o p q r s t u v w x y z za zb zc zd, j k l m n o p q r s t u v w x y z za zb zc zd, k l m n o p q r s t u v w x y z za zb zc zd, l m n o p q r s t u v w x y z za zb zc zd, m n o p q r s t u v w x y z za zb zc zd, n o p q r s t u v w x y z za zb zc zd, o p q r s t u v w x y z za zb zc zd, p q r s t u v w x y z za zb zc zd, q r s t u v w x y z za zb zc zd, r s t u v w x y z za zb zc zd, s t u v w x y z za zb zc zd, t u v w x y z za zb zc zd, u v w x y z za zb zc zd, v w x y z za zb zc zd, w x y z za zb zc zd, x y z za zb zc zd, y z za zb zc zd, z za zb zc zd, za zb zc zd, zb zc zd, zc zd, zd
    repair_tc_counted | a b: a b, b c, c d, d | a b c d, b c d, c d, d
    repair_tc_counted | dag a: a a | a a ! input graph has a cycle containing vertex `A::\"a\"`
    enforce_tc_and_dag | a b c, b c, c | ok
    enforce_tc_and_dag | a b, b c | ! expected all transitive edges to exist, but `A::\"a\"` -> `A::\"b\"` and `A::\"b\"` -> `A::\"c\"` exists, while `A::\"a\"` -> `A::\"c\"` does not
    enforce_tc_and_dag | a a | ! input graph has a cycle containing vertex `A::\"a\"`
";

impl Calls for OnGraphs {
    fn tried(&self, alloc: Global, number: usize, row: Row<'_>) -> CallOutcome {
        match row.call {
            "compute_tc" | "compute_tc_counted" => computed(alloc, number, row),
            "repair_tc" | "repair_tc_counted" => repaired(alloc, number, row),
            "close_dag" => closed_dag(alloc, number, row),
            "repair_dag" => repaired_dag(alloc, number, row),
            "enforce_tc_and_dag" => checked(alloc, number, row),
            _ => unmade(),
        }
    }
}

#[test]
fn each_closure_call(rt: HostRuntime) {
    assert!(rt; check_failures(rt, &OnGraphs, GRAPHS));
}
