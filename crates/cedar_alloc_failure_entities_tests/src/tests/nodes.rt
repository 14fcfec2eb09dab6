// Tests of entities as nodes, whose keys are uids or shared uids.
ghost use Rattle.std.specs.Prelude.{◌≡◌, ◌<◌, length, nat_eq};
ghost use Rattle.std.specs.List.{list_any};
ghost use Rattle.std.specs.HashSet.{contains};
ghost use Rattle.cedar_graph.specs.laws.Writings.{AreNewTo};

use super::entities::{counted, counted_text};
use super::parts::{entity, text_of};
use super::{pointers, uid_of};
use cedar_alloc_failures::{
    Answer, CallOutcome, Calls, Row, ample_if, are_worded, both, changed, check_failures,
    has_words, is_worded, joined, judged, made, memory_if, on, refuse, stop_failing, unmade,
    with_last,
};
use cedar_entity::entity::Entity;
use cedar_entity::node::SharedEntity;
use cedar_graph::TCNode;
use cedar_ids::entity::EntityUID;
use cedar_uid_sets::SharedUid;
use std::alloc::{AllocError, Global};
use std::collections::HashSet;
use std::fmt::Display;

// The text of a node, with all that calls may change.
trait Told {
    fn told(alloc: Global, node: &Self) -> Option<String>;
}

impl Told for Entity {
    fn told(alloc: Global, node: &Entity) -> Option<String> {
        text_of(alloc, node)
    }
}

impl Told for SharedEntity {
    fn told(alloc: Global, node: &SharedEntity) -> Option<String> {
        counted_text(alloc, node)
    }
}

// A node with the default of `direct_edges`.
#[derive(Drop)]
struct Plain {
    targets: HashSet<u64>,
}

impl TCNode<u64> for Plain {
    ghost use Rattle.std.specs.Prelude.{false};
    ghost use Rattle.std.specs.Cmp.{nat_eq_equiv};
    ghost use Rattle.std.proofs.Common.{refl};
    ghost use Rattle.cedar_graph.specs.laws.Nodes.{contains_both_or_none};

    ghost Rest = { Unit {0} };

    ghost Kept = { Unit {0} };

    ghost key = { λ n. 0 };

    ghost edges = { λ n. contains nat_eq n.targets };

    ghost direct = { λ n. contains nat_eq n.targets };

    ghost rest = { λ n. tt };

    ghost kept = { λ n. tt };

    ghost precedes = { λ x y. false };

    fn get_key(&self, _alloc: Global) -> Result<u64, AllocError> {
        Ok(0)
    }

    fn add_edge_to(&mut self, _alloc: Global, k: u64) -> Result<(), AllocError> {
        self.targets.insert(k)?;
        Ok(())
    }

    fn out_edges(&self, alloc: Global) -> Result<Vec<&u64>, AllocError> {
        self.targets.iter().collect(alloc)
    }

    fn has_edge_to(&self, k: &u64) -> bool {
        self.targets.contains(k)
    }

    fn reset_edges(&mut self, _alloc: Global) -> Result<(), AllocError> {
        Ok(())
    }

    ghost respects_eq = { λ n x y h. contains_both_or_none nat_eq_equiv x y h n.targets };

    ghost direct_are_edges = { λ n q h. h };

    ghost precedes_respects_eq = { λ x y u v h g. refl };
}

impl Told for Plain {
    fn told(alloc: Global, node: &Plain) -> Option<String> {
        node.targets.len().to_string(alloc).ok()
    }
}

// Returns a plain node with an edge to this key.
fn node_to(alloc: Global, key: u64) -> Option<Plain> {
    match joined(Some(HashSet::new(alloc)), Some(key)) {
        Some(targets) => Some(Plain { targets }),
        None => None,
    }
}

// Returns whether keys are printed as these words, in order.
fn are_written<K: Display>(alloc: Global, keys: &Vec<&K>, want: &str) -> bool {
    let mut due = want.split_whitespace();
    for key in keys {
        match due.next() {
            Some(word) if is_worded(alloc, *key, word) => {}
            _ => return false,
        }
    }
    due.next().is_none()
}

// Returns whether each word of a text is a word of another text.
pub(super) fn is_listed_id(text: &str, others: &str) -> bool {
    text.split_whitespace().all(|word| others.split_whitespace().any(|other| other == word))
}

// Returns the outcome of adding edges, given the node's text before. After an error the former edges must remain, and
// each new edge must lead to one of the keys.
fn grown<K: Eq + Drop, N: TCNode<K> + Told + Drop>(
    alloc: Global,
    before: String,
    node: N,
    answer: Result<(), AllocError>,
    want: &str,
) -> Answer {
    let after = N::told(alloc, &node).unwrap_or(String::new(alloc));
    drop(node);
    let came = match answer {
        Ok(()) => ample_if(has_words(after.as_str(), want)),
        Err(_) => memory_if(
            is_listed_id(before.as_str(), after.as_str()) && is_listed_id(after.as_str(), want),
        ),
    };
    drop(before);
    drop(after);
    came
}

// Runs a method that adds edges to keys.
macro_rules! joined_by {
    ($alloc:ident, $number:ident, $node:ident, $keys:ident, $want:ident, $method:ident) => {{
        let before = N::told($alloc, &$node).unwrap_or(String::new($alloc));
        refuse($alloc, $number);
        let answer = $node.$method($alloc, &mut $keys);
        let refused = stop_failing($alloc);
        drop($keys);
        let answer = grown::<K, N>($alloc, before, $node, answer, $want);
        CallOutcome { answer, refused }
    }};
}

// Runs the addition of edges to keys.
fn joined_to<K: Eq + Drop, N: TCNode<K> + Told + Drop>(
    alloc: Global,
    number: usize,
    mut node: N,
    mut keys: Vec<K>,
    want: &str,
) -> CallOutcome {
    joined_by!(alloc, number, node, keys, want, add_edges_to)
}

// Runs the addition of an edge to a key to which the node has no edge. The key is passed as a list.
fn newly_joined_to<K: Eq + Drop, N: TCNode<K> + Told + Drop>(
    alloc: Global,
    number: usize,
    mut node: N,
    mut row: Vec<K>,
    want: &str,
) -> CallOutcome
    requires { AreNewTo K.eq (N.edges node) row.items }
{
    joined_by!(alloc, number, node, row, want, add_new_edges_to)
}

// Runs the addition of an edge to a key to which the node has no edge. The key is passed as a list, which ascends.
fn newly_joined_to_one<K: Eq + Drop, N: TCNode<K> + Told + Drop>(
    alloc: Global,
    number: usize,
    mut node: N,
    mut row: Vec<K>,
    want: &str,
) -> CallOutcome
    requires one { length row.items < 2 }
    requires new { AreNewTo K.eq (N.edges node) row.items }
{
    joined_by!(alloc, number, node, row, want, add_ascending_edges_to)
}

// Returns whether the node has an edge to one of the keys.
fn has_edge_among<K: Eq + Drop, N: TCNode<K>>(node: &N, keys: &[K]) -> bool
    ensures { result ≡ list_any (N.edges node.now) keys.now }
{
    keys.iter().any(|key| node.has_edge_to(key))
}

// Runs the addition of edges to keys to which the node has no edges.
fn newly_joined<K: Eq + Drop, N: TCNode<K> + Told + Drop>(
    alloc: Global,
    number: usize,
    node: N,
    keys: Vec<K>,
    want: &str,
) -> CallOutcome {
    if has_edge_among(&node, &keys) {
        drop(node);
        drop(keys);
        return unmade();
    }
    newly_joined_to(alloc, number, node, keys, want)
}

// Runs the addition of ascending edges, for at most one key, to which the node has no edge.
fn newly_joined_one<K: Eq + Drop, N: TCNode<K> + Told + Drop>(
    alloc: Global,
    number: usize,
    node: N,
    keys: Vec<K>,
    want: &str,
) -> CallOutcome {
    if keys.len() > 1 || has_edge_among(&node, &keys) {
        drop(node);
        drop(keys);
        return unmade();
    }
    newly_joined_to_one(alloc, number, node, keys, want)
}

// Runs the addition of an edge to the last of some keys.
fn led<K: Eq + Drop, N: TCNode<K> + Told + Drop>(
    alloc: Global,
    number: usize,
    node: N,
    keys: Vec<K>,
    want: &str,
) -> CallOutcome {
    let mut keys = keys;
    let key = keys.pop();
    drop(keys);
    match key {
        Some(key) => changed(
            alloc,
            number,
            Some(node),
            want,
            |alloc, node: &N| N::told(alloc, node),
            |node: &mut N| node.add_edge_to(alloc, key),
        ),
        None => {
            drop(node);
            unmade()
        }
    }
}

// Returns the list of edges that a node writes into an empty list.
fn edges_of<'a, K: Eq + Drop, N: TCNode<K>>(
    alloc: Global,
    node: &'a N,
) -> Result<Vec<&'a K>, AllocError> {
    let mut list = Vec::new(alloc);
    node.list_edges(alloc, &mut list)?;
    Ok(list)
}

// Runs the function that lists some edges.
fn listed<K: Eq + Display + Drop, N: TCNode<K> + Told + Drop>(
    alloc: Global,
    number: usize,
    verb: &str,
    node: N,
    want: &str,
) -> CallOutcome {
    if verb == "out_edges" {
        return on(alloc, number, Some(node), |node: &N| {
            judged(alloc, node.out_edges(alloc), want, |keys| {
                are_written(alloc, keys, want)
            })
        });
    }
    if verb == "list_edges" {
        return on(alloc, number, Some(node), |node: &N| {
            judged(alloc, edges_of(alloc, node), want, |keys| {
                are_written(alloc, keys, want)
            })
        });
    }
    on(alloc, number, Some(node), |node: &N| {
        judged(alloc, node.direct_edges(alloc), want, |keys| {
            are_written(alloc, keys, want)
        })
    })
}

// Runs the function that orders the keys of a node type.
fn ordered<K: Eq + Drop, N: TCNode<K>>(
    alloc: Global,
    number: usize,
    keys: Vec<K>,
    want: &str,
) -> CallOutcome {
    refuse(alloc, number);
    let answer = N::order(alloc, keys.as_slice());
    let tried = judged(
        alloc,
        answer,
        want,
        |places| are_worded(alloc, places.as_slice(), want),
    );
    drop(keys);
    tried
}

// Runs a call on a node.
fn asked<K: Eq + Display + Drop, N: TCNode<K> + Told + Drop>(
    alloc: Global,
    number: usize,
    verb: &str,
    node: N,
    keys: Vec<K>,
    want: &str,
) -> CallOutcome {
    match verb {
        "get_key" => {
            drop(keys);
            on(
                alloc,
                number,
                Some(node),
                |node: &N| made(alloc, node.get_key(alloc), want),
            )
        }
        "reset_edges" => {
            drop(keys);
            changed(
                alloc,
                number,
                Some(node),
                want,
                |alloc, node: &N| N::told(alloc, node),
                |node: &mut N| node.reset_edges(alloc),
            )
        }
        "add_edge_to" => led(alloc, number, node, keys, want),
        "add_edges_to" => joined_to(alloc, number, node, keys, want),
        "add_new_edges_to" => newly_joined(alloc, number, node, keys, want),
        "add_ascending_edges_to" => newly_joined_one(alloc, number, node, keys, want),
        "order" => {
            drop(node);
            ordered::<K, N>(alloc, number, keys, want)
        }
        _ => {
            drop(keys);
            listed(alloc, number, verb, node, want)
        }
    }
}

// Returns the name of the called function, without the kind of nodes before it.
fn verb_of<'a>(row: Row<'a>) -> &'a str {
    row.call.split_once("::").unwrap_or(("", row.call)).1
}

// Returns the text of the node, which is before the keys.
fn node_of<'a>(row: Row<'a>) -> &'a str {
    row.given.split_once(", ").unwrap_or((row.given, "")).0
}

// Returns a list of uids.
fn uids(alloc: Global, names: &str) -> Option<Vec<EntityUID>> {
    let mut all = Some(Vec::new(alloc));
    for name in names.split_whitespace() {
        all = with_last(all, uid_of(alloc, name));
    }
    all
}

fn on_uids<N: TCNode<EntityUID> + Told + Drop>(
    alloc: Global,
    number: usize,
    node: Option<N>,
    row: Row<'_>,
) -> CallOutcome {
    let (_, names) = row.given.split_once(", ").unwrap_or((row.given, ""));
    match both(node, uids(alloc, names)) {
        Some((node, keys)) => asked(alloc, number, verb_of(row), node, keys, row.want),
        None => unmade(),
    }
}

fn on_shared<N: TCNode<SharedUid> + Told + Drop>(
    alloc: Global,
    number: usize,
    node: Option<N>,
    row: Row<'_>,
) -> CallOutcome {
    let (_, names) = row.given.split_once(", ").unwrap_or((row.given, ""));
    match both(node, pointers(alloc, names)) {
        Some((node, keys)) => asked(alloc, number, verb_of(row), node, keys, row.want),
        None => unmade(),
    }
}

struct OnEntities;

const ENTITIES: &str = "
    TCNode<EntityUID> for Entity::get_key | a b / c | A::\"a\"
    TCNode<EntityUID> for Entity::add_edge_to | a b / c / k=1, d | a b / c d / k=1 /
    TCNode<EntityUID> for Entity::add_edge_to | a b / c, b | a b / c / /
    TCNode<EntityUID> for Entity::out_edges | a b / c d | A::\"b\" A::\"c\" A::\"d\"
    - TCNode<EntityUID> for Entity::reset_edges | a b / c d | a b / / /
    TCNode<EntityUID> for Entity::direct_edges | a b / c d | A::\"b\"
    TCNode::direct_edges | 7 | 7
    TCNode::list_edges | 7 | 7
    TCNode::order | a, c b | 0 ; 1 ;
    TCNode::add_edges_to | a b / c e, f d b | a b / c d e f / /
    TCNode::add_new_edges_to | a b / c e, f d | a b / c d e f / /
    TCNode::add_ascending_edges_to | a b / c e, d | a b / c d e / /
";

impl Calls for OnEntities {
    fn tried(&self, alloc: Global, number: usize, row: Row<'_>) -> CallOutcome {
        if row.given == "7" {
            return match node_to(alloc, 7) {
                Some(node) => listed::<u64, Plain>(alloc, number, verb_of(row), node, row.want),
                None => unmade(),
            };
        }
        on_uids(alloc, number, entity(alloc, node_of(row)), row)
    }
}

#[test]
fn each_call_on_an_entity_as_a_node(rt: HostRuntime) {
    assert!(rt; check_failures(rt, &OnEntities, ENTITIES));
}

struct OnCounted;

const COUNTED: &str = "
    TCNode<EntityUID> for SharedEntity::get_key | a b / c | A::\"a\"
    TCNode<EntityUID> for SharedEntity::add_edge_to | a b / c / k=1, d | a b / c d / k=1 /
    TCNode<EntityUID> for SharedEntity::out_edges | a b / c d | A::\"b\" A::\"c\" A::\"d\"
    TCNode<EntityUID> for SharedEntity::reset_edges | a b / c d | a b / / /
    TCNode<EntityUID> for SharedEntity::direct_edges | a b / c d | A::\"b\"
    TCNode<SharedUid> for SharedEntity::get_key | a b / c | A::\"a\"
    TCNode<SharedUid> for SharedEntity::add_edge_to | a b / c / k=1, d | a b / c d / k=1 /
    TCNode<SharedUid> for SharedEntity::out_edges | a b / c d | A::\"b\" A::\"c\" A::\"d\"
    TCNode<SharedUid> for SharedEntity::list_edges | a b / c d | A::\"c\" A::\"d\" A::\"b\"
    TCNode<SharedUid> for SharedEntity::reset_edges | a b / c d | a b / / /
    TCNode<SharedUid> for SharedEntity::direct_edges | a b / c d | A::\"b\"
    TCNode<SharedUid> for SharedEntity::order | a, c b | 1 ; 0 ;
    TCNode<SharedUid> for SharedEntity::add_edges_to | a b / c e, f d b | a b / c d e f / /
    TCNode<SharedUid> for SharedEntity::add_new_edges_to | a b / c e, f d | a b / c d e f / /
    TCNode<SharedUid> for SharedEntity::add_ascending_edges_to | a b / c e, d | a b / c d e / /
";

// Runs a call on an entity that another node shares. The other node must not change.
fn beside_another(alloc: Global, number: usize, other: &SharedEntity, row: Row<'_>) -> CallOutcome {
    let node: Result<SharedEntity, AllocError> = other.clone();
    let before = counted_text(alloc, other).unwrap_or(String::new(alloc));
    let tried = if row.call.starts_with("TCNode<SharedUid>") {
        on_shared(alloc, number, node.ok(), row)
    } else {
        on_uids(alloc, number, node.ok(), row)
    };
    let after = counted_text(alloc, other).unwrap_or(String::new(alloc));
    let stays = before.as_str() == after.as_str();
    drop(before);
    drop(after);
    if stays { tried } else { unmade() }
}

impl Calls for OnCounted {
    fn tried(&self, alloc: Global, number: usize, row: Row<'_>) -> CallOutcome {
        match counted(alloc, node_of(row)) {
            Some(other) => {
                let tried = beside_another(alloc, number, &other, row);
                drop(other);
                tried
            }
            None => unmade(),
        }
    }
}

#[test]
fn each_call_on_a_shared_entity_as_a_node(rt: HostRuntime) {
    assert!(rt; check_failures(rt, &OnCounted, COUNTED));
}
