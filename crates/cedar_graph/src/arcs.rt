//! Reading the edges of a map of nodes as arcs between numbers.
ghost use Rattle.std.specs.Prelude.{
  ◌≡◌,
  ◌<◌,
  ◌≤◌,
  ◌+◌,
  ◌-◌,
  ℕ,
  [],
  Bool,
  true,
  length,
  is_some,
  slice_get,
  IfOk,
  OnOk,
  Some,
};
ghost use Rattle.std.specs.Set.{ClonesAreEqual};
ghost use Rattle.std.specs.HashMap.{hash_map_len};
ghost use Rattle.std.specs.HashSet.{contains, hash_set_len};
ghost use Rattle.cedar_graph.specs.Graph.{graph_of};
ghost use Rattle.cedar_graph.specs.laws.Arcs.{HasNumber};
ghost use Rattle.cedar_graph.specs.laws.Readings.{AreNodesAt, IsReadBelow, PutsEdged, ReadsAll, ReadsArc, ReadsFix};
ghost use Rattle.cedar_graph.specs.laws.Readings.{ReadsNode, ReadsNodes, ReadsOn};
ghost use Rattle.indexmap.specs.IndexSet.{IsUnique};

use crate::copies::members_of;
use crate::numbering::{insert_key_copy, number_of};
use crate::transitive_closure::TCNode;
use indexmap::IndexSet;
use std::alloc::{AllocError, Global};
use std::collections::{HashMap, HashSet};
use std::hash::{BuildHasher, Hash};

// The initial capacity for arcs in a repair.
const ARCS: usize = 64;

// Counts the nodes that may have edges.
fn count_edged<K: Clone + Eq + Hash, V: TCNode<K>, S: BuildHasher>(
    nodes: &HashMap<K, V, S>,
) -> usize
    ensures { result ≡ 0 → (q b : K) → graph_of K.eq V.edges nodes.now q b ≡ true → ⊥ }
{
    let mut count: usize = 0;
    for (_key, node) in nodes {
        count = count.saturating_add(node.may_have_edges() as usize);
    }
    count
}

// Numbers for the keys of nodes with edges, and these nodes in the order of the numbers.
#[derive(Drop)]
struct Edged<'a, K: Eq + Hash, V, S: BuildHasher> {
    keys: IndexSet<K, S>,
    nodes: Vec<&'a V>,
}

// Appends a node and its key, unless the node has no edges.
fn push_with_edges<'a, K: Clone + Eq + Hash, V: TCNode<K>, S: BuildHasher>(
    edged: &mut Edged<'a, K, V, S>,
    key: &K,
    node: &'a V,
) -> Result<(), AllocError>
    requires copies { ClonesAreEqual K.eq K.is_clone }
    requires unique { IsUnique K.eq edged.old.keys }
    requires len { length edged.old.nodes.items ≡ length edged.old.keys.keys }
    ensures { OnOk result (PutsEdged K.eq V.edges key.now node.now
        edged.old.keys edged.new.keys edged.old.nodes.items edged.new.nodes.items) }
{
    if !node.may_have_edges() {
        return Ok(());
    }
    insert_key_copy(&mut edged.keys, key)?;
    if edged.keys.len() > edged.nodes.len() {
        edged.nodes.push(node)?;
    }
    Ok(())
}

// Numbers the keys of nodes with edges, and collects these nodes. Scans the map a second time only if a node may have
// edges.
fn number_edged<'a, K: Clone + Eq + Hash, V: TCNode<K>, S: BuildHasher + Clone>(
    alloc: Global,
    nodes: &'a HashMap<K, V, S>,
) -> Result<Edged<'a, K, V, S>, AllocError>
    requires { ClonesAreEqual K.eq K.is_clone }
    ensures unique { IfOk result (λ e. IsUnique K.eq e.keys) }
    ensures all { IfOk result (λ e. (q b : K) →
        graph_of K.eq V.edges nodes.now q b ≡ true → HasNumber K.eq e.keys.keys q) }
    ensures nodes { IfOk result (λ e. AreNodesAt K.eq nodes.now e.keys.keys e.nodes.items) }
    ensures len { IfOk result (λ e. length e.nodes.items ≡ length e.keys.keys) }
    ensures few { IfOk result (λ e. length e.keys.keys ≤ hash_map_len nodes.now) }
{
    let count = count_edged(nodes);
    let hasher = nodes.hasher().clone()?;
    let mut edged = Edged {
        keys: IndexSet::with_capacity_and_hasher(alloc, count, hasher)?,
        nodes: Vec::with_capacity(alloc, count)?,
    };
    if count == 0 {
        return Ok(edged);
    }
    for (key, node) in nodes {
        push_with_edges(&mut edged, key, node)?;
    }
    Ok(edged)
}

#[derive(Drop)]
pub(crate) struct Reading<K: Eq + Hash, S: BuildHasher> {
    pub(crate) keys: IndexSet<K, S>,
    pub(crate) from: Vec<usize>,
    pub(crate) to: Vec<usize>,
    pub(crate) reads: usize,
}

// Adds an arc from number `a` to the number of the key.
fn add_arc<K: Clone + Eq + Hash, S: BuildHasher>(
    s: &mut Reading<K, S>,
    a: usize,
    key: &K,
) -> Result<usize, AllocError>
    requires copies { ClonesAreEqual K.eq K.is_clone }
    requires unique { IsUnique K.eq s.old.keys }
    ensures arc { IfOk result (ReadsArc K.eq a key.now s.old s.new) }
    ensures reads { s.new.reads ≡ s.old.reads }
{
    let b = number_of(&mut s.keys, key)?;
    s.from.push(a)?;
    s.to.push(b)?;
    Ok(b)
}

// Reads the arcs of a node whose key has the number `a`. Overwrites `list` with the edges of the node.
fn read_node<'a, K: Clone + Eq + Hash, V: TCNode<K>, S: BuildHasher>(
    alloc: Global,
    node: &'a V,
    s: &mut Reading<K, S>,
    list: &mut Vec<&'a K>,
    a: usize,
) -> Result<(), AllocError>
    requires copies { ClonesAreEqual K.eq K.is_clone }
    requires unique { IsUnique K.eq s.old.keys }
    requires within { a < length s.old.keys.keys }
    ensures { OnOk result (ReadsNode K.eq (V.edges node.now) a s.old s.new) }
{
    s.reads = s.reads.saturating_add(1);
    node.list_edges(alloc, list)?;
    let edges: &Vec<&K> = list;
    for edge in edges {
        add_arc(s, a, *edge)?;
    }
    Ok(())
}

// Reads the arcs of the node at the key of number `a`, if there is one.
fn read_row<'a, K: Clone + Eq + Hash, V: TCNode<K>, S: BuildHasher>(
    alloc: Global,
    nodes: &'a HashMap<K, V, S>,
    s: &mut Reading<K, S>,
    list: &mut Vec<&'a K>,
    a: usize,
) -> Result<(), AllocError>
    requires copies { ClonesAreEqual K.eq K.is_clone }
    requires read { IsReadBelow K.eq (graph_of K.eq V.edges nodes.now) a s.old }
    requires within { a < length s.old.keys.keys }
    ensures read { OnOk result (IsReadBelow K.eq (graph_of K.eq V.edges nodes.now) (a + 1) s.new) }
    ensures on { OnOk result (ReadsOn 1 s.old s.new) }
{
    match nodes.get(&s.keys[a]) {
        Some(node) => read_node(alloc, node, s, list, a),
        None => Ok(()),
    }
}

// Reads the arcs of the nodes of the numbers from `start` up to `end`.
fn read_rows<K: Clone + Eq + Hash, V: TCNode<K>, S: BuildHasher>(
    alloc: Global,
    nodes: &HashMap<K, V, S>,
    s: &mut Reading<K, S>,
    start: usize,
    end: usize,
) -> Result<(), AllocError>
    requires copies { ClonesAreEqual K.eq K.is_clone }
    requires read { IsReadBelow K.eq (graph_of K.eq V.edges nodes.now) start s.old }
    requires order { start ≤ end }
    requires within { end ≤ length s.old.keys.keys }
    ensures read { OnOk result (IsReadBelow K.eq (graph_of K.eq V.edges nodes.now) end s.new) }
    ensures on { OnOk result (ReadsOn (end - start) s.old s.new) }
{
    let mut list = Vec::new(alloc);
    for a in start..end {
        read_row(alloc, nodes, s, &mut list, a)?;
    }
    Ok(())
}

// Creates an empty reading of the keys, with capacity for `room` arcs.
fn empty_reading<K: Clone + Eq + Hash, S: BuildHasher + Drop>(
    alloc: Global,
    keys: IndexSet<K, S>,
    room: usize,
) -> Result<Reading<K, S>, AllocError>
    ensures { IfOk result (λ s.
        (s.keys ≡ keys) × (s.from.items ≡ []) × (s.to.items ≡ []) × (s.reads ≡ 0)) }
{
    Ok(Reading {
        keys,
        from: Vec::with_capacity(alloc, room)?,
        to: Vec::with_capacity(alloc, room)?,
        reads: 0,
    })
}

// The arcs that were read. The first `fixed` numbers are to be fixed, and the arcs of the first `near` numbers were
// read.
#[derive(Drop)]
pub(crate) struct FixReading<K: Eq + Hash, S: BuildHasher> {
    pub(crate) reading: Reading<K, S>,
    pub(crate) fixed: usize,
    pub(crate) near: usize,
}

// Reads the arcs of nodes, in the order of their numbers.
fn read_nodes<K: Clone + Eq + Hash, V: TCNode<K>, S: BuildHasher>(
    alloc: Global,
    nodes: &[&V],
    s: &mut Reading<K, S>,
) -> Result<(), AllocError>
    requires copies { ClonesAreEqual K.eq K.is_clone }
    requires fresh { (G : K → K → Bool) → IsReadBelow K.eq G 0 s.old }
    requires within { length nodes.now ≤ length s.old.keys.keys }
    ensures { OnOk result (ReadsNodes K.eq V.edges nodes.now s.old s.new) }
{
    let mut list = Vec::new(alloc);
    for a in 0..nodes.len() {
        read_node(alloc, nodes[a], s, &mut list, a)?;
    }
    Ok(())
}

// Reads the arcs of all nodes of the map. Lists the edges of each node with edges once.
pub(crate) fn read_arcs<K: Clone + Eq + Hash, V: TCNode<K>, S: BuildHasher + Clone>(
    alloc: Global,
    nodes: &HashMap<K, V, S>,
) -> Result<FixReading<K, S>, AllocError>
    requires { ClonesAreEqual K.eq K.is_clone }
    ensures { IfOk result (ReadsAll K.eq V.edges nodes.now) }
{
    let edged = number_edged(alloc, nodes)?;
    let count = edged.nodes.len();
    let mut s = empty_reading(alloc, edged.keys, count)?;
    read_nodes(alloc, &edged.nodes, &mut s)?;
    Ok(FixReading {
        reading: s,
        fixed: count,
        near: count,
    })
}

// Numbers the keys of a set.
fn number_set<K: Clone + Eq + Hash, S: BuildHasher + Drop, F: BuildHasher>(
    alloc: Global,
    hasher: S,
    fix: &HashSet<K, F>,
) -> Result<IndexSet<K, S>, AllocError>
    requires { ClonesAreEqual K.eq K.is_clone }
    ensures unique { IfOk result (IsUnique K.eq) }
    ensures all { IfOk result (λ s. (q : K) →
        contains K.eq fix.now q ≡ true → HasNumber K.eq s.keys q) }
    ensures only { IfOk result (λ s. (i : ℕ) (k : K) →
        slice_get s.keys i ≡ Some k → contains K.eq fix.now k ≡ true) }
    ensures len { IfOk result (λ s. length s.keys ≤ hash_set_len fix.now) }
    ensures least { IfOk result (λ s. hash_set_len fix.now ≤ length s.keys) }
{
    let all = members_of(alloc, fix)?;
    let mut keys = IndexSet::with_capacity_and_hasher(alloc, all.len(), hasher)?;
    for key in &all {
        insert_key_copy(&mut keys, *key)?;
    }
    Ok(keys)
}

// Reads the arcs of the keys to fix, and of the keys to which these have an edge.
pub(crate) fn read_fix<K: Clone + Eq + Hash, V: TCNode<K>, S: BuildHasher + Clone, F: BuildHasher>(
    alloc: Global,
    fix: &HashSet<K, F>,
    nodes: &HashMap<K, V, S>,
) -> Result<FixReading<K, S>, AllocError>
    requires { ClonesAreEqual K.eq K.is_clone }
    ensures { IfOk result (ReadsFix K.eq V.edges fix.now nodes.now) }
{
    let keys = number_set(alloc, nodes.hasher().clone()?, fix)?;
    let fixed = keys.len();
    let mut s = empty_reading(alloc, keys, ARCS)?;
    read_rows(alloc, nodes, &mut s, 0, fixed)?;
    let near = s.keys.len();
    read_rows(alloc, nodes, &mut s, fixed, near)?;
    Ok(FixReading {
        reading: s,
        fixed,
        near,
    })
}
