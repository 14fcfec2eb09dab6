//! Nodes with edges, and the closure functions over a map of nodes.
ghost use Rattle.std.specs.Prelude.{
  ◌≡◌,
  Bool,
  true,
  false,
  map,
  ◌||◌,
  ℕ,
  ◌<◌,
  ◌≤◌,
  ◌*◌,
  length,
  slice_index,
  IfOk,
  OnOk,
  OnErr,
  IfErr,
};
ghost use Rattle.std.specs.List.{range_with_len};
ghost use Rattle.std.specs.List.Sorted.{IsPermutation};
ghost use Rattle.std.specs.Set.{is_member, ClonesAreEqual};
ghost use Rattle.std.specs.HashMap.{hash_map_len};
ghost use Rattle.std.specs.HashSet.{contains, hash_set_len};
ghost use Rattle.cedar_graph.specs.Ascending.{IsAscending, IsAscendingAt, RespectsEq};
ghost use Rattle.cedar_graph.specs.Calls.{Closes, CoversEdged, HasAll, IsAtMostNeeded, KeepsAll, Repairs};
ghost use Rattle.cedar_graph.specs.Graph.{graph_of, Grows, IsClosedWithoutLoop, KeysMatch};
ghost use Rattle.cedar_graph.specs.Faults.{DeniesClosed};

use crate::checks::{enforce_no_loop, enforce_no_loop_for};
use crate::close::{close, repair};
use crate::closed::enforce_tc;
use crate::err::Result;
use std::alloc::{AllocError, Global};
use std::collections::{HashMap, HashSet};
use std::fmt::{Debug, Display};
use std::hash::{BuildHasher, Hash};
use std::mem::replace;

/// A node of a graph. It has a key and a set of edges to keys, and some of its edges are direct.
///
/// Keys are compared by their equality, which may be coarser than identity. The ghost members define what the methods
/// mean in contracts. An implementation must satisfy the contracts of the methods.
///
/// - The ghost members `key`, `edges` and `direct` are the key, the edges and the direct edges.
/// - The ghost member `rest` is the other content of the node, which no method changes.
/// - The ghost member `kept` is further content that adding an edge does not change, but `reset_edges` may. A node type
///   without such content uses the unit value.
/// - The ghost member `precedes` is the order of [`TCNode::are_ascending`]. A node type without an order uses any
///   relation that respects the equality, such as the one that never holds.
pub trait TCNode<K: Eq + Drop> {
    ghost Rest: { Type 0 };

    ghost Kept: { Type 0 };

    ghost key: { Self → K };

    ghost edges: { Self → K → Bool };

    ghost direct: { Self → K → Bool };

    ghost rest: { Self → Rest };

    ghost kept: { Self → Kept };

    ghost precedes: { K → K → Bool };

    /// Returns a copy of the node's key.
    ///
    /// # Errors
    ///
    /// Returns `AllocError` if an allocation fails.
    fn get_key(&self, alloc: Global) -> std::result::Result<K, AllocError>
        ensures { IfOk result (λ k. K.eq (key self.now) k ≡ true) };

    /// Adds an edge to `k`. If the node has the edge already, its edges do not change. The key, `rest` and `kept` do
    /// not change.
    ///
    /// # Errors
    ///
    /// Returns `AllocError` if an allocation fails, and then leaves the edges and the direct edges unchanged.
    fn add_edge_to(&mut self, alloc: Global, k: K) -> std::result::Result<(), AllocError>
        ensures ok { OnOk result ((q : K) → edges self.new q ≡ (edges self.old q || K.eq k q)) }
        ensures err { OnErr result ((q : K) → edges self.new q ≡ edges self.old q) }
        ensures err_direct { OnErr result ((q : K) → direct self.new q ≡ direct self.old q) }
        ensures key { key self.new ≡ key self.old }
        ensures rest { rest self.new ≡ rest self.old }
        ensures kept { kept self.new ≡ kept self.old };

    /// Lists the keys to which the node has an edge, in any order. Equal keys may occur more than once.
    ///
    /// # Errors
    ///
    /// Returns `AllocError` if an allocation fails.
    fn out_edges(&self, alloc: Global) -> std::result::Result<Vec<&K>, AllocError>
        ensures { IfOk result (λ v. (q : K) →
            is_member K.eq (map (λ x. x.now) v.items) q ≡ edges self.now q) };

    /// Returns whether the node has an edge to `k`. Does not allocate.
    fn has_edge_to(&self, k: &K) -> bool
        ensures { result ≡ edges self.now k.now };

    /// Returns whether the node may have an edge. `false` is allowed only if it has none. The default returns `true`. A
    /// closure neither numbers nor visits a node without edges. Does not allocate.
    ///
    /// # Differences from cedar-policy-core
    ///
    /// The original has no such method.
    fn may_have_edges(&self) -> bool
        ensures { result ≡ false → (q : K) → edges self.now q ≡ false }
    {
        true
    }

    /// Removes all edges except the direct ones. The key, `rest` and the direct edges do not change.
    ///
    /// # Errors
    ///
    /// Returns `AllocError` if an allocation fails, and then leaves the node unchanged.
    fn reset_edges(&mut self, alloc: Global) -> std::result::Result<(), AllocError>
        ensures ok { OnOk result ((q : K) → edges self.new q ≡ direct self.old q) }
        ensures err { OnErr result ((q : K) → edges self.new q ≡ edges self.old q) }
        ensures err_kept { OnErr result (kept self.new ≡ kept self.old) }
        ensures direct { (q : K) → direct self.new q ≡ direct self.old q }
        ensures key { key self.new ≡ key self.old }
        ensures rest { rest self.new ≡ rest self.old };

    /// Lists the keys of the direct edges, in any order. The list may also contain other keys to which the node has an
    /// edge.
    ///
    /// The default lists all edges. A node type that stores its direct edges separately overrides the method to list
    /// only them.
    ///
    /// # Errors
    ///
    /// Returns `AllocError` if an allocation fails.
    fn direct_edges(&self, alloc: Global) -> std::result::Result<Vec<&K>, AllocError>
        ensures has { IfOk result (λ v. (q : K) → direct self.now q ≡ true →
            is_member K.eq (map (λ x. x.now) v.items) q ≡ true) }
        ensures only { IfOk result (λ v. (q : K) →
            is_member K.eq (map (λ x. x.now) v.items) q ≡ true → edges self.now q ≡ true) }
    {
        self.out_edges(alloc)
    }

    /// Replaces the content of `list` by the keys to which the node has an edge. They are the keys of
    /// [`TCNode::out_edges`], in any order.
    ///
    /// A closure lists all edges by this method, with one list for all nodes. The default calls [`TCNode::out_edges`].
    /// A node type that stores its keys can override the method, and then allocates only if the list has too little
    /// capacity.
    ///
    /// # Errors
    ///
    /// Returns `AllocError` if an allocation fails. After an allocation failure the content of `list` is unspecified.
    ///
    /// # Differences from cedar-policy-core
    ///
    /// The original has no such method.
    fn list_edges<'a>(
        &'a self,
        alloc: Global,
        list: &mut Vec<&'a K>,
    ) -> std::result::Result<(), AllocError>
        ensures { OnOk result ((q : K) →
            is_member K.eq (map (λ x. x.now) list.new.items) q ≡ edges self.now q) }
    {
        *list = self.out_edges(alloc)?;
        Ok(())
    }

    /// Returns the order in which the nodes prefer to receive edges to the keys. The result contains each number below
    /// `keys.len()` once; a number is the position of a key.
    ///
    /// The default is 0, 1, 2, .., the order of the keys. The edges do not depend on the order. A closure calls this
    /// once, with copies of the keys to which edges lead.
    ///
    /// # Errors
    ///
    /// Returns `AllocError` if an allocation fails.
    ///
    /// # Differences from cedar-policy-core
    ///
    /// The original has no such method.
    fn order(alloc: Global, keys: &[K]) -> std::result::Result<Vec<usize>, AllocError>
        ensures { IfOk result (λ v.
            IsPermutation (range_with_len 0 (length keys.now)) v.items) }
    {
        (0..keys.len()).collect(alloc)
    }

    /// Returns whether the keys at the positions in `numbers` ascend in the order of the node type. Each number must be
    /// below `keys.len()`. The default returns `false`. Does not allocate.
    ///
    /// A closure calls this once, after [`TCNode::order`], with all keys and with the numbers in that order. If the
    /// result is `true`, it adds edges by [`TCNode::add_ascending_edges_to`].
    ///
    /// # Differences from cedar-policy-core
    ///
    /// The original has no such method.
    fn are_ascending(keys: &[K], numbers: &[usize]) -> bool
        requires { (k : ℕ) → k < length numbers.now → slice_index numbers.now k < length keys.now }
        ensures { result ≡ true → IsAscendingAt precedes keys.now numbers.now }
    {
        false
    }

    /// Adds edges to all of the keys. The keys may contain duplicates, and keys to which the node has an edge already.
    /// The method may remove keys from the vector; its later content is unspecified.
    ///
    /// The default removes all keys and adds one edge after another, in order. The key, `rest` and `kept` do not
    /// change.
    ///
    /// # Errors
    ///
    /// Returns `AllocError` if an allocation fails. After an allocation failure no edge is removed, and each added edge
    /// leads to one of the keys.
    ///
    /// # Differences from cedar-policy-core
    ///
    /// The original has no such method.
    fn add_edges_to(
        &mut self,
        alloc: Global,
        keys: &mut Vec<K>,
    ) -> std::result::Result<(), AllocError>
        ensures ok { OnOk result ((q : K) →
            edges self.new q ≡ (edges self.old q || is_member K.eq keys.old.items q)) }
        ensures grows { Grows (edges self.old) (edges self.new) (is_member K.eq keys.old.items) }
        ensures key { key self.new ≡ key self.old }
        ensures rest { rest self.new ≡ rest self.old }
        ensures kept { kept self.new ≡ kept self.old }
    {
        let row = replace(keys, Vec::new(alloc));
        for key in row {
            self.add_edge_to(alloc, key)?;
        }
        Ok(())
    }

    /// Adds edges to all of the keys, as [`TCNode::add_edges_to`] does. The caller must ensure that the node has no
    /// edge to any of them, so an implementation need not check that. The keys may contain duplicates.
    ///
    /// The default calls [`TCNode::add_edges_to`]. A closure calls this once for each node that needs further edges.
    ///
    /// # Errors
    ///
    /// Returns `AllocError` if an allocation fails. After an allocation failure no edge is removed, and each added edge
    /// leads to one of the keys.
    ///
    /// # Differences from cedar-policy-core
    ///
    /// The original has no such method.
    fn add_new_edges_to(
        &mut self,
        alloc: Global,
        keys: &mut Vec<K>,
    ) -> std::result::Result<(), AllocError>
        requires { (q : K) → is_member K.eq keys.old.items q ≡ true → edges self.old q ≡ false }
        ensures ok { OnOk result ((q : K) →
            edges self.new q ≡ (edges self.old q || is_member K.eq keys.old.items q)) }
        ensures grows { Grows (edges self.old) (edges self.new) (is_member K.eq keys.old.items) }
        ensures key { key self.new ≡ key self.old }
        ensures rest { rest self.new ≡ rest self.old }
        ensures kept { kept self.new ≡ kept self.old }
    {
        self.add_edges_to(alloc, keys)
    }

    /// Adds edges to all of the keys, as [`TCNode::add_new_edges_to`] does. The caller must ensure that the node has no
    /// edge to any of them, and that they ascend, so an implementation need check neither.
    ///
    /// The default calls [`TCNode::add_new_edges_to`].
    ///
    /// # Errors
    ///
    /// Returns `AllocError` if an allocation fails. After an allocation failure no edge is removed, and each added edge
    /// leads to one of the keys.
    ///
    /// # Differences from cedar-policy-core
    ///
    /// The original has no such method.
    fn add_ascending_edges_to(
        &mut self,
        alloc: Global,
        keys: &mut Vec<K>,
    ) -> std::result::Result<(), AllocError>
        requires new { (q : K) → is_member K.eq keys.old.items q ≡ true → edges self.old q ≡ false }
        requires ascending { IsAscending precedes keys.old.items }
        ensures ok { OnOk result ((q : K) →
            edges self.new q ≡ (edges self.old q || is_member K.eq keys.old.items q)) }
        ensures grows { Grows (edges self.old) (edges self.new) (is_member K.eq keys.old.items) }
        ensures key { key self.new ≡ key self.old }
        ensures rest { rest self.new ≡ rest self.old }
        ensures kept { kept self.new ≡ kept self.old }
    {
        self.add_new_edges_to(alloc, keys)
    }

    // A node has edges to both of two equal keys, or to neither.
    ghost respects_eq: { (n : Self) (x y : K) → K.eq x y ≡ true → edges n x ≡ edges n y };

    ghost direct_are_edges: { (n : Self) (q : K) → direct n q ≡ true → edges n q ≡ true };

    ghost precedes_respects_eq: { RespectsEq K.eq precedes };
}

/// The work that a closure function did.
#[derive(Clone, Copy, Debug, PartialEq, Eq)]
pub struct Work {
    /// The number of times that the edges of a node were listed by [`TCNode::list_edges`]. If a node type does not
    /// override that method, this is the number of calls of [`TCNode::out_edges`].
    pub reads: usize,
    /// The number of visits of nodes. A closure visits the nodes that may have edges. A repair visits the nodes at the
    /// keys to fix.
    pub closings: usize,
}

/// Closes a graph: adds an edge from each node of the map to each key that it reaches over one or more edges. A key
/// outside the map can be reached, and has no edges itself.
///
/// The caller must ensure that each map key is its node's key, and that a copy of a key equals it. The map's keys and
/// each node's key, `rest` and `kept` do not change, even if an error is returned.
///
/// # Errors
///
/// - `HasCycle`: `enforce_dag` is `true` and a node of the map lies on a cycle. The error names such a node. The graph
///   is closed all the same.
/// - `Memory`: an allocation failed. No edge is removed, and each added edge leads to a reached key.
///
/// # Complexity
///
/// Lists the edges of each node with edges once. The further work is proportional to the number of keys with edges, of
/// edges read and of edges added. A pair of keys without an edge costs nothing.
///
/// - Calls [`TCNode::may_have_edges`] for each node, twice if a node may have edges.
/// - Calls [`TCNode::order`] once, and then [`TCNode::are_ascending`].
/// - Calls [`TCNode::add_ascending_edges_to`] or [`TCNode::add_new_edges_to`] once for each node that needs edges.
/// - Calls [`TCNode::has_edge_to`] only if `enforce_dag` is `true` and there is a cycle, until a node has an edge to
///   itself.
///
/// An edge is cheap if later edges of the same node reach its key. So a node type should list its direct edges last.
///
/// The function recurses only in sorting, to a depth logarithmic in the length of a list. [`TCNode::order`] may sort
/// all keys.
///
/// Allocates copies of keys, numbers proportional to keys and edges, and the lists of the keys that each strongly
/// connected component reaches.
///
/// The keys with edges and the keys to which edges lead are numbered in a set with a clone of the map's hasher builder.
/// So keys collide there only if they collide in the map.
///
/// # Differences from cedar-policy-core
///
/// - The function takes an allocator, and `Memory` is a further error.
pub fn compute_tc<K: Clone + Eq + Hash + Debug + Display, V: TCNode<K>, S: BuildHasher + Clone>(
    alloc: Global,
    nodes: &mut HashMap<K, V, S>,
    enforce_dag: bool,
) -> Result<(), K>
    requires copies { ClonesAreEqual K.eq K.is_clone }
    requires keys { KeysMatch K.eq V.key nodes.old }
    ensures keys { KeysMatch K.eq V.key nodes.new }
    ensures keeps { KeepsAll K.eq V.key V.rest V.kept nodes.old nodes.new }
    ensures closes { Closes K.eq V.edges enforce_dag nodes.old nodes.new result }
{
    compute_tc_counted(alloc, nodes, enforce_dag)?;
    Ok(())
}

/// Closes a graph as [`compute_tc`] does, and counts its work.
///
/// - Reads: at most the number of nodes of the map.
/// - Visits: at most twice the number of nodes.
/// - Both are at least the number of nodes with an edge.
///
/// A count stays at `usize::MAX` once it is there.
///
/// # Errors
///
/// The errors of [`compute_tc`].
///
/// # Differences from cedar-policy-core
///
/// The original counts nothing.
#[tactic(auto, using(crate::specs::laws::Nodes::keys_match_kept))]
pub fn compute_tc_counted<
    K: Clone + Eq + Hash + Debug + Display,
    V: TCNode<K>,
    S: BuildHasher + Clone,
>(alloc: Global, nodes: &mut HashMap<K, V, S>, enforce_dag: bool) -> Result<Work, K>
    requires copies { ClonesAreEqual K.eq K.is_clone }
    requires keys { KeysMatch K.eq V.key nodes.old }
    ensures keys { KeysMatch K.eq V.key nodes.new }
    ensures keeps { KeepsAll K.eq V.key V.rest V.kept nodes.old nodes.new }
    ensures closes { Closes K.eq V.edges enforce_dag nodes.old nodes.new result }
    ensures reads { IfOk result (λ w. w.reads ≤ hash_map_len nodes.old) }
    ensures closings { IfOk result (λ w. w.closings ≤ 2 * hash_map_len nodes.old) }
    ensures lists { IfOk result (λ w.
        CoversEdged K.eq (graph_of K.eq V.edges nodes.old) w.reads) }
    ensures visits { IfOk result (λ w.
        CoversEdged K.eq (graph_of K.eq V.edges nodes.old) w.closings) }
{
    let closed = close(alloc, nodes, enforce_dag)?;
    if !enforce_dag || !closed.has_loop {
        return Ok(closed.work);
    }
    enforce_no_loop(nodes)?;
    Ok(closed.work)
}

/// Closes part of a graph: adds an edge from each node at a key of `nodes_to_fix` to each key that it reaches. The
/// other nodes do not change, and are expected to have an edge to every key that they reach. Keys of `nodes_to_fix`
/// that are not in the map have no effect.
///
/// The caller must ensure that each map key is its node's key, and that a copy of a key equals it.
///
/// Suppose that the other nodes have an edge to every key that they reach. If no key of `nodes_to_fix` lies on a cycle,
/// the result is `Ok`, and the edges of each node lead exactly to the keys that it reaches. If one lies on a cycle and
/// `enforce_dag` is `true`, the result is `HasCycle`.
///
/// In every graph, only edges to reached keys are added. The map's keys, each node's key, `rest` and `kept`, the
/// existing edges, and the nodes outside `nodes_to_fix` do not change.
///
/// # Errors
///
/// - `HasCycle`: `enforce_dag` is `true` and a key of `nodes_to_fix` lies on a cycle. The error names such a key.
/// - `Memory`: an allocation failed. No edge is removed, and each added edge leads to a reached key.
///
/// # Complexity
///
/// As in [`compute_tc`], for the keys to fix and the keys to which they have an edge. Lists the edges of the nodes at
/// these keys once, and reads no other node. Recurses only in sorting.
///
/// # Differences from cedar-policy-core
///
/// - The function takes an allocator, and `Memory` is a further error.
pub fn repair_tc<
    K: Clone + Eq + Hash + Debug + Display,
    V: TCNode<K>,
    S: BuildHasher + Clone,
    F: BuildHasher,
>(
    alloc: Global,
    nodes_to_fix: &HashSet<K, F>,
    nodes: &mut HashMap<K, V, S>,
    enforce_dag: bool,
) -> Result<(), K>
    requires copies { ClonesAreEqual K.eq K.is_clone }
    requires keys { KeysMatch K.eq V.key nodes.old }
    ensures keys { KeysMatch K.eq V.key nodes.new }
    ensures keeps { KeepsAll K.eq V.key V.rest V.kept nodes.old nodes.new }
    ensures repairs { Repairs K.eq V.edges enforce_dag (contains K.eq nodes_to_fix.now)
        nodes.old nodes.new result }
{
    repair_tc_counted(alloc, nodes_to_fix, nodes, enforce_dag)?;
    Ok(())
}

/// Closes part of a graph as [`repair_tc`] does, and counts its work.
///
/// - Reads: at most the number of keys in `nodes_to_fix` and of keys to which one of their nodes has an edge.
/// - Visits: at most twice the number of keys in `nodes_to_fix`. If the map has a node at each of them, at least that
///   number.
///
/// A count stays at `usize::MAX` once it is there.
///
/// # Errors
///
/// The errors of [`repair_tc`].
///
/// # Differences from cedar-policy-core
///
/// The original counts nothing.
#[tactic(auto, using(crate::specs::laws::Nodes::keys_match_kept))]
pub fn repair_tc_counted<
    K: Clone + Eq + Hash + Debug + Display,
    V: TCNode<K>,
    S: BuildHasher + Clone,
    F: BuildHasher,
>(
    alloc: Global,
    nodes_to_fix: &HashSet<K, F>,
    nodes: &mut HashMap<K, V, S>,
    enforce_dag: bool,
) -> Result<Work, K>
    requires copies { ClonesAreEqual K.eq K.is_clone }
    requires keys { KeysMatch K.eq V.key nodes.old }
    ensures keys { KeysMatch K.eq V.key nodes.new }
    ensures keeps { KeepsAll K.eq V.key V.rest V.kept nodes.old nodes.new }
    ensures repairs { Repairs K.eq V.edges enforce_dag (contains K.eq nodes_to_fix.now)
        nodes.old nodes.new result }
    ensures reads { IfOk result (λ w. IsAtMostNeeded K.eq (contains K.eq nodes_to_fix.now)
        (graph_of K.eq V.edges nodes.old) w.reads) }
    ensures closings { IfOk result (λ w. w.closings ≤ 2 * hash_set_len nodes_to_fix.now) }
    ensures visits { IfOk result (λ w. HasAll K.eq nodes_to_fix.now nodes.old
        → hash_set_len nodes_to_fix.now ≤ w.closings) }
{
    let work = repair(alloc, nodes_to_fix, nodes)?;
    if enforce_dag {
        enforce_no_loop_for(alloc, nodes_to_fix, nodes)?;
    }
    Ok(work)
}

/// Checks that a graph is closed and that no node has an edge to itself.
///
/// The caller must ensure that each map key is its node's key, and that a copy of a key equals it.
///
/// # Errors
///
/// - `MissingTcEdge`: the graph is not closed. The error names three keys that show it.
/// - `HasCycle`: the graph is closed, and the error names a key with an edge to itself.
/// - `Memory`: an allocation failed.
///
/// # Complexity
///
/// Lists edges as [`compute_tc`] does. The further work is proportional to the number of keys with edges, of edges, and
/// of reached keys. At the end it calls [`TCNode::has_edge_to`] once for each node. Allocates as [`compute_tc`] does.
///
/// # Differences from cedar-policy-core
///
/// - The function takes an allocator, and `Memory` is a further error.
pub fn enforce_tc_and_dag<
    K: Clone + Eq + Hash + Debug + Display,
    V: TCNode<K>,
    S: BuildHasher + Clone,
>(alloc: Global, nodes: &HashMap<K, V, S>) -> Result<(), K>
    requires copies { ClonesAreEqual K.eq K.is_clone }
    requires keys { KeysMatch K.eq V.key nodes.now }
    ensures ok { OnOk result (IsClosedWithoutLoop (graph_of K.eq V.edges nodes.now)) }
    ensures err { IfErr result (DeniesClosed (graph_of K.eq V.edges nodes.now)) }
{
    enforce_tc(alloc, nodes)?;
    enforce_no_loop(nodes)
}
