//! Closing and repairing a graph that must not have a cycle. A cycle is reported before anything is written.
ghost use Rattle.std.specs.Prelude.{◌≡◌, ℕ, ◌<◌, ◌≤◌, true, None, IfErr, IfOk, OnOk, length};
ghost use Rattle.std.specs.Option.{IfSome};
ghost use Rattle.std.specs.Set.{ClonesAreEqual};
ghost use Rattle.std.specs.HashSet.{contains};
ghost use Rattle.cedar_components.specs.Reach.{AreArcs, HasPath};
ghost use Rattle.cedar_graph.specs.Calls.{ClosesDag, KeepsAll, RepairsDag};
ghost use Rattle.cedar_graph.specs.Faults.{MatchFault};
ghost use Rattle.cedar_graph.specs.Graph.{KeysMatch};
ghost use Rattle.cedar_graph.specs.laws.Readings.{IsArc};
ghost use Rattle.cedar_graph.specs.laws.Writings.{HasMarks, IsKeyOfLoop, IsReachOf, NoneLoops};

use crate::arcs::{FixReading, Reading, read_arcs, read_fix};
use crate::close::{reach_of, reaches_itself, write_rows};
use crate::err::{HasCycle, Result, TcError};
use crate::transitive_closure::TCNode;
use cedar_components::Reached;
use std::alloc::{AllocError, Global};
use std::collections::{HashMap, HashSet};
use std::fmt::{Debug, Display};
use std::hash::{BuildHasher, Hash};

// Computes for each number whether an arc leads to it.
fn marked_targets<K: Clone + Eq + Hash, S: BuildHasher>(
    alloc: Global,
    read: &Reading<K, S>,
) -> std::result::Result<Vec<bool>, AllocError>
    requires { AreArcs read.now.from.items read.now.to.items (length read.now.keys.keys) }
    ensures { IfOk result (λ v. HasMarks read.now (length read.now.to.items) v.items) }
{
    let mut led = vec![in alloc; false; read.keys.len()]?;
    for y in &read.to {
        led[*y] = true;
    }
    Ok(led)
}

// Returns the first number to fix that reaches itself. Checks only numbers to which an arc leads.
fn first_loop<K: Clone + Eq + Hash, S: BuildHasher>(
    read: &FixReading<K, S>,
    reached: &Reached,
    led: &[bool],
) -> Option<usize>
    requires reach { IsReachOf read.now.reading reached.now }
    requires fixed { read.now.fixed ≤ length read.now.reading.keys.keys }
    requires led { HasMarks read.now.reading (length read.now.reading.to.items) led.now }
    requires same { length read.now.reading.to.items ≡ length read.now.reading.from.items }
    ensures some { IfSome result (λ x. (x < read.now.fixed) × HasPath (IsArc read.now.reading) x x) }
    ensures none { result ≡ None → NoneLoops (IsArc read.now.reading) read.now.fixed }
{
    for x in 0..read.fixed {
        if led[x] && reaches_itself(&read.reading, reached, x) {
            return Some(x);
        }
    }
    None
}

// Checks whether each arc leads to a component that comes before its own. If so, no number reaches itself. Otherwise a
// number may reach itself.
fn descends<K: Clone + Eq + Hash, S: BuildHasher>(read: &Reading<K, S>, reached: &Reached) -> bool
    requires reach { IsReachOf read.now reached.now }
    requires arcs { AreArcs read.now.from.items read.now.to.items (length read.now.keys.keys) }
    ensures { result ≡ true → (x : ℕ) → HasPath (IsArc read.now) x x → ⊥ }
{
    for k in 0..read.from.len() {
        if reached.component[read.from[k]] <= reached.component[read.to[k]] {
            return false;
        }
    }
    true
}

// Returns an error with the key of the first number to fix that reaches itself. The numbers are searched only if the
// order of the components does not exclude a cycle.
fn refuse_loop<K: Clone + Eq + Hash + Debug + Display, S: BuildHasher>(
    alloc: Global,
    read: &FixReading<K, S>,
    reached: &Reached,
) -> Result<(), K>
    requires copies { ClonesAreEqual K.eq K.is_clone }
    requires reach { IsReachOf read.now.reading reached.now }
    requires fixed { read.now.fixed ≤ length read.now.reading.keys.keys }
    requires arcs { AreArcs read.now.reading.from.items read.now.reading.to.items
        (length read.now.reading.keys.keys) }
    ensures ok { OnOk result (NoneLoops (IsArc read.now.reading) read.now.fixed) }
    ensures err { IfErr result (λ e. MatchFault e (λ _ _ _. ⊥) (IsKeyOfLoop K.eq read.now)) }
{
    if descends(&read.reading, reached) {
        return Ok(());
    }
    let led = marked_targets(alloc, &read.reading)?;
    if let Some(x) = first_loop(read, reached, &led) {
        let keys = read.reading.keys.as_slice();
        return Err(TcError::HasCycle(HasCycle {
            vertex: keys[x].clone()?,
        }));
    }
    Ok(())
}

/// Closes a graph that must not have a cycle, as [`compute_tc`](crate::compute_tc) does with `enforce_dag`. A cycle is
/// reported before anything is written.
///
/// The caller must ensure that each map key is its node's key, and that a copy of a key equals it. The map's keys and
/// each node's key, `rest` and `kept` do not change, even if an error is returned.
///
/// # Errors
///
/// - `HasCycle`: a node of the map lies on a cycle. The error names such a node, and the map is unchanged.
/// - `Memory`: an allocation failed. No edge is removed, and each added edge leads to a reached key.
///
/// # Complexity
///
/// As in [`compute_tc`](crate::compute_tc). In addition it reads each edge once more. It calls no `has_edge_to`. For a
/// graph with a cycle it costs only the reading of the graph and its components, not the edges of the closure.
///
/// For a graph with a cycle it allocates one more byte per numbered key.
///
/// # Differences from cedar-policy-core
///
/// The original has no such function.
#[tactic(auto, using(crate::specs::laws::Nodes::keys_match_kept))]
pub fn close_dag<K: Clone + Eq + Hash + Debug + Display, V: TCNode<K>, S: BuildHasher + Clone>(
    alloc: Global,
    nodes: &mut HashMap<K, V, S>,
) -> Result<(), K>
    requires copies { ClonesAreEqual K.eq K.is_clone }
    requires keys { KeysMatch K.eq V.key nodes.old }
    ensures keys { KeysMatch K.eq V.key nodes.new }
    ensures keeps { KeepsAll K.eq V.key V.rest V.kept nodes.old nodes.new }
    ensures closes { ClosesDag K.eq V.edges nodes.old nodes.new result }
{
    let read = read_arcs(alloc, nodes)?;
    let reached = reach_of::<K, V, S>(alloc, &read.reading)?;
    refuse_loop(alloc, &read, &reached.numbers)?;
    write_rows(alloc, nodes, &read, &reached, false)?;
    Ok(())
}

/// Closes part of a graph, as [`repair_tc`](crate::repair_tc) does with `enforce_dag`. A cycle through a key of
/// `nodes_to_fix` is reported before anything is written.
///
/// The caller must ensure that each map key is its node's key, and that a copy of a key equals it.
///
/// Suppose that each node outside `nodes_to_fix` has an edge to every key that it reaches. If no key of `nodes_to_fix`
/// lies on a cycle, the result is `Ok`, and the edges of each node lead exactly to the keys that it reaches. If one
/// lies on a cycle, the result is `HasCycle`.
///
/// In every graph, only edges to reached keys are added. The map's keys, each node's key, `rest` and `kept`, the
/// existing edges, and the nodes outside `nodes_to_fix` do not change.
///
/// # Errors
///
/// - `HasCycle`: a key of `nodes_to_fix` lies on a cycle. The error names such a key, and the map is unchanged.
/// - `Memory`: an allocation failed. No edge is removed, and each added edge leads to a reached key.
///
/// # Complexity
///
/// As in [`close_dag`], for the keys to fix and the keys to which they have an edge.
///
/// # Differences from cedar-policy-core
///
/// The original has no such function.
#[tactic(auto, using(crate::specs::laws::Nodes::keys_match_kept))]
pub fn repair_dag<
    K: Clone + Eq + Hash + Debug + Display,
    V: TCNode<K>,
    S: BuildHasher + Clone,
    F: BuildHasher,
>(alloc: Global, nodes_to_fix: &HashSet<K, F>, nodes: &mut HashMap<K, V, S>) -> Result<(), K>
    requires copies { ClonesAreEqual K.eq K.is_clone }
    requires keys { KeysMatch K.eq V.key nodes.old }
    ensures keys { KeysMatch K.eq V.key nodes.new }
    ensures keeps { KeepsAll K.eq V.key V.rest V.kept nodes.old nodes.new }
    ensures repairs { RepairsDag K.eq V.edges (contains K.eq nodes_to_fix.now) nodes.old nodes.new result }
{
    let read = read_fix(alloc, nodes_to_fix, nodes)?;
    let reached = reach_of::<K, V, S>(alloc, &read.reading)?;
    refuse_loop(alloc, &read, &reached.numbers)?;
    write_rows(alloc, nodes, &read, &reached, false)?;
    Ok(())
}
