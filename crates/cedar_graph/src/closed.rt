//! The check that a graph is closed.
ghost use Rattle.std.specs.Prelude.{◌≡◌, ℕ, ◌<◌, ◌≤◌, true, None, IfErr, IfOk, OnOk, length, slice_index};
ghost use Rattle.std.specs.Option.{IfSome};
ghost use Rattle.std.specs.Set.{ClonesAreEqual};
ghost use Rattle.cedar_components.specs.Reach.{AreArcs, HasPath};
ghost use Rattle.cedar_graph.specs.Graph.{graph_of, IsClosed};
ghost use Rattle.cedar_graph.specs.Faults.{BreaksClosed, MatchFault};
ghost use Rattle.cedar_graph.specs.laws.Arcs.{Ascends, IsKeyAt};
ghost use Rattle.cedar_graph.specs.laws.Checks.{AreClosedBelow, IsClosedAt, KeepsKnown, LacksAt, Leaks, SomeLacks};
ghost use Rattle.cedar_graph.specs.laws.Readings.{IsArc};
ghost use Rattle.cedar_graph.specs.laws.Writings.{IsReachOf, KnowsTargets};

use crate::arcs::{FixReading, Reading, read_arcs};
use crate::close::{Known, listed_for, mark_targets, reach_of};
use crate::err::{MissingTcEdge, Result, TcError};
use crate::transitive_closure::TCNode;
use cedar_components::Reached;
use std::alloc::{AllocError, Global};
use std::collections::HashMap;
use std::fmt::{Debug, Display};
use std::hash::{BuildHasher, Hash};

// Checks whether each number that number `x` reaches is known.
fn knows_reached<K: Clone + Eq + Hash, S: BuildHasher>(
    read: &Reading<K, S>,
    reached: &Reached,
    x: usize,
    known: &Known,
) -> bool
    requires reach { IsReachOf read.now reached.now }
    requires within { x < length read.now.keys.keys }
    requires marks { length known.now.marks.items ≡ length read.now.keys.keys }
    ensures { result ≡ true → (y : ℕ) → HasPath (IsArc read.now) x y
        → slice_index known.now.marks.items y ≡ known.now.mark }
{
    for y in listed_for(read, reached, x) {
        if known.marks[*y] != known.mark {
            return false;
        }
    }
    true
}

// Returns the place of the first arc from a known number to an unknown one.
fn first_leak<K: Clone + Eq + Hash, S: BuildHasher>(
    read: &Reading<K, S>,
    known: &Known,
) -> Option<usize>
    requires arcs { AreArcs read.now.from.items read.now.to.items (length read.now.keys.keys) }
    requires marks { length known.now.marks.items ≡ length read.now.keys.keys }
    ensures some { IfSome result (Leaks read.now known.now) }
    ensures none { result ≡ None → KeepsKnown read.now known.now (length read.now.from.items) }
{
    for k in 0..read.from.len() {
        let is_known = known.marks[read.from[k]] == known.mark;
        if is_known && known.marks[read.to[k]] != known.mark {
            return Some(k);
        }
    }
    None
}

// Returns the place of an arc from a target of number `x` to a number that is not a target of `x`. The known numbers
// are the targets of `x`.
fn first_lack<K: Clone + Eq + Hash, S: BuildHasher>(
    read: &Reading<K, S>,
    reached: &Reached,
    x: usize,
    known: &Known,
) -> Option<usize>
    requires arcs { AreArcs read.now.from.items read.now.to.items (length read.now.keys.keys) }
    requires reach { IsReachOf read.now reached.now }
    requires within { x < length read.now.keys.keys }
    requires marks { length known.now.marks.items ≡ length read.now.keys.keys }
    requires known { KnowsTargets read.now.from.items read.now.to.items x known.now }
    ensures some { IfSome result (Leaks read.now known.now) }
    ensures none { result ≡ None → IsClosedAt (IsArc read.now) x }
{
    if knows_reached(read, reached, x, known) {
        return None;
    }
    first_leak(read, known)
}

// Creates the error with the keys of three numbers.
fn missing<K: Clone + Eq + Hash + Debug + Display>(
    keys: &[K],
    child: usize,
    parent: usize,
    grandparent: usize,
) -> std::result::Result<TcError<K>, AllocError>
    requires copies { ClonesAreEqual K.eq K.is_clone }
    requires child { child < length keys.now }
    requires parent { parent < length keys.now }
    requires grandparent { grandparent < length keys.now }
    ensures { IfOk result (λ e. MatchFault e
        (λ a b c. IsKeyAt K.eq keys.now child a × IsKeyAt K.eq keys.now parent b
        × IsKeyAt K.eq keys.now grandparent c)
        (λ _. ⊥)) }
{
    Ok(TcError::MissingTcEdge(MissingTcEdge {
        child: keys[child].clone()?,
        parent: keys[parent].clone()?,
        grandparent: keys[grandparent].clone()?,
    }))
}

// Returns an error if number `x` has no arc to a target of one of its targets. The known numbers are the targets of
// `x`.
fn check_number<K: Clone + Eq + Hash + Debug + Display, S: BuildHasher>(
    read: &Reading<K, S>,
    reached: &Reached,
    x: usize,
    known: &Known,
) -> Result<(), K>
    requires copies { ClonesAreEqual K.eq K.is_clone }
    requires arcs { AreArcs read.now.from.items read.now.to.items (length read.now.keys.keys) }
    requires reach { IsReachOf read.now reached.now }
    requires within { x < length read.now.keys.keys }
    requires marks { length known.now.marks.items ≡ length read.now.keys.keys }
    requires known { KnowsTargets read.now.from.items read.now.to.items x known.now }
    ensures ok { OnOk result (IsClosedAt (IsArc read.now) x) }
    ensures err { IfErr result (λ e. MatchFault e (LacksAt K.eq read.now x) (λ _. ⊥)) }
{
    let Some(place) = first_lack(read, reached, x, known) else {
        return Ok(());
    };
    let parent = read.from[place];
    let grandparent = read.to[place];
    Err(missing(read.keys.as_slice(), x, parent, grandparent)?)
}

// Returns an error for the first number to fix that has no arc to a target of one of its targets.
fn check_numbers<K: Clone + Eq + Hash + Debug + Display, S: BuildHasher>(
    alloc: Global,
    read: &FixReading<K, S>,
    reached: &Reached,
) -> Result<(), K>
    requires copies { ClonesAreEqual K.eq K.is_clone }
    requires arcs { AreArcs read.now.reading.from.items read.now.reading.to.items
        (length read.now.reading.keys.keys) }
    requires ascending { Ascends read.now.reading.from.items }
    requires fixed { read.now.fixed ≤ length read.now.reading.keys.keys }
    requires reach { IsReachOf read.now.reading reached.now }
    ensures ok { OnOk result (AreClosedBelow (IsArc read.now.reading) read.now.fixed) }
    ensures err { IfErr result (λ e. MatchFault e (SomeLacks K.eq read.now.reading) (λ _. ⊥)) }
{
    let arcs = &read.reading;
    let mut known = Known {
        marks: vec![in alloc; 0; arcs.keys.len()]?,
        mark: 0,
        count: 0,
        last: 0,
    };
    let mut place = 0;
    for x in 0..read.fixed {
        place = mark_targets(&arcs.from, &arcs.to, &mut known, x, place);
        check_number(arcs, reached, x, &known)?;
    }
    Ok(())
}

// Checks whether the graph is closed: whether each number has an arc to each number that it reaches. The strongly
// connected components give the reached numbers. Only if an arc is missing are the arcs searched for three keys that
// show it.
pub(crate) fn enforce_tc<
    K: Clone + Eq + Hash + Debug + Display,
    V: TCNode<K>,
    S: BuildHasher + Clone,
>(alloc: Global, nodes: &HashMap<K, V, S>) -> Result<(), K>
    requires { ClonesAreEqual K.eq K.is_clone }
    ensures ok { OnOk result (IsClosed (graph_of K.eq V.edges nodes.now)) }
    ensures err { IfErr result (λ e. MatchFault e
        (BreaksClosed (graph_of K.eq V.edges nodes.now))
        (λ _. ⊥)) }
{
    let read = read_arcs(alloc, nodes)?;
    let reached = reach_of::<K, V, S>(alloc, &read.reading)?;
    check_numbers(alloc, &read, &reached.numbers)
}
